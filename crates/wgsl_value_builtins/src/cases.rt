//! What the builtin functions ask of their arguments.

ghost use Rattle.std.specs.Prelude.{◌≡◌, IsTrue, Some};
ghost use Rattle.wgsl_rules.specs.Paths.{parts};
ghost use Rattle.wgsl_rules.specs.Values.{IsWellFormed, item, type_of};
ghost use Rattle.wgsl_scalar.specs.Literals.{literal_of};
ghost use Rattle.wgsl_value_builtins.specs.Logical.{is_known};
ghost use Rattle.wgsl_values.specs.View.{value_of, vec_view};

use wgsl_scalar::LiteralInstance;
use wgsl_values::{Instance, VecInstance};

/// Whether the value is not deferred.
pub(crate) fn is_known(value: &Instance) -> bool
    ensures { result ≡ is_known (value_of value.now) }
{
    match value {
        Instance::Deferred(_) => false,
        Instance::Literal(_) | Instance::Struct(_) | Instance::Array(_) => true,
        Instance::Vec(_) | Instance::Mat(_) | Instance::Atomic(_) => true,
        Instance::Ptr(_) | Instance::Ref(_) => true,
    }
}

// Whether the literals are of one type.
fn are_of_one_kind(left: &LiteralInstance, right: &LiteralInstance) -> bool
    ensures { IsTrue result → type_of (literal_of left.now) ≡ type_of (literal_of right.now) }
{
    match left {
        LiteralInstance::Bool(_) => matches!(right, LiteralInstance::Bool(_)),
        LiteralInstance::AbstractInt(_) => matches!(right, LiteralInstance::AbstractInt(_)),
        LiteralInstance::I32(_) => matches!(right, LiteralInstance::I32(_)),
        LiteralInstance::U32(_) => matches!(right, LiteralInstance::U32(_)),
        LiteralInstance::I64(_) => matches!(right, LiteralInstance::I64(_)),
        LiteralInstance::U64(_) => matches!(right, LiteralInstance::U64(_)),
    }
}

// The first component, whose type is that of each.
fn first_component(vector: &VecInstance) -> &LiteralInstance
    requires { IsWellFormed (vec_view vector.now) }
    ensures { Some (literal_of result.now) ≡ item 0 (parts (vec_view vector.now)) }
{
    let components = vector.as_slice();
    components[0].unwrap_literal_ref()
}

// Whether the vectors are of one type.
#[tactic(auto, using(crate::proofs::OwnTypes::vectors_typed))]
fn are_vectors_of_one_type(left: &VecInstance, right: &VecInstance) -> bool
    requires left { IsWellFormed (vec_view left.now) }
    requires right { IsWellFormed (vec_view right.now) }
    ensures { IsTrue result → type_of (vec_view left.now) ≡ type_of (vec_view right.now) }
{
    if left.n() != right.n() {
        return false;
    }
    are_of_one_kind(first_component(left), first_component(right))
}

/// Whether both are literals, or both vectors, of one type, so that nothing has to be converted. Other
/// values are not looked at: `false` says nothing of their types.
pub(crate) fn are_of_one_type(left: &Instance, right: &Instance) -> bool
    requires left { IsWellFormed (value_of left.now) }
    requires right { IsWellFormed (value_of right.now) }
    ensures { IsTrue result → type_of (value_of left.now) ≡ type_of (value_of right.now) }
{
    match (left, right) {
        (Instance::Literal(a), Instance::Literal(b)) => are_of_one_kind(a, b),
        (Instance::Vec(a), Instance::Vec(b)) => are_vectors_of_one_type(a, b),
        _ => false,
    }
}
