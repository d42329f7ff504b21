//! Operators on vectors, component by component (WGSL: arithmetic expressions; bit expressions).

ghost use Rattle.std.specs.Prelude.{◌≡◌, ◌↔◌, IfOk, IsTrue};
ghost use Rattle.wgsl_value_ops.specs.Instances.{of_each};
ghost use Rattle.wgsl_value_ops.specs.Vectors.{
  of_components,
  of_converted,
  of_each_and_scalar,
  of_scalar_and_each,
  of_scalar_vector,
  of_vector_scalar,
};
ghost use Rattle.wgsl_rules.specs.TypeParts.{inner_type};
ghost use Rattle.wgsl_rules.specs.Values.{IsStorable, IsWellFormed, type_of};
ghost use Rattle.wgsl_scalar.specs.Answers.{Gives};
ghost use Rattle.wgsl_scalar.specs.Literals.{literal_of};
ghost use Rattle.wgsl_values.specs.View.{vec_view};

use crate::compwise::Compwise;
use crate::operators::{binary, literal_at, unary};
use std::alloc::Global;
use wgsl_rules::{BinaryOperator, ShaderStage, Ty, UnaryOperator, convert, convert_inner};
use wgsl_scalar::{Error, LiteralInstance};
use wgsl_values::VecInstance;

/// The operator at each component.
pub(crate) fn of_each(
    alloc: Global,
    operator: UnaryOperator,
    vector: &VecInstance,
) -> Result<VecInstance, Error>
    requires { IsWellFormed (vec_view vector.now) }
    ensures value { Gives vec_view result (of_each operator (vec_view vector.now)) }
    ensures storable { IfOk result (λ v. IsStorable (vec_view v)) }
{
    vector.compwise_unary(alloc, |c| unary(operator, c))
}

/// The operator at each two components by themselves; unequal counts are `CompwiseBinary`.
pub(crate) fn of_components(
    alloc: Global,
    operator: BinaryOperator,
    stage: ShaderStage,
    left: &VecInstance,
    right: &VecInstance,
) -> Result<VecInstance, Error>
    requires left { IsWellFormed (vec_view left.now) }
    requires right { IsWellFormed (vec_view right.now) }
    ensures value { Gives vec_view result (of_components operator stage (vec_view left.now) (vec_view right.now)) }
    ensures storable { IfOk result (λ v. IsStorable (vec_view v)) }
{
    left.compwise_binary(alloc, right, |a, b| binary(operator, stage, a, b))
}

// Whether the literals are of one type.
fn are_of_one_kind(left: LiteralInstance, right: LiteralInstance) -> bool
    ensures { IsTrue result → type_of (literal_of left) ≡ type_of (literal_of right) }
{
    match left {
        LiteralInstance::Bool(_) => matches!(right, LiteralInstance::Bool(_)),
        LiteralInstance::AbstractInt(_) => matches!(right, LiteralInstance::AbstractInt(_)),
        LiteralInstance::I32(_) => matches!(right, LiteralInstance::I32(_)),
        LiteralInstance::U32(_) => matches!(right, LiteralInstance::U32(_)),
        LiteralInstance::I64(_) => matches!(right, LiteralInstance::I64(_)),
        LiteralInstance::U64(_) => matches!(right, LiteralInstance::U64(_)),
    }
}

// Whether the components are of the type of the scalar, so that nothing has to be converted.
#[tactic(auto, using(crate::proofs::OwnTypes::of_one_type))]
fn has_components_of(vector: &VecInstance, scalar: LiteralInstance) -> bool
    requires { IsWellFormed (vec_view vector.now) }
    ensures { IsTrue result → inner_type (type_of (vec_view vector.now)) ≡ type_of (literal_of scalar) }
{
    let components = vector.as_slice();
    are_of_one_kind(literal_at(components, 0), scalar)
}

// Whether the vectors are of one type.
#[tactic(auto, using(crate::proofs::OwnTypes::one_type))]
fn are_of_one_type(left: &VecInstance, right: &VecInstance) -> bool
    requires left { IsWellFormed (vec_view left.now) }
    requires right { IsWellFormed (vec_view right.now) }
    ensures { IsTrue result → type_of (vec_view left.now) ≡ type_of (vec_view right.now) }
{
    if left.n() != right.n() {
        return false;
    }
    let components = right.as_slice();
    has_components_of(left, literal_at(components, 0))
}

/// The operator at each two components of both vectors in their common type; without one `Binary`
/// with the types of the vectors.
pub(crate) fn of_converted(
    alloc: Global,
    operator: BinaryOperator,
    stage: ShaderStage,
    left: &VecInstance,
    right: &VecInstance,
) -> Result<VecInstance, Error>
    requires left { IsWellFormed (vec_view left.now) }
    requires right { IsWellFormed (vec_view right.now) }
    ensures value { Gives vec_view result (of_converted operator stage (vec_view left.now) (vec_view right.now)) }
    ensures storable { IfOk result (λ v. IsStorable (vec_view v)) }
{
    if are_of_one_type(left, right) {
        return of_components(alloc, operator, stage, left, right);
    }
    match convert(alloc, left, right)? {
        Some((a, b)) => of_components(alloc, operator, stage, &a, &b),
        None => Err(Error::Binary(operator, left.ty(alloc)?, right.ty(alloc)?)),
    }
}

/// The operator at each component by itself and the scalar.
pub(crate) fn of_each_and_scalar(
    alloc: Global,
    operator: BinaryOperator,
    stage: ShaderStage,
    vector: &VecInstance,
    scalar: &LiteralInstance,
) -> Result<VecInstance, Error>
    requires { IsWellFormed (vec_view vector.now) }
    ensures value { Gives vec_view result (of_each_and_scalar operator stage (vec_view vector.now) (literal_of scalar.now)) }
    ensures storable { IfOk result (λ v. IsStorable (vec_view v)) }
{
    vector.compwise_unary(alloc, |c| binary(operator, stage, c, scalar))
}

/// The operator at the scalar and each component by itself.
pub(crate) fn of_scalar_and_each(
    alloc: Global,
    operator: BinaryOperator,
    stage: ShaderStage,
    scalar: &LiteralInstance,
    vector: &VecInstance,
) -> Result<VecInstance, Error>
    requires { IsWellFormed (vec_view vector.now) }
    ensures value { Gives vec_view result (of_scalar_and_each operator stage (literal_of scalar.now) (vec_view vector.now)) }
    ensures storable { IfOk result (λ v. IsStorable (vec_view v)) }
{
    vector.compwise_unary(alloc, |c| binary(operator, stage, scalar, c))
}

/// The operator at each component and the scalar in their common type; without one `Binary` with the
/// type of the vector first.
pub(crate) fn of_vector_scalar(
    alloc: Global,
    operator: BinaryOperator,
    stage: ShaderStage,
    vector: &VecInstance,
    scalar: &LiteralInstance,
) -> Result<VecInstance, Error>
    requires { IsWellFormed (vec_view vector.now) }
    ensures value { Gives vec_view result (of_vector_scalar operator stage (vec_view vector.now) (literal_of scalar.now)) }
    ensures storable { IfOk result (λ v. IsStorable (vec_view v)) }
{
    if has_components_of(vector, *scalar) {
        return of_each_and_scalar(alloc, operator, stage, vector, scalar);
    }
    let scalar_ty = scalar.literal_ty();
    match convert_inner(alloc, vector, scalar)? {
        Some((v, s)) => of_each_and_scalar(alloc, operator, stage, &v, &s),
        None => Err(Error::Binary(operator, vector.ty(alloc)?, scalar_ty)),
    }
}

/// The operator at the scalar and each component in their common type; without one `Binary` with the
/// type of the scalar first.
pub(crate) fn of_scalar_vector(
    alloc: Global,
    operator: BinaryOperator,
    stage: ShaderStage,
    scalar: &LiteralInstance,
    vector: &VecInstance,
) -> Result<VecInstance, Error>
    requires { IsWellFormed (vec_view vector.now) }
    ensures value { Gives vec_view result (of_scalar_vector operator stage (literal_of scalar.now) (vec_view vector.now)) }
    ensures storable { IfOk result (λ v. IsStorable (vec_view v)) }
{
    if has_components_of(vector, *scalar) {
        return of_scalar_and_each(alloc, operator, stage, scalar, vector);
    }
    let scalar_ty = scalar.literal_ty();
    match convert_inner(alloc, scalar, vector)? {
        Some((s, v)) => of_scalar_and_each(alloc, operator, stage, &s, &v),
        None => Err(Error::Binary(operator, scalar_ty, vector.ty(alloc)?)),
    }
}
