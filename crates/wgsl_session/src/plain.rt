//! Values that hold no reference or pointer (WGSL: reference and pointer types).

ghost use Rattle.std.specs.Prelude.{◌≡◌, ◌↔◌, [], IsTrue};
ghost use Rattle.wgsl_rules.specs.Values.{IsStorable, AreStorable};
ghost use Rattle.wgsl_session.specs.Calls.{IsPlain};
ghost use Rattle.wgsl_store.specs.Memory.{references, references_in};
ghost use Rattle.wgsl_values.specs.View.{value_of, vals_view};

use wgsl_values::Instance;

/// Whether the value may be stored, and holds no reference or pointer at any path.
pub(crate) fn is_plain(value: &Instance) -> bool
    ensures { IsTrue result ↔ IsPlain (value_of value.now) }
{
    value.is_storable() && is_free(value)
}

// Whether the value holds no reference or pointer. The condition: it may be stored.
#[cycle(free)]
fn is_free(value: &Instance) -> bool
    requires { IsStorable (value_of value.now) }
    ensures { IsTrue result ↔ (references (value_of value.now) ≡ []) }
{
    match value {
        Instance::Ptr(_) | Instance::Ref(_) => false,
        Instance::Struct(s) => are_free(s.members()),
        Instance::Array(a) => are_free(a.as_slice()),
        Instance::Literal(_) | Instance::Atomic(_) | Instance::Deferred(_) => true,
        // A component of a vector is a literal, and a column of a matrix is a vector.
        Instance::Vec(_) => true,
        Instance::Mat(_) => true,
    }
}

// Whether none of the values holds a reference or pointer. The condition: they may be stored.
#[cycle(free)]
fn are_free(values: &[Instance]) -> bool
    requires { AreStorable (vals_view values.now) }
    ensures { IsTrue result ↔ (references_in (vals_view values.now) ≡ []) }
{
    for value in values {
        if !is_free(value) {
            return false;
        }
    }
    true
}
