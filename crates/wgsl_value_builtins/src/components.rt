//! The components of vectors (WGSL: vector types).

ghost use Rattle.wgsl_scalar.specs.Answers.{Answers};
ghost use Rattle.wgsl_value_builtins.specs.Components.{components_of};
ghost use Rattle.wgsl_values.specs.View.{vals_view, value_of};

use wgsl_scalar::{BuiltinReason, Error};
use wgsl_values::Instance;

/// The components of a vector; another value is refused by `Builtin`.
pub(crate) fn components(value: &Instance) -> Result<&[Instance], Error>
    ensures { Answers (λ vs. vals_view vs.now) result (components_of (value_of value.now)) }
{
    match value {
        Instance::Vec(v) => Ok(v.as_slice()),
        Instance::Literal(_) | Instance::Struct(_) | Instance::Array(_) => {
            Err(Error::Builtin(BuiltinReason::NotVector))
        }
        Instance::Mat(_) | Instance::Ptr(_) | Instance::Ref(_) => {
            Err(Error::Builtin(BuiltinReason::NotVector))
        }
        Instance::Atomic(_) | Instance::Deferred(_) => {
            Err(Error::Builtin(BuiltinReason::NotVector))
        }
    }
}
