//! What the builtin functions on a memory ask of the pointer that they are given.

ghost use Rattle.wgsl_scalar.specs.Answers.{Answers};
ghost use Rattle.wgsl_types.specs.Atomics.{pointed, writable};
ghost use Rattle.wgsl_values.specs.View.{reference_of, value_of};

use wgsl_scalar::{BuiltinReason, Error};
use wgsl_values::{Instance, RefInstance};

/// What the pointer points to; another value is refused by `Builtin`.
pub(crate) fn pointed(p: &Instance) -> Result<&RefInstance, Error>
    ensures { Answers (λ r. reference_of r.now) result (pointed (value_of p.now)) }
{
    match p {
        Instance::Ptr(pointer) => Ok(pointer.ptr()),
        Instance::Literal(_) | Instance::Struct(_) | Instance::Array(_) => {
            Err(Error::Builtin(BuiltinReason::NotPointer))
        }
        Instance::Vec(_) | Instance::Mat(_) | Instance::Ref(_) => {
            Err(Error::Builtin(BuiltinReason::NotPointer))
        }
        Instance::Atomic(_) | Instance::Deferred(_) => {
            Err(Error::Builtin(BuiltinReason::NotPointer))
        }
    }
}

/// What the pointer points to, where a write is allowed; else `NotReadWrite`.
pub(crate) fn writable(p: &Instance) -> Result<&RefInstance, Error>
    ensures { Answers (λ r. reference_of r.now) result (writable (value_of p.now)) }
{
    let reference = pointed(p)?;
    if reference.access().is_write() {
        Ok(reference)
    } else {
        Err(Error::NotReadWrite)
    }
}
