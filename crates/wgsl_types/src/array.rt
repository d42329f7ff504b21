//! The length of an array (WGSL: array builtin functions).

ghost use Rattle.std.specs.Prelude.{IfOk, pos};
ghost use Rattle.wgsl_rules.specs.Converted.{number_in};
ghost use Rattle.wgsl_rules.specs.Kinds as kinds;
ghost use Rattle.wgsl_rules.specs.Refusals.{builtin};
ghost use Rattle.wgsl_rules.specs.Values.{IsStorable};
ghost use Rattle.wgsl_scalar.specs.Answers.{Answers, Gives};
ghost use Rattle.wgsl_scalar.specs.Operands.{ok_or};
ghost use Rattle.wgsl_types.specs.Atomics.{KeepsPointer, array_length};
ghost use Rattle.wgsl_values.specs.View.{value_of};

use crate::pointers::pointed;
use std::alloc::Global;
use wgsl_scalar::{BuiltinReason, Error};
use wgsl_store::Store;
use wgsl_values::Instance;

// The count as a `u32`; a greater one is refused by `Builtin`.
fn number(n: usize) -> Result<Instance, Error>
    ensures outcome { Answers value_of result (ok_or builtin (number_in kinds.u32 (pos n))) }
    ensures storable { IfOk result (λ n. IsStorable (value_of n)) }
{
    match u32::try_from(n) {
        Ok(n) => Ok(Instance::from(n)),
        Err(_) => Err(Error::Builtin(BuiltinReason::OutOfRange)),
    }
}

/// The number of elements, as a `u32`, of the array that the pointer points to, fixed-size or runtime-sized (WGSL:
/// array builtin functions, `arrayLength`).
///
/// Refusals in order: `Builtin` for no pointer, `NotRead` without read access, `Builtin` where it points to no array
/// or to one with more than 4294967295 elements. The condition: the store keeps the reference of the pointer.
pub fn arrayLength(alloc: Global, store: &Store, p: &Instance) -> Result<Instance, Error>
    requires { KeepsPointer store.now (value_of p.now) }
    ensures outcome { Gives value_of result (array_length store.now (value_of p.now)) }
    ensures storable { IfOk result (λ n. IsStorable (value_of n)) }
{
    let reference = pointed(p)?;
    if !reference.access().is_read() {
        return Err(Error::NotRead);
    }
    match store.element_count(reference) {
        Some(n) => number(n),
        None => Err(Error::Builtin(BuiltinReason::NotArray)),
    }
}
