//! The numeric builtin functions on fields of bits, and on the places of bits (WGSL: numeric builtin
//! functions).

ghost use Rattle.std.specs.Prelude.{IfOk};
ghost use Rattle.wgsl_rules.specs.Values.{IsStorable, IsWellFormed};
ghost use Rattle.wgsl_scalar.specs.Answers.{Gives};
ghost use Rattle.wgsl_value_builtins.specs.BitFunctions.{
  extracted_bits,
  first_leading_bits,
  first_trailing_bits,
  inserted_bits,
  reversed_bits,
};
ghost use Rattle.wgsl_values.specs.View.{value_of};

use crate::lifts::{BinaryFunction, UnaryFunction, in_common_type, on_components};
use crate::packing::word_in;
use std::alloc::Global;
use wgsl_scalar::Error;
use wgsl_values::Instance;

/// The field of `count` bits from `offset` on of an `i32` or a `u32`, or of each component of a vector of
/// them, as a number of its type: an `i32` has the sign of the field's highest bit, and without bits the
/// number is 0. In each stage the offset is at most 32 and the count at most what is left from there, as
/// if the lesser had been asked. Refused by `Builtin` for every other number, for bools and for values of any
/// other case, and where `offset` or `count` does not convert to `u32` (WGSL: numeric builtin functions,
/// `extractBits`; past 32 it is this crate's own). The condition: the values are well-formed.
pub fn extractBits(
    alloc: Global,
    e: &Instance,
    offset: &Instance,
    count: &Instance,
) -> Result<Instance, Error>
    requires e { IsWellFormed (value_of e.now) }
    requires offset { IsWellFormed (value_of offset.now) }
    requires count { IsWellFormed (value_of count.now) }
    ensures value { Gives value_of result (extracted_bits (value_of e.now) (value_of offset.now) (value_of count.now)) }
    ensures storable { IfOk result (λ v. IsStorable (value_of v)) }
{
    let offset = word_in(offset)?;
    let count = word_in(count)?;
    on_components(alloc, UnaryFunction::ExtractBits { offset, count }, e)
}

/// The number with the low bits of `newbits` as its `count` bits from `offset` on, or so each component of a
/// vector, in the common type of the first two arguments. Offset and count are limited as by
/// [`extractBits`], in each stage. Refused by `Builtin` where `offset` or `count` does not convert to
/// `u32`, where the first two have no common type or do not convert to it, and where that is neither `i32`
/// nor `u32` nor a vector type of them (WGSL: numeric builtin functions, `insertBits`; past 32 it is this
/// crate's own). The condition: the values are well-formed.
/// It calls itself for each level of a value or type: keep to 4,095 within a stack of 8 MiB.
pub fn insertBits(
    alloc: Global,
    e: &Instance,
    newbits: &Instance,
    offset: &Instance,
    count: &Instance,
) -> Result<Instance, Error>
    requires e { IsWellFormed (value_of e.now) }
    requires newbits { IsWellFormed (value_of newbits.now) }
    requires offset { IsWellFormed (value_of offset.now) }
    requires count { IsWellFormed (value_of count.now) }
    ensures value { Gives value_of result (inserted_bits (value_of e.now) (value_of newbits.now) (value_of offset.now) (value_of count.now)) }
    ensures storable { IfOk result (λ v. IsStorable (value_of v)) }
{
    let offset = word_in(offset)?;
    let count = word_in(count)?;
    let function = BinaryFunction::InsertBits { offset, count };
    in_common_type(alloc, function, e, newbits)
}

/// The place of the highest 1 of an `i32` or a `u32`, counted from the lowest bit, and of a negative number that
/// of the highest 0, or of each component of a vector of them, in its own type; -1, which is the greatest
/// `u32`, where there is none. Refused by `Builtin` for every other number, for bools and for values of any
/// other case (WGSL: numeric builtin functions, `firstLeadingBit`). The condition: the value is
/// well-formed.
pub fn firstLeadingBit(alloc: Global, e: &Instance) -> Result<Instance, Error>
    requires { IsWellFormed (value_of e.now) }
    ensures value { Gives value_of result (first_leading_bits (value_of e.now)) }
    ensures storable { IfOk result (λ v. IsStorable (value_of v)) }
{
    on_components(alloc, UnaryFunction::FirstLeadingBit, e)
}

/// The place of the lowest 1 of an `i32` or a `u32`, counted from the lowest bit, or of each component of a
/// vector of them, in its own type; -1, which is the greatest `u32`, where there is none. Refused by
/// `Builtin` as [`firstLeadingBit`] is (WGSL: numeric builtin functions, `firstTrailingBit`). The
/// condition: the value is well-formed.
pub fn firstTrailingBit(alloc: Global, e: &Instance) -> Result<Instance, Error>
    requires { IsWellFormed (value_of e.now) }
    ensures value { Gives value_of result (first_trailing_bits (value_of e.now)) }
    ensures storable { IfOk result (λ v. IsStorable (value_of v)) }
{
    on_components(alloc, UnaryFunction::FirstTrailingBit, e)
}

/// The bits of an `i32` or a `u32` from the last to the first, or of each component of a vector of them.
/// Refused by `Builtin` as [`firstLeadingBit`] is (WGSL: numeric builtin functions, `reverseBits`). The
/// condition: the value is well-formed.
pub fn reverseBits(alloc: Global, e: &Instance) -> Result<Instance, Error>
    requires { IsWellFormed (value_of e.now) }
    ensures value { Gives value_of result (reversed_bits (value_of e.now)) }
    ensures storable { IfOk result (λ v. IsStorable (value_of v)) }
{
    on_components(alloc, UnaryFunction::ReverseBits, e)
}
