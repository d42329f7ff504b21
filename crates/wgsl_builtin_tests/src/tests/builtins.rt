//! Calls of the builtin functions of values, by a name that a row has.

ghost use Rattle.wgsl_rules.specs.Values.{IsWellFormed};
ghost use Rattle.wgsl_values.specs.View.{value_of};

use crate::tests::answers::{assert_answer, made};
use crate::tests::rows::{parted, sample, three_samples, two_samples};
use std::alloc::{AllocError, Global};
use std::process::Abort;
use wgsl_rules::{ShaderStage, Type};
use wgsl_samples::operands::Sample;
use wgsl_samples::types::vector;
use wgsl_scalar::Error;
use wgsl_value_builtins::{
    abs, all, any, bitcast_t, clamp, countLeadingZeros, countOneBits, countTrailingZeros, dot,
    dot4I8Packed, dot4U8Packed, extractBits, firstLeadingBit, firstTrailingBit, insertBits,
    is_bitcast_target, max, min, pack4xI8, pack4xI8Clamp, pack4xU8, pack4xU8Clamp, reverseBits,
    select, sign, transpose, unpack4xI8, unpack4xU8,
};
use wgsl_values::Instance;

mod sorts;
mod templates;

/// A builtin function of one value.
#[derive(Clone, Copy, Debug, PartialEq, Eq)]
pub(super) enum One {
    Abs,
    Sign,
    CountLeadingZeros,
    CountOneBits,
    CountTrailingZeros,
    FirstLeadingBit,
    FirstTrailingBit,
    ReverseBits,
    Transpose,
    All,
    Any,
    Pack4xI8,
    Pack4xU8,
    Pack4xI8Clamp,
    Pack4xU8Clamp,
    Unpack4xI8,
    Unpack4xU8,
}

/// What the function gives for the value.
fn of_one(alloc: Global, function: One, e: &Instance) -> Result<Instance, Error>
    requires { IsWellFormed (value_of e.now) }
{
    match function {
        One::Abs => abs(alloc, e),
        One::Sign => sign(alloc, e),
        One::CountLeadingZeros => countLeadingZeros(alloc, e),
        One::CountOneBits => countOneBits(alloc, e),
        One::CountTrailingZeros => countTrailingZeros(alloc, e),
        One::FirstLeadingBit => firstLeadingBit(alloc, e),
        One::FirstTrailingBit => firstTrailingBit(alloc, e),
        One::ReverseBits => reverseBits(alloc, e),
        One::Transpose => transpose(alloc, e),
        One::All => all(e),
        One::Any => any(e),
        One::Pack4xI8 => pack4xI8(alloc, e),
        One::Pack4xU8 => pack4xU8(alloc, e),
        One::Pack4xI8Clamp => pack4xI8Clamp(alloc, e),
        One::Pack4xU8Clamp => pack4xU8Clamp(alloc, e),
        One::Unpack4xI8 => unpack4xI8(alloc, e),
        One::Unpack4xU8 => unpack4xU8(alloc, e),
    }
}

/// Asserts the text of what the function gives for the value.
pub(super) fn assert_one(
    rt: &impl Abort,
    alloc: Global,
    row: &str,
    function: One,
    e: Sample,
    wanted: &str,
) {
    let e = made(rt, alloc, e);
    let answer = answered!(of_one(alloc, function, &e));
    drop(e);
    assert_answer(rt, alloc, row, answer, wanted);
}

/// Asserts each row: `value -> wanted`.
pub(super) fn assert_rows_of_one(rt: &impl Abort, alloc: Global, function: One, rows: &str) {
    for line in rows.lines() {
        let (e, wanted) = parted(rt, line, " -> ");
        assert_one(rt, alloc, line, function, sample(rt, e), wanted);
    }
}

/// A builtin function of two values.
#[derive(Clone, Copy, Debug, PartialEq, Eq)]
pub(super) enum Two {
    Min,
    Max,
    Dot(ShaderStage),
    Dot4U8Packed,
    Dot4I8Packed,
}

/// What the function gives for the two values.
pub(super) fn of_two(
    alloc: Global,
    function: Two,
    a: &Instance,
    b: &Instance,
) -> Result<Instance, Error>
    requires first { IsWellFormed (value_of a.now) }
    requires second { IsWellFormed (value_of b.now) }
{
    match function {
        Two::Min => min(alloc, a, b),
        Two::Max => max(alloc, a, b),
        Two::Dot(stage) => dot(alloc, a, b, stage),
        Two::Dot4U8Packed => dot4U8Packed(alloc, a, b),
        Two::Dot4I8Packed => dot4I8Packed(alloc, a, b),
    }
}

/// Asserts the text of what the function gives for the two values.
pub(super) fn assert_two(
    rt: &impl Abort,
    alloc: Global,
    row: &str,
    function: Two,
    (a, b): (Sample, Sample),
    wanted: &str,
) {
    let a = made(rt, alloc, a);
    let b = made(rt, alloc, b);
    let answer = answered!(of_two(alloc, function, &a, &b));
    drop((a, b));
    assert_answer(rt, alloc, row, answer, wanted);
}

/// Asserts each row: `value; value -> wanted`.
pub(super) fn assert_rows_of_two(rt: &impl Abort, alloc: Global, function: Two, rows: &str) {
    for line in rows.lines() {
        let (values, wanted) = parted(rt, line, " -> ");
        let values = two_samples(rt, values);
        assert_two(rt, alloc, line, function, values, wanted);
    }
}

/// A builtin function of three values.
#[derive(Clone, Copy, Debug, PartialEq, Eq)]
pub(super) enum Three {
    Clamp,
    Select,
    ExtractBits,
}

/// What the function gives for the three values.
pub(super) fn of_three(
    alloc: Global,
    function: Three,
    a: &Instance,
    b: &Instance,
    c: &Instance,
) -> Result<Instance, Error>
    requires first { IsWellFormed (value_of a.now) }
    requires second { IsWellFormed (value_of b.now) }
    requires third { IsWellFormed (value_of c.now) }
{
    match function {
        Three::Clamp => clamp(alloc, a, b, c),
        Three::Select => select(alloc, a, b, c),
        Three::ExtractBits => extractBits(alloc, a, b, c),
    }
}

/// Asserts the text of what the function gives for the three values.
pub(super) fn assert_three(
    rt: &impl Abort,
    alloc: Global,
    row: &str,
    function: Three,
    (a, b, c): (Sample, Sample, Sample),
    wanted: &str,
) {
    let a = made(rt, alloc, a);
    let b = made(rt, alloc, b);
    let c = made(rt, alloc, c);
    let answer = answered!(of_three(alloc, function, &a, &b, &c));
    drop((a, b, c));
    assert_answer(rt, alloc, row, answer, wanted);
}

/// Asserts each row: `value; value; value -> wanted`.
pub(super) fn assert_rows_of_three(rt: &impl Abort, alloc: Global, function: Three, rows: &str) {
    for line in rows.lines() {
        let (values, wanted) = parted(rt, line, " -> ");
        let values = three_samples(rt, values);
        assert_three(rt, alloc, line, function, values, wanted);
    }
}

/// Asserts the text of the first value with bits of the second, at the offset and of the count.
pub(super) fn assert_inserted(
    rt: &impl Abort,
    alloc: Global,
    row: &str,
    (e, newbits): (Sample, Sample),
    (offset, count): (Sample, Sample),
    wanted: &str,
) {
    let e = made(rt, alloc, e);
    let newbits = made(rt, alloc, newbits);
    let offset = made(rt, alloc, offset);
    let count = made(rt, alloc, count);
    let answer = answered!(insertBits(alloc, &e, &newbits, &offset, &count));
    drop((e, newbits, offset, count));
    assert_answer(rt, alloc, row, answer, wanted);
}

/// Asserts each row: `value; value; offset; count -> wanted`.
pub(super) fn assert_rows_of_insertions(rt: &impl Abort, alloc: Global, rows: &str) {
    for line in rows.lines() {
        let (samples, wanted) = parted(rt, line, " -> ");
        let (e, others) = parted(rt, samples, "; ");
        let (newbits, offset, count) = three_samples(rt, others);
        let values = (sample(rt, e), newbits);
        assert_inserted(rt, alloc, line, values, (offset, count), wanted);
    }
}

/// The scalar of a cast's template.
#[derive(Clone, Copy, Debug, PartialEq, Eq)]
pub(super) enum Word {
    Signed,
    Unsigned,
}

fn scalar_type(word: Word) -> Type {
    match word {
        Word::Signed => Type::I32,
        Word::Unsigned => Type::U32,
    }
}

/// The type of vectors of so many of the scalar; the scalar itself for 0.
fn template(alloc: Global, count: u8, word: Word) -> Result<Type, AllocError> {
    if count == 0 {
        Ok(scalar_type(word))
    } else {
        vector(alloc, count, scalar_type(word))
    }
}

/// Asserts the text of the value with the bytes of the other: of the scalar, or of a vector of so many where that is
/// not 0.
pub(super) fn assert_cast(
    rt: &impl Abort,
    alloc: Global,
    row: &str,
    (count, word): (u8, Word),
    e: Sample,
    wanted: &str,
) {
    let template = again!(rt; template(alloc, count, word));
    assert!(rt; is_bitcast_target(&template));
    let e = made(rt, alloc, e);
    let answer = answered!(bitcast_t(alloc, &template, &e));
    drop((template, e));
    assert_answer(rt, alloc, row, answer, wanted);
}

/// Asserts each row: `value -> wanted`.
pub(super) fn assert_casts(rt: &impl Abort, alloc: Global, template: (u8, Word), rows: &str) {
    for line in rows.lines() {
        let (e, wanted) = parted(rt, line, " -> ");
        assert_cast(rt, alloc, line, template, sample(rt, e), wanted);
    }
}
