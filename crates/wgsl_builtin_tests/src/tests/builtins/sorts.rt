//! Arguments of the sorts that builtin functions do not take: each is refused, at each place.

use crate::tests::builtins::Word::{Signed, Unsigned};
use crate::tests::builtins::{
    One, Three, Two, assert_cast, assert_inserted, assert_one, assert_three, assert_two,
};
use crate::tests::rows::sample;
use std::alloc::Global;
use std::process::Abort;
use wgsl_rules::ShaderStage::{Const, Exec};
use wgsl_samples::operands::u;

const EACH_OF_ONE: [One; 17] = [
    One::Abs,
    One::Sign,
    One::CountLeadingZeros,
    One::CountOneBits,
    One::CountTrailingZeros,
    One::FirstLeadingBit,
    One::FirstTrailingBit,
    One::ReverseBits,
    One::Transpose,
    One::All,
    One::Any,
    One::Pack4xI8,
    One::Pack4xU8,
    One::Pack4xI8Clamp,
    One::Pack4xU8Clamp,
    One::Unpack4xI8,
    One::Unpack4xU8,
];

const EACH_OF_TWO: [Two; 6] = [
    Two::Min,
    Two::Max,
    Two::Dot(Const),
    Two::Dot(Exec),
    Two::Dot4U8Packed,
    Two::Dot4I8Packed,
];

/// A value of each sort beside numbers, bools, vectors and matrices.
const OTHERS: &str = "\
    array
    structure
    pointer
    reference
    atomic 5i
    deferred";

const MATRICES: &str = "\
    matrix
    tall";

#[test]
fn functions_of_one_value_refuse_other_sorts(rt: HostRuntime) {
    let alloc = rt.alloc();
    for function in EACH_OF_ONE {
        assert_each_refused_by_one(&rt, alloc, function, OTHERS);
        if function != One::Transpose {
            assert_each_refused_by_one(&rt, alloc, function, "matrix");
        }
    }
}

/// Asserts that the function refuses each of the values.
fn assert_each_refused_by_one(rt: &impl Abort, alloc: Global, function: One, others: &str) {
    for line in others.lines() {
        let other = sample(rt, line.trim());
        assert_one(rt, alloc, line, function, other, "Builtin");
    }
}

/// Asserts that the function refuses each of the values at each place.
fn assert_each_refused_by_two(rt: &impl Abort, alloc: Global, function: Two, others: &str) {
    for line in others.lines() {
        let other = sample(rt, line.trim());
        assert_two(rt, alloc, line, function, (other, u(1)), "Builtin");
        assert_two(rt, alloc, line, function, (u(1), other), "Builtin");
        assert_two(rt, alloc, line, function, (other, other), "Builtin");
    }
}

#[test]
fn functions_of_two_values_refuse_other_sorts(rt: HostRuntime) {
    let alloc = rt.alloc();
    for function in EACH_OF_TWO {
        assert_each_refused_by_two(&rt, alloc, function, OTHERS);
        assert_each_refused_by_two(&rt, alloc, function, MATRICES);
    }
}

/// Asserts that the function refuses each of the values at each place.
fn assert_each_refused_by_three(rt: &impl Abort, alloc: Global, function: Three, others: &str) {
    for line in others.lines() {
        let other = sample(rt, line.trim());
        let (first, second, third) = (
            (other, u(1), u(1)),
            (u(1), other, u(1)),
            (u(1), u(1), other),
        );
        assert_three(rt, alloc, line, function, first, "Builtin");
        assert_three(rt, alloc, line, function, second, "Builtin");
        assert_three(rt, alloc, line, function, third, "Builtin");
    }
}

#[test]
fn functions_of_three_values_refuse_other_sorts(rt: HostRuntime) {
    let alloc = rt.alloc();
    for function in [Three::Clamp, Three::ExtractBits, Three::Select] {
        assert_each_refused_by_three(&rt, alloc, function, OTHERS);
    }
}

#[test]
fn inserted_bits_are_of_no_other_sort(rt: HostRuntime) {
    let alloc = rt.alloc();
    let (one, field) = (u(1), (u(1), u(1)));
    for line in OTHERS.lines() {
        let other = sample(&rt, line.trim());
        assert_inserted(&rt, alloc, line, (other, one), field, "Builtin");
        assert_inserted(&rt, alloc, line, (one, other), field, "Builtin");
        assert_inserted(&rt, alloc, line, (other, other), field, "Builtin");
        assert_inserted(&rt, alloc, line, (one, one), (other, one), "Builtin");
        assert_inserted(&rt, alloc, line, (one, one), (one, other), "Builtin");
    }
}

#[test]
fn other_sorts_have_no_bytes_of_a_number(rt: HostRuntime) {
    let alloc = rt.alloc();
    for line in OTHERS.lines() {
        let other = sample(&rt, line.trim());
        assert_cast(&rt, alloc, line, (0, Signed), other, "Builtin");
        assert_cast(&rt, alloc, line, (0, Unsigned), other, "Builtin");
        assert_cast(&rt, alloc, line, (2, Signed), other, "Builtin");
        assert_cast(&rt, alloc, line, (4, Unsigned), other, "Builtin");
    }
}
