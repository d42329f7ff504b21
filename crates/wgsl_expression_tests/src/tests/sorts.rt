//! Operands that are no literals and no vectors: each operator refuses them with their types.

use crate::tests::answers::{assert_answer, joined, turned};
use std::alloc::Global;
use std::process::Abort;
use wgsl_rules::BinaryOperator::{
    Addition, BitwiseAnd, BitwiseOr, BitwiseXor, Division, Equality, GreaterThan, GreaterThanEqual,
    Inequality, LessThan, LessThanEqual, Multiplication, Remainder, ShiftLeft, ShiftRight,
    ShortCircuitAnd, ShortCircuitOr, Subtraction,
};
use wgsl_rules::ShaderStage::{Const, Exec, Override};
use wgsl_rules::UnaryOperator::{BitwiseComplement, LogicalNegation, Negation};
use wgsl_rules::{BinaryOperator, UnaryOperator};
use wgsl_samples::operands::Sample;
use wgsl_scalar::LiteralInstance::{I32, U32};

const OPERATORS: [BinaryOperator; 18] = [
    ShortCircuitOr,
    ShortCircuitAnd,
    Addition,
    Subtraction,
    Multiplication,
    Division,
    Remainder,
    Equality,
    Inequality,
    LessThan,
    LessThanEqual,
    GreaterThan,
    GreaterThanEqual,
    BitwiseOr,
    BitwiseAnd,
    BitwiseXor,
    ShiftLeft,
    ShiftRight,
];

/// A literal and a vector, with the texts of their types.
const TAKEN: [(Sample, &str); 2] = [
    (Sample::One(U32(1)), "u32"),
    (Sample::Two([U32(1), U32(2)]), "vec2<u32>"),
];

/// A value of each sort that no operator takes, with the text of its type.
const OTHERS: [(Sample, &str); 7] = [
    (Sample::Matrix, "mat2x2<u32>"),
    (Sample::Array, "array<u32, 2>"),
    (Sample::Structure, "Pair"),
    (Sample::Pointer, "ptr<storage, i32, read_write>"),
    (Sample::Reference, "ref<storage, i32, read_write>"),
    (Sample::Atomic(I32(5)), "atomic<i32>"),
    (Sample::Deferred, "u32"),
];

/// Asserts that the operator refuses the two in each stage.
fn assert_refused_in_each_stage(
    rt: &impl Abort,
    alloc: Global,
    operator: BinaryOperator,
    (left, right): (Sample, Sample),
    wanted: &str,
) {
    for stage in [Const, Override, Exec] {
        let answer = joined(rt, alloc, operator, stage, left, right);
        assert_answer(rt, alloc, 0, answer, wanted);
    }
}

/// Asserts that the operator refuses the two with their types.
fn assert_refused(
    rt: &impl Abort,
    alloc: Global,
    operator: BinaryOperator,
    left: (Sample, &str),
    right: (Sample, &str),
) {
    let wanted = format!(in alloc; "Binary {operator} {}, {}", left.1, right.1);
    let wanted = wanted.expect(rt, "memory");
    assert_refused_in_each_stage(rt, alloc, operator, (left.0, right.0), wanted.as_str());
    drop(wanted);
}

/// Asserts that the operator refuses the value at each side.
fn assert_refused_at_each_side(
    rt: &impl Abort,
    alloc: Global,
    operator: BinaryOperator,
    other: (Sample, &str),
) {
    for taken in TAKEN {
        assert_refused(rt, alloc, operator, taken, other);
        assert_refused(rt, alloc, operator, other, taken);
    }
    for second in OTHERS {
        assert_refused(rt, alloc, operator, other, second);
    }
}

#[test]
fn other_operands_are_refused_with_their_types(rt: HostRuntime) {
    let alloc = rt.alloc();
    for operator in OPERATORS {
        for other in OTHERS {
            assert_refused_at_each_side(&rt, alloc, operator, other);
        }
    }
}

/// Asserts that the operator refuses the value with its type.
fn assert_one_refused(
    rt: &impl Abort,
    alloc: Global,
    operator: UnaryOperator,
    (value, ty): (Sample, &str),
) {
    let wanted = format!(in alloc; "Unary {operator} {ty}").expect(rt, "memory");
    let answer = turned(rt, alloc, operator, value);
    assert_answer(rt, alloc, 0, answer, wanted.as_str());
    drop(wanted);
}

#[test]
fn other_operands_of_one_operator_are_refused(rt: HostRuntime) {
    let alloc = rt.alloc();
    for operator in [LogicalNegation, Negation, BitwiseComplement] {
        for other in OTHERS {
            assert_one_refused(&rt, alloc, operator, other);
        }
    }
}
