//! What operators answer, by the texts of it.

ghost use Rattle.wgsl_rules.specs.Values.{IsWellFormed};
ghost use Rattle.wgsl_values.specs.View.{value_of};

use crate::tests::made::made;
use std::alloc::Global;
use std::fmt::Display;
use std::process::Abort;
use wgsl_ops::InstanceOperators;
use wgsl_rules::BinaryOperator::{
    Addition, BitwiseAnd, BitwiseOr, BitwiseXor, Division, Equality, GreaterThan, GreaterThanEqual,
    Inequality, LessThan, LessThanEqual, Multiplication, Remainder, ShiftLeft, ShiftRight,
    ShortCircuitAnd, ShortCircuitOr, Subtraction,
};
use wgsl_rules::UnaryOperator::{
    AddressOf, BitwiseComplement, Indirection, LogicalNegation, Negation,
};
use wgsl_rules::{BinaryOperator, ShaderStage, UnaryOperator};
use wgsl_samples::operands::Sample;
use wgsl_samples::refusals::text_of;
use wgsl_scalar::Error;
use wgsl_value_ops::{Operators, logical_and, logical_or};
use wgsl_values::Instance;

/// What the operator gives for the two values or vectors; any but `||` and `&&`.
pub(super) fn answer_of_two<T: Operators>(
    rt: &impl Abort,
    alloc: Global,
    operator: BinaryOperator,
    stage: ShaderStage,
    left: &T,
    right: &T,
) -> Result<T, Error>
    requires left { IsWellFormed (T.value_of left.now) }
    requires right { IsWellFormed (T.value_of right.now) }
{
    match operator {
        ShortCircuitOr | ShortCircuitAnd => panic!(rt; "values alone have {operator}"),
        Addition => left.op_add(alloc, right, stage),
        Subtraction => left.op_sub(alloc, right, stage),
        Multiplication => left.op_mul(alloc, right, stage),
        Division => left.op_div(alloc, right, stage),
        Remainder => left.op_rem(alloc, right, stage),
        Equality => left.op_eq(alloc, right),
        Inequality => left.op_ne(alloc, right),
        LessThan => left.op_lt(alloc, right),
        LessThanEqual => left.op_le(alloc, right),
        GreaterThan => left.op_gt(alloc, right),
        GreaterThanEqual => left.op_ge(alloc, right),
        BitwiseOr => left.op_bitor(alloc, right),
        BitwiseAnd => left.op_bitand(alloc, right),
        BitwiseXor => left.op_bitxor(alloc, right),
        ShiftLeft => left.op_shl(alloc, right, stage),
        ShiftRight => left.op_shr(alloc, right, stage),
    }
}

/// What the operator gives for the value or vector; `!`, `-` or `~`.
pub(super) fn answer_of_one<T: Operators>(
    rt: &impl Abort,
    alloc: Global,
    operator: UnaryOperator,
    value: &T,
) -> Result<T, Error>
    requires { IsWellFormed (T.value_of value.now) }
{
    match operator {
        LogicalNegation => value.op_not(alloc),
        Negation => value.op_neg(alloc),
        BitwiseComplement => value.op_bitnot(alloc),
        Indirection => panic!(rt; "values alone have {operator}"),
        AddressOf => panic!(rt; "an address is taken in a store"),
    }
}

fn answer(
    rt: &impl Abort,
    alloc: Global,
    operator: BinaryOperator,
    stage: ShaderStage,
    left: &Instance,
    right: &Instance,
) -> Result<Instance, Error>
    requires left { IsWellFormed (value_of left.now) }
    requires right { IsWellFormed (value_of right.now) }
{
    match operator {
        ShortCircuitOr => left.op_or(alloc, right),
        ShortCircuitAnd => left.op_and(alloc, right),
        _ => answer_of_two(rt, alloc, operator, stage, left, right),
    }
}

/// What the operator gives for the two values.
pub(super) fn joined(
    rt: &impl Abort,
    alloc: Global,
    operator: BinaryOperator,
    stage: ShaderStage,
    left: Sample,
    right: Sample,
) -> Result<Instance, Error> {
    let left = made(rt, alloc, left);
    let right = made(rt, alloc, right);
    let answer = answered!(answer(rt, alloc, operator, stage, &left, &right));
    drop((left, right));
    answer
}

fn truth(
    rt: &impl Abort,
    alloc: Global,
    operator: BinaryOperator,
    left: &Instance,
    right: &Instance,
) -> Result<Instance, Error>
    requires left { IsWellFormed (value_of left.now) }
    requires right { IsWellFormed (value_of right.now) }
{
    match operator {
        ShortCircuitOr => logical_or(alloc, left, right),
        ShortCircuitAnd => logical_and(alloc, left, right),
        _ => panic!(rt; "{operator} is no function"),
    }
}

/// What the function of the operator, `||` or `&&`, gives for the two values.
pub(super) fn joined_by_function(
    rt: &impl Abort,
    alloc: Global,
    operator: BinaryOperator,
    left: Sample,
    right: Sample,
) -> Result<Instance, Error> {
    let left = made(rt, alloc, left);
    let right = made(rt, alloc, right);
    let answer = answered!(truth(rt, alloc, operator, &left, &right));
    drop((left, right));
    answer
}

fn answer_for(
    rt: &impl Abort,
    alloc: Global,
    operator: UnaryOperator,
    value: &Instance,
) -> Result<Instance, Error>
    requires { IsWellFormed (value_of value.now) }
{
    match operator {
        Indirection => value.op_deref(alloc),
        _ => answer_of_one(rt, alloc, operator, value),
    }
}

/// What the operator gives for the value; `!`, `-`, `~` or `*`.
pub(super) fn turned(
    rt: &impl Abort,
    alloc: Global,
    operator: UnaryOperator,
    value: Sample,
) -> Result<Instance, Error> {
    let value = made(rt, alloc, value);
    let answer = answered!(answer_for(rt, alloc, operator, &value));
    drop(value);
    answer
}

/// Asserts the text of the answer.
pub(super) fn assert_answer<T: Display + Drop>(
    rt: &impl Abort,
    alloc: Global,
    row: usize,
    answer: Result<T, Error>,
    wanted: &str,
) {
    let text = again!(rt; text_of(alloc, &answer));
    drop(answer);
    assert_eq!(rt; text.as_str(), wanted, "row {row}");
}
