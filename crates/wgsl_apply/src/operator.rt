//! The operators of the library, by what a source writes (WGSL: expressions).

ghost use Rattle.std.specs.Prelude.{IfOk};
ghost use Rattle.wgsl_apply.specs.Calls.{operated, prefixed};
ghost use Rattle.wgsl_rules.specs.Values.{IsStorable, IsWellFormed};
ghost use Rattle.wgsl_scalar.specs.Answers.{Gives};
ghost use Rattle.wgsl_values.specs.View.{value_of};

use std::alloc::Global;
use wgsl_rules::{BinaryOperator, ShaderStage, Ty, UnaryOperator};
use wgsl_scalar::Error;
use wgsl_value_ops::{Operators, logical_and, logical_or};
use wgsl_values::Instance;

/// The operator before a value, refused as the operators of `wgsl_value_ops` are; `&` and `*` are `Unary`,
/// since constants are no memory. What is not well-formed is answered with `Memory`. It calls itself
/// for each level of the value: keep to 4,095 within a stack of 8 MiB.
pub fn unary(alloc: Global, operator: UnaryOperator, operand: &Instance) -> Result<Instance, Error>
    ensures value { Gives value_of result (prefixed operator (value_of operand.now)) }
    ensures storable { IfOk result (λ v. IsStorable (value_of v)) }
{
    if operand.is_well_formed() {
        unary_of(alloc, operator, operand)
    } else {
        Err(Error::Memory)
    }
}

fn unary_of(alloc: Global, operator: UnaryOperator, operand: &Instance) -> Result<Instance, Error>
    requires { IsWellFormed (value_of operand.now) }
    ensures value { Gives value_of result (prefixed operator (value_of operand.now)) }
    ensures storable { IfOk result (λ v. IsStorable (value_of v)) }
{
    match operator {
        UnaryOperator::LogicalNegation => operand.op_not(alloc),
        UnaryOperator::Negation => operand.op_neg(alloc),
        UnaryOperator::BitwiseComplement => operand.op_bitnot(alloc),
        UnaryOperator::AddressOf => Err(Error::Unary(UnaryOperator::AddressOf, operand.ty(alloc)?)),
        UnaryOperator::Indirection => {
            Err(Error::Unary(UnaryOperator::Indirection, operand.ty(alloc)?))
        }
    }
}

/// The operator between two values in the stage, refused as the operators of `wgsl_value_ops` are. What is
/// not well-formed is answered with `Memory`. It calls itself for each level of the values: keep to
/// 4,095 within a stack of 8 MiB.
pub fn binary(
    alloc: Global,
    operator: BinaryOperator,
    stage: ShaderStage,
    left: &Instance,
    right: &Instance,
) -> Result<Instance, Error>
    ensures value { Gives value_of result (operated operator stage (value_of left.now) (value_of right.now)) }
    ensures storable { IfOk result (λ v. IsStorable (value_of v)) }
{
    if left.is_well_formed() && right.is_well_formed() {
        binary_of(alloc, operator, stage, left, right)
    } else {
        Err(Error::Memory)
    }
}

fn binary_of(
    alloc: Global,
    operator: BinaryOperator,
    stage: ShaderStage,
    left: &Instance,
    right: &Instance,
) -> Result<Instance, Error>
    requires left { IsWellFormed (value_of left.now) }
    requires right { IsWellFormed (value_of right.now) }
    ensures value { Gives value_of result (operated operator stage (value_of left.now) (value_of right.now)) }
    ensures storable { IfOk result (λ v. IsStorable (value_of v)) }
{
    match operator {
        BinaryOperator::Addition => left.op_add(alloc, right, stage),
        BinaryOperator::Subtraction => left.op_sub(alloc, right, stage),
        BinaryOperator::Multiplication => left.op_mul(alloc, right, stage),
        BinaryOperator::Division => left.op_div(alloc, right, stage),
        BinaryOperator::Remainder => left.op_rem(alloc, right, stage),
        BinaryOperator::ShiftLeft => left.op_shl(alloc, right, stage),
        BinaryOperator::ShiftRight => left.op_shr(alloc, right, stage),
        BinaryOperator::Equality => left.op_eq(alloc, right),
        BinaryOperator::Inequality => left.op_ne(alloc, right),
        BinaryOperator::LessThan => left.op_lt(alloc, right),
        BinaryOperator::LessThanEqual => left.op_le(alloc, right),
        BinaryOperator::GreaterThan => left.op_gt(alloc, right),
        BinaryOperator::GreaterThanEqual => left.op_ge(alloc, right),
        BinaryOperator::BitwiseOr => left.op_bitor(alloc, right),
        BinaryOperator::BitwiseAnd => left.op_bitand(alloc, right),
        BinaryOperator::BitwiseXor => left.op_bitxor(alloc, right),
        BinaryOperator::ShortCircuitOr => logical_or(alloc, left, right),
        BinaryOperator::ShortCircuitAnd => logical_and(alloc, left, right),
    }
}
