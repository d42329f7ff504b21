//! Each operator on literals, by its name (WGSL: expressions).

ghost use Rattle.std.specs.Prelude.{◌≡◌, ◌<◌, Some, length};
ghost use Rattle.wgsl_value_ops.specs.Literals.{of_literal, of_literals};
ghost use Rattle.wgsl_rules.specs.Values.{AreLiterals, IsStorable, item};
ghost use Rattle.wgsl_scalar.specs.Answers.{Answers};
ghost use Rattle.wgsl_scalar.specs.Literals.{literal_of};
ghost use Rattle.wgsl_values.specs.View.{value_of, vals_view};

use wgsl_rules::{BinaryOperator, ShaderStage, UnaryOperator};
use wgsl_scalar::{Error, LiteralInstance};
use wgsl_values::Instance;

/// What the operator gives for the two literals.
#[inline(always)]
pub(crate) fn binary(
    operator: BinaryOperator,
    stage: ShaderStage,
    left: &LiteralInstance,
    right: &LiteralInstance,
) -> Result<LiteralInstance, Error>
    ensures { Answers literal_of result (of_literals operator stage (literal_of left.now) (literal_of right.now)) }
{
    match operator {
        BinaryOperator::ShortCircuitOr => left.op_or(right),
        BinaryOperator::ShortCircuitAnd => left.op_and(right),
        BinaryOperator::Addition => left.op_add(right, stage),
        BinaryOperator::Subtraction => left.op_sub(right, stage),
        BinaryOperator::Multiplication => left.op_mul(right, stage),
        BinaryOperator::Division => left.op_div(right, stage),
        BinaryOperator::Remainder => left.op_rem(right, stage),
        BinaryOperator::Equality => Ok(LiteralInstance::Bool(left.op_eq(right)?)),
        BinaryOperator::Inequality => Ok(LiteralInstance::Bool(left.op_ne(right)?)),
        BinaryOperator::LessThan => Ok(LiteralInstance::Bool(left.op_lt(right)?)),
        BinaryOperator::LessThanEqual => Ok(LiteralInstance::Bool(left.op_le(right)?)),
        BinaryOperator::GreaterThan => Ok(LiteralInstance::Bool(left.op_gt(right)?)),
        BinaryOperator::GreaterThanEqual => Ok(LiteralInstance::Bool(left.op_ge(right)?)),
        BinaryOperator::BitwiseOr => left.op_bitor(right),
        BinaryOperator::BitwiseAnd => left.op_bitand(right),
        BinaryOperator::BitwiseXor => left.op_bitxor(right),
        BinaryOperator::ShiftLeft => left.op_shl(right, stage),
        BinaryOperator::ShiftRight => left.op_shr(right, stage),
    }
}

/// What the operator gives for the literal: `!`, `-` or `~`; the others are refused.
pub(crate) fn unary(
    operator: UnaryOperator,
    literal: &LiteralInstance,
) -> Result<LiteralInstance, Error>
    ensures { Answers literal_of result (of_literal operator (literal_of literal.now)) }
{
    match operator {
        UnaryOperator::LogicalNegation => literal.op_not(),
        UnaryOperator::Negation => literal.op_neg(),
        UnaryOperator::BitwiseComplement => literal.op_bitnot(),
        UnaryOperator::AddressOf | UnaryOperator::Indirection => {
            Err(Error::Unary(operator, literal.literal_ty()))
        }
    }
}

/// The literal as a value, which may be stored.
#[inline(always)]
pub(crate) fn component(literal: LiteralInstance) -> Instance
    ensures value { value_of result ≡ literal_of literal }
    ensures storable { IsStorable (value_of result) }
{
    Instance::from(literal)
}

/// The literal at the index.
pub(crate) fn literal_at(literals: &[Instance], i: usize) -> LiteralInstance
    requires literals { AreLiterals (vals_view literals.now) }
    requires index { i < length literals.now }
    ensures { Some (literal_of result) ≡ item i (vals_view literals.now) }
{
    *literals[i].unwrap_literal_ref()
}
