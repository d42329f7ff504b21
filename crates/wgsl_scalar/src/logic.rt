//! Logical operators (WGSL: logical expressions).

ghost use Rattle.wgsl_scalar.specs.Answers.{Answers};
ghost use Rattle.wgsl_scalar.specs.Literals.{literal_of};
ghost use Rattle.wgsl_scalar.specs.Logic.{logical_negation, disjunction, conjunction};

use crate::error::Error;
use crate::literal::LiteralInstance;
use wgsl_rules::{BinaryOperator, UnaryOperator};

impl LiteralInstance {
    /// The other bool; a number is refused by `Unary` (WGSL: logical expressions, `!`).
    pub fn op_not(&self) -> Result<LiteralInstance, Error>
        ensures { Answers literal_of result (logical_negation (literal_of self.now)) }
    {
        match self {
            LiteralInstance::Bool(b) => Ok(LiteralInstance::Bool(!*b)),
            _ => Err(Error::Unary(UnaryOperator::LogicalNegation, self.literal_ty())),
        }
    }

    /// Whether one of two bools is true; other operands are refused by `Binary`
    /// (WGSL: logical expressions, `||`).
    pub fn op_or(&self, rhs: &LiteralInstance) -> Result<LiteralInstance, Error>
        ensures { Answers literal_of result (disjunction (literal_of self.now) (literal_of rhs.now)) }
    {
        if let (LiteralInstance::Bool(left), LiteralInstance::Bool(right)) = (self, rhs) {
            return Ok(LiteralInstance::Bool(*left || *right));
        }
        Err(Error::Binary(
            BinaryOperator::ShortCircuitOr,
            self.literal_ty(),
            rhs.literal_ty(),
        ))
    }

    /// Whether both of two bools are true; other operands are refused by `Binary`
    /// (WGSL: logical expressions, `&&`).
    pub fn op_and(&self, rhs: &LiteralInstance) -> Result<LiteralInstance, Error>
        ensures { Answers literal_of result (conjunction (literal_of self.now) (literal_of rhs.now)) }
    {
        if let (LiteralInstance::Bool(left), LiteralInstance::Bool(right)) = (self, rhs) {
            return Ok(LiteralInstance::Bool(*left && *right));
        }
        Err(Error::Binary(
            BinaryOperator::ShortCircuitAnd,
            self.literal_ty(),
            rhs.literal_ty(),
        ))
    }
}
