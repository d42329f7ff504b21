//! Comparisons (WGSL: comparison expressions), and the lesser and the greater of two numbers.

ghost use Rattle.std.specs.Prelude.{◌≡◌, Some, IfErr};
ghost use Rattle.wgsl_scalar.specs.Answers.{Answers, builtin_reason_of};
ghost use Rattle.wgsl_scalar.specs.Literals.{literal_of};
ghost use Rattle.wgsl_scalar.specs.Order.{
  compared,
  is_equal,
  is_unequal,
  is_less,
  is_at_most,
  is_greater,
  is_at_least,
  why_unordered,
  minimum,
  maximum,
};

use crate::builtin::BuiltinReason;
use crate::error::Error;
use crate::literal::LiteralInstance;
use wgsl_rules::BinaryOperator;

impl LiteralInstance {
    /// The two numbers that the operator compares: a bool is 0 or 1.
    fn compared(
        &self,
        rhs: &LiteralInstance,
        operator: BinaryOperator,
    ) -> Result<(i128, i128), Error>
        ensures { Answers (λ p. p) result (compared operator (literal_of self.now) (literal_of rhs.now)) }
    {
        match self.both_bools(rhs) {
            Some((left, right)) => Ok((i128::from(left), i128::from(right))),
            None => {
                let (_, left, right) = self.operands(rhs, operator)?;
                Ok((left, right))
            }
        }
    }

    /// Whether both are equal, in their common type; without one, or where a number does not fit it,
    /// the call is refused by `Binary` (WGSL: comparison expressions, `==`).
    pub fn op_eq(&self, rhs: &LiteralInstance) -> Result<bool, Error>
        ensures { Answers (λ b. b) result (is_equal (literal_of self.now) (literal_of rhs.now)) }
    {
        let (left, right) = self.compared(rhs, BinaryOperator::Equality)?;
        Ok(left == right)
    }

    /// Whether they differ, in their common type (WGSL: comparison expressions, `!=`).
    pub fn op_ne(&self, rhs: &LiteralInstance) -> Result<bool, Error>
        ensures { Answers (λ b. b) result (is_unequal (literal_of self.now) (literal_of rhs.now)) }
    {
        let (left, right) = self.compared(rhs, BinaryOperator::Inequality)?;
        Ok(left != right)
    }

    /// Whether this is less, in their common type; false is less than true
    /// (WGSL: comparison expressions, `<`; on bools it is this crate's own).
    pub fn op_lt(&self, rhs: &LiteralInstance) -> Result<bool, Error>
        ensures { Answers (λ b. b) result (is_less (literal_of self.now) (literal_of rhs.now)) }
    {
        let (left, right) = self.compared(rhs, BinaryOperator::LessThan)?;
        Ok(left < right)
    }

    /// Whether this is at most the other, in their common type; false is less than true
    /// (WGSL: comparison expressions, `<=`; on bools it is this crate's own).
    pub fn op_le(&self, rhs: &LiteralInstance) -> Result<bool, Error>
        ensures { Answers (λ b. b) result (is_at_most (literal_of self.now) (literal_of rhs.now)) }
    {
        let (left, right) = self.compared(rhs, BinaryOperator::LessThanEqual)?;
        Ok(left <= right)
    }

    /// Whether this is greater, in their common type; false is less than true
    /// (WGSL: comparison expressions, `>`; on bools it is this crate's own).
    pub fn op_gt(&self, rhs: &LiteralInstance) -> Result<bool, Error>
        ensures { Answers (λ b. b) result (is_greater (literal_of self.now) (literal_of rhs.now)) }
    {
        let (left, right) = self.compared(rhs, BinaryOperator::GreaterThan)?;
        Ok(left > right)
    }

    /// Whether this is at least the other, in their common type; false is less than true
    /// (WGSL: comparison expressions, `>=`; on bools it is this crate's own).
    pub fn op_ge(&self, rhs: &LiteralInstance) -> Result<bool, Error>
        ensures { Answers (λ b. b) result (is_at_least (literal_of self.now) (literal_of rhs.now)) }
    {
        let (left, right) = self.compared(rhs, BinaryOperator::GreaterThanEqual)?;
        Ok(left >= right)
    }

    /// Why neither of both is the lesser, where they are no two numbers of one type.
    pub(crate) fn why_unordered(&self, rhs: &LiteralInstance) -> BuiltinReason
        ensures { result ≡ why_unordered (literal_of self.now) (literal_of rhs.now) }
    {
        match self.both_bools(rhs) {
            Some(_) => BuiltinReason::NotNumber,
            None => BuiltinReason::NoCommonType,
        }
    }

    /// The lesser number, in the common type. Two bools are refused by `Builtin` with `NotNumber`; two
    /// that have no common type, and a number that does not fit it, with `NoCommonType`
    /// (WGSL: numeric builtin functions, `min`).
    #[tactic(auto, using(crate::proofs::lemmas::Ranges::lesser_in))]
    pub fn min(&self, rhs: &LiteralInstance) -> Result<LiteralInstance, Error>
        ensures value { Answers literal_of result (minimum (literal_of self.now) (literal_of rhs.now)) }
        ensures reason { IfErr result (λ e. builtin_reason_of e ≡ Some (why_unordered (literal_of self.now) (literal_of rhs.now))) }
    {
        match self.common_operands(rhs) {
            Some((kind, left, right)) => Ok(kind.literal(if left <= right { left } else { right })),
            None => Err(Error::Builtin(self.why_unordered(rhs))),
        }
    }

    /// The greater number, in the common type; refused as `min` is
    /// (WGSL: numeric builtin functions, `max`).
    #[tactic(auto, using(crate::proofs::lemmas::Ranges::greater_in))]
    pub fn max(&self, rhs: &LiteralInstance) -> Result<LiteralInstance, Error>
        ensures value { Answers literal_of result (maximum (literal_of self.now) (literal_of rhs.now)) }
        ensures reason { IfErr result (λ e. builtin_reason_of e ≡ Some (why_unordered (literal_of self.now) (literal_of rhs.now))) }
    {
        match self.common_operands(rhs) {
            Some((kind, left, right)) => Ok(kind.literal(if left <= right { right } else { left })),
            None => Err(Error::Builtin(self.why_unordered(rhs))),
        }
    }
}
