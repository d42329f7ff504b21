//! The two numbers that an operator joins, in their common kind.

ghost use Rattle.std.specs.Prelude.{◌≡◌, IfSome, IfOk, MatchOption, None, Some};
ghost use Rattle.wgsl_rules.specs.Kinds.{InKind};
ghost use Rattle.wgsl_scalar.specs.Answers.{Answers};
ghost use Rattle.wgsl_scalar.specs.Literals.{literal_of, kind_of};
ghost use Rattle.wgsl_scalar.specs.Operands.{both_truths, common_operands, operands, operands_view};

use crate::error::Error;
use crate::kind::Kind;
use crate::literal::LiteralInstance;
use wgsl_rules::BinaryOperator;

impl LiteralInstance {
    /// Both as bools.
    pub(crate) fn both_bools(&self, rhs: &LiteralInstance) -> Option<(bool, bool)>
        ensures { result ≡ both_truths (literal_of self.now) (literal_of rhs.now) }
    {
        match (self, rhs) {
            (LiteralInstance::Bool(left), LiteralInstance::Bool(right)) => Some((*left, *right)),
            _ => None,
        }
    }

    /// Both as numbers of their common kind.
    #[inline(always)]
    pub(crate) fn common_operands(&self, rhs: &LiteralInstance) -> Option<(Kind, i128, i128)>
        ensures value { MatchOption result (common_operands (literal_of self.now) (literal_of rhs.now) ≡ None) (λ p. common_operands (literal_of self.now) (literal_of rhs.now) ≡ Some (operands_view p)) }
        ensures left { IfSome result (λ p. InKind (kind_of p.0) p.1) }
        ensures right { IfSome result (λ p. InKind (kind_of p.0) p.2) }
    {
        let (left_kind, left) = self.parts()?;
        let (right_kind, right) = rhs.parts()?;
        if left_kind == right_kind {
            return Some((left_kind, left, right));
        }
        let kind = left_kind.common(right_kind)?;
        if kind.contains(left) && kind.contains(right) {
            Some((kind, left, right))
        } else {
            None
        }
    }

    /// The operands of a binary operator, or its refusal.
    #[inline(always)]
    pub(crate) fn operands(
        &self,
        rhs: &LiteralInstance,
        operator: BinaryOperator,
    ) -> Result<(Kind, i128, i128), Error>
        ensures value { Answers operands_view result (operands operator (literal_of self.now) (literal_of rhs.now)) }
        ensures left { IfOk result (λ p. InKind (kind_of p.0) p.1) }
        ensures right { IfOk result (λ p. InKind (kind_of p.0) p.2) }
    {
        match self.common_operands(rhs) {
            Some(operands) => Ok(operands),
            None => Err(Error::Binary(operator, self.literal_ty(), rhs.literal_ty())),
        }
    }
}
