//! Operators on the bits of numbers (WGSL: bit expressions). A bool is one bit.

ghost use Rattle.std.specs.Prelude.{◌≡◌};
ghost use Rattle.wgsl_scalar.specs.Answers.{Answers};
ghost use Rattle.wgsl_scalar.specs.Literals.{literal_of, kind_of};
ghost use Rattle.wgsl_scalar.specs.Bits.{
  bits_and,
  bits_and_in,
  bits_or,
  bits_or_in,
  bits_xor,
  bits_xor_in,
  complement,
};

use crate::error::Error;
use crate::kind::{Kind, low_64};
use crate::literal::LiteralInstance;
use wgsl_rules::{BinaryOperator, UnaryOperator};

impl Kind {
    fn bits_and(self, left: i128, right: i128) -> Result<LiteralInstance, Error>
        ensures { Answers literal_of result (bits_and_in (kind_of self) left right) }
    {
        Ok(self.wrap(i128::from(low_64(left) & low_64(right))))
    }

    fn bits_or(self, left: i128, right: i128) -> Result<LiteralInstance, Error>
        ensures { Answers literal_of result (bits_or_in (kind_of self) left right) }
    {
        Ok(self.wrap(i128::from(low_64(left) | low_64(right))))
    }

    fn bits_xor(self, left: i128, right: i128) -> Result<LiteralInstance, Error>
        ensures { Answers literal_of result (bits_xor_in (kind_of self) left right) }
    {
        Ok(self.wrap(i128::from(low_64(left) ^ low_64(right))))
    }
}

impl LiteralInstance {
    /// The number with each bit turned; a bool is refused by `Unary` (WGSL: bit expressions, `~`).
    #[tactic(auto, using(crate::proofs::lemmas::Ranges::narrow))]
    pub fn op_bitnot(&self) -> Result<LiteralInstance, Error>
        ensures { Answers literal_of result (complement (literal_of self.now)) }
    {
        match self.parts() {
            Some((kind, n)) => Ok(kind.wrap((-1i128).strict_sub(n))),
            None => Err(Error::Unary(UnaryOperator::BitwiseComplement, self.literal_ty())),
        }
    }

    /// The bits that one of both has, in the common type. Without one, or where a number does not fit
    /// it, the call is refused by `Binary` (WGSL: bit expressions, `|`).
    pub fn op_bitor(&self, rhs: &LiteralInstance) -> Result<LiteralInstance, Error>
        ensures { Answers literal_of result (bits_or (literal_of self.now) (literal_of rhs.now)) }
    {
        match self.both_bools(rhs) {
            Some((left, right)) => Ok(LiteralInstance::Bool(left || right)),
            None => {
                let (kind, left, right) = self.operands(rhs, BinaryOperator::BitwiseOr)?;
                kind.bits_or(left, right)
            }
        }
    }

    /// The bits that both have, in the common type; refused as `op_bitor` is
    /// (WGSL: bit expressions, `&`).
    pub fn op_bitand(&self, rhs: &LiteralInstance) -> Result<LiteralInstance, Error>
        ensures { Answers literal_of result (bits_and (literal_of self.now) (literal_of rhs.now)) }
    {
        match self.both_bools(rhs) {
            Some((left, right)) => Ok(LiteralInstance::Bool(left && right)),
            None => {
                let (kind, left, right) = self.operands(rhs, BinaryOperator::BitwiseAnd)?;
                kind.bits_and(left, right)
            }
        }
    }

    /// The bits that one alone has, in the common type; refused as `op_bitor` is, and for bools
    /// (WGSL: bit expressions, `^`).
    pub fn op_bitxor(&self, rhs: &LiteralInstance) -> Result<LiteralInstance, Error>
        ensures { Answers literal_of result (bits_xor (literal_of self.now) (literal_of rhs.now)) }
    {
        let (kind, left, right) = self.operands(rhs, BinaryOperator::BitwiseXor)?;
        kind.bits_xor(left, right)
    }
}
