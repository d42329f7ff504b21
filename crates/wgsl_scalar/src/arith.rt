//! Negation, sums, differences, products, quotients and remainders (WGSL: arithmetic expressions).

ghost use Rattle.std.specs.Prelude.{◌≡◌, ◌≢◌, ◌*ℤ◌, true, false, IfSome, IsTrue, MatchOption, pos};
ghost use Rattle.std.specs.Int.RustNames.{int_rem};
ghost use Rattle.wgsl_rules.specs.Kinds as kinds;
ghost use Rattle.wgsl_rules.specs.Kinds.{InKind, wrap};
ghost use Rattle.wgsl_rules.specs.Values.{number};
ghost use Rattle.wgsl_scalar.specs.Answers.{Answers};
ghost use Rattle.wgsl_scalar.specs.Literals.{literal_of, kind_of};
ghost use Rattle.wgsl_scalar.specs.Arith.{
  overflows,
  negation,
  sum_in,
  difference_in,
  product_in,
  cut_quotient,
  has_quotient,
  takes_quotient,
  quotient_in,
  has_remainder,
  remainder_in,
  sum,
  difference,
  product,
  quotient,
  remainder,
};

use crate::error::Error;
use crate::kind::Kind;
use crate::literal::LiteralInstance;
use wgsl_rules::{BinaryOperator, ShaderStage, UnaryOperator};

impl Kind {
    /// Whether the number is abstract and out of range.
    fn overflows(self, n: i128) -> bool
        ensures { result ≡ overflows (kind_of self) n }
    {
        self == Kind::AbstractInt && !self.contains(n)
    }

    #[tactic(auto, using(crate::proofs::lemmas::Ranges::narrow))]
    fn sum(self, left: i128, right: i128) -> Result<LiteralInstance, Error>
        requires left { InKind (kind_of self) left }
        requires right { InKind (kind_of self) right }
        ensures { Answers literal_of result (sum_in (kind_of self) left right) }
    {
        let sum = left.strict_add(right);
        if self.overflows(sum) {
            return Err(Error::AddOverflow);
        }
        Ok(self.wrap(sum))
    }

    #[tactic(auto, using(crate::proofs::lemmas::Ranges::narrow))]
    fn difference(self, left: i128, right: i128) -> Result<LiteralInstance, Error>
        requires left { InKind (kind_of self) left }
        requires right { InKind (kind_of self) right }
        ensures { Answers literal_of result (difference_in (kind_of self) left right) }
    {
        let difference = left.strict_sub(right);
        if self.overflows(difference) {
            return Err(Error::SubOverflow);
        }
        Ok(self.wrap(difference))
    }

    fn product(self, left: i128, right: i128) -> Result<LiteralInstance, Error>
        requires left { InKind (kind_of self) left }
        requires right { InKind (kind_of self) right }
        ensures { Answers literal_of result (product_in (kind_of self) left right) }
    {
        match self {
            Kind::U64 => Ok(unsigned_product(left, right)),
            _ => self.narrow_product(left, right),
        }
    }

    /// The product in a kind whose products have at most 127 bits.
    #[tactic(auto, using(crate::proofs::lemmas::Ranges::product_fits))]
    fn narrow_product(self, left: i128, right: i128) -> Result<LiteralInstance, Error>
        requires left { InKind (kind_of self) left }
        requires right { InKind (kind_of self) right }
        requires narrow { kind_of self ≢ kinds.u64 }
        ensures { Answers literal_of result (product_in (kind_of self) left right) }
    {
        let product = left.strict_mul(right);
        if self.overflows(product) {
            return Err(Error::MulOverflow);
        }
        Ok(self.wrap(product))
    }

    fn quotient(self, left: i128, right: i128, stage: ShaderStage) -> Result<LiteralInstance, Error>
        requires left { InKind (kind_of self) left }
        requires right { InKind (kind_of self) right }
        ensures { Answers literal_of result (quotient_in stage (kind_of self) left right) }
    {
        match self.known_quotient(left, right) {
            Some(quotient) => Ok(self.wrap(quotient)),
            None => match stage {
                ShaderStage::Exec => Ok(self.literal(left)),
                ShaderStage::Const | ShaderStage::Override => Err(Error::DivByZero),
            },
        }
    }

    /// The quotient, where the divisor is not 0 and the quotient is of this kind or wraps.
    #[tactic(auto, using(crate::proofs::lemmas::Ranges::narrow))]
    fn known_quotient(self, left: i128, right: i128) -> Option<i128>
        requires left { InKind (kind_of self) left }
        requires right { InKind (kind_of self) right }
        ensures known { MatchOption result (has_quotient (kind_of self) left right ≡ false) (λ q. has_quotient (kind_of self) left right ≡ true) }
        ensures value { IfSome result (λ q. q ≡ cut_quotient left right) }
    {
        if right == 0 {
            return None;
        }
        let quotient = self.cut_quotient(left, right);
        if self.takes_quotient(quotient) {
            Some(quotient)
        } else {
            None
        }
    }

    /// The quotient cut toward zero. Two numbers of 64 bits are divided as such, which is quicker.
    #[inline]
    #[tactic(auto, using(crate::proofs::lemmas::Ranges::narrow))]
    fn cut_quotient(self, left: i128, right: i128) -> i128
        requires left { InKind (kind_of self) left }
        requires right { InKind (kind_of self) right }
        requires nonzero { right ≢ pos 0 }
        ensures { result ≡ cut_quotient left right }
    {
        match short_quotient(left, right) {
            Some(quotient) => quotient,
            None => left.strict_div(right),
        }
    }

    /// What the quotient cut toward zero leaves, found as that quotient is.
    #[inline]
    #[tactic(auto, using(crate::proofs::lemmas::Ranges::narrow))]
    fn cut_remainder(self, left: i128, right: i128) -> i128
        requires left { InKind (kind_of self) left }
        requires right { InKind (kind_of self) right }
        requires nonzero { right ≢ pos 0 }
        ensures { result ≡ int_rem left right }
    {
        match short_remainder(left, right) {
            Some(remainder) => remainder,
            None => left.strict_rem(right),
        }
    }

    /// Whether the quotient is of this kind or wraps.
    fn takes_quotient(self, quotient: i128) -> bool
        ensures { result ≡ takes_quotient (kind_of self) quotient }
    {
        self == Kind::I64 || self.contains(quotient)
    }

    #[tactic(auto, using(crate::proofs::lemmas::Ranges::narrow, crate::proofs::lemmas::Ranges::remainder_in_kind))]
    fn remainder(
        self,
        left: i128,
        right: i128,
        stage: ShaderStage,
    ) -> Result<LiteralInstance, Error>
        requires left { InKind (kind_of self) left }
        requires right { InKind (kind_of self) right }
        ensures { Answers literal_of result (remainder_in stage (kind_of self) left right) }
    {
        if self.has_remainder(left, right) {
            return Ok(self.literal(self.cut_remainder(left, right)));
        }
        match stage {
            ShaderStage::Const => Err(Error::RemZeroDiv),
            ShaderStage::Override | ShaderStage::Exec => Ok(self.literal(0)),
        }
    }

    /// Whether the divisor is not 0, and the quotient is of this kind.
    #[tactic(auto, using(crate::proofs::lemmas::Ranges::narrow))]
    fn has_remainder(self, left: i128, right: i128) -> bool
        requires left { InKind (kind_of self) left }
        requires right { InKind (kind_of self) right }
        ensures value { result ≡ has_remainder (kind_of self) left right }
        ensures nonzero { IsTrue result → right ≢ pos 0 }
    {
        right != 0 && self.contains(self.cut_quotient(left, right))
    }
}

/// The quotient cut toward zero of two numbers of 64 bits.
#[inline]
fn short_quotient(left: i128, right: i128) -> Option<i128>
    ensures { IfSome result (λ q. q ≡ cut_quotient left right) }
{
    let left = i64::try_from(left).ok()?;
    let right = i64::try_from(right).ok()?;
    let quotient = left.checked_div(right)?;
    Some(i128::from(quotient))
}

/// What the quotient of two numbers of 64 bits leaves.
#[inline]
fn short_remainder(left: i128, right: i128) -> Option<i128>
    ensures { IfSome result (λ r. r ≡ int_rem left right) }
{
    let left = i64::try_from(left).ok()?;
    let right = i64::try_from(right).ok()?;
    let remainder = left.checked_rem(right)?;
    Some(i128::from(remainder))
}

/// The product of two numbers of 64 bits, modulo 2 to the 64.
fn unsigned_product(left: i128, right: i128) -> LiteralInstance
    requires left { InKind kinds.u64 left }
    requires right { InKind kinds.u64 right }
    ensures { literal_of result ≡ number kinds.u64 (wrap kinds.u64 (left *ℤ right)) }
{
    LiteralInstance::U64((left as u64).wrapping_mul(right as u64))
}

impl LiteralInstance {
    /// The negative, which wraps; an unsigned number and a bool are refused by `Unary`
    /// (WGSL: arithmetic expressions, unary `-`).
    #[tactic(auto, using(crate::proofs::lemmas::Ranges::narrow))]
    pub fn op_neg(&self) -> Result<LiteralInstance, Error>
        ensures { Answers literal_of result (negation (literal_of self.now)) }
    {
        if let Some((kind, n)) = self.parts()
            && kind.is_signed()
        {
            return Ok(kind.wrap(n.strict_neg()));
        }
        Err(Error::Unary(UnaryOperator::Negation, self.literal_ty()))
    }

    /// The sum, in the common type. It wraps, but an abstract sum that is out of range is refused by
    /// `AddOverflow`, in every stage. Without a common type, or where a number does not fit it, the
    /// call is refused by `Binary` (WGSL: arithmetic expressions, `+`).
    pub fn op_add(
        &self,
        rhs: &LiteralInstance,
        _stage: ShaderStage,
    ) -> Result<LiteralInstance, Error>
        ensures { Answers literal_of result (sum (literal_of self.now) (literal_of rhs.now)) }
    {
        let (kind, left, right) = self.operands(rhs, BinaryOperator::Addition)?;
        kind.sum(left, right)
    }

    /// The difference, in the common type. It wraps, but an abstract difference that is out of range
    /// is refused by `SubOverflow`, in every stage; otherwise refused as `op_add` is
    /// (WGSL: arithmetic expressions, `-`).
    pub fn op_sub(
        &self,
        rhs: &LiteralInstance,
        _stage: ShaderStage,
    ) -> Result<LiteralInstance, Error>
        ensures { Answers literal_of result (difference (literal_of self.now) (literal_of rhs.now)) }
    {
        let (kind, left, right) = self.operands(rhs, BinaryOperator::Subtraction)?;
        kind.difference(left, right)
    }

    /// The product, in the common type. It wraps, but an abstract product that is out of range is
    /// refused by `MulOverflow`, in every stage; otherwise refused as `op_add` is
    /// (WGSL: arithmetic expressions, `*`).
    pub fn op_mul(
        &self,
        rhs: &LiteralInstance,
        _stage: ShaderStage,
    ) -> Result<LiteralInstance, Error>
        ensures { Answers literal_of result (product (literal_of self.now) (literal_of rhs.now)) }
    {
        let (kind, left, right) = self.operands(rhs, BinaryOperator::Multiplication)?;
        kind.product(left, right)
    }

    /// The quotient, cut toward zero, in the common type. Division by 0, and of the least abstract
    /// number or `i32` by -1, is refused by `DivByZero` but answers the left side while the shader
    /// runs; the least `i64` by -1 is itself. Otherwise refused as `op_add` is
    /// (WGSL: arithmetic expressions, `/`).
    pub fn op_div(
        &self,
        rhs: &LiteralInstance,
        stage: ShaderStage,
    ) -> Result<LiteralInstance, Error>
        ensures { Answers literal_of result (quotient stage (literal_of self.now) (literal_of rhs.now)) }
    {
        let (kind, left, right) = self.operands(rhs, BinaryOperator::Division)?;
        kind.quotient(left, right, stage)
    }

    /// What the quotient cut toward zero leaves, in the common type. By 0, and of the least number by
    /// -1, it is refused by `RemZeroDiv` while the shader module is made, and 0 in later stages.
    /// Otherwise refused as `op_add` is (WGSL: arithmetic expressions, `%`).
    pub fn op_rem(
        &self,
        rhs: &LiteralInstance,
        stage: ShaderStage,
    ) -> Result<LiteralInstance, Error>
        ensures { Answers literal_of result (remainder stage (literal_of self.now) (literal_of rhs.now)) }
    {
        let (kind, left, right) = self.operands(rhs, BinaryOperator::Remainder)?;
        kind.remainder(left, right, stage)
    }
}
