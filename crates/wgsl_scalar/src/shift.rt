//! Shifts (WGSL: bit expressions).

ghost use Rattle.std.specs.Prelude.{◌≡◌, ◌<◌, ◌^◌, ◌*ℤ◌, IfOk, pos};
ghost use Rattle.wgsl_rules.specs.Kinds.{InKind, floor_div};
ghost use Rattle.wgsl_scalar.specs.Answers.{Answers};
ghost use Rattle.wgsl_scalar.specs.Literals.{literal_of, kind_of};
ghost use Rattle.wgsl_scalar.specs.Shifts.{
  floored,
  places_of,
  scaled_in,
  shift_operands,
  shift_view,
  shifted_left,
  shifted_left_in,
  shifted_right,
  shifted_right_in,
};

use crate::error::Error;
use crate::kind::Kind;
use crate::literal::LiteralInstance;
use wgsl_rules::{BinaryOperator, ShaderStage, Type};

impl Kind {
    fn shifted_left(
        self,
        n: i128,
        places: u32,
        stage: ShaderStage,
    ) -> Result<LiteralInstance, Error>
        requires { InKind (kind_of self) n }
        ensures { Answers literal_of result (shifted_left_in stage (kind_of self) n places) }
    {
        match self {
            Kind::AbstractInt if places < 64 => self.scaled(n, places, stage),
            Kind::AbstractInt => Ok(self.literal(0)),
            _ => self.scaled(n, places % self.width(), stage),
        }
    }

    /// The number times 2 to the power, where it is of this kind; else it wraps while the shader runs.
    fn scaled(self, n: i128, places: u32, stage: ShaderStage) -> Result<LiteralInstance, Error>
        requires in_kind { InKind (kind_of self) n }
        requires few { places < 64 }
        ensures { Answers literal_of result (scaled_in stage (kind_of self) n places) }
    {
        let product = scaled(self, n, places);
        if self.contains(product) {
            return Ok(self.literal(product));
        }
        match stage {
            ShaderStage::Exec => Ok(self.wrap(product)),
            ShaderStage::Const | ShaderStage::Override => {
                Err(Error::ShlOverflow(places, self.literal(n)))
            }
        }
    }

    fn shifted_right(
        self,
        n: i128,
        places: u32,
        stage: ShaderStage,
    ) -> Result<LiteralInstance, Error>
        requires { InKind (kind_of self) n }
        ensures { Answers literal_of result (shifted_right_in stage (kind_of self) n places) }
    {
        if self == Kind::AbstractInt || places < self.width() {
            return Ok(self.floored(n, places));
        }
        match stage {
            ShaderStage::Exec => Ok(self.floored(n, places % self.width())),
            ShaderStage::Const | ShaderStage::Override => {
                Err(Error::ShrOverflow(places, self.literal(n)))
            }
        }
    }

    /// The number by 2 to the power, rounded down.
    fn floored(self, n: i128, places: u32) -> LiteralInstance
        requires { InKind (kind_of self) n }
        ensures { literal_of result ≡ floored (kind_of self) n places }
    {
        self.literal(self.floor(n, places))
    }

    #[tactic(auto, using(crate::proofs::lemmas::Ranges::floor_in, crate::proofs::lemmas::Ranges::floor_far))]
    fn floor(self, n: i128, places: u32) -> i128
        requires { InKind (kind_of self) n }
        ensures value { result ≡ floor_div n (2 ^ places) }
        ensures in_kind { InKind (kind_of self) result }
    {
        if places < 64 {
            floor_of(n, places)
        } else {
            floor_of(n, 64)
        }
    }
}

/// The number times 2 to the power.
fn scaled(kind: Kind, n: i128, places: u32) -> i128
    requires in_kind { InKind (kind_of kind) n }
    requires few { places < 64 }
    ensures { result ≡ n *ℤ pos (2 ^ places) }
{
    n.strict_mul(1i128 << places)
}

/// The number by 2 to the power, rounded down.
fn floor_of(n: i128, places: u32) -> i128
    requires { places < 128 }
    ensures { result ≡ floor_div n (2 ^ places) }
{
    n >> places
}

impl LiteralInstance {
    /// How many places a shift by this literal goes: its number as a `u32`, where it converts.
    fn places(&self) -> Option<u32>
        ensures { result ≡ places_of (literal_of self.now) }
    {
        match self.to_kind(&Type::U32) {
            Some(LiteralInstance::U32(places)) => Some(places),
            _ => None,
        }
    }

    /// The operands of a shift, or its refusal.
    fn shift_operands(
        &self,
        rhs: &LiteralInstance,
        operator: BinaryOperator,
    ) -> Result<(Kind, i128, u32), Error>
        ensures value { Answers shift_view result (shift_operands operator (literal_of self.now) (literal_of rhs.now)) }
        ensures in_kind { IfOk result (λ p. InKind (kind_of p.0) p.1) }
    {
        match (self.parts(), rhs.places()) {
            (Some((kind, n)), Some(places)) => Ok((kind, n, places)),
            _ => Err(Error::Binary(operator, self.literal_ty(), rhs.literal_ty())),
        }
    }

    /// The number times 2 to the count. The count converts to `u32`, else the call is refused by
    /// `Binary`, as it is for a bool. An abstract number shifted by 64 places or more is 0; another is
    /// shifted by the count modulo its width. An answer out of range is refused by `ShlOverflow`, with
    /// that count, but wraps while the shader runs (WGSL: bit expressions, `<<`).
    pub fn op_shl(
        &self,
        rhs: &LiteralInstance,
        stage: ShaderStage,
    ) -> Result<LiteralInstance, Error>
        ensures { Answers literal_of result (shifted_left stage (literal_of self.now) (literal_of rhs.now)) }
    {
        let (kind, n, places) = self.shift_operands(rhs, BinaryOperator::ShiftLeft)?;
        kind.shifted_left(n, places, stage)
    }

    /// The number by 2 to the count, rounded down. The count converts to `u32`, else the call is
    /// refused by `Binary`, as it is for a bool. A count of the width or more is refused by
    /// `ShrOverflow`, but taken modulo the width while the shader runs; an abstract number takes every
    /// count (WGSL: bit expressions, `>>`).
    pub fn op_shr(
        &self,
        rhs: &LiteralInstance,
        stage: ShaderStage,
    ) -> Result<LiteralInstance, Error>
        ensures { Answers literal_of result (shifted_right stage (literal_of self.now) (literal_of rhs.now)) }
    {
        let (kind, n, places) = self.shift_operands(rhs, BinaryOperator::ShiftRight)?;
        kind.shifted_right(n, places, stage)
    }
}
