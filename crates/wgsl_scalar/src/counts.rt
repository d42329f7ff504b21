//! Magnitudes, signs and counts of bits (WGSL: numeric builtin functions).

ghost use Rattle.std.specs.Prelude.{◌≡◌, pos};
ghost use Rattle.wgsl_rules.specs.Kinds.{InKind};
ghost use Rattle.wgsl_scalar.specs.Answers.{Answers};
ghost use Rattle.wgsl_scalar.specs.Literals.{literal_of, kind_of};
ghost use Rattle.wgsl_scalar.specs.Counts.{
  leading_zeros,
  leading_zeros_in,
  magnitude,
  one_bits,
  one_bits_in,
  sign,
  trailing_zeros,
  trailing_zeros_in,
};

use crate::builtin::BuiltinReason;
use crate::error::Error;
use crate::kind::{Kind, low_32, low_64};
use crate::literal::LiteralInstance;

impl Kind {
    pub(crate) fn leading_zeros(self, n: i128) -> u32
        ensures value { pos result ≡ leading_zeros_in (kind_of self) n }
        ensures in_kind { InKind (kind_of self) (pos result) }
    {
        match self.width() {
            32 => low_32(n).leading_zeros(),
            _ => low_64(n).leading_zeros(),
        }
    }

    fn one_bits(self, n: i128) -> u32
        ensures value { pos result ≡ one_bits_in (kind_of self) n }
        ensures in_kind { InKind (kind_of self) (pos result) }
    {
        match self.width() {
            32 => low_32(n).count_ones(),
            _ => low_64(n).count_ones(),
        }
    }

    pub(crate) fn trailing_zeros(self, n: i128) -> u32
        ensures value { pos result ≡ trailing_zeros_in (kind_of self) n }
        ensures in_kind { InKind (kind_of self) (pos result) }
    {
        match self.width() {
            32 => low_32(n).trailing_zeros(),
            _ => low_64(n).trailing_zeros(),
        }
    }
}

impl LiteralInstance {
    /// The magnitude of a number, which wraps; a bool is refused by `Builtin`
    /// (WGSL: numeric builtin functions, `abs`).
    #[tactic(auto, using(crate::proofs::lemmas::Ranges::narrow))]
    pub fn abs(&self) -> Result<LiteralInstance, Error>
        ensures { Answers literal_of result (magnitude (literal_of self.now)) }
    {
        match self.parts() {
            Some((kind, n)) => Ok(kind.wrap(n.abs())),
            None => Err(Error::Builtin(BuiltinReason::NotNumber)),
        }
    }

    /// -1, 0 or 1 as the number is negative, 0 or positive; a bool is refused by `Builtin`
    /// (WGSL: numeric builtin functions, `sign`).
    pub fn sign(&self) -> Result<LiteralInstance, Error>
        ensures { Answers literal_of result (sign (literal_of self.now)) }
    {
        match self.parts() {
            Some((kind, n)) => Ok(kind.literal(n.signum())),
            None => Err(Error::Builtin(BuiltinReason::NotNumber)),
        }
    }

    /// How many bits above the highest 1 are 0, over the width of the kind; a bool is refused by
    /// `Builtin` (WGSL: numeric builtin functions, `countLeadingZeros`).
    pub fn count_leading_zeros(&self) -> Result<LiteralInstance, Error>
        ensures { Answers literal_of result (leading_zeros (literal_of self.now)) }
    {
        match self.parts() {
            Some((kind, n)) => Ok(kind.literal(i128::from(kind.leading_zeros(n)))),
            None => Err(Error::Builtin(BuiltinReason::NotNumber)),
        }
    }

    /// How many bits are 1, over the width of the kind; a bool is refused by `Builtin`
    /// (WGSL: numeric builtin functions, `countOneBits`).
    pub fn count_one_bits(&self) -> Result<LiteralInstance, Error>
        ensures { Answers literal_of result (one_bits (literal_of self.now)) }
    {
        match self.parts() {
            Some((kind, n)) => Ok(kind.literal(i128::from(kind.one_bits(n)))),
            None => Err(Error::Builtin(BuiltinReason::NotNumber)),
        }
    }

    /// How many bits below the lowest 1 are 0, over the width of the kind; a bool is refused by
    /// `Builtin` (WGSL: numeric builtin functions, `countTrailingZeros`).
    pub fn count_trailing_zeros(&self) -> Result<LiteralInstance, Error>
        ensures { Answers literal_of result (trailing_zeros (literal_of self.now)) }
    {
        match self.parts() {
            Some((kind, n)) => Ok(kind.literal(i128::from(kind.trailing_zeros(n)))),
            None => Err(Error::Builtin(BuiltinReason::NotNumber)),
        }
    }
}
