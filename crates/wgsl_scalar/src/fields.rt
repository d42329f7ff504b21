//! Fields of bits, the first and the last 1, and bits in reverse (WGSL: numeric builtin functions).

ghost use Rattle.std.specs.Prelude.{◌≡◌, ℕ, ◌+◌, ◌-◌, ◌<◌, ◌≤◌, ◌^◌, ◌&&◌, nat_le, nat_lt, if◌then◌else◌, IfErr, IfOk, IfSome, MatchOption, None, Some};
ghost use Rattle.std.specs.Int.{bit_at};
ghost use Rattle.wgsl_rules.specs.Kinds.{InKind, width};
ghost use Rattle.wgsl_scalar.specs.Answers.{Answers, builtin_reason_of};
ghost use Rattle.wgsl_scalar.specs.BitFields.{
  bit_above,
  extracted,
  field_in,
  field_start,
  field_width,
  first_leading,
  first_leading_in,
  first_trailing,
  first_trailing_in,
  inserted,
  reversed,
  reversed_in,
  turned,
  why_not_inserted,
  with_field_in,
  word_of,
};
ghost use Rattle.wgsl_scalar.specs.Literals.{literal_of, kind_of, number_view};
ghost use Rattle.wgsl_scalar.specs.declared.builtin.BuiltinReason.TheVariants as reasons;

use crate::builtin::BuiltinReason;
use crate::error::Error;
use crate::kind::{Kind, low_32, low_64};
use crate::literal::LiteralInstance;

/// A field of the bits of an `i32` or a `u32`.
#[derive(Clone, Copy)]
struct Field {
    start: u32,
    length: u32,
    ghost within: { start + length ≤ 32 },
}

impl Field {
    /// The field of `count` bits from `offset` on, as far as there are bits.
    fn new(offset: u32, count: u32) -> Field
        ensures start { result.start ≡ field_start offset }
        ensures length { result.length ≡ field_width offset count }
    {
        let start = offset.min(32);
        let length = count.min(32 - start);
        Field { start, length }
    }

    /// The number with as many ones as the field has bits.
    fn ones(self) -> u64
        ensures { result ≡ 2 ^ self.length - 1 }
    {
        (1u64 << self.length) - 1
    }

    /// The bits of the field, from place 0 on.
    fn bits_of(self, word: u64) -> u64
        ensures { (i : ℕ) → bit_at result i ≡ (if nat_lt i self.length then bit_at word (self.start + i) else 0) }
    {
        (word >> self.start) & self.ones()
    }

    /// The bits with ones above the length of the field.
    fn filled(self, bits: u64) -> u64
        ensures { (i : ℕ) → i < 64 → bit_at result i ≡ (if nat_lt i self.length then bit_at bits i else 1) }
    {
        bits | !self.ones()
    }

    /// The word with the low bits of `new` in the field.
    fn replaced(self, word: u64, new: u64) -> u64
        ensures { (i : ℕ) → i < 64 → bit_at result i ≡ (if nat_le self.start i && nat_lt i (self.start + self.length) then bit_at new (i - self.start) else bit_at word i) }
    {
        let mask = self.ones() << self.start;
        (word & !mask) | ((new << self.start) & mask)
    }
}

/// The number whose ones are the bits that are other than the sign.
fn turned(n: i128) -> i128
    ensures { result ≡ turned n }
{
    if n < 0 { (-1i128).strict_sub(n) } else { n }
}

impl Kind {
    /// Whether ones stand above the field when it is a number of this kind.
    fn is_filled(self, n: i128, field: Field) -> bool
        ensures { bit_above (kind_of self) n field.start field.length ≡ (if result then 1 else 0) }
    {
        self.is_signed()
            && field.length > 0
            && (low_64(n) >> (field.start + field.length - 1)) & 1 == 1
    }

    fn extract(self, n: i128, field: Field) -> LiteralInstance
        requires { width (kind_of self) ≡ 32 }
        ensures { literal_of result ≡ field_in field.start field.length (kind_of self) n }
    {
        let bits = field.bits_of(low_64(n));
        if self.is_filled(n, field) {
            self.wrap(i128::from(field.filled(bits)))
        } else {
            self.wrap(i128::from(bits))
        }
    }

    fn insert(self, n: i128, new: i128, field: Field) -> LiteralInstance
        requires { width (kind_of self) ≡ 32 }
        ensures { literal_of result ≡ with_field_in field.start field.length (kind_of self) n new }
    {
        self.wrap(i128::from(field.replaced(low_64(n), low_64(new))))
    }

    fn first_leading_bit(self, n: i128) -> LiteralInstance
        requires word { width (kind_of self) ≡ 32 }
        requires in_kind { InKind (kind_of self) n }
        ensures { literal_of result ≡ first_leading_in (kind_of self) n }
    {
        self.wrap(31 - i128::from(self.leading_zeros(turned(n))))
    }

    fn first_trailing_bit(self, n: i128) -> LiteralInstance
        requires { width (kind_of self) ≡ 32 }
        ensures { literal_of result ≡ first_trailing_in (kind_of self) n }
    {
        let place = self.trailing_zeros(n);
        self.wrap(if place < 32 { i128::from(place) } else { -1 })
    }

    fn reverse_bits(self, n: i128) -> LiteralInstance
        requires { width (kind_of self) ≡ 32 }
        ensures { literal_of result ≡ reversed_in (kind_of self) n }
    {
        self.wrap(i128::from(low_32(n).reverse_bits()))
    }
}

impl LiteralInstance {
    /// The kind and the number, of an `i32` or a `u32`.
    fn word(&self) -> Option<(Kind, i128)>
        ensures value { MatchOption result (word_of (literal_of self.now) ≡ None) (λ p. word_of (literal_of self.now) ≡ Some (number_view p)) }
        ensures width { IfSome result (λ p. width (kind_of p.0) ≡ 32) }
        ensures in_kind { IfSome result (λ p. InKind (kind_of p.0) p.1) }
    {
        match *self {
            LiteralInstance::I32(n) => Some((Kind::I32, i128::from(n))),
            LiteralInstance::U32(n) => Some((Kind::U32, i128::from(n))),
            _ => None,
        }
    }

    /// The field of `count` bits from `offset` on, as a number: an `i32` has the sign of the highest
    /// of them, and without bits the number is 0. In each stage the offset is at most 32 and the count
    /// at most what is left from there, as if the lesser had been asked. A literal that is no `i32`
    /// or `u32` is refused by `Builtin` with `NotI32OrU32`
    /// (WGSL: numeric builtin functions, `extractBits`; past 32 it is this crate's own).
    pub fn extract_bits(&self, offset: u32, count: u32) -> Result<LiteralInstance, Error>
        ensures value { Answers literal_of result (extracted offset count (literal_of self.now)) }
        ensures reason { IfErr result (λ e. builtin_reason_of e ≡ Some reasons.NotI32OrU32) }
    {
        match self.word() {
            Some((kind, n)) => Ok(kind.extract(n, Field::new(offset, count))),
            None => Err(Error::Builtin(BuiltinReason::NotI32OrU32)),
        }
    }

    /// The number with the low bits of `newbits` as its `count` bits from `offset` on, in their common
    /// type. Offset and count are limited as by `extract_bits`, in each stage. Refused by `Builtin`:
    /// two bools, with `NotNumber`; two that have no common type, and a number that does not fit it,
    /// with `NoCommonType`; a common type that is not `i32` or `u32`, with `NotI32OrU32`
    /// (WGSL: numeric builtin functions, `insertBits`; past 32 it is this crate's own).
    pub fn insert_bits(
        &self,
        newbits: &LiteralInstance,
        offset: u32,
        count: u32,
    ) -> Result<LiteralInstance, Error>
        ensures value { Answers literal_of result (inserted offset count (literal_of self.now) (literal_of newbits.now)) }
        ensures reason { IfErr result (λ e. builtin_reason_of e ≡ Some (why_not_inserted (literal_of self.now) (literal_of newbits.now))) }
    {
        let field = Field::new(offset, count);
        match self.common_operands(newbits) {
            Some((kind, n, new)) => match kind {
                Kind::I32 | Kind::U32 => Ok(kind.insert(n, new, field)),
                Kind::AbstractInt | Kind::I64 | Kind::U64 => {
                    Err(Error::Builtin(BuiltinReason::NotI32OrU32))
                }
            },
            None => Err(Error::Builtin(self.why_unordered(newbits))),
        }
    }

    /// The place of the highest 1, counted from the lowest bit, and of a negative number that of the
    /// highest 0; -1, which is the greatest `u32`, where there is none. A literal that is no `i32` or
    /// `u32` is refused by `Builtin` with `NotI32OrU32`
    /// (WGSL: numeric builtin functions, `firstLeadingBit`).
    pub fn first_leading_bit(&self) -> Result<LiteralInstance, Error>
        ensures value { Answers literal_of result (first_leading (literal_of self.now)) }
        ensures reason { IfErr result (λ e. builtin_reason_of e ≡ Some reasons.NotI32OrU32) }
    {
        match self.word() {
            Some((kind, n)) => Ok(kind.first_leading_bit(n)),
            None => Err(Error::Builtin(BuiltinReason::NotI32OrU32)),
        }
    }

    /// The place of the lowest 1, counted from the lowest bit; -1, which is the greatest `u32`, where
    /// there is none. A literal that is no `i32` or `u32` is refused by `Builtin` with `NotI32OrU32`
    /// (WGSL: numeric builtin functions, `firstTrailingBit`).
    pub fn first_trailing_bit(&self) -> Result<LiteralInstance, Error>
        ensures value { Answers literal_of result (first_trailing (literal_of self.now)) }
        ensures reason { IfErr result (λ e. builtin_reason_of e ≡ Some reasons.NotI32OrU32) }
    {
        match self.word() {
            Some((kind, n)) => Ok(kind.first_trailing_bit(n)),
            None => Err(Error::Builtin(BuiltinReason::NotI32OrU32)),
        }
    }

    /// The bits from the last to the first. A literal that is no `i32` or `u32` is refused by `Builtin`
    /// with `NotI32OrU32` (WGSL: numeric builtin functions, `reverseBits`).
    pub fn reverse_bits(&self) -> Result<LiteralInstance, Error>
        ensures value { Answers literal_of result (reversed (literal_of self.now)) }
        ensures reason { IfErr result (λ e. builtin_reason_of e ≡ Some reasons.NotI32OrU32) }
    {
        match self.word() {
            Some((kind, n)) => Ok(kind.reverse_bits(n)),
            None => Err(Error::Builtin(BuiltinReason::NotI32OrU32)),
        }
    }
}
