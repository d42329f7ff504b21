//! The kinds of numbers: each operator is written once, over a kind and wide numbers.

ghost use Rattle.std.specs.Prelude.{◌≡◌, ◌^◌, pos, MatchOption, None, Some};
ghost use Rattle.wgsl_rules.specs.Kinds.{InKind, in_kind, is_signed, modulo, width, wrap};
ghost use Rattle.wgsl_rules.specs.Values.{number};
ghost use Rattle.wgsl_scalar.specs.Conversions.{converts, common_kind};
ghost use Rattle.wgsl_scalar.specs.Literals.{literal_of, kind_of};

use crate::literal::LiteralInstance;

/// A kind of numbers.
#[derive(Clone, Copy, Debug, PartialEq, Eq)]
pub(crate) enum Kind {
    AbstractInt,
    I32,
    U32,
    I64,
    U64,
}

impl Kind {
    /// How many bits a number of this kind has.
    pub(crate) fn width(self) -> u32
        ensures { result ≡ width (kind_of self) }
    {
        match self {
            Kind::AbstractInt | Kind::I64 | Kind::U64 => 64,
            Kind::I32 | Kind::U32 => 32,
        }
    }

    pub(crate) fn is_signed(self) -> bool
        ensures { result ≡ is_signed (kind_of self) }
    {
        match self {
            Kind::AbstractInt | Kind::I32 | Kind::I64 => true,
            Kind::U32 | Kind::U64 => false,
        }
    }

    /// The literal of this kind whose number is that of `n`, modulo 2 to the width.
    #[inline(always)]
    pub(crate) fn wrap(self, n: i128) -> LiteralInstance
        ensures { literal_of result ≡ number (kind_of self) (wrap (kind_of self) n) }
    {
        match self {
            Kind::AbstractInt => LiteralInstance::AbstractInt(low_64(n).cast_signed()),
            Kind::I32 => LiteralInstance::I32(low_32(n).cast_signed()),
            Kind::U32 => LiteralInstance::U32(low_32(n)),
            Kind::I64 => LiteralInstance::I64(low_64(n).cast_signed()),
            Kind::U64 => LiteralInstance::U64(low_64(n)),
        }
    }

    /// Whether `n` is a number of this kind.
    #[inline(always)]
    pub(crate) fn contains(self, n: i128) -> bool
        ensures { result ≡ in_kind (kind_of self) n }
    {
        match self {
            Kind::AbstractInt | Kind::I64 => i128::from(i64::MIN) <= n && n <= i128::from(i64::MAX),
            Kind::I32 => i128::from(i32::MIN) <= n && n <= i128::from(i32::MAX),
            Kind::U32 => 0 <= n && n <= i128::from(u32::MAX),
            Kind::U64 => 0 <= n && n <= i128::from(u64::MAX),
        }
    }

    /// Whether numbers of this kind convert to the other.
    #[inline(always)]
    pub(crate) fn converts(self, other: Kind) -> bool
        ensures { result ≡ converts (kind_of self) (kind_of other) }
    {
        match (self, other) {
            (Kind::AbstractInt, Kind::AbstractInt | Kind::I32 | Kind::U32) => true,
            (Kind::I32, Kind::I32) | (Kind::U32, Kind::U32) => true,
            (Kind::I64, Kind::I64) | (Kind::U64, Kind::U64) => true,
            _ => false,
        }
    }

    /// The kind that numbers of both kinds convert to.
    #[inline(always)]
    pub(crate) fn common(self, other: Kind) -> Option<Kind>
        ensures { MatchOption result (common_kind (kind_of self) (kind_of other) ≡ None) (λ k. common_kind (kind_of self) (kind_of other) ≡ Some (kind_of k)) }
    {
        if self.converts(other) {
            Some(other)
        } else if other.converts(self) {
            Some(self)
        } else {
            None
        }
    }

    /// The literal of this kind and number.
    #[inline(always)]
    #[tactic(auto, using(crate::proofs::lemmas::Ranges::wrap_same))]
    pub(crate) fn literal(self, n: i128) -> LiteralInstance
        requires { InKind (kind_of self) n }
        ensures { literal_of result ≡ number (kind_of self) n }
    {
        self.wrap(n)
    }
}

pub(crate) fn low_32(n: i128) -> u32
    ensures { result ≡ modulo n (2 ^ 32) }
{
    (n.cast_unsigned() & 0xffff_ffff) as u32
}

pub(crate) fn low_64(n: i128) -> u64
    ensures { result ≡ modulo n (2 ^ 64) }
{
    (n.cast_unsigned() & 0xffff_ffff_ffff_ffff) as u64
}
