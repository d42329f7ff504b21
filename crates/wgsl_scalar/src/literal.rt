//! Literals: a bool, or a number of some kind (WGSL: scalar types).

ghost use Rattle.std.specs.Prelude.{◌≡◌, pos, IfSome, MatchOption, None, Some, IsTrue, IsFalse, option_map};
ghost use Rattle.wgsl_rules.specs.Converted.{abstract_converted, converted};
ghost use Rattle.wgsl_rules.specs.Kinds as kinds;
ghost use Rattle.wgsl_rules.specs.Kinds.{InKind};
ghost use Rattle.wgsl_rules.specs.Types as types;
ghost use Rattle.wgsl_rules.specs.Values.{IsStorable, type_of, truth, number};
ghost use Rattle.wgsl_rules.specs.View.{type_view};
ghost use Rattle.wgsl_scalar.specs.Literals.{literal_of, number_of, number_view, kind_of};

use crate::kind::Kind;
use wgsl_rules::Type;

/// A literal: a truth value, or a number with its kind.
///
/// The kinds are those of WGSL and two of 64 bits, `I64` and `U64`.
#[derive(Clone, Copy, Debug, PartialEq, Eq)]
pub enum LiteralInstance {
    Bool(bool),
    AbstractInt(i64),
    I32(i32),
    U32(u32),
    I64(i64),
    U64(u64),
}

impl LiteralInstance {
    /// The type of this literal, whose number is one of its kind (WGSL: scalar types).
    pub fn literal_ty(&self) -> Type
        ensures value { type_view result ≡ type_of (literal_of self.now) }
        ensures in_kind { IsStorable (literal_of self.now) }
    {
        match *self {
            LiteralInstance::Bool(_) => Type::Bool,
            LiteralInstance::AbstractInt(_number) => Type::AbstractInt,
            LiteralInstance::I32(_number) => Type::I32,
            LiteralInstance::U32(_number) => Type::U32,
            LiteralInstance::I64(_number) => Type::I64,
            LiteralInstance::U64(_number) => Type::U64,
        }
    }

    /// The kind and the number, of a number.
    #[inline(always)]
    pub(crate) fn parts(&self) -> Option<(Kind, i128)>
        ensures value { MatchOption result (number_of (literal_of self.now) ≡ None) (λ p. number_of (literal_of self.now) ≡ Some (number_view p)) }
        ensures in_kind { IfSome result (λ p. InKind (kind_of p.0) p.1) }
    {
        match *self {
            LiteralInstance::Bool(_) => None,
            LiteralInstance::AbstractInt(n) => Some((Kind::AbstractInt, i128::from(n))),
            LiteralInstance::I32(n) => Some((Kind::I32, i128::from(n))),
            LiteralInstance::U32(n) => Some((Kind::U32, i128::from(n))),
            LiteralInstance::I64(n) => Some((Kind::I64, i128::from(n))),
            LiteralInstance::U64(n) => Some((Kind::U64, i128::from(n))),
        }
    }

    /// This literal as a value of the type, where it converts: to its own type, and from an
    /// abstract integer to `i32` and `u32`, where the number is in range (WGSL: conversion rank).
    pub fn to_kind(&self, ty: &Type) -> Option<LiteralInstance>
        ensures { option_map literal_of result ≡ converted (literal_of self.now) (type_view ty.now) }
    {
        match *self {
            LiteralInstance::AbstractInt(n) => abstract_to_kind(n, ty),
            _ => {
                if self.literal_ty() == *ty {
                    Some(*self)
                } else {
                    None
                }
            }
        }
    }

    /// The truth value of a bool.
    pub fn unwrap_bool(self) -> bool
        requires { type_of (literal_of self) ≡ types.bool }
        ensures { literal_of self ≡ truth result }
    {
        match self {
            LiteralInstance::Bool(b) => b,
            _ => unreachable!(),
        }
    }

    /// The number of an abstract integer.
    pub fn unwrap_abstract_int(self) -> i64
        requires { type_of (literal_of self) ≡ types.abstract_int }
        ensures { literal_of self ≡ number kinds.abstract_int result }
    {
        match self {
            LiteralInstance::AbstractInt(n) => n,
            _ => unreachable!(),
        }
    }

    /// The number of an `i32`.
    pub fn unwrap_i32(self) -> i32
        requires { type_of (literal_of self) ≡ types.i32 }
        ensures { literal_of self ≡ number kinds.i32 result }
    {
        match self {
            LiteralInstance::I32(n) => n,
            _ => unreachable!(),
        }
    }

    /// The number of a `u32`.
    pub fn unwrap_u32(self) -> u32
        requires { type_of (literal_of self) ≡ types.u32 }
        ensures { literal_of self ≡ number kinds.u32 (pos result) }
    {
        match self {
            LiteralInstance::U32(n) => n,
            _ => unreachable!(),
        }
    }

    /// The number of an `i64`.
    pub fn unwrap_i64(self) -> i64
        requires { type_of (literal_of self) ≡ types.i64 }
        ensures { literal_of self ≡ number kinds.i64 result }
    {
        match self {
            LiteralInstance::I64(n) => n,
            _ => unreachable!(),
        }
    }

    /// The number of a `u64`.
    pub fn unwrap_u64(self) -> u64
        requires { type_of (literal_of self) ≡ types.u64 }
        ensures { literal_of self ≡ number kinds.u64 (pos result) }
    {
        match self {
            LiteralInstance::U64(n) => n,
            _ => unreachable!(),
        }
    }

    /// Whether this literal is finite, as each is: no literal is a float.
    pub fn is_finite(&self) -> bool
        ensures { IsTrue result }
    {
        !self.is_infinite()
    }

    /// Whether this literal is infinite, as none is.
    pub fn is_infinite(&self) -> bool
        ensures { IsFalse result }
    {
        false
    }
}

/// An abstract integer as a value of the type.
fn abstract_to_kind(n: i64, ty: &Type) -> Option<LiteralInstance>
    ensures { option_map literal_of result ≡ abstract_converted n (type_view ty.now) }
{
    if *ty == Type::AbstractInt {
        Some(LiteralInstance::AbstractInt(n))
    } else if *ty == Type::I32 {
        i32::try_from(n).ok().map(LiteralInstance::I32)
    } else if *ty == Type::U32 {
        u32::try_from(n).ok().map(LiteralInstance::U32)
    } else {
        None
    }
}

impl From<bool> for LiteralInstance {
    ghost use Rattle.std.specs.Prelude.{◌≡◌};
    ghost use Rattle.wgsl_rules.specs.Values.{truth};
    ghost use Rattle.wgsl_scalar.specs.Literals.{literal_of};

    ghost from_gives = { λ b v. literal_of v ≡ truth b };

    fn from(b: bool) -> LiteralInstance {
        LiteralInstance::Bool(b)
    }
}

impl From<i64> for LiteralInstance {
    ghost use Rattle.std.specs.Prelude.{◌≡◌};
    ghost use Rattle.wgsl_rules.specs.Kinds as kinds;
    ghost use Rattle.wgsl_rules.specs.Values.{number};
    ghost use Rattle.wgsl_scalar.specs.Literals.{literal_of};

    ghost from_gives = { λ n v. literal_of v ≡ number kinds.abstract_int n };

    fn from(n: i64) -> LiteralInstance {
        LiteralInstance::AbstractInt(n)
    }
}

impl From<i32> for LiteralInstance {
    ghost use Rattle.std.specs.Prelude.{◌≡◌};
    ghost use Rattle.wgsl_rules.specs.Kinds as kinds;
    ghost use Rattle.wgsl_rules.specs.Values.{number};
    ghost use Rattle.wgsl_scalar.specs.Literals.{literal_of};

    ghost from_gives = { λ n v. literal_of v ≡ number kinds.i32 n };

    fn from(n: i32) -> LiteralInstance {
        LiteralInstance::I32(n)
    }
}

impl From<u32> for LiteralInstance {
    ghost use Rattle.std.specs.Prelude.{◌≡◌, pos};
    ghost use Rattle.wgsl_rules.specs.Kinds as kinds;
    ghost use Rattle.wgsl_rules.specs.Values.{number};
    ghost use Rattle.wgsl_scalar.specs.Literals.{literal_of};

    ghost from_gives = { λ n v. literal_of v ≡ number kinds.u32 (pos n) };

    fn from(n: u32) -> LiteralInstance {
        LiteralInstance::U32(n)
    }
}
