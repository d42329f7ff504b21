//! Which types convert to which (WGSL: conversion rank).

ghost use Rattle.std.specs.Prelude.{◌≡◌, is_some, option_map, map, IfOk};
ghost use Rattle.wgsl_rules.specs.Conversion.{
  rank,
  rank_from_int,
  rank_from_float,
  struct_rank,
  common_type,
  common_type_of,
  concretized,
  concrete_scalar,
  loaded_type,
  CommonTypeIsSymmetric,
};
ghost use Rattle.wgsl_rules.specs.View.{type_view, struct_view};

use crate::ty::{StructType, Type};
use std::alloc::{AllocError, Global};

/// How far `a` is from `b`, the less the nearer: 0 where they are equal or where `a` is a readable
/// reference to `b`. `None` where `a` does not convert to `b` (WGSL: conversion rank).
/// It calls itself for each level of the types: keep to 4,095 within a stack of 8 MiB.
pub fn conversion_rank(a: &Type, b: &Type) -> Option<u32>
    ensures { result ≡ rank (type_view a.now) (type_view b.now) }
{
    if *a == *b {
        return Some(0);
    }
    match a {
        Type::AbstractInt => b.rank_from_int(),
        Type::AbstractFloat => b.rank_from_float(),
        Type::Ref(_, t, access) => (access.is_read() && **t == *b).then_some(0),
        Type::Struct(s) => match b {
            Type::Struct(t) => struct_rank(s.name.as_str(), t.name.as_str()),
            _ => None,
        },
        Type::Array(t, n) => match b {
            Type::Array(u, m) => if *n == *m {
                conversion_rank(t, u)
            } else {
                None
            },
            _ => None,
        },
        Type::Vec(n, t) => match b {
            Type::Vec(m, u) => if *n == *m {
                conversion_rank(t, u)
            } else {
                None
            },
            _ => None,
        },
        Type::Mat(c, r, t) => match b {
            Type::Mat(d, s, u) => if *c == *d && *r == *s {
                conversion_rank(t, u)
            } else {
                None
            },
            _ => None,
        },
        Type::Bool | Type::I32 | Type::U32 | Type::F32 | Type::F16 => None,
        Type::I64 | Type::U64 | Type::F64 | Type::Atomic(_) | Type::Ptr(_, _, _) => None,
        Type::Texture(_) | Type::Sampler(_) => None,
    }
}

// The rank of the structure `from` to the structure `to`, by their names alone.
fn struct_rank(from: &str, to: &str) -> Option<u32>
    ensures { result ≡ struct_rank from.now to.now }
{
    let from = from.as_bytes();
    let to = to.as_bytes();
    if !(from.starts_with(b"__") && from.ends_with(b"abstract")) {
        return None;
    }
    if to.ends_with(b"f32") {
        Some(1)
    } else if to.ends_with(b"f16") {
        Some(2)
    } else {
        None
    }
}

impl StructType {
    /// Whether the [`conversion_rank`] of this structure type to the other type exists (WGSL:
    /// conversion rank).
    /// It calls itself for each level of the types: keep to 4,095 within a stack of 8 MiB.
    pub fn is_convertible_to(&self, other: &Type) -> bool
        ensures { result ≡ is_some (rank (struct_view self.now) (type_view other.now)) }
    {
        match other.as_struct() {
            Some(other) => {
                *self == *other || struct_rank(self.name.as_str(), other.name.as_str()).is_some()
            }
            None => false,
        }
    }
}

impl Type {
    // The rank of `AbstractInt` to this type.
    fn rank_from_int(&self) -> Option<u32>
        ensures { result ≡ rank_from_int (type_view self.now) }
    {
        match self {
            Type::I32 => Some(3),
            Type::U32 => Some(4),
            Type::AbstractFloat => Some(5),
            Type::F32 => Some(6),
            Type::F16 => Some(7),
            _ => None,
        }
    }

    // The rank of `AbstractFloat` to this type.
    fn rank_from_float(&self) -> Option<u32>
        ensures { result ≡ rank_from_float (type_view self.now) }
    {
        match self {
            Type::F32 => Some(1),
            Type::F16 => Some(2),
            _ => None,
        }
    }

    /// Whether the [`conversion_rank`] of this type to the other exists (WGSL: conversion rank).
    /// It calls itself for each level of the types: keep to 4,095 within a stack of 8 MiB.
    pub fn is_convertible_to(&self, other: &Type) -> bool
        ensures { result ≡ is_some (rank (type_view self.now) (type_view other.now)) }
    {
        conversion_rank(self, other).is_some()
    }

    /// The concrete type that values of this type end in: `i32` for `AbstractInt`, `f32` for
    /// `AbstractFloat` and for each abstract scalar of a matrix, arrays and vectors by element, any
    /// other type itself (WGSL: concretization).
    /// It calls itself for each level of the type: keep to 4,095 within a stack of 8 MiB.
    #[cycle(concretize)]
    pub fn concretize(&self, alloc: Global) -> Result<Type, AllocError>
        ensures { IfOk result (λ t. type_view t ≡ concretized (type_view self.now)) }
    {
        match self {
            Type::AbstractInt => Ok(Type::I32),
            Type::AbstractFloat => Ok(Type::F32),
            Type::Array(t, n) => Ok(Type::Array(t.boxed_concretize(alloc)?, *n)),
            Type::Vec(n, t) => Ok(Type::Vec(*n, t.boxed_concretize(alloc)?)),
            Type::Mat(c, r, t) => {
                Ok(Type::Mat(*c, *r, Box::new(alloc, t.concrete_scalar(alloc)?)?))
            }
            Type::Bool | Type::I32 | Type::U32 | Type::F32 | Type::F16 => self.clone(alloc),
            Type::I64 | Type::U64 | Type::F64 | Type::Struct(_) => self.clone(alloc),
            Type::Atomic(_) | Type::Ptr(_, _, _) | Type::Ref(_, _, _) => self.clone(alloc),
            Type::Texture(_) | Type::Sampler(_) => self.clone(alloc),
        }
    }

    #[cycle(concretize)]
    fn boxed_concretize(&self, alloc: Global) -> Result<Box<Type>, AllocError>
        ensures { IfOk result (λ b. type_view b.value ≡ concretized (type_view self.now)) }
    {
        let concrete = self.concretize(alloc)?;
        Ok(Box::new(alloc, concrete)?)
    }

    // The concrete type of a matrix's scalar.
    fn concrete_scalar(&self, alloc: Global) -> Result<Type, AllocError>
        ensures { IfOk result (λ t. type_view t ≡ concrete_scalar (type_view self.now)) }
    {
        match self {
            Type::AbstractInt | Type::AbstractFloat => Ok(Type::F32),
            _ => self.clone(alloc),
        }
    }

    /// The type of what is read through a reference, and on while that is a reference; any other
    /// type itself (WGSL: load rule).
    /// It calls itself for each level of the type: keep to 4,095 within a stack of 8 MiB.
    pub fn loaded(self) -> Type
        ensures { type_view result ≡ loaded_type (type_view self) }
    {
        match self {
            Type::Ref(_, t, _) => Box::into_inner(t).loaded(),
            other => other,
        }
    }
}

/// The type that both convert to: `b` where `a` converts to it, else `a` where `b` converts to it,
/// else `None` (WGSL: conversion rank).
/// It calls itself for each level of the types: keep to 4,095 within a stack of 8 MiB.
pub fn convert_ty<'a>(a: &'a Type, b: &'a Type) -> Option<&'a Type>
    ensures { option_map (λ t. type_view t.now) result
        ≡ common_type (type_view a.now) (type_view b.now) }
{
    if a.is_convertible_to(b) {
        Some(b)
    } else if b.is_convertible_to(a) {
        Some(a)
    } else {
        None
    }
}

/// All the types taken together by [`convert_ty`], from the left. `None` where it is `None` on the
/// way, and for the empty list (WGSL: conversion rank).
/// It calls itself for each level of the types: keep to 4,095 within a stack of 8 MiB.
pub fn convert_all_ty(types: &[Type]) -> Option<&Type>
    ensures { option_map (λ t. type_view t.now) result ≡ common_type_of (map type_view types.now) }
{
    let (first, rest) = types.split_first()?;
    let mut common = first;
    for ty in rest {
        common = convert_ty(common, ty)?;
    }
    Some(common)
}

/// A law: [`convert_ty`] of two types gives the same type in either order, or none (WGSL: conversion
/// rank). The call does nothing.
pub fn common_type_is_symmetric()
    ensures { CommonTypeIsSymmetric }
{}
