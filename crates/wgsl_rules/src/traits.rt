//! What has a type, and what converts to other types.

ghost use Rattle.std.specs.Prelude.{◌≡◌, ◌↔◌, IfOk, IsTrue, Option, Some, option_map};
ghost use Rattle.wgsl_rules.specs.Conversion.{concretized};
ghost use Rattle.wgsl_rules.specs.TypeParts.{inner_type};
ghost use Rattle.wgsl_rules.specs.Types.{Ty};
ghost use Rattle.wgsl_rules.specs.Values.{Val, IsWellFormed, type_of};
ghost use Rattle.wgsl_rules.specs.View.{type_view};

use crate::ty::Type;
use std::alloc::{AllocError, Global};

/// What has a type: values, and types themselves (WGSL: types).
///
/// [`Ty::has_ty`] holds of exactly the type that [`Ty::ty`] would answer.
pub trait Ty {
    /// The value that it stands for.
    ghost value_of: { Self → Val };

    /// The type (WGSL: types). The condition: the value is well-formed.
    /// It calls itself for each level of a value or type: keep to 4,095 within a stack of 8 MiB.
    fn ty(&self, alloc: Global) -> Result<Type, AllocError>
        requires { IsWellFormed (value_of self.now) }
        ensures { IfOk result (λ t. type_view t ≡ type_of (value_of self.now)) };

    /// The type inside an array, vector, matrix (its scalar), atomic, pointer or reference; of any
    /// other value its type (WGSL: types). The condition: the value is well-formed.
    /// It calls itself for each level of a value or type: keep to 4,095 within a stack of 8 MiB.
    fn inner_ty(&self, alloc: Global) -> Result<Type, AllocError>
        requires { IsWellFormed (value_of self.now) }
        ensures { IfOk result (λ t. type_view t ≡ inner_type (type_of (value_of self.now))) };

    /// Whether this is the type (WGSL: types), without the memory that making it takes. The
    /// condition: the value is well-formed.
    /// It calls itself for each level of a value or type: keep to 4,095 within a stack of 8 MiB.
    fn has_ty(&self, ty: &Type) -> bool
        requires { IsWellFormed (value_of self.now) }
        ensures { IsTrue result ↔ (type_of (value_of self.now) ≡ type_view ty.now) };
}

/// What converts to other types: values, and types themselves (WGSL: conversion rank).
///
/// A conversion depends on the value and on the type alone. What it gives is well-formed and of the
/// type that was asked, and in its own type a value is itself, so that to convert again changes
/// nothing.
pub trait Convert: Sized + Ty {
    /// What a value is in a type, where it converts to it.
    ghost converted: { Val → Ty → Option Val };

    /// What a value is with its inner type taken to a type, where it converts so.
    ghost converted_inner: { Val → Ty → Option Val };

    /// The value in the type, `None` where it does not convert to it (WGSL: feasible automatic
    /// conversions). The condition: the value is well-formed.
    /// It calls itself for each level of a value or type: keep to 4,095 within a stack of 8 MiB.
    fn convert_to(&self, alloc: Global, ty: &Type) -> Result<Option<Self>, AllocError>
        requires { IsWellFormed (Self.value_of self.now) }
        ensures { IfOk result (λ o. option_map Self.value_of o ≡ converted (Self.value_of self.now) (type_view ty.now)) };

    /// The value with what is inside it in the type, `None` where that does not convert to it (WGSL:
    /// feasible automatic conversions). The condition: the value is well-formed.
    /// It calls itself for each level of a value or type: keep to 4,095 within a stack of 8 MiB.
    fn convert_inner_to(&self, alloc: Global, ty: &Type) -> Result<Option<Self>, AllocError>
        requires { IsWellFormed (Self.value_of self.now) }
        ensures { IfOk result (λ o. option_map Self.value_of o ≡ converted_inner (Self.value_of self.now) (type_view ty.now)) };

    /// The value in the concrete type of its own, as [`Type::concretize`] gives it; `None` where it
    /// does not convert to that (WGSL: concretization). The condition: the value is well-formed.
    /// It calls itself for each level of a value or type: keep to 4,095 within a stack of 8 MiB.
    fn concretize(&self, alloc: Global) -> Result<Option<Self>, AllocError>
        requires { IsWellFormed (Self.value_of self.now) }
        ensures { IfOk result (λ o. option_map Self.value_of o ≡ converted (Self.value_of self.now) (concretized (type_of (Self.value_of self.now)))) }
    {
        let ty = self.ty(alloc)?.concretize(alloc)?;
        self.convert_to(alloc, &ty)
    }

    /// What a conversion gives is of the type that was asked.
    ghost gives_type: { (x : Self) (w : Val) (t : Ty) → IsWellFormed (Self.value_of x) → converted (Self.value_of x) t ≡ Some w → type_of w ≡ t };

    /// What a conversion gives is well-formed.
    ghost gives_well_formed: { (x : Self) (w : Val) (t : Ty) → IsWellFormed (Self.value_of x) → converted (Self.value_of x) t ≡ Some w → IsWellFormed w };

    /// What a conversion of what is inside gives is well-formed.
    ghost inner_gives_well_formed: { (x : Self) (w : Val) (t : Ty) → IsWellFormed (Self.value_of x) → converted_inner (Self.value_of x) t ≡ Some w → IsWellFormed w };

    /// A value in its own type is the value itself.
    ghost keeps_own: { (x : Self) → IsWellFormed (Self.value_of x) → converted (Self.value_of x) (type_of (Self.value_of x)) ≡ Some (Self.value_of x) };
}

/// A type has itself as its type.
impl Ty for Type {
    ghost use Rattle.wgsl_rules.specs.TypeParts.{type_value};

    ghost value_of = { type_value };

    fn ty(&self, alloc: Global) -> Result<Type, AllocError> {
        self.clone(alloc)
    }

    fn inner_ty(&self, alloc: Global) -> Result<Type, AllocError> {
        self.inner().clone(alloc)
    }

    #[tactic(auto, using(crate::specs::Equal::same_is))]
    fn has_ty(&self, ty: &Type) -> bool {
        *self == *ty
    }
}

/// A type becomes each type to which it has a rank.
impl Convert for Type {
    ghost use Rattle.wgsl_rules.specs.Converted.{type_converted, type_inner_converted};
    ghost use Rattle.wgsl_rules.specs.ConvertedLaws.{
      type_gives_type,
      type_gives_well_formed,
      type_keeps_own,
    };
    ghost use Rattle.wgsl_rules.specs.TypeParts.{with_inner};
    ghost use Rattle.wgsl_rules.specs.View.{type_view};

    ghost converted = { type_converted };

    ghost converted_inner = { type_inner_converted };

    ghost gives_type = { λ x w t well h. type_gives_type (type_view x) w t h };

    ghost gives_well_formed = { λ x w t well h. type_gives_well_formed (type_view x) w t h };

    ghost inner_gives_well_formed = { λ x w t well h. type_gives_well_formed (type_view x) w (with_inner (type_view x) t) h };

    ghost keeps_own = { λ x well. type_keeps_own (type_view x) };

    fn convert_to(&self, alloc: Global, ty: &Type) -> Result<Option<Type>, AllocError> {
        if self.is_convertible_to(ty) {
            Ok(Some(ty.clone(alloc)?))
        } else {
            Ok(None)
        }
    }

    fn convert_inner_to(&self, alloc: Global, ty: &Type) -> Result<Option<Type>, AllocError> {
        let ty = self.with_inner(alloc, ty)?;
        if self.is_convertible_to(&ty) {
            Ok(Some(ty))
        } else {
            Ok(None)
        }
    }

    fn concretize(&self, alloc: Global) -> Result<Option<Type>, AllocError> {
        Ok(Some(Type::concretize(self, alloc)?))
    }
}
