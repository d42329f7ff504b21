//! Conversions that the language makes itself (WGSL: conversion rank).

ghost use Rattle.std.specs.Prelude.{
  ◌≡◌,
  ◌↔◌,
  All,
  IfOk,
  IfSome,
  IsTrue,
  MatchOption,
  None,
  false,
  is_some,
  length,
  map,
  option_map,
};
ghost use Rattle.wgsl_apply.specs.Literals.{natural_of};
ghost use Rattle.wgsl_rules.specs.Conversion.{concretized, rank};
ghost use Rattle.wgsl_rules.specs.Converted.{converted};
ghost use Rattle.wgsl_rules.specs.InCommon.{all_in_common};
ghost use Rattle.wgsl_rules.specs.Values.{IsLiteral, IsStorable, IsWellFormed, type_of};
ghost use Rattle.wgsl_rules.specs.View.{type_view};
ghost use Rattle.wgsl_scalar.specs.Literals.{literal_of as value_of_literal};
ghost use Rattle.wgsl_values.specs.View.{value_of};

use std::alloc::{AllocError, Global};
use wgsl_rules::{Convert, Ty, Type, convert_all};
use wgsl_scalar::LiteralInstance;
use wgsl_values::Instance;

/// The value in a type to which it converts by itself; `None` where it does not, and of what may not
/// be stored. It calls itself for each level of a value or type: keep to 4,095 within a stack of 8 MiB.
pub fn automatic(alloc: Global, value: &Instance, ty: &Type) -> Result<Option<Instance>, AllocError>
    ensures value { IfOk result (λ o. IsStorable (value_of value.now) → option_map value_of o ≡ converted (value_of value.now) (type_view ty.now)) }
    ensures none { IfOk result (λ o. ¬ IsStorable (value_of value.now) → option_map value_of o ≡ None) }
    ensures some { IfOk result (λ o. IfSome o (λ v. IsStorable (value_of v) × (type_of (value_of v) ≡ type_view ty.now))) }
{
    if value.is_storable() {
        value.convert_to(alloc, ty)
    } else {
        Ok(None)
    }
}

/// The value in the concrete type of its own; `None` where a number is out of its range, and of what
/// may not be stored. It calls itself for each level of the value: keep to 4,095 within a stack of 8
/// MiB.
pub fn concrete(alloc: Global, value: &Instance) -> Result<Option<Instance>, AllocError>
    ensures value { IfOk result (λ o. IsStorable (value_of value.now) → option_map value_of o ≡ converted (value_of value.now) (concretized (type_of (value_of value.now)))) }
    ensures none { IfOk result (λ o. ¬ IsStorable (value_of value.now) → option_map value_of o ≡ None) }
    ensures some { IfOk result (λ o. IfSome o (λ v. IsStorable (value_of v) × (type_of (value_of v) ≡ concretized (type_of (value_of value.now))))) }
{
    if value.is_storable() {
        value.concretize(alloc)
    } else {
        Ok(None)
    }
}

/// The values in their common type, in order; `None` where there is none, of the empty list, and where
/// one may not be stored. It calls itself for each level of the values: keep to 4,095 within a stack of
/// 8 MiB.
pub fn in_common(alloc: Global, values: &[Instance]) -> Result<Option<Vec<Instance>>, AllocError>
    ensures value { IfOk result (λ o. All (λ v. IsStorable (value_of v)) values.now → option_map (λ vs. map value_of vs.items) o ≡ all_in_common converted (map value_of values.now)) }
    ensures none { IfOk result (λ o. ¬ All (λ v. IsStorable (value_of v)) values.now → option_map (λ vs. map value_of vs.items) o ≡ None) }
    ensures some { IfOk result (λ o. IfSome o (λ vs. All (λ v. IsStorable (value_of v)) vs.items)) }
    ensures count { IfOk result (λ o. IfSome o (λ vs. length vs.items ≡ length values.now)) }
{
    if are_storable(values) {
        convert_all(alloc, values)
    } else {
        Ok(None)
    }
}

fn are_storable(values: &[Instance]) -> bool
    ensures { IsTrue result ↔ All (λ v. IsStorable (value_of v)) values.now }
{
    for value in values {
        if !value.is_storable() {
            return false;
        }
    }
    true
}

/// Whether values of the type of this one convert to the other by themselves, so that only its
/// numbers may not. `false` of what is not well-formed. It calls itself for each level of a value or
/// type: keep to 4,095 within a stack of 8 MiB.
pub fn has_rank(alloc: Global, value: &Instance, ty: &Type) -> Result<bool, AllocError>
    ensures rank { IfOk result (λ b. IsWellFormed (value_of value.now) → b ≡ is_some (rank (type_of (value_of value.now)) (type_view ty.now))) }
    ensures none { IfOk result (λ b. ¬ IsWellFormed (value_of value.now) → b ≡ false) }
{
    if !value.is_well_formed() {
        return Ok(false);
    }
    Ok(value.ty(alloc)?.is_convertible_to(ty))
}

/// The value, where it is a literal; `None` of any other.
pub fn literal_of(value: &Instance) -> Option<LiteralInstance>
    ensures { MatchOption result (¬ IsLiteral (value_of value.now)) (λ l. value_of_literal l ≡ value_of value.now) }
{
    match value {
        Instance::Literal(literal) => Some(*literal),
        Instance::Struct(_) | Instance::Array(_) | Instance::Vec(_) | Instance::Mat(_) => None,
        Instance::Ptr(_) | Instance::Ref(_) | Instance::Atomic(_) | Instance::Deferred(_) => None,
    }
}

/// The number, where it is one from 0 to 2^32 - 1; `None` of any other, and of a bool.
pub fn natural(literal: LiteralInstance) -> Option<u32>
    ensures { result ≡ natural_of (value_of_literal literal) }
{
    match literal {
        LiteralInstance::AbstractInt(n) => u32::try_from(n).ok(),
        LiteralInstance::I32(n) => u32::try_from(n).ok(),
        LiteralInstance::U32(n) => Some(n),
        LiteralInstance::I64(n) => u32::try_from(n).ok(),
        LiteralInstance::U64(n) => u32::try_from(n).ok(),
        LiteralInstance::Bool(_) => None,
    }
}
