//! Conversions of several values, of any type that [`Convert`]s (WGSL: overload resolution
//! algorithm).

ghost use Rattle.std.specs.Prelude.{◌≡◌, ◌↔◌, All, IfOk, IfSome, Option, Some, map, option_map};
ghost use Rattle.wgsl_rules.specs.InCommon.{
  all_in,
  all_in_common,
  in_common,
  inner_in_common,
  pair_view,
};
ghost use Rattle.wgsl_rules.specs.Types.{Ty};
ghost use Rattle.wgsl_rules.specs.Values.{Val, IsWellFormed, type_of};
ghost use Rattle.wgsl_rules.specs.View.{type_view};

use crate::conv::{convert_all_ty, convert_ty};
use crate::traits::{Convert, Ty};
use crate::ty::Type;
use std::alloc::{AllocError, Global};

/// Both values in their common type, as [`convert_ty`] finds it, where both convert to it (WGSL:
/// overload resolution algorithm).
/// It calls itself for each level of a value or type: keep to 4,095 within a stack of 8 MiB.
pub fn convert<T: Convert + Drop>(alloc: Global, a: &T, b: &T) -> Result<Option<(T, T)>, AllocError>
    requires first { IsWellFormed (T.value_of a.now) }
    requires second { IsWellFormed (T.value_of b.now) }
    ensures value { IfOk result (λ o. option_map (pair_view T.value_of T.value_of) o ≡ in_common T.converted (T.value_of a.now) (T.value_of b.now)) }
    ensures well_formed { IfOk result (λ o. IfSome o (λ p. IsWellFormed (T.value_of p.0) × IsWellFormed (T.value_of p.1))) }
    ensures one_type { IfOk result (λ o. IfSome o (λ p. type_of (T.value_of p.0) ≡ type_of (T.value_of p.1))) }
{
    let left = a.ty(alloc)?;
    let right = b.ty(alloc)?;
    let Some(ty) = convert_ty(&left, &right) else {
        return Ok(None);
    };
    let Some(x) = a.convert_to(alloc, ty)? else {
        return Ok(None);
    };
    let Some(y) = b.convert_to(alloc, ty)? else {
        return Ok(None);
    };
    Ok(Some((x, y)))
}

/// Both values with their inner types taken to the common one, as [`convert_ty`] finds it, where
/// both convert so (WGSL: overload resolution algorithm).
/// It calls itself for each level of a value or type: keep to 4,095 within a stack of 8 MiB.
pub fn convert_inner<A: Convert + Drop, B: Convert + Drop>(
    alloc: Global,
    a: &A,
    b: &B,
) -> Result<Option<(A, B)>, AllocError>
    requires first { IsWellFormed (A.value_of a.now) }
    requires second { IsWellFormed (B.value_of b.now) }
    ensures value { IfOk result (λ o. option_map (pair_view A.value_of B.value_of) o ≡ inner_in_common A.converted_inner B.converted_inner (A.value_of a.now) (B.value_of b.now)) }
    ensures well_formed { IfOk result (λ o. IfSome o (λ p. IsWellFormed (A.value_of p.0) × IsWellFormed (B.value_of p.1))) }
{
    let left = a.inner_ty(alloc)?;
    let right = b.inner_ty(alloc)?;
    let Some(ty) = convert_ty(&left, &right) else {
        return Ok(None);
    };
    let Some(x) = a.convert_inner_to(alloc, ty)? else {
        return Ok(None);
    };
    let Some(y) = b.convert_inner_to(alloc, ty)? else {
        return Ok(None);
    };
    Ok(Some((x, y)))
}

/// All the values in their common type, as [`convert_all_ty`] finds it, where each converts to it
/// (WGSL: overload resolution algorithm). `None` for the empty list.
/// It calls itself for each level of a value or type: keep to 4,095 within a stack of 8 MiB.
pub fn convert_all<T: Convert + Drop>(
    alloc: Global,
    values: &[T],
) -> Result<Option<Vec<T>>, AllocError>
    requires { All (λ x. IsWellFormed (T.value_of x)) values.now }
    ensures value { IfOk result (λ o. option_map (λ v. map T.value_of v.items) o ≡ all_in_common T.converted (map T.value_of values.now)) }
    ensures well_formed { IfOk result (λ o. IfSome o (λ v. All (λ x. IsWellFormed (T.value_of x)) v.items)) }
{
    let types = types_of(alloc, values)?;
    match convert_all_ty(&types) {
        Some(ty) => convert_all_to(alloc, values, ty),
        None => Ok(None),
    }
}

/// The types of the values.
fn types_of<T: Ty>(alloc: Global, values: &[T]) -> Result<Vec<Type>, AllocError>
    requires { All (λ x. IsWellFormed (T.value_of x)) values.now }
    ensures { IfOk result (λ v. map type_view v.items ≡ map type_of (map T.value_of values.now)) }
{
    let mut types = Vec::with_capacity(alloc, values.len())?;
    for value in values {
        types.push(value.ty(alloc)?)?;
    }
    Ok(types)
}

/// Each of the values in the type, where each converts to it (WGSL: feasible automatic
/// conversions).
/// It calls itself for each level of a value or type: keep to 4,095 within a stack of 8 MiB.
#[tactic(auto, using(crate::proofs::Lists::all_in_steps))]
pub fn convert_all_to<T: Convert + Drop>(
    alloc: Global,
    values: &[T],
    ty: &Type,
) -> Result<Option<Vec<T>>, AllocError>
    requires { All (λ x. IsWellFormed (T.value_of x)) values.now }
    ensures value { IfOk result (λ o. option_map (λ v. map T.value_of v.items) o ≡ all_in T.converted (map T.value_of values.now) (type_view ty.now)) }
    ensures well_formed { IfOk result (λ o. IfSome o (λ v. All (λ x. IsWellFormed (T.value_of x)) v.items)) }
{
    let mut all = Vec::with_capacity(alloc, values.len())?;
    for value in values {
        let Some(converted) = value.convert_to(alloc, ty)? else {
            return Ok(None);
        };
        all.push(converted)?;
    }
    Ok(Some(all))
}

/// Each of the values with its inner type taken to the type, where each converts so (WGSL: feasible
/// automatic conversions).
/// It calls itself for each level of a value or type: keep to 4,095 within a stack of 8 MiB.
#[tactic(auto, using(crate::proofs::Lists::all_in_steps))]
pub fn convert_all_inner_to<T: Convert + Drop>(
    alloc: Global,
    values: &[T],
    ty: &Type,
) -> Result<Option<Vec<T>>, AllocError>
    requires { All (λ x. IsWellFormed (T.value_of x)) values.now }
    ensures value { IfOk result (λ o. option_map (λ v. map T.value_of v.items) o ≡ all_in T.converted_inner (map T.value_of values.now) (type_view ty.now)) }
    ensures well_formed { IfOk result (λ o. IfSome o (λ v. All (λ x. IsWellFormed (T.value_of x)) v.items)) }
{
    let mut all = Vec::with_capacity(alloc, values.len())?;
    for value in values {
        let Some(converted) = value.convert_inner_to(alloc, ty)? else {
            return Ok(None);
        };
        all.push(converted)?;
    }
    Ok(Some(all))
}

/// A law: [`convert`] of two values gives two, or nothing, in either order (WGSL: overload
/// resolution algorithm). The call does nothing.
pub fn convert_is_symmetric<T: Convert>()
    ensures { (a b x y : Val) → (in_common T.converted a b ≡ Some (x, y)) ↔ (in_common T.converted b a ≡ Some (y, x)) }
{}

/// A law: to convert again to the same type changes nothing (WGSL: feasible automatic conversions).
/// The call does nothing.
pub fn converting_again_changes_nothing<T: Convert>()
    ensures { (x y : T) (t : Ty) → IsWellFormed (T.value_of x) → T.converted (T.value_of x) t ≡ Some (T.value_of y)
        → T.converted (T.value_of y) t ≡ Some (T.value_of y) }
{}
