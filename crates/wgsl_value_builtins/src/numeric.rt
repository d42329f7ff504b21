//! The numeric builtin functions, without those on bit fields (WGSL: numeric builtin functions).

ghost use Rattle.std.specs.Prelude.{[], ◌∷◌, ◌≡◌, IfOk, map};
ghost use Rattle.wgsl_rules.specs.Values.{IsStorable, IsWellFormed, type_of};
ghost use Rattle.wgsl_rules.specs.View.{type_view};
ghost use Rattle.wgsl_scalar.specs.Answers.{Gives};
ghost use Rattle.wgsl_value_builtins.specs.Numeric.{
  between,
  clamped,
  clamped_in,
  dot_of,
  dotted,
  greater_of,
  leading_zero_counts,
  lesser_of,
  magnitudes,
  one_bit_counts,
  signs,
  trailing_zero_counts,
  transposition,
  value_in,
};
ghost use Rattle.wgsl_values.specs.View.{value_of, vec_view};

use crate::cases::are_of_one_type;
use crate::held::beside;
use crate::lifts::{BinaryFunction, UnaryFunction, in_common_type, on_components};
use std::alloc::{AllocError, Global};
use wgsl_rules::{Convert, ShaderStage, Ty, Type, convert, convert_all_ty};
use wgsl_scalar::{BuiltinReason, Error};
use wgsl_value_ops::VecOperators;
use wgsl_values::{Instance, VecInstance};

/// The magnitude of a number, or of each component of a vector, in its own type. It wraps: the least
/// number of a signed type is its own magnitude. Refused by `Builtin` for bools, vectors of bools and
/// values of any other case (WGSL: numeric builtin functions, `abs`). The condition: the value is
/// well-formed.
pub fn abs(alloc: Global, e: &Instance) -> Result<Instance, Error>
    requires { IsWellFormed (value_of e.now) }
    ensures value { Gives value_of result (magnitudes (value_of e.now)) }
    ensures storable { IfOk result (λ v. IsStorable (value_of v)) }
{
    on_components(alloc, UnaryFunction::Abs, e)
}

/// -1, 0 or 1 as a number is negative, 0 or positive, or of each component of a vector, in its own type.
/// Refused by `Builtin` as [`abs`] is (WGSL: numeric builtin functions, `sign`; here also of unsigned
/// numbers). The condition: the value is well-formed.
pub fn sign(alloc: Global, e: &Instance) -> Result<Instance, Error>
    requires { IsWellFormed (value_of e.now) }
    ensures value { Gives value_of result (signs (value_of e.now)) }
    ensures storable { IfOk result (λ v. IsStorable (value_of v)) }
{
    on_components(alloc, UnaryFunction::Sign, e)
}

/// How many bits of a number are 0 above its highest 1, or of each component of a vector, in its own
/// type: of 32 bits, or of 64 in `AbstractInt`, `i64` and `u64`. Refused by `Builtin` as [`abs`] is
/// (WGSL: numeric builtin functions, `countLeadingZeros`). The condition: the value is well-formed.
pub fn countLeadingZeros(alloc: Global, e: &Instance) -> Result<Instance, Error>
    requires { IsWellFormed (value_of e.now) }
    ensures value { Gives value_of result (leading_zero_counts (value_of e.now)) }
    ensures storable { IfOk result (λ v. IsStorable (value_of v)) }
{
    on_components(alloc, UnaryFunction::CountLeadingZeros, e)
}

/// How many bits of a number are 1, or of each component of a vector, in its own type; of as many bits
/// as [`countLeadingZeros`] looks at. Refused by `Builtin` as [`abs`] is (WGSL: numeric builtin
/// functions, `countOneBits`). The condition: the value is well-formed.
pub fn countOneBits(alloc: Global, e: &Instance) -> Result<Instance, Error>
    requires { IsWellFormed (value_of e.now) }
    ensures value { Gives value_of result (one_bit_counts (value_of e.now)) }
    ensures storable { IfOk result (λ v. IsStorable (value_of v)) }
{
    on_components(alloc, UnaryFunction::CountOneBits, e)
}

/// How many bits of a number are 0 below its lowest 1, or of each component of a vector, in its own
/// type; of as many bits as [`countLeadingZeros`] looks at. Refused by `Builtin` as [`abs`] is (WGSL:
/// numeric builtin functions, `countTrailingZeros`). The condition: the value is well-formed.
pub fn countTrailingZeros(alloc: Global, e: &Instance) -> Result<Instance, Error>
    requires { IsWellFormed (value_of e.now) }
    ensures value { Gives value_of result (trailing_zero_counts (value_of e.now)) }
    ensures storable { IfOk result (λ v. IsStorable (value_of v)) }
{
    on_components(alloc, UnaryFunction::CountTrailingZeros, e)
}

/// The lesser of two numbers, or of each two components of two vectors, in the common type of the
/// arguments. Refused by `Builtin` where they have none or do not convert to it, and for bools, vectors of
/// bools and values of any other case (WGSL: numeric builtin functions, `min`). The condition: both
/// values are well-formed.
/// It calls itself for each level of a value or type: keep to 4,095 within a stack of 8 MiB.
pub fn min(alloc: Global, a: &Instance, b: &Instance) -> Result<Instance, Error>
    requires first { IsWellFormed (value_of a.now) }
    requires second { IsWellFormed (value_of b.now) }
    ensures value { Gives value_of result (lesser_of (value_of a.now) (value_of b.now)) }
    ensures storable { IfOk result (λ v. IsStorable (value_of v)) }
{
    in_common_type(alloc, BinaryFunction::Min, a, b)
}

/// The greater of two numbers, or of each two components of two vectors, in the common type of the
/// arguments. Refused by `Builtin` as [`min`] is (WGSL: numeric builtin functions, `max`). The condition:
/// both values are well-formed.
/// It calls itself for each level of a value or type: keep to 4,095 within a stack of 8 MiB.
pub fn max(alloc: Global, a: &Instance, b: &Instance) -> Result<Instance, Error>
    requires first { IsWellFormed (value_of a.now) }
    requires second { IsWellFormed (value_of b.now) }
    ensures value { Gives value_of result (greater_of (value_of a.now) (value_of b.now)) }
    ensures storable { IfOk result (λ v. IsStorable (value_of v)) }
{
    in_common_type(alloc, BinaryFunction::Max, a, b)
}

// The value in the type, else `Builtin`.
fn in_type(alloc: Global, value: &Instance, ty: &Type) -> Result<Instance, Error>
    requires { IsWellFormed (value_of value.now) }
    ensures value { Gives value_of result (value_in (type_view ty.now) (value_of value.now)) }
    ensures well_formed { IfOk result (λ v. IsWellFormed (value_of v)) }
{
    match value.convert_to(alloc, ty)? {
        Some(converted) => Ok(converted),
        None => Err(Error::Builtin(BuiltinReason::NoCommonType)),
    }
}

// The lesser of `high` and the greater of `e` and `low`.
fn between(alloc: Global, e: &Instance, low: &Instance, high: &Instance) -> Result<Instance, Error>
    requires value { IsWellFormed (value_of e.now) }
    requires low { IsWellFormed (value_of low.now) }
    requires high { IsWellFormed (value_of high.now) }
    ensures value { Gives value_of result (between (value_of e.now) (value_of low.now) (value_of high.now)) }
    ensures storable { IfOk result (λ v. IsStorable (value_of v)) }
{
    let raised = max(alloc, e, low)?;
    let answer = min(alloc, &raised, high);
    drop(raised);
    answer
}

// Of the three in the type.
fn clamp_in(
    alloc: Global,
    ty: &Type,
    e: &Instance,
    low: &Instance,
    high: &Instance,
) -> Result<Instance, Error>
    requires value { IsWellFormed (value_of e.now) }
    requires low { IsWellFormed (value_of low.now) }
    requires high { IsWellFormed (value_of high.now) }
    ensures value { Gives value_of result (clamped_in (type_view ty.now) (value_of e.now) (value_of low.now) (value_of high.now)) }
    ensures storable { IfOk result (λ v. IsStorable (value_of v)) }
{
    let value = in_type(alloc, e, ty)?;
    let (low, value) = beside(in_type(alloc, low, ty), value)?;
    let (high, (low, value)) = beside(in_type(alloc, high, ty), (low, value))?;
    let answer = between(alloc, &value, &low, &high);
    drop((value, low, high));
    answer
}

// The types of the three.
fn types_of(
    alloc: Global,
    e: &Instance,
    low: &Instance,
    high: &Instance,
) -> Result<[Type; 3], AllocError>
    requires value { IsWellFormed (value_of e.now) }
    requires low { IsWellFormed (value_of low.now) }
    requires high { IsWellFormed (value_of high.now) }
    ensures { IfOk result (λ types. map type_view types ≡ type_of (value_of e.now) ∷ type_of (value_of low.now) ∷ type_of (value_of high.now) ∷ []) }
{
    let first = e.ty(alloc)?;
    let (second, first) = beside(low.ty(alloc), first)?;
    let (third, (second, first)) = beside(high.ty(alloc), (second, first))?;
    Ok([first, second, third])
}

/// The lesser of `high` and the greater of `e` and `low`, or of each three components of three vectors, in
/// the common type of all three; so `high` where `low` is above it. Refused by `Builtin` where they have
/// no common type or do not convert to it, and as [`min`] is (WGSL: numeric builtin functions, `clamp`).
/// The condition: the values are well-formed.
/// It calls itself for each level of a value or type: keep to 4,095 within a stack of 8 MiB.
pub fn clamp(
    alloc: Global,
    e: &Instance,
    low: &Instance,
    high: &Instance,
) -> Result<Instance, Error>
    requires value { IsWellFormed (value_of e.now) }
    requires low { IsWellFormed (value_of low.now) }
    requires high { IsWellFormed (value_of high.now) }
    ensures value { Gives value_of result (clamped (value_of e.now) (value_of low.now) (value_of high.now)) }
    ensures storable { IfOk result (λ v. IsStorable (value_of v)) }
{
    if are_of_one_type(e, low) && are_of_one_type(low, high) {
        return between(alloc, e, low, high);
    }
    let types = types_of(alloc, e, low, high)?;
    let answer = match convert_all_ty(&types) {
        Some(ty) => clamp_in(alloc, ty, e, low, high),
        None => Err(Error::Builtin(BuiltinReason::NoCommonType)),
    };
    drop(types);
    answer
}

// Of a vector and a value of its type.
fn dot_with(
    alloc: Global,
    left: &VecInstance,
    right: &Instance,
    stage: ShaderStage,
) -> Result<Instance, Error>
    requires left { IsWellFormed (vec_view left.now) }
    requires right { IsWellFormed (value_of right.now) }
    ensures value { Gives value_of result (dot_of stage (vec_view left.now) (value_of right.now)) }
    ensures storable { IfOk result (λ v. IsStorable (value_of v)) }
{
    match right {
        Instance::Vec(right) => Ok(Instance::from(left.dot(alloc, right, stage)?)),
        Instance::Literal(_) | Instance::Struct(_) | Instance::Array(_) | Instance::Mat(_) => {
            Err(Error::Builtin(BuiltinReason::NotVector))
        }
        Instance::Ptr(_) | Instance::Ref(_) | Instance::Atomic(_) | Instance::Deferred(_) => {
            Err(Error::Builtin(BuiltinReason::NotVector))
        }
    }
}

// Of two values of one type.
fn dot_of(
    alloc: Global,
    left: &Instance,
    right: &Instance,
    stage: ShaderStage,
) -> Result<Instance, Error>
    requires left { IsWellFormed (value_of left.now) }
    requires right { IsWellFormed (value_of right.now) }
    ensures value { Gives value_of result (dot_of stage (value_of left.now) (value_of right.now)) }
    ensures storable { IfOk result (λ v. IsStorable (value_of v)) }
{
    match left {
        Instance::Vec(left) => dot_with(alloc, left, right, stage),
        Instance::Literal(_) | Instance::Struct(_) | Instance::Array(_) | Instance::Mat(_) => {
            Err(Error::Builtin(BuiltinReason::NotVector))
        }
        Instance::Ptr(_) | Instance::Ref(_) | Instance::Atomic(_) | Instance::Deferred(_) => {
            Err(Error::Builtin(BuiltinReason::NotVector))
        }
    }
}

/// The sum of the products of each two components of two vectors in their common type: all products
/// first, then their sum from the left. Refused by `Builtin` where the arguments have no common type or do
/// not convert to it, and where they are no vectors; as `op_mul` and then as `op_add` in the stage are
/// where a product or a sum is, so by `Binary` for vectors of bools (WGSL: numeric builtin functions,
/// `dot`). The condition: both values are well-formed.
/// It calls itself for each level of a value or type: keep to 4,095 within a stack of 8 MiB.
pub fn dot(alloc: Global, a: &Instance, b: &Instance, stage: ShaderStage) -> Result<Instance, Error>
    requires first { IsWellFormed (value_of a.now) }
    requires second { IsWellFormed (value_of b.now) }
    ensures value { Gives value_of result (dotted stage (value_of a.now) (value_of b.now)) }
    ensures storable { IfOk result (λ v. IsStorable (value_of v)) }
{
    if are_of_one_type(a, b) {
        return dot_of(alloc, a, b, stage);
    }
    match convert(alloc, a, b)? {
        Some((a, b)) => {
            let answer = dot_of(alloc, &a, &b, stage);
            drop((a, b));
            answer
        }
        None => Err(Error::Builtin(BuiltinReason::NoCommonType)),
    }
}

/// The matrix with the rows of a matrix for columns: component j of column i of the answer is component
/// i of column j of the argument. Another value is refused by `Builtin` (WGSL: numeric builtin functions,
/// `transpose`). The condition: the value is well-formed.
pub fn transpose(alloc: Global, e: &Instance) -> Result<Instance, Error>
    requires { IsWellFormed (value_of e.now) }
    ensures value { Gives value_of result (transposition (value_of e.now)) }
    ensures storable { IfOk result (λ v. IsStorable (value_of v)) }
{
    match e {
        Instance::Mat(matrix) => Ok(Instance::Mat(matrix.transpose(alloc)?)),
        Instance::Literal(_) | Instance::Struct(_) | Instance::Array(_) | Instance::Vec(_) => {
            Err(Error::Builtin(BuiltinReason::NotMatrix))
        }
        Instance::Ptr(_) | Instance::Ref(_) | Instance::Atomic(_) | Instance::Deferred(_) => {
            Err(Error::Builtin(BuiltinReason::NotMatrix))
        }
    }
}
