//! Values with the bytes of others (WGSL: bit reinterpretation builtin functions).

ghost use Rattle.std.specs.Prelude.{◌≡◌, IfOk, IsTrue};
ghost use Rattle.wgsl_rules.specs.Layout.{HasLayout};
ghost use Rattle.wgsl_value_ops.specs.Lift.{lifted, vector_of};
ghost use Rattle.wgsl_rules.specs.Paths.{parts};
ghost use Rattle.wgsl_rules.specs.Values.{AreLiterals, IsStorable, IsWellFormed, type_of};
ghost use Rattle.wgsl_rules.specs.View.{type_view};
ghost use Rattle.wgsl_scalar.specs.Answers.{Gives};
ghost use Rattle.wgsl_scalar.specs.Literals.{literal_of};
ghost use Rattle.wgsl_value_builtins.specs.Bitcast.{
  IsBitcastTarget,
  bitcast,
  is_bitcast_target,
  is_word_type,
  taken_as,
  with_bytes_of,
};
ghost use Rattle.wgsl_value_builtins.specs.Lifts.{on_components};
ghost use Rattle.wgsl_values.specs.View.{vals_view, value_of, vec_view};

use std::alloc::Global;
use wgsl_layout::Buffers;
use wgsl_rules::Type;
use wgsl_scalar::{BuiltinReason, Error, LiteralInstance};
use wgsl_values::{Instance, VecInstance};

fn is_word_type(ty: &Type) -> bool
    ensures { result ≡ is_word_type (type_view ty.now) }
{
    *ty == Type::I32 || *ty == Type::U32
}

/// Whether [`bitcast_t`] takes the type as its template: an `i32`, a `u32`, or a vector of 2 to 4 of these
/// (WGSL: bit reinterpretation builtin functions, `bitcast`).
pub fn is_bitcast_target(ty: &Type) -> bool
    ensures { result ≡ is_bitcast_target (type_view ty.now) }
{
    match ty.as_vec() {
        Some((n, scalar)) => 2 <= n && n <= 4 && is_word_type(scalar),
        None => is_word_type(ty),
    }
}

// A number, an abstract one as one of the type; a bool is refused by `Builtin`.
pub(crate) fn taken_as(
    alloc: Global,
    literal: &LiteralInstance,
    ty: &Type,
) -> Result<LiteralInstance, Error>
    ensures { Gives literal_of result (taken_as (type_view ty.now) (literal_of literal.now)) }
{
    match *literal {
        LiteralInstance::Bool(_) => Err(Error::Builtin(BuiltinReason::NotNumber)),
        LiteralInstance::AbstractInt(_) => match literal.to_kind(ty) {
            Some(taken) => Ok(taken),
            None => Err(Error::ConvOverflow(*literal, ty.clone(alloc)?)),
        },
        LiteralInstance::I32(_) | LiteralInstance::U32(_) => Ok(*literal),
        LiteralInstance::I64(_) | LiteralInstance::U64(_) => Ok(*literal),
    }
}

// The value of the type with the bytes of the value; without as many bytes it is refused by `Builtin`.
#[tactic(auto, using(crate::proofs::Bytes::buffer_known, crate::proofs::Bytes::cast_read, crate::proofs::Bytes::cast_unequal))]
pub(crate) fn with_bytes_of(alloc: Global, value: &Instance, ty: &Type) -> Result<Instance, Error>
    requires value { IsStorable (value_of value.now) }
    requires laid { HasLayout (type_of (value_of value.now)) }
    ensures { Gives value_of result (with_bytes_of (value_of value.now) (type_view ty.now)) }
{
    let bytes = match value.to_buffer(alloc)? {
        Some(bytes) => bytes,
        None => unreachable!(),
    };
    if bytes.len() != ty.size_of().unwrap_or(0) as usize {
        return Err(Error::Builtin(BuiltinReason::UnequalSizes));
    }
    match Instance::from_buffer(alloc, &bytes, ty)? {
        Some(cast) => Ok(cast),
        None => Err(Error::Builtin(BuiltinReason::UnequalSizes)),
    }
}

// Each of the literals as a number of the type, or the first refusal.
fn each_taken_as(alloc: Global, literals: &[Instance], ty: &Type) -> Result<Vec<Instance>, Error>
    requires { AreLiterals (vals_view literals.now) }
    ensures { Gives (λ v. vals_view v.items) result (lifted (taken_as (type_view ty.now)) (vals_view literals.now)) }
{
    let mut taken = Vec::with_capacity(alloc, literals.len())?;
    for literal in literals {
        let number = taken_as(alloc, literal.unwrap_literal_ref(), ty)?;
        taken.push(Instance::Literal(number)).unwrap();
    }
    Ok(taken)
}

// The vector of the components, each as a number of the type.
fn vector_taken_as(alloc: Global, v: &VecInstance, ty: &Type) -> Result<VecInstance, Error>
    requires storable { IsStorable (vec_view v.now) }
    requires word { IsTrue (is_word_type (type_view ty.now)) }
    ensures { Gives vec_view result (vector_of (lifted (taken_as (type_view ty.now)) (parts (vec_view v.now)))) }
{
    Ok(VecInstance::new(each_taken_as(alloc, v.as_slice(), ty)?))
}

// The number, or the vector of numbers, each abstract one as one of the type; other values are refused by `Builtin`.
fn value_taken_as(alloc: Global, e: &Instance, ty: &Type) -> Result<Instance, Error>
    requires well_formed { IsWellFormed (value_of e.now) }
    requires word { IsTrue (is_word_type (type_view ty.now)) }
    ensures { Gives value_of result (on_components (taken_as (type_view ty.now)) (value_of e.now)) }
{
    match e {
        Instance::Literal(literal) => Ok(Instance::Literal(taken_as(alloc, literal, ty)?)),
        Instance::Vec(v) => Ok(Instance::Vec(vector_taken_as(alloc, v, ty)?)),
        Instance::Struct(_) | Instance::Array(_) | Instance::Mat(_) => {
            Err(Error::Builtin(BuiltinReason::NotNumber))
        }
        Instance::Ptr(_) | Instance::Ref(_) => Err(Error::Builtin(BuiltinReason::NotNumber)),
        Instance::Atomic(_) | Instance::Deferred(_) => {
            Err(Error::Builtin(BuiltinReason::NotNumber))
        }
    }
}

/// The value of the template with the bytes of the number, or of the vector of numbers, the lowest byte first. An
/// abstract number is taken as one of the scalar of the template; the first that is out of its range is refused by
/// `ConvOverflow`. Other values, and unequal lengths, are refused by `Builtin` (WGSL: bit reinterpretation builtin
/// functions, `bitcast`). The conditions: [`is_bitcast_target`] of the template, and the value is well-formed.
pub fn bitcast_t(alloc: Global, tplt: &Type, e: &Instance) -> Result<Instance, Error>
    requires target { IsBitcastTarget (type_view tplt.now) }
    requires well_formed { IsWellFormed (value_of e.now) }
    ensures value { Gives value_of result (bitcast (type_view tplt.now) (value_of e.now)) }
    ensures storable { IfOk result (λ v. IsStorable (value_of v)) }
{
    let taken = value_taken_as(alloc, e, tplt.inner())?;
    with_bytes_of(alloc, &taken, tplt)
}
