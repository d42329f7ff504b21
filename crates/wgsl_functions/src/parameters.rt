//! What the parameters of functions take abstract integers as (WGSL: feasible automatic conversions).

ghost use Rattle.std.specs.Prelude.{
  [],
  ◌∷◌,
  ◌≡◌,
  All,
  IfOk,
  MatchOption,
  Ok,
  Err,
  map,
  option_map,
};
ghost use Rattle.wgsl_functions.specs.Parameters.{
  IsTaken,
  arguments_in,
  bitcast_argument_in,
  each_taken,
  is_of_abstract,
  of_inserted,
  of_one,
  parameters,
  taken_as,
  type_for,
};
ghost use Rattle.wgsl_rules.specs.Refusals.{conv_overflow};
ghost use Rattle.wgsl_rules.specs.Values.{IsStorable};
ghost use Rattle.wgsl_rules.specs.View.{type_view};
ghost use Rattle.wgsl_values.specs.View.{value_of};

use crate::builtin::{Builtin, OfOne, OfThree, OfTwo};
use std::alloc::{AllocError, Global};
use wgsl_apply::component;
use wgsl_rules::{Convert, Ty, Type};
use wgsl_scalar::LiteralInstance;
use wgsl_values::Instance;

/// Whose rules hold where WGSL and the Rust crate differ.
#[derive(Clone, Copy, Debug, PartialEq, Eq)]
pub enum Dialect {
    /// WGSL's: a function that has no overload for abstract integers takes an `i32` or a `u32` in their place.
    Wgsl,
    /// Those of the Rust crate `wgsl-types`: each function takes the values as they are.
    Crate,
}

/// A value that is none of the type that its parameter takes it as.
#[derive(Debug, PartialEq, Eq, Drop)]
pub struct Unfit {
    pub value: Instance,
    pub ty: Type,
}

/// What a parameter takes.
#[derive(Clone, Copy, Debug, PartialEq, Eq)]
pub(crate) enum Parameter {
    /// Each value as it is.
    Any,
    /// An `i32` or a `u32`, or a vector of them.
    I32OrU32,
    U32,
    /// A `vec4<i32>`.
    FourI32,
    /// A `vec4<u32>`.
    FourU32,
}

impl Parameter {
    // The type that it takes abstract integers as; `None` where it takes each value as it is.
    fn type_for(self, alloc: Global, value: &Instance) -> Result<Option<Type>, AllocError>
        requires { IsStorable (value_of value.now) }
        ensures { IfOk result (λ o. option_map type_view o ≡ type_for self (value_of value.now)) }
    {
        match self {
            Parameter::Any => Ok(None),
            Parameter::I32OrU32 => Ok(Some(value.ty(alloc)?.concretize(alloc)?)),
            Parameter::U32 => Ok(Some(Type::U32)),
            Parameter::FourI32 => Ok(Some(Type::Vec(4, Box::new(alloc, Type::I32)?))),
            Parameter::FourU32 => Ok(Some(Type::Vec(4, Box::new(alloc, Type::U32)?))),
        }
    }

    // Makes the value what the parameter takes it as, or answers the type of which it is none.
    fn take(self, alloc: Global, value: &mut Instance) -> Result<Option<Type>, AllocError>
        ensures { IfOk result (λ o. IsStorable (value_of value.old) → MatchOption o
            (taken_as self (value_of value.old) ≡ Ok (value_of value.new))
            (λ ty. taken_as self (value_of value.old) ≡ Err (conv_overflow (value_of value.new) (type_view ty)))) }
    {
        if !is_of_abstract(value) || !value.is_storable() {
            return Ok(None);
        }
        let Some(ty) = self.type_for(alloc, value)? else {
            return Ok(None);
        };
        match value.convert_to(alloc, &ty)? {
            Some(taken) => {
                *value = taken;
                Ok(None)
            }
            None => Ok(Some(ty)),
        }
    }
}

impl Builtin {
    /// The values of a call as the parameters of the function take them, or the first that is none of the type
    /// that its parameter takes it as. In WGSL a parameter that may be an `i32` or a `u32`, or a vector of either,
    /// takes abstract integers as `i32`, and one of one type alone (`u32`, `vec4<i32>`, `vec4<u32>`) takes them as
    /// that; of the first two values of `insertBits` an abstract one beside a concrete one stays, since the function
    /// converts it. In the Rust crate's dialect, and where none is abstract, all values stay as they are, and no memory
    /// is taken.
    /// Nothing is promised where one of them may not be stored.
    pub fn arguments(
        self,
        alloc: Global,
        dialect: Dialect,
        values: Vec<Instance>,
    ) -> Result<Result<Vec<Instance>, Unfit>, AllocError>
        ensures { IfOk result (λ r. All (λ v. IsStorable (value_of v)) values.items →
            IsTaken (λ vs. map value_of vs.items) (arguments_in dialect self (map value_of values.items)) r) }
    {
        match dialect {
            Dialect::Wgsl => take_each(alloc, self.parameters(&values), values),
            Dialect::Crate => Ok(Ok(values)),
        }
    }

    fn parameters(self, values: &[Instance]) -> &'static [Parameter]
        ensures { result.now ≡ parameters self (map value_of values.now) }
    {
        match self {
            Builtin::One(function) => function.parameters(),
            Builtin::Two(OfTwo::Dot4U8Packed | OfTwo::Dot4I8Packed) => {
                &[Parameter::U32, Parameter::U32]
            }
            Builtin::Three(OfThree::ExtractBits) => {
                &[Parameter::I32OrU32, Parameter::U32, Parameter::U32]
            }
            Builtin::InsertBits => of_inserted(values),
            Builtin::Two(_) | Builtin::Three(_) | Builtin::Float | Builtin::NotConstant => &[],
        }
    }
}

// Those of `insertBits`, whose first two values are of one type.
fn of_inserted(values: &[Instance]) -> &'static [Parameter]
    ensures { result.now ≡ of_inserted (map value_of values.now) }
{
    match values {
        [e, bits, ..] if is_of_abstract(e) && is_of_abstract(bits) => &[
            Parameter::I32OrU32,
            Parameter::I32OrU32,
            Parameter::U32,
            Parameter::U32,
        ],
        _ => &[
            Parameter::Any,
            Parameter::Any,
            Parameter::U32,
            Parameter::U32,
        ],
    }
}

impl OfOne {
    fn parameters(self) -> &'static [Parameter]
        ensures { result.now ≡ of_one self ∷ [] }
    {
        match self {
            OfOne::CountLeadingZeros | OfOne::CountOneBits | OfOne::CountTrailingZeros => {
                &[Parameter::I32OrU32]
            }
            OfOne::FirstLeadingBit | OfOne::FirstTrailingBit | OfOne::ReverseBits => {
                &[Parameter::I32OrU32]
            }
            OfOne::Pack4xI8 | OfOne::Pack4xI8Clamp => &[Parameter::FourI32],
            OfOne::Pack4xU8 | OfOne::Pack4xU8Clamp => &[Parameter::FourU32],
            OfOne::Unpack4xI8 | OfOne::Unpack4xU8 => &[Parameter::U32],
            OfOne::Abs | OfOne::Sign | OfOne::Transpose | OfOne::All | OfOne::Any => {
                &[Parameter::Any]
            }
        }
    }
}

/// The value that [`bitcast`](crate::bitcast) is called with as it takes it, or that it is none of the type: in WGSL
/// abstract integers are taken as `i32`. Nothing is promised of a value that may not be stored.
pub fn bitcast_argument(
    alloc: Global,
    dialect: Dialect,
    mut e: Instance,
) -> Result<Result<Instance, Unfit>, AllocError>
    ensures { IfOk result (λ r. IsStorable (value_of e) → IsTaken value_of (bitcast_argument_in dialect (value_of e)) r) }
{
    if dialect == Dialect::Crate {
        return Ok(Ok(e));
    }
    match Parameter::I32OrU32.take(alloc, &mut e)? {
        Some(ty) => Ok(Err(Unfit { value: e, ty })),
        None => Ok(Ok(e)),
    }
}

// Each value as its parameter takes it, in place, or the first that is none of its type.
fn take_each(
    alloc: Global,
    parameters: &[Parameter],
    mut values: Vec<Instance>,
) -> Result<Result<Vec<Instance>, Unfit>, AllocError>
    ensures { IfOk result (λ r. All (λ v. IsStorable (value_of v)) values.items →
        IsTaken (λ vs. map value_of vs.items) (each_taken parameters.now (map value_of values.items)) r) }
{
    for at in 0..parameters.len().min(values.len()) {
        if let Some(ty) = parameters[at].take(alloc, &mut values[at])? {
            let value = values.swap_remove(at);
            return Ok(Err(Unfit { value, ty }));
        }
    }
    Ok(Ok(values))
}

// Whether it is an abstract integer, or a vector of them.
fn is_of_abstract(value: &Instance) -> bool
    ensures { result ≡ is_of_abstract (value_of value.now) }
{
    matches!(component(value, 0), Some(LiteralInstance::AbstractInt(_)))
}
