//! Where the standard refuses what a function of the library answers, as the Rust crate does.

ghost use Rattle.std.specs.Prelude.{◌≡◌, ◌&&◌, is_some, map, not, option_map};
ghost use Rattle.wgsl_apply.specs.Literals.{component_of};
ghost use Rattle.wgsl_apply.specs.Standard.{is_runtime};
ghost use Rattle.wgsl_functions.specs.Standard.{
  is_above,
  is_above_at,
  is_abstract,
  is_against_function,
  is_against_one,
  is_any_above,
  is_field_outside,
  is_scalar_or_vector,
  is_u32,
};
ghost use Rattle.wgsl_scalar.specs.Literals.{literal_of};
ghost use Rattle.wgsl_values.specs.View.{value_of};

use crate::builtin::{Builtin, OfOne, OfThree};
use wgsl_apply::{component, is_runtime, natural};
use wgsl_rules::ShaderStage;
use wgsl_scalar::LiteralInstance;
use wgsl_values::Instance;

/// What the standard says against a function of these values, in a stage, that the library accepts: the sign
/// of a `u32`; counts of bits of an abstract integer, which [`Builtin::arguments`] leaves in the Rust crate's dialect
/// alone; a choice between values that are no scalars and no vectors; before a shader runs, a clamp with a component
/// of low above that of high, and a field of bits past the width of 32.
pub fn against_function(
    function: Builtin,
    stage: ShaderStage,
    values: &[Instance],
) -> Option<&'static str>
    ensures { is_some result ≡ is_against_function function stage (map value_of values.now) }
{
    match (function, values.len()) {
        (Builtin::One(function), 1) => against_one(function, &values[0]),
        (Builtin::Three(OfThree::Clamp), 3) => against_clamp(stage, &values[1], &values[2]),
        (Builtin::Three(OfThree::Select), 3) => against_select(&values[0]),
        (Builtin::Three(OfThree::ExtractBits), 3) => against_field(stage, &values[1], &values[2]),
        (Builtin::InsertBits, 4) => against_field(stage, &values[2], &values[3]),
        _ => None,
    }
}

fn against_one(function: OfOne, e: &Instance) -> Option<&'static str>
    ensures { is_some result ≡ is_against_one function (value_of e.now) }
{
    match function {
        OfOne::Sign => against_sign(e),
        OfOne::CountLeadingZeros | OfOne::CountOneBits | OfOne::CountTrailingZeros => {
            against_count(e)
        }
        _ => None,
    }
}

fn against_sign(e: &Instance) -> Option<&'static str>
    ensures { is_some result ≡ is_u32 (component_of (value_of e.now) 0) }
{
    match component(e, 0) {
        Some(LiteralInstance::U32(_)) => Some("the standard has no sign of u32 (WGSL: sign)"),
        _ => None,
    }
}

fn against_count(e: &Instance) -> Option<&'static str>
    ensures { is_some result ≡ is_abstract (component_of (value_of e.now) 0) }
{
    match component(e, 0) {
        Some(LiteralInstance::AbstractInt(_)) => {
            Some("the standard takes this as an i32 first (WGSL: bit counts)")
        }
        _ => None,
    }
}

fn against_clamp(stage: ShaderStage, low: &Instance, high: &Instance) -> Option<&'static str>
    ensures { is_some result ≡ (not (is_runtime stage) && is_any_above (value_of low.now) (value_of high.now)) }
{
    if !is_runtime(stage) && is_any_above(low, high) {
        Some("the standard refuses low above high (WGSL: clamp)")
    } else {
        None
    }
}

fn against_select(value: &Instance) -> Option<&'static str>
    ensures { is_some result ≡ not (is_scalar_or_vector (value_of value.now)) }
{
    if is_scalar_or_vector(value) {
        None
    } else {
        Some("the standard selects scalars and vectors alone (WGSL: select)")
    }
}

fn is_scalar_or_vector(value: &Instance) -> bool
    ensures { result ≡ is_scalar_or_vector (value_of value.now) }
{
    match value {
        Instance::Literal(_) | Instance::Vec(_) => true,
        Instance::Struct(_) | Instance::Array(_) | Instance::Mat(_) | Instance::Ptr(_) => false,
        Instance::Ref(_) | Instance::Atomic(_) | Instance::Deferred(_) => false,
    }
}

fn is_any_above(low: &Instance, high: &Instance) -> bool
    ensures { result ≡ is_any_above (value_of low.now) (value_of high.now) }
{
    is_above_at(low, high, 0)
        || is_above_at(low, high, 1)
        || is_above_at(low, high, 2)
        || is_above_at(low, high, 3)
}

fn is_above_at(low: &Instance, high: &Instance, at: usize) -> bool
    ensures { result ≡ is_above_at (value_of low.now) (value_of high.now) at }
{
    is_above(component(low, at), component(high, at))
}

fn is_above(low: Option<LiteralInstance>, high: Option<LiteralInstance>) -> bool
    ensures { result ≡ is_above (option_map literal_of low) (option_map literal_of high) }
{
    match (low, high) {
        (Some(low), Some(high)) => low.op_gt(&high).unwrap_or(false),
        _ => false,
    }
}

fn against_field(stage: ShaderStage, offset: &Instance, count: &Instance) -> Option<&'static str>
    ensures { is_some result ≡ (not (is_runtime stage) && is_field_outside (value_of offset.now) (value_of count.now)) }
{
    if is_runtime(stage) {
        return None;
    }
    let offset = natural(component(offset, 0)?)?;
    let count = natural(component(count, 0)?)?;
    if offset.saturating_add(count) > 32 {
        Some("the standard refuses offset + count past 32 (WGSL: extractBits; insertBits)")
    } else {
        None
    }
}
