//! Where the standard refuses what the library answers, as the Rust crate does.

ghost use Rattle.std.specs.Prelude.{◌≡◌, ◌&&◌, is_some, not, option_and_then, option_map};
ghost use Rattle.wgsl_apply.specs.Literals.{component_of, natural_of};
ghost use Rattle.wgsl_apply.specs.Standard.{
  is_against,
  is_past_width,
  is_runtime,
  is_truth,
  shifts_past_width,
};
ghost use Rattle.wgsl_scalar.specs.Literals.{literal_of as value_of_literal};
ghost use Rattle.wgsl_values.specs.View.{value_of};

use crate::convert::{literal_of, natural};
use wgsl_rules::{BinaryOperator, ShaderStage};
use wgsl_scalar::LiteralInstance;
use wgsl_values::Instance;

/// The most components of a vector.
pub const COMPONENTS: usize = 4;

/// What the standard says against an operator of these operands in the stage; `None` where it says
/// nothing.
pub fn against_operator(
    operator: BinaryOperator,
    stage: ShaderStage,
    left: &Instance,
    right: &Instance,
) -> Option<&'static str>
    ensures { is_some result ≡ is_against operator stage (value_of left.now) (value_of right.now) }
{
    match operator {
        BinaryOperator::LessThan | BinaryOperator::LessThanEqual => against_order(left),
        BinaryOperator::GreaterThan | BinaryOperator::GreaterThanEqual => against_order(left),
        BinaryOperator::ShiftLeft => against_shift(stage, left, right),
        _ => None,
    }
}

/// The component at a place, counted from 0, or a literal itself at each place; `None` of any other
/// value, and past the last component.
pub fn component(value: &Instance, at: usize) -> Option<LiteralInstance>
    ensures { option_map value_of_literal result ≡ component_of (value_of value.now) at }
{
    match value {
        Instance::Literal(literal) => Some(*literal),
        Instance::Vec(vector) => literal_of(vector.get(at)?),
        Instance::Struct(_) | Instance::Array(_) | Instance::Mat(_) | Instance::Ptr(_) => None,
        Instance::Ref(_) | Instance::Atomic(_) | Instance::Deferred(_) => None,
    }
}

/// Whether values are needed while a shader runs, when nothing of them is refused beforehand.
pub fn is_runtime(stage: ShaderStage) -> bool
    ensures { result ≡ is_runtime stage }
{
    stage == ShaderStage::Exec
}

fn against_order(left: &Instance) -> Option<&'static str>
    ensures { is_some result ≡ is_truth (component_of (value_of left.now) 0) }
{
    match component(left, 0) {
        Some(LiteralInstance::Bool(_)) => {
            Some("the standard orders no bools (WGSL: comparison expressions)")
        }
        _ => None,
    }
}

fn against_shift(stage: ShaderStage, left: &Instance, right: &Instance) -> Option<&'static str>
    ensures { is_some result ≡ (not (is_runtime stage) && shifts_past_width (value_of left.now) (value_of right.now)) }
{
    if is_runtime(stage) {
        return None;
    }
    for at in 0..COMPONENTS {
        if is_past_width(component(left, at), component(right, at)) {
            return Some("the standard shifts by less than the width (WGSL: bit expressions)");
        }
    }
    None
}

fn is_past_width(left: Option<LiteralInstance>, right: Option<LiteralInstance>) -> bool
    ensures { result ≡ is_past_width (option_map value_of_literal left) (option_and_then natural_of (option_map value_of_literal right)) }
{
    let Some(places) = right.and_then(|literal| natural(literal)) else {
        return false;
    };
    match left {
        Some(LiteralInstance::I32(_) | LiteralInstance::U32(_)) => places >= 32,
        Some(LiteralInstance::I64(_) | LiteralInstance::U64(_)) => places >= 64,
        Some(LiteralInstance::AbstractInt(number)) => places >= 64 && number != 0,
        Some(LiteralInstance::Bool(_)) | None => false,
    }
}
