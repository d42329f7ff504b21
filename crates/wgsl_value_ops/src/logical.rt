//! The operators on two bools (WGSL: logical expressions).

ghost use Rattle.std.specs.Prelude.{IfOk};
ghost use Rattle.wgsl_rules.specs.Values.{IsStorable, IsWellFormed};
ghost use Rattle.wgsl_rules.specs.declared.syntax.BinaryOperator.TheVariants as between;
ghost use Rattle.wgsl_rules.specs.declared.syntax.ShaderStage.TheVariants as stages;
ghost use Rattle.wgsl_scalar.specs.Answers.{Gives};
ghost use Rattle.wgsl_value_ops.specs.Instances.{of_two};
ghost use Rattle.wgsl_values.specs.View.{value_of};

use crate::instances::of_two;
use std::alloc::Global;
use wgsl_rules::{BinaryOperator, ShaderStage};
use wgsl_scalar::Error;
use wgsl_values::Instance;

/// Whether one of two bools is true (WGSL: logical expressions, `||`). Other values are refused by `Binary` with their
/// types. A refusal takes memory, but for that of two literals, and calls itself for each level of a type: keep to 4,095
/// within a stack of 8 MiB.
pub fn logical_or(alloc: Global, left: &Instance, right: &Instance) -> Result<Instance, Error>
    requires left { IsWellFormed (value_of left.now) }
    requires right { IsWellFormed (value_of right.now) }
    ensures value { Gives value_of result (of_two between.ShortCircuitOr stages.Exec (value_of left.now) (value_of right.now)) }
    ensures storable { IfOk result (λ v. IsStorable (value_of v)) }
{
    of_two(
        alloc,
        BinaryOperator::ShortCircuitOr,
        ShaderStage::Exec,
        left,
        right,
    )
}

/// Whether both of two bools are true (WGSL: logical expressions, `&&`). Other values are refused by `Binary` with their
/// types. A refusal takes memory, but for that of two literals, and calls itself for each level of a type: keep to 4,095
/// within a stack of 8 MiB.
pub fn logical_and(alloc: Global, left: &Instance, right: &Instance) -> Result<Instance, Error>
    requires left { IsWellFormed (value_of left.now) }
    requires right { IsWellFormed (value_of right.now) }
    ensures value { Gives value_of result (of_two between.ShortCircuitAnd stages.Exec (value_of left.now) (value_of right.now)) }
    ensures storable { IfOk result (λ v. IsStorable (value_of v)) }
{
    of_two(
        alloc,
        BinaryOperator::ShortCircuitAnd,
        ShaderStage::Exec,
        left,
        right,
    )
}
