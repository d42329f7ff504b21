//! The operators on values of every kind, by their name (WGSL: expressions).

ghost use Rattle.std.specs.Prelude.{◌≡◌, IfOk, IfSome};
ghost use Rattle.wgsl_value_ops.specs.Instances.{a_literal, a_vector, of_mixed, of_mixed_before, of_one, of_operands, of_two, of_vectors, operand};
ghost use Rattle.wgsl_value_ops.specs.Literals.{of_literals};
ghost use Rattle.wgsl_rules.specs.Values.{IsStorable, IsWellFormed};
ghost use Rattle.wgsl_scalar.specs.Answers.{Gives};
ghost use Rattle.wgsl_scalar.specs.Literals.{literal_of};
ghost use Rattle.wgsl_values.specs.View.{value_of, vec_view};

use crate::lifted::{
    of_components, of_converted, of_each, of_each_and_scalar, of_scalar_and_each, of_scalar_vector,
    of_vector_scalar,
};
use crate::operators::{binary, component, unary};
use std::alloc::Global;
use wgsl_rules::{BinaryOperator, ShaderStage, Ty, UnaryOperator};
use wgsl_scalar::{Error, LiteralInstance};
use wgsl_values::{Instance, VecInstance};

// Two vectors.
fn of_vectors(
    alloc: Global,
    operator: BinaryOperator,
    stage: ShaderStage,
    left: &VecInstance,
    right: &VecInstance,
) -> Result<VecInstance, Error>
    requires left { IsWellFormed (vec_view left.now) }
    requires right { IsWellFormed (vec_view right.now) }
    ensures value { Gives vec_view result (of_vectors operator stage (vec_view left.now) (vec_view right.now)) }
    ensures storable { IfOk result (λ v. IsStorable (vec_view v)) }
{
    match operator {
        BinaryOperator::ShortCircuitOr | BinaryOperator::ShortCircuitAnd => {
            Err(Error::Binary(operator, left.ty(alloc)?, right.ty(alloc)?))
        }
        BinaryOperator::BitwiseOr
        | BinaryOperator::BitwiseAnd
        | BinaryOperator::BitwiseXor
        | BinaryOperator::ShiftLeft
        | BinaryOperator::ShiftRight => of_components(alloc, operator, stage, left, right),
        _ => of_converted(alloc, operator, stage, left, right),
    }
}

// A vector and a scalar.
fn of_mixed(
    alloc: Global,
    operator: BinaryOperator,
    stage: ShaderStage,
    vector: &VecInstance,
    scalar: &LiteralInstance,
) -> Result<VecInstance, Error>
    requires { IsWellFormed (vec_view vector.now) }
    ensures value { Gives vec_view result (of_mixed operator stage (vec_view vector.now) (literal_of scalar.now)) }
    ensures storable { IfOk result (λ v. IsStorable (vec_view v)) }
{
    match operator {
        BinaryOperator::Addition | BinaryOperator::Subtraction | BinaryOperator::Multiplication => {
            of_vector_scalar(alloc, operator, stage, vector, scalar)
        }
        BinaryOperator::Division | BinaryOperator::Remainder => {
            of_each_and_scalar(alloc, operator, stage, vector, scalar)
        }
        _ => Err(Error::Binary(operator, vector.ty(alloc)?, scalar.literal_ty())),
    }
}

// A scalar and a vector.
fn of_mixed_before(
    alloc: Global,
    operator: BinaryOperator,
    stage: ShaderStage,
    scalar: &LiteralInstance,
    vector: &VecInstance,
) -> Result<VecInstance, Error>
    requires { IsWellFormed (vec_view vector.now) }
    ensures value { Gives vec_view result (of_mixed_before operator stage (literal_of scalar.now) (vec_view vector.now)) }
    ensures storable { IfOk result (λ v. IsStorable (vec_view v)) }
{
    match operator {
        BinaryOperator::Addition | BinaryOperator::Multiplication => {
            of_vector_scalar(alloc, operator, stage, vector, scalar)
        }
        BinaryOperator::Subtraction => of_scalar_vector(alloc, operator, stage, scalar, vector),
        BinaryOperator::Division | BinaryOperator::Remainder => {
            of_scalar_and_each(alloc, operator, stage, scalar, vector)
        }
        _ => Err(Error::Binary(operator, scalar.literal_ty(), vector.ty(alloc)?)),
    }
}

// Two literals.
#[inline(always)]
fn of_literals(
    operator: BinaryOperator,
    stage: ShaderStage,
    left: &LiteralInstance,
    right: &LiteralInstance,
) -> Result<Instance, Error>
    ensures value { Gives value_of result (of_literals operator stage (literal_of left.now) (literal_of right.now)) }
    ensures storable { IfOk result (λ v. IsStorable (value_of v)) }
{
    Ok(component(binary(operator, stage, left, right)?))
}

// A literal and a value.
fn of_literal_and(
    alloc: Global,
    operator: BinaryOperator,
    stage: ShaderStage,
    left: &LiteralInstance,
    right: &Instance,
) -> Result<Instance, Error>
    requires { IsWellFormed (value_of right.now) }
    ensures value { Gives value_of result (of_operands a_literal (operand (value_of right.now)) operator stage (literal_of left.now) (value_of right.now)) }
    ensures storable { IfOk result (λ v. IsStorable (value_of v)) }
{
    match right {
        Instance::Literal(b) => of_literals(operator, stage, left, b),
        Instance::Vec(b) => Ok(Instance::Vec(of_mixed_before(alloc, operator, stage, left, b)?)),
        Instance::Struct(_) | Instance::Array(_) | Instance::Mat(_) | Instance::Ptr(_) => {
            Err(Error::Binary(operator, left.literal_ty(), right.ty(alloc)?))
        }
        Instance::Ref(_) | Instance::Atomic(_) | Instance::Deferred(_) => {
            Err(Error::Binary(operator, left.literal_ty(), right.ty(alloc)?))
        }
    }
}

// A vector and a value.
fn of_vector_and(
    alloc: Global,
    operator: BinaryOperator,
    stage: ShaderStage,
    left: &VecInstance,
    right: &Instance,
) -> Result<Instance, Error>
    requires left { IsWellFormed (vec_view left.now) }
    requires right { IsWellFormed (value_of right.now) }
    ensures value { Gives value_of result (of_operands a_vector (operand (value_of right.now)) operator stage (vec_view left.now) (value_of right.now)) }
    ensures storable { IfOk result (λ v. IsStorable (value_of v)) }
{
    match right {
        Instance::Literal(b) => Ok(Instance::Vec(of_mixed(alloc, operator, stage, left, b)?)),
        Instance::Vec(b) => Ok(Instance::Vec(of_vectors(alloc, operator, stage, left, b)?)),
        Instance::Struct(_) | Instance::Array(_) | Instance::Mat(_) | Instance::Ptr(_) => {
            Err(Error::Binary(operator, left.ty(alloc)?, right.ty(alloc)?))
        }
        Instance::Ref(_) | Instance::Atomic(_) | Instance::Deferred(_) => {
            Err(Error::Binary(operator, left.ty(alloc)?, right.ty(alloc)?))
        }
    }
}

// Two values of any kinds; those that are no literals and no vectors are refused with their types.
#[inline(never)]
fn of_values(
    alloc: Global,
    operator: BinaryOperator,
    stage: ShaderStage,
    left: &Instance,
    right: &Instance,
) -> Result<Instance, Error>
    requires left { IsWellFormed (value_of left.now) }
    requires right { IsWellFormed (value_of right.now) }
    ensures value { Gives value_of result (of_two operator stage (value_of left.now) (value_of right.now)) }
    ensures storable { IfOk result (λ v. IsStorable (value_of v)) }
{
    match left {
        Instance::Literal(a) => of_literal_and(alloc, operator, stage, a, right),
        Instance::Vec(a) => of_vector_and(alloc, operator, stage, a, right),
        Instance::Struct(_) | Instance::Array(_) | Instance::Mat(_) | Instance::Ptr(_) => {
            Err(Error::Binary(operator, left.ty(alloc)?, right.ty(alloc)?))
        }
        Instance::Ref(_) | Instance::Atomic(_) | Instance::Deferred(_) => {
            Err(Error::Binary(operator, left.ty(alloc)?, right.ty(alloc)?))
        }
    }
}

// Both values as literals, where both are.
#[inline(always)]
fn both_literals<'a>(
    left: &'a Instance,
    right: &'a Instance,
) -> Option<(&'a LiteralInstance, &'a LiteralInstance)>
    ensures left { IfSome result (λ p. literal_of p.0.now ≡ value_of left.now) }
    ensures right { IfSome result (λ p. literal_of p.1.now ≡ value_of right.now) }
{
    match (left, right) {
        (Instance::Literal(a), Instance::Literal(b)) => Some((a, b)),
        _ => None,
    }
}

/// What the operator gives for the two values; those that are no literals and no vectors are refused
/// with their types. Two literals, which are the most frequent, are not looked at as values.
#[inline(always)]
pub(crate) fn of_two(
    alloc: Global,
    operator: BinaryOperator,
    stage: ShaderStage,
    left: &Instance,
    right: &Instance,
) -> Result<Instance, Error>
    requires left { IsWellFormed (value_of left.now) }
    requires right { IsWellFormed (value_of right.now) }
    ensures value { Gives value_of result (of_two operator stage (value_of left.now) (value_of right.now)) }
    ensures storable { IfOk result (λ v. IsStorable (value_of v)) }
{
    match both_literals(left, right) {
        Some((a, b)) => of_literals(operator, stage, a, b),
        None => of_values(alloc, operator, stage, left, right),
    }
}

/// What `!`, `-` or `~` gives for the value; one that is no literal and no vector is refused with its
/// type.
pub(crate) fn of_one(
    alloc: Global,
    operator: UnaryOperator,
    value: &Instance,
) -> Result<Instance, Error>
    requires { IsWellFormed (value_of value.now) }
    ensures value { Gives value_of result (of_one operator (value_of value.now)) }
    ensures storable { IfOk result (λ v. IsStorable (value_of v)) }
{
    match value {
        Instance::Literal(literal) => Ok(component(unary(operator, literal)?)),
        Instance::Vec(vector) => Ok(Instance::Vec(of_each(alloc, operator, vector)?)),
        _ => Err(Error::Unary(operator, value.ty(alloc)?)),
    }
}
