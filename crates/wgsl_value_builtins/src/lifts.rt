//! Functions on literals, taken to values: literals, and vectors by component (WGSL: builtin functions;
//! overload resolution algorithm).

ghost use Rattle.std.specs.Prelude.{◌≡◌, IfOk};
ghost use Rattle.wgsl_value_ops.specs.Lift.{lifted, lifted2, vector_of};
ghost use Rattle.wgsl_rules.specs.Paths.{parts};
ghost use Rattle.wgsl_rules.specs.Refusals.{and_then};
ghost use Rattle.wgsl_rules.specs.Values.{IsStorable, IsWellFormed, type_of};
ghost use Rattle.wgsl_scalar.specs.Answers.{Answers, Gives};
ghost use Rattle.wgsl_scalar.specs.Literals.{literal_of};
ghost use Rattle.wgsl_value_builtins.specs.Functions.{binary_value, unary_value};
ghost use Rattle.wgsl_value_builtins.specs.Lifts.{in_common_type, on_both, on_components};
ghost use Rattle.wgsl_values.specs.View.{value_of, vec_view};

use crate::cases::are_of_one_type;
use std::alloc::Global;
use wgsl_rules::convert;
use wgsl_scalar::{BuiltinReason, Error, LiteralInstance};
use wgsl_value_ops::Compwise;
use wgsl_values::{Instance, VecInstance};

/// A function of one literal.
#[derive(Clone, Copy)]
pub(crate) enum UnaryFunction {
    Abs,
    Sign,
    CountLeadingZeros,
    CountOneBits,
    CountTrailingZeros,
    FirstLeadingBit,
    FirstTrailingBit,
    ReverseBits,
    ExtractBits { offset: u32, count: u32 },
}

impl UnaryFunction {
    /// What the function gives for the literal.
    pub(crate) fn of_literal(self, literal: &LiteralInstance) -> Result<LiteralInstance, Error>
        ensures { Answers literal_of result (unary_value self (literal_of literal.now)) }
    {
        match self {
            UnaryFunction::Abs => literal.abs(),
            UnaryFunction::Sign => literal.sign(),
            UnaryFunction::CountLeadingZeros => literal.count_leading_zeros(),
            UnaryFunction::CountOneBits => literal.count_one_bits(),
            UnaryFunction::CountTrailingZeros => literal.count_trailing_zeros(),
            UnaryFunction::FirstLeadingBit => literal.first_leading_bit(),
            UnaryFunction::FirstTrailingBit => literal.first_trailing_bit(),
            UnaryFunction::ReverseBits => literal.reverse_bits(),
            UnaryFunction::ExtractBits { offset, count } => literal.extract_bits(offset, count),
        }
    }
}

/// A function of two literals.
#[derive(Clone, Copy)]
pub(crate) enum BinaryFunction {
    Min,
    Max,
    InsertBits { offset: u32, count: u32 },
}

impl BinaryFunction {
    /// What the function gives for the two literals.
    pub(crate) fn of_literals(
        self,
        left: &LiteralInstance,
        right: &LiteralInstance,
    ) -> Result<LiteralInstance, Error>
        ensures { Answers literal_of result (binary_value self (literal_of left.now) (literal_of right.now)) }
    {
        match self {
            BinaryFunction::Min => left.min(right),
            BinaryFunction::Max => left.max(right),
            BinaryFunction::InsertBits { offset, count } => left.insert_bits(right, offset, count),
        }
    }
}

// The function at each component.
fn on_vector(
    alloc: Global,
    function: UnaryFunction,
    vector: &VecInstance,
) -> Result<VecInstance, Error>
    requires { IsWellFormed (vec_view vector.now) }
    ensures value { Gives vec_view result (vector_of (lifted (unary_value function) (parts (vec_view vector.now)))) }
    ensures storable { IfOk result (λ v. IsStorable (vec_view v)) }
{
    vector.compwise_unary(alloc, |c| function.of_literal(c))
}

/// The function at a literal, or at each component of a vector; another value is refused by `Builtin`.
pub(crate) fn on_components(
    alloc: Global,
    function: UnaryFunction,
    value: &Instance,
) -> Result<Instance, Error>
    requires { IsWellFormed (value_of value.now) }
    ensures value { Gives value_of result (on_components (unary_value function) (value_of value.now)) }
    ensures storable { IfOk result (λ v. IsStorable (value_of v)) }
{
    match value {
        Instance::Literal(literal) => Ok(Instance::from(function.of_literal(literal)?)),
        Instance::Vec(vector) => Ok(Instance::Vec(on_vector(alloc, function, vector)?)),
        Instance::Struct(_) | Instance::Array(_) | Instance::Mat(_) => {
            Err(Error::Builtin(BuiltinReason::NotNumber))
        }
        Instance::Ptr(_) | Instance::Ref(_) | Instance::Atomic(_) | Instance::Deferred(_) => {
            Err(Error::Builtin(BuiltinReason::NotNumber))
        }
    }
}

// The function at each two components.
fn on_vectors(
    alloc: Global,
    function: BinaryFunction,
    left: &VecInstance,
    right: &VecInstance,
) -> Result<VecInstance, Error>
    requires left { IsWellFormed (vec_view left.now) }
    requires right { IsWellFormed (vec_view right.now) }
    requires one_type { type_of (vec_view left.now) ≡ type_of (vec_view right.now) }
    ensures value { Gives vec_view result (vector_of (lifted2 (binary_value function) (parts (vec_view left.now)) (parts (vec_view right.now)))) }
    ensures storable { IfOk result (λ v. IsStorable (vec_view v)) }
{
    left.compwise_binary(alloc, right, |a, b| function.of_literals(a, b))
}

// The function at a literal and a value.
fn on_literal_and(
    function: BinaryFunction,
    left: &LiteralInstance,
    right: &Instance,
) -> Result<Instance, Error>
    ensures value { Answers value_of result (binary_value function (literal_of left.now) (value_of right.now)) }
    ensures storable { IfOk result (λ v. IsStorable (value_of v)) }
{
    match right {
        Instance::Literal(right) => Ok(Instance::from(function.of_literals(left, right)?)),
        Instance::Struct(_) | Instance::Array(_) | Instance::Vec(_) | Instance::Mat(_) => {
            Err(Error::Builtin(BuiltinReason::NotNumber))
        }
        Instance::Ptr(_) | Instance::Ref(_) | Instance::Atomic(_) | Instance::Deferred(_) => {
            Err(Error::Builtin(BuiltinReason::NotNumber))
        }
    }
}

// The function at each two components of a vector and a value.
fn on_vector_and(
    alloc: Global,
    function: BinaryFunction,
    left: &VecInstance,
    right: &Instance,
) -> Result<Instance, Error>
    requires left { IsWellFormed (vec_view left.now) }
    requires right { IsWellFormed (value_of right.now) }
    requires one_type { type_of (vec_view left.now) ≡ type_of (value_of right.now) }
    ensures value { Gives value_of result (on_both (binary_value function) (vec_view left.now) (value_of right.now)) }
    ensures storable { IfOk result (λ v. IsStorable (value_of v)) }
{
    match right {
        Instance::Vec(right) => Ok(Instance::Vec(on_vectors(alloc, function, left, right)?)),
        Instance::Literal(_) | Instance::Struct(_) | Instance::Array(_) | Instance::Mat(_) => {
            Err(Error::Builtin(BuiltinReason::NotNumber))
        }
        Instance::Ptr(_) | Instance::Ref(_) | Instance::Atomic(_) | Instance::Deferred(_) => {
            Err(Error::Builtin(BuiltinReason::NotNumber))
        }
    }
}

/// The function at two literals, or at each two components of two vectors; other values are refused by
/// `Builtin`.
pub(crate) fn on_both(
    alloc: Global,
    function: BinaryFunction,
    left: &Instance,
    right: &Instance,
) -> Result<Instance, Error>
    requires left { IsWellFormed (value_of left.now) }
    requires right { IsWellFormed (value_of right.now) }
    requires one_type { type_of (value_of left.now) ≡ type_of (value_of right.now) }
    ensures value { Gives value_of result (on_both (binary_value function) (value_of left.now) (value_of right.now)) }
    ensures storable { IfOk result (λ v. IsStorable (value_of v)) }
{
    match left {
        Instance::Literal(left) => on_literal_and(function, left, right),
        Instance::Vec(left) => on_vector_and(alloc, function, left, right),
        Instance::Struct(_) | Instance::Array(_) | Instance::Mat(_) => {
            Err(Error::Builtin(BuiltinReason::NotNumber))
        }
        Instance::Ptr(_) | Instance::Ref(_) | Instance::Atomic(_) | Instance::Deferred(_) => {
            Err(Error::Builtin(BuiltinReason::NotNumber))
        }
    }
}

/// The function at the two values in their common type, as [`on_both`] has it; without one they are
/// refused by `Builtin`.
pub(crate) fn in_common_type(
    alloc: Global,
    function: BinaryFunction,
    left: &Instance,
    right: &Instance,
) -> Result<Instance, Error>
    requires left { IsWellFormed (value_of left.now) }
    requires right { IsWellFormed (value_of right.now) }
    ensures value { Gives value_of result (and_then (in_common_type (value_of left.now) (value_of right.now)) (λ p. on_both (binary_value function) p.0 p.1)) }
    ensures storable { IfOk result (λ v. IsStorable (value_of v)) }
{
    if are_of_one_type(left, right) {
        return on_both(alloc, function, left, right);
    }
    match convert(alloc, left, right)? {
        Some((a, b)) => {
            let answer = on_both(alloc, function, &a, &b);
            drop((a, b));
            answer
        }
        None => Err(Error::Builtin(BuiltinReason::NoCommonType)),
    }
}
