//! What the refusals of calls are told as.

ghost use Rattle.std.specs.Prelude.{◌≡◌, option_map};
ghost use Rattle.wgsl_apply.specs.Literals.{is_short, is_zero_number};
ghost use Rattle.wgsl_apply.specs.Refused.{is_of_numbers, unequal_common_type};
ghost use Rattle.wgsl_rules.specs.View.{type_view};
ghost use Rattle.wgsl_scalar.specs.Answers.{builtin_reason_of, refusal_of};
ghost use Rattle.wgsl_scalar.specs.Literals.{literal_of};
ghost use Rattle.wgsl_values.specs.View.{value_of};

use std::alloc::{AllocError, Global};
use wgsl_rules::{BinaryOperator, Type, UnaryOperator, convert_ty};
use wgsl_scalar::{BuiltinReason, Error, LiteralInstance};
use wgsl_values::Instance;

/// The call that was refused, with its operands or arguments.
#[derive(Clone, Copy, Debug, PartialEq, Eq)]
pub enum Asked<'a> {
    /// An operator before its operand.
    Unary(UnaryOperator, &'a Instance),
    /// An operator between the left and the right operand.
    Binary(BinaryOperator, &'a Instance, &'a Instance),
    /// A builtin function of the name.
    Function(&'a str, &'a [Instance]),
    /// A member, a component or an element.
    Part,
}

/// Whether the refusal is of numbers, and not of types: `&&` and `||` pass such a one over. It calls
/// itself for each level of the types: keep to 4,095 within a stack of 8 MiB.
pub fn is_of_numbers(error: &Error) -> bool
    ensures { result ≡ is_of_numbers (refusal_of error.now) (builtin_reason_of error.now) }
{
    match error {
        Error::AddOverflow | Error::SubOverflow | Error::MulOverflow => true,
        Error::DivByZero | Error::RemZeroDiv => true,
        Error::ShlOverflow(_, _) | Error::ShrOverflow(_, _) => true,
        Error::ConvOverflow(_, _) | Error::OutOfBounds(_, _, _) => true,
        Error::Builtin(BuiltinReason::OutOfRange) => true,
        Error::Binary(_, left, right) => common_type(left, right).is_some(),
        _ => false,
    }
}

// The type of both operands that one of them has no number in.
fn common_type<'a>(left: &'a Type, right: &'a Type) -> Option<&'a Type>
    ensures { option_map (λ t. type_view t.now) result ≡ unequal_common_type (type_view left.now) (type_view right.now) }
{
    if *left == *right {
        return None;
    }
    convert_ty(left, right)
}

/// The refusal in words, with those operands that a message prints. The text is not promised. It calls
/// itself for each level of the types: keep to 4,095 within a stack of 8 MiB.
pub fn refusal_text(alloc: Global, error: &Error, asked: Asked<'_>) -> Result<String, AllocError> {
    let mut text = String::new(alloc);
    add_refusal(&mut text, error)?;
    add_reason(&mut text, error, asked)?;
    add_asked(&mut text, asked)?;
    Ok(text)
}

fn add_refusal(text: &mut String, error: &Error) -> Result<(), AllocError> {
    match error {
        Error::Memory => text.push_str("memory is wanting"),
        Error::NotRead => text.push_str("the reference may not be read"),
        Error::NotWrite => text.push_str("the reference may not be written"),
        Error::NotReadWrite => text.push_str("the reference may not be read and written"),
        Error::PtrHandle => text.push_str("no pointer into the handle address space"),
        Error::PtrVecComp => text.push_str("no pointer to a component of a vector"),
        Error::Component(ty, name) => write!(text, "{ty} has no member {name}"),
        Error::NotIndexable(ty) => write!(text, "{ty} has no elements"),
        Error::OutOfBounds(index, ty, count) => add_bounds(text, *index, ty, *count),
        Error::AddOverflow => text.push_str("the sum is out of range"),
        Error::SubOverflow => text.push_str("the difference is out of range"),
        Error::MulOverflow => text.push_str("the product is out of range"),
        Error::ShlOverflow(_, _) => text.push_str("bits are shifted out"),
        Error::ShrOverflow(places, number) => write!(text, "{number} has no {places} bits"),
        _ => add_refused_types(text, error),
    }
}

fn add_bounds(text: &mut String, index: usize, ty: &Type, count: usize) -> Result<(), AllocError> {
    write!(text, "no element {index} in {ty}, which has {count}")
}

fn add_refused_types(text: &mut String, error: &Error) -> Result<(), AllocError> {
    match error {
        Error::WriteRefType(value, of) => write!(text, "{value} written where {of} belongs"),
        Error::ConvOverflow(number, ty) => write!(text, "{number} is no {ty}"),
        Error::Unary(operator, ty) => write!(text, "no operator {operator} for {ty}"),
        Error::Binary(operator, left, right) => match common_type(left, right) {
            Some(ty) => write!(text, "an operand of {operator} is no {ty}"),
            None => write!(text, "no operator {operator} for {left} and {right}"),
        },
        Error::CompwiseBinary(left, right) => {
            write!(text, "{left} and {right} have unequal sizes")
        }
        Error::ParamType(of, value) => write!(text, "{value} where {of} belongs"),
        Error::Builtin(reason) => text.push_str(reason.as_str()),
        Error::Todo(name) => write!(text, "{} has no meaning yet", name.as_str()),
        _ => Ok(()),
    }
}

// Quotients are refused for two reasons, which the divisor tells apart.
fn add_reason(text: &mut String, error: &Error, asked: Asked<'_>) -> Result<(), AllocError> {
    match (error, asked) {
        (Error::DivByZero | Error::RemZeroDiv, Asked::Binary(_, _, right)) => {
            text.push_str(if has_zero(right) {
                "division by zero"
            } else {
                "the quotient is out of range"
            })
        }
        (Error::DivByZero | Error::RemZeroDiv, _) => text.push_str("division by zero"),
        _ => Ok(()),
    }
}

fn has_zero(value: &Instance) -> bool {
    match value {
        Instance::Literal(literal) => is_zero(*literal),
        Instance::Vec(vector) => vector.as_slice().iter().any(is_zero_value),
        _ => false,
    }
}

fn is_zero_value(value: &Instance) -> bool {
    match value {
        Instance::Literal(literal) => is_zero(*literal),
        _ => false,
    }
}

/// Whether it is the number 0, of any kind.
pub fn is_zero(literal: LiteralInstance) -> bool
    ensures { result ≡ is_zero_number (literal_of literal) }
{
    match literal {
        LiteralInstance::Bool(_) => false,
        LiteralInstance::AbstractInt(n) => n == 0,
        LiteralInstance::I32(n) => n == 0,
        LiteralInstance::U32(n) => n == 0,
        LiteralInstance::I64(n) => n == 0,
        LiteralInstance::U64(n) => n == 0,
    }
}

// The call itself, behind a colon.
fn add_asked(text: &mut String, asked: Asked<'_>) -> Result<(), AllocError> {
    match asked {
        Asked::Unary(operator, operand) => {
            if is_short(operand) {
                write!(text, ": {operator}{operand}")?;
            }
            Ok(())
        }
        Asked::Binary(operator, left, right) => {
            if is_short(left) && is_short(right) {
                write!(text, ": {left} {operator} {right}")?;
            }
            Ok(())
        }
        Asked::Function(name, arguments) => add_call(text, name, arguments),
        Asked::Part => Ok(()),
    }
}

fn add_call(text: &mut String, name: &str, arguments: &[Instance]) -> Result<(), AllocError> {
    write!(text, ": {name}(")?;
    for (i, argument) in arguments.iter().enumerate() {
        if i > 0 {
            text.push_str(", ")?;
        }
        if is_short(argument) {
            write!(text, "{argument}")?;
        } else {
            text.push_str("..")?;
        }
    }
    text.push_str(")")
}

/// Whether a value is printed in a message.
pub fn is_short(value: &Instance) -> bool
    ensures { result ≡ is_short (value_of value.now) }
{
    match value {
        Instance::Literal(_) | Instance::Vec(_) => true,
        Instance::Struct(_) | Instance::Array(_) | Instance::Mat(_) | Instance::Ptr(_) => false,
        Instance::Ref(_) | Instance::Atomic(_) | Instance::Deferred(_) => false,
    }
}
