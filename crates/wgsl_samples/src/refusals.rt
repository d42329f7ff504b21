//! The texts of answers: the value's own, or the case of the refusal with what it holds, but for a builtin's reason; some
//! refusals are told by their number alone. And what tests ask of refusals.

ghost use Rattle.wgsl_rules.specs.Values.{IsWellFormed};
ghost use Rattle.wgsl_values.specs.View.{value_of};

use std::alloc::{AllocError, Global};
use std::fmt::Display;
use wgsl_scalar::Error;
use wgsl_values::{Instance, MemView};

/// The text of a refusal, without that of a builtin's reason.
fn refusal_text(alloc: Global, error: &Error) -> Result<String, AllocError> {
    match error {
        Error::Unary(operator, ty) => format!(in alloc; "Unary {operator} {ty}"),
        Error::Binary(operator, left, right) => {
            format!(in alloc; "Binary {operator} {left}, {right}")
        }
        Error::CompwiseBinary(left, right) => format!(in alloc; "CompwiseBinary {left}, {right}"),
        Error::ShlOverflow(count, number) => format!(in alloc; "ShlOverflow {count}, {number}"),
        Error::ShrOverflow(count, number) => format!(in alloc; "ShrOverflow {count}, {number}"),
        Error::AddOverflow => format!(in alloc; "AddOverflow"),
        Error::SubOverflow => format!(in alloc; "SubOverflow"),
        Error::MulOverflow => format!(in alloc; "MulOverflow"),
        Error::DivByZero => format!(in alloc; "DivByZero"),
        Error::RemZeroDiv => format!(in alloc; "RemZeroDiv"),
        Error::ConvOverflow(literal, ty) => format!(in alloc; "ConvOverflow {literal}, {ty}"),
        Error::ParamType(asked, given) => format!(in alloc; "ParamType {asked}, {given}"),
        Error::Builtin(_) => format!(in alloc; "Builtin"),
        Error::NotRead => format!(in alloc; "NotRead"),
        Error::NotWrite => format!(in alloc; "NotWrite"),
        Error::NotReadWrite => format!(in alloc; "NotReadWrite"),
        Error::PtrHandle => format!(in alloc; "PtrHandle"),
        Error::PtrVecComp => format!(in alloc; "PtrVecComp"),
        other => format!(in alloc; "error {}", other.number()),
    }
}

/// The text of an answer: the value's own, or that of the refusal.
pub fn text_of<T: Display>(alloc: Global, answer: &Result<T, Error>) -> Result<String, AllocError> {
    match answer {
        Ok(value) => value.to_string(alloc),
        Err(error) => refusal_text(alloc, error),
    }
}

/// The answer or the refusal of a call; none where it wants memory.
pub fn settled<T>(answer: Result<T, Error>) -> Option<Result<T, Error>> {
    match answer {
        Ok(value) => Some(Ok(value)),
        Err(Error::Memory) => None,
        Err(refusal) => Some(Err(refusal)),
    }
}

/// Why what the view leads to can't be written; `None` where it can.
pub fn refusal_to_write(alloc: Global, value: &mut Instance, view: &MemView) -> Option<Error>
    requires { IsWellFormed (value_of value.old) }
{
    match value.view_mut(alloc, view) {
        Ok(_) => None,
        Err(refusal) => Some(refusal),
    }
}
