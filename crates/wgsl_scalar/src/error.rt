//! Why a call is refused.

ghost use Rattle.std.specs.Prelude.{◌≡◌, IfOk};
ghost use Rattle.wgsl_scalar.specs.Answers.{refusal_of, builtin_reason_of, error_number};

use crate::builtin::{BuiltinName, BuiltinReason};
use crate::literal::LiteralInstance;
use std::alloc::{AllocError, Global};
use wgsl_rules::{BinaryOperator, Type, UnaryOperator};

/// Why a call is refused.
#[derive(Debug, PartialEq, Eq, Drop)]
pub enum Error {
    /// Memory that the call asked for was refused.
    Memory,
    /// The reference has no read access.
    NotRead,
    /// The reference has no write access.
    NotWrite,
    /// The reference has no read and write access.
    NotReadWrite,
    /// A pointer into the handle address space.
    PtrHandle,
    /// A pointer to a component of a vector.
    PtrVecComp,
    /// A written value of the first type does not fit a reference of the second.
    WriteRefType(Type, Type),
    /// A value of the type has no member of the name.
    Component(Type, String),
    /// A value of the type has no parts by index.
    NotIndexable(Type),
    /// The index is past the end of a value of the type, which has that many parts.
    OutOfBounds(usize, Type, usize),
    /// The literal is no number of the type.
    ConvOverflow(LiteralInstance, Type),
    /// The operator does not take an operand of the type.
    Unary(UnaryOperator, Type),
    /// The operator does not take operands of the types, or a number does not fit their common type.
    Binary(BinaryOperator, Type, Type),
    /// The operands do not have as many components as each other.
    CompwiseBinary(Type, Type),
    /// The sum of abstract numbers is out of range.
    AddOverflow,
    /// The difference of abstract numbers is out of range.
    SubOverflow,
    /// The product of abstract numbers is out of range.
    MulOverflow,
    /// The quotient by zero, or one out of range.
    DivByZero,
    /// The remainder by zero, or of a quotient out of range.
    RemZeroDiv,
    /// The number, shifted left by so many places, is out of range.
    ShlOverflow(u32, LiteralInstance),
    /// The number has fewer bits than places that it is shifted right.
    ShrOverflow(u32, LiteralInstance),
    /// The parameter of the first type does not take an argument of the second.
    ParamType(Type, Type),
    /// A builtin function refuses its arguments.
    Builtin(BuiltinReason),
    /// The builtin function has no meaning yet.
    Todo(BuiltinName),
}

impl From<AllocError> for Error {
    ghost use Rattle.std.specs.Prelude.{◌≡◌};
    ghost use Rattle.wgsl_scalar.specs.declared.error.Error.TheVariants.{Memory};

    ghost from_gives = { λ _ e. e ≡ Memory };

    fn from(_e: AllocError) -> Error {
        Error::Memory
    }
}

impl Error {
    /// The number of the case in the list of errors, from 1 for `Memory` to 24 for `Todo`.
    pub fn number(&self) -> u8
        ensures { result ≡ error_number (refusal_of self.now) }
    {
        match self {
            Error::Memory => 1,
            Error::NotRead => 2,
            Error::NotWrite => 3,
            Error::NotReadWrite => 4,
            Error::PtrHandle => 5,
            Error::PtrVecComp => 6,
            Error::WriteRefType(_, _) => 7,
            Error::Component(_, _) => 8,
            Error::NotIndexable(_) => 9,
            Error::OutOfBounds(_, _, _) => 10,
            Error::ConvOverflow(_, _) => 11,
            Error::Unary(_, _) => 12,
            Error::Binary(_, _, _) => 13,
            Error::CompwiseBinary(_, _) => 14,
            Error::AddOverflow => 15,
            Error::SubOverflow => 16,
            Error::MulOverflow => 17,
            Error::DivByZero => 18,
            Error::RemZeroDiv => 19,
            Error::ShlOverflow(_, _) => 20,
            Error::ShrOverflow(_, _) => 21,
            Error::ParamType(_, _) => 22,
            Error::Builtin(_) => 23,
            Error::Todo(_) => 24,
        }
    }

    /// A copy of the error, in memory of its own.
    pub fn clone(&self, alloc: Global) -> Result<Error, AllocError>
        ensures refusal { IfOk result (λ e. refusal_of e ≡ refusal_of self.now) }
        ensures reason { IfOk result (λ e. builtin_reason_of e ≡ builtin_reason_of self.now) }
    {
        match self {
            Error::Memory => Ok(Error::Memory),
            Error::NotRead => Ok(Error::NotRead),
            Error::NotWrite => Ok(Error::NotWrite),
            Error::NotReadWrite => Ok(Error::NotReadWrite),
            Error::PtrHandle => Ok(Error::PtrHandle),
            Error::PtrVecComp => Ok(Error::PtrVecComp),
            Error::WriteRefType(s, t) => {
                Ok(Error::WriteRefType(s.clone(alloc)?, t.clone(alloc)?))
            }
            Error::Component(t, name) => Ok(Error::Component(t.clone(alloc)?, name.clone()?)),
            Error::NotIndexable(t) => Ok(Error::NotIndexable(t.clone(alloc)?)),
            Error::OutOfBounds(i, t, n) => Ok(Error::OutOfBounds(*i, t.clone(alloc)?, *n)),
            Error::ConvOverflow(a, t) => Ok(Error::ConvOverflow(*a, t.clone(alloc)?)),
            Error::Unary(op, t) => Ok(Error::Unary(*op, t.clone(alloc)?)),
            Error::Binary(op, s, t) => Ok(Error::Binary(*op, s.clone(alloc)?, t.clone(alloc)?)),
            Error::CompwiseBinary(s, t) => {
                Ok(Error::CompwiseBinary(s.clone(alloc)?, t.clone(alloc)?))
            }
            Error::AddOverflow => Ok(Error::AddOverflow),
            Error::SubOverflow => Ok(Error::SubOverflow),
            Error::MulOverflow => Ok(Error::MulOverflow),
            Error::DivByZero => Ok(Error::DivByZero),
            Error::RemZeroDiv => Ok(Error::RemZeroDiv),
            Error::ShlOverflow(places, a) => Ok(Error::ShlOverflow(*places, *a)),
            Error::ShrOverflow(places, a) => Ok(Error::ShrOverflow(*places, *a)),
            Error::ParamType(s, t) => Ok(Error::ParamType(s.clone(alloc)?, t.clone(alloc)?)),
            Error::Builtin(reason) => Ok(Error::Builtin(*reason)),
            Error::Todo(name) => Ok(Error::Todo(*name)),
        }
    }
}
