//! The instructions of a machine.

use wgsl_types::{BinaryOperator, LiteralInstance};

/// A builtin function of two values.
#[derive(Clone, Copy)]
pub(crate) enum Function {
    Min,
    Max,
    Dot,
}

/// What is done in a step. Registers, which hold values, and handles, which are references to memory, have numbers; the
/// first number of an instruction is that of what it changes.
#[derive(Clone, Copy)]
pub(crate) enum Instruction {
    /// A number into a register.
    Literal(usize, LiteralInstance),
    /// A handle of the part of a handle that a register counts.
    Index(usize, usize, usize),
    /// A handle of the member of a handle.
    Member(usize, usize, &'static str),
    /// What a handle names into a register.
    Read(usize, usize),
    /// A register into what a handle names.
    Write(usize, usize),
    /// What a handle names into what another names.
    Copy(usize, usize),
    /// A pointer to what a handle names into a register.
    Pointer(usize, usize),
    /// A pointer to the part of a handle that a register counts into a register.
    PartPointer(usize, usize, usize),
    /// The operator on two registers.
    Operator(usize, BinaryOperator, usize, usize),
    /// The function of two registers.
    Function(usize, Function, usize, usize),
    /// A register between two others.
    Clamp(usize, usize, usize, usize),
    /// The second of two registers where a third is true, else the first.
    Select(usize, usize, usize, usize),
    /// What the atomic held that a register points to, to which another register is added.
    AtomicAdd(usize, usize, usize),
    /// The length of the array that a register points to.
    ArrayLength(usize, usize),
}
