//! Calls of the builtin functions of memory, by a name that a row has.

use wgsl_rules::AccessMode;
use wgsl_samples::operands::Sample;

mod calls;
mod lists;
mod memory;
mod plain;
mod rows;
mod sorts;
mod steps;

pub(super) use calls::{changed, length, loaded, stored};
pub(super) use rows::{accessed, assert_rows, assert_steps};

/// A change of an atomic.
#[derive(Clone, Copy, Debug, PartialEq, Eq)]
pub(super) enum Change {
    Add,
    Sub,
    Max,
    Min,
    And,
    Or,
    Xor,
    Exchange,
}

/// A builtin function of memory, with its arguments behind the pointer.
#[derive(Clone, Copy, Debug, PartialEq, Eq)]
pub(super) enum OnMemory {
    Length,
    Load,
    Store(Sample),
    Change(Change, Sample),
    /// With the comparand and the new value.
    CompareExchange(Sample, Sample),
}

/// What a pointer of a row points to: the member of the name, where it is not empty, and then the indices, with
/// values of the type that the sample has.
#[derive(Clone, Copy, Debug, PartialEq, Eq)]
pub(super) struct Place {
    pub name: &'static str,
    pub indices: &'static [usize],
    pub like: Sample,
    pub access: AccessMode,
}
