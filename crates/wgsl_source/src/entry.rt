//! Functions by which a host runs a module (WGSL: entry points; shader stages).

use crate::expression::Span;

/// The stage that an entry point is of (WGSL: shader stages).
#[derive(Clone, Copy, Debug, PartialEq, Eq)]
pub enum EntryStage {
    Vertex,
    Fragment,
    Compute,
}

/// An entry point: its stage, and the expressions of its workgroup's size, where they are given (WGSL: entry points;
/// workgroup_size).
#[derive(Clone, Copy, Debug, PartialEq, Eq)]
pub struct DeclaredEntry {
    pub stage: EntryStage,
    pub workgroup_size: [Option<Span>; 3],
}
