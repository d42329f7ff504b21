//! What a module is made of, one piece behind the other.

use crate::fault::Reason;

/// What a piece of a module is.
#[derive(Clone, Copy, Debug, PartialEq, Eq)]
pub enum PieceKind {
    /// The declaration of this number.
    Declaration(usize),
    /// The `const_assert` of this number.
    Assertion(usize),
    /// `enable`, `requires` or `diagnostic` with what belongs to it.
    Directive,
    /// A `;` that ends nothing.
    Semicolon,
    /// What is passed over for a fault, which is told at the token of this number: one of the piece, or
    /// the next one behind it.
    Fault(usize, Reason),
}

/// The tokens that were read as one piece of a module, the end one not.
#[derive(Clone, Copy, Debug, PartialEq, Eq)]
pub struct Piece {
    pub start: usize,
    pub end: usize,
    pub kind: PieceKind,
}
