//! Reads the form of a WGSL source: its declarations, the steps of their types and values, and what
//! is wrong in it. What these stand for is not said here, but for literals and for the language's names.
#![tactic(auto)]

mod bytes;
mod cursor;
mod declaration;
mod directive;
mod entry;
mod expression;
mod fault;
mod generator;
mod identifier;
mod item;
mod lexer;
mod literal;
mod mixes;
mod module;
mod name_table;
mod names;
mod order;
mod piece;
mod place;
mod places;
mod recovery;
mod role;
mod scopes;
mod templates;
mod token;
mod uses;

pub use entry::{DeclaredEntry, EntryStage};
pub use expression::{Callee, Span, Step};
pub use fault::{Expected, Fault, Reason};
pub use literal::Literal;
pub use module::{Declared, DeclaredVariable, Extent, Field, Reading};
pub use names::{Generator, Predeclared, Scalar, language_name};
pub use piece::{Piece, PieceKind};
pub use place::{Lines, Place};
