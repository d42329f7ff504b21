//! What is wrong in a source.

ghost use Rattle.std.specs.Prelude.{◌≡◌, ◌≤◌, [], ◌∷◌, ◌++◌, nat_lt, if◌then◌else◌, Some, IfOk, OnOk, OnErr, vec_len};
ghost use Rattle.std.specs.List.Sorted.{IsPermutation};
ghost use Rattle.wgsl_source.specs.Faults.{IsTold, KeepsFaults};
ghost use Rattle.wgsl_source.specs.Texts.{expected_text, reason_text};

use std::alloc::{AllocError, Global};
use std::fmt;

/// What a place in a source asks for.
#[derive(Clone, Copy, Debug, PartialEq, Eq)]
pub enum Expected {
    /// A declaration at the level of the module.
    Declaration,
    /// An identifier.
    Name,
    /// A type or a value.
    Expression,
    /// An address space.
    AddressSpace,
    /// An access mode.
    AccessMode,
    /// This character.
    Symbol(char),
    /// The `>` that ends a template list.
    TemplateEnd,
    /// The end of the source.
    End,
}

impl fmt::Display for Expected {
    ghost output = { λ expected. Some (expected_text expected) };

    fn fmt<W: fmt::Write>(&self, f: &mut fmt::Formatter<W>) -> fmt::Result {
        match self {
            Expected::Declaration => f.write_str("a declaration"),
            Expected::Name => f.write_str("a name"),
            Expected::Expression => f.write_str("a type or a value"),
            Expected::AddressSpace => f.write_str("an address space"),
            Expected::AccessMode => f.write_str("an access mode"),
            Expected::Symbol(symbol) => write!(f, "`{symbol}`"),
            Expected::TemplateEnd => f.write_str("`>`"),
            Expected::End => f.write_str("the end"),
        }
    }
}

/// Why a source is not read as it stands.
#[derive(Clone, Copy, Debug, PartialEq, Eq)]
pub enum Reason {
    /// Something else stands there.
    Expected(Expected),
    /// A comment has no end.
    OpenComment,
    /// A line is for a preprocessor.
    Preprocessor,
    /// A preprocessor has to put a text there.
    Placeholder,
    /// A module is imported.
    Import,
    /// More brackets stand inside each other than are followed.
    TooDeep,
    /// Another declaration or attribute has the name.
    DuplicateName,
    /// A function is an entry point of another stage already.
    SecondStage,
    /// A declaration needs itself.
    ContainsItself,
    /// Two operators stand beside each other that need brackets.
    Mixed,
    /// Two characters make one token, which is no operator there.
    Double,
    /// A name is a keyword.
    Keyword,
    /// A name is a reserved word.
    Reserved,
    /// A name is `_`, or begins with two of it.
    NoIdentifier,
}

impl fmt::Display for Reason {
    ghost output = { λ reason. Some (reason_text reason) };

    fn fmt<W: fmt::Write>(&self, f: &mut fmt::Formatter<W>) -> fmt::Result {
        match self {
            Reason::Expected(expected) => write!(f, "expected {expected}"),
            Reason::OpenComment => f.write_str("this comment has no end"),
            Reason::Preprocessor => {
                f.write_str("WGSL has no preprocessor, and this line is passed over")
            }
            Reason::Placeholder => {
                f.write_str("this is no WGSL: a preprocessor has to put a text here")
            }
            Reason::Import => f.write_str("imports are not followed"),
            Reason::TooDeep => f.write_str("too many brackets inside each other"),
            Reason::DuplicateName => f.write_str("this name is there already"),
            Reason::SecondStage => f.write_str("this function is of another stage already"),
            Reason::ContainsItself => f.write_str("this needs itself"),
            Reason::Mixed => f.write_str("this operator and the one before it need brackets"),
            Reason::Double => f.write_str("two of these beside each other are no operators here"),
            Reason::Keyword => f.write_str("this is a keyword"),
            Reason::Reserved => f.write_str("this word is reserved"),
            Reason::NoIdentifier => f.write_str("this is no identifier"),
        }
    }
}

/// A fault in a source: the bytes that it stands at, and what is wrong there. Where nothing is
/// left of the source the bytes are none.
#[derive(Clone, Copy, Debug, PartialEq, Eq)]
pub struct Fault {
    pub start: usize,
    pub end: usize,
    pub reason: Reason,
}

/// The most faults that are told of a source.
const FAULTS: usize = 100;

/// The faults that were found, in the order in which they were.
#[derive(Drop)]
pub(crate) struct Faults {
    faults: Vec<Fault>,
    ghost bounded: { vec_len faults ≤ 100 },
}

impl Faults {
    pub(crate) fn new(alloc: Global) -> Self {
        Faults {
            faults: Vec::new(alloc),
        }
    }

    /// One more, where there are not too many.
    pub(crate) fn add(&mut self, fault: Fault) -> Result<(), AllocError>
        ensures ok { OnOk result (self.new.faults.items ≡
            (if nat_lt (vec_len self.old.faults) 100 then self.old.faults.items ++ fault ∷ [] else self.old.faults.items)) }
        ensures err { OnErr result (self.new.faults.items ≡ self.old.faults.items) }
        ensures told { OnOk result (IsTold self.new.faults.items fault) }
        ensures kept { KeepsFaults self.old.faults.items self.new.faults.items }
    {
        if self.faults.len() < FAULTS {
            self.faults.push(fault)?;
        }
        Ok(())
    }

    /// All of them, as they stand in the source.
    pub(crate) fn into_sorted(self) -> Result<Vec<Fault>, AllocError>
        ensures bounded { IfOk result (λ faults. vec_len faults ≤ 100) }
        ensures same { IfOk result (λ faults. IsPermutation self.faults.items faults.items) }
    {
        let mut faults = self.faults;
        faults.sort_by_key(|fault| fault.start)?;
        Ok(faults)
    }
}
