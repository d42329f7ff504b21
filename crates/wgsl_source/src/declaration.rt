//! Reads the declarations of a module (WGSL: declaration and scope).

ghost use Rattle.std.specs.Prelude.{◌≡◌, ◌+◌, ◌<◌, ◌≤◌, List, [], ◌∷◌, ◌++◌, IfOk, length, map, max, min};
ghost use Rattle.wgsl_source.specs.Declarations.{IsItem, IsRead};
ghost use Rattle.wgsl_source.specs.Faults.{KeepsFaults};
ghost use Rattle.wgsl_source.specs.declared.fault.Fault.{Fault};

use crate::cursor::{Cursor, Stop};
use crate::entry::{DeclaredEntry, EntryStage};
use crate::expression::{Expressions, Span, Step};
use crate::fault::{Fault, Faults};
use crate::item::Item;
use crate::piece::{Piece, PieceKind};
use std::alloc::{AllocError, Global};
use wgsl_rules::{AccessMode, AddressSpace};

/// What stands before a declaration or a member, in `@`.
#[derive(Clone, Copy, Debug)]
pub(crate) struct Attributes {
    pub(crate) align: Option<Span>,
    pub(crate) size: Option<Span>,
    pub(crate) group: Option<Span>,
    pub(crate) binding: Option<Span>,
    pub(crate) id: Option<Span>,
    pub(crate) stage: Option<EntryStage>,
    pub(crate) workgroup_size: [Option<Span>; 3],
}

/// A member of a structure: its token, its type, and its attributes.
#[derive(Clone, Copy, Debug)]
pub(crate) struct Member {
    pub(crate) name: usize,
    pub(crate) ty: Span,
    pub(crate) size: Option<Span>,
    pub(crate) align: Option<Span>,
}

/// A variable of a module.
#[derive(Clone, Copy, Debug)]
pub(crate) struct Variable {
    pub(crate) space: Option<AddressSpace>,
    pub(crate) access: Option<AccessMode>,
    /// Whether it is in the space of immediate data, which is none of the others.
    pub(crate) is_immediate: bool,
    pub(crate) ty: Option<Span>,
    pub(crate) group: Option<Span>,
    pub(crate) binding: Option<Span>,
}

/// What is declared.
#[derive(Clone, Copy, Debug)]
pub(crate) enum Kind {
    /// A structure of these members, among those of the source.
    Struct { first: usize, end: usize },
    /// Another name for a type.
    Alias(Span),
    /// A `const`: the type, where one is given, and the value.
    Constant(Option<Span>, Span),
    /// An `override`: the type, the value that it has by default and its number, where they are given.
    Override(Option<Span>, Option<Span>, Option<Span>),
    Variable(Variable),
    /// A function, which may be an entry point.
    Function(Option<DeclaredEntry>),
}

/// A declaration: the token that names it, and all its steps.
#[derive(Clone, Copy, Debug)]
pub(crate) struct Declaration {
    pub(crate) name: usize,
    pub(crate) kind: Kind,
    pub(crate) steps: Span,
}

/// The declarations of a source, in order.
#[derive(Debug, Drop)]
pub(crate) struct Module {
    pub(crate) declarations: Vec<Declaration>,
    pub(crate) members: Vec<Member>,
    pub(crate) steps: Vec<Step>,
    /// The conditions of the `const_assert`s.
    pub(crate) asserts: Vec<Span>,
    /// What the grammar of expressions refuses, where it is read all the same.
    pub(crate) refused: Vec<Fault>,
    pub(crate) pieces: Vec<Piece>,
}

impl Attributes {
    pub(crate) const NONE: Attributes = Attributes {
        align: None,
        size: None,
        group: None,
        binding: None,
        id: None,
        stage: None,
        workgroup_size: [None; 3],
    };

    /// The entry point that a function with them is, if it is one.
    pub(crate) fn entry(&self) -> Option<DeclaredEntry> {
        let stage = self.stage?;
        Some(DeclaredEntry {
            stage,
            workgroup_size: self.workgroup_size,
        })
    }
}

/// Reads declarations.
#[derive(Drop)]
struct Reader<'a> {
    expressions: Expressions<'a>,
    declarations: Vec<Declaration>,
    members: Vec<Member>,
    asserts: Vec<Span>,
    pieces: Vec<Piece>,
}

/// Reads all declarations of a text. Where one has a fault, reading goes on behind it.
pub(crate) fn read_module(
    alloc: Global,
    cursor: Cursor<'_>,
    faults: &mut Faults,
) -> Result<Module, AllocError>
    ensures read { IfOk result (λ m. IsRead cursor.entry m.pieces.items (map (λ d. d.name) m.declarations.items)
        (length m.asserts.items) faults.new.faults.items (length cursor.entry.tokens.now)) }
    ensures kept { KeepsFaults faults.old.faults.items faults.new.faults.items }
{
    let mut reader = Reader {
        expressions: Expressions::new(alloc, cursor),
        declarations: Vec::new(alloc),
        members: Vec::new(alloc),
        asserts: Vec::new(alloc),
        pieces: Vec::new(alloc),
    };
    let mut at = 0;
    while at < cursor.len() {
        at = reader.read_piece(cursor, at, faults)?;
    }
    Ok(reader.into_module())
}

impl<'a> Reader<'a> {
    fn into_module(self) -> Module
        ensures declarations { result.declarations.items ≡ self.entry.declarations.items }
        ensures asserts { result.asserts.items ≡ self.entry.asserts.items }
        ensures pieces { result.pieces.items ≡ self.entry.pieces.items }
    {
        let Reader {
            expressions,
            declarations,
            members,
            asserts,
            pieces,
        } = self;
        let (steps, refused) = expressions.into_steps();
        Module {
            declarations,
            members,
            steps,
            asserts,
            refused,
            pieces,
        }
    }

    // Reads the piece that begins at this token, and answers where the next one begins.
    fn read_piece(
        &mut self,
        cursor: Cursor<'a>,
        start: usize,
        faults: &mut Faults,
    ) -> Result<usize, AllocError>
        requires within { start < length cursor.tokens.now }
        requires read { IsRead cursor self.old.pieces.items (map (λ d. d.name) self.old.declarations.items)
            (length self.old.asserts.items) faults.old.faults.items start }
        ensures behind { IfOk result (λ end. (start < end) × (end ≤ length cursor.entry.tokens.now)) }
        ensures read { IfOk result (λ end. IsRead cursor.entry self.new.pieces.items (map (λ d. d.name) self.new.declarations.items)
            (length self.new.asserts.items) faults.new.faults.items end) }
        ensures kept { KeepsFaults faults.old.faults.items faults.new.faults.items }
    {
        self.expressions.cursor = cursor.moved_to(start);
        match self.expressions.item(&mut self.members) {
            Ok(item) => self.add(cursor, start, item),
            Err(Stop::Memory) => Err(AllocError),
            Err(Stop::At(token, reason)) => {
                self.expressions.cursor.recover(start);
                let end = self.end_of(cursor, start);
                let token = token.clamp(start, end);
                faults.add(cursor.fault_at(token, reason))?;
                self.add_piece(start, end, PieceKind::Fault(token, reason))
            }
        }
    }

    // Where the piece ends that begins at this token: behind it, and not behind the text.
    fn end_of(&self, cursor: Cursor<'a>, start: usize) -> usize
        requires { start < length cursor.tokens.now }
        ensures { result ≡ max (min self.now.expressions.cursor.at (length cursor.entry.tokens.now)) (start + 1) }
    {
        let end = self.expressions.cursor.position().min(cursor.len());
        end.max(start + 1)
    }

    // Keeps what was read from this token on, and answers where it ends.
    fn add(&mut self, cursor: Cursor<'a>, start: usize, item: Item) -> Result<usize, AllocError>
        requires within { start < length cursor.tokens.now }
        requires item { IsItem (record cursor { at = start }) self.old.expressions.cursor item }
        ensures behind { IfOk result (λ end. (start < end) × (end ≤ length cursor.entry.tokens.now)) }
        ensures read { (faults : List Fault) → IsRead cursor.entry self.old.pieces.items (map (λ d. d.name) self.old.declarations.items)
            (length self.old.asserts.items) faults start → IfOk result (λ end. IsRead cursor.entry self.new.pieces.items
            (map (λ d. d.name) self.new.declarations.items) (length self.new.asserts.items) faults end) }
    {
        let end = self.end_of(cursor, start);
        match item {
            Item::Declaration(declaration) => self.add_declaration(start, end, declaration),
            Item::Assertion(condition) => self.add_assertion(start, end, condition),
            Item::Directive => self.add_piece(start, end, PieceKind::Directive),
            Item::Semicolon => self.add_piece(start, end, PieceKind::Semicolon),
        }
    }

    fn add_declaration(
        &mut self,
        start: usize,
        end: usize,
        declaration: Declaration,
    ) -> Result<usize, AllocError>
        ensures { IfOk result (λ e. (e ≡ end) × (self.new.declarations.items ≡ self.old.declarations.items ++ declaration ∷ [])
            × (self.new.asserts.items ≡ self.old.asserts.items)
            × (self.new.pieces.items ≡ self.old.pieces.items ++
            record { start = start; end = end; kind = PieceKind.Declaration (length self.old.declarations.items) } ∷ [])) }
    {
        let number = self.declarations.len();
        self.declarations.push(declaration)?;
        self.add_piece(start, end, PieceKind::Declaration(number))
    }

    fn add_assertion(
        &mut self,
        start: usize,
        end: usize,
        condition: Span,
    ) -> Result<usize, AllocError>
        ensures { IfOk result (λ e. (e ≡ end) × (self.new.declarations.items ≡ self.old.declarations.items)
            × (self.new.asserts.items ≡ self.old.asserts.items ++ condition ∷ [])
            × (self.new.pieces.items ≡ self.old.pieces.items ++
            record { start = start; end = end; kind = PieceKind.Assertion (length self.old.asserts.items) } ∷ [])) }
    {
        let number = self.asserts.len();
        self.asserts.push(condition)?;
        self.add_piece(start, end, PieceKind::Assertion(number))
    }

    fn add_piece(&mut self, start: usize, end: usize, kind: PieceKind) -> Result<usize, AllocError>
        ensures { IfOk result (λ e. (e ≡ end) × (self.new.declarations.items ≡ self.old.declarations.items)
            × (self.new.asserts.items ≡ self.old.asserts.items)
            × (self.new.pieces.items ≡ self.old.pieces.items ++ record { start = start; end = end; kind = kind } ∷ [])) }
    {
        self.pieces.push(Piece { start, end, kind })?;
        Ok(end)
    }
}
