//! Sources as evaluators walk them: declarations, the steps of their expressions, and names.

ghost use Rattle.std.specs.Prelude.{◌≡◌, ◌≤◌, ◌↔◌, [], None, All, IfOk, IfSome, OnOk, IsTrue, Contains, map, length, slice_get, unwrap_or};
ghost use Rattle.wgsl_source.specs.Blanks.{IsCovered};
ghost use Rattle.wgsl_source.specs.Faults.{IsTold, KeepsFaults};
ghost use Rattle.wgsl_source.specs.Identifiers.{IsNameOrTold};
ghost use Rattle.wgsl_source.specs.Numbers.{Means};
ghost use Rattle.wgsl_source.specs.Orders.{IsOrderOf};
ghost use Rattle.wgsl_source.specs.Pieces.{IsPiece, Reach, assertions_in, declarations_in, numbers};
ghost use Rattle.wgsl_source.specs.Readings.{extent_in, extent_at, word_at, steps_in, steps_at, first_named};

use crate::cursor::{Cursor, Stop};
use crate::declaration::{Declaration, Kind, Module, read_module};
use crate::entry::DeclaredEntry;
use crate::expression::{Expressions, Span, Step};
use crate::fault::{Expected, Fault, Faults};
use crate::identifier::check_names;
use crate::lexer::{Lexed, tokens_of};
use crate::literal::{Literal, literal_of};
use crate::name_table::NameTable;
use crate::order::{names_of, order_of};
use crate::piece::Piece;
use crate::templates::mark_templates;
use crate::token::Token;
use std::alloc::{AllocError, Global};
use std::collections::BTreeSet;
use std::marker::Model;
use wgsl_rules::{AccessMode, AddressSpace};

/// The declarations of a source, its expressions as steps, and all that is wrong in its form.
///
/// Tokens, steps, declarations and members go by numbers from 0. Numbers that there are not stand
/// for the end of the source, for no steps and for no declaration.
#[derive(Debug, Drop)]
pub struct Reading<'a> {
    text: &'a str,
    tokens: Vec<Token>,
    module: Module,
    names: NameTable,
    order: Vec<usize>,
    /// Where the operators begin that the grammar refuses.
    refused: BTreeSet<usize>,
    faults: Vec<Fault>,
}

// What it shows.
impl<'a> Model for Reading<'a> {
    ghost use Rattle.std.specs.Prelude.{◌≡◌, ℕ, List, length, map};
    ghost use Rattle.wgsl_source.specs.NameTables.{named_in};
    ghost use Rattle.wgsl_source.specs.Readings.{Outline, extent_in, declared_in, entry_in, id_in, field_in, found_by_if, first_of};

    ghost Value = { Outline };

    ghost view = { λ r. record {
      text = r.text.now;
      tokens = map extent_in r.tokens.items;
      declared = map (λ d. declared_in d.kind) r.module.declarations.items;
      entries = map (λ d. entry_in d.kind) r.module.declarations.items;
      ids = map (λ d. id_in d.kind) r.module.declarations.items;
      spans = map (λ d. d.steps) r.module.declarations.items;
      names = map (λ d. d.name) r.module.declarations.items;
      found_by = found_by_if (length r.names.maps.items) (map (λ d. d.name) r.module.declarations.items);
      fields = map field_in r.module.members.items;
      steps = r.module.steps.items;
      asserts = r.module.asserts.items;
      pieces = r.module.pieces.items;
      order = r.order.items;
      refused = r.refused.keys;
      faults = r.faults.items;
    } };

    ghost invariant = { λ r. (name : List ℕ) → named_in r.names name ≡ first_of r.text.now (map extent_in r.tokens.items)
        (found_by_if (length r.names.maps.items) (map (λ d. d.name) r.module.declarations.items)) name };
}

/// Bytes of a source.
#[derive(Clone, Copy, Debug, PartialEq, Eq)]
pub struct Extent {
    pub start: usize,
    pub end: usize,
}

/// What is declared, with the expressions of its type and of its value where they are given.
#[derive(Clone, Copy, Debug, PartialEq, Eq)]
pub enum Declared {
    /// A structure with the members of these numbers, the end one not.
    Struct {
        first: usize,
        end: usize,
    },
    Alias(Span),
    Const {
        ty: Option<Span>,
        value: Span,
    },
    Override {
        ty: Option<Span>,
        value: Option<Span>,
    },
    Variable(DeclaredVariable),
    Function,
}

/// A variable of a module: its type, its address space and its access mode, where they are given, and
/// the numbers by which a host names it (WGSL: variable declarations; resource interface).
#[derive(Clone, Copy, Debug, PartialEq, Eq)]
pub struct DeclaredVariable {
    pub ty: Option<Span>,
    pub space: Option<AddressSpace>,
    pub access: Option<AccessMode>,
    /// Whether it is in the space of immediate data (`immediate`, or `push_constant`), which is no `AddressSpace`.
    pub is_immediate: bool,
    pub group: Option<Span>,
    pub binding: Option<Span>,
}

/// A member of a structure: the token that names it, its type, and its attributes.
#[derive(Clone, Copy, Debug, PartialEq, Eq)]
pub struct Field {
    pub name: usize,
    pub ty: Span,
    pub size: Option<Span>,
    pub align: Option<Span>,
}

impl<'a> Reading<'a> {
    /// The declarations of a module. One with a fault is left out, and those behind it are read.
    ///
    /// The only error is that memory is wanting.
    pub fn of_module(alloc: Global, text: &'a str) -> Result<Reading<'a>, AllocError>
        ensures text { IfOk result (λ reading. reading.text ≡ text.entry.now) }
        ensures found { IfOk result (λ reading. reading.found_by ≡ reading.names) }
        ensures faults { IfOk result (λ reading. length reading.faults ≤ 100) }
        ensures tokens { IfOk result (λ reading. IsCovered reading.text reading.tokens reading.faults) }
        ensures pieces { IfOk result (λ reading. Reach 0 reading.pieces (length reading.tokens)) }
        ensures holds { IfOk result (λ reading. All (IsPiece reading.text reading.tokens reading.names reading.faults) reading.pieces) }
        ensures declarations { IfOk result (λ reading. declarations_in reading.pieces ≡ numbers (length reading.declared)) }
        ensures assertions { IfOk result (λ reading. assertions_in reading.pieces ≡ numbers (length reading.asserts)) }
        ensures names { IfOk result (λ reading. All (IsNameOrTold reading.text reading.tokens reading.faults) reading.names) }
        ensures members { IfOk result (λ reading. All (λ f. IsNameOrTold reading.text reading.tokens reading.faults f.name) reading.fields) }
        ensures order { IfOk result (λ reading. IsOrderOf reading.order (length reading.declared)) }
    {
        let mut faults = Faults::new(alloc);
        let tokens = marked_tokens(alloc, text, &mut faults)?;
        let cursor = Cursor::new(text, tokens.as_slice());
        let module = read_module(alloc, cursor, &mut faults)?;
        check_names(&module, cursor, &mut faults)?;
        let names = names_of(alloc, &module, cursor, &mut faults)?;
        let order = order_of(alloc, &module, cursor, &names, &mut faults)?;
        let refused = add_refused(alloc, &module, &mut faults)?;
        Ok(Reading {
            text,
            tokens,
            module,
            names,
            order,
            refused,
            faults: faults.into_sorted()?,
        })
    }

    /// One expression, as the value of the only declaration.
    ///
    /// The only error is that memory is wanting.
    pub fn of_expression(alloc: Global, text: &'a str) -> Result<Reading<'a>, AllocError>
        ensures text { IfOk result (λ reading. reading.text ≡ text.entry.now) }
        ensures found { IfOk result (λ reading. reading.found_by ≡ []) }
        ensures tokens { IfOk result (λ reading. IsCovered reading.text reading.tokens reading.faults) }
        ensures pieces { IfOk result (λ reading. reading.pieces ≡ []) }
        ensures faults { IfOk result (λ reading. length reading.faults ≤ 100) }
    {
        let mut faults = Faults::new(alloc);
        let tokens = marked_tokens(alloc, text, &mut faults)?;
        let cursor = Cursor::new(text, tokens.as_slice());
        let module = read_expression(alloc, cursor, &mut faults)?;
        let refused = add_refused(alloc, &module, &mut faults)?;
        let order = vec![in alloc; 0; module.declarations.len()]?;
        Ok(Reading {
            text,
            tokens,
            module,
            names: NameTable::empty(alloc),
            order,
            refused,
            faults: faults.into_sorted()?,
        })
    }

    fn cursor(&self) -> Cursor<'_>
        ensures text { result.text.now ≡ self.now.text }
        ensures tokens { map extent_in result.tokens.now ≡ self.now.tokens }
    {
        Cursor::new(self.text, self.tokens.as_slice())
    }

    /// How many declarations there are.
    pub fn len(&self) -> usize
        ensures { result ≡ length self.now.declared }
    {
        self.module.declarations.len()
    }

    /// Whether nothing is declared.
    pub fn is_empty(&self) -> bool
        ensures { IsTrue result ↔ (length self.now.declared ≡ 0) }
    {
        self.len() == 0
    }

    /// What a declaration declares.
    pub fn declared(&self, number: usize) -> Option<Declared>
        ensures { result ≡ slice_get self.now.declared number }
    {
        let declaration = self.module.declarations.get(number)?;
        match declaration.kind {
            Kind::Struct { first, end } => Some(Declared::Struct { first, end }),
            Kind::Alias(ty) => Some(Declared::Alias(ty)),
            Kind::Variable(variable) => Some(Declared::Variable(DeclaredVariable {
                ty: variable.ty,
                space: variable.space,
                access: variable.access,
                is_immediate: variable.is_immediate,
                group: variable.group,
                binding: variable.binding,
            })),
            Kind::Function(_) => Some(Declared::Function),
            Kind::Constant(ty, value) => Some(Declared::Const { ty, value }),
            Kind::Override(ty, value, _) => Some(Declared::Override { ty, value }),
        }
    }

    /// The entry point that a declaration is, if it is a function with the attribute of a stage.
    pub fn entry(&self, number: usize) -> Option<DeclaredEntry>
        ensures { result ≡ unwrap_or (slice_get self.now.entries number) None }
    {
        match self.module.declarations.get(number)?.kind {
            Kind::Function(entry) => entry,
            _ => None,
        }
    }

    /// The expression of the `@id` of an override, where one is given.
    pub fn id(&self, number: usize) -> Option<Span>
        ensures { result ≡ unwrap_or (slice_get self.now.ids number) None }
    {
        match self.module.declarations.get(number)?.kind {
            Kind::Override(_, _, id) => id,
            _ => None,
        }
    }

    /// The steps of a declaration, with those of its attributes.
    pub(crate) fn steps_of(&self, number: usize) -> &[Step]
        ensures { result.now ≡ steps_at self.now number }
    {
        match self.module.declarations.get(number) {
            Some(declaration) => self.steps(declaration.steps),
            None => &[],
        }
    }

    /// The token that names a declaration.
    pub fn name(&self, number: usize) -> usize
        ensures { result ≡ unwrap_or (slice_get self.now.names number) (length self.now.tokens) }
    {
        match self.module.declarations.get(number) {
            Some(declaration) => declaration.name,
            None => self.tokens.len(),
        }
    }

    /// A member of a structure.
    pub fn field(&self, number: usize) -> Option<Field>
        ensures { result ≡ slice_get self.now.fields number }
    {
        let member = self.module.members.get(number)?;
        Some(Field {
            name: member.name,
            ty: member.ty,
            size: member.size,
            align: member.align,
        })
    }

    /// What the module is made of, from its first token to its last: each piece begins where the one
    /// before it ends. An expression has none.
    pub fn pieces(&self) -> &[Piece]
        ensures { result.now ≡ self.now.pieces }
    {
        self.module.pieces.as_slice()
    }

    /// The numbers of the declarations, each behind those that it names.
    pub fn order(&self) -> &[usize]
        ensures { result.now ≡ self.now.order }
    {
        self.order.as_slice()
    }

    /// The conditions of the `const_assert`s at the level of the module.
    pub fn asserts(&self) -> &[Span]
        ensures { result.now ≡ self.now.asserts }
    {
        self.module.asserts.as_slice()
    }

    /// The steps of an expression.
    pub fn steps(&self, span: Span) -> &[Step]
        ensures { result.now ≡ steps_in self.now span }
    {
        self.module.steps.get(span.start..span.end).unwrap_or(&[])
    }

    /// The declaration of a name. Of two with one name it is the first.
    pub fn number_of(&self, name: &str) -> Option<usize>
        ensures { result ≡ first_named self.now name.now }
    {
        self.names.get(name)
    }

    /// The text of a token.
    pub fn word(&self, token: usize) -> &str
        ensures { result.now ≡ word_at self.now token }
    {
        self.cursor().text_at(token)
    }

    /// The bytes of a token.
    pub fn extent(&self, token: usize) -> Extent
        ensures { result ≡ extent_at self.now token }
    {
        let token = self.cursor().token_at(token);
        Extent {
            start: token.start,
            end: token.end,
        }
    }

    /// What a numeric literal stands for.
    pub fn literal(&self, token: usize) -> Literal
        ensures { Means (word_at self.now token) result }
    {
        literal_of(self.word(token))
    }

    /// Whether the operator of this token is one that the grammar refuses there.
    pub fn is_refused(&self, token: usize) -> bool
        ensures { IsTrue result ↔ Contains self.now.refused (extent_at self.now token).start }
    {
        self.refused.contains(&self.extent(token).start)
    }

    /// What is wrong in the form of the source, in the order of the places.
    pub fn faults(&self) -> &[Fault]
        ensures { result.now ≡ self.now.faults }
    {
        self.faults.as_slice()
    }
}

fn marked_tokens(alloc: Global, text: &str, faults: &mut Faults) -> Result<Vec<Token>, AllocError>
    ensures { IfOk result (λ tokens. IsCovered text.entry.now (map extent_in tokens.items) faults.new.faults.items) }
{
    let Lexed {
        mut tokens,
        faults: found,
    } = tokens_of(alloc, text)?;
    tell(found.as_slice(), faults)?;
    mark_templates(alloc, &mut tokens)?;
    Ok(tokens)
}

fn tell(found: &[Fault], faults: &mut Faults) -> Result<(), AllocError>
    ensures { OnOk result (All (IsTold faults.new.faults.items) found.now) }
{
    for fault in found {
        faults.add(*fault)?;
    }
    Ok(())
}

// Tells what the grammar refuses, and answers where it begins.
fn add_refused(
    alloc: Global,
    module: &Module,
    faults: &mut Faults,
) -> Result<BTreeSet<usize>, AllocError>
    ensures { KeepsFaults faults.old.faults.items faults.new.faults.items }
{
    let mut refused = BTreeSet::new(alloc);
    for fault in &module.refused {
        faults.add(*fault)?;
        refused.insert(fault.start)?;
    }
    Ok(refused)
}

fn read_expression(
    alloc: Global,
    cursor: Cursor<'_>,
    faults: &mut Faults,
) -> Result<Module, AllocError>
    ensures pieces { IfOk result (λ m. m.pieces.items ≡ []) }
    ensures kept { KeepsFaults faults.old.faults.items faults.new.faults.items }
{
    let mut expressions = Expressions::new(alloc, cursor);
    let mut declarations = Vec::new(alloc);
    match whole_expression(&mut expressions) {
        Ok(span) => declarations.push(declaration_of(span))?,
        Err(Stop::Memory) => return Err(AllocError),
        Err(Stop::At(token, reason)) => faults.add(cursor.fault_at(token, reason))?,
    }
    let (steps, refused) = expressions.into_steps();
    Ok(Module {
        declarations,
        members: Vec::new(alloc),
        steps,
        asserts: Vec::new(alloc),
        refused,
        pieces: Vec::new(alloc),
    })
}

// The expression, behind which nothing stands.
fn whole_expression(expressions: &mut Expressions<'_>) -> Result<Span, Stop> {
    let span = expressions.expression()?;
    if expressions.cursor.is_at_end() {
        Ok(span)
    } else {
        Err(expressions.cursor.expected(Expected::End))
    }
}

fn declaration_of(span: Span) -> Declaration {
    Declaration {
        name: span.token,
        kind: Kind::Constant(None, span),
        steps: span,
    }
}
