//! The arguments whose numbers a host goes by: of attributes (WGSL: binding; group; id; workgroup_size), and the counts
//! of arrays of bindings.

use crate::type_words::count_tokens;
use std::alloc::{AllocError, Global};
use std::ops::Range;
use wgsl_source::{PieceKind, Reading};

/// What such a number is: of the sizes of a workgroup the one of this place.
#[derive(Clone, Copy, Debug, PartialEq, Eq)]
pub(crate) enum Role {
    Group,
    Binding,
    Id,
    Size(usize),
    Count,
}

/// An argument of the declaration of this number: its first token, how many it has, and its bytes.
#[derive(Clone, Copy)]
pub(crate) struct Argument {
    pub(crate) declaration: usize,
    pub(crate) role: Role,
    pub(crate) token: usize,
    pub(crate) tokens: usize,
    pub(crate) start: usize,
    pub(crate) end: usize,
}

/// Those of all declarations, in the order of the source.
pub(crate) fn arguments_in(
    alloc: Global,
    reading: &Reading<'_>,
) -> Result<Vec<Argument>, AllocError> {
    let mut found = Vec::new(alloc);
    for piece in reading.pieces() {
        if let PieceKind::Declaration(declaration) = piece.kind {
            add_arguments(&mut found, reading, declaration, piece.start)?;
            if let Some(Range { start, end }) = count_tokens(reading, declaration) {
                add(&mut found, reading, declaration, Role::Count, start, end)?;
            }
        }
    }
    Ok(found)
}

// Those of the attributes that stand between the first token of a declaration and its name.
fn add_arguments(
    found: &mut Vec<Argument>,
    reading: &Reading<'_>,
    declaration: usize,
    first: usize,
) -> Result<(), AllocError> {
    let name = reading.name(declaration);
    let mut next = first;
    for token in first..name {
        if token == next {
            next = token.saturating_add(1);
            if reading.word(token) == "@" {
                next = add_attribute(found, reading, declaration, next)?;
            }
        }
    }
    Ok(())
}

// Those of the attribute of this name, and the token behind it.
fn add_attribute(
    found: &mut Vec<Argument>,
    reading: &Reading<'_>,
    declaration: usize,
    name: usize,
) -> Result<usize, AllocError> {
    let open = name.saturating_add(1);
    if reading.word(open) != "(" {
        return Ok(open);
    }
    let mut first = open.saturating_add(1);
    let mut place = 0usize;
    let mut depth = 0usize;
    for token in first..usize::MAX {
        let word = reading.word(token);
        let is_end = word.is_empty() || depth == 0 && word == ")";
        if is_end || depth == 0 && word == "," {
            if let Some(role) = role_of(reading.word(name), place) {
                add(found, reading, declaration, role, first, token)?;
            }
            first = token.saturating_add(1);
            place = place.saturating_add(1);
        }
        if is_end {
            break;
        }
        depth = depth_behind(word, depth);
    }
    Ok(first)
}

// How deep brackets stand behind this word, which stand so deep before it.
fn depth_behind(word: &str, depth: usize) -> usize {
    match word {
        "(" | "[" => depth.saturating_add(1),
        ")" | "]" => depth.saturating_sub(1),
        _ => depth,
    }
}

fn role_of(name: &str, place: usize) -> Option<Role> {
    match (name, place) {
        ("group", 0) => Some(Role::Group),
        ("binding", 0) => Some(Role::Binding),
        ("id", 0) => Some(Role::Id),
        ("workgroup_size", 0..=2) => Some(Role::Size(place)),
        (_, _) => None,
    }
}

// The argument that has these tokens, the end one not; a comma may stand at the end of a list.
fn add(
    found: &mut Vec<Argument>,
    reading: &Reading<'_>,
    declaration: usize,
    role: Role,
    first: usize,
    end: usize,
) -> Result<(), AllocError> {
    if first >= end {
        return Ok(());
    }
    found.push(Argument {
        declaration,
        role,
        token: first,
        tokens: end.saturating_sub(first),
        start: reading.extent(first).start,
        end: reading.extent(end.saturating_sub(1)).end,
    })?;
    Ok(())
}
