//! Drawings of layouts: a row of 16 bytes a line.

use crate::rows::{MemberRow, Row, rows_of};
use crate::structures::{Asked, Laid, innermost, structure};
use std::alloc::{AllocError, Global};
use wgsl_eval::Item;
use wgsl_rules::StructType;

/// How many bytes a line has.
const LINE: u64 = 16;

/// What has bytes of its own: from where to where, and its place among the letters.
#[derive(Clone, Copy)]
struct Leaf<'a> {
    start: u64,
    end: u64,
    letter: u8,
    row: MemberRow<'a>,
}

/// A drawing of each structure that is asked for, with an empty line between.
pub(crate) fn add_bytes(
    alloc: Global,
    text: &mut String,
    asked: Asked<'_>,
) -> Result<(), AllocError> {
    for item in asked.items {
        if let Some(ty) = drawn(asked, item) {
            if !text.is_empty() {
                text.push('\n')?;
            }
            add_struct(alloc, text, ty)?;
        }
    }
    Ok(())
}

// A structure that is asked for. A variable is one where it is named.
fn drawn<'a>(asked: Asked<'a>, item: &'a Item) -> Option<&'a StructType> {
    match asked.laid(item)? {
        Laid::Struct(ty) => Some(ty),
        Laid::Variable(_, variable) if asked.is_by_name() => innermost(&variable.ty),
        Laid::Variable(_, _) => None,
    }
}

fn add_struct(alloc: Global, text: &mut String, ty: &StructType) -> Result<(), AllocError> {
    let name = &ty.name;
    writeln!(text, "struct {name}")?;
    let rows = rows_of(alloc, ty)?;
    let leaves = leaves_of(alloc, rows.as_slice())?;
    let end = match ty.size_of().or(ty.least_binding()) {
        Some(size) => u64::from(size),
        None => leaves.last().map_or(0, |leaf| leaf.end),
    };
    add_lines(text, leaves.as_slice(), end)
}

// Structures are followed, arrays are one leaf.
fn leaves_of<'a>(alloc: Global, rows: &[Row<'a>]) -> Result<Vec<Leaf<'a>>, AllocError> {
    let mut leaves = Vec::new(alloc);
    let mut array: Option<usize> = None;
    for row in rows {
        let Row::Member(row) = row else {
            continue;
        };
        if array.is_some_and(|depth| row.depth > depth) {
            continue;
        }
        array = None;
        if structure(&row.member.ty).is_some() {
            continue;
        }
        if row.member.ty.as_array().is_some() {
            array = Some(row.depth);
        }
        if let Some(leaf) = leaf_of(*row, leaves.len()) {
            push(&mut leaves, leaf)?;
        }
    }
    Ok(leaves)
}

fn push<'a>(leaves: &mut Vec<Leaf<'a>>, leaf: Leaf<'a>) -> Result<(), AllocError> {
    match leaves.push(leaf) {
        Ok(()) => Ok(()),
        Err(_) => Err(AllocError),
    }
}

// Of a runtime-sized array the first element is drawn.
fn leaf_of<'a>(row: MemberRow<'a>, number: usize) -> Option<Leaf<'a>> {
    let start = row.offset?;
    let ty = &row.member.ty;
    let size = ty.size_of().or(ty.least_binding())?;
    Some(Leaf {
        start,
        end: start.checked_add(u64::from(size))?,
        letter: u8::try_from(number % 26).unwrap_or(0),
        row,
    })
}

// Lines up to the end. Of those that are filled alike the first is drawn, and the rest but the last
// left out.
fn add_lines(text: &mut String, leaves: &[Leaf<'_>], end: u64) -> Result<(), AllocError> {
    let mut line = 0u64;
    let mut rest = leaves;
    // Between the ends of leaves at most three lines are drawn.
    for _ in 0..leaves.len().saturating_mul(6).saturating_add(6) {
        if line >= end {
            break;
        }
        add_line(text, rest, line, end)?;
        line = line.saturating_add(LINE);
        rest = behind(rest, line);
        if let Some(last) = last_alike(rest, line, end) {
            text.push_str("          ...\n")?;
            line = last;
        }
    }
    Ok(())
}

// The leaves that end behind this byte.
fn behind<'a, 'b>(leaves: &'a [Leaf<'b>], at: u64) -> &'a [Leaf<'b>] {
    let done = leaves.partition_point(|leaf| leaf.end <= at);
    leaves.get(done..).unwrap_or(leaves)
}

// The last line that is filled as the one before it was, where two or more are from here on: by one
// leaf, or by padding.
fn last_alike(leaves: &[Leaf<'_>], at: u64, end: u64) -> Option<u64> {
    let alike = match leaves.first() {
        None => end,
        Some(leaf) if leaf.start < at => leaf.end,
        Some(leaf) => leaf.start,
    };
    let left = alike.checked_sub(at)?;
    if left <= LINE.saturating_mul(2) {
        return None;
    }
    let last = left.saturating_sub(1) / LINE * LINE;
    Some(at.saturating_add(last))
}

fn add_line(text: &mut String, leaves: &[Leaf<'_>], line: u64, end: u64) -> Result<(), AllocError> {
    write!(text, "  {line:>6}  ")?;
    let mut rest = leaves;
    for at in line..line.saturating_add(LINE) {
        rest = behind(rest, at);
        text.push(sign_at(rest, at, end))?;
    }
    let end_of_line = line.saturating_add(LINE);
    for leaf in leaves.iter().take_while(|leaf| leaf.start < end_of_line) {
        if leaf.start >= line {
            let letter = char::from(leaf.letter.saturating_add(b'a'));
            let name = &leaf.row.member.name;
            let ty = &leaf.row.member.ty;
            write!(text, "  {letter} {name}: {ty}")?;
        }
    }
    text.push('\n')
}

// The letter of the leaf that has this byte; a point is padding.
fn sign_at(leaves: &[Leaf<'_>], at: u64, end: u64) -> char {
    match leaves.first() {
        Some(leaf) if leaf.start <= at => char::from(leaf.letter.saturating_add(b'a')),
        _ if at < end => '.',
        _ => ' ',
    }
}
