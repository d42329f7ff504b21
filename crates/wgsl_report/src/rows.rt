//! The members of a structure with those of the structures inside it, in the order of their bytes
//! (WGSL: structure member layout).

ghost use Rattle.std.specs.Prelude.{◌≡◌, ◌+◌, IfSome, IsSomeAnd, IsNone, Some};
ghost use Rattle.wgsl_report.specs.Rows.{IsPaddingBehind};

use crate::structures::innermost;
use std::alloc::{AllocError, Global};
use wgsl_rules::{MemberLayout, StructMemberType, StructType};

/// How deep structures inside structures are followed. Shaders that nest types more than 15 deep are
/// no longer taken everywhere (WGSL: limits).
pub(crate) const DEPTH: usize = 16;

/// A row of a structure's table, at bytes from the start of the whole.
#[derive(Clone, Copy)]
pub(crate) enum Row<'a> {
    Member(MemberRow<'a>),
    Padding(PaddingRow),
}

/// A member, so many structures deep in the whole; of the elements of an array the first.
#[derive(Clone, Copy)]
pub(crate) struct MemberRow<'a> {
    pub(crate) depth: usize,
    pub(crate) offset: Option<u64>,
    pub(crate) layout: MemberLayout,
    pub(crate) member: &'a StructMemberType,
}

/// The bytes that are filled behind a member.
#[derive(Clone, Copy)]
pub(crate) struct PaddingRow {
    pub(crate) depth: usize,
    pub(crate) offset: u64,
    pub(crate) size: u32,
}

/// The rows of a structure.
pub(crate) fn rows_of(alloc: Global, ty: &StructType) -> Result<Vec<Row<'_>>, AllocError> {
    let mut rows = Vec::new(alloc);
    push_rows(alloc, &mut rows, ty, Some(0), DEPTH)?;
    Ok(rows)
}

// Those of a structure that begins there, so many structures deep at most.
fn push_rows<'a>(
    alloc: Global,
    rows: &mut Vec<Row<'a>>,
    ty: &'a StructType,
    base: Option<u64>,
    deep: usize,
) -> Result<(), AllocError> {
    let depth = DEPTH.saturating_sub(deep);
    let layouts = ty.member_layouts(alloc)?;
    for (member, layout) in ty.members.iter().zip(layouts.iter()) {
        let offset = sum(base, layout.offset);
        let row = MemberRow {
            depth,
            offset,
            layout: *layout,
            member,
        };
        push(rows, Row::Member(row))?;
        if let Some(inner) = innermost(&member.ty) {
            if deep > 0 {
                push_rows(alloc, rows, inner, offset, deep - 1)?;
            }
        }
        if let Some(padding) = padding_behind(depth, base, *layout) {
            push(rows, Row::Padding(padding))?;
        }
    }
    Ok(())
}

fn push<'a>(rows: &mut Vec<Row<'a>>, row: Row<'a>) -> Result<(), AllocError> {
    match rows.push(row) {
        Ok(()) => Ok(()),
        Err(_) => Err(AllocError),
    }
}

fn sum(base: Option<u64>, offset: Option<u32>) -> Option<u64>
    ensures { IfSome result (λ at. IsSomeAnd base (λ b. IsSomeAnd offset (λ o. at ≡ b + o))) }
{
    base?.checked_add(u64::from(offset?))
}

fn padding_behind(depth: usize, base: Option<u64>, layout: MemberLayout) -> Option<PaddingRow>
    ensures row { IfSome result (λ row. IsSomeAnd base (λ b. IsPaddingBehind depth b layout row)) }
    ensures none { layout.padding ≡ Some 0 → IsNone result }
{
    let size = layout.padding?;
    if size == 0 {
        return None;
    }
    let end = sum(base, layout.offset)?.checked_add(u64::from(layout.size?))?;
    Some(PaddingRow {
        depth,
        offset: end,
        size,
    })
}
