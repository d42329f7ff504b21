//! Where the members of a structure stand, how far elements and columns lie apart, and how large a
//! buffer is at least (WGSL: structure member layout; minimum buffer binding size).

ghost use Rattle.std.specs.Prelude.{◌≡◌, IfOk, Some};
ghost use Rattle.wgsl_rules.specs.Places.{
  start_behind,
  padding_between,
  layouts_behind,
  member_layouts,
  part_stride,
  with_elements,
  with_elements_last,
  size_with,
  least_binding,
};
ghost use Rattle.wgsl_rules.specs.Measures.{AreMeasuresOf};
ghost use Rattle.wgsl_rules.specs.Size.{extents, struct_size};
ghost use Rattle.wgsl_rules.specs.View.{type_view, struct_view, members_view};

use crate::measures::{Measures, measure_members};
use crate::number::{rounded_if_known, sum_if_known};
use crate::ty::{StructMemberType, StructType, Type};
use std::alloc::{AllocError, Global};

/// Where a member of a structure stands and how many bytes it takes, attributes included, what its
/// place is a multiple of, and how many bytes are filled behind it, up to the next member or to the
/// end of the structure; in bytes, each `None` where it is not known or passes 4294967295 (WGSL:
/// structure member layout).
#[derive(Clone, Copy, Debug, PartialEq, Eq)]
pub struct MemberLayout {
    pub offset: Option<u32>,
    pub size: Option<u32>,
    pub align: Option<u32>,
    pub padding: Option<u32>,
}

impl StructType {
    /// Where the members stand, in their order, of floats and of types without a layout too (WGSL:
    /// structure member layout). A runtime-sized array has an offset and an alignment, and neither a
    /// size nor padding behind it.
    ///
    /// Memory alone is refused.
    /// It calls itself for each level of the members' types: keep to 4,095 within a stack of 8 MiB.
    pub fn member_layouts(&self, alloc: Global) -> Result<Vec<MemberLayout>, AllocError>
        ensures { IfOk result (λ layouts. layouts.items ≡ member_layouts (struct_view self.now)) }
    {
        layouts_of(alloc, self.members.as_slice(), self.size_of())
    }

    /// As [`Type::size_with`] of the structure.
    /// It calls itself for each level of the members' types: keep to 4,095 within a stack of 8 MiB.
    pub fn size_with(&self, elements: usize) -> Option<u32>
        ensures { result ≡ size_with elements (struct_view self.now) }
    {
        struct_size_with(self.members.as_slice(), elements)
    }

    /// As [`Type::least_binding`] of the structure.
    /// It calls itself for each level of the members' types: keep to 4,095 within a stack of 8 MiB.
    pub fn least_binding(&self) -> Option<u32>
        ensures { result ≡ least_binding (struct_view self.now) }
    {
        self.size_with(1)
    }
}

impl Type {
    /// From one element of an array to the next, or from one column of a matrix to the next, in bytes
    /// (WGSL: alignment and size; internal layout of values). `None` of other types, and where it is
    /// not known or passes 4294967295.
    /// It calls itself for each level of the type: keep to 4,095 within a stack of 8 MiB.
    pub fn stride(&self) -> Option<u32>
        ensures { result ≡ part_stride (type_view self.now) }
    {
        match self {
            Type::Array(element, _) => element.measures().stride(),
            Type::Mat(_, rows, component) => {
                component.vec_align(*rows, component.measures().size)
            }
            Type::Bool | Type::AbstractInt | Type::AbstractFloat => None,
            Type::I32 | Type::U32 | Type::F32 | Type::F16 => None,
            Type::I64 | Type::U64 | Type::F64 => None,
            Type::Struct(_) | Type::Vec(_, _) | Type::Atomic(_) => None,
            Type::Ptr(_, _, _) | Type::Ref(_, _, _) => None,
            Type::Texture(_) | Type::Sampler(_) => None,
        }
    }

    /// The size of the type in bytes, with so many elements in the runtime-sized array that it is or
    /// ends in (WGSL: structure member layout): a structure is filled up to its alignment. `None` where
    /// it is not known or passes 4294967295.
    /// It calls itself for each level of the type: keep to 4,095 within a stack of 8 MiB.
    pub fn size_with(&self, elements: usize) -> Option<u32>
        ensures { result ≡ size_with elements (type_view self.now) }
    {
        match self {
            Type::Struct(ty) => ty.size_with(elements),
            _ => self.measures_with(elements).size,
        }
    }

    /// How many bytes the buffer of a variable of the type has at least, in the storage and uniform
    /// address spaces: its size, with one element in the runtime-sized array that it is or ends in
    /// (WGSL: minimum buffer binding size). `None` where that is not known or passes 4294967295.
    /// It calls itself for each level of the type: keep to 4,095 within a stack of 8 MiB.
    pub fn least_binding(&self) -> Option<u32>
        ensures { result ≡ least_binding (type_view self.now) }
    {
        self.size_with(1)
    }

    // With so many elements where it is a runtime-sized array.
    fn measures_with(&self, elements: usize) -> Measures
        ensures { AreMeasuresOf (with_elements elements (type_view self.now)) result }
    {
        match self {
            Type::Array(element, n) => element.measures().of_array(n.or(Some(elements))),
            _ => self.measures(),
        }
    }
}

// How many bytes lie from the end of a member to the start of what is behind it.
fn padding_between(end: Option<u32>, start: Option<u32>) -> Option<u32>
    ensures { result ≡ padding_between end start }
{
    Some(start?.saturating_sub(end?))
}

// Where the first of the members stands behind what ends there; the end of the structure, which has
// this size, where there is none.
fn start_behind(members: &[StructMemberType], end: Option<u32>, size: Option<u32>) -> Option<u32>
    ensures { result ≡ start_behind size end (extents (members_view members.now)) }
{
    match members.first() {
        Some(first) => rounded_if_known(first.measures().align, end),
        None => size,
    }
}

// Of the members of a structure of this size.
fn layouts_of(
    alloc: Global,
    members: &[StructMemberType],
    size: Option<u32>,
) -> Result<Vec<MemberLayout>, AllocError>
    ensures { IfOk result (λ layouts. layouts.items ≡ layouts_behind size (Some 0) (extents (members_view members.now))) }
{
    let mut layouts = Vec::with_capacity(alloc, members.len())?;
    let mut end = Some(0);
    for (i, member) in members.iter().enumerate() {
        let measures = member.measures();
        let offset = rounded_if_known(measures.align, end);
        end = sum_if_known(offset, measures.size);
        let start = start_behind(&members[i + 1..], end, size);
        layouts.push(MemberLayout {
            offset,
            size: measures.size,
            align: measures.align,
            padding: padding_between(end, start),
        })?;
    }
    Ok(layouts)
}

// The size of the structure of these members, with so many elements in the last where that is a
// runtime-sized array.
fn struct_size_with(members: &[StructMemberType], elements: usize) -> Option<u32>
    ensures { result ≡ struct_size (extents (with_elements_last elements (members_view members.now))) }
{
    let Some((last, front)) = members.split_last() else {
        return None;
    };
    let last = last
        .ty
        .measures_with(elements)
        .of_member(last.size, last.align);
    let all = measure_members(front).with(last);
    all.of_struct().size
}
