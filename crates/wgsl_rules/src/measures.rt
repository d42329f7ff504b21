//! What is known of a type: its size, its alignment and its layout, found in one walk down the type
//! (WGSL: alignment and size; structure member layout).

ghost use Rattle.std.specs.Prelude.{◌≡◌, ℕ, List, Some, false, is_some, max, ◌&&◌, ◌||◌};
ghost use Rattle.wgsl_rules.specs.Layout.{
  has_fixed_layout,
  have_fixed_layouts,
  is_fixed_member,
  is_runtime_array,
  is_runtime_member,
  end_in_runtime_array,
};
ghost use Rattle.wgsl_rules.specs.Size.{
  size_of,
  align_of,
  extent_of,
  extents,
  end_of_members,
  struct_align,
  align_after,
  end_after,
  round_up,
  with_both,
  stride_of,
};
ghost use Rattle.wgsl_rules.specs.Measures.{AreMeasuresOf, AreMeasuresOfMember};
ghost use Rattle.wgsl_rules.specs.Types.{Ty, array};
ghost use Rattle.wgsl_rules.specs.View.{type_view, struct_view, member_view, members_view};

use crate::layout::{is_align_valid, is_from_2_to_4, is_size_valid};
use crate::number::{rounded_if_known, sum_if_known, times};
use crate::ty::{StructMemberType, StructType, Type};

/// What is known of a type, or of a member with its attributes: how many bytes it takes and what its
/// place is a multiple of, `None` where that is not known or passes 4294967295; whether it has a
/// layout of a fixed size, and whether it is a runtime-sized array that has a layout (WGSL: alignment
/// and size).
#[derive(Clone, Copy, Debug, PartialEq, Eq)]
pub struct Measures {
    pub size: Option<u32>,
    pub align: Option<u32>,
    pub is_fixed: bool,
    pub is_runtime_array: bool,
}

/// What is known of the members of a structure, in their order: where the last ends and the greatest
/// alignment, in bytes; whether each has a layout of a fixed size; and whether the last is a
/// runtime-sized array that has a place, and each of the others has such a layout (WGSL: structure
/// member layout).
#[derive(Clone, Copy, Debug, PartialEq, Eq)]
pub struct MemberMeasures {
    pub end: Option<u32>,
    pub align: Option<u32>,
    pub are_fixed: bool,
    pub end_in_runtime_array: bool,
}

impl Measures {
    const UNKNOWN: Measures = Measures {
        size: None,
        align: None,
        is_fixed: false,
        is_runtime_array: false,
    };

    // Of a scalar of so many bytes.
    fn of_scalar(bytes: u32, is_fixed: bool) -> Self
        ensures size { result.size ≡ Some bytes }
        ensures align { result.align ≡ Some bytes }
        ensures fixed { result.is_fixed ≡ is_fixed }
        ensures runtime { result.is_runtime_array ≡ false }
    {
        Measures {
            size: Some(bytes),
            align: Some(bytes),
            is_fixed,
            is_runtime_array: false,
        }
    }

    /// From one element of an array of these to the next, in bytes (WGSL: alignment and size);
    /// `None` where it is not known or passes 4294967295.
    pub fn stride(self) -> Option<u32>
        ensures { result ≡ stride_of self.align self.size }
    {
        rounded_if_known(self.align, self.size)
    }

    /// Of an array of n elements of these measures (WGSL: alignment and size); of a runtime-sized one
    /// where n is `None`.
    pub fn of_array(self, n: Option<usize>) -> Self
        ensures { (t : Ty) → AreMeasuresOf t self → AreMeasuresOf (array t n) result }
    {
        let stride = self.stride();
        match n {
            Some(n) => {
                let size = times(n, stride);
                Measures {
                    size,
                    align: self.align,
                    is_fixed: 1 <= n && self.is_fixed && size.is_some(),
                    is_runtime_array: false,
                }
            }
            None => Measures {
                size: None,
                align: self.align,
                is_fixed: false,
                is_runtime_array: self.is_fixed && stride.is_some(),
            },
        }
    }

    /// Of a member of a type of these measures, with its attributes, which take the place of what the
    /// type has (WGSL: structure member layout).
    pub fn of_member(self, size: Option<u32>, align: Option<u32>) -> Self
        ensures { (n : List ℕ) (t : Ty) → AreMeasuresOf t self → AreMeasuresOfMember (record { name = n; ty = t; size = size; align = align }) result }
    {
        let is_size_valid = is_size_valid(size, self.size);
        let is_align_valid = is_align_valid(align, self.align);
        Measures {
            size: size.or(self.size),
            align: align.or(self.align),
            is_fixed: self.is_fixed && is_size_valid && is_align_valid,
            is_runtime_array: self.is_runtime_array && size.is_none() && is_align_valid,
        }
    }
}

impl MemberMeasures {
    /// Of no members.
    pub const NONE: MemberMeasures = MemberMeasures {
        end: Some(0),
        align: Some(0),
        are_fixed: true,
        end_in_runtime_array: false,
    };

    /// Where a member stands that comes after these, in bytes from the start of the structure (WGSL:
    /// structure member layout); `None` where that is not known or passes 4294967295.
    pub fn offset_of(self, member: Measures) -> Option<u32>
        ensures { result ≡ with_both round_up member.align self.end }
    {
        rounded_if_known(member.align, self.end)
    }

    /// These and one member more (WGSL: structure member layout).
    pub fn with(self, member: Measures) -> Self
        ensures end { result.end ≡ end_after self.end (record { size = member.size; align = member.align }) }
        ensures align { result.align ≡ align_after self.align (record { size = member.size; align = member.align }) }
        ensures fixed { result.are_fixed ≡ (self.are_fixed && member.is_fixed) }
        ensures runtime { result.end_in_runtime_array ≡ (self.are_fixed && (member.is_runtime_array && is_some (with_both round_up member.align self.end))) }
    {
        let offset = self.offset_of(member);
        MemberMeasures {
            end: sum_if_known(offset, member.size),
            align: greater(self.align, member.align),
            are_fixed: self.are_fixed && member.is_fixed,
            end_in_runtime_array: self.are_fixed && member.is_runtime_array && offset.is_some(),
        }
    }

    /// Of the structure of these members, whose size is the end of the last, rounded up to the
    /// alignment (WGSL: structure member layout).
    pub fn of_struct(self) -> Measures
        ensures size { result.size ≡ with_both round_up self.align self.end }
        ensures align { result.align ≡ self.align }
        ensures fixed { result.is_fixed ≡ (self.are_fixed && is_some (with_both round_up self.align self.end)) }
        ensures runtime { result.is_runtime_array ≡ false }
    {
        let size = rounded_if_known(self.align, self.end);
        Measures {
            size,
            align: self.align,
            is_fixed: self.are_fixed && size.is_some(),
            is_runtime_array: false,
        }
    }

    /// Whether the structure of these members has a layout (WGSL: host-shareable types).
    pub fn have_layout(self) -> bool
        ensures { result ≡ ((self.are_fixed && is_some (with_both round_up self.align self.end)) || self.end_in_runtime_array) }
    {
        self.of_struct().is_fixed || self.end_in_runtime_array
    }
}

// The greater of the two, where both are known.
fn greater(a: Option<u32>, b: Option<u32>) -> Option<u32>
    ensures { result ≡ with_both (λ x y. Some (max x y)) a b }
{
    Some(a?.max(b?))
}

impl Type {
    /// The size, the alignment and whether there is a layout, in one walk down the type (WGSL:
    /// alignment and size; host-shareable types).
    /// It calls itself for each level of the type: keep to 4,095 within a stack of 8 MiB.
    #[cycle(measures)]
    pub fn measures(&self) -> Measures
        ensures size { result.size ≡ size_of (type_view self.now) }
        ensures align { result.align ≡ align_of (type_view self.now) }
        ensures fixed { result.is_fixed ≡ has_fixed_layout (type_view self.now) }
        ensures runtime { result.is_runtime_array ≡ is_runtime_array (type_view self.now) }
    {
        match self {
            Type::I32 | Type::U32 => Measures::of_scalar(4, true),
            Type::I64 | Type::U64 => Measures::of_scalar(8, true),
            Type::Atomic(content) => Measures::of_scalar(4, content.is_atomic_content()),
            Type::Bool | Type::F32 => Measures::of_scalar(4, false),
            Type::F16 => Measures::of_scalar(2, false),
            Type::F64 => Measures::of_scalar(8, false),
            Type::Vec(n, component) => {
                let size = component.measures().size;
                Measures {
                    size: times(usize::from(*n), size),
                    align: component.vec_align(*n, size),
                    is_fixed: is_from_2_to_4(*n) && component.is_host_scalar(),
                    is_runtime_array: false,
                }
            }
            Type::Mat(columns, rows, component) => {
                let align = component.vec_align(*rows, component.measures().size);
                let size = times(usize::from(*columns), align);
                let is_shape = is_from_2_to_4(*columns) && is_from_2_to_4(*rows);
                Measures {
                    size,
                    align,
                    is_fixed: is_shape && component.is_host_scalar() && size.is_some(),
                    is_runtime_array: false,
                }
            }
            Type::Array(element, n) => element.measures().of_array(*n),
            Type::Struct(ty) => ty.measures(),
            Type::AbstractInt | Type::AbstractFloat => Measures::UNKNOWN,
            Type::Ptr(_, _, _) | Type::Ref(_, _, _) => Measures::UNKNOWN,
            Type::Texture(_) | Type::Sampler(_) => Measures::UNKNOWN,
        }
    }
}

impl StructType {
    #[cycle(measures)]
    pub(crate) fn measures(&self) -> Measures
        ensures size { result.size ≡ size_of (struct_view self.now) }
        ensures align { result.align ≡ align_of (struct_view self.now) }
        ensures fixed { result.is_fixed ≡ has_fixed_layout (struct_view self.now) }
        ensures runtime { result.is_runtime_array ≡ false }
    {
        measure_members(self.members.as_slice()).of_struct()
    }
}

#[cycle(measures)]
pub(crate) fn measure_members(members: &[StructMemberType]) -> MemberMeasures
    ensures end { result.end ≡ end_of_members (Some 0) (extents (members_view members.now)) }
    ensures align { result.align ≡ struct_align (extents (members_view members.now)) }
    ensures fixed { result.are_fixed ≡ have_fixed_layouts (members_view members.now) }
    ensures runtime { result.end_in_runtime_array ≡ end_in_runtime_array (Some 0) (members_view members.now) }
{
    let mut so_far = MemberMeasures::NONE;
    for member in members {
        so_far = so_far.with(member.measures());
    }
    so_far
}

impl StructMemberType {
    // With its attributes, which take the place of what its type has.
    #[cycle(measures)]
    pub(crate) fn measures(&self) -> Measures
        ensures size { result.size ≡ (extent_of (member_view self.now)).size }
        ensures align { result.align ≡ (extent_of (member_view self.now)).align }
        ensures fixed { result.is_fixed ≡ is_fixed_member (member_view self.now) }
        ensures runtime { result.is_runtime_array ≡ is_runtime_member (member_view self.now) }
    {
        self.ty.measures().of_member(self.size, self.align)
    }
}
