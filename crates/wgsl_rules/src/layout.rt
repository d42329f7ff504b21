//! Which types have a layout in host-shared memory (WGSL: host-shareable types; internal layout of
//! values).

ghost use Rattle.std.specs.Prelude.{◌≡◌, is_some};
ghost use Rattle.wgsl_rules.specs.Layout.{
  scalar_kind,
  atomic_kind,
  is_from_2_to_4,
  is_multiple_of,
  is_align_valid,
  is_at_least,
  is_size_valid,
  has_layout,
};
ghost use Rattle.wgsl_rules.specs.View.{type_view, struct_view};

use crate::measures::measure_members;
use crate::ty::{StructType, Type};

/// Of components, columns and rows.
pub(crate) fn is_from_2_to_4(n: u8) -> bool
    ensures { result ≡ is_from_2_to_4 n }
{
    2 <= n && n <= 4
}

/// A number beside an alignment that is known.
pub(crate) fn is_multiple_of(attribute: u32, align: Option<u32>) -> bool
    ensures { result ≡ is_multiple_of attribute align }
{
    match align {
        Some(align) => attribute.is_multiple_of(align),
        None => false,
    }
}

/// An align attribute beside the alignment of the type.
pub(crate) fn is_align_valid(attribute: Option<u32>, align: Option<u32>) -> bool
    ensures { result ≡ is_align_valid attribute align }
{
    match attribute {
        Some(attribute) => attribute.is_power_of_two() && is_multiple_of(attribute, align),
        None => align.is_some(),
    }
}

fn is_at_least(attribute: u32, size: Option<u32>) -> bool
    ensures { result ≡ is_at_least attribute size }
{
    match size {
        Some(size) => size <= attribute,
        None => false,
    }
}

/// A size attribute beside the size of the type.
pub(crate) fn is_size_valid(attribute: Option<u32>, size: Option<u32>) -> bool
    ensures { result ≡ is_size_valid attribute size }
{
    match attribute {
        Some(attribute) => is_at_least(attribute, size),
        None => true,
    }
}

impl Type {
    /// Whether values of the type are laid out in host-shared memory, and so go to bytes and back
    /// (WGSL: host-shareable types; structure member layout). A runtime-sized array has a layout by
    /// itself and as the last member of a structure that is no part of another type.
    ///
    /// Without a layout are the types of no bytes, `bool`, floats so far, counts that are no WGSL,
    /// and structures with an attribute that is not valid.
    /// It calls itself for each level of the type: keep to 4,095 within a stack of 8 MiB.
    pub fn has_layout(&self) -> bool
        ensures { result ≡ has_layout (type_view self.now) }
    {
        match self {
            Type::Struct(ty) => ty.has_layout(),
            _ => {
                let measures = self.measures();
                measures.is_fixed || measures.is_runtime_array
            }
        }
    }

    /// The scalars of host-shared memory.
    pub(crate) fn is_host_scalar(&self) -> bool
        ensures { result ≡ is_some (scalar_kind (type_view self.now)) }
    {
        matches!(self, Type::I32 | Type::U32 | Type::I64 | Type::U64)
    }

    /// What an atomic is laid out as.
    pub(crate) fn is_atomic_content(&self) -> bool
        ensures { result ≡ is_some (atomic_kind (type_view self.now)) }
    {
        matches!(self, Type::I32 | Type::U32)
    }
}

impl StructType {
    fn has_layout(&self) -> bool
        ensures { result ≡ has_layout (struct_view self.now) }
    {
        measure_members(self.members.as_slice()).have_layout()
    }
}
