//! Sizes and alignments, in bytes (WGSL: alignment and size; structure member layout).

ghost use Rattle.std.specs.Prelude.{◌≡◌};
ghost use Rattle.wgsl_rules.specs.Size.{size_of, align_of, min_size_of, vec3_align, vec_align};
ghost use Rattle.wgsl_rules.specs.View.{type_view, struct_view};

use crate::number::times;
use crate::ty::{StructType, Type};

impl Type {
    /// How many bytes a value of the type takes; `None` where the type has no known size, or where
    /// a size, or the place of a part, passes 4294967295 (WGSL: alignment and size).
    ///
    /// A type may have a size and no layout: [`Type::has_layout`].
    /// It calls itself for each level of the type: keep to 4,095 within a stack of 8 MiB.
    pub fn size_of(&self) -> Option<u32>
        ensures { result ≡ size_of (type_view self.now) }
    {
        self.measures().size
    }

    /// The number that the address of a value of the type is a multiple of, in bytes; `None` where
    /// it is not known (WGSL: alignment and size). 0 of a structure without members.
    /// It calls itself for each level of the type: keep to 4,095 within a stack of 8 MiB.
    pub fn align_of(&self) -> Option<u32>
        ensures { result ≡ align_of (type_view self.now) }
    {
        self.measures().align
    }

    /// As [`Type::size_of`]; of a runtime-sized array, how many bytes it takes with one element
    /// (WGSL: minimum buffer binding size).
    /// It calls itself for each level of the type: keep to 4,095 within a stack of 8 MiB.
    pub fn min_size_of(&self) -> Option<u32>
        ensures { result ≡ min_size_of (type_view self.now) }
    {
        match self {
            Type::Array(element, n) => {
                let stride = element.measures().stride();
                match n {
                    Some(n) => times(*n, stride),
                    None => stride,
                }
            }
            _ => self.size_of(),
        }
    }

    /// The alignment of a vector of n components of this type, which has this size.
    pub(crate) fn vec_align(&self, n: u8, size: Option<u32>) -> Option<u32>
        ensures { result ≡ vec_align n (type_view self.now) size }
    {
        if n == 3 {
            self.vec3_align()
        } else {
            times(usize::from(n), size)
        }
    }

    // WGSL has no vectors of 64-bit integers: theirs is chosen as that of four of them.
    fn vec3_align(&self) -> Option<u32>
        ensures { result ≡ vec3_align (type_view self.now) }
    {
        match self {
            Type::I32 | Type::U32 | Type::F32 => Some(16),
            Type::F16 => Some(8),
            Type::I64 | Type::U64 => Some(32),
            Type::Bool | Type::AbstractInt | Type::AbstractFloat | Type::F64 => None,
            Type::Struct(_) | Type::Array(_, _) | Type::Vec(_, _) | Type::Mat(_, _, _) => None,
            Type::Atomic(_) | Type::Ptr(_, _, _) | Type::Ref(_, _, _) => None,
            Type::Texture(_) | Type::Sampler(_) => None,
        }
    }
}

impl StructType {
    /// As [`Type::size_of`] of the structure: the end of the last member, rounded up to the
    /// alignment (WGSL: structure member layout). `None` without members.
    /// It calls itself for each level of the members' types: keep to 4,095 within a stack of 8 MiB.
    pub fn size_of(&self) -> Option<u32>
        ensures { result ≡ size_of (struct_view self.now) }
    {
        self.measures().size
    }

    /// As [`Type::align_of`] of the structure: the greatest alignment of a member (WGSL: structure
    /// member layout). 0 without members.
    /// It calls itself for each level of the members' types: keep to 4,095 within a stack of 8 MiB.
    pub fn align_of(&self) -> Option<u32>
        ensures { result ≡ align_of (struct_view self.now) }
    {
        self.measures().align
    }
}
