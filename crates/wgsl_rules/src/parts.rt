//! The types inside a type.

ghost use Rattle.std.specs.Prelude.{◌≡◌, IfOk, option_map};
ghost use Rattle.wgsl_rules.specs.TypeParts.{
  inner_type,
  with_inner,
  struct_part,
  array_part,
  vec_part,
  mat_part,
  atomic_part,
  ptr_part,
  ref_part,
};
ghost use Rattle.wgsl_rules.specs.View.{struct_view, type_view};

use crate::syntax::{AccessMode, AddressSpace};
use crate::ty::{StructType, Type};
use std::alloc::{AllocError, Global};

impl Type {
    /// The type inside an array, vector, matrix (its scalar), atomic, pointer or reference type;
    /// any other type itself (WGSL: composite types).
    pub fn inner(&self) -> &Type
        ensures { type_view result.now ≡ inner_type (type_view self.now) }
    {
        match self {
            Type::Array(t, _) | Type::Vec(_, t) | Type::Mat(_, _, t) => t,
            Type::Atomic(t) | Type::Ptr(_, t, _) | Type::Ref(_, t, _) => t,
            Type::Bool | Type::AbstractInt | Type::AbstractFloat => self,
            Type::I32 | Type::U32 | Type::F32 | Type::F16 => self,
            Type::I64 | Type::U64 | Type::F64 => self,
            Type::Struct(_) | Type::Texture(_) | Type::Sampler(_) => self,
        }
    }

    /// This array, vector or matrix type with another type inside; of any other type the other one
    /// (WGSL: composite types).
    pub(crate) fn with_inner(&self, alloc: Global, inner: &Type) -> Result<Type, AllocError>
        ensures { IfOk result (λ t. type_view t ≡ with_inner (type_view self.now) (type_view inner.now)) }
    {
        let inner = inner.clone(alloc)?;
        match self {
            Type::Array(_, n) => Ok(Type::Array(Box::new(alloc, inner)?, *n)),
            Type::Vec(n, _) => Ok(Type::Vec(*n, Box::new(alloc, inner)?)),
            Type::Mat(c, r, _) => Ok(Type::Mat(*c, *r, Box::new(alloc, inner)?)),
            Type::Bool | Type::AbstractInt | Type::AbstractFloat => Ok(inner),
            Type::I32 | Type::U32 | Type::F32 | Type::F16 => Ok(inner),
            Type::I64 | Type::U64 | Type::F64 | Type::Struct(_) => Ok(inner),
            Type::Atomic(_) | Type::Ptr(_, _, _) | Type::Ref(_, _, _) => Ok(inner),
            Type::Texture(_) | Type::Sampler(_) => Ok(inner),
        }
    }

    /// The structure type that this is (WGSL: structure types).
    pub fn as_struct(&self) -> Option<&StructType>
        ensures { option_map (λ s. struct_view s.now) result ≡ struct_part (type_view self.now) }
    {
        match self {
            Type::Struct(s) => Some(s),
            _ => None,
        }
    }

    /// The element type and the count of an array type; a runtime-sized one has no count (WGSL:
    /// array types).
    pub fn as_array(&self) -> Option<(&Type, Option<usize>)>
        ensures { option_map (λ p. (type_view p.0.now, p.1)) result ≡ array_part (type_view self.now) }
    {
        match self {
            Type::Array(t, n) => Some((t, *n)),
            _ => None,
        }
    }

    /// The count and the component type of a vector type (WGSL: vector types).
    pub fn as_vec(&self) -> Option<(u8, &Type)>
        ensures { option_map (λ p. (p.0, type_view p.1.now)) result ≡ vec_part (type_view self.now) }
    {
        match self {
            Type::Vec(n, t) => Some((*n, t)),
            _ => None,
        }
    }

    /// The counts of columns and rows and the scalar type of a matrix type (WGSL: matrix types).
    pub fn as_mat(&self) -> Option<(u8, u8, &Type)>
        ensures { option_map (λ p. (p.0, p.1, type_view p.2.now)) result ≡ mat_part (type_view self.now) }
    {
        match self {
            Type::Mat(c, r, t) => Some((*c, *r, t)),
            _ => None,
        }
    }

    /// The type inside an atomic type (WGSL: atomic types).
    pub fn as_atomic(&self) -> Option<&Type>
        ensures { option_map (λ t. type_view t.now) result ≡ atomic_part (type_view self.now) }
    {
        match self {
            Type::Atomic(t) => Some(t),
            _ => None,
        }
    }

    /// What a pointer type points to: the address space, the type and the access mode (WGSL:
    /// reference and pointer types).
    pub fn as_ptr(&self) -> Option<(AddressSpace, &Type, AccessMode)>
        ensures { option_map (λ p. (p.0, type_view p.1.now, p.2)) result ≡ ptr_part (type_view self.now) }
    {
        match self {
            Type::Ptr(space, t, access) => Some((*space, t, *access)),
            _ => None,
        }
    }

    /// What a reference type refers to: the address space, the type and the access mode (WGSL:
    /// reference and pointer types).
    pub fn as_reference(&self) -> Option<(AddressSpace, &Type, AccessMode)>
        ensures { option_map (λ p. (p.0, type_view p.1.now, p.2)) result ≡ ref_part (type_view self.now) }
    {
        match self {
            Type::Ref(space, t, access) => Some((*space, t, *access)),
            _ => None,
        }
    }
}
