//! `clone` of types.

ghost use Rattle.std.specs.Prelude.{◌≡◌, IfOk};
ghost use Rattle.wgsl_rules.specs.View.{type_view, struct_view, member_view, members_view};

use crate::ty::{StructMemberType, StructType, Type};
use std::alloc::{AllocError, Global};

impl Type {
    /// A copy of the type, in memory of its own (WGSL: types).
    /// It calls itself for each level of the type: keep to 4,095 within a stack of 8 MiB.
    #[cycle(clone)]
    pub fn clone(&self, alloc: Global) -> Result<Type, AllocError>
        ensures { IfOk result (λ t. type_view t ≡ type_view self.now) }
    {
        match self {
            Type::Bool => Ok(Type::Bool),
            Type::AbstractInt => Ok(Type::AbstractInt),
            Type::AbstractFloat => Ok(Type::AbstractFloat),
            Type::I32 => Ok(Type::I32),
            Type::U32 => Ok(Type::U32),
            Type::F32 => Ok(Type::F32),
            Type::F16 => Ok(Type::F16),
            Type::I64 => Ok(Type::I64),
            Type::U64 => Ok(Type::U64),
            Type::F64 => Ok(Type::F64),
            Type::Struct(ty) => Ok(Type::Struct(Box::new(alloc, StructType::clone(ty, alloc)?)?)),
            Type::Array(ty, count) => Ok(Type::Array(ty.boxed_clone(alloc)?, *count)),
            Type::Vec(n, ty) => Ok(Type::Vec(*n, ty.boxed_clone(alloc)?)),
            Type::Mat(c, r, ty) => Ok(Type::Mat(*c, *r, ty.boxed_clone(alloc)?)),
            Type::Atomic(ty) => Ok(Type::Atomic(ty.boxed_clone(alloc)?)),
            Type::Ptr(space, ty, access) => {
                Ok(Type::Ptr(*space, ty.boxed_clone(alloc)?, *access))
            }
            Type::Ref(space, ty, access) => {
                Ok(Type::Ref(*space, ty.boxed_clone(alloc)?, *access))
            }
            Type::Texture(texture) => Ok(Type::Texture(*texture)),
            Type::Sampler(sampler) => Ok(Type::Sampler(*sampler)),
        }
    }

    #[cycle(clone)]
    fn boxed_clone(&self, alloc: Global) -> Result<Box<Type>, AllocError>
        ensures { IfOk result (λ b. type_view b.value ≡ type_view self.now) }
    {
        let copy = self.clone(alloc)?;
        Ok(Box::new(alloc, copy)?)
    }
}

impl StructType {
    /// A copy of the structure type, in memory of its own (WGSL: structure types).
    /// It calls itself for each level of the type: keep to 4,095 within a stack of 8 MiB.
    #[cycle(clone)]
    pub fn clone(&self, alloc: Global) -> Result<StructType, AllocError>
        ensures { IfOk result (λ t. struct_view t ≡ struct_view self.now) }
    {
        let name = self.name.clone()?;
        let members = clone_members(alloc, &self.members)?;
        Ok(StructType { name, members })
    }
}

#[cycle(clone)]
fn clone_members(
    alloc: Global,
    members: &Vec<StructMemberType>,
) -> Result<Vec<StructMemberType>, AllocError>
    ensures { IfOk result (λ v. members_view v.items ≡ members_view members.now.items) }
{
    let mut copies = Vec::with_capacity(alloc, members.len())?;
    for member in members {
        copies.push(member.clone(alloc)?)?;
    }
    Ok(copies)
}

impl StructMemberType {
    /// A copy of the member, in memory of its own (WGSL: structure types).
    /// It calls itself for each level of the type: keep to 4,095 within a stack of 8 MiB.
    #[cycle(clone)]
    pub fn clone(&self, alloc: Global) -> Result<StructMemberType, AllocError>
        ensures { IfOk result (λ m. member_view m ≡ member_view self.now) }
    {
        let name = self.name.clone()?;
        let ty = self.ty.clone(alloc)?;
        Ok(StructMemberType {
            name,
            ty,
            size: self.size,
            align: self.align,
        })
    }
}
