//! The types of the buffers.

use std::alloc::{AllocError, Global};
use wgsl_types::{StructMemberType, StructType, Type};

/// The types that members and elements have.
#[derive(Clone, Copy)]
pub(crate) enum Form {
    U32,
    I32,
    Vec3U32,
    Vec4U32,
    Vec3I32,
    Mat4I32,
    /// An array of eight numbers.
    Octet,
    Atomic,
}

/// A member: its name, its type, and its attribute `@align`.
pub(crate) type Member = (&'static str, Form, Option<u32>);

impl Form {
    pub(crate) fn ty(self, alloc: Global) -> Result<Type, AllocError> {
        match self {
            Form::U32 => Ok(Type::U32),
            Form::I32 => Ok(Type::I32),
            Form::Vec3U32 => Ok(Type::Vec(3, Box::new(alloc, Type::U32)?)),
            Form::Vec4U32 => Ok(Type::Vec(4, Box::new(alloc, Type::U32)?)),
            Form::Vec3I32 => Ok(Type::Vec(3, Box::new(alloc, Type::I32)?)),
            Form::Mat4I32 => Ok(Type::Mat(4, 4, Box::new(alloc, Type::I32)?)),
            Form::Octet => Ok(Type::Array(Box::new(alloc, Type::U32)?, Some(8))),
            Form::Atomic => Ok(Type::Atomic(Box::new(alloc, Type::U32)?)),
        }
    }
}

/// A runtime-sized array.
pub(crate) fn array(alloc: Global, element: Type) -> Result<Type, AllocError> {
    Ok(Type::Array(Box::new(alloc, element)?, None))
}

pub(crate) fn member(alloc: Global, name: &str, ty: Type) -> Result<StructMemberType, AllocError> {
    Ok(StructMemberType {
        name: String::from_str(alloc, name)?,
        ty,
        size: None,
        align: None,
    })
}

pub(crate) fn members(alloc: Global, list: &[Member]) -> Result<Vec<StructMemberType>, AllocError> {
    let mut members = Vec::with_capacity(alloc, list.len())?;
    for (name, form, align) in list {
        let mut made = member(alloc, name, form.ty(alloc)?)?;
        made.align = *align;
        members.push(made)?;
    }
    Ok(members)
}

pub(crate) fn structure(
    alloc: Global,
    name: &str,
    members: Vec<StructMemberType>,
) -> Result<Type, AllocError> {
    let name = String::from_str(alloc, name)?;
    Ok(Type::Struct(Box::new(alloc, StructType { name, members })?))
}

/// A structure with these members and a last one of the type.
pub(crate) fn structure_with(
    alloc: Global,
    name: &str,
    list: &[Member],
    last: (&str, Type),
) -> Result<Type, AllocError> {
    let mut members = members(alloc, list)?;
    let (name_of_last, ty) = last;
    members.push(member(alloc, name_of_last, ty)?)?;
    structure(alloc, name, members)
}
