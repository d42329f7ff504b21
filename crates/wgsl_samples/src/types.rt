//! Types that tests and benchmarks look at.

use crate::both::both;
use std::alloc::{AllocError, Global};
use wgsl_rules::{AccessMode, AddressSpace, StructMemberType, StructType, Type};

pub fn vector(alloc: Global, n: u8, ty: Type) -> Result<Type, AllocError> {
    Ok(Type::Vec(n, Box::new(alloc, ty)?))
}

pub fn matrix(alloc: Global, ty: Type) -> Result<Type, AllocError> {
    Ok(Type::Mat(2, 3, Box::new(alloc, ty)?))
}

pub fn array(alloc: Global, ty: Type, count: Option<usize>) -> Result<Type, AllocError> {
    Ok(Type::Array(Box::new(alloc, ty)?, count))
}

pub fn reference(alloc: Global, ty: Type, access: AccessMode) -> Result<Type, AllocError> {
    Ok(Type::Ref(AddressSpace::Storage, Box::new(alloc, ty)?, access))
}

pub fn member(
    alloc: Global,
    name: &str,
    ty: Type,
    size: Option<u32>,
) -> Result<StructMemberType, AllocError> {
    let (name, ty) = both(format!(in alloc; "{name}"), Ok(ty))?;
    Ok(StructMemberType {
        name,
        ty,
        size,
        align: None,
    })
}

pub fn struct_type(
    alloc: Global,
    name: &str,
    members: Vec<StructMemberType>,
) -> Result<StructType, AllocError> {
    let (name, members) = both(format!(in alloc; "{name}"), Ok(members))?;
    Ok(StructType { name, members })
}

pub fn structure(
    alloc: Global,
    name: &str,
    members: Vec<StructMemberType>,
) -> Result<Type, AllocError> {
    let ty = struct_type(alloc, name, members)?;
    Ok(Type::Struct(Box::new(alloc, ty)?))
}

/// struct Pair { a: u32, b: vec3<u32> }
pub fn pair_type(alloc: Global) -> Result<StructType, AllocError> {
    let vector = vector(alloc, 3, Type::U32)?;
    let a = member(alloc, "a", Type::U32, None);
    let (a, b) = both(a, member(alloc, "b", vector, None))?;
    struct_type(alloc, "Pair", vec![in alloc; a, b]?)
}

pub fn pair(alloc: Global) -> Result<Type, AllocError> {
    Ok(Type::Struct(Box::new(alloc, pair_type(alloc)?)?))
}

/// struct Nested { @size(160) inner: array<Pair, 5> }
pub fn nested(alloc: Global) -> Result<Type, AllocError> {
    let pairs = array(alloc, pair(alloc)?, Some(5))?;
    let inner = member(alloc, "inner", pairs, Some(160))?;
    structure(alloc, "Nested", vec![in alloc; inner]?)
}
