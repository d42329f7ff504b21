//! Types that these tests look at, for runs in which no memory is refused.

use std::alloc::Global;
use std::process::Abort;
use wgsl_rules::{AccessMode, StructMemberType, StructType, Type};
use wgsl_samples::types;

pub(super) fn vector(rt: &impl Abort, alloc: Global, n: u8, ty: Type) -> Type {
    types::vector(alloc, n, ty).expect(rt, "memory")
}

/// A matrix of 2 columns of 3 rows.
pub(super) fn matrix(rt: &impl Abort, alloc: Global, ty: Type) -> Type {
    types::matrix(alloc, ty).expect(rt, "memory")
}

pub(super) fn array(rt: &impl Abort, alloc: Global, ty: Type, count: Option<usize>) -> Type {
    types::array(alloc, ty, count).expect(rt, "memory")
}

pub(super) fn reference(rt: &impl Abort, alloc: Global, ty: Type, access: AccessMode) -> Type {
    types::reference(alloc, ty, access).expect(rt, "memory")
}

pub(super) fn member(
    rt: &impl Abort,
    alloc: Global,
    ty: Type,
    size: Option<u32>,
) -> StructMemberType {
    types::member(alloc, "a", ty, size).expect(rt, "memory")
}

pub(super) fn pair_type(rt: &impl Abort, alloc: Global) -> StructType {
    types::pair_type(alloc).expect(rt, "memory")
}

pub(super) fn pair(rt: &impl Abort, alloc: Global) -> Type {
    types::pair(alloc).expect(rt, "memory")
}

pub(super) fn nested(rt: &impl Abort, alloc: Global) -> Type {
    types::nested(alloc).expect(rt, "memory")
}
