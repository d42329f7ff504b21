//! The types that the tests look at, and their tables.

use crate::tests::asserts::assert_that;
use std::alloc::{AllocError, Global};
use std::process::Abort;
use wgsl_nodes::{Node, nodes_of, set_name};
use wgsl_rules::{StructMemberType, StructType, Type};

/// The names of the members, in the order of `NAMED`.
pub(super) const NAMES: &[u8] = b"a b c d color power count";

/// Numbers of records, and where their names stand.
const NAMED: &[(u32, u32, u32)] = &[
    (1, 0, 1),
    (2, 2, 3),
    (3, 4, 5),
    (4, 6, 7),
    (10, 8, 13),
    (11, 14, 19),
    (12, 20, 25),
];

pub(super) fn boxed(alloc: Global, ty: Type) -> Result<Box<Type>, AllocError> {
    Ok(Box::new(alloc, ty)?)
}

pub(super) fn member(alloc: Global, ty: Type) -> Result<StructMemberType, AllocError> {
    Ok(StructMemberType {
        name: String::new(alloc),
        ty,
        size: None,
        align: None,
    })
}

pub(super) fn structure(alloc: Global, members: Vec<StructMemberType>) -> Result<Type, AllocError> {
    let ty = StructType {
        name: String::new(alloc),
        members,
    };
    Ok(Type::Struct(Box::new(alloc, ty)?))
}

fn vector(alloc: Global, content: Type) -> Result<Type, AllocError> {
    Ok(Type::Vec(3, boxed(alloc, content)?))
}

fn matrix(alloc: Global, content: Type) -> Result<Type, AllocError> {
    Ok(Type::Mat(3, 2, boxed(alloc, content)?))
}

fn atomic(alloc: Global, content: Type) -> Result<Type, AllocError> {
    Ok(Type::Atomic(boxed(alloc, content)?))
}

fn array(alloc: Global, element: Type, count: Option<usize>) -> Result<Type, AllocError> {
    Ok(Type::Array(boxed(alloc, element)?, count))
}

fn add_member(
    alloc: Global,
    members: &mut Vec<StructMemberType>,
    ty: Type,
) -> Result<(), AllocError> {
    members.push(member(alloc, ty)?)?;
    Ok(())
}

fn add_members_of_light(
    alloc: Global,
    members: &mut Vec<StructMemberType>,
) -> Result<(), AllocError> {
    add_member(alloc, members, vector(alloc, Type::F32)?)?;
    add_member(alloc, members, Type::F32)?;
    add_member(alloc, members, atomic(alloc, Type::U32)?)
}

/// struct Light { color: vec3<f32>, power: f32, count: atomic<u32> }
fn light(alloc: Global) -> Result<Type, AllocError> {
    let mut members = Vec::new(alloc);
    add_members_of_light(alloc, &mut members)?;
    structure(alloc, members)
}

fn add_members_of_scene(
    alloc: Global,
    members: &mut Vec<StructMemberType>,
) -> Result<(), AllocError> {
    add_member(alloc, members, Type::U32)?;
    add_member(alloc, members, vector(alloc, Type::F32)?)?;
    let matrices = array(alloc, matrix(alloc, Type::F32)?, Some(4))?;
    add_member(alloc, members, matrices)?;
    let lights = array(alloc, light(alloc)?, None)?;
    add_member(alloc, members, lights)
}

/// struct Scene { a: u32, b: vec3<f32>, c: array<mat3x2<f32>, 4>, d: array<Light> }
pub(super) fn scene(alloc: Global) -> Result<Type, AllocError> {
    let mut members = Vec::new(alloc);
    add_members_of_scene(alloc, &mut members)?;
    structure(alloc, members)
}

/// The table of `scene`, with its names.
pub(super) fn scene_table(rt: &impl Abort, alloc: Global) -> Vec<Node> {
    let ty = scene(alloc).expect(rt, "memory");
    let made = nodes_of(alloc, &ty).expect(rt, "memory");
    drop(ty);
    let mut nodes = made.expect(rt, "a table");
    for (number, start, end) in NAMED {
        assert_that(rt, set_name(nodes.as_mut_slice(), *number, *start, *end));
    }
    nodes
}
