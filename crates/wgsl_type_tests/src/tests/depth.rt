//! Calls that call themselves for each level of a type, on types of as many levels as `DEPTH` in the environment says.
//! `tools/depths` runs them with the levels and the stack of `docs/DEPTH.md`.

use crate::tests::asserts::{assert_same, assert_that};
use crate::tests::samples::array;
use std::alloc::Global;
use std::process::Abort;
use std::rt::Env;
use std::str;
use wgsl_interface::{
    has_creation_fixed_footprint, has_fixed_footprint, is_concrete, is_constructible,
    is_host_shareable, is_plain, is_storable, may_be_of, share_faults, struct_faults,
};
use wgsl_rules::AddressSpace::{Private, Storage};
use wgsl_rules::{StructType, Type};
use wgsl_samples::types::{member, struct_type};

fn number(digits: Option<&[u8]>) -> Option<usize> {
    str::from_utf8(digits?).ok()?.parse().ok()
}

/// How many levels types have: `DEPTH`, and 200 where the environment has none.
fn levels<R: Env + Abort>(rt: &R) -> usize {
    let mut digits = [0u8; 32];
    match rt.var("DEPTH", &mut digits) {
        Ok(count) => number(digits.get(..count)).expect(rt, "a number of levels"),
        Err(_) => 200,
    }
}

/// The type of so many arrays of one element, each in the next, and the type in the innermost.
fn arrays(rt: &impl Abort, alloc: Global, levels: usize, inside: Type) -> Type {
    let mut ty = inside;
    for _ in 0..levels {
        ty = array(rt, alloc, ty, Some(1));
    }
    ty
}

/// struct S { m: T }
fn structure(rt: &impl Abort, alloc: Global, inside: Type) -> StructType {
    let member = member(alloc, "m", inside, None).expect(rt, "memory");
    let members = vec![in alloc; member].expect(rt, "memory");
    struct_type(alloc, "S", members).expect(rt, "memory")
}

/// The type of so many structures, each the only member of the next, and the type in the innermost.
fn structures(rt: &impl Abort, alloc: Global, levels: usize, inside: Type) -> Type {
    let mut ty = inside;
    for _ in 0..levels {
        let outer = structure(rt, alloc, ty);
        ty = Type::Struct(Box::new(alloc, outer).expect(rt, "memory"));
    }
    ty
}

/// Asserts what is told of a type whose innermost part is a bool, and how long the path of that part is.
fn assert_of_bool(rt: &impl Abort, alloc: Global, ty: Type, length: usize) {
    let faults = share_faults(alloc, &ty, Storage, None).expect(rt, "memory");
    assert_same(rt, faults.len(), 1);
    assert_same(
        rt,
        faults.first().map(|fault| fault.path.len()),
        Some(length),
    );
    assert_that(rt, may_be_of(&ty, Private, None));
    assert_that(rt, !may_be_of(&ty, Storage, None));
    assert_that(rt, is_plain(&ty));
    assert_that(rt, is_concrete(&ty));
    assert_that(rt, is_storable(&ty));
    assert_that(rt, is_constructible(&ty));
    assert_that(rt, !is_host_shareable(&ty));
    assert_that(rt, has_fixed_footprint(&ty));
    assert_that(rt, has_creation_fixed_footprint(&ty));
}

#[test]
fn a_bool_in_arrays(rt: HostRuntime) {
    let alloc = rt.alloc();
    let levels = levels(&rt);
    let ty = arrays(&rt, alloc, levels, Type::Bool);
    assert_of_bool(&rt, alloc, ty, levels.saturating_mul(2));
}

#[test]
fn a_bool_in_structures(rt: HostRuntime) {
    let alloc = rt.alloc();
    let levels = levels(&rt);
    let ty = structures(&rt, alloc, levels, Type::Bool);
    assert_of_bool(&rt, alloc, ty, levels.saturating_mul(2).saturating_sub(1));
}

/// Asserts how long the path of the one fault is that is told of the structure.
fn assert_declared(rt: &impl Abort, alloc: Global, ty: StructType, length: usize) {
    let faults = struct_faults(alloc, &ty).expect(rt, "memory");
    assert_same(rt, faults.len(), 1);
    assert_same(
        rt,
        faults.first().map(|fault| fault.path.len()),
        Some(length),
    );
}

#[test]
fn an_abstract_number_in_arrays_of_a_member(rt: HostRuntime) {
    let alloc = rt.alloc();
    let inside = levels(&rt).saturating_sub(1);
    let arrays = arrays(&rt, alloc, inside, Type::AbstractInt);
    let length = inside.saturating_mul(2).saturating_add(1);
    assert_declared(&rt, alloc, structure(&rt, alloc, arrays), length);
}
