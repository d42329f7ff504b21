//! What types break in variables of each address space.

use crate::tests::asserts::{assert_row, assert_same};
use crate::tests::reading::{asked, declared, mode, parted, space, ty};
use crate::tests::shared::{named, text_of};
use std::alloc::Global;
use std::process::Abort;
use wgsl_interface::{may_be_of, share_faults};
use wgsl_rules::AddressSpace::Uniform;
use wgsl_rules::{StructType, Type};
use wgsl_samples::types::structure;

const STRUCTURES: &str = "\
    Empty {}
    OfEmpty { a: Empty }
    Bools { on: bool; all: array<bool, 2> }
    Counter { n: atomic<i32> }
    Open { n: u32; r: array<f32> }
    OpenFirst { r: array<f32>; n: u32 }
    OpenInside { s: Open }
    OpenInFront { s: Open; n: u32 }
    Comparing { s: sampler_comparison }
    Inner { c: bool; d: atomic<u32> }
    Middle { x: array<u32>; b: array<Inner, 3> }
    ManyFaults { a: Middle; e: array<array<f32>> }";

/// The sorts of variables of which a row of five tells what a type breaks in them: those of a function or of private
/// space, of workgroup space, of uniform space, of storage space that is not read_write, and of one that is.
const VARIABLES: [(&str, usize); 10] = [
    ("function -", 0),
    ("private -", 0),
    ("private read_write", 0),
    ("workgroup -", 1),
    ("uniform -", 2),
    ("uniform read_write", 2),
    ("storage -", 3),
    ("storage read", 3),
    ("storage write", 3),
    ("storage read_write", 4),
];

/// Types, and what they break in variables of five sorts, or in those of any.
const FAULTS: &str = "\
    numbers_are_in_each_space: i32 = nothing
    numbers_are_in_each_space: u32 = nothing
    numbers_are_in_each_space: f32 = nothing
    numbers_are_in_each_space: f16 = nothing
    numbers_are_in_each_space: i64 = nothing
    numbers_are_in_each_space: u64 = nothing
    numbers_are_in_each_space: f64 = nothing
    numbers_are_in_each_space: vec2<f32> = nothing
    numbers_are_in_each_space: vec4<u32> = nothing
    numbers_are_in_each_space: mat2x3<f32> = nothing
    numbers_are_in_each_space: array<u32, 1> = nothing
    abstract_numbers_are_in_none: AbstractInt = abstract-type
    abstract_numbers_are_in_none: AbstractFloat = abstract-type
    abstract_numbers_are_in_none: vec3<AbstractInt> = abstract-type
    abstract_numbers_are_in_none: mat2x3<AbstractFloat> = abstract-type
    abstract_numbers_are_in_none: array<AbstractInt, 2> = [] abstract-type
    shapes_that_no_type_has: vec1<u32> = shape
    shapes_that_no_type_has: vec5<u32> = shape
    shapes_that_no_type_has: vec2<vec2<u32>> = shape
    shapes_that_no_type_has: mat2x3<bool> = shape
    shapes_that_no_type_has: mat1x2<f32> = shape
    shapes_that_no_type_has: mat2x1<f32> = shape
    shapes_that_no_type_has: mat5x4<f32> = shape
    shapes_that_no_type_has: mat4x5<f32> = shape
    shapes_that_no_type_has: array<u32, 0> = shape
    shapes_that_no_type_has: Empty = shape
    shapes_that_no_type_has: OfEmpty = a shape
    bools_are_not_shared: bool = nothing | nothing | bool-shared | bool-shared | bool-shared
    bools_are_not_shared: vec3<bool> = nothing | nothing | bool-shared | bool-shared | bool-shared
    bools_are_not_shared: array<vec2<bool>, 4> = nothing | nothing | [] bool-shared | [] bool-shared | [] bool-shared
    bools_are_not_shared: Bools = nothing | nothing | on bool-shared, all[] bool-shared | on bool-shared, all[] bool-shared | on bool-shared, all[] bool-shared
    atomics_are_written_where_threads_share_them: atomic<u32> = atomic-space | nothing | atomic-space | atomic-access | nothing
    atomics_are_written_where_threads_share_them: atomic<i32> = atomic-space | nothing | atomic-space | atomic-access | nothing
    atomics_are_written_where_threads_share_them: array<array<atomic<u32>, 2>, 3> = [][] atomic-space | nothing | [][] atomic-space | [][] atomic-access | nothing
    atomics_are_written_where_threads_share_them: Counter = n atomic-space | nothing | n atomic-space | n atomic-access | nothing
    atomics_hold_numbers_of_32_bits: atomic<f32> = atomic-content, atomic-space | atomic-content | atomic-content, atomic-space | atomic-content, atomic-access | atomic-content
    atomics_hold_numbers_of_32_bits: atomic<bool> = atomic-content, atomic-space | atomic-content | atomic-content, atomic-space | atomic-content, atomic-access | atomic-content
    atomics_hold_numbers_of_32_bits: atomic<u64> = atomic-content, atomic-space | atomic-content | atomic-content, atomic-space | atomic-content, atomic-access | atomic-content
    atomics_hold_numbers_of_32_bits: atomic<AbstractInt> = atomic-content, atomic-space | atomic-content | atomic-content, atomic-space | atomic-content, atomic-access | atomic-content
    atomics_hold_numbers_of_32_bits: atomic<vec2<u32>> = atomic-content, atomic-space | atomic-content | atomic-content, atomic-space | atomic-content, atomic-access | atomic-content
    atomics_hold_numbers_of_32_bits: atomic<atomic<u32>> = atomic-content, atomic-space | atomic-content | atomic-content, atomic-space | atomic-content, atomic-access | atomic-content
    runtime_sized_arrays_are_stored_alone: array<f32> = runtime-space | runtime-space | runtime-space | nothing | nothing
    runtime_sized_arrays_are_stored_alone: array<bool> = runtime-space | runtime-space | runtime-space, [] bool-shared | [] bool-shared | [] bool-shared
    runtime_sized_arrays_are_stored_alone: Open = r runtime-space | r runtime-space | r runtime-space | nothing | nothing
    runtime_sized_arrays_are_last_members: OpenFirst = r runtime-not-last, r runtime-space | r runtime-not-last, r runtime-space | r runtime-not-last, r runtime-space | r runtime-not-last | r runtime-not-last
    runtime_sized_arrays_are_last_members: OpenInside = s runtime-in-struct, s.r runtime-space | s runtime-in-struct, s.r runtime-space | s runtime-in-struct, s.r runtime-space | s runtime-in-struct | s runtime-in-struct
    runtime_sized_arrays_are_last_members: OpenInFront = s runtime-in-struct, s.r runtime-space | s runtime-in-struct, s.r runtime-space | s runtime-in-struct, s.r runtime-space | s runtime-in-struct | s runtime-in-struct
    runtime_sized_arrays_are_no_elements: array<array<f32>, 2> = [] runtime-in-array, [] runtime-space | [] runtime-in-array, [] runtime-space | [] runtime-in-array, [] runtime-space | [] runtime-in-array | [] runtime-in-array
    runtime_sized_arrays_are_no_elements: array<array<f32>> = runtime-space, [] runtime-in-array, [] runtime-space | runtime-space, [] runtime-in-array, [] runtime-space | runtime-space, [] runtime-in-array, [] runtime-space | [] runtime-in-array | [] runtime-in-array
    runtime_sized_arrays_are_no_elements: array<Open, 2> = [] runtime-in-array, [].r runtime-space | [] runtime-in-array, [].r runtime-space | [] runtime-in-array, [].r runtime-space | [] runtime-in-array | [] runtime-in-array
    pointers_are_not_plain: ref<u32, storage read> = not-plain
    pointers_are_not_plain: ptr<bool, private read> = not-plain
    pointers_are_not_plain: array<ref<u32, storage read>, 2> = [] not-plain
    textures_and_samplers_are_handles: Comparing = s not-plain
    faults_stand_in_the_order_of_the_type: ManyFaults = a.x runtime-not-last, a.x runtime-space, a.b[].d atomic-space, e runtime-space, e[] runtime-in-array, e[] runtime-space | a.x runtime-not-last, a.x runtime-space, e runtime-space, e[] runtime-in-array, e[] runtime-space | a.x runtime-not-last, a.x runtime-space, a.b[].c bool-shared, a.b[].d atomic-space, e runtime-space, e[] runtime-in-array, e[] runtime-space | a.x runtime-not-last, a.b[].c bool-shared, a.b[].d atomic-access, e[] runtime-in-array | a.x runtime-not-last, a.b[].c bool-shared, e[] runtime-in-array";

/// Asserts what the type breaks in a variable, as one of `storage read`.
fn assert_faults(
    rt: &impl Abort,
    alloc: Global,
    row: &str,
    ty: &Type,
    variable: &str,
    wanted: &str,
) {
    let (name, access) = parted(rt, variable, " ");
    let (space, access) = (space(rt, name), mode(rt, access));
    let faults = share_faults(alloc, ty, space, access).expect(rt, "memory");
    assert_row(rt, row, faults.is_empty(), may_be_of(ty, space, access));
    let text = text_of(rt, alloc, faults);
    let wanted = if wanted == "nothing" { "" } else { wanted };
    assert_row(rt, row, (variable, text.as_str()), (variable, wanted));
    drop(text);
}

/// Asserts the row, and that the type breaks `not-handle` in variables of the handle space.
fn assert_spaces(rt: &impl Abort, alloc: Global, known: &[StructType], row: &str) {
    let (question, wanted) = asked(rt, row);
    let ty = ty(rt, alloc, known, question);
    for (variable, sort) in VARIABLES {
        let wanted = wanted.split(" | ").nth(sort).unwrap_or(wanted);
        assert_faults(rt, alloc, row, &ty, variable, wanted);
    }
    assert_faults(rt, alloc, row, &ty, "handle -", "not-handle");
    assert_faults(rt, alloc, row, &ty, "handle read_write", "not-handle");
    drop(ty);
}

#[test]
fn what_types_break_in_each_space(rt: HostRuntime) {
    let alloc = rt.alloc();
    let known = declared(&rt, alloc, STRUCTURES);
    for row in FAULTS.lines() {
        assert_spaces(&rt, alloc, &known, row);
    }
    drop(known);
}

/// Variables, and what textures and samplers break in them.
const HANDLES: [(&str, &str); 7] = [
    ("handle -", "nothing"),
    ("handle read", "nothing"),
    ("function -", "not-plain"),
    ("private -", "not-plain"),
    ("workgroup -", "not-plain"),
    ("uniform -", "not-plain"),
    ("storage read_write", "not-plain"),
];

#[test]
fn textures_and_samplers_are_handles(rt: HostRuntime) {
    let alloc = rt.alloc();
    for name in ["texture_2d", "sampler"] {
        let ty = ty(&rt, alloc, &[], name);
        for (variable, wanted) in HANDLES {
            assert_faults(&rt, alloc, name, &ty, variable, wanted);
        }
        drop(ty);
    }
}

/// A structure of so many members of the type, m0, m1 and so on.
fn of_members(rt: &impl Abort, alloc: Global, count: usize) -> Type {
    let mut members = Vec::new(alloc);
    for i in 0..count {
        let name = format!(in alloc; "m{i}").expect(rt, "memory");
        let member = named(rt, alloc, name.as_str(), Type::Bool);
        members.push(member).expect(rt, "memory");
        drop(name);
    }
    structure(alloc, "S", members).expect(rt, "memory")
}

/// Asserts how many faults are told of the type in uniform space, and the path of the last.
fn assert_last(rt: &impl Abort, alloc: Global, ty: Type, count: usize, path: &str) {
    let faults = share_faults(alloc, &ty, Uniform, None).expect(rt, "memory");
    assert_same(rt, faults.len(), count);
    let last = faults.last().expect(rt, "a fault");
    assert_same(rt, last.path.as_str(), path);
    drop((ty, faults));
}

#[test]
fn a_hundred_faults_are_told(rt: HostRuntime) {
    let alloc = rt.alloc();
    assert_last(&rt, alloc, of_members(&rt, alloc, 99), 99, "m98");
    assert_last(&rt, alloc, of_members(&rt, alloc, 100), 100, "m99");
    assert_last(&rt, alloc, of_members(&rt, alloc, 101), 100, "m99");
    assert_last(&rt, alloc, of_members(&rt, alloc, 150), 100, "m99");
}
