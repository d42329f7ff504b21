//! Which types are plain, concrete, storable, constructible, shared with the host, and of a fixed footprint.

use crate::tests::asserts::assert_row;
use crate::tests::reading::{asked, declared, ty};
use std::process::Abort;
use wgsl_interface::{
    has_creation_fixed_footprint, has_fixed_footprint, is_concrete, is_constructible,
    is_host_shareable, is_plain, is_storable,
};

const STRUCTURES: &str = "\
    Empty {}
    Float { a: f32 }
    Truth { a: bool }
    Number { a: AbstractInt }
    Sampling { a: sampler }
    Counter { a: atomic<u32> }
    Open { n: u32; r: array<f32> }
    OpenInside { a: Open }";

/// Whether types of a sort are plain, concrete, storable, constructible, host-shareable, and of a fixed footprint.
const NUMBER: [bool; 6] = [true, true, true, true, true, true];

const BOOL: [bool; 6] = [true, true, true, true, false, true];

const ABSTRACT: [bool; 6] = [true, false, false, true, false, true];

const ATOMIC: [bool; 6] = [true, true, true, false, true, true];

const RUNTIME_SIZED: [bool; 6] = [true, true, true, false, true, false];

const NOT_PLAIN: [bool; 6] = [false, true, false, false, false, false];

const HANDLE: [bool; 6] = [false, true, true, false, false, false];

/// Types and their sorts.
const SORTS: &str = "\
    sorts_of_scalars: i32 = number
    sorts_of_scalars: u32 = number
    sorts_of_scalars: f32 = number
    sorts_of_scalars: f16 = number
    sorts_of_scalars: i64 = number
    sorts_of_scalars: u64 = number
    sorts_of_scalars: f64 = number
    sorts_of_scalars: bool = bool
    sorts_of_scalars: AbstractInt = abstract
    sorts_of_scalars: AbstractFloat = abstract
    sorts_of_scalars: atomic<i32> = atomic
    sorts_of_scalars: atomic<f32> = not plain
    sorts_of_scalars: ref<u32, storage read> = not plain
    sorts_of_scalars: sampler = handle
    sorts_of_vectors_and_matrices: vec4<f16> = number
    sorts_of_vectors_and_matrices: vec3<bool> = bool
    sorts_of_vectors_and_matrices: vec2<AbstractInt> = abstract
    sorts_of_vectors_and_matrices: vec1<f32> = not plain
    sorts_of_vectors_and_matrices: mat2x3<f32> = number
    sorts_of_vectors_and_matrices: mat2x3<AbstractFloat> = abstract
    sorts_of_vectors_and_matrices: mat2x3<bool> = not plain
    sorts_of_arrays: array<f32, 2> = number
    sorts_of_arrays: array<bool, 2> = bool
    sorts_of_arrays: array<AbstractInt, 2> = abstract
    sorts_of_arrays: array<atomic<u32>, 2> = atomic
    sorts_of_arrays: array<f32, 0> = not plain
    sorts_of_arrays: array<f32> = runtime-sized
    sorts_of_arrays: array<array<f32>, 2> = not plain
    sorts_of_arrays: array<sampler, 2> = not plain
    sorts_of_structures: Float = number
    sorts_of_structures: Truth = bool
    sorts_of_structures: Number = abstract
    sorts_of_structures: Sampling = not plain
    sorts_of_structures: Counter = atomic
    sorts_of_structures: Open = runtime-sized
    sorts_of_structures: OpenInside = not plain
    sorts_of_structures: Empty = not plain";

fn sort(rt: &impl Abort, name: &str) -> [bool; 6] {
    match name {
        "number" => NUMBER,
        "bool" => BOOL,
        "abstract" => ABSTRACT,
        "atomic" => ATOMIC,
        "runtime-sized" => RUNTIME_SIZED,
        "not plain" => NOT_PLAIN,
        "handle" => HANDLE,
        _ => panic!(rt; "{name} is no sort"),
    }
}

#[test]
fn sorts_of_types(rt: HostRuntime) {
    let alloc = rt.alloc();
    let known = declared(&rt, alloc, STRUCTURES);
    for row in SORTS.lines() {
        let (question, wanted) = asked(&rt, row);
        let ty = ty(&rt, alloc, &known, question);
        let found = [
            is_plain(&ty),
            is_concrete(&ty),
            is_storable(&ty),
            is_constructible(&ty),
            is_host_shareable(&ty),
            has_fixed_footprint(&ty),
        ];
        let wanted = sort(&rt, wanted);
        assert_row(&rt, row, found, wanted);
        let [_, _, _, _, _, fixed] = wanted;
        assert_row(&rt, row, has_creation_fixed_footprint(&ty), fixed);
        drop(ty);
    }
    drop(known);
}
