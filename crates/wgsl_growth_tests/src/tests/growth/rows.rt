//! Worked examples of layouts: their bytes, and what these lay out.

use crate::tests::asserts::assert_answer;
use crate::tests::samples::{
    array, array_from, array_of, member, of_two, pair_with, two_elements, two_members, vector,
    vector_of,
};
use std::alloc::Global;
use std::process::Abort;
use wgsl_rules::{StructType, Ty, Type};
use wgsl_samples::values::bytes_of;
use wgsl_store::Buffers;
use wgsl_values::{ArrayInstance, Instance};

/// struct S { a: vec4<u32>, b: array<u32> }
fn behind_a_vector(rt: &impl Abort, alloc: Global) -> StructType {
    let a = member(rt, alloc, "a", vector(rt, alloc, 4, Type::U32));
    let b = member(rt, alloc, "b", array(rt, alloc, Type::U32, None));
    two_members(rt, alloc, a, b)
}

/// S(vec4(1u, 2u, 3u, 4u), array(..)), with the elements.
fn elements_behind_a_vector(rt: &impl Abort, alloc: Global, elements: &[u32]) -> Instance {
    let ty = behind_a_vector(rt, alloc);
    let a = Instance::from(vector_of(rt, alloc, &[1, 2, 3, 4]));
    let b = Instance::from(array_of(rt, alloc, elements, true));
    Instance::from(of_two(rt, alloc, ty, a, b))
}

/// array(vec2(2u, 3u)), runtime-sized
fn one_pair(rt: &impl Abort, alloc: Global) -> ArrayInstance {
    let element = Instance::from(vector_of(rt, alloc, &[2, 3]));
    array_from(rt, made!(rt; vec![in alloc; element]), true)
}

/// S(1u, array(vec2(2u, 3u))), whose type is struct S { a: u32, b: array<vec2<u32>> }
fn pairs_behind_a_scalar(rt: &impl Abort, alloc: Global) -> Instance {
    let pairs = array(rt, alloc, vector(rt, alloc, 2, Type::U32), None);
    let a = member(rt, alloc, "a", Type::U32);
    let ty = two_members(rt, alloc, a, member(rt, alloc, "b", pairs));
    let b = Instance::from(one_pair(rt, alloc));
    Instance::from(of_two(rt, alloc, ty, Instance::from(1u32), b))
}

/// S(1u, 2u), whose type is struct S { @size(16) a: u32, b: u32 }
fn sized(rt: &impl Abort, alloc: Global) -> Instance {
    let mut a = member(rt, alloc, "a", Type::U32);
    a.size = Some(16);
    let ty = two_members(rt, alloc, a, member(rt, alloc, "b", Type::U32));
    Instance::from(of_two(rt, alloc, ty, Instance::from(1u32), Instance::from(2u32)))
}

/// array(vec3(1u, 2u, 3u), vec3(4u, 5u, 6u))
fn two_vectors(rt: &impl Abort, alloc: Global) -> Instance {
    let first = vector_of(rt, alloc, &[1, 2, 3]);
    Instance::from(two_elements(rt, alloc, first, vector_of(rt, alloc, &[4, 5, 6])))
}

/// Asserts that the words, each little-endian, are the bytes of the value, and lay it out.
fn assert_laid_out(rt: &impl Abort, alloc: Global, value: &Instance, words: &[u32]) {
    assert!(rt; value.is_storable());
    assert!(rt; value.is_well_formed());
    let bytes = made!(rt; bytes_of(alloc, words));
    let buffer = answer_of!(rt; value.to_buffer(alloc));
    assert_answer(rt, buffer, Some(&bytes));
    let ty = made!(rt; value.ty(alloc));
    let read = answer_of!(rt; Instance::from_buffer(alloc, &bytes, &ty));
    assert_answer(rt, read, Some(value));
    drop(ty);
}

#[test]
fn values_and_their_bytes(rt: HostRuntime) {
    let alloc = rt.alloc();
    let rows: [(Instance, &[u32]); 7] = [
        (
            Instance::from(pair_with(&rt, alloc, 1)),
            &[1, 0, 0, 0, 2, 3, 4, 0],
        ),
        (two_vectors(&rt, alloc), &[1, 2, 3, 0, 4, 5, 6, 0]),
        (
            elements_behind_a_vector(&rt, alloc, &[5, 6]),
            &[1, 2, 3, 4, 5, 6],
        ),
        (pairs_behind_a_scalar(&rt, alloc), &[1, 0, 2, 3]),
        (
            Instance::from(array_of(&rt, alloc, &[10, 11, 12], true)),
            &[10, 11, 12],
        ),
        (Instance::from(vector_of(&rt, alloc, &[5, 6])), &[5, 6]),
        (sized(&rt, alloc), &[1, 0, 0, 0, 2]),
    ];
    for (value, words) in &rows {
        assert_laid_out(&rt, alloc, value, words);
    }
    drop(rows);
}

#[test]
fn as_many_elements_as_there_are_bytes(rt: HostRuntime) {
    let alloc = rt.alloc();
    let ty = Type::Struct(made!(&rt; Box::new(alloc, behind_a_vector(&rt, alloc))));
    let one = elements_behind_a_vector(&rt, alloc, &[5]);
    let two = elements_behind_a_vector(&rt, alloc, &[5, 6]);
    let bytes = made!(&rt; bytes_of(alloc, &[1, 2, 3, 4, 5, 6]));
    for (len, wanted) in [
        (19, None),
        (20, Some(&one)),
        (23, Some(&one)),
        (24, Some(&two)),
    ] {
        let bytes = bytes.get(..len).expect(&rt, "as many bytes");
        let read = answer_of!(&rt; Instance::from_buffer(alloc, bytes, &ty));
        assert_answer(&rt, read, wanted);
    }
    drop((ty, one, two));
}

#[test]
fn no_pair_behind_a_scalar_in_fifteen_bytes(rt: HostRuntime) {
    let alloc = rt.alloc();
    let value = pairs_behind_a_scalar(&rt, alloc);
    assert!(rt; value.is_well_formed());
    let ty = made!(&rt; value.ty(alloc));
    let none = answer_of!(&rt; Instance::from_buffer(alloc, &[0u8; 15], &ty));
    assert_answer(&rt, none, None);
    drop((value, ty));
}
