//! Values: when they can be made, what they are made from, when they are equal and may be stored.

ghost use Rattle.wgsl_rules.specs.Values.{IsStorable};
ghost use Rattle.wgsl_values.specs.View.{struct_view};

use crate::tests::asserts::{assert_gives, assert_is, assert_is_not, assert_row, assert_same};
use crate::tests::reading::{asked, is_true, parted, parts};
use crate::tests::samples::{
    KINDS, array_of, atomic_of, integers, mat2x3, mat3x2, member_then_index, of_kind, pair_members,
    pair_type, pair_value, reference_of, twins, vector, vector_from, vector_of,
};
use std::alloc::Global;
use std::mem;
use std::process::Abort;
use wgsl_rules::{AccessMode, AddressSpace, StructType, Type};
use wgsl_samples::types::struct_type;
use wgsl_scalar::LiteralInstance;
use wgsl_scalar::LiteralInstance::{AbstractInt, Bool, I32, I64, U32};
use wgsl_values::{
    ArrayInstance, AtomicInstance, Instance, MatInstance, MemView, PtrInstance, RefInstance,
    SharedStructType, StructInstance, VecInstance,
};

/// Sorts of values, parts, and whether there is a value of the sort that has these parts.
const MADE: &str = "\
    a_vector_has_two_to_four_literals_of_one_kind: vector of nothing = false
    a_vector_has_two_to_four_literals_of_one_kind: vector of 1u = false
    a_vector_has_two_to_four_literals_of_one_kind: vector of 1u; 2u = true
    a_vector_has_two_to_four_literals_of_one_kind: vector of 1u; 2u; 3u = true
    a_vector_has_two_to_four_literals_of_one_kind: vector of 1u; 2u; 3u; 4u = true
    a_vector_has_two_to_four_literals_of_one_kind: vector of 1u; 2u; 3u; 4u; 5u = false
    a_vector_has_two_to_four_literals_of_one_kind: vector of 1u; 2i = false
    a_vector_has_two_to_four_literals_of_one_kind: vector of true; false = true
    a_vector_has_two_to_four_literals_of_one_kind: vector of vec2(1u, 2u); vec2(3u, 4u) = false
    a_vector_has_two_to_four_literals_of_one_kind: vector of deferred u32; deferred u32 = false
    an_array_has_elements_of_one_type: array of nothing = false
    an_array_has_elements_of_one_type: array of 1u = true
    an_array_has_elements_of_one_type: array of 1u; 2u; 3u; 4u; 5u = true
    an_array_has_elements_of_one_type: array of 1u; 2i = false
    an_array_has_elements_of_one_type: array of vec2(1u, 2u); vec2(3u, 4u) = true
    an_array_has_elements_of_one_type: array of vec2(1u, 2u); vec3(3u, 4u, 5u) = false
    an_array_has_elements_of_one_type: array of deferred u32 = false
    an_array_has_elements_of_one_type: fixed array of nothing = false
    an_array_has_elements_of_one_type: fixed array of 1u = true
    an_array_has_elements_of_one_type: fixed array of 1u; 2u; 3u; 4u; 5u = true
    an_array_has_elements_of_one_type: fixed array of 1u; 2i = false
    an_array_has_elements_of_one_type: fixed array of vec2(1u, 2u); vec2(3u, 4u) = true
    an_array_has_elements_of_one_type: fixed array of vec2(1u, 2u); vec3(3u, 4u, 5u) = false
    an_array_has_elements_of_one_type: fixed array of deferred u32 = false
    a_matrix_has_two_to_four_vectors_of_one_type: matrix of nothing = false
    a_matrix_has_two_to_four_vectors_of_one_type: matrix of vec3(1u, 2u, 3u) = false
    a_matrix_has_two_to_four_vectors_of_one_type: matrix of vec3(1u, 2u, 3u); vec3(1u, 2u, 3u) = true
    a_matrix_has_two_to_four_vectors_of_one_type: matrix of vec3(1u, 2u, 3u); vec3(1u, 2u, 3u); vec3(1u, 2u, 3u) = true
    a_matrix_has_two_to_four_vectors_of_one_type: matrix of vec3(1u, 2u, 3u); vec3(1u, 2u, 3u); vec3(1u, 2u, 3u); vec3(1u, 2u, 3u) = true
    a_matrix_has_two_to_four_vectors_of_one_type: matrix of vec3(1u, 2u, 3u); vec3(1u, 2u, 3u); vec3(1u, 2u, 3u); vec3(1u, 2u, 3u); vec3(1u, 2u, 3u) = false
    a_matrix_has_two_to_four_vectors_of_one_type: matrix of vec2(1u, 2u); vec3(3u, 4u, 5u) = false
    a_matrix_has_two_to_four_vectors_of_one_type: matrix of vec2(1u, 2u); vec2(1i, 2i) = false
    a_matrix_has_two_to_four_vectors_of_one_type: matrix of 1u; 2u = false
    an_atomic_holds_an_i32_or_a_u32: atomic of -5i = true
    an_atomic_holds_an_i32_or_a_u32: atomic of 5u = true
    an_atomic_holds_an_i32_or_a_u32: atomic of 5 = false
    an_atomic_holds_an_i32_or_a_u32: atomic of 5li = false
    an_atomic_holds_an_i32_or_a_u32: atomic of 5lu = false
    an_atomic_holds_an_i32_or_a_u32: atomic of true = false
    an_atomic_holds_an_i32_or_a_u32: atomic of vec2(1u, 2u) = false
    an_atomic_holds_an_i32_or_a_u32: atomic of deferred u32 = false
    a_structure_has_the_members_of_its_type: Pair of 1u; vec3(2u, 3u, 4u) = true
    a_structure_has_the_members_of_its_type: Pair of 1i; vec3(2u, 3u, 4u) = false
    a_structure_has_the_members_of_its_type: Pair of 1u; vec2(2u, 3u) = false
    a_structure_has_the_members_of_its_type: Pair of 1u; deferred vec3<u32> = false
    a_structure_has_the_members_of_its_type: Pair of 1u = false
    a_structure_has_the_members_of_its_type: Pair of 1u; vec3(2u, 3u, 4u); 5u = false
    a_structure_has_the_members_of_its_type: None of nothing = true";

/// Whether there is a structure of the type that has these members.
fn structure_has(ty: StructType, members: &[Instance]) -> bool {
    let has = StructInstance::can_make(&ty, members);
    drop(ty);
    has
}

/// Whether there is a value of the sort that has these parts.
fn has_parts(rt: &impl Abort, alloc: Global, sort: &str, parts: &[Instance]) -> bool {
    match sort {
        "vector" => VecInstance::can_make(parts),
        "array" => ArrayInstance::can_make(parts, true),
        "fixed array" => ArrayInstance::can_make(parts, false),
        "matrix" => MatInstance::can_make(parts),
        "atomic" => AtomicInstance::can_make(parts.first().expect(rt, "a part")),
        "Pair" => structure_has(pair_type(rt, alloc), parts),
        "None" => {
            let none = struct_type(alloc, "None", Vec::new(alloc));
            structure_has(none.expect(rt, "memory"), parts)
        }
        _ => panic!(rt; "{sort} is no sort of values"),
    }
}

#[test]
fn values_have_the_parts_of_their_sort(rt: HostRuntime) {
    let alloc = rt.alloc();
    for row in MADE.lines() {
        let (question, wanted) = asked(&rt, row);
        let (sort, words) = parted(&rt, question, " of ");
        let parts = parts(&rt, alloc, words);
        let found = has_parts(&rt, alloc, sort, &parts);
        assert_row(&rt, row, found, is_true(&rt, wanted));
        drop(parts);
    }
}

#[test]
fn an_atomic_holds_an_i32_or_a_u32(rt: HostRuntime) {
    let held = atomic_of(&rt, rt.alloc(), I32(-5));
    assert_is(&rt, held.inner(), Instance::from(-5i32));
    drop(held);
}

/// Pair(a, vec3(2u, 3u, 4u)), of the type.
fn pair_of(rt: &impl Abort, alloc: Global, ty: SharedStructType, a: u32) -> StructInstance
    ensures { IsStorable (struct_view result) }
{
    let members = pair_members(rt, alloc, a);
    assert!(rt; StructInstance::can_make(ty.get(), &members));
    StructInstance::of_shared(ty, members)
}

/// The type of pairs, to be shared.
fn shared_pair_type(rt: &impl Abort, alloc: Global) -> SharedStructType {
    let ty = pair_type(rt, alloc);
    SharedStructType::new(alloc, ty).expect(rt, "memory")
}

/// The same type for another value.
fn again(rt: &impl Abort, alloc: Global, ty: &SharedStructType) -> SharedStructType {
    ty.clone(alloc).expect(rt, "memory")
}

#[test]
fn structures_share_their_type_alone(rt: HostRuntime) {
    let alloc = rt.alloc();
    let shared = shared_pair_type(&rt, alloc);
    let first = pair_of(&rt, alloc, again(&rt, alloc, &shared), 1);
    let mut second = pair_of(&rt, alloc, again(&rt, alloc, first.shared_ty()), 1);
    assert!(rt; first == second);
    if let Some(a) = second.member_mut("a") {
        drop(mem::replace(a, Instance::from(9u32)));
    }
    assert_is(&rt, &first, pair_value(&rt, alloc));
    drop((first, shared));
    let own = SharedStructType::own(pair_type(&rt, alloc));
    assert_same(&rt, second, pair_of(&rt, alloc, own, 9));
}

/// Asserts that a copy of the type, which outlives it, is the first of the other two and not the second.
fn assert_shared(
    rt: &impl Abort,
    alloc: Global,
    shared: SharedStructType,
    ty: &StructType,
    other: &StructType,
) {
    let copy = again(rt, alloc, &shared);
    drop(shared);
    assert!(rt; copy.get() == ty);
    assert!(rt; copy.is_type(ty));
    assert!(rt; !copy.is_type(other));
    let text = format!(in alloc; "{copy:?}").expect(rt, "memory");
    assert_same(rt, text, format!(in alloc; "{ty:?}").expect(rt, "memory"));
    drop(copy);
}

#[test]
fn a_copy_of_a_structure_type_is_that_type(rt: HostRuntime) {
    let alloc = rt.alloc();
    let ty = pair_type(&rt, alloc);
    let other = struct_type(alloc, "Pair", Vec::new(alloc)).expect(&rt, "memory");
    let own = SharedStructType::own(pair_type(&rt, alloc));
    assert_shared(&rt, alloc, own, &ty, &other);
    assert_shared(&rt, alloc, shared_pair_type(&rt, alloc), &ty, &other);
    drop((ty, other));
}

#[test]
fn vectors_are_made_of_literals(rt: HostRuntime) {
    let alloc = rt.alloc();
    let two = VecInstance::from2(alloc, [I32(1), I32(2)]).expect(&rt, "memory");
    assert_same(&rt, two, vector_from(&rt, integers(&rt, alloc, &[1, 2])));
    let three = VecInstance::from3(alloc, [U32(1), U32(2), U32(3)]).expect(&rt, "memory");
    assert_same(&rt, three, vector_of(&rt, alloc, &[1, 2, 3]));
    let four = VecInstance::from4(alloc, [U32(1), U32(2), U32(3), U32(4)]).expect(&rt, "memory");
    assert_same(&rt, four, vector_of(&rt, alloc, &[1, 2, 3, 4]));
}

/// Asserts that the value is the one of the literal.
fn assert_literal(rt: &impl Abort, value: Instance, literal: LiteralInstance) {
    assert_same(rt, value, Instance::Literal(literal));
}

#[test]
fn literals_are_values(rt: HostRuntime) {
    assert_literal(&rt, Instance::from(I64(-7)), I64(-7));
    assert_literal(&rt, Instance::from(true), Bool(true));
    assert_literal(&rt, Instance::from(-4i64), AbstractInt(-4));
    assert_literal(&rt, Instance::from(-5i32), I32(-5));
    assert_literal(&rt, Instance::from(6u32), U32(6));
}

#[test]
fn payloads_are_values(rt: HostRuntime) {
    let alloc = rt.alloc();
    let pair = Instance::from(pair_value(&rt, alloc));
    assert_same(&rt, pair, Instance::Struct(pair_value(&rt, alloc)));
    let array = Instance::from(array_of(&rt, alloc, &[1, 2], false));
    assert_same(
        &rt,
        array,
        Instance::Array(array_of(&rt, alloc, &[1, 2], false)),
    );
    let components = Instance::from(vector_of(&rt, alloc, &[1, 2]));
    assert_same(
        &rt,
        components,
        Instance::Vec(vector_of(&rt, alloc, &[1, 2])),
    );
    let matrix = Instance::from(mat2x3(&rt, alloc));
    assert_same(&rt, matrix, Instance::Mat(mat2x3(&rt, alloc)));
    let reference = Instance::from(reference_of(&rt, alloc));
    assert_same(&rt, reference, Instance::Ref(reference_of(&rt, alloc)));
    let pointer = Instance::from(PtrInstance::from(reference_of(&rt, alloc)));
    assert_same(
        &rt,
        pointer,
        Instance::Ptr(PtrInstance::from(reference_of(&rt, alloc))),
    );
    let atomic = Instance::from(atomic_of(&rt, alloc, U32(5)));
    let held = atomic_of(&rt, alloc, U32(5));
    assert_same(&rt, atomic, Instance::Atomic(held));
    let deferred = Instance::from(vector(&rt, alloc, 2, Type::U32));
    assert_same(
        &rt,
        deferred,
        Instance::Deferred(vector(&rt, alloc, 2, Type::U32)),
    );
}

#[test]
fn payloads_of_values(rt: HostRuntime) {
    let alloc = rt.alloc();
    let seven = Instance::Literal(U32(7));
    assert_same(&rt, seven.unwrap_literal_ref(), &U32(7));
    assert_same(&rt, seven.unwrap_literal(), U32(7));
    let mut components = Instance::Vec(vector_of(&rt, alloc, &[1, 2]));
    assert_is(
        &rt,
        components.unwrap_vec_ref(),
        vector_of(&rt, alloc, &[1, 2]),
    );
    if let Some(second) = components.unwrap_vec_mut().get_mut(1) {
        drop(mem::replace(second, Instance::from(9u32)));
    }
    let wanted = Instance::Vec(vector_of(&rt, alloc, &[1, 9]));
    assert_same(&rt, components, wanted);
}

#[test]
fn a_vector_is_taken_out_of_its_value(rt: HostRuntime) {
    let alloc = rt.alloc();
    let components = Instance::Vec(vector_of(&rt, alloc, &[1, 2]));
    assert_same(&rt, components.unwrap_vec(), vector_of(&rt, alloc, &[1, 2]));
}

#[test]
fn values_of_other_kinds_differ(rt: HostRuntime) {
    let alloc = rt.alloc();
    for i in 0..KINDS {
        let value = of_kind(&rt, alloc, i);
        for j in 0..KINDS {
            let other = of_kind(&rt, alloc, j);
            assert_same(&rt, (i, j, value == other), (i, j, i == j));
            drop(other);
        }
        assert_gives(&rt, value.clone(alloc), value);
    }
}

#[test]
fn all_but_deferred_values_are_storable(rt: HostRuntime) {
    for i in 0..KINDS {
        let value = of_kind(&rt, rt.alloc(), i);
        assert_same(&rt, (i, value.is_well_formed()), (i, true));
        assert_same(&rt, (i, value.is_storable()), (i, i < 8));
        drop(value);
    }
}

#[test]
fn a_value_with_a_deferred_part_is_not_well_formed(rt: HostRuntime) {
    let alloc = rt.alloc();
    let mut array = array_of(&rt, alloc, &[1, 2], false);
    if let Some(second) = array.get_mut(1) {
        drop(mem::replace(second, Instance::from(Type::U32)));
    }
    let array = Instance::from(array);
    assert!(rt; !array.is_well_formed());
    assert!(rt; !array.is_storable());
    let mut atomic = atomic_of(&rt, alloc, U32(5));
    drop(mem::replace(atomic.inner_mut(), Instance::from(true)));
    let atomic = Instance::from(atomic);
    assert!(rt; !atomic.is_storable());
    drop((array, atomic));
}

#[test]
fn values_differ_in_any_part(rt: HostRuntime) {
    let alloc = rt.alloc();
    let pair = pair_value(&rt, alloc);
    let mut other = pair.clone(alloc).expect(&rt, "memory");
    assert!(rt; other == pair);
    if let Some(a) = other.member_mut("a") {
        drop(mem::replace(a, Instance::from(2u32)));
    }
    assert!(rt; other != pair);
    assert_is_not(&rt, &pair, twins(&rt, alloc));
    let two = array_of(&rt, alloc, &[1, 2], false);
    assert_is(&rt, &two, two.clone(alloc).expect(&rt, "memory"));
    assert_is_not(&rt, &two, array_of(&rt, alloc, &[1, 2], true));
    assert_is_not(&rt, &two, array_of(&rt, alloc, &[1, 2, 3], false));
    let components = vector_of(&rt, alloc, &[1, 2]);
    assert_is(
        &rt,
        &components,
        components.clone(alloc).expect(&rt, "memory"),
    );
    assert_is_not(&rt, &components, vector_of(&rt, alloc, &[1, 3]));
    assert_is_not(
        &rt,
        &components,
        vector_from(&rt, integers(&rt, alloc, &[1, 2])),
    );
    let matrix = mat2x3(&rt, alloc);
    assert_is(&rt, &matrix, matrix.clone(alloc).expect(&rt, "memory"));
    assert_is_not(&rt, &matrix, mat3x2(&rt, alloc));
    let atomic = atomic_of(&rt, alloc, U32(5));
    assert_is(&rt, &atomic, atomic.clone(alloc).expect(&rt, "memory"));
    assert_is_not(&rt, &atomic, atomic_of(&rt, alloc, I32(5)));
    drop((pair, other, two, components, matrix, atomic));
}

fn assert_differs(
    rt: &impl Abort,
    alloc: Global,
    cell: usize,
    ty: Type,
    space: AddressSpace,
    access: AccessMode,
) {
    let view = member_then_index(rt, alloc);
    let other = RefInstance::from_parts(cell, view, ty, space, access);
    assert_is_not(rt, &other, reference_of(rt, alloc));
    let pointer = PtrInstance::from(other);
    let wanted = PtrInstance::from(reference_of(rt, alloc));
    assert_is_not(rt, &pointer, wanted);
    drop(pointer);
}

#[test]
fn references_differ_in_cell_view_type_space_and_access(rt: HostRuntime) {
    let alloc = rt.alloc();
    let reference = reference_of(&rt, alloc);
    assert_is(
        &rt,
        &reference,
        reference.clone(alloc).expect(&rt, "memory"),
    );
    let pointer = PtrInstance::from(reference_of(&rt, alloc));
    assert_gives(&rt, pointer.clone(alloc), pointer);
    let (storage, mode) = (AddressSpace::Storage, AccessMode::ReadWrite);
    assert_differs(&rt, alloc, 8, Type::U32, storage, mode);
    assert_differs(&rt, alloc, 7, Type::I32, storage, mode);
    assert_differs(&rt, alloc, 7, Type::U32, AddressSpace::Function, mode);
    assert_differs(&rt, alloc, 7, Type::U32, storage, AccessMode::Read);
    let whole = RefInstance::from_parts(7, MemView::Whole, Type::U32, storage, mode);
    assert_is_not(&rt, &reference, whole);
    drop(reference);
}
