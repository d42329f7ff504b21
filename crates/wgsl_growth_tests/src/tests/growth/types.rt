//! The types of types and of values, and their copies.

ghost use Rattle.wgsl_rules.specs.Values.{IsWellFormed};

use crate::tests::asserts::{assert_answer, assert_is, assert_same};
use crate::tests::samples::{
    array, array_of, atomic, atomic_of, mat2x3, matrix, member, pair, pair_type, pair_with,
    reference, reference_of, two_members, vector, vector_of,
};
use std::alloc::Global;
use std::process::Abort;
use wgsl_rules::AccessMode::ReadWrite;
use wgsl_rules::AddressSpace::Storage;
use wgsl_rules::{Convert, MemberLayout, StructMemberType, Ty, Type, UniformFault, UniformRule};
use wgsl_scalar::LiteralInstance;
use wgsl_values::PtrInstance;

/// Asserts that a copy of the member is equal.
fn assert_copied(rt: &impl Abort, alloc: Global, member: &StructMemberType) {
    assert_is(rt, answer_of!(rt; member.clone(alloc)), member);
}

#[test]
fn copies_of_a_structure_and_its_members(rt: HostRuntime) {
    let alloc = rt.alloc();
    let pair = pair_type(&rt, alloc);
    assert_is(&rt, answer_of!(&rt; pair.clone(alloc)), &pair);
    for member in &pair.members {
        assert_copied(&rt, alloc, member);
    }
    drop(pair);
}

#[test]
fn places_of_members_and_faults_of_uniform_space(rt: HostRuntime) {
    let alloc = rt.alloc();
    let pair = pair_type(&rt, alloc);
    let layouts = answer_of!(&rt; pair.member_layouts(alloc));
    let wanted = [(0, 4, 4, 12), (16, 12, 16, 4)];
    for (layout, (offset, size, align, padding)) in layouts.iter().zip(wanted) {
        let wanted = MemberLayout {
            offset: Some(offset),
            size: Some(size),
            align: Some(align),
            padding: Some(padding),
        };
        assert_same(&rt, *layout, wanted);
    }
    assert_same(&rt, layouts.len(), 2);
    drop(pair);
    let words = member(&rt, alloc, "b", array(&rt, alloc, Type::U32, Some(4)));
    let ty = two_members(&rt, alloc, member(&rt, alloc, "a", Type::U32), words);
    let faults = answer_of!(&rt; ty.uniform_faults(alloc));
    let rule = UniformRule::Stride(4);
    let wanted = UniformFault { member: 1, rule };
    assert_same(&rt, faults.first().copied(), Some(wanted));
    assert_same(&rt, faults.len(), 1);
    drop(ty);
}

/// Asserts the type of the value, and the type inside that.
fn assert_types<T: Ty>(rt: &impl Abort, alloc: Global, value: &T, ty: &Type, inner: &Type)
    requires { IsWellFormed (T.value_of value.now) }
{
    assert_is(rt, answer_of!(rt; value.ty(alloc)), ty);
    assert_is(rt, answer_of!(rt; value.inner_ty(alloc)), inner);
}

#[test]
fn types_of_types(rt: HostRuntime) {
    let alloc = rt.alloc();
    let pairs = array(&rt, alloc, pair(&rt, alloc), Some(5));
    let pair = pair(&rt, alloc);
    assert_types(&rt, alloc, &pairs, &pairs, &pair);
    assert_types(&rt, alloc, &pair, &pair, &pair);
    let (matrix, word) = (matrix(&rt, alloc, Type::U32), Type::U32);
    assert_types(&rt, alloc, &matrix, &matrix, &word);
    drop((pairs, pair, matrix, word));
}

#[test]
fn types_of_literals_arrays_vectors_and_matrices(rt: HostRuntime) {
    let (alloc, word) = (rt.alloc(), Type::U32);
    let ty = vector(&rt, alloc, 3, Type::U32);
    let value = vector_of(&rt, alloc, &[1, 2, 3]);
    assert_types(&rt, alloc, &value, &ty, &word);
    drop((ty, value));
    let ty = array(&rt, alloc, Type::U32, Some(2));
    let value = array_of(&rt, alloc, &[1, 2], false);
    assert_types(&rt, alloc, &value, &ty, &word);
    drop((ty, value));
    let ty = matrix(&rt, alloc, Type::U32);
    let value = mat2x3(&rt, alloc);
    assert_types(&rt, alloc, &value, &ty, &word);
    drop((ty, value));
    let literal = LiteralInstance::U32(5);
    assert_types(&rt, alloc, &literal, &word, &word);
    drop(word);
}

#[test]
fn types_of_structures_atomics_references_and_pointers(rt: HostRuntime) {
    let (alloc, word) = (rt.alloc(), Type::U32);
    let ty = pair(&rt, alloc);
    let value = pair_with(&rt, alloc, 1);
    assert_types(&rt, alloc, &value, &ty, &ty);
    drop((ty, value));
    let ty = atomic(&rt, alloc, Type::U32);
    let value = atomic_of(&rt, alloc, 5);
    assert_types(&rt, alloc, &value, &ty, &word);
    drop((ty, value));
    let ty = reference(&rt, alloc, Type::U32, ReadWrite);
    let value = reference_of(&rt, alloc);
    assert_types(&rt, alloc, &value, &ty, &word);
    let pointer = PtrInstance::from(value);
    drop(ty);
    let target = made!(&rt; Box::new(alloc, Type::U32));
    let ty = Type::Ptr(Storage, target, ReadWrite);
    assert_types(&rt, alloc, &pointer, &ty, &word);
    drop((ty, pointer, word));
}

/// The array type of two vectors of the type.
fn vectors(rt: &impl Abort, alloc: Global, ty: Type) -> Type {
    array(rt, alloc, vector(rt, alloc, 2, ty), Some(2))
}

#[test]
fn concrete_types(rt: HostRuntime) {
    let alloc = rt.alloc();
    let rows = [
        (
            vectors(&rt, alloc, Type::AbstractInt),
            vectors(&rt, alloc, Type::I32),
        ),
        (
            vector(&rt, alloc, 2, Type::AbstractFloat),
            vector(&rt, alloc, 2, Type::F32),
        ),
        (
            matrix(&rt, alloc, Type::AbstractInt),
            matrix(&rt, alloc, Type::F32),
        ),
        (pair(&rt, alloc), pair(&rt, alloc)),
    ];
    for (ty, concrete) in &rows {
        assert_is(&rt, answer_of!(&rt; ty.concretize(alloc)), concrete);
        let answer = answer_of!(&rt; Convert::concretize(ty, alloc));
        assert_answer(&rt, answer, Some(concrete));
    }
    drop(rows);
}

#[test]
fn converted_types(rt: HostRuntime) {
    let alloc = rt.alloc();
    let rows = [
        (
            array(&rt, alloc, Type::AbstractInt, None),
            Type::U32,
            array(&rt, alloc, Type::U32, None),
        ),
        (
            vector(&rt, alloc, 3, Type::AbstractInt),
            Type::I32,
            vector(&rt, alloc, 3, Type::I32),
        ),
        (
            matrix(&rt, alloc, Type::AbstractInt),
            Type::F16,
            matrix(&rt, alloc, Type::F16),
        ),
    ];
    for (ty, inner, wanted) in &rows {
        let answer = answer_of!(&rt; ty.convert_to(alloc, wanted));
        assert_answer(&rt, answer, Some(wanted));
        let answer = answer_of!(&rt; ty.convert_inner_to(alloc, inner));
        assert_answer(&rt, answer, Some(wanted));
        let answer = answer_of!(&rt; wanted.convert_to(alloc, ty));
        assert_answer(&rt, answer, None);
    }
    drop(rows);
}
