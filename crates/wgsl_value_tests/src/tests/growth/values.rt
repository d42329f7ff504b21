//! Making, copies, types and texts of values.

ghost use Rattle.wgsl_rules.specs.Values.{IsStorable, IsWellFormed};
ghost use Rattle.wgsl_values.specs.View.{value_of};

use crate::tests::asserts::{assert_is, assert_same, assert_told};
use crate::tests::samples::{
    KINDS, array, array_of, atomic_of, mat2x3, mat3x2, of_kind, pair_type, pair_value,
    reference_of, storable, text, vector_of,
};
use std::alloc::{AllocError, Global};
use std::process::Abort;
use wgsl_rules::{Ty, Type};
use wgsl_scalar::Error;
use wgsl_scalar::LiteralInstance::{I32, U32};
use wgsl_values::{AtomicInstance, Instance, PtrInstance, SharedStructType, VecInstance};

#[test]
fn vectors_of_literals_want_memory_or_are_made(rt: HostRuntime) {
    let alloc = rt.alloc();
    let wanted = vector_of(&rt, alloc, &[1, 2]);
    let found = answer_of!(&rt; VecInstance::from2(alloc, [U32(1), U32(2)]));
    assert_same(&rt, found, wanted);
    let wanted = vector_of(&rt, alloc, &[1, 2, 3]);
    let found = answer_of!(&rt; VecInstance::from3(alloc, [U32(1), U32(2), U32(3)]));
    assert_same(&rt, found, wanted);
    let wanted = vector_of(&rt, alloc, &[1, 2, 3, 4]);
    let four = [U32(1), U32(2), U32(3), U32(4)];
    let found = answer_of!(&rt; VecInstance::from4(alloc, four));
    assert_same(&rt, found, wanted);
}

/// atomic<i32>(5i)
fn atomic_five(rt: &impl Abort, alloc: Global) -> Result<AtomicInstance, AllocError> {
    let content = Instance::from(5i32);
    assert!(rt; AtomicInstance::can_make(&content));
    AtomicInstance::new(alloc, content)
}

#[test]
fn an_atomic_wants_memory_or_is_made(rt: HostRuntime) {
    let alloc = rt.alloc();
    let atomic = answer_of!(&rt; atomic_five(&rt, alloc));
    assert_is(&rt, atomic.inner(), Instance::from(5i32));
    drop(atomic);
}

#[test]
fn a_transposed_matrix_wants_memory_or_is_made(rt: HostRuntime) {
    let alloc = rt.alloc();
    let matrix = mat2x3(&rt, alloc);
    let wanted = mat3x2(&rt, alloc);
    let found = answer_of!(&rt; matrix.transpose(alloc));
    assert_same(&rt, found, wanted);
    drop(matrix);
}

#[test]
fn a_copy_of_a_value_wants_memory_or_is_equal(rt: HostRuntime) {
    let alloc = rt.alloc();
    for kind in 0..KINDS {
        let value = of_kind(&rt, alloc, kind);
        let copy = answer_of!(&rt; value.clone(alloc));
        assert_same(&rt, copy, value);
    }
}

#[test]
fn a_copy_of_a_composite_wants_memory_or_is_equal(rt: HostRuntime) {
    let alloc = rt.alloc();
    let pair = pair_value(&rt, alloc);
    let copy = answer_of!(&rt; pair.clone(alloc));
    assert_same(&rt, copy, pair);
    let elements = array_of(&rt, alloc, &[1, 2], true);
    let copy = answer_of!(&rt; elements.clone(alloc));
    assert_same(&rt, copy, elements);
    let components = vector_of(&rt, alloc, &[1, 2, 3]);
    let copy = answer_of!(&rt; components.clone(alloc));
    assert_same(&rt, copy, components);
    let matrix = mat2x3(&rt, alloc);
    let copy = answer_of!(&rt; matrix.clone(alloc));
    assert_same(&rt, copy, matrix);
}

/// The type of pairs, to be shared.
fn shared_pair_type(rt: &impl Abort, alloc: Global) -> Result<SharedStructType, AllocError> {
    SharedStructType::new(alloc, pair_type(rt, alloc))
}

#[test]
fn a_structure_type_to_share_wants_memory_or_is_made(rt: HostRuntime) {
    let alloc = rt.alloc();
    let pair = pair_value(&rt, alloc);
    let shared = answer_of!(&rt; shared_pair_type(&rt, alloc));
    assert!(rt; shared.is_type(pair.struct_ty()));
    let copy = answer_of!(&rt; pair.shared_ty().clone(alloc));
    assert!(rt; copy.is_type(shared.get()));
    drop((pair, shared, copy));
}

#[test]
fn a_copy_of_an_atomic_or_a_reference_wants_memory_or_is_equal(rt: HostRuntime) {
    let alloc = rt.alloc();
    let atomic = atomic_of(&rt, alloc, I32(5));
    let copy = answer_of!(&rt; atomic.clone(alloc));
    assert_same(&rt, copy, atomic);
    let reference = reference_of(&rt, alloc);
    let copy = answer_of!(&rt; reference.clone(alloc));
    assert_same(&rt, copy, reference);
    let pointer = PtrInstance::from(reference_of(&rt, alloc));
    let copy = answer_of!(&rt; pointer.clone(alloc));
    assert_same(&rt, copy, pointer);
}

#[test]
fn the_type_of_a_value_wants_memory_or_is_told(rt: HostRuntime) {
    let alloc = rt.alloc();
    for kind in 0..KINDS {
        let value = of_kind(&rt, alloc, kind);
        assert!(rt; value.is_well_formed());
        let ty = answer_of!(&rt; value.ty(alloc));
        assert!(rt; value.has_ty(&ty), "{ty}");
        let inner = answer_of!(&rt; value.inner_ty(alloc));
        assert_is(&rt, ty.inner(), inner);
        drop((value, ty));
    }
}

/// The texts of the values of each kind.
const TEXTS: &str = "\
    7u
    Pair(1u, vec3(2u, 3u, 4u))
    array(1u, 2u, 3u)
    vec3(1u, 2u, 3u)
    mat2x3(vec3(1u, 2u, 3u), vec3(4u, 5u, 6u))
    ptr<storage, u32, read_write>
    ref<storage, u32, read_write>
    atomic<u32>(5u)
    __deferred<u32>";

#[test]
fn the_text_of_a_value_wants_memory_or_is_whole(rt: HostRuntime) {
    let alloc = rt.alloc();
    for (kind, line) in TEXTS.lines().enumerate() {
        let value = of_kind(&rt, alloc, kind);
        let wanted = text(&rt, alloc, line.trim());
        let found = answer_of!(&rt; value.to_string(alloc));
        assert_same(&rt, found, wanted);
        drop(value);
    }
}

/// array(4u, 5u)
fn two_numbers(rt: &impl Abort, alloc: Global) -> Instance
    ensures well_formed { IsWellFormed (value_of result) }
    ensures storable { IsStorable (value_of result) }
{
    storable(rt, Instance::from(array_of(rt, alloc, &[4, 5], false)))
}

/// array(1u, 2u, 3u)
fn three_numbers(rt: &impl Abort, alloc: Global) -> Instance
    ensures well_formed { IsWellFormed (value_of result) }
    ensures storable { IsStorable (value_of result) }
{
    storable(rt, Instance::from(array_of(rt, alloc, &[1, 2, 3], false)))
}

/// Why an array of two doesn't go into the place of one of three.
fn two_for_three(rt: &impl Abort, alloc: Global) -> Error {
    let two = array(rt, alloc, Type::U32, Some(2));
    Error::WriteRefType(two, array(rt, alloc, Type::U32, Some(3)))
}

/// What a write of an array of two is refused with.
fn refusal(rt: &impl Abort, alloc: Global, value: &mut Instance) -> Option<Error>
    requires { IsWellFormed (value_of value.old) }
{
    value.write(alloc, two_numbers(rt, alloc)).err()
}

#[test]
fn a_refused_write_wants_memory_or_is_told_and_changes_nothing(rt: HostRuntime) {
    let alloc = rt.alloc();
    let error = two_for_three(&rt, alloc);
    let copy = three_numbers(&rt, alloc);
    let mut value = three_numbers(&rt, alloc);
    let first = refusal(&rt, alloc, &mut value);
    assert!(rt; value == copy);
    assert!(rt; value.is_well_formed());
    let second = refusal(&rt, alloc, &mut value);
    assert_told(&rt, first, second, error);
    assert_same(&rt, value, copy);
}

#[test]
fn an_accepted_write_takes_no_memory(rt: HostRuntime) {
    let alloc = rt.alloc();
    let mut value = two_numbers(&rt, alloc);
    let next = two_numbers(&rt, alloc);
    let old = value.write(alloc, next).expect(&rt, "accepted");
    drop((value, old));
}
