//! How values are made of others, and the tests of values.

ghost use Rattle.wgsl_rules.specs.Values.{IsWellFormed};
ghost use Rattle.wgsl_values.specs.View.{value_of};

use crate::tests::asserts::{assert_is, assert_same, assert_that};
use crate::tests::samples::{
    abstract_vector, array, array_of, atomic, atomic_of, mat2x3, matrix, numbers, pair, pair_type,
    pair_with, reference_of, storable, vector, vector_of,
};
use crate::tests::without_memory::parts::replace;
use std::alloc::Global;
use std::process::Abort;
use wgsl_rules::{AccessMode, AddressSpace, Ty, Type};
use wgsl_samples::values::member_then_index;
use wgsl_scalar::LiteralInstance::U32;
use wgsl_values::{
    ArrayInstance, AtomicInstance, Instance, MatInstance, MemView, PtrInstance, RefInstance,
    StructInstance, VecInstance,
};

#[test]
fn structures_arrays_and_vectors_are_made(rt: HostRuntime) {
    let alloc = rt.alloc();
    let (ty, pair) = (pair_type(&rt, alloc), pair_with(&rt, alloc, 1));
    let b = Instance::from(vector_of(&rt, alloc, &[2, 3, 4]));
    let members = made!(&rt; vec![in alloc; Instance::from(1u32), b]);
    let (elements, list) = (
        numbers(&rt, alloc, &[1, 2]),
        array_of(&rt, alloc, &[1, 2], true),
    );
    let (components, two) = (numbers(&rt, alloc, &[1, 2]), vector_of(&rt, alloc, &[1, 2]));
    assert!(rt; !StructInstance::can_make(&ty, &elements));
    assert!(rt; StructInstance::can_make(&ty, &members));
    assert_is(&rt, StructInstance::new(ty, members), &pair);
    assert!(rt; ArrayInstance::can_make(&elements, true));
    assert_is(&rt, ArrayInstance::new(elements, true), &list);
    assert!(rt; VecInstance::can_make(&components));
    assert_is(&rt, VecInstance::new(components), &two);
    drop((pair, list, two));
}

#[test]
fn matrices_and_references_are_made(rt: HostRuntime) {
    let alloc = rt.alloc();
    let (first, second) = (
        vector_of(&rt, alloc, &[1, 2, 3]),
        vector_of(&rt, alloc, &[4, 5, 6]),
    );
    let columns = vec![in alloc; Instance::from(first), Instance::from(second)];
    let (columns, matrix) = (made!(&rt; columns), mat2x3(&rt, alloc));
    let (view, reference) = (
        made!(&rt; member_then_index(alloc)),
        reference_of(&rt, alloc),
    );
    assert!(rt; MatInstance::can_make(&columns));
    assert_is(&rt, MatInstance::from_cols(columns), &matrix);
    let five = Instance::from(5i32);
    assert_that(&rt, AtomicInstance::can_make(&five));
    drop(five);
    let made = RefInstance::from_parts(
        7,
        view,
        Type::U32,
        AddressSpace::Storage,
        AccessMode::ReadWrite,
    );
    assert_is(&rt, RefInstance::from(PtrInstance::from(made)), &reference);
    drop((matrix, reference));
}

/// Asserts whether the value has the type.
fn assert_typed(rt: &impl Abort, value: Instance, ty: Type, has_ty: bool)
    requires { IsWellFormed (value_of value) }
{
    assert_same(rt, value.has_ty(&ty), has_ty);
    drop((value, ty));
}

/// Asserts whether the value can be stored.
fn assert_stored(rt: &impl Abort, value: Instance, is_storable: bool) {
    assert_same(rt, value.is_storable(), is_storable);
    drop(value);
}

/// Asserts that the value is well-formed.
fn assert_formed(rt: &impl Abort, value: Instance) {
    assert_that(rt, value.is_well_formed());
    drop(value);
}

#[test]
fn each_sort_becomes_a_value(rt: HostRuntime) {
    let alloc = rt.alloc();
    let (pair, list) = (
        pair_with(&rt, alloc, 1),
        array_of(&rt, alloc, &[1, 2], true),
    );
    let (two, matrix) = (vector_of(&rt, alloc, &[1, 2]), mat2x3(&rt, alloc));
    let (five, reference) = (atomic_of(&rt, alloc, 5), reference_of(&rt, alloc));
    let pointer = PtrInstance::from(reference_of(&rt, alloc));
    assert_typed(&rt, Instance::from(pair), Type::U32, false);
    assert_typed(&rt, Instance::from(list), Type::U32, false);
    assert_stored(&rt, Instance::from(two), true);
    assert_stored(&rt, Instance::from(matrix), true);
    assert_stored(&rt, Instance::from(five), true);
    assert_formed(&rt, Instance::from(reference));
    assert_formed(&rt, Instance::from(pointer));
    assert_same(&rt, Instance::from(U32(7)), Instance::from(7u32));
    assert_typed(&rt, Instance::from(true), Type::Bool, true);
    assert_typed(&rt, Instance::from(-7i64), Type::AbstractInt, true);
    assert_typed(&rt, Instance::from(-7i32), Type::I32, true);
    assert_stored(&rt, Instance::from(Type::U32), false);
}

/// Values, the type of each, and whether it converts to a vector of two i32.
fn rows(rt: &impl Abort, alloc: Global) -> [(Instance, Type, bool); 6] {
    let elements = Instance::from(array_of(rt, alloc, &[1, 2, 3], true));
    let integers = Instance::from(abstract_vector(rt, alloc, &[1, 2]));
    [
        (Instance::from(7u32), Type::U32, false),
        (
            Instance::from(pair_with(rt, alloc, 1)),
            pair(rt, alloc),
            false,
        ),
        (elements, array(rt, alloc, Type::U32, None), false),
        (integers, vector(rt, alloc, 2, Type::AbstractInt), true),
        (
            Instance::from(mat2x3(rt, alloc)),
            matrix(rt, alloc, Type::U32),
            false,
        ),
        (
            Instance::from(atomic_of(rt, alloc, 5)),
            atomic(rt, alloc, Type::U32),
            false,
        ),
    ]
}

#[test]
fn values_are_tested(rt: HostRuntime) {
    let alloc = rt.alloc();
    let rows = rows(&rt, alloc);
    let target = vector(&rt, alloc, 2, Type::I32);
    let deferred = Instance::from(pair(&rt, alloc));
    for (value, ty, converts) in &rows {
        assert!(rt; value.is_storable());
        assert!(rt; value.is_well_formed());
        assert_that(&rt, value.has_ty(ty));
        assert_that(&rt, !value.has_ty(&target));
        assert_same(&rt, value.is_convertible_to(&target), *converts);
        assert_that(&rt, value.same_type(value));
    }
    assert!(rt; deferred.is_well_formed());
    assert!(rt; !deferred.is_storable());
    drop((rows, target, deferred));
}

#[test]
fn payloads_are_taken_out(rt: HostRuntime) {
    let alloc = rt.alloc();
    let (first, last) = (
        vector_of(&rt, alloc, &[1, 2]),
        vector_of(&rt, alloc, &[1, 9]),
    );
    let mut value = Instance::Vec(vector_of(&rt, alloc, &[1, 2]));
    let seven = Instance::Literal(U32(7));
    assert_same(&rt, seven.unwrap_literal_ref(), &U32(7));
    assert_same(&rt, seven.unwrap_literal(), U32(7));
    assert_same(&rt, value.unwrap_vec_ref(), &first);
    replace(value.unwrap_vec_mut().get_mut(1), Instance::from(9u32));
    let wanted = Instance::Vec(last);
    assert_same(&rt, value, wanted);
    drop(first);
}

#[test]
fn a_vector_is_taken_out(rt: HostRuntime) {
    let alloc = rt.alloc();
    let value = Instance::Vec(vector_of(&rt, alloc, &[1, 2]));
    let wanted = vector_of(&rt, alloc, &[1, 2]);
    assert_is(&rt, value.unwrap_vec(), &wanted);
    drop(wanted);
}

#[test]
fn a_value_of_the_same_type_takes_the_place(rt: HostRuntime) {
    let alloc = rt.alloc();
    let mut value = storable(&rt, Instance::from(array_of(&rt, alloc, &[1, 2], true)));
    let next = storable(&rt, Instance::from(array_of(&rt, alloc, &[3, 4, 5], true)));
    let old = Instance::from(array_of(&rt, alloc, &[1, 2], true));
    let wanted = Instance::from(array_of(&rt, alloc, &[3, 4, 5], true));
    let answer = value.write(alloc, next);
    assert_same(&rt, answer, Ok(old));
    assert_same(&rt, value, wanted);
}
