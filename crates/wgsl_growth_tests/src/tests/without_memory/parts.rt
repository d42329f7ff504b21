//! The parts of values: each lent, each lent to be written, each in its turn.

use crate::tests::asserts::{assert_has, assert_same, assert_that};
use crate::tests::samples::{
    array_of, atomic_of, mat2x3, named, pair_with, reference_of, storable, vector_of,
};
use std::mem;
use wgsl_rules::{AccessMode, AddressSpace, Type};
use wgsl_values::{Instance, MemView, PtrInstance};

/// Puts the value in the place of the part, if that is there.
pub(super) fn replace(part: Option<&mut Instance>, value: Instance) {
    match part {
        Some(part) => drop(mem::replace(part, value)),
        None => drop(value),
    }
}

#[test]
fn members(rt: HostRuntime) {
    let alloc = rt.alloc();
    let mut pair = pair_with(&rt, alloc, 1);
    let wanted = pair_with(&rt, alloc, 9);
    assert_same(&rt, pair.struct_ty().members.len(), 2);
    assert_same(&rt, pair.members().len(), 2);
    assert_has(&rt, pair.member("a"), Instance::from(1u32));
    assert_that(&rt, pair.member("c").is_none());
    replace(pair.member_mut("a"), Instance::from(9u32));
    assert_that(&rt, pair.member_mut("c").is_none());
    assert_same(&rt, pair, wanted);
}

#[test]
fn elements(rt: HostRuntime) {
    let alloc = rt.alloc();
    let mut array = array_of(&rt, alloc, &[1, 2], true);
    let wanted = array_of(&rt, alloc, &[1, 9], true);
    assert_that(&rt, array.runtime_sized());
    assert_same(&rt, array.n(), 2);
    assert_same(&rt, array.as_slice().len(), 2);
    assert_has(&rt, array.get(1), Instance::from(2u32));
    assert_that(&rt, array.get(2).is_none());
    replace(array.get_mut(1), Instance::from(9u32));
    assert_that(&rt, array.get_mut(2).is_none());
    assert_same(&rt, &array, &wanted);
    drop(wanted);
    let mut items = array.iter();
    assert_has(&rt, items.next(), Instance::from(1u32));
    assert_has(&rt, items.next(), Instance::from(9u32));
    assert_that(&rt, items.next().is_none());
    let mut items = array.into_iter();
    assert_same(&rt, items.next(), Some(Instance::from(1u32)));
    assert_same(&rt, items.next(), Some(Instance::from(9u32)));
    assert_same(&rt, items.next(), None);
    drop(items);
}

#[test]
fn components(rt: HostRuntime) {
    let alloc = rt.alloc();
    let mut vector = vector_of(&rt, alloc, &[1, 2]);
    let wanted = vector_of(&rt, alloc, &[1, 9]);
    assert_same(&rt, vector.n(), 2);
    assert_same(&rt, vector.as_slice().len(), 2);
    assert_has(&rt, Some(&vector[0]), Instance::from(1u32));
    assert_has(&rt, vector.get(1), Instance::from(2u32));
    assert_that(&rt, vector.get(2).is_none());
    replace(vector.get_mut(1), Instance::from(9u32));
    assert_that(&rt, vector.get_mut(2).is_none());
    assert_same(&rt, &vector, &wanted);
    drop(wanted);
    let mut items = vector.iter();
    assert_has(&rt, items.next(), Instance::from(1u32));
    let mut items = vector.into_iter();
    assert_same(&rt, items.next(), Some(Instance::from(1u32)));
    assert_same(&rt, items.next(), Some(Instance::from(9u32)));
    assert_same(&rt, items.next(), None);
    drop(items);
}

#[test]
fn columns(rt: HostRuntime) {
    let alloc = rt.alloc();
    let mut matrix = mat2x3(&rt, alloc);
    let first = Instance::from(vector_of(&rt, alloc, &[7, 2, 3]));
    let second = Instance::from(vector_of(&rt, alloc, &[8, 9, 10]));
    let next = Instance::from(vector_of(&rt, alloc, &[8, 9, 10]));
    assert_same(&rt, (matrix.c(), matrix.r()), (2, 3));
    assert_has(&rt, matrix.get(1, 2), Instance::from(6u32));
    assert_that(&rt, matrix.get(1, 3).is_none());
    replace(matrix.get_mut(0, 0), Instance::from(7u32));
    replace(matrix.col_mut(1), next);
    assert_that(&rt, matrix.get_mut(2, 0).is_none());
    assert_that(&rt, matrix.col_mut(2).is_none());
    assert_same(&rt, matrix.col(0), Some(&first));
    assert_same(&rt, matrix.iter_cols().next(), Some(&first));
    let mut components = matrix.iter();
    for n in [7u32, 2, 3, 8, 9, 10] {
        assert_has(&rt, components.next(), Instance::from(n));
    }
    assert_that(&rt, components.next().is_none());
    let mut columns = matrix.into_iter();
    assert_same(&rt, columns.next(), Some(first));
    assert_same(&rt, columns.next(), Some(second));
    assert_same(&rt, columns.next(), None);
    drop(columns);
}

#[test]
fn contents_of_atomics_references_and_pointers(rt: HostRuntime) {
    let alloc = rt.alloc();
    let (mut atomic, word) = (atomic_of(&rt, alloc, 5), Type::U32);
    let (reference, same) = (reference_of(&rt, alloc), reference_of(&rt, alloc));
    assert_has(&rt, Some(atomic.inner()), Instance::from(5u32));
    drop(mem::replace(atomic.inner_mut(), Instance::from(6u32)));
    assert_has(&rt, Some(atomic.inner()), Instance::from(6u32));
    assert_same(&rt, reference.cell(), 7);
    assert_same(&rt, reference.view(), same.view());
    assert_same(&rt, reference.target_ty(), &word);
    assert_same(&rt, reference.space(), AddressSpace::Storage);
    assert_same(&rt, reference.access(), AccessMode::ReadWrite);
    let pointer = PtrInstance::from(reference);
    assert_same(&rt, pointer.ptr(), &same);
    drop((atomic, pointer, same, word));
}

#[test]
fn views_that_lead_to_a_part(rt: HostRuntime) {
    let alloc = rt.alloc();
    let mut value = storable(&rt, Instance::from(pair_with(&rt, alloc, 1)));
    let (view, nowhere) = (named(&rt, alloc, "a"), named(&rt, alloc, "c"));
    let wanted = Instance::from(pair_with(&rt, alloc, 7));
    assert_has(&rt, value.view(alloc, &view).ok(), Instance::from(1u32));
    let mut part = value.view_mut(alloc, &view).expect(&rt, "a part");
    drop(mem::replace(&mut *part, Instance::from(9u32)));
    drop(part);
    assert_same(&rt, value.put(&nowhere, Instance::from(7u32)), None);
    let old = value.put(&view, Instance::from(7u32));
    assert_same(&rt, old, Some(Instance::from(9u32)));
    let value = storable(&rt, value);
    let whole = MemView::Whole;
    assert_same(&rt, value.view(alloc, &whole).ok(), Some(&wanted));
    drop((value, wanted, view));
    drop((nowhere, whole));
}
