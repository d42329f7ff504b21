//! The parts of values: each lent, each lent to be written, each in its turn.

use crate::tests::asserts::{assert_gives, assert_has, assert_is, assert_same, assert_text};
use crate::tests::samples::{
    array_of, atomic_of, mat2x3, mat3x2, member_then_index, numbers, pair_type, pair_value,
    reference_of, twins, vector_of,
};
use std::mem;
use std::process::Abort;
use wgsl_rules::{AccessMode, AddressSpace, Type};
use wgsl_scalar::LiteralInstance::I32;
use wgsl_values::{Instance, PtrInstance, RefInstance};

#[test]
fn members_of_a_structure(rt: HostRuntime) {
    let alloc = rt.alloc();
    let pair = pair_value(&rt, alloc);
    let own = pair_type(&rt, alloc);
    assert_is(&rt, pair.struct_ty(), own);
    assert_same(&rt, pair.members().len(), 2);
    assert_has(&rt, pair.members().first(), Instance::from(1u32));
    assert_has(&rt, pair.member("a"), Instance::from(1u32));
    let b = Instance::from(vector_of(&rt, alloc, &[2, 3, 4]));
    assert_same(&rt, pair.members().get(1), Some(&b));
    assert_same(&rt, pair.member("b"), Some(&b));
    assert_same(&rt, pair.member("c"), None);
    drop((pair, b));
}

/// Asserts that the parts are the wanted ones.
fn assert_parts(rt: &impl Abort, parts: &[Instance], wanted: Vec<Instance>) {
    assert_same(rt, parts, wanted.as_slice());
    drop(wanted);
}

#[test]
fn parts_of_a_value(rt: HostRuntime) {
    let alloc = rt.alloc();
    let pair = Instance::from(pair_value(&rt, alloc));
    assert_same(&rt, pair.parts().len(), 2);
    assert_has(&rt, pair.parts().first(), Instance::from(1u32));
    let array = Instance::from(array_of(&rt, alloc, &[1, 2, 3], false));
    assert_parts(&rt, array.parts(), numbers(&rt, alloc, &[1, 2, 3]));
    let vector = Instance::from(vector_of(&rt, alloc, &[1, 2]));
    assert_parts(&rt, vector.parts(), numbers(&rt, alloc, &[1, 2]));
    let matrix = Instance::from(mat2x3(&rt, alloc));
    let second = Instance::from(vector_of(&rt, alloc, &[4, 5, 6]));
    assert_same(&rt, matrix.parts().len(), 2);
    assert_same(&rt, matrix.parts().get(1), Some(&second));
    let one = Instance::from(1u32);
    assert!(rt; one.parts().is_empty());
    drop((pair, array, vector, matrix, second, one));
}

#[test]
fn of_two_members_of_a_name_the_first_is_found(rt: HostRuntime) {
    let mut twins = twins(&rt, rt.alloc());
    assert_has(&rt, twins.member("a"), Instance::from(1u32));
    if let Some(first) = twins.member_mut("a") {
        drop(mem::replace(first, Instance::from(9u32)));
    }
    assert_has(&rt, twins.members().first(), Instance::from(9u32));
    assert_has(&rt, twins.members().get(1), Instance::from(2u32));
    assert!(rt; twins.member_mut("b").is_none());
    drop(twins);
}

#[test]
fn elements_of_an_array(rt: HostRuntime) {
    let alloc = rt.alloc();
    let mut array = array_of(&rt, alloc, &[1, 2, 3], false);
    assert!(rt; !array.runtime_sized());
    let one = array_of(&rt, alloc, &[1], true);
    assert!(rt; one.runtime_sized());
    drop(one);
    assert_same(&rt, array.n(), 3);
    assert_parts(&rt, array.as_slice(), numbers(&rt, alloc, &[1, 2, 3]));
    assert_has(&rt, array.get(2), Instance::from(3u32));
    assert!(rt; array.get(3).is_none());
    assert!(rt; array.get_mut(3).is_none());
    if let Some(second) = array.get_mut(1) {
        drop(mem::replace(second, Instance::from(9u32)));
    }
    assert_is(&rt, &array, array_of(&rt, alloc, &[1, 9, 3], false));
    let mut items = array.iter();
    assert_has(&rt, items.next(), Instance::from(1u32));
    assert_has(&rt, items.next(), Instance::from(9u32));
    assert_has(&rt, items.next(), Instance::from(3u32));
    assert_same(&rt, items.next(), None);
    let mut items = array.into_iter();
    assert_same(&rt, items.next(), Some(Instance::from(1u32)));
    assert_same(&rt, items.next(), Some(Instance::from(9u32)));
    assert_same(&rt, items.next(), Some(Instance::from(3u32)));
    assert_same(&rt, items.next(), None);
    drop(items);
}

#[test]
fn components_of_a_vector(rt: HostRuntime) {
    let alloc = rt.alloc();
    let mut components = vector_of(&rt, alloc, &[1, 2]);
    assert_same(&rt, components.n(), 2);
    assert_is(&rt, &components[0], Instance::from(1u32));
    assert_parts(&rt, components.as_slice(), numbers(&rt, alloc, &[1, 2]));
    assert_has(&rt, components.get(1), Instance::from(2u32));
    assert!(rt; components.get(2).is_none());
    assert!(rt; components.get_mut(2).is_none());
    if let Some(second) = components.get_mut(1) {
        drop(mem::replace(second, Instance::from(9u32)));
    }
    assert_is(&rt, &components, vector_of(&rt, alloc, &[1, 9]));
    let mut items = components.iter();
    assert_has(&rt, items.next(), Instance::from(1u32));
    assert_has(&rt, items.next(), Instance::from(9u32));
    assert_same(&rt, items.next(), None);
    let mut items = components.into_iter();
    assert_same(&rt, items.next(), Some(Instance::from(1u32)));
    assert_same(&rt, items.next(), Some(Instance::from(9u32)));
    assert_same(&rt, items.next(), None);
    drop(items);
}

#[test]
fn columns_of_a_matrix(rt: HostRuntime) {
    let alloc = rt.alloc();
    let matrix = mat2x3(&rt, alloc);
    assert_same(&rt, (matrix.c(), matrix.r()), (2, 3));
    let first = Instance::from(vector_of(&rt, alloc, &[1, 2, 3]));
    let second = Instance::from(vector_of(&rt, alloc, &[4, 5, 6]));
    assert_same(&rt, matrix.col(0), Some(&first));
    assert_same(&rt, matrix.col(1), Some(&second));
    assert_same(&rt, matrix.col(2), None);
    assert_has(&rt, matrix.get(1, 0), Instance::from(4u32));
    assert_has(&rt, matrix.get(0, 2), Instance::from(3u32));
    assert_same(&rt, matrix.get(2, 0), None);
    assert_same(&rt, matrix.get(0, 3), None);
    let mut columns = matrix.iter_cols();
    assert_same(&rt, columns.next(), Some(&first));
    assert_same(&rt, columns.next(), Some(&second));
    assert_same(&rt, columns.next(), None);
    let mut columns = matrix.into_iter();
    assert_same(&rt, columns.next(), Some(first));
    assert_same(&rt, columns.next(), Some(second));
    assert_same(&rt, columns.next(), None);
    drop(columns);
}

#[test]
fn components_of_a_matrix_come_column_by_column(rt: HostRuntime) {
    let matrix = mat2x3(&rt, rt.alloc());
    let mut components = matrix.iter();
    for n in [1u32, 2, 3, 4, 5, 6] {
        assert_has(&rt, components.next(), Instance::from(n));
    }
    assert_same(&rt, components.next(), None);
    drop(components);
}

#[test]
fn writes_to_parts_of_a_matrix(rt: HostRuntime) {
    let alloc = rt.alloc();
    let mut matrix = mat3x2(&rt, alloc);
    if let Some(component) = matrix.get_mut(0, 1) {
        drop(mem::replace(component, Instance::from(7u32)));
    }
    assert_has(&rt, matrix.get(0, 1), Instance::from(7u32));
    assert_has(&rt, matrix.get(1, 0), Instance::from(2u32));
    if let Some(column) = matrix.col_mut(2) {
        drop(mem::replace(column, Instance::from(vector_of(&rt, alloc, &[8, 9]))));
    }
    let text = "mat3x2(vec2(1u, 7u), vec2(2u, 5u), vec2(8u, 9u))";
    assert_text(&rt, alloc, &matrix, text);
    assert!(rt; matrix.get_mut(3, 0).is_none());
    assert!(rt; matrix.get_mut(0, 2).is_none());
    assert!(rt; matrix.col_mut(3).is_none());
    assert_text(&rt, alloc, &matrix, text);
    drop(matrix);
}

#[test]
fn a_transposed_matrix_has_the_rows_for_columns(rt: HostRuntime) {
    let alloc = rt.alloc();
    let matrix = mat2x3(&rt, alloc);
    let transposed = matrix.transpose(alloc).expect(&rt, "memory");
    let text = "mat3x2(vec2(1u, 4u), vec2(2u, 5u), vec2(3u, 6u))";
    assert_text(&rt, alloc, &transposed, text);
    let wanted = mat3x2(&rt, alloc);
    assert_gives(&rt, wanted.transpose(alloc), matrix);
    assert_same(&rt, transposed, wanted);
}

#[test]
fn what_an_atomic_holds(rt: HostRuntime) {
    let mut atomic = atomic_of(&rt, rt.alloc(), I32(5));
    assert_is(&rt, atomic.inner(), Instance::from(5i32));
    drop(mem::replace(atomic.inner_mut(), Instance::from(-6i32)));
    assert_is(&rt, atomic.inner(), Instance::from(-6i32));
    drop(atomic);
}

#[test]
fn what_references_and_pointers_name(rt: HostRuntime) {
    let alloc = rt.alloc();
    let reference = reference_of(&rt, alloc);
    assert_same(&rt, reference.cell(), 7);
    assert_is(&rt, reference.view(), member_then_index(&rt, alloc));
    assert_is(&rt, reference.target_ty(), Type::U32);
    assert_same(&rt, reference.space(), AddressSpace::Storage);
    assert_same(&rt, reference.access(), AccessMode::ReadWrite);
    let pointer = PtrInstance::from(reference_of(&rt, alloc));
    assert_same(&rt, pointer.ptr(), &reference);
    assert_same(&rt, RefInstance::from(pointer), reference);
}
