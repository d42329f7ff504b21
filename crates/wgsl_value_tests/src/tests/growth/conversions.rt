//! Conversions of values and types: want of memory is told as such, and never as no conversion.

ghost use Rattle.wgsl_rules.specs.Values.{IsWellFormed};
ghost use Rattle.wgsl_values.specs.View.{value_of};

use crate::tests::asserts::{assert_is, assert_same};
use crate::tests::samples::{
    abstract_array, abstract_vector, array, array_of, pair, pair_value, storable, vector, vector_of,
};
use std::alloc::Global;
use std::fmt::Debug;
use std::process::Abort;
use wgsl_rules::{
    Convert, Type, convert, convert_all, convert_all_inner_to, convert_all_to, convert_inner,
};
use wgsl_values::Instance;

/// Asserts that the answer is the wanted value.
fn assert_found<T: PartialEq + Debug + Drop>(rt: &impl Abort, answer: Option<T>, wanted: &T) {
    assert_same(rt, answer.as_ref(), Some(wanted));
    drop(answer);
}

/// Asserts that the answer is the wanted list.
fn assert_list<T: PartialEq + Debug + Drop>(rt: &impl Abort, answer: Option<Vec<T>>, wanted: &[T]) {
    let list = answer.expect(rt, "a list");
    assert_same(rt, list.as_slice(), wanted);
    drop(list);
}

#[test]
fn a_converted_structure_wants_memory_or_is_equal(rt: HostRuntime) {
    let alloc = rt.alloc();
    let value = pair_value(&rt, alloc);
    let own = pair(&rt, alloc);
    let found = answer_of!(&rt; value.convert_to(alloc, &own));
    assert_found(&rt, found, &value);
    drop((value, own));
}

#[test]
fn a_converted_array_wants_memory_or_is_whole(rt: HostRuntime) {
    let alloc = rt.alloc();
    let value = abstract_array(&rt, alloc, &[1, 2], false);
    let wanted = array_of(&rt, alloc, &[1, 2], false);
    let ty = array(&rt, alloc, Type::U32, Some(2));
    let found = answer_of!(&rt; value.convert_to(alloc, &ty));
    assert_found(&rt, found, &wanted);
    let found = answer_of!(&rt; value.convert_inner_to(alloc, &Type::U32));
    assert_found(&rt, found, &wanted);
    drop((value, wanted, ty));
}

/// Asserts what the two are in their common type, and with what is inside them in it.
fn assert_in_common<T: Convert + PartialEq + Debug + Drop>(
    rt: &impl Abort,
    alloc: Global,
    left: &T,
    right: &T,
    wanted: (T, T),
)
    requires left { IsWellFormed (T.value_of left.now) }
    requires right { IsWellFormed (T.value_of right.now) }
{
    let found = answer_of!(rt; convert(alloc, left, right));
    assert_found(rt, found, &wanted);
    let found = answer_of!(rt; convert_inner(alloc, left, right));
    assert_found(rt, found, &wanted);
    drop(wanted);
}

/// The vector of the numbers as a value, each an u32.
fn typed(rt: &impl Abort, alloc: Global, numbers: &[u32]) -> Instance
    ensures { IsWellFormed (value_of result) }
{
    storable(rt, Instance::from(vector_of(rt, alloc, numbers)))
}

/// A vector of AbstractInt.
fn untyped(rt: &impl Abort, alloc: Global) -> Instance
    ensures { IsWellFormed (value_of result) }
{
    storable(rt, Instance::from(abstract_vector(rt, alloc, &[1, 2])))
}

#[test]
fn two_converted_values_want_memory_or_have_one_type(rt: HostRuntime) {
    let alloc = rt.alloc();
    let (left, right) = (untyped(&rt, alloc), typed(&rt, alloc, &[3, 4]));
    let wanted = (typed(&rt, alloc, &[1, 2]), typed(&rt, alloc, &[3, 4]));
    assert_in_common(&rt, alloc, &left, &right, wanted);
    drop((left, right));
}

#[test]
fn two_converted_types_want_memory_or_are_equal(rt: HostRuntime) {
    let alloc = rt.alloc();
    let left = vector(&rt, alloc, 2, Type::AbstractInt);
    let right = vector(&rt, alloc, 2, Type::U32);
    let wanted = (
        vector(&rt, alloc, 2, Type::U32),
        vector(&rt, alloc, 2, Type::U32),
    );
    assert_in_common(&rt, alloc, &left, &right, wanted);
    drop((left, right));
}

#[test]
fn a_converted_list_of_values_wants_memory_or_is_whole(rt: HostRuntime) {
    let alloc = rt.alloc();
    let ty = vector(&rt, alloc, 2, Type::U32);
    let values = [untyped(&rt, alloc), typed(&rt, alloc, &[3, 4])];
    let wanted = [typed(&rt, alloc, &[1, 2]), typed(&rt, alloc, &[3, 4])];
    let found = answer_of!(&rt; convert_all(alloc, &values));
    assert_list(&rt, found, &wanted);
    let found = answer_of!(&rt; convert_all_to(alloc, &values, &ty));
    assert_list(&rt, found, &wanted);
    let found = answer_of!(&rt; convert_all_inner_to(alloc, &values, &Type::U32));
    assert_list(&rt, found, &wanted);
    drop((values, wanted, ty));
}

#[test]
fn a_converted_list_of_types_wants_memory_or_is_whole(rt: HostRuntime) {
    let alloc = rt.alloc();
    let any = vector(&rt, alloc, 2, Type::AbstractInt);
    let types = [any, vector(&rt, alloc, 2, Type::U32)];
    let first = vector(&rt, alloc, 2, Type::U32);
    let wanted = [first, vector(&rt, alloc, 2, Type::U32)];
    let found = answer_of!(&rt; convert_all(alloc, &types));
    assert_list(&rt, found, &wanted);
    let found = answer_of!(&rt; convert_all_to(alloc, &types, &wanted[1]));
    assert_list(&rt, found, &wanted);
    let found = answer_of!(&rt; convert_all_inner_to(alloc, &types, &Type::U32));
    assert_list(&rt, found, &wanted);
    drop((types, wanted));
}

#[test]
fn a_concrete_type_wants_memory_or_is_whole(rt: HostRuntime) {
    let alloc = rt.alloc();
    let any = vector(&rt, alloc, 2, Type::AbstractInt);
    let wanted = vector(&rt, alloc, 2, Type::I32);
    let found = answer_of!(&rt; any.concretize(alloc));
    assert_is(&rt, &wanted, found);
    drop((any, wanted));
}
