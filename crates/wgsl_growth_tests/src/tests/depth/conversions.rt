//! Conversions of values: arrays of one element in each other.

use crate::tests::asserts::{assert_answer, assert_is, assert_same, assert_that};
use crate::tests::depth::{array_around, arrays, in_arrays, levels};
use std::alloc::Global;
use std::process::Abort;
use wgsl_rules::{
    Convert, Type, convert, convert_all, convert_all_inner_to, convert_all_to, convert_inner,
};
use wgsl_values::Instance;

#[test]
fn values_convert_to_types(rt: HostRuntime) {
    let alloc = rt.alloc();
    let depth = levels(&rt);
    let value = in_arrays(&rt, alloc, depth, Instance::from(1i64));
    let ty = arrays(&rt, alloc, depth, Type::U32);
    let inner = arrays(&rt, alloc, depth.saturating_sub(1), Type::U32);
    let wanted = in_arrays(&rt, alloc, depth, Instance::from(1u32));
    assert_that(&rt, value.is_convertible_to(&ty));
    let answer = made!(&rt; value.convert_to(alloc, &ty));
    assert_answer(&rt, answer, Some(&wanted));
    let answer = made!(&rt; value.convert_inner_to(alloc, &inner));
    assert_answer(&rt, answer, Some(&wanted));
    let answer = made!(&rt; wanted.convert_to(alloc, &ty));
    assert_answer(&rt, answer, Some(&wanted));
    drop((ty, inner, wanted));
    let concrete = in_arrays(&rt, alloc, depth, Instance::from(1i32));
    let answer = made!(&rt; value.concretize(alloc));
    assert_answer(&rt, answer, Some(&concrete));
    drop((value, concrete));
}

#[test]
fn arrays_convert_to_types(rt: HostRuntime) {
    let alloc = rt.alloc();
    let depth = levels(&rt);
    let around = depth.saturating_sub(1);
    let inside = in_arrays(&rt, alloc, around, Instance::from(1i64));
    let value = array_around(&rt, alloc, inside);
    let ty = arrays(&rt, alloc, depth, Type::I32);
    let inside = in_arrays(&rt, alloc, around, Instance::from(1i32));
    let wanted = array_around(&rt, alloc, inside);
    let answer = made!(&rt; value.convert_to(alloc, &ty));
    assert_answer(&rt, answer, Some(&wanted));
    let answer = made!(&rt; value.concretize(alloc));
    assert_answer(&rt, answer, Some(&wanted));
    drop((value, ty, wanted));
}

#[test]
fn two_values_convert_to_their_common_type(rt: HostRuntime) {
    let alloc = rt.alloc();
    let depth = levels(&rt);
    let value = in_arrays(&rt, alloc, depth, Instance::from(1i64));
    let other = in_arrays(&rt, alloc, depth, Instance::from(2u32));
    let first = in_arrays(&rt, alloc, depth, Instance::from(1u32));
    let second = in_arrays(&rt, alloc, depth, Instance::from(2u32));
    let both = made!(&rt; convert(alloc, &value, &other));
    assert_same(&rt, both, Some((first, second)));
    let first = in_arrays(&rt, alloc, depth, Instance::from(1u32));
    let second = in_arrays(&rt, alloc, depth, Instance::from(2u32));
    let both = made!(&rt; convert_inner(alloc, &value, &other));
    assert_same(&rt, both, Some((first, second)));
    drop((value, other));
}

/// Asserts that the list is the one value.
fn assert_only(rt: &impl Abort, list: Option<Vec<Instance>>, value: &Instance) {
    let mut list = list.expect(rt, "a common type");
    assert_is(rt, list.pop().expect(rt, "a value"), value);
    assert_that(rt, list.is_empty());
    drop(list);
}

#[test]
fn lists_of_values_convert(rt: HostRuntime) {
    let alloc = rt.alloc();
    let depth = levels(&rt);
    let values = [in_arrays(&rt, alloc, depth, Instance::from(1i64))];
    let same = made!(&rt; values[0].clone(alloc));
    let list = made!(&rt; convert_all(alloc, &values));
    assert_only(&rt, list, &same);
    drop(same);
    let wanted = in_arrays(&rt, alloc, depth, Instance::from(1u32));
    let ty = arrays(&rt, alloc, depth, Type::U32);
    let list = made!(&rt; convert_all_to(alloc, &values, &ty));
    assert_only(&rt, list, &wanted);
    let inner = arrays(&rt, alloc, depth.saturating_sub(1), Type::U32);
    let list = made!(&rt; convert_all_inner_to(alloc, &values, &inner));
    assert_only(&rt, list, &wanted);
    drop((values, wanted));
    drop((ty, inner));
}
