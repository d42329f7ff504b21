//! The laws of conversion, each with values whose answers show what it says. The calls of the laws do nothing.

use crate::tests::asserts::{assert_gives, assert_is, assert_none, assert_same};
use crate::tests::conversions::assert_to;
use crate::tests::samples::{
    abstract_array, abstract_vector, array_of, integers, storable, vector, vector_from, vector_of,
};
use wgsl_rules::laws::{conversions_keep_numbers, inner_conversions_give_their_type};
use wgsl_rules::{
    Convert, Ty, Type, convert, convert_is_symmetric, converting_again_changes_nothing,
};
use wgsl_values::Instance;

#[test]
fn a_converted_value_keeps_its_numbers(rt: HostRuntime) {
    let alloc = rt.alloc();
    conversions_keep_numbers();
    let any = abstract_vector(&rt, alloc, &[-2147483648, 2147483647]);
    let least_and_greatest = vector_from(&rt, integers(&rt, alloc, &[-2147483648, 2147483647]));
    let signed = vector(&rt, alloc, 2, Type::I32);
    assert_to(&rt, alloc, &any, signed, Some(&least_and_greatest));
    assert_to(&rt, alloc, &any, vector(&rt, alloc, 2, Type::U32), None);
    drop((any, least_and_greatest));
}

#[test]
fn what_is_inside_has_the_type_that_was_asked(rt: HostRuntime) {
    let alloc = rt.alloc();
    inner_conversions_give_their_type();
    let any = abstract_array(&rt, alloc, &[1, 2], false);
    let found = any.convert_inner_to(alloc, &Type::U32);
    let found = found.expect(&rt, "memory").expect(&rt, "a value");
    assert_is(&rt, &found, array_of(&rt, alloc, &[1, 2], false));
    let found = storable(&rt, Instance::from(found));
    assert_gives(&rt, found.inner_ty(alloc), Type::U32);
    drop((any, found));
}

#[test]
fn two_values_convert_in_either_order(rt: HostRuntime) {
    let alloc = rt.alloc();
    convert_is_symmetric::<Instance>();
    let any = storable(&rt, Instance::from(abstract_vector(&rt, alloc, &[1, 2])));
    let typed = storable(&rt, Instance::from(vector_of(&rt, alloc, &[3, 4])));
    let found = convert(alloc, &any, &typed).expect(&rt, "memory");
    let (left, right) = found.expect(&rt, "two values");
    let found = convert(alloc, &typed, &any).expect(&rt, "memory");
    let (first, second) = found.expect(&rt, "two values");
    assert_is(&rt, &left, Instance::from(vector_of(&rt, alloc, &[1, 2])));
    assert_is(&rt, &right, Instance::from(vector_of(&rt, alloc, &[3, 4])));
    assert_same(&rt, second, left);
    assert_same(&rt, first, right);
    let other = storable(&rt, Instance::from(5i32));
    assert_none(&rt, convert(alloc, &typed, &other));
    assert_none(&rt, convert(alloc, &other, &typed));
    drop((any, typed, other));
}

#[test]
fn a_converted_value_converts_to_itself(rt: HostRuntime) {
    let alloc = rt.alloc();
    converting_again_changes_nothing::<Instance>();
    let ty = vector(&rt, alloc, 2, Type::U32);
    let any = storable(&rt, Instance::from(abstract_vector(&rt, alloc, &[1, 2])));
    let found = any.convert_to(alloc, &ty).expect(&rt, "memory");
    let once = storable(&rt, found.expect(&rt, "a value"));
    assert_to(&rt, alloc, &once, ty, Some(&once));
    assert_is(&rt, &once, Instance::from(vector_of(&rt, alloc, &[1, 2])));
    drop((any, once));
}
