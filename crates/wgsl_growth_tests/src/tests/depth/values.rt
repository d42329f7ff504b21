//! Calls on values: arrays of one element in each other. What is written through a view takes half as many steps as there are
//! levels.

use crate::tests::asserts::{assert_has, assert_is, assert_same, assert_that};
use crate::tests::depth::{
    array_around, arrays, assert_text, first_parts, in_arrays, levels, nested,
};
use crate::tests::samples::{storable, text};
use std::mem;
use wgsl_ops::{InstanceOperators, Operators};
use wgsl_rules::{BinaryOperator, ShaderStage, Ty, Type, UnaryOperator};
use wgsl_scalar::Error;
use wgsl_values::{CallSignature, Instance, TpltParam};

#[test]
fn copies_and_whether_values_are_equal(rt: HostRuntime) {
    let alloc = rt.alloc();
    let depth = levels(&rt);
    let value = in_arrays(&rt, alloc, depth, Instance::from(1u32));
    let other = in_arrays(&rt, alloc, depth, Instance::from(2u32));
    assert_that(&rt, value != other);
    drop(other);
    assert_is(&rt, made!(&rt; value.clone(alloc)), &value);
    drop(value);
    let inside = in_arrays(&rt, alloc, depth.saturating_sub(1), Instance::from(1u32));
    let array = array_around(&rt, alloc, inside);
    assert_is(&rt, made!(&rt; array.clone(alloc)), &array);
    drop(array);
}

#[test]
fn types_of_values(rt: HostRuntime) {
    let alloc = rt.alloc();
    let depth = levels(&rt);
    let value = in_arrays(&rt, alloc, depth, Instance::from(1u32));
    let ty = arrays(&rt, alloc, depth, Type::U32);
    let inner = arrays(&rt, alloc, depth.saturating_sub(1), Type::U32);
    let other = arrays(&rt, alloc, depth, Type::I32);
    assert_is(&rt, made!(&rt; value.ty(alloc)), &ty);
    assert_is(&rt, made!(&rt; value.inner_ty(alloc)), &inner);
    assert_that(&rt, value.has_ty(&ty));
    assert_that(&rt, !value.has_ty(&other));
    assert_that(&rt, value.is_convertible_to(&ty));
    assert_that(&rt, !value.is_convertible_to(&other));
    drop((value, ty, inner, other));
}

#[test]
fn texts_of_values(rt: HostRuntime) {
    let alloc = rt.alloc();
    let depth = levels(&rt);
    let value = in_arrays(&rt, alloc, depth, Instance::from(1u32));
    let wanted = nested(&rt, alloc, depth, ["array(", "1u", ")"]);
    assert_text(&rt, alloc, &value, wanted.as_str());
    drop(value);
}

#[test]
fn the_innermost_part_is_lent(rt: HostRuntime) {
    let alloc = rt.alloc();
    let depth = levels(&rt);
    let value = in_arrays(&rt, alloc, depth, Instance::from(1u32));
    let view = first_parts(&rt, alloc, depth);
    let nowhere = first_parts(&rt, alloc, depth.saturating_add(1));
    assert_has(&rt, value.view(alloc, &view).ok(), Instance::from(1u32));
    let refusal = value.view(alloc, &nowhere).err();
    assert_same(&rt, refusal, Some(Error::NotIndexable(Type::U32)));
    drop((value, view, nowhere));
}

#[test]
fn parts_are_written(rt: HostRuntime) {
    let alloc = rt.alloc();
    let depth = levels(&rt);
    let steps = depth / 2;
    let rest = depth.saturating_sub(steps);
    let mut value = in_arrays(&rt, alloc, depth, Instance::from(1u32));
    let view = first_parts(&rt, alloc, steps);
    let nine = in_arrays(&rt, alloc, rest, Instance::from(9u32));
    let mut part = value.view_mut(alloc, &view).expect(&rt, "a part");
    drop(mem::replace(&mut *part, nine));
    drop(part);
    let seven = in_arrays(&rt, alloc, rest, Instance::from(7u32));
    let old = value.put(&view, seven);
    let wanted = in_arrays(&rt, alloc, rest, Instance::from(9u32));
    assert_same(&rt, old, Some(wanted));
    let wanted = in_arrays(&rt, alloc, depth, Instance::from(7u32));
    assert_same(&rt, value, wanted);
    drop(view);
}

#[test]
fn no_part_of_a_number_is_written(rt: HostRuntime) {
    let alloc = rt.alloc();
    let steps = levels(&rt) / 2;
    let mut value = in_arrays(&rt, alloc, steps, Instance::from(1u32));
    let nowhere = first_parts(&rt, alloc, steps.saturating_add(1));
    assert_same(&rt, value.put(&nowhere, Instance::from(7u32)), None);
    let wanted = in_arrays(&rt, alloc, steps, Instance::from(1u32));
    assert_same(&rt, value, wanted);
    drop(nowhere);
}

#[test]
fn values_take_the_place_of_others(rt: HostRuntime) {
    let alloc = rt.alloc();
    let depth = levels(&rt);
    let mut value = in_arrays(&rt, alloc, depth, Instance::from(1u32));
    let next = in_arrays(&rt, alloc, depth, Instance::from(2u32));
    let old = in_arrays(&rt, alloc, depth, Instance::from(1u32));
    assert_same(&rt, value.write(alloc, next), Ok(old));
    let mut value = storable(&rt, value);
    let other = in_arrays(&rt, alloc, depth, Instance::from(3i32));
    let own = arrays(&rt, alloc, depth, Type::U32);
    let given = arrays(&rt, alloc, depth, Type::I32);
    let answer = value.write(alloc, other);
    assert_same(&rt, answer, Err(Error::WriteRefType(given, own)));
    let wanted = in_arrays(&rt, alloc, depth, Instance::from(2u32));
    assert_same(&rt, value, wanted);
}

#[test]
fn operators_refuse_arrays(rt: HostRuntime) {
    let alloc = rt.alloc();
    let depth = levels(&rt);
    let value = in_arrays(&rt, alloc, depth, Instance::from(1u32));
    let (left, right) = (
        arrays(&rt, alloc, depth, Type::U32),
        arrays(&rt, alloc, depth, Type::U32),
    );
    let answer = value.op_add(alloc, &value, ShaderStage::Exec);
    let refusal = Error::Binary(BinaryOperator::Addition, left, right);
    assert_same(&rt, answer, Err(refusal));
    let ty = arrays(&rt, alloc, depth, Type::U32);
    let answer = value.op_deref(alloc);
    let refusal = Error::Unary(UnaryOperator::Indirection, ty);
    assert_same(&rt, answer, Err(refusal));
    drop(value);
}

#[test]
fn arguments_of_calls(rt: HostRuntime) {
    let alloc = rt.alloc();
    let depth = levels(&rt);
    let value = in_arrays(&rt, alloc, depth, Instance::from(1u32));
    let ty = arrays(&rt, alloc, depth, Type::U32);
    let tplt = vec![in alloc; TpltParam::OfType(ty), TpltParam::Instance(value)];
    let tplt = made!(&rt; tplt);
    for param in &tplt {
        assert_is(&rt, made!(&rt; param.clone(alloc)), param);
    }
    let args = vec![in alloc; arrays(&rt, alloc, depth, Type::U32)];
    let call = CallSignature {
        name: text(&rt, alloc, "f"),
        tplt: Some(tplt),
        args: made!(&rt; args),
    };
    assert_is(&rt, made!(&rt; call.clone(alloc)), &call);
    let ty = nested(&rt, alloc, depth, ["array<", "u32", ", 1>"]);
    let value = nested(&rt, alloc, depth, ["array(", "1u", ")"]);
    let wanted = format!(in alloc; "f<{ty}, {value}>({ty})");
    assert_text(&rt, alloc, &call, made!(&rt; wanted).as_str());
    drop(call);
}
