//! Conversions of values of each type: want of memory is told as such, and never as no conversion.

ghost use Rattle.wgsl_rules.specs.Values.{IsStorable, IsWellFormed};
ghost use Rattle.wgsl_values.specs.View.{array_view};

use crate::tests::asserts::assert_answer;
use crate::tests::samples::{
    abstract_mat2x3, abstract_vector, array, array_from, array_of, integer_vector, mat2x3, matrix,
    pair, pair_with, storable, vector, vector_of,
};
use std::alloc::Global;
use std::fmt::Debug;
use std::process::Abort;
use wgsl_rules::{Convert, Type};
use wgsl_samples::values::{abstract_numbers, integers};
use wgsl_scalar::LiteralInstance;
use wgsl_values::{ArrayInstance, Instance};

/// Asserts what the value is in the type, and with what is inside it in the inner type; it is nothing in a float.
fn assert_converts<T: Convert + PartialEq + Debug + Drop>(
    rt: &impl Abort,
    alloc: Global,
    value: &T,
    ty: &Type,
    inner: &Type,
    wanted: &T,
)
    requires { IsWellFormed (T.value_of value.now) }
{
    let answer = answer_of!(rt; value.convert_to(alloc, ty));
    assert_answer(rt, answer, Some(wanted));
    let answer = answer_of!(rt; value.convert_inner_to(alloc, inner));
    assert_answer(rt, answer, Some(wanted));
    let float = Type::F64;
    let answer = answer_of!(rt; value.convert_inner_to(alloc, &float));
    assert_answer(rt, answer, None);
    drop(float);
}

/// Asserts what the value is in its concrete type.
fn assert_concrete<T: Convert + PartialEq + Debug + Drop>(
    rt: &impl Abort,
    alloc: Global,
    value: &T,
    wanted: Option<&T>,
)
    requires { IsWellFormed (T.value_of value.now) }
{
    let answer = answer_of!(rt; value.concretize(alloc));
    assert_answer(rt, answer, wanted);
}

#[test]
fn literals(rt: HostRuntime) {
    let (alloc, word) = (rt.alloc(), Type::U32);
    let one = LiteralInstance::AbstractInt(1);
    let wanted = LiteralInstance::U32(1);
    assert_converts(&rt, alloc, &one, &word, &word, &wanted);
    assert_concrete(&rt, alloc, &one, Some(&LiteralInstance::I32(1)));
    drop((pair(&rt, alloc), word));
}

/// The array of 1 and 2, each an AbstractInt.
fn abstract_array(rt: &impl Abort, alloc: Global) -> ArrayInstance
    ensures { IsStorable (array_view result) }
{
    array_from(rt, made!(rt; abstract_numbers(alloc, &[1, 2])), false)
}

#[test]
fn arrays(rt: HostRuntime) {
    let (alloc, word) = (rt.alloc(), Type::U32);
    let value = abstract_array(&rt, alloc);
    let ty = array(&rt, alloc, Type::U32, Some(2));
    let wanted = array_of(&rt, alloc, &[1, 2], false);
    assert_converts(&rt, alloc, &value, &ty, &word, &wanted);
    let concrete = array_from(&rt, made!(&rt; integers(alloc, &[1, 2])), false);
    assert_concrete(&rt, alloc, &value, Some(&concrete));
    drop((value, ty, wanted, concrete, word));
}

#[test]
fn vectors(rt: HostRuntime) {
    let (alloc, word) = (rt.alloc(), Type::U32);
    let value = abstract_vector(&rt, alloc, &[1, 2, 3]);
    let ty = vector(&rt, alloc, 3, Type::U32);
    let wanted = vector_of(&rt, alloc, &[1, 2, 3]);
    assert_converts(&rt, alloc, &value, &ty, &word, &wanted);
    let concrete = integer_vector(&rt, alloc, &[1, 2, 3]);
    assert_concrete(&rt, alloc, &value, Some(&concrete));
    drop((value, ty, wanted, concrete, word));
}

#[test]
fn matrices(rt: HostRuntime) {
    let (alloc, word) = (rt.alloc(), Type::U32);
    let value = abstract_mat2x3(&rt, alloc);
    let ty = matrix(&rt, alloc, Type::U32);
    let wanted = mat2x3(&rt, alloc);
    assert_converts(&rt, alloc, &value, &ty, &word, &wanted);
    // its concrete type is one of f32, of which there are no values
    assert_concrete(&rt, alloc, &value, None);
    assert_concrete(&rt, alloc, &wanted, Some(&wanted));
    drop((value, ty, wanted, word));
}

#[test]
fn structures(rt: HostRuntime) {
    let alloc = rt.alloc();
    let value = pair_with(&rt, alloc, 1);
    let ty = pair(&rt, alloc);
    assert_converts(&rt, alloc, &value, &ty, &ty, &value);
    assert_concrete(&rt, alloc, &value, Some(&value));
    drop((value, ty));
}

#[test]
fn values_of_every_kind(rt: HostRuntime) {
    let (alloc, word) = (rt.alloc(), Type::U32);
    let value = storable(&rt, Instance::from(abstract_mat2x3(&rt, alloc)));
    let ty = matrix(&rt, alloc, Type::U32);
    let wanted = Instance::from(mat2x3(&rt, alloc));
    assert_converts(&rt, alloc, &value, &ty, &word, &wanted);
    assert_concrete(&rt, alloc, &value, None);
    drop((value, ty, wanted, word));
    let value = storable(&rt, Instance::from(abstract_array(&rt, alloc)));
    let concrete = array_from(&rt, made!(&rt; integers(alloc, &[1, 2])), false);
    let concrete = Instance::from(concrete);
    assert_concrete(&rt, alloc, &value, Some(&concrete));
    drop((value, concrete));
}
