//! A closure at each component: its answers, or its first refusal, with nothing changed.

ghost use Rattle.std.specs.Prelude.{◌≡◌, IfOk};
ghost use Rattle.wgsl_rules.specs.Types as types;
ghost use Rattle.wgsl_rules.specs.Values.{IsStorable, type_of};
ghost use Rattle.wgsl_scalar.specs.Literals.{literal_of};
ghost use Rattle.wgsl_values.specs.View.{vec_view};

use crate::tests::answers::assert_answer;
use crate::tests::made::made_vector;
use std::alloc::Global;
use std::process::Abort;
use wgsl_samples::operands::{i2, i3, u2};
use wgsl_scalar::LiteralInstance::I32;
use wgsl_scalar::{Error, LiteralInstance};
use wgsl_value_ops::Compwise;
use wgsl_values::{Instance, VecInstance};

/// Twice an i32 other than 3.
fn doubled(literal: &LiteralInstance) -> Result<LiteralInstance, Error>
    ensures { IfOk result (λ l. type_of (literal_of l) ≡ types.i32) }
{
    match *literal {
        I32(3) => Err(Error::DivByZero),
        I32(number) => Ok(I32(number.wrapping_mul(2))),
        _ => Err(Error::AddOverflow),
    }
}

/// Ten times the first i32, and the second.
fn joined(first: &LiteralInstance, second: &LiteralInstance) -> Result<LiteralInstance, Error>
    ensures { IfOk result (λ l. type_of (literal_of l) ≡ types.i32) }
{
    match (*first, *second) {
        (I32(3), _) => Err(Error::DivByZero),
        (I32(tens), I32(ones)) => Ok(I32(tens.wrapping_mul(10).wrapping_add(ones))),
        _ => Err(Error::AddOverflow),
    }
}

/// Doubles each component in its place.
fn double_all(alloc: Global, vector: &mut VecInstance) -> Result<(), Error>
    requires { IsStorable (vec_view vector.old) }
{
    answered!(vector.compwise_unary_mut(alloc, doubled))
}

/// The vector of each two components, joined.
fn joined_all(alloc: Global, left: &VecInstance, right: &VecInstance) -> Result<VecInstance, Error>
    requires left { IsStorable (vec_view left.now) }
    requires right { IsStorable (vec_view right.now) }
{
    answered!(left.compwise_binary(alloc, right, joined))
}

/// Joins to each component on the left that on the right, in its place.
fn join_all(alloc: Global, left: &mut VecInstance, right: &VecInstance) -> Result<(), Error>
    requires left { IsStorable (vec_view left.old) }
    requires right { IsStorable (vec_view right.now) }
{
    answered!(left.compwise_binary_mut(alloc, right, joined))
}

/// Asserts the text of the refusal.
fn assert_refused(rt: &impl Abort, alloc: Global, answer: Result<(), Error>, wanted: &str) {
    match answer {
        Ok(()) => panic!(rt; "no refusal, but {wanted} is wanted"),
        Err(error) => assert_answer(rt, alloc, 0, Err::<Instance, Error>(error), wanted),
    }
}

#[test]
fn a_refusal_changes_no_component(rt: HostRuntime) {
    let alloc = rt.alloc();
    let mut vector = made_vector(&rt, alloc, i3(1, 2, 3));
    let answer = double_all(alloc, &mut vector);
    assert_refused(&rt, alloc, answer, "DivByZero");
    assert_answer(&rt, alloc, 0, Ok(vector), "vec3(1i, 2i, 3i)");
}

#[test]
fn answers_take_the_place_of_components(rt: HostRuntime) {
    let alloc = rt.alloc();
    let mut vector = made_vector(&rt, alloc, i3(1, 2, 4));
    let answer = double_all(alloc, &mut vector);
    answer.expect(&rt, "an answer");
    assert_answer(&rt, alloc, 0, Ok(vector), "vec3(2i, 4i, 8i)");
}

#[test]
fn a_vector_of_answers(rt: HostRuntime) {
    let alloc = rt.alloc();
    let vector = made_vector(&rt, alloc, i2(1, 2));
    let answer = answered!(vector.compwise_unary(alloc, doubled));
    assert_answer(&rt, alloc, 0, answer, "vec2(2i, 4i)");
    drop(vector);
}

#[test]
fn two_vectors_of_equal_counts_are_joined(rt: HostRuntime) {
    let alloc = rt.alloc();
    let left = made_vector(&rt, alloc, i2(1, 2));
    let right = made_vector(&rt, alloc, i2(3, 4));
    let answer = joined_all(alloc, &left, &right);
    assert_answer(&rt, alloc, 0, answer, "vec2(13i, 24i)");
    drop((left, right));
}

#[test]
fn two_vectors_of_unequal_counts_are_refused(rt: HostRuntime) {
    let alloc = rt.alloc();
    let mut left = made_vector(&rt, alloc, i3(1, 2, 3));
    let right = made_vector(&rt, alloc, u2(3, 4));
    let answer = joined_all(alloc, &left, &right);
    assert_answer(&rt, alloc, 0, answer, "CompwiseBinary vec3<i32>, vec2<u32>");
    let answer = join_all(alloc, &mut left, &right);
    assert_refused(&rt, alloc, answer, "CompwiseBinary vec3<i32>, vec2<u32>");
    assert_answer(&rt, alloc, 1, Ok(left), "vec3(1i, 2i, 3i)");
    drop(right);
}

#[test]
fn a_refusal_of_two_vectors_changes_no_component(rt: HostRuntime) {
    let alloc = rt.alloc();
    let mut left = made_vector(&rt, alloc, i3(1, 3, 2));
    let right = made_vector(&rt, alloc, i3(4, 5, 6));
    let answer = join_all(alloc, &mut left, &right);
    assert_refused(&rt, alloc, answer, "DivByZero");
    assert_answer(&rt, alloc, 0, Ok(left), "vec3(1i, 3i, 2i)");
    drop(right);
}
