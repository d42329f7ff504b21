//! Closures at the components of vectors, whose answers take their places without memory.

ghost use Rattle.std.specs.Prelude.{◌≡◌, IfOk};
ghost use Rattle.wgsl_rules.specs.Types as types;
ghost use Rattle.wgsl_rules.specs.Values.{type_of};
ghost use Rattle.wgsl_scalar.specs.Literals.{literal_of};

use crate::tests::asserts::assert_same;
use crate::tests::samples::vector_of;
use wgsl_scalar::LiteralInstance::U32;
use wgsl_scalar::{Error, LiteralInstance};
use wgsl_value_ops::Compwise;

/// Twice an u32 other than 3.
fn doubled(literal: &LiteralInstance) -> Result<LiteralInstance, Error>
    ensures { IfOk result (λ l. type_of (literal_of l) ≡ types.u32) }
{
    match *literal {
        U32(3) => Err(Error::DivByZero),
        U32(number) => Ok(U32(number.wrapping_mul(2))),
        _ => Err(Error::AddOverflow),
    }
}

/// The sum of two of u32, the first of which is not 3.
fn added(first: &LiteralInstance, second: &LiteralInstance) -> Result<LiteralInstance, Error>
    ensures { IfOk result (λ l. type_of (literal_of l) ≡ types.u32) }
{
    match (*first, *second) {
        (U32(3), _) => Err(Error::DivByZero),
        (U32(first), U32(second)) => Ok(U32(first.wrapping_add(second))),
        _ => Err(Error::AddOverflow),
    }
}

#[test]
fn answers_take_the_place_of_components(rt: HostRuntime) {
    let alloc = rt.alloc();
    let mut vector = vector_of(&rt, alloc, &[1, 2, 4]);
    let wanted = vector_of(&rt, alloc, &[2, 4, 8]);
    let answer = vector.compwise_unary_mut(alloc, doubled);
    assert_same(&rt, answer, Ok(()));
    assert_same(&rt, vector, wanted);
}

#[test]
fn a_refusal_at_the_last_component_changes_none(rt: HostRuntime) {
    let alloc = rt.alloc();
    let mut vector = vector_of(&rt, alloc, &[1, 2, 3]);
    let wanted = vector_of(&rt, alloc, &[1, 2, 3]);
    let answer = vector.compwise_unary_mut(alloc, doubled);
    assert_same(&rt, answer, Err(Error::DivByZero));
    assert_same(&rt, vector, wanted);
}

#[test]
fn answers_at_two_take_the_place_of_the_first(rt: HostRuntime) {
    let alloc = rt.alloc();
    let mut left = vector_of(&rt, alloc, &[1, 2, 4, 5]);
    let right = vector_of(&rt, alloc, &[6, 7, 8, 9]);
    let wanted = vector_of(&rt, alloc, &[7, 9, 12, 14]);
    let answer = left.compwise_binary_mut(alloc, &right, added);
    assert_same(&rt, answer, Ok(()));
    assert_same(&rt, left, wanted);
    drop(right);
}

#[test]
fn a_refusal_of_two_vectors_changes_no_component(rt: HostRuntime) {
    let alloc = rt.alloc();
    let mut left = vector_of(&rt, alloc, &[1, 3]);
    let right = vector_of(&rt, alloc, &[6, 7]);
    let wanted = vector_of(&rt, alloc, &[1, 3]);
    let answer = left.compwise_binary_mut(alloc, &right, added);
    assert_same(&rt, answer, Err(Error::DivByZero));
    assert_same(&rt, left, wanted);
    drop(right);
}
