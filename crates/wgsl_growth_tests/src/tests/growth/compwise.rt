//! A closure at each component of a matrix: where memory is wanting nothing is changed.

ghost use Rattle.std.specs.Prelude.{◌≡◌, IfOk};
ghost use Rattle.wgsl_rules.specs.Types as types;
ghost use Rattle.wgsl_rules.specs.Values.{type_of};
ghost use Rattle.wgsl_scalar.specs.Literals.{literal_of};

use crate::tests::asserts::{assert_gives, assert_is, assert_made_or_memory, assert_same};
use crate::tests::samples::{mat2x3, two_columns, vector_of};
use std::alloc::Global;
use std::process::Abort;
use wgsl_scalar::LiteralInstance::U32;
use wgsl_scalar::{Error, LiteralInstance};
use wgsl_value_ops::Compwise;
use wgsl_values::MatInstance;

/// Twice a u32.
fn doubled(literal: &LiteralInstance) -> Result<LiteralInstance, Error>
    ensures { IfOk result (λ l. type_of (literal_of l) ≡ types.u32) }
{
    match *literal {
        U32(number) => Ok(U32(number.wrapping_mul(2))),
        _ => Err(Error::AddOverflow),
    }
}

/// The sum of two of u32.
fn added(first: &LiteralInstance, second: &LiteralInstance) -> Result<LiteralInstance, Error>
    ensures { IfOk result (λ l. type_of (literal_of l) ≡ types.u32) }
{
    match (*first, *second) {
        (U32(first), U32(second)) => Ok(U32(first.wrapping_add(second))),
        _ => Err(Error::AddOverflow),
    }
}

/// The matrix with the columns (2u, 4u, 6u) and (8u, 10u, 12u).
fn twice(rt: &impl Abort, alloc: Global) -> MatInstance {
    let first = vector_of(rt, alloc, &[2, 4, 6]);
    two_columns(rt, alloc, first, vector_of(rt, alloc, &[8, 10, 12]))
}

#[test]
fn a_matrix_of_answers(rt: HostRuntime) {
    let alloc = rt.alloc();
    let (matrix, wanted) = (mat2x3(&rt, alloc), twice(&rt, alloc));
    let answer = answer_of!(&rt; matrix.compwise_unary(alloc, doubled));
    assert_is(&rt, answer, &wanted);
    let answer = answer_of!(&rt; matrix.compwise_binary(alloc, &matrix, added));
    assert_is(&rt, answer, &wanted);
    drop((matrix, wanted));
}

#[test]
fn answers_take_the_place_of_components(rt: HostRuntime) {
    let alloc = rt.alloc();
    let (mut matrix, copy) = (mat2x3(&rt, alloc), mat2x3(&rt, alloc));
    let first = matrix.compwise_unary_mut(alloc, doubled);
    if first.is_err() {
        assert_same(&rt, &matrix, &copy);
        let again = matrix.compwise_unary_mut(alloc, doubled);
        assert_gives(&rt, again, ());
    }
    assert_made_or_memory(&rt, first);
    assert_same(&rt, matrix, twice(&rt, alloc));
    drop(copy);
}

#[test]
fn answers_at_two_take_the_place_of_the_first(rt: HostRuntime) {
    let alloc = rt.alloc();
    let (mut matrix, copy) = (mat2x3(&rt, alloc), mat2x3(&rt, alloc));
    let first = matrix.compwise_binary_mut(alloc, &copy, added);
    if first.is_err() {
        assert_same(&rt, &matrix, &copy);
        let again = matrix.compwise_binary_mut(alloc, &copy, added);
        assert_gives(&rt, again, ());
    }
    assert_made_or_memory(&rt, first);
    assert_same(&rt, matrix, twice(&rt, alloc));
    drop(copy);
}
