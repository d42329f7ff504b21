//! Copies of errors.

use crate::tests::asserts::assert_same;
use std::alloc::{AllocError, Global};
use std::process::Abort;
use wgsl_rules::{BinaryOperator, Type};
use wgsl_samples::types::{nested, vector};
use wgsl_scalar::Error;

fn binary(alloc: Global) -> Result<Error, AllocError> {
    let left = nested(alloc)?;
    let right = vector(alloc, 2, Type::U32)?;
    Ok(Error::Binary(BinaryOperator::Addition, left, right))
}

fn component(alloc: Global) -> Result<Error, AllocError> {
    Ok(Error::Component(nested(alloc)?, format!(in alloc; "member")?))
}

/// Asserts that a copy is equal, where one growth alone may be refused.
fn assert_copy(rt: &impl Abort, alloc: Global, error: Error) {
    let copy = match error.clone(alloc) {
        Ok(copy) => copy,
        Err(_) => error.clone(alloc).expect(rt, "memory"),
    };
    assert_same(rt, copy, error);
}

#[test]
fn a_copy_of_an_error_with_types_is_refused_or_equal(rt: HostRuntime) {
    let alloc = rt.alloc();
    if let Ok(error) = binary(alloc) {
        assert_copy(&rt, alloc, error);
    }
}

#[test]
fn a_copy_of_an_error_with_a_name_is_refused_or_equal(rt: HostRuntime) {
    let alloc = rt.alloc();
    if let Ok(error) = component(alloc) {
        assert_copy(&rt, alloc, error);
    }
}
