//! Buffers of values: want of memory is told as such, and never as no bytes or no value.

ghost use Rattle.wgsl_rules.specs.Values.{IsWellFormed};
ghost use Rattle.wgsl_values.specs.View.{value_of};

use crate::tests::asserts::assert_same;
use crate::tests::growth::samples::{light, pair_of};
use crate::tests::samples::storable;
use std::alloc::{AllocError, Global};
use std::process::Abort;
use wgsl_rules::{Ty, Type};
use wgsl_samples::types;
use wgsl_store::Buffers;
use wgsl_values::Instance;

/// Asserts that the value goes to the bytes.
fn assert_buffer(rt: &impl Abort, alloc: Global, value: &Instance, wanted: &[u8])
    requires { IsWellFormed (value_of value.now) }
{
    let buffer = answer_of!(rt; value.to_buffer(alloc));
    assert_same(rt, buffer.as_deref(), Some(wanted));
    drop(buffer);
}

fn type_of(rt: &impl Abort, alloc: Global, value: &Instance) -> Type
    requires { IsWellFormed (value_of value.now) }
{
    answer_of!(rt; value.ty(alloc))
}

/// The value of the type that the bytes lay out.
fn value_in(rt: &impl Abort, alloc: Global, bytes: &[u8], ty: &Type) -> Option<Instance> {
    answer_of!(rt; Instance::from_buffer(alloc, bytes, ty))
}

#[test]
fn a_buffer_wants_memory_or_is_whole(rt: HostRuntime) {
    let alloc = rt.alloc();
    let pair = storable(&rt, pair_of(&rt, alloc, 1));
    let mut wanted = [0u8; 32];
    for (i, word) in [1u8, 0, 0, 0, 2, 3, 4, 0].iter().enumerate() {
        wanted[i * 4] = *word;
    }
    assert_buffer(&rt, alloc, &pair, &wanted);
    drop(pair);
}

#[test]
fn what_a_buffer_lays_out_wants_memory_or_is_whole(rt: HostRuntime) {
    let alloc = rt.alloc();
    let light = light(&rt, alloc);
    let ty = type_of(&rt, alloc, &light);
    let bytes = answer_of!(&rt; light.to_buffer(alloc)).expect(&rt, "bytes");
    assert_same(&rt, value_in(&rt, alloc, &[0u8; 4], &ty), None);
    assert_same(&rt, value_in(&rt, alloc, &bytes, &Type::Bool), None);
    assert_same(&rt, value_in(&rt, alloc, &bytes, &ty), Some(light));
    drop((ty, bytes));
}

fn wide_array(alloc: Global) -> Result<Type, AllocError> {
    types::array(alloc, types::vector(alloc, 3, Type::I64)?, Some(2))
}

#[test]
fn a_buffer_of_wide_vectors_wants_memory_or_is_whole(rt: HostRuntime) {
    let alloc = rt.alloc();
    let ty = answer_of!(&rt; wide_array(alloc));
    let mut bytes = [0u8; 64];
    for (i, number) in [1u8, 2, 3, 0, 4, 5, 6, 0].iter().enumerate() {
        bytes[i * 8] = *number;
    }
    let read = value_in(&rt, alloc, &bytes, &ty).expect(&rt, "a value");
    let read = storable(&rt, read);
    assert_buffer(&rt, alloc, &read, &bytes);
    drop((ty, read));
}
