//! The texts of values of all kinds.

use crate::tests::asserts::assert_text;
use crate::tests::samples::{
    array_from, array_of, atomic_of, integers, mat2x3, member_then_index, pair_value, reference_of,
    vector, vector_of,
};
use std::alloc::Global;
use std::fmt::Display;
use std::process::Abort;
use wgsl_rules::Type;
use wgsl_scalar::LiteralInstance::I32;
use wgsl_values::{Instance, MemView, PtrInstance};

/// Asserts the text of the value.
fn assert_value(rt: &impl Abort, alloc: Global, value: Instance, wanted: &str) {
    assert_text(rt, alloc, &value, wanted);
    drop(value);
}

/// Asserts the text of what a value is made from, and of that value.
fn assert_both<T: Display>(rt: &impl Abort, alloc: Global, payload: T, wanted: &str)
where
    Instance: From<T>,
{
    assert_text(rt, alloc, &payload, wanted);
    assert_value(rt, alloc, Instance::from(payload), wanted);
}

#[test]
fn values_of_each_kind_have_a_text(rt: HostRuntime) {
    let alloc = rt.alloc();
    assert_value(&rt, alloc, Instance::from(true), "true");
    assert_value(&rt, alloc, Instance::from(-7i64), "-7");
    let pair = pair_value(&rt, alloc);
    assert_both(&rt, alloc, pair, "Pair(1u, vec3(2u, 3u, 4u))");
    let array = array_from(&rt, integers(&rt, alloc, &[1, 2]), false);
    assert_both(&rt, alloc, array, "array(1i, 2i)");
    let runtime_sized = array_of(&rt, alloc, &[3], true);
    assert_value(&rt, alloc, Instance::from(runtime_sized), "array(3u)");
    let components = vector_of(&rt, alloc, &[1, 2, 3]);
    assert_both(&rt, alloc, components, "vec3(1u, 2u, 3u)");
    let text = "mat2x3(vec3(1u, 2u, 3u), vec3(4u, 5u, 6u))";
    assert_both(&rt, alloc, mat2x3(&rt, alloc), text);
    let atomic = atomic_of(&rt, alloc, I32(5));
    assert_both(&rt, alloc, atomic, "atomic<i32>(5i)");
    let deferred = Instance::from(vector(&rt, alloc, 2, Type::U32));
    assert_value(&rt, alloc, deferred, "__deferred<vec2<u32>>");
}

#[test]
fn pointers_and_references_print_their_types(rt: HostRuntime) {
    let alloc = rt.alloc();
    let reference = reference_of(&rt, alloc);
    assert_both(&rt, alloc, reference, "ref<storage, u32, read_write>");
    let pointer = PtrInstance::from(reference_of(&rt, alloc));
    assert_both(&rt, alloc, pointer, "ptr<storage, u32, read_write>");
}

#[test]
fn a_view_prints_a_colon_before_each_step(rt: HostRuntime) {
    let alloc = rt.alloc();
    assert_text(&rt, alloc, &MemView::Whole, "");
    let view = member_then_index(&rt, alloc);
    assert_text(&rt, alloc, &view, ":m:2");
    drop(view);
}
