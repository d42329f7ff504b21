//! The types that a cast takes as its template.

use std::alloc::Global;
use std::process::Abort;
use wgsl_rules::Type;
use wgsl_samples::types::vector;
use wgsl_value_builtins::is_bitcast_target;

/// Asserts whether the type is a template.
fn assert_template(rt: &impl Abort, ty: Type, wanted: bool) {
    assert_eq!(rt; is_bitcast_target(&ty), wanted);
    drop(ty);
}

/// Asserts whether vectors of so many of the scalar are templates.
fn assert_vector(rt: &impl Abort, alloc: Global, count: u8, scalar: Type, wanted: bool) {
    let ty = vector(alloc, count, scalar).expect(rt, "memory");
    assert_template(rt, ty, wanted);
}

#[test]
fn scalars_of_four_bytes_are_templates(rt: HostRuntime) {
    assert_template(&rt, Type::I32, true);
    assert_template(&rt, Type::U32, true);
    assert_template(&rt, Type::Bool, false);
    assert_template(&rt, Type::AbstractInt, false);
    assert_template(&rt, Type::I64, false);
    assert_template(&rt, Type::F32, false);
}

#[test]
fn vectors_of_scalars_of_four_bytes_are_templates(rt: HostRuntime) {
    let alloc = rt.alloc();
    for count in [2, 3, 4] {
        assert_vector(&rt, alloc, count, Type::I32, true);
        assert_vector(&rt, alloc, count, Type::U32, true);
        assert_vector(&rt, alloc, count, Type::U64, false);
    }
    assert_vector(&rt, alloc, 1, Type::U32, false);
    assert_vector(&rt, alloc, 5, Type::I32, false);
}
