//! Copies and texts of types.

use crate::tests::asserts::assert_same;
use std::alloc::Global;
use std::process::Abort;
use wgsl_rules::Type;
use wgsl_samples::types::nested;

/// Asserts that a copy is equal, where one growth alone may be refused.
fn assert_copy(rt: &impl Abort, alloc: Global, ty: Type) {
    let copy = match ty.clone(alloc) {
        Ok(copy) => copy,
        Err(_) => ty.clone(alloc).expect(rt, "memory"),
    };
    assert_same(rt, copy, ty);
}

#[test]
fn a_copy_of_a_type_is_refused_or_equal(rt: HostRuntime) {
    let alloc = rt.alloc();
    if let Ok(ty) = nested(alloc) {
        assert_copy(&rt, alloc, ty);
    }
}

/// Asserts that the text is whole, where one growth alone may be refused.
fn assert_text(rt: &impl Abort, alloc: Global, ty: Type, wanted: &str) {
    let text = match ty.to_string(alloc) {
        Ok(text) => text,
        Err(_) => ty.to_string(alloc).expect(rt, "memory"),
    };
    assert_same(rt, text.as_str(), wanted);
}

#[test]
fn a_text_of_a_type_is_refused_or_whole(rt: HostRuntime) {
    let alloc = rt.alloc();
    if let Ok(ty) = nested(alloc) {
        assert_text(&rt, alloc, ty, "Nested");
    }
}
