//! Copies and texts of call signatures.

use crate::tests::asserts::{assert_is, assert_same};
use crate::tests::samples::text;
use crate::tests::signatures::{template, templated};

#[test]
fn a_copy_of_a_signature_wants_memory_or_is_equal(rt: HostRuntime) {
    let alloc = rt.alloc();
    let signature = templated(&rt, alloc);
    let copy = answer_of!(&rt; signature.clone(alloc));
    assert_is(&rt, &signature, copy);
    drop(signature);
}

#[test]
fn a_copy_of_a_template_argument_wants_memory_or_is_equal(rt: HostRuntime) {
    let alloc = rt.alloc();
    let params = template(&rt, alloc);
    for param in &params {
        let copy = answer_of!(&rt; param.clone(alloc));
        assert_is(&rt, param, copy);
    }
    drop(params);
}

#[test]
fn the_text_of_a_signature_wants_memory_or_is_whole(rt: HostRuntime) {
    let alloc = rt.alloc();
    let signature = templated(&rt, alloc);
    let wanted = text(&rt, alloc, "f<f32, 4, read_write>(u32, vec2<i32>)");
    let found = answer_of!(&rt; signature.to_string(alloc));
    assert_same(&rt, found, wanted);
    drop(signature);
}
