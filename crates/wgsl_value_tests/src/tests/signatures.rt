//! Call signatures and the arguments of templates.

use crate::tests::asserts::{assert_is, assert_is_not, assert_same, assert_text};
use crate::tests::samples::{text, vector};
use std::alloc::Global;
use std::process::Abort;
use wgsl_rules::{AccessMode, Enumerant, Type};
use wgsl_values::{CallSignature, Instance, TpltParam};

fn call(
    rt: &impl Abort,
    alloc: Global,
    name: &str,
    tplt: Option<Vec<TpltParam>>,
    args: Vec<Type>,
) -> CallSignature {
    let name = text(rt, alloc, name);
    CallSignature { name, tplt, args }
}

/// An argument of a template of each kind: `f32`, `4` and `read_write`.
pub(super) fn template(rt: &impl Abort, alloc: Global) -> Vec<TpltParam> {
    let word = Enumerant::AccessMode(AccessMode::ReadWrite);
    made!(rt; vec![in alloc;
        TpltParam::OfType(Type::F32),
        TpltParam::Instance(Instance::from(4i64)),
        TpltParam::Enumerant(word),
    ])
}

/// The types u32 and vec2<i32>.
fn arguments(rt: &impl Abort, alloc: Global) -> Vec<Type> {
    let second = vector(rt, alloc, 2, Type::I32);
    made!(rt; vec![in alloc; Type::U32, second])
}

/// The call `f<f32, 4, read_write>(u32, vec2<i32>)`.
pub(super) fn templated(rt: &impl Abort, alloc: Global) -> CallSignature {
    let (tplt, args) = (template(rt, alloc), arguments(rt, alloc));
    call(rt, alloc, "f", Some(tplt), args)
}

#[test]
fn texts_of_template_arguments(rt: HostRuntime) {
    let alloc = rt.alloc();
    let params = template(&rt, alloc);
    let texts = "f32 4 read_write";
    assert_same(&rt, params.len(), 3);
    for (param, text) in params.iter().zip(texts.split(' ')) {
        assert_text(&rt, alloc, param, text);
    }
    drop(params);
}

#[test]
fn texts_of_call_signatures(rt: HostRuntime) {
    let alloc = rt.alloc();
    let without = call(&rt, alloc, "f", None, Vec::new(alloc));
    assert_text(&rt, alloc, &without, "f()");
    let args = made!(&rt; vec![in alloc; Type::U32, Type::AbstractInt]);
    let arguments = call(&rt, alloc, "min", None, args);
    assert_text(&rt, alloc, &arguments, "min(u32, AbstractInt)");
    let signature = templated(&rt, alloc);
    let text = "f<f32, 4, read_write>(u32, vec2<i32>)";
    assert_text(&rt, alloc, &signature, text);
    drop((without, arguments, signature));
}

#[test]
fn copies_of_template_arguments_are_equal(rt: HostRuntime) {
    let alloc = rt.alloc();
    let params = template(&rt, alloc);
    for (i, param) in params.iter().enumerate() {
        assert_is(&rt, param, param.clone(alloc).expect(&rt, "memory"));
        for (j, other) in params.iter().enumerate() {
            assert_same(&rt, (i, j, param == other), (i, j, i == j));
        }
    }
    drop(params);
}

#[test]
fn signatures_differ_in_name_template_and_arguments(rt: HostRuntime) {
    let alloc = rt.alloc();
    let signature = templated(&rt, alloc);
    let copy = signature.clone(alloc).expect(&rt, "memory");
    assert_is(&rt, &signature, copy);
    let (tplt, args) = (template(&rt, alloc), arguments(&rt, alloc));
    let other = call(&rt, alloc, "g", Some(tplt), args);
    assert_is_not(&rt, &signature, other);
    let other = call(&rt, alloc, "f", None, arguments(&rt, alloc));
    assert_is_not(&rt, &signature, other);
    let tplt = template(&rt, alloc);
    let other = call(&rt, alloc, "f", Some(tplt), Vec::new(alloc));
    assert_is_not(&rt, &signature, other);
    drop(signature);
}
