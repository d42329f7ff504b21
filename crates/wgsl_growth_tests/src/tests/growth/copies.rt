//! Copies of refusals, calls and replies.

use crate::tests::asserts::assert_is;
use crate::tests::samples::{pair, pair_with, text, vector, vector_of};
use std::alloc::Global;
use std::process::Abort;
use wgsl_rules::AccessMode::ReadWrite;
use wgsl_rules::AddressSpace::{Function, Storage};
use wgsl_rules::{BinaryOperator, Type, UnaryOperator};
use wgsl_scalar::LiteralInstance::{AbstractInt, I32};
use wgsl_scalar::{BuiltinName, BuiltinReason, Error};
use wgsl_session::{Call, Fault, Reply};
use wgsl_values::Instance;

fn vec3(rt: &impl Abort, alloc: Global) -> Type {
    vector(rt, alloc, 3, Type::U32)
}

/// An error of each case that holds a type, and some of those that hold none.
fn errors(rt: &impl Abort, alloc: Global) -> [Error; 13] {
    [
        Error::WriteRefType(pair(rt, alloc), vec3(rt, alloc)),
        Error::Component(pair(rt, alloc), text(rt, alloc, "member")),
        Error::NotIndexable(pair(rt, alloc)),
        Error::OutOfBounds(3, vec3(rt, alloc), 3),
        Error::ConvOverflow(AbstractInt(-1), vec3(rt, alloc)),
        Error::Unary(UnaryOperator::Negation, vec3(rt, alloc)),
        Error::Binary(BinaryOperator::Addition, vec3(rt, alloc), pair(rt, alloc)),
        Error::CompwiseBinary(vec3(rt, alloc), pair(rt, alloc)),
        Error::ParamType(pair(rt, alloc), vec3(rt, alloc)),
        Error::NotRead,
        Error::ShlOverflow(63, I32(1)),
        Error::Builtin(BuiltinReason::OutOfRange),
        Error::Todo(BuiltinName::Dot4U8Packed),
    ]
}

#[test]
fn copies_of_errors(rt: HostRuntime) {
    let alloc = rt.alloc();
    let errors = errors(&rt, alloc);
    for error in &errors {
        assert_is(&rt, answer_of!(&rt; error.clone(alloc)), error);
    }
    drop(errors);
}

#[test]
fn copies_of_faults(rt: HostRuntime) {
    let alloc = rt.alloc();
    let faults = [
        Fault::NoHandle,
        Fault::Of(Error::NotIndexable(pair(&rt, alloc))),
        Fault::Of(Error::Component(Type::U32, text(&rt, alloc, "c"))),
    ];
    for fault in &faults {
        assert_is(&rt, answer_of!(&rt; fault.clone(alloc)), fault);
    }
    drop(faults);
}

#[test]
fn copies_of_calls(rt: HostRuntime) {
    let alloc = rt.alloc();
    let calls = [
        Call::New(Instance::from(pair_with(&rt, alloc, 1)), Storage, ReadWrite),
        Call::NewOf(1, Function, ReadWrite),
        Call::Member(1, text(&rt, alloc, "b")),
        Call::Index(1, 2),
        Call::Read(1),
        Call::Write(1, Instance::from(vector_of(&rt, alloc, &[1, 2]))),
        Call::Replace(1, Instance::from(pair_with(&rt, alloc, 2))),
        Call::Copy(1, 2),
        Call::Load(1),
    ];
    for call in &calls {
        assert_is(&rt, answer_of!(&rt; call.clone(alloc)), call);
    }
    drop(calls);
}

#[test]
fn copies_of_replies(rt: HostRuntime) {
    let alloc = rt.alloc();
    let replies = [
        Reply::Handle(7),
        Reply::Value(Instance::from(pair_with(&rt, alloc, 1))),
        Reply::Done,
    ];
    for reply in &replies {
        assert_is(&rt, answer_of!(&rt; reply.clone(alloc)), reply);
    }
    drop(replies);
}
