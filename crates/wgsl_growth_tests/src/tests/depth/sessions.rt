//! Calls on a session, and copies of these and of replies, with arrays of one element in each other.

use crate::tests::asserts::{assert_is, assert_same};
use crate::tests::cells::sound;
use crate::tests::depth::{arrays, in_arrays, levels};
use std::alloc::Global;
use std::process::Abort;
use wgsl_rules::AccessMode::ReadWrite;
use wgsl_rules::AddressSpace::Storage;
use wgsl_rules::Type;
use wgsl_scalar::Error;
use wgsl_session::{Call, Fault, Reply, Session};
use wgsl_values::Instance;

/// Asserts what the session answers, and that the call and the reply have equal copies.
fn assert_call(rt: &impl Abort, alloc: Global, session: &mut Session, call: Call, wanted: Reply) {
    assert_is(rt, made!(rt; call.clone(alloc)), &call);
    let reply = made!(rt; session.call(sound(rt, call)));
    assert_is(rt, made!(rt; reply.clone(alloc)), &reply);
    assert_same(rt, reply, wanted);
}

#[test]
fn calls_on_deep_values(rt: HostRuntime) {
    let alloc = rt.alloc();
    let depth = levels(&rt);
    let mut session = Session::new(alloc);
    let value = in_arrays(&rt, alloc, depth, Instance::from(1u32));
    let call = Call::New(value, Storage, ReadWrite);
    assert_call(&rt, alloc, &mut session, call, Reply::Handle(0));
    let call = Call::Index(0, 0);
    assert_call(&rt, alloc, &mut session, call, Reply::Handle(1));
    let call = Call::Write(0, in_arrays(&rt, alloc, depth, Instance::from(2u32)));
    assert_call(&rt, alloc, &mut session, call, Reply::Done);
    assert_call(&rt, alloc, &mut session, Call::Copy(0, 0), Reply::Done);
    let call = Call::Replace(0, in_arrays(&rt, alloc, depth, Instance::from(3u32)));
    let old = in_arrays(&rt, alloc, depth, Instance::from(2u32));
    assert_call(&rt, alloc, &mut session, call, Reply::Value(old));
    let inner = in_arrays(&rt, alloc, depth.saturating_sub(1), Instance::from(3u32));
    assert_call(&rt, alloc, &mut session, Call::Read(1), Reply::Value(inner));
    let loaded = in_arrays(&rt, alloc, depth, Instance::from(3u32));
    assert_call(
        &rt,
        alloc,
        &mut session,
        Call::Load(0),
        Reply::Value(loaded),
    );
    drop(session);
}

#[test]
fn a_fault_with_deep_types(rt: HostRuntime) {
    let alloc = rt.alloc();
    let depth = levels(&rt);
    let mut session = Session::new(alloc);
    let value = in_arrays(&rt, alloc, depth, Instance::from(1u32));
    let call = Call::New(value, Storage, ReadWrite);
    assert_call(&rt, alloc, &mut session, call, Reply::Handle(0));
    let call = Call::Write(0, in_arrays(&rt, alloc, depth, Instance::from(2i32)));
    let answer = session.call(sound(&rt, call));
    let (own, given) = (
        arrays(&rt, alloc, depth, Type::U32),
        arrays(&rt, alloc, depth, Type::I32),
    );
    let fault = Fault::Of(Error::WriteRefType(given, own));
    let copy = made!(&rt; fault.clone(alloc));
    assert_is(&rt, copy, &fault);
    assert_same(&rt, answer, Err(fault));
    drop(session);
}
