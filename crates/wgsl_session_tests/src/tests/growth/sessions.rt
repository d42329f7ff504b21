//! Lists of calls on a session: where room for the replies is refused no call is made, and a call in it that
//! wants memory changes nothing.

ghost use Rattle.std.specs.Prelude.{map};
ghost use Rattle.wgsl_session.specs.Calls.{AreSoundCalls};
ghost use Rattle.wgsl_session.specs.View.{call_of};

use crate::tests::asserts::assert_is;
use crate::tests::samples::pair_with;
use crate::tests::sessions::add_call;
use std::alloc::Global;
use std::process::Abort;
use wgsl_rules::AccessMode::ReadWrite;
use wgsl_rules::AddressSpace::Storage;
use wgsl_scalar::Error;
use wgsl_session::{Call, Fault, Reply, Session};
use wgsl_values::Instance;

/// Pair(a, vec3(2u, 3u, 4u))
fn pair_of(rt: &impl Abort, alloc: Global, a: u32) -> Instance {
    Instance::from(answer_of!(rt; pair_with(rt, alloc, a)))
}

/// The name of the member.
fn name(rt: &impl Abort, alloc: Global) -> String {
    answer_of!(rt; String::from_str(alloc, "a"))
}

/// A cell with Pair(1u, vec3(2u, 3u, 4u)), its member a, a write of 9u there, and a read of the whole.
fn calls(rt: &impl Abort, alloc: Global) -> Vec<Call>
    ensures { AreSoundCalls (map call_of result.items) }
{
    let mut calls = answer_of!(rt; Vec::with_capacity(alloc, 4));
    let pair = pair_of(rt, alloc, 1);
    add_call(rt, &mut calls, Call::New(pair, Storage, ReadWrite));
    add_call(rt, &mut calls, Call::Member(0, name(rt, alloc)));
    add_call(rt, &mut calls, Call::Write(1, Instance::from(9u32)));
    add_call(rt, &mut calls, Call::Read(0));
    calls
}

/// What the call of this number is answered where memory is refused to the other one, or to none.
fn wanted(
    rt: &impl Abort,
    alloc: Global,
    refused: Option<usize>,
    call: usize,
) -> Result<Reply, Fault> {
    // The first call has no handle to name, the second names that of the first, and so on.
    match (refused, call) {
        (Some(refused), _) if refused == call => Err(Fault::Of(Error::Memory)),
        (Some(0), _) | (Some(1), 2) => Err(Fault::NoHandle),
        (_, 0) => Ok(Reply::Handle(0)),
        (_, 1) => Ok(Reply::Handle(1)),
        (_, 2) => Ok(Reply::Done),
        (None, _) => Ok(Reply::Value(pair_of(rt, alloc, 9))),
        (Some(_), _) => Ok(Reply::Value(pair_of(rt, alloc, 1))),
    }
}

/// Asserts what the calls are answered.
fn assert_replies(
    rt: &impl Abort,
    alloc: Global,
    replies: &[Result<Reply, Fault>],
    refused: Option<usize>,
) {
    assert_eq!(rt; replies.len(), 4);
    for (i, reply) in replies.iter().enumerate() {
        assert_is(rt, reply, wanted(rt, alloc, refused, i));
    }
}

/// The number of the call that memory is refused to.
fn refused_in(replies: &[Result<Reply, Fault>]) -> Option<usize> {
    for (i, reply) in replies.iter().enumerate() {
        if matches!(reply, Err(Fault::Of(Error::Memory))) {
            return Some(i);
        }
    }
    None
}

/// Runs the calls on a new session, and asserts what is answered and made. Answers whether memory was refused.
fn assert_run(rt: &impl Abort, alloc: Global, calls: Vec<Call>) -> bool
    requires { AreSoundCalls (map call_of calls.items) }
{
    let mut session = Session::new(alloc);
    let Ok(replies) = session.run(calls) else {
        assert_eq!(rt; session.store().len(), 0);
        assert!(rt; session.reference(0).is_none());
        drop(session);
        return true;
    };
    let refused = refused_in(&replies);
    assert_replies(rt, alloc, &replies, refused);
    assert_eq!(rt; session.store().len(), usize::from(refused != Some(0)));
    drop((session, replies));
    refused.is_some()
}

#[test]
fn a_list_of_calls_wants_memory_or_is_run(rt: HostRuntime) {
    let alloc = rt.alloc();
    let first = calls(&rt, alloc);
    let again = calls(&rt, alloc);
    if assert_run(&rt, alloc, first) {
        assert!(rt; !assert_run(&rt, alloc, again));
    } else {
        drop(again);
    }
}
