//! Each call on a session: where memory is wanting no cell, no handle and nothing that is read has changed.

use crate::tests::asserts::{assert_same, is_memory};
use crate::tests::cells::sound;
use crate::tests::samples::{array_of, pair, pair_with, text, vector, vector_of};
use std::alloc::Global;
use std::process::Abort;
use wgsl_rules::AccessMode::ReadWrite;
use wgsl_rules::AddressSpace::{Function, Storage};
use wgsl_rules::Type;
use wgsl_scalar::Error;
use wgsl_session::{Call, Fault, Reply, Session};
use wgsl_store::References;
use wgsl_values::{Instance, RefInstance};

/// What a session holds: how many cells there are, the reference of each handle, and what is read there.
#[derive(Debug, PartialEq, Drop)]
pub(super) struct Content {
    cells: usize,
    handles: Vec<RefInstance>,
    values: Vec<Instance>,
}

/// The reference of each handle. There is room for them all before the first is copied.
fn references(rt: &impl Abort, alloc: Global, session: &Session) -> Vec<RefInstance> {
    let mut references = answer_of!(rt; Vec::with_capacity(alloc, 32));
    for handle in 0..32 {
        if let Some(reference) = session.reference(handle) {
            let copy = answer_of!(rt; reference.clone(alloc));
            references.push(copy).expect(rt, "room for it");
        }
    }
    references
}

/// What each handle is read as. There is room for them all before the first is read.
fn values(rt: &impl Abort, alloc: Global, session: &Session) -> Vec<Instance> {
    let mut values = answer_of!(rt; Vec::with_capacity(alloc, 32));
    for handle in 0..32 {
        if let Some(reference) = session.reference(handle) {
            let value = answer_of!(rt; reference.read(alloc, session.store()));
            values.push(value).expect(rt, "room for it");
        }
    }
    values
}

/// What the session holds. Its handles are fewer than 32, and can all be read.
pub(super) fn held(rt: &impl Abort, alloc: Global, session: &Session) -> Content {
    Content {
        cells: session.store().len(),
        handles: references(rt, alloc, session),
        values: values(rt, alloc, session),
    }
}

/// Makes the call, which is given twice: one that wants memory takes it, and changes nothing.
fn assert_call(
    rt: &impl Abort,
    alloc: Global,
    session: &mut Session,
    call: Call,
    again: Call,
    wanted: Result<Reply, Fault>,
) {
    let before = held(rt, alloc, session);
    let answer = session.call(sound(rt, call));
    if is_memory(&answer) {
        assert_same(rt, held(rt, alloc, session), before);
        drop(answer);
        assert_same(rt, session.call(sound(rt, again)), wanted);
    } else {
        assert_same(rt, answer, wanted);
        drop((before, again));
    }
}

pub(super) fn new(rt: &impl Abort, alloc: Global, a: u32) -> Call {
    Call::New(Instance::from(pair_with(rt, alloc, a)), Storage, ReadWrite)
}

pub(super) fn value(value: Instance) -> Result<Reply, Fault> {
    Ok(Reply::Value(value))
}

/// The call that makes a cell of an array of 10u, 11u and 12u.
fn new_array(rt: &impl Abort, alloc: Global) -> Call {
    let elements = Instance::from(array_of(rt, alloc, &[10, 11, 12], true));
    Call::New(elements, Storage, ReadWrite)
}

/// vec3(2u, 3u, last)
fn three(rt: &impl Abort, alloc: Global, last: u32) -> Instance {
    Instance::from(vector_of(rt, alloc, &[2, 3, last]))
}

/// The accepted call of this number.
fn accepted(rt: &impl Abort, alloc: Global, number: usize) -> Call {
    match number {
        0 => new(rt, alloc, 1),
        1 => Call::NewOf(0, Function, ReadWrite),
        2 => Call::Member(0, text(rt, alloc, "b")),
        3 => Call::Index(2, 2),
        4 => Call::Replace(3, Instance::from(9u32)),
        5 => Call::Read(2),
        6 => Call::Write(2, three(rt, alloc, 4)),
        7 => Call::Load(1),
        8 => new_array(rt, alloc),
        9 => Call::Index(4, 1),
        10 => Call::Copy(5, 3),
        _ => Call::Load(2),
    }
}

/// What the accepted call of this number is answered.
fn answer(rt: &impl Abort, alloc: Global, number: usize) -> Result<Reply, Fault> {
    match number {
        0 => Ok(Reply::Handle(0)),
        1 => Ok(Reply::Handle(1)),
        2 => Ok(Reply::Handle(2)),
        3 => Ok(Reply::Handle(3)),
        4 => value(Instance::from(4u32)),
        5 => value(three(rt, alloc, 9)),
        7 => value(Instance::from(pair_with(rt, alloc, 1))),
        8 => Ok(Reply::Handle(4)),
        9 => Ok(Reply::Handle(5)),
        6 | 10 => Ok(Reply::Done),
        _ => value(three(rt, alloc, 11)),
    }
}

#[test]
fn an_accepted_call_wants_memory_or_is_made(rt: HostRuntime) {
    let alloc = rt.alloc();
    let mut session = Session::new(alloc);
    for number in 0..12 {
        let (call, again) = (accepted(&rt, alloc, number), accepted(&rt, alloc, number));
        let wanted = answer(&rt, alloc, number);
        assert_call(&rt, alloc, &mut session, call, again, wanted);
    }
    drop(session);
}

/// A session with two cells of bytes, Pair(1u, vec3(2u, 3u, 4u)) and Pair(5u, vec3(2u, 3u, 4u)) of handles 0 and 1, and
/// two that are none, of handles 2 and 3: the references to these.
fn with_references(rt: &impl Abort, alloc: Global) -> Session {
    let mut session = Session::new(alloc);
    for a in [1, 5] {
        drop(made!(rt; session.call(sound(rt, new(rt, alloc, a)))));
    }
    for handle in [0, 1] {
        let held = Call::NewOf(handle, Function, ReadWrite);
        drop(made!(rt; session.call(sound(rt, held))));
    }
    session
}

#[test]
fn an_accepted_copy_of_a_reference_wants_memory_or_is_made(rt: HostRuntime) {
    let alloc = rt.alloc();
    let mut session = with_references(&rt, alloc);
    let (copy, again) = (Call::Copy(2, 3), Call::Copy(2, 3));
    assert_call(&rt, alloc, &mut session, copy, again, Ok(Reply::Done));
    // what both then lead to
    for handle in [2, 3] {
        let wanted = value(Instance::from(pair_with(&rt, alloc, 1)));
        let (load, again) = (Call::Load(handle), Call::Load(handle));
        assert_call(&rt, alloc, &mut session, load, again, wanted);
    }
    let five = value(Instance::from(pair_with(&rt, alloc, 5)));
    assert_call(&rt, alloc, &mut session, Call::Read(1), Call::Read(1), five);
    drop(session);
}

/// The refused call of this number, where handle 0 names Pair(1u, vec3(2u, 3u, 4u)) and handle 1 its vector.
fn refused(rt: &impl Abort, alloc: Global, number: usize) -> Call {
    match number {
        0 => Call::Write(0, Instance::from(1u32)),
        1 => Call::Replace(0, Instance::from(1u32)),
        2 => Call::Copy(1, 0),
        3 => Call::Member(0, text(rt, alloc, "c")),
        4 => Call::Index(0, 0),
        5 => Call::Index(1, 3),
        6 => Call::Load(2),
        _ => Call::NewOf(2, Function, ReadWrite),
    }
}

/// Why the call of this number is refused.
fn refusal(rt: &impl Abort, alloc: Global, number: usize) -> Fault {
    let error = match number {
        0 | 1 => Error::WriteRefType(Type::U32, pair(rt, alloc)),
        2 => Error::WriteRefType(vector(rt, alloc, 3, Type::U32), pair(rt, alloc)),
        3 => Error::Component(pair(rt, alloc), text(rt, alloc, "c")),
        4 => Error::NotIndexable(pair(rt, alloc)),
        5 => Error::OutOfBounds(3, vector(rt, alloc, 3, Type::U32), 3),
        _ => return Fault::NoHandle,
    };
    Fault::Of(error)
}

/// A session whose handle 0 names Pair(1u, vec3(2u, 3u, 4u)), and handle 1 its vector.
fn with_pair(rt: &impl Abort, alloc: Global) -> Session {
    let mut session = Session::new(alloc);
    drop(made!(rt; session.call(sound(rt, new(rt, alloc, 1)))));
    let member = Call::Member(0, text(rt, alloc, "b"));
    drop(made!(rt; session.call(sound(rt, member))));
    session
}

#[test]
fn a_refused_call_wants_memory_or_is_told_with_its_types(rt: HostRuntime) {
    let alloc = rt.alloc();
    let mut session = with_pair(&rt, alloc);
    let before = held(&rt, alloc, &session);
    for number in 0..8 {
        let (call, again) = (refused(&rt, alloc, number), refused(&rt, alloc, number));
        let wanted = Err(refusal(&rt, alloc, number));
        assert_call(&rt, alloc, &mut session, call, again, wanted);
    }
    assert_same(&rt, held(&rt, alloc, &session), before);
    drop(session);
}
