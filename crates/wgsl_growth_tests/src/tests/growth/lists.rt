//! Lists of calls on a session: a call that wants memory is answered so and changes nothing, and those after it go on;
//! where room for the replies is refused no call is made.

ghost use Rattle.std.specs.Prelude.{map};
ghost use Rattle.wgsl_session.specs.Calls.{AreSoundCalls};
ghost use Rattle.wgsl_session.specs.View.{call_of};

use crate::tests::asserts::{assert_is, assert_same, assert_that, is_memory};
use crate::tests::cells::sound;
use crate::tests::growth::sessions::{held, new, value};
use crate::tests::samples::{array_of, pair_with, text, vector_of};
use std::alloc::Global;
use std::process::Abort;
use wgsl_rules::AccessMode::ReadWrite;
use wgsl_rules::AddressSpace::{Function, Storage};
use wgsl_scalar::Error;
use wgsl_session::{Call, Fault, Reply, Session};
use wgsl_values::Instance;

fn make(rt: &impl Abort, session: &mut Session, call: Call) {
    drop(made!(rt; session.call(sound(rt, call))));
}

/// A session with three cells, and six handles: of Pair(1u, vec3(2u, 3u, 4u)), of a reference to it, of its vector and of
/// the last component there, of an array of 10u, 11u and 12u, and of the second of these.
fn filled(rt: &impl Abort, alloc: Global) -> Session {
    let mut session = Session::new(alloc);
    make(rt, &mut session, new(rt, alloc, 1));
    make(rt, &mut session, Call::NewOf(0, Function, ReadWrite));
    make(rt, &mut session, Call::Member(0, text(rt, alloc, "b")));
    make(rt, &mut session, Call::Index(2, 2));
    let elements = Instance::from(array_of(rt, alloc, &[10, 11, 12], true));
    make(rt, &mut session, Call::New(elements, Storage, ReadWrite));
    make(rt, &mut session, Call::Index(4, 1));
    session
}

/// A call of each sort. Those that make handles come first, and the write last.
fn calls(rt: &impl Abort, alloc: Global) -> Vec<Call>
    ensures { AreSoundCalls (map call_of result.items) }
{
    let vector = Instance::from(vector_of(rt, alloc, &[7, 8]));
    let made = sound(rt, Call::New(vector, Storage, ReadWrite));
    let member = Call::Member(0, text(rt, alloc, "a"));
    let replaced = sound(rt, Call::Replace(3, Instance::from(9u32)));
    let written = sound(rt, Call::Write(5, Instance::from(20u32)));
    let calls = vec![in alloc;
        made,
        Call::NewOf(0, Function, ReadWrite),
        member,
        Call::Index(2, 0),
        Call::Read(4),
        Call::Load(1),
        replaced,
        Call::Copy(5, 3),
        written,
    ];
    made!(rt; calls)
}

/// The handle that the call of this number makes, where memory was refused to the call of that number, or to none.
fn handle(number: usize, refused: Option<usize>) -> Result<Reply, Fault> {
    let handle = if refused.is_some_and(|refused| refused < number) {
        5usize.wrapping_add(number)
    } else {
        6usize.wrapping_add(number)
    };
    Ok(Reply::Handle(handle))
}

/// What the call of this number is answered, where memory was refused to the call of that number, or to none.
fn wanted(
    rt: &impl Abort,
    alloc: Global,
    number: usize,
    refused: Option<usize>,
) -> Result<Reply, Fault> {
    if refused == Some(number) {
        return Err(Fault::Of(Error::Memory));
    }
    match number {
        0..=3 => handle(number, refused),
        4 => value(Instance::from(array_of(rt, alloc, &[10, 11, 12], true))),
        5 => value(Instance::from(pair_with(rt, alloc, 1))),
        6 => value(Instance::from(4u32)),
        _ => Ok(Reply::Done),
    }
}

/// Asserts what the session holds after the calls: how many cells and handles, and what was written.
fn assert_held(rt: &impl Abort, session: &mut Session, refused: Option<usize>) {
    let is_cell_refused = refused.is_some_and(|refused| refused < 2);
    let is_handle_refused = refused.is_some_and(|refused| refused < 4);
    assert_same(
        rt,
        session.store().len(),
        if is_cell_refused { 4 } else { 5 },
    );
    assert_that(rt, session.reference(8).is_some());
    assert_same(rt, session.reference(9).is_some(), !is_handle_refused);
    assert_that(rt, session.reference(10).is_none());
    let last = if refused == Some(7) { 9u32 } else { 11u32 };
    let read = session.call(sound(rt, Call::Read(3)));
    assert_same(rt, read, value(Instance::from(last)));
    let read = session.call(sound(rt, Call::Read(5)));
    assert_same(rt, read, value(Instance::from(20u32)));
}

/// Asserts the replies, and what the session then holds. The write is never refused for want of memory.
fn assert_replies(
    rt: &impl Abort,
    alloc: Global,
    session: &mut Session,
    replies: Vec<Result<Reply, Fault>>,
) {
    let refused = replies.iter().position(is_memory);
    assert_same(rt, replies.len(), 9);
    assert_that(rt, refused != Some(8));
    for (number, reply) in replies.iter().enumerate() {
        assert_is(rt, wanted(rt, alloc, number, refused), reply);
    }
    assert_held(rt, session, refused);
    drop(replies);
}

/// Runs the calls, which want no memory, in a session that is as it was filled, and asserts the replies.
fn assert_run(rt: &impl Abort, alloc: Global, session: Session, calls: Vec<Call>)
    requires { AreSoundCalls (map call_of calls.items) }
{
    let mut session = session;
    let replies = session.run(calls).expect(rt, "memory");
    assert_that(rt, !replies.iter().any(is_memory));
    assert_replies(rt, alloc, &mut session, replies);
    drop(session);
}

#[test]
fn a_list_of_every_call_goes_on_behind_one_that_wants_memory(rt: HostRuntime) {
    let alloc = rt.alloc();
    let mut session = filled(&rt, alloc);
    let (calls, again) = (calls(&rt, alloc), calls(&rt, alloc));
    let before = held(&rt, alloc, &session);
    match session.run(calls) {
        Ok(replies) => {
            let is_refused = replies.iter().any(is_memory);
            assert_replies(&rt, alloc, &mut session, replies);
            drop((session, before));
            // one growth alone is refused
            if is_refused {
                assert_run(&rt, alloc, filled(&rt, alloc), again);
            } else {
                drop(again);
            }
        }
        Err(_) => {
            assert_same(&rt, held(&rt, alloc, &session), before);
            assert_run(&rt, alloc, session, again);
        }
    }
}
