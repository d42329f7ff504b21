//! Sessions: what each call is answered, alone and in lists.

use crate::tests::asserts::{assert_is, assert_same};
use crate::tests::fixtures::{pair_value, text, vector_of};
use crate::tests::scripts::{Scene, assert_scripts, scene_with, shown, told};
use crate::tests::words::{Words, access, bytes};
use std::process::Abort;
use wgsl_rules::AccessMode::ReadWrite;
use wgsl_rules::AddressSpace::{Function, Storage};
use wgsl_rules::{AddressSpace, Type};
use wgsl_samples::values::reference_of;
use wgsl_scalar::{BuiltinReason, Error};
use wgsl_session::{Call, Fault, Reply, Session};
use wgsl_values::{Instance, PtrInstance, RefInstance};

/// The answer of a call, whose condition is tested first.
fn call(rt: &impl Abort, session: &mut Session, call: Call) -> Result<Reply, Fault> {
    assert!(rt; call.is_sound());
    session.call(call)
}

/// The address space of the word: `storage` or `function`.
fn space(rt: &impl Abort, word: &str) -> AddressSpace {
    match word {
        "storage" => Storage,
        "function" => Function,
        _ => panic!(rt; "{word} is no address space here"),
    }
}

impl Scene {
    /// Makes the call on the session.
    pub(super) fn of_sessions(&mut self, rt: &impl Abort, words: &mut Words<'_>) -> String {
        let alloc = self.alloc;
        match words.next() {
            "cells" => shown(rt, alloc, self.session.store().len()),
            "target" => {
                let reference = self.session.reference(words.handle(rt));
                shown(rt, alloc, reference.map(RefInstance::target_ty))
            }
            "text" => self.text_at(rt, words.handle(rt)),
            "lay" => self.lay_in_session(rt, false, words),
            "share" => self.lay_in_session(rt, true, words),
            "overwrite" => {
                let handle = words.handle(rt);
                let bytes = bytes(rt, alloc, words.rest);
                let answer = self.session.write_bytes(handle, &bytes);
                drop(bytes);
                shown(rt, alloc, answer)
            }
            "is_sound" => {
                let asked = self.call(rt, words.next(), words);
                let is_sound = asked.is_sound();
                drop(asked);
                shown(rt, alloc, is_sound)
            }
            other => {
                let asked = self.call(rt, other, words);
                shown(rt, alloc, call(rt, &mut self.session, asked))
            }
        }
    }

    /// The value of a type and its numbers, a reference, a pointer, or the value of a type.
    fn handed(&self, rt: &impl Abort, words: &mut Words<'_>) -> Instance {
        match words.rest {
            "reference" => Instance::from(reference_of(self.alloc).expect(rt, "memory")),
            "pointer" => {
                let reference = reference_of(self.alloc).expect(rt, "memory");
                Instance::from(PtrInstance::from(reference))
            }
            "deferred" => Instance::from(Type::I32),
            _ => self.structures.value(rt, self.alloc, words),
        }
    }

    /// The call of the words.
    fn call(&self, rt: &impl Abort, call: &str, words: &mut Words<'_>) -> Call {
        let alloc = self.alloc;
        match call {
            "new" => {
                let space = space(rt, words.next());
                let access = access(rt, words.next());
                Call::New(self.handed(rt, words), space, access)
            }
            "new_of" => {
                let handle = words.handle(rt);
                let space = space(rt, words.next());
                Call::NewOf(handle, space, access(rt, words.next()))
            }
            "member" => Call::Member(words.handle(rt), text(rt, alloc, words.next())),
            "index" => Call::Index(words.handle(rt), words.number(rt)),
            "read" => Call::Read(words.handle(rt)),
            "write" => Call::Write(words.handle(rt), self.handed(rt, words)),
            "replace" => Call::Replace(words.handle(rt), self.handed(rt, words)),
            "copy" => Call::Copy(words.handle(rt), words.handle(rt)),
            "load" => Call::Load(words.handle(rt)),
            _ => panic!(rt; "{call} is no call on a session"),
        }
    }

    /// The text of what the handle is read as.
    fn text_at(&mut self, rt: &impl Abort, handle: usize) -> String {
        match call(rt, &mut self.session, Call::Read(handle)) {
            Ok(Reply::Value(value)) => told(rt, self.alloc, Ok::<Instance, Fault>(value)),
            other => shown(rt, self.alloc, other),
        }
    }

    /// Makes a cell of the bytes of a value, by the last layout that was made, if it is to be shared.
    fn lay_in_session(
        &mut self,
        rt: &impl Abort,
        is_shared: bool,
        words: &mut Words<'_>,
    ) -> String {
        let (alloc, session) = (self.alloc, &mut self.session);
        let access = access(rt, words.next());
        let ty = self.structures.ty(rt, alloc, words.next());
        let bytes = bytes(rt, alloc, words.rest);
        let made = if is_shared {
            session.new_sharing(ty, self.layout.as_ref(), &bytes, Storage, access)
        } else {
            session.new_from_bytes(ty, &bytes, Storage, access)
        };
        drop(bytes);
        shown(rt, alloc, made)
    }
}

/// Calls on handles, and what each is answered. A write of no bytes is refused since an array has an element at least;
/// that there is no handle is told first.
const SCRIPTS: &str = "
a_cell_holds_a_reference_to_another
session new storage read_write i32 5 -> Ok(Handle(0))
session new_of &0 function read_write -> Ok(Handle(1))
session load &1 -> Ok(Value(Literal(I32(5))))
session text &1 -> ref<storage, i32, read_write>
session write &0 i32 6 -> Ok(Done)
session load &1 -> Ok(Value(Literal(I32(6))))
session write &1 i32 1 -> Err(Of(WriteRefType(I32, Ref(Storage, I32, ReadWrite))))
session read &2 -> Err(NoHandle)
session cells -> 2

a_load_reads_on_along_references
session new storage read_write i32 5 -> Ok(Handle(0))
session new_of &0 function read_write -> Ok(Handle(1))
session new_of &1 function read_write -> Ok(Handle(2))
session load &2 -> Ok(Value(Literal(I32(5))))
session text &2 -> ref<function, ref<storage, i32, read_write>, read_write>
session new storage read_write i32 7 -> Ok(Handle(3))
session new_of &3 function read_write -> Ok(Handle(4))
session copy &4 &1 -> Ok(Done)
session load &2 -> Ok(Value(Literal(I32(7))))
session read &0 -> Ok(Value(Literal(I32(5))))

members_and_old_values_are_answered
struct Pair a:u32 b:vec3<u32>
session new storage read_write Pair 1 2 3 4 -> Ok(Handle(0))
session member &0 a -> Ok(Handle(1))
session replace &1 u32 9 -> Ok(Value(Literal(U32(1))))
session text &0 -> Pair(9u, vec3(2u, 3u, 4u))

the_handle_of_a_member_has_a_reference_of_its_type
struct Pair a:u32 b:vec3<u32>
session new storage read_write Pair 1 2 3 4 -> Ok(Handle(0))
session member &0 a -> Ok(Handle(1))
session target &1 -> Some(U32)
session target &2 -> None

a_session_shares_the_layout_of_a_type
struct Pair a:u32 b:vec3<u32>
layout of Pair -> Some(32)
session share read_write Pair 1 9 9 9 2 3 4 9 -> Ok(Some(Handle(0)))
session share read_write array<u32> 1 9 9 9 2 3 4 9 -> Ok(Some(Handle(1)))
session share read Pair 0 0 0 0 0 0 0 0b 0b 0b -> Ok(None)
layout of u32 -> Some(4)
session text &0 -> Pair(1u, vec3(2u, 3u, 4u))
session text &1 -> array(1u, 9u, 9u, 9u, 2u, 3u, 4u, 9u)

a_session_makes_and_writes_the_values_that_bytes_lay_out
struct Pair a:u32 b:vec3<u32>
session lay read_write Pair 1 9 9 9 2 3 4 9 -> Ok(Some(Handle(0)))
session lay read Pair 1 2 -> Ok(None)
session lay read array<u32> 10 11 -> Ok(Some(Handle(1)))
session text &0 -> Pair(1u, vec3(2u, 3u, 4u))
session overwrite &0 5 9 9 9 6 7 8 9 -> Ok(Some(Done))
session overwrite &0 1 2 -> Ok(None)
session text &0 -> Pair(5u, vec3(6u, 7u, 8u))
session overwrite &1 12 13 -> Err(Of(NotWrite))
session overwrite &1 -> Ok(None)
session overwrite &2 -> Err(NoHandle)
session text &1 -> array(10u, 11u)

calls_with_references_are_not_sound
struct Pair a:u32 b:vec3<u32>
session is_sound new storage read_write i32 5 -> true
session is_sound write &0 i32 5 -> true
session is_sound new storage read_write Pair 1 2 3 4 -> true
session is_sound write &0 Pair 1 2 3 4 -> true
session is_sound new storage read_write reference -> false
session is_sound write &0 reference -> false
session is_sound new storage read_write pointer -> false
session is_sound write &0 pointer -> false
session is_sound new storage read_write deferred -> false
session is_sound write &0 deferred -> false
session is_sound replace &0 deferred -> false
session is_sound load &9 -> true
";

#[test]
fn calls_of_sessions(rt: HostRuntime) {
    assert_scripts(&rt, rt.alloc(), SCRIPTS);
}

#[test]
fn a_list_of_calls_has_a_reply_for_each(rt: HostRuntime) {
    let alloc = rt.alloc();
    let mut session = Session::new(alloc);
    let vector = vector_of(&rt, alloc, &[1, 2, 3]);
    let answer = call(&rt, &mut session, Call::New(vector, Storage, ReadWrite));
    assert_same(&rt, answer, Ok(Reply::Handle(0)));
    let calls = vec![in alloc;
        Call::Index(0, 1),
        Call::Index(0, 2),
        Call::Copy(1, 2),
        Call::Read(3),
        Call::Load(2),
    ]
    .expect(&rt, "memory");
    let replies = session.run(calls).expect(&rt, "memory");
    drop(session);
    let text = shown(&rt, alloc, replies);
    let wanted =
        "[Ok(Handle(1)), Ok(Handle(2)), Ok(Done), Err(NoHandle), Ok(Value(Literal(U32(2))))]";
    assert_eq!(rt; text.as_str(), wanted);
}

/// Calls, of which none is like another.
const CALLS: [&str; 9] = [
    "new storage read Pair 1 2 3 4",
    "new_of &1 function read_write",
    "member &1 b",
    "index &1 2",
    "read &1",
    "write &1 vec2<u32> 1 2",
    "replace &1 u32 8",
    "copy &1 &2",
    "load &1",
];

/// Asserts that the copy equals the call of this number alone.
fn assert_is_alone(rt: &impl Abort, calls: &[Call], number: usize, copy: Call) {
    for (i, call) in calls.iter().enumerate() {
        assert_same(rt, copy == *call, i == number);
    }
    drop(copy);
}

#[test]
fn copies_of_calls_are_equal(rt: HostRuntime) {
    let alloc = rt.alloc();
    let scene = scene_with(&rt, alloc, "Pair a:u32 b:vec3<u32>");
    let mut calls = Vec::new(alloc);
    for rest in CALLS {
        let mut words = Words { rest };
        let call = scene.call(&rt, words.next(), &mut words);
        calls.push(call).expect(&rt, "memory");
    }
    for (i, call) in calls.iter().enumerate() {
        let copy = call.clone(alloc).expect(&rt, "memory");
        assert_is_alone(&rt, &calls, i, copy);
    }
    drop((scene, calls));
}

#[test]
fn copies_of_replies_and_faults_are_equal(rt: HostRuntime) {
    let alloc = rt.alloc();
    let pair = pair_value(&rt, alloc);
    let replies = vec![in alloc; Reply::Handle(7), Reply::Value(pair), Reply::Done];
    let replies = replies.expect(&rt, "memory");
    for reply in &replies {
        let copy = reply.clone(alloc).expect(&rt, "memory");
        assert_is(&rt, reply, copy);
    }
    let missing = Error::Component(Type::U32, text(&rt, alloc, "c"));
    let faults = vec![in alloc;
        Fault::NoHandle,
        Fault::Of(Error::Builtin(BuiltinReason::OutOfRange)),
        Fault::Of(missing),
    ]
    .expect(&rt, "memory");
    for fault in &faults {
        let copy = fault.clone(alloc).expect(&rt, "memory");
        assert_is(&rt, fault, copy);
    }
    drop((replies, faults));
}
