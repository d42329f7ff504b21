//! Long lists of calls on a session, against a plain memory of bytes, whose layout is its own: of every call, on types
//! of every kind, in every address space and with every access mode.

ghost use Rattle.std.specs.Prelude.{map};
ghost use Rattle.wgsl_session.specs.Calls.{AreSoundCalls};
ghost use Rattle.wgsl_session.specs.View.{call_of};

mod calls;
mod coverage;
mod layout;
mod memory;
mod numbers;
mod replies;
mod shapes;
mod tables;
mod values;

use crate::tests::asserts::{assert_is, assert_same};
use crate::tests::plain_memory::coverage::Coverage;
use crate::tests::plain_memory::layout::Layout;
use crate::tests::plain_memory::memory::{Content, Memory};
use crate::tests::plain_memory::numbers::Numbers;
use crate::tests::plain_memory::shapes::Shapes;
use crate::tests::samples::storable;
use crate::tests::sessions;
use std::alloc::Global;
use std::process::Abort;
use wgsl_rules::AccessMode::ReadWrite;
use wgsl_rules::AddressSpace::Storage;
use wgsl_session::{Call, Fault, Reply, Session};
use wgsl_store::Buffers;
use wgsl_values::{Instance, MemView, RefInstance};

/// How many calls a list has.
const CALLS: usize = 2000;

/// After how many of them all that is there is compared.
const TURN: usize = 100;

/// A session and a plain memory that have made the same calls, and the numbers that give the next ones.
#[derive(Drop)]
struct Both {
    session: Session,
    plain: Memory,
    numbers: Numbers,
}

impl Both {
    fn new(rt: &impl Abort, alloc: Global, seed: u64) -> Both {
        let mut numbers = Numbers::new(seed);
        let shapes = Shapes::random(rt, alloc, &mut numbers);
        Both {
            session: Session::new(alloc),
            plain: Memory::new(alloc, shapes),
            numbers,
        }
    }

    /// The next call, which the plain memory makes, and what a session has to answer. It is counted.
    fn next(
        &mut self,
        rt: &impl Abort,
        alloc: Global,
        coverage: &mut Coverage,
    ) -> (Call, Result<Reply, Fault>) {
        let next = self.plain.random_call(rt, alloc, &mut self.numbers);
        let call = self.plain.call(rt, alloc, &next);
        let answer = self.plain.step(rt, alloc, &next);
        coverage.add(rt, &self.plain, &next, &answer);
        let reply = self.plain.reply(rt, alloc, &answer);
        drop((next, answer));
        (call, reply)
    }

    /// Makes the next call on both, and asserts that they answer the same.
    fn assert_call(&mut self, rt: &impl Abort, alloc: Global, coverage: &mut Coverage) {
        let (call, wanted) = self.next(rt, alloc, coverage);
        let reply = sessions::call(rt, &mut self.session, call);
        assert_same(rt, reply, wanted);
    }

    /// Makes so many calls on both, in one run of the session, and asserts that they answer the same.
    fn assert_run(
        &mut self,
        rt: &impl Abort,
        alloc: Global,
        count: usize,
        coverage: &mut Coverage,
    ) {
        let mut calls = Vec::new(alloc);
        let mut wanted = Vec::new(alloc);
        for _ in 0..count {
            let (call, reply) = self.next(rt, alloc, coverage);
            sessions::add_call(rt, &mut calls, call);
            wanted.push(reply).expect(rt, "memory");
        }
        let replies = self.session.run(calls).expect(rt, "memory");
        assert_eq!(rt; replies.len(), wanted.len());
        for (i, reply) in replies.iter().enumerate() {
            assert_eq!(rt; Some(reply), wanted.get(i), "call {i} of the run");
        }
        drop((replies, wanted));
    }

    /// What the cell of the session holds, through a reference of the given type.
    fn cell(&self, rt: &impl Abort, alloc: Global, cell: usize, content: &Content) -> Instance {
        let ty = self.plain.shapes.ty(rt, alloc, content.shape);
        let open = RefInstance::from_parts(cell, MemView::Whole, ty, Storage, ReadWrite);
        let value = sessions::read(rt, alloc, self.session.store(), &open);
        drop(open);
        value.expect(rt, "a value")
    }

    /// Asserts that a cell of the session holds the value of the plain one, and has its bytes.
    fn assert_cell(&self, rt: &impl Abort, alloc: Global, cell: usize, content: &Content) {
        let value = storable(rt, self.cell(rt, alloc, cell, content));
        let bytes = value.to_buffer(alloc).expect(rt, "memory");
        assert_bytes(
            rt,
            bytes,
            self.plain.shapes.laid(content.shape).layout,
            content,
        );
        assert_same(rt, value, self.plain.value(rt, alloc, content));
    }

    /// Asserts that both have the same cells and handles.
    fn assert_held(&self, rt: &impl Abort, alloc: Global) {
        assert_eq!(rt; self.session.store().len(), self.plain.cells.len());
        for (cell, content) in self.plain.cells.iter().enumerate() {
            self.assert_cell(rt, alloc, cell, content);
        }
        for handle in 0..self.plain.handles.len() {
            let reference = self.session.reference(handle).expect(rt, "a handle");
            assert_is(rt, reference, self.plain.reference(rt, alloc, handle));
        }
        let count = self.plain.handles.len();
        assert!(rt; self.session.reference(count).is_none());
    }
}

/// Asserts that the bytes are those of the plain cell: none where its type has no layout.
fn assert_bytes(rt: &impl Abort, bytes: Option<Vec<u8>>, layout: Layout, content: &Content) {
    match &bytes {
        Some(bytes) => {
            assert!(rt; layout != Layout::Missing);
            assert_eq!(rt; bytes, &content.bytes);
        }
        None => assert!(rt; layout == Layout::Missing),
    }
    drop(bytes);
}

#[test]
fn a_session_answers_each_call_as_a_plain_memory(rt: HostRuntime) {
    let alloc = rt.alloc();
    let mut coverage = Coverage::new(&rt, alloc);
    for seed in 1..6 {
        let mut both = Both::new(&rt, alloc, seed);
        for _ in 0..CALLS / TURN {
            for _ in 0..TURN {
                both.assert_call(&rt, alloc, &mut coverage);
            }
            both.assert_held(&rt, alloc);
        }
        drop(both);
    }
    coverage.assert_met(&rt);
    drop(coverage);
}

#[test]
fn a_session_runs_lists_as_a_plain_memory(rt: HostRuntime) {
    let alloc = rt.alloc();
    let mut coverage = Coverage::new(&rt, alloc);
    for (seed, turn) in [(6, TURN), (7, TURN), (8, TURN), (9, TURN), (10, CALLS)] {
        let mut both = Both::new(&rt, alloc, seed);
        for _ in 0..CALLS / turn {
            both.assert_run(&rt, alloc, turn, &mut coverage);
            both.assert_held(&rt, alloc);
        }
        drop(both);
    }
    coverage.assert_met(&rt);
    drop(coverage);
}
