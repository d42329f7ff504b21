//! What the builtin functions of memory answer on a store with one cell, and what the cell then has.

use crate::tests::answers::{assert_answer, made};
use crate::tests::atomics::calls::called;
use crate::tests::atomics::{OnMemory, Place};
use std::alloc::Global;
use std::process::Abort;
use wgsl_rules::AccessMode::ReadWrite;
use wgsl_rules::AddressSpace::Storage;
use wgsl_rules::Ty;
use wgsl_samples::operands::Sample;
use wgsl_samples::refusals::settled;
use wgsl_samples::values::{bytes_of, view};
use wgsl_scalar::Error;
use wgsl_store::{Buffers, References, Store};
use wgsl_values::{Instance, PtrInstance, RefInstance};

/// Makes a cell with the value, and answers the reference to it, for reads and writes.
fn new_cell(
    rt: &impl Abort,
    alloc: Global,
    store: &mut Store,
    cell: Sample,
) -> Result<RefInstance, Error> {
    let value = made(rt, alloc, cell);
    assert!(rt; value.is_storable());
    assert!(rt; store.holds_value(&value));
    RefInstance::new(alloc, store, value, Storage, ReadWrite)
}

/// The reference to the one cell of the store, which is made with the value: a call that wants memory makes none.
fn only_cell(rt: &impl Abort, alloc: Global, store: &mut Store, cell: Sample) -> RefInstance {
    let reference = again!(rt; new_cell(rt, alloc, store, cell));
    assert_eq!(rt; store.len(), 1);
    reference
}

/// A pointer to the place in cell 0.
fn pointer(rt: &impl Abort, alloc: Global, place: Place) -> Instance {
    let view = again!(rt; view(alloc, place.name, place.indices));
    let like = made(rt, alloc, place.like);
    let ty = again!(rt; like.ty(alloc));
    drop(like);
    let reference = RefInstance::from_parts(0, view, ty, Storage, place.access);
    Instance::from(PtrInstance::from(reference))
}

/// What a store has: the text of the value in its cell, and its bytes where the type has a layout.
#[derive(Debug, PartialEq, Eq, Drop)]
struct Held {
    cells: usize,
    text: String,
    bytes: Option<Vec<u8>>,
}

/// What the store has in the cell.
fn held_by(rt: &impl Abort, alloc: Global, store: &Store, cell: &RefInstance) -> Held {
    assert!(rt; store.holds(cell));
    let value = again!(rt; cell.read(alloc, store));
    assert!(rt; value.is_storable());
    let text = again!(rt; value.to_string(alloc));
    let bytes = again!(rt; value.to_buffer(alloc));
    drop(value);
    let cells = store.len();
    Held { cells, text, bytes }
}

/// Asserts the text of the value in the cell, and its bytes as words: none where it has no layout.
fn assert_held(rt: &impl Abort, alloc: Global, row: &str, held: Held, text: &str, words: &[u32]) {
    assert_eq!(rt; held.text.as_str(), text, "{row}");
    match &held.bytes {
        Some(bytes) => {
            let wanted = again!(rt; bytes_of(alloc, words));
            assert_eq!(rt; bytes, &wanted, "{row}");
        }
        None => assert!(rt; words.is_empty(), "{row} has no bytes"),
    }
    drop(held);
}

/// Asserts that the store is as before, where the call was refused.
fn assert_unchanged(
    rt: &impl Abort,
    alloc: Global,
    refused: bool,
    store: &Store,
    cell: &RefInstance,
    before: Held,
) {
    let after = held_by(rt, alloc, store, cell);
    assert!(rt; !refused || after == before, "{before:?} became {after:?}");
    drop((after, before));
}

/// What the function answers, made again where it wants memory. After a refusal the store is as before.
fn called_again(
    rt: &impl Abort,
    alloc: Global,
    function: OnMemory,
    store: &mut Store,
    cell: &RefInstance,
    p: &Instance,
) -> Result<Option<Instance>, Error> {
    let before = held_by(rt, alloc, store, cell);
    let answer = called(rt, alloc, function, store, p);
    assert_unchanged(rt, alloc, answer.is_err(), store, cell, before);
    match settled(answer) {
        Some(answer) => answer,
        None => called(rt, alloc, function, store, p),
    }
}

/// Asserts the text of the answer, which is "done" where there is none.
fn assert_outcome(
    rt: &impl Abort,
    alloc: Global,
    row: &str,
    answer: Result<Option<Instance>, Error>,
    wanted: &str,
) {
    match answer {
        Ok(Some(value)) => assert_answer(rt, alloc, row, Ok(value), wanted),
        Ok(None) => assert_eq!(rt; "done", wanted, "{row}"),
        Err(error) => assert_answer(rt, alloc, row, Err::<Instance, Error>(error), wanted),
    }
}

/// A store with one cell, and the reference to it.
#[derive(Drop)]
pub(crate) struct Only {
    store: Store,
    cell: RefInstance,
}

impl Only {
    pub(crate) fn new(rt: &impl Abort, alloc: Global, cell: Sample) -> Only {
        let mut store = Store::new(alloc);
        let cell = only_cell(rt, alloc, &mut store, cell);
        Only { store, cell }
    }

    /// Asserts what the function answers where it is handed the value, and hands out what the store then has.
    fn called(
        &mut self,
        rt: &impl Abort,
        alloc: Global,
        row: &str,
        (p, function): (Instance, OnMemory),
        wanted: &str,
    ) -> Held {
        let answer = called_again(rt, alloc, function, &mut self.store, &self.cell, &p);
        drop(p);
        assert_outcome(rt, alloc, row, answer, wanted);
        held_by(rt, alloc, &self.store, &self.cell)
    }

    /// Asserts what the function answers at the place, and what the cell then has: the text of its value, and its bytes
    /// as words, or none where it has no layout.
    pub(crate) fn assert_step(
        &mut self,
        rt: &impl Abort,
        alloc: Global,
        row: &str,
        (place, function): (Place, OnMemory),
        wanted: &str,
        after: (&str, &[u32]),
    ) {
        let p = pointer(rt, alloc, place);
        let held = self.called(rt, alloc, row, (p, function), wanted);
        assert_held(rt, alloc, row, held, after.0, after.1);
    }
}

/// Asserts that the function is refused at the place of a store with one cell; the store is as before.
pub(crate) fn assert_refused(
    rt: &impl Abort,
    alloc: Global,
    row: &str,
    (cell, place): (Sample, Place),
    function: OnMemory,
    wanted: &str,
) {
    let mut only = Only::new(rt, alloc, cell);
    let p = pointer(rt, alloc, place);
    drop(only.called(rt, alloc, row, (p, function), wanted));
    drop(only);
}

/// Asserts what the function answers at the place of a store with one cell, and what the cell then has.
pub(crate) fn assert_call(
    rt: &impl Abort,
    alloc: Global,
    row: &str,
    (cell, place): (Sample, Place),
    function: OnMemory,
    wanted: &str,
    after: (&str, &[u32]),
) {
    let mut only = Only::new(rt, alloc, cell);
    only.assert_step(rt, alloc, row, (place, function), wanted, after);
    drop(only);
}

/// Asserts that the function refuses the value in the place of a pointer by `Builtin`; the store is as before.
pub(super) fn assert_no_pointer(
    rt: &impl Abort,
    alloc: Global,
    row: &str,
    function: OnMemory,
    value: Sample,
) {
    let mut only = Only::new(rt, alloc, Sample::Counters);
    let p = made(rt, alloc, value);
    drop(only.called(rt, alloc, row, (p, function), "Builtin"));
    drop(only);
}
