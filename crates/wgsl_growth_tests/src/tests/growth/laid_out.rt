//! Cells and writes of the values that bytes lay out: where memory is wanting nothing has changed.

use crate::tests::asserts::{assert_memory, assert_same, assert_told, is_memory, wants_memory};
use crate::tests::cells::{cell_with, read};
use crate::tests::growth::sessions::held;
use crate::tests::samples::{array, array_of, pair, pair_with, text};
use std::alloc::Global;
use std::process::Abort;
use std::sync::Arc;
use wgsl_rules::AccessMode::ReadWrite;
use wgsl_rules::AddressSpace::Storage;
use wgsl_rules::Type;
use wgsl_samples::atomics::flagged;
use wgsl_scalar::Error;
use wgsl_scalar::LiteralInstance::U32;
use wgsl_session::{Fault, Reply, Session};
use wgsl_store::{Layout, References, Store};
use wgsl_values::{Instance, RefInstance};

/// The bytes of Pair(1u, vec3(2u, 3u, 4u)).
const PAIR: [u8; 32] = [
    1, 0, 0, 0, 0, 0, 0, 0, 0, 0, 0, 0, 0, 0, 0, 0, 2, 0, 0, 0, 3, 0, 0, 0, 4, 0, 0, 0, 0, 0, 0, 0,
];

/// The bytes of the numbers 5, 6 and 7.
const WORDS: [u8; 12] = [5, 0, 0, 0, 6, 0, 0, 0, 7, 0, 0, 0];

/// The reference to the first cell of a store, of the bytes of a Pair: where memory is wanting there is no cell.
fn pair_in(rt: &impl Abort, alloc: Global, store: &mut Store) -> RefInstance {
    let (ty, again) = (pair(rt, alloc), pair(rt, alloc));
    let made = match store.new_from_bytes(alloc, ty, &PAIR, Storage, ReadWrite) {
        Ok(made) => {
            drop(again);
            made
        }
        Err(error) => {
            assert_memory(rt, error);
            assert_same(rt, store.len(), 0);
            let made = store.new_from_bytes(alloc, again, &PAIR, Storage, ReadWrite);
            made.expect(rt, "memory")
        }
    };
    made.expect(rt, "a value")
}

#[test]
fn a_cell_of_bytes_wants_memory_or_is_made(rt: HostRuntime) {
    let alloc = rt.alloc();
    let mut store = Store::new(alloc);
    let whole = pair_in(&rt, alloc, &mut store);
    let wanted = Instance::from(pair_with(&rt, alloc, 1));
    assert_same(&rt, read(&rt, alloc, &store, &whole), wanted);
    assert_same(&rt, store.len(), 1);
    drop((store, whole));
}

/// The layout of a Pair, to be shared.
fn shared(rt: &impl Abort, alloc: Global) -> Arc<Layout> {
    let ty = pair(rt, alloc);
    let layout = made!(rt; Layout::of(alloc, &ty)).expect(rt, "a layout");
    drop(ty);
    made!(rt; Arc::new(alloc, layout))
}

#[test]
fn a_cell_that_shares_its_layout_wants_memory_or_is_made(rt: HostRuntime) {
    let alloc = rt.alloc();
    let mut store = Store::new(alloc);
    let layout = shared(&rt, alloc);
    let (ty, again) = (pair(&rt, alloc), pair(&rt, alloc));
    let made = match store.new_sharing(alloc, ty, Some(&layout), &PAIR, Storage, ReadWrite) {
        Ok(made) => {
            drop(again);
            made
        }
        Err(error) => {
            assert_memory(&rt, error);
            assert_same(&rt, store.len(), 0);
            let made = store.new_sharing(alloc, again, Some(&layout), &PAIR, Storage, ReadWrite);
            made.expect(&rt, "memory")
        }
    };
    let whole = made.expect(&rt, "a value");
    let wanted = Instance::from(pair_with(&rt, alloc, 1));
    assert_same(&rt, read(&rt, alloc, &store, &whole), wanted);
    drop((store, whole, layout));
}

#[test]
fn a_session_wants_memory_or_shares_a_layout(rt: HostRuntime) {
    let alloc = rt.alloc();
    let mut session = Session::new(alloc);
    let layout = shared(&rt, alloc);
    let (ty, again) = (pair(&rt, alloc), pair(&rt, alloc));
    let before = held(&rt, alloc, &session);
    let made = session.new_sharing(ty, Some(&layout), &PAIR, Storage, ReadWrite);
    if is_memory(&made) {
        assert_same(&rt, held(&rt, alloc, &session), before);
        drop(made);
        let made = session.new_sharing(again, Some(&layout), &PAIR, Storage, ReadWrite);
        assert_same(&rt, made, Ok(Some(Reply::Handle(0))));
    } else {
        assert_same(&rt, made, Ok(Some(Reply::Handle(0))));
        drop((before, again));
    }
    drop((session, layout));
}

/// Asserts what a write of the bytes is answered. One that wants memory says so, and is made again.
fn assert_writes(
    rt: &impl Abort,
    alloc: Global,
    store: &mut Store,
    reference: &RefInstance,
    bytes: &[u8],
    wanted: Result<bool, Error>,
) {
    assert!(rt; store.holds(reference));
    let first = store.write_bytes(alloc, reference, bytes);
    let again = if wants_memory(&first) {
        Some(store.write_bytes(alloc, reference, bytes))
    } else {
        None
    };
    assert_told(rt, first, again, wanted);
}

#[test]
fn a_write_of_bytes_wants_memory_or_is_told_with_its_types(rt: HostRuntime) {
    let alloc = rt.alloc();
    let mut store = Store::new(alloc);
    let two = Instance::from(array_of(&rt, alloc, &[1, 2], true));
    let two = cell_with(&rt, alloc, &mut store, two);
    let own = array(&rt, alloc, Type::U32, None);
    let again = array(&rt, alloc, Type::U32, None);
    let refusal = Err(Error::WriteRefType(own, again));
    assert_writes(&rt, alloc, &mut store, &two, &WORDS, refusal);
    let wanted = Instance::from(array_of(&rt, alloc, &[1, 2], true));
    assert_same(&rt, read(&rt, alloc, &store, &two), wanted);
    drop((store, two));
}

#[test]
fn a_write_of_bytes_to_a_cell_that_is_none_wants_memory_or_is_made(rt: HostRuntime) {
    let alloc = rt.alloc();
    let mut store = Store::new(alloc);
    let flagged = made!(&rt; flagged(alloc, 7, &[1, -2, 3])).expect(&rt, "a value");
    let whole = cell_with(&rt, alloc, &mut store, flagged);
    let name = text(&rt, alloc, "count");
    assert!(rt; store.holds(&whole));
    let count = made!(&rt; whole.view_member(alloc, &store, name));
    assert_writes(&rt, alloc, &mut store, &count, &[5, 0, 0, 0], Ok(true));
    assert!(rt; store.holds(&count));
    assert_same(&rt, count.atomic_number(&store), Some(U32(5)));
    drop((store, whole, count));
}

/// Makes a cell of the bytes, with the type given twice: a call that wants memory takes it, and changes nothing.
fn assert_makes(
    rt: &impl Abort,
    alloc: Global,
    session: &mut Session,
    ty: Type,
    again: Type,
    bytes: &[u8],
) {
    let before = held(rt, alloc, session);
    let made = session.new_from_bytes(ty, bytes, Storage, ReadWrite);
    if is_memory(&made) {
        assert_same(rt, held(rt, alloc, session), before);
        drop(made);
        let made = session.new_from_bytes(again, bytes, Storage, ReadWrite);
        assert_same(rt, made, Ok(Some(Reply::Handle(0))));
    } else {
        assert_same(rt, made, Ok(Some(Reply::Handle(0))));
        drop((before, again));
    }
}

/// Asserts that the bytes are no value of cell 0, which is not written.
fn assert_not_written(
    rt: &impl Abort,
    alloc: Global,
    session: &mut Session,
    bytes: &[u8],
    refusal: Fault,
) {
    let before = held(rt, alloc, session);
    let first = session.write_bytes(0, bytes);
    let again = if is_memory(&first) {
        Some(session.write_bytes(0, bytes))
    } else {
        None
    };
    assert_told(rt, first, again, Err(refusal));
    assert_same(rt, held(rt, alloc, session), before);
}

#[test]
fn a_session_wants_memory_or_takes_the_bytes_of_values(rt: HostRuntime) {
    let alloc = rt.alloc();
    let mut session = Session::new(alloc);
    let own = array(&rt, alloc, Type::U32, None);
    let again = array(&rt, alloc, Type::U32, None);
    assert_makes(&rt, alloc, &mut session, own, again, &WORDS);
    let own = array(&rt, alloc, Type::U32, None);
    let again = array(&rt, alloc, Type::U32, None);
    let refusal = Fault::Of(Error::WriteRefType(own, again));
    // two words in the place of three
    let two = [1, 0, 0, 0, 2, 0, 0, 0];
    assert_not_written(&rt, alloc, &mut session, &two, refusal);
    drop(session);
}
