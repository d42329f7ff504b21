//! Calls on references: where memory is wanting the store is as before.

use crate::tests::asserts::{
    assert_made_or_memory, assert_memory, assert_refusal, assert_same, is_of_memory,
};
use crate::tests::cells::{cell_with, read};
use crate::tests::samples::{pair, pair_with, text, vector, vector_of};
use std::alloc::Global;
use std::process::Abort;
use wgsl_rules::Type;
use wgsl_scalar::Error;
use wgsl_store::{References, Show, Store};
use wgsl_values::{Instance, PtrInstance, RefInstance};

/// The reference to a new cell with Pair(1u, vec3(2u, 3u, 4u)).
fn pair_in(rt: &impl Abort, alloc: Global, store: &mut Store) -> RefInstance {
    let pair = Instance::from(pair_with(rt, alloc, 1));
    cell_with(rt, alloc, store, pair)
}

fn read_write(
    rt: &impl Abort,
    alloc: Global,
    store: &mut Store,
    reference: &RefInstance,
    value: Instance,
) -> Result<Instance, Error> {
    assert!(rt; store.holds(reference));
    assert!(rt; value.is_storable());
    assert!(rt; store.holds_value(&value));
    reference.read_write(alloc, store, value)
}

/// Exchanges what the reference names for the value, which is given twice: a call that wants memory takes it, and
/// changes nothing.
fn assert_exchanged(
    rt: &impl Abort,
    alloc: Global,
    store: &mut Store,
    reference: &RefInstance,
    next: Instance,
    again: Instance,
    old: Instance,
) {
    let cells = store.len();
    match read_write(rt, alloc, store, reference, next) {
        Ok(answer) => {
            assert_same(rt, answer, old);
            drop(again);
        }
        Err(error) => {
            assert_memory(rt, error);
            assert_same(rt, read(rt, alloc, store, reference), old);
            let answer = read_write(rt, alloc, store, reference, again);
            drop(answer.expect(rt, "memory"));
        }
    }
    assert_same(rt, store.len(), cells);
}

#[test]
fn an_accepted_exchange_wants_memory_or_answers_the_old_value(rt: HostRuntime) {
    let alloc = rt.alloc();
    let mut store = Store::new(alloc);
    let whole = pair_in(&rt, alloc, &mut store);
    let next = Instance::from(pair_with(&rt, alloc, 9));
    let again = Instance::from(pair_with(&rt, alloc, 9));
    let old = Instance::from(pair_with(&rt, alloc, 1));
    assert_exchanged(&rt, alloc, &mut store, &whole, next, again, old);
    let wanted = Instance::from(pair_with(&rt, alloc, 9));
    assert_same(&rt, read(&rt, alloc, &store, &whole), wanted);
    drop((store, whole));
}

#[test]
fn an_accepted_exchange_of_what_has_no_bytes(rt: HostRuntime) {
    let alloc = rt.alloc();
    let mut store = Store::new(alloc);
    let inner = pair_in(&rt, alloc, &mut store);
    let held = Instance::from(made!(&rt; inner.clone(alloc)));
    let outer = cell_with(&rt, alloc, &mut store, held);
    let next = Instance::from(made!(&rt; inner.clone(alloc)));
    let again = Instance::from(made!(&rt; inner.clone(alloc)));
    let old = Instance::from(inner);
    assert_exchanged(&rt, alloc, &mut store, &outer, next, again, old);
    drop((store, outer));
}

fn copy(
    rt: &impl Abort,
    alloc: Global,
    store: &mut Store,
    from: &RefInstance,
    to: &RefInstance,
) -> Result<(), Error> {
    assert!(rt; store.holds(from));
    assert!(rt; store.holds(to));
    from.copy_to(alloc, store, to)
}

#[test]
fn a_copy_of_what_has_no_bytes_wants_memory_or_is_made(rt: HostRuntime) {
    let alloc = rt.alloc();
    let mut store = Store::new(alloc);
    let pair = pair_in(&rt, alloc, &mut store);
    let other = pair_in(&rt, alloc, &mut store);
    let held = Instance::from(made!(&rt; pair.clone(alloc)));
    let from = cell_with(&rt, alloc, &mut store, held);
    let old = Instance::from(made!(&rt; other.clone(alloc)));
    let held = Instance::from(made!(&rt; other.clone(alloc)));
    let to = cell_with(&rt, alloc, &mut store, held);
    let first = copy(&rt, alloc, &mut store, &from, &to);
    if first.is_err() {
        assert_same(&rt, read(&rt, alloc, &store, &to), old);
        assert_same(&rt, copy(&rt, alloc, &mut store, &from, &to), Ok(()));
    } else {
        drop(old);
    }
    assert_made_or_memory(&rt, first);
    assert_same(&rt, read(&rt, alloc, &store, &to), Instance::from(pair));
    drop((store, from, to));
    drop(other);
}

#[test]
fn a_copy_that_is_refused_wants_memory_or_is_told_with_its_types(rt: HostRuntime) {
    let alloc = rt.alloc();
    let mut store = Store::new(alloc);
    let whole = pair_in(&rt, alloc, &mut store);
    let word = cell_with(&rt, alloc, &mut store, Instance::from(9u32));
    let refusal = Error::WriteRefType(pair(&rt, alloc), Type::U32);
    let first = copy(&rt, alloc, &mut store, &whole, &word).err();
    let again = if is_of_memory(&first) {
        copy(&rt, alloc, &mut store, &whole, &word).err()
    } else {
        None
    };
    assert_refusal(&rt, first, again, &refusal);
    let value = read(&rt, alloc, &store, &word);
    assert_same(&rt, value, Instance::from(9u32));
    drop((store, whole, word));
    drop(refusal);
}

#[test]
fn the_text_of_a_pointer_wants_memory_or_is_whole(rt: HostRuntime) {
    let alloc = rt.alloc();
    let mut store = Store::new(alloc);
    let whole = pair_in(&rt, alloc, &mut store);
    let pointer = PtrInstance::from(whole);
    assert!(rt; store.holds(pointer.ptr()));
    let text = answer_of!(&rt; pointer.show(alloc, &store));
    let wanted = "ptr<storage, Pair, read_write>(Pair(1u, vec3(2u, 3u, 4u)))";
    assert_same(&rt, text.as_str(), wanted);
    drop((store, pointer));
}

fn view_member(
    rt: &impl Abort,
    alloc: Global,
    store: &Store,
    reference: &RefInstance,
    name: String,
) -> Result<RefInstance, Error> {
    assert!(rt; store.holds(reference));
    reference.view_member(alloc, store, name)
}

fn view_index(
    rt: &impl Abort,
    alloc: Global,
    store: &Store,
    reference: &RefInstance,
    i: usize,
) -> Result<RefInstance, Error> {
    assert!(rt; store.holds(reference));
    reference.view_index(alloc, store, i)
}

/// Asserts that there is no part of the index.
fn assert_no_part(
    rt: &impl Abort,
    alloc: Global,
    store: &Store,
    reference: &RefInstance,
    i: usize,
    error: Error,
) {
    let first = view_index(rt, alloc, store, reference, i).err();
    let again = if is_of_memory(&first) {
        view_index(rt, alloc, store, reference, i).err()
    } else {
        None
    };
    assert_refusal(rt, first, again, &error);
    drop(error);
}

/// Asserts that there is no member c. The name is given twice: a call that wants memory takes it.
fn assert_no_member(
    rt: &impl Abort,
    alloc: Global,
    store: &Store,
    reference: &RefInstance,
    error: Error,
) {
    let (name, other) = (text(rt, alloc, "c"), text(rt, alloc, "c"));
    let first = view_member(rt, alloc, store, reference, name).err();
    let again = if is_of_memory(&first) {
        view_member(rt, alloc, store, reference, other).err()
    } else {
        drop(other);
        None
    };
    assert_refusal(rt, first, again, &error);
    drop(error);
}

#[test]
fn a_step_that_leads_nowhere_wants_memory_or_is_told_with_its_type(rt: HostRuntime) {
    let alloc = rt.alloc();
    let mut store = Store::new(alloc);
    let whole = pair_in(&rt, alloc, &mut store);
    let component = Error::Component(pair(&rt, alloc), text(&rt, alloc, "c"));
    assert_no_member(&rt, alloc, &store, &whole, component);
    let error = Error::NotIndexable(pair(&rt, alloc));
    assert_no_part(&rt, alloc, &store, &whole, 0, error);
    drop((store, whole));
}

#[test]
fn an_index_past_the_end_wants_memory_or_is_told_with_its_type(rt: HostRuntime) {
    let alloc = rt.alloc();
    let mut store = Store::new(alloc);
    let vector_of_three = Instance::from(vector_of(&rt, alloc, &[1, 2, 3]));
    let whole = cell_with(&rt, alloc, &mut store, vector_of_three);
    let error = Error::OutOfBounds(3, vector(&rt, alloc, 3, Type::U32), 3);
    assert_no_part(&rt, alloc, &store, &whole, 3, error);
    drop((store, whole));
}
