//! What a store and a session answer without memory: tests, bytes that are lent, and writes and copies that are accepted.

use crate::tests::asserts::{assert_memory, assert_same, assert_that, is_memory};
use crate::tests::cells::{assert_copied, cell_with, sound};
use crate::tests::samples::{
    array, array_from, array_of, atomic_of, pair_with, reference_of, text, vector_of,
};
use std::alloc::Global;
use std::process::Abort;
use std::rt::Env;
use wgsl_rules::AccessMode::{ReadWrite, Write};
use wgsl_rules::AddressSpace::Storage;
use wgsl_rules::Type;
use wgsl_samples::atomics::{counters, flagged};
use wgsl_scalar::LiteralInstance;
use wgsl_scalar::LiteralInstance::U32;
use wgsl_session::{Call, Fault, Reply, Session};
use wgsl_store::{References, Store};
use wgsl_values::{AtomicInstance, Instance, MemView, RefInstance};

pub(super) fn view_index(
    rt: &impl Abort,
    alloc: Global,
    store: &Store,
    whole: &RefInstance,
    i: usize,
) -> RefInstance {
    assert!(rt; store.holds(whole));
    made!(rt; whole.view_index(alloc, store, i))
}

fn view_member(
    rt: &impl Abort,
    alloc: Global,
    store: &Store,
    whole: &RefInstance,
    name: &str,
) -> RefInstance {
    assert!(rt; store.holds(whole));
    made!(rt; whole.view_member(alloc, store, text(rt, alloc, name)))
}

/// Asserts that the reference is written.
fn assert_written(
    rt: &impl Abort,
    alloc: Global,
    store: &mut Store,
    reference: &RefInstance,
    value: Instance,
) {
    assert!(rt; store.holds(reference));
    assert!(rt; value.is_storable());
    assert!(rt; store.holds_value(&value));
    assert_same(rt, reference.write(alloc, store, value), Ok(()));
}

/// Whether growths are refused in this run.
fn are_refused(rt: &impl Env) -> bool {
    let mut digits = [0u8; 32];
    match rt.var("REFUSE_FROM", &mut digits) {
        Ok(count) => digits.get(..count) != Some(b"0".as_slice()),
        Err(_) => false,
    }
}

/// Asserts what the reference is read as; where growths are refused there may be no memory for that.
fn assert_reads<R: Env + Abort>(
    rt: &R,
    alloc: Global,
    store: &Store,
    reference: &RefInstance,
    wanted: Instance,
) {
    assert!(rt; store.holds(reference));
    match reference.read(alloc, store) {
        Ok(value) => assert_same(rt, value, wanted),
        Err(error) => {
            assert_that(rt, are_refused(rt));
            assert_memory(rt, error);
            drop(wanted);
        }
    }
}

#[test]
fn accepted_writes_and_tests_of_references(rt: HostRuntime) {
    let alloc = rt.alloc();
    let mut store = Store::new(alloc);
    let vector = Instance::from(vector_of(&rt, alloc, &[1, 2, 3]));
    let whole = cell_with(&rt, alloc, &mut store, vector);
    let component = view_index(&rt, alloc, &store, &whole, 2);
    let array = Instance::from(array_of(&rt, alloc, &[10, 11], true));
    let array = cell_with(&rt, alloc, &mut store, array);
    let element = view_index(&rt, alloc, &store, &array, 1);
    let next = Instance::from(vector_of(&rt, alloc, &[7, 8, 9]));
    let held = Instance::from(reference_of(&rt, alloc));
    let wanted = Instance::from(vector_of(&rt, alloc, &[7, 8, 5]));
    assert_same(&rt, store.len(), 2);
    assert!(rt; !store.holds_value(&held));
    assert_written(&rt, alloc, &mut store, &whole, next);
    assert_written(&rt, alloc, &mut store, &component, Instance::from(5u32));
    assert_written(&rt, alloc, &mut store, &element, Instance::from(6u32));
    assert!(rt; store.holds(&component));
    assert_that(&rt, component.names_component(&store));
    assert!(rt; store.holds(&element));
    assert_that(&rt, !element.names_component(&store));
    assert_reads(&rt, alloc, &store, &whole, wanted);
    assert_reads(&rt, alloc, &store, &element, Instance::from(6u32));
    drop((store, whole, component));
    drop((array, element, held));
}

#[test]
fn writes_to_a_cell_that_is_no_bytes(rt: HostRuntime) {
    let alloc = rt.alloc();
    let mut store = Store::new(alloc);
    let five = cell_with(&rt, alloc, &mut store, Instance::from(true));
    let outer = Instance::from(made!(&rt; five.clone(alloc)));
    let next = Instance::from(made!(&rt; five.clone(alloc)));
    let wanted = Instance::from(made!(&rt; five.clone(alloc)));
    let outer = cell_with(&rt, alloc, &mut store, outer);
    assert_written(&rt, alloc, &mut store, &five, Instance::from(false));
    assert_written(&rt, alloc, &mut store, &outer, next);
    assert_reads(&rt, alloc, &store, &five, Instance::from(false));
    assert_reads(&rt, alloc, &store, &outer, wanted);
    drop((store, five, outer));
}

/// Puts the number into the atomic of an u32 that the reference names.
fn put_number(rt: &impl Abort, store: &mut Store, reference: &RefInstance, number: u32) {
    assert!(rt; store.holds(reference));
    assert!(rt; reference.access().is_write());
    assert!(rt; reference.target_ty().as_atomic() == Some(&Type::U32));
    assert!(rt; AtomicInstance::can_make(&Instance::from(number)));
    reference.put_atomic_number(store, U32(number));
}

/// Asserts the number of the atomic that the reference names.
fn assert_number(
    rt: &impl Abort,
    store: &Store,
    reference: &RefInstance,
    number: Option<LiteralInstance>,
) {
    assert!(rt; store.holds(reference));
    assert_same(rt, reference.atomic_number(store), number);
}

#[test]
fn numbers_of_atomics(rt: HostRuntime) {
    let alloc = rt.alloc();
    let mut store = Store::new(alloc);
    let five = Instance::from(atomic_of(&rt, alloc, 5));
    let five = cell_with(&rt, alloc, &mut store, five);
    let word = cell_with(&rt, alloc, &mut store, Instance::from(5u32));
    assert_number(&rt, &store, &five, Some(U32(5)));
    assert_number(&rt, &store, &word, None);
    put_number(&rt, &mut store, &five, 4294967295);
    assert_number(&rt, &store, &five, Some(U32(4294967295)));
    drop((store, five, word));
}

#[test]
fn the_number_of_an_atomic_in_a_cell_that_is_no_bytes(rt: HostRuntime) {
    let alloc = rt.alloc();
    let mut store = Store::new(alloc);
    let flagged = made!(&rt; flagged(alloc, 7, &[1, -2, 3])).expect(&rt, "a value");
    let whole = cell_with(&rt, alloc, &mut store, flagged);
    assert!(rt; store.holds(&whole));
    let count = made!(&rt; whole.view_member(alloc, &store, text(&rt, alloc, "count")));
    assert_number(&rt, &store, &whole, None);
    assert_number(&rt, &store, &count, Some(U32(7)));
    put_number(&rt, &mut store, &count, 8);
    assert_number(&rt, &store, &count, Some(U32(8)));
    drop((store, whole, count));
}

/// Asserts how many elements the array has that the reference names; none where it names no array.
fn assert_counts(rt: &impl Abort, store: &Store, reference: &RefInstance, wanted: Option<usize>) {
    assert!(rt; store.holds(reference));
    assert_same(rt, store.element_count(reference), wanted);
}

#[test]
fn counts_of_elements(rt: HostRuntime) {
    let alloc = rt.alloc();
    let mut store = Store::new(alloc);
    let endless = Instance::from(array_of(&rt, alloc, &[10, 11, 12], true));
    let endless = cell_with(&rt, alloc, &mut store, endless);
    let element = view_index(&rt, alloc, &store, &endless, 2);
    let fixed = Instance::from(array_of(&rt, alloc, &[10, 11], false));
    let fixed = cell_with(&rt, alloc, &mut store, fixed);
    let vector = Instance::from(vector_of(&rt, alloc, &[1, 2, 3]));
    let vector = cell_with(&rt, alloc, &mut store, vector);
    let component = view_index(&rt, alloc, &store, &vector, 1);
    // read access is not asked
    let ty = array(&rt, alloc, Type::U32, None);
    let unread = RefInstance::from_parts(endless.cell(), MemView::Whole, ty, Storage, Write);
    assert_counts(&rt, &store, &endless, Some(3));
    assert_counts(&rt, &store, &unread, Some(3));
    assert_counts(&rt, &store, &element, None);
    assert_counts(&rt, &store, &fixed, Some(2));
    assert_counts(&rt, &store, &vector, None);
    assert_counts(&rt, &store, &component, None);
    drop((store, endless, unread));
    drop((element, fixed));
    drop((vector, component));
}

#[test]
fn counts_of_arrays_in_arrays(rt: HostRuntime) {
    let alloc = rt.alloc();
    let mut store = Store::new(alloc);
    let pair = Instance::from(array_of(&rt, alloc, &[1, 2], false));
    let other = Instance::from(array_of(&rt, alloc, &[3, 4], false));
    let last = Instance::from(array_of(&rt, alloc, &[5, 6], false));
    let pairs = made!(&rt; vec![in alloc; pair, other, last]);
    let pairs = Instance::from(array_from(&rt, pairs, true));
    let pairs = cell_with(&rt, alloc, &mut store, pairs);
    let last = view_index(&rt, alloc, &store, &pairs, 2);
    let number = view_index(&rt, alloc, &store, &last, 0);
    assert_counts(&rt, &store, &pairs, Some(3));
    assert_counts(&rt, &store, &last, Some(2));
    assert_counts(&rt, &store, &number, None);
    drop((store, pairs));
    drop((last, number));
}

#[test]
fn counts_in_structures(rt: HostRuntime) {
    let alloc = rt.alloc();
    let mut store = Store::new(alloc);
    let counters = made!(&rt; counters(alloc, 7, &[1, -2, 3, 4])).expect(&rt, "a value");
    let counters = cell_with(&rt, alloc, &mut store, counters);
    let flagged = made!(&rt; flagged(alloc, 7, &[1, -2, 3])).expect(&rt, "a value");
    let flagged = cell_with(&rt, alloc, &mut store, flagged);
    for (whole, wanted) in [(&counters, 4), (&flagged, 3)] {
        let count = view_member(&rt, alloc, &store, whole, "count");
        let totals = view_member(&rt, alloc, &store, whole, "totals");
        assert_counts(&rt, &store, whole, None);
        assert_counts(&rt, &store, &count, None);
        assert_counts(&rt, &store, &totals, Some(wanted));
        drop((count, totals));
    }
    drop((store, counters, flagged));
}

/// Asserts the bytes of the part that the reference names; none where its cell is no bytes.
pub(super) fn assert_lends(
    rt: &impl Abort,
    store: &Store,
    reference: &RefInstance,
    wanted: Option<&[u8]>,
) {
    assert!(rt; store.holds(reference));
    assert_same(rt, store.read_bytes(reference), Ok(wanted));
}

#[test]
fn bytes_that_are_lent(rt: HostRuntime) {
    let alloc = rt.alloc();
    let mut store = Store::new(alloc);
    let vector = Instance::from(vector_of(&rt, alloc, &[1, 2, 3]));
    let whole = cell_with(&rt, alloc, &mut store, vector);
    let component = view_index(&rt, alloc, &store, &whole, 2);
    let truth = cell_with(&rt, alloc, &mut store, Instance::from(true));
    let words = [1, 0, 0, 0, 2, 0, 0, 0, 3, 0, 0, 0];
    assert_lends(&rt, &store, &whole, Some(words.as_slice()));
    assert_lends(&rt, &store, &component, Some([3, 0, 0, 0].as_slice()));
    assert_lends(&rt, &store, &truth, None);
    drop((store, whole));
    drop((component, truth));
}

#[test]
fn copies_between_parts_of_cells_of_bytes(rt: HostRuntime) {
    let alloc = rt.alloc();
    let mut store = Store::new(alloc);
    let array = Instance::from(array_of(&rt, alloc, &[10, 11, 12], true));
    let array = cell_with(&rt, alloc, &mut store, array);
    let first = view_index(&rt, alloc, &store, &array, 0);
    let last = view_index(&rt, alloc, &store, &array, 2);
    let vector = Instance::from(vector_of(&rt, alloc, &[1, 2, 3]));
    let vector = cell_with(&rt, alloc, &mut store, vector);
    let component = view_index(&rt, alloc, &store, &vector, 1);
    let in_one = [10, 0, 0, 0, 11, 0, 0, 0, 10, 0, 0, 0];
    let onward = [1, 0, 0, 0, 10, 0, 0, 0, 3, 0, 0, 0];
    let back = [10, 0, 0, 0, 11, 0, 0, 0, 7, 0, 0, 0];
    assert_copied(&rt, alloc, &mut store, &first, &last);
    assert_copied(&rt, alloc, &mut store, &array, &array);
    assert_lends(&rt, &store, &array, Some(in_one.as_slice()));
    assert_copied(&rt, alloc, &mut store, &last, &component);
    assert_lends(&rt, &store, &vector, Some(onward.as_slice()));
    assert_written(&rt, alloc, &mut store, &component, Instance::from(7u32));
    assert_copied(&rt, alloc, &mut store, &component, &last);
    assert_lends(&rt, &store, &array, Some(back.as_slice()));
    drop((store, array, vector));
    drop((first, last, component));
}

/// Makes a cell or a handle of the session, with memory.
fn make(rt: &impl Abort, session: &mut Session, call: Call) {
    drop(made!(rt; session.call(sound(rt, call))));
}

/// Asserts that the call is carried out, and answers nothing.
fn assert_done(rt: &impl Abort, session: &mut Session, call: Call) {
    assert_same(rt, session.call(sound(rt, call)), Ok(Reply::Done));
}

/// Asserts what the handle is read as; where growths are refused there may be no memory for that.
fn assert_read<R: Env + Abort>(rt: &R, session: &mut Session, handle: usize, wanted: Instance) {
    let answer = session.call(sound(rt, Call::Read(handle)));
    if is_memory(&answer) {
        assert_that(rt, are_refused(rt));
        drop((answer, wanted));
    } else {
        assert_same(rt, answer, Ok(Reply::Value(wanted)));
    }
}

#[test]
fn an_accepted_write_of_a_session(rt: HostRuntime) {
    let alloc = rt.alloc();
    let mut session = Session::new(alloc);
    let pair = Instance::from(pair_with(&rt, alloc, 1));
    make(&rt, &mut session, Call::New(pair, Storage, ReadWrite));
    let member = Call::Member(0, text(&rt, alloc, "a"));
    make(&rt, &mut session, member);
    let next = Instance::from(pair_with(&rt, alloc, 9));
    let held = Call::Write(0, Instance::from(reference_of(&rt, alloc)));
    let wanted = Instance::from(pair_with(&rt, alloc, 8));
    assert_done(&rt, &mut session, Call::Write(0, next));
    let eight = Call::Write(1, Instance::from(8u32));
    assert_done(&rt, &mut session, eight);
    let missing = session.call(sound(&rt, Call::Read(2)));
    assert_same(&rt, missing, Err(Fault::NoHandle));
    assert!(rt; !held.is_sound());
    assert_same(&rt, session.store().len(), 1);
    assert_that(&rt, session.reference(1).is_some());
    assert_that(&rt, session.reference(2).is_none());
    assert_read(&rt, &mut session, 0, wanted);
    drop((session, held));
}

#[test]
fn an_accepted_copy_of_a_session(rt: HostRuntime) {
    let alloc = rt.alloc();
    let mut session = Session::new(alloc);
    for components in [[1, 2, 3], [7, 8, 9]] {
        let vector = Instance::from(vector_of(&rt, alloc, &components));
        make(&rt, &mut session, Call::New(vector, Storage, ReadWrite));
    }
    make(&rt, &mut session, Call::Index(0, 2));
    make(&rt, &mut session, Call::Index(1, 0));
    assert_done(&rt, &mut session, Call::Copy(3, 2));
    assert_done(&rt, &mut session, Call::Copy(0, 1));
    let words = [1, 0, 0, 0, 2, 0, 0, 0, 7, 0, 0, 0];
    let whole = session.reference(1).expect(&rt, "a handle");
    assert_lends(&rt, session.store(), whole, Some(words.as_slice()));
    drop(session);
}
