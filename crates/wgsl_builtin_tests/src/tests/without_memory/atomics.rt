//! Numbers of atomics, loaded, stored and exchanged in their places.

use crate::tests::atomics::{Change, accessed, changed, loaded, stored};
use crate::tests::rows::{literal_of, parted, sample};
use crate::tests::without_memory::{pointer, store_of, value};
use std::alloc::Global;
use std::process::Abort;
use wgsl_scalar::LiteralInstance;
use wgsl_scalar::LiteralInstance::U32;
use wgsl_store::Store;
use wgsl_values::Instance;

/// Asserts the number of the atomic.
fn assert_loaded(
    rt: &impl Abort,
    alloc: Global,
    row: &str,
    store: &Store,
    p: &Instance,
    number: LiteralInstance,
) {
    let answer = loaded(rt, alloc, store, p);
    let wanted = Ok(Instance::from(number));
    assert!(rt; answer == wanted, "{row}");
    drop((answer, wanted));
}

/// Asserts that the value is stored in the atomic, whose number it then is.
fn assert_stored(
    rt: &impl Abort,
    alloc: Global,
    row: &str,
    (store, p): (Store, Instance),
    v: Instance,
    number: LiteralInstance,
) {
    let mut store = store;
    assert!(rt; v.is_well_formed());
    let answer = stored(rt, alloc, &mut store, &p, &v);
    assert!(rt; answer.is_ok(), "{row}");
    drop((answer, v));
    assert_loaded(rt, alloc, row, &store, &p, number);
    drop((store, p));
}

/// Asserts that the value takes the place of the first number, which is answered, and is then the second.
fn assert_exchanged(
    rt: &impl Abort,
    alloc: Global,
    row: &str,
    (store, p): (Store, Instance),
    v: Instance,
    (old, new): (LiteralInstance, LiteralInstance),
) {
    let mut store = store;
    assert!(rt; v.is_well_formed());
    let answer = changed(rt, alloc, Change::Exchange, &mut store, &p, &v);
    let wanted = Ok(Instance::from(old));
    assert!(rt; answer == wanted, "{row}");
    drop((answer, wanted, v));
    assert_loaded(rt, alloc, row, &store, &p, new);
    drop((store, p));
}

/// Atomics in cells of bytes, and in one that is none: `place with access: number; argument -> number`, where the last is
/// what the argument is.
const ROWS: &str = "\
    atomic 5u with read_write: 5u; 4294967295u -> 4294967295u
    atomic 5u with read_write: 5u; 6 -> 6u
    atomic -5i with read_write: -5i; 3i -> 3i
    atomic -5i with read_write: -5i; -4 -> -4i
    counters.count as atomic 7u with read_write: 7u; 8u -> 8u
    counters.totals[1] as atomic -2i with read_write: -2i; 9 -> 9i
    flagged.count as atomic 7u with read_write: 7u; 8 -> 8u
    flagged.totals[1] as atomic -2i with read_write: -2i; 9i -> 9i";

/// The store and the pointer to the atomic of a row, and its argument.
fn made_of(rt: &impl Abort, alloc: Global, row: &'static str) -> (Store, Instance, Instance) {
    let (question, _) = parted(rt, row, " -> ");
    let (at, numbers) = parted(rt, question, ": ");
    let (_, argument) = parted(rt, numbers, "; ");
    let (cell, place) = accessed(rt, at);
    let store = store_of(rt, alloc, cell);
    let p = pointer(rt, alloc, place);
    (store, p, value(rt, alloc, sample(rt, argument)))
}

/// The number that the atomic of a row has, and that which its argument is.
fn numbers_of(rt: &impl Abort, row: &str) -> (LiteralInstance, LiteralInstance) {
    let (question, new) = parted(rt, row, " -> ");
    let (_, numbers) = parted(rt, question, ": ");
    let (old, _) = parted(rt, numbers, "; ");
    (literal_of(rt, old), literal_of(rt, new))
}

#[test]
fn numbers_are_loaded_and_stored(rt: HostRuntime) {
    let alloc = rt.alloc();
    for row in ROWS.lines() {
        let (store, p, v) = made_of(&rt, alloc, row);
        let (old, new) = numbers_of(&rt, row);
        assert_loaded(&rt, alloc, row, &store, &p, old);
        assert_stored(&rt, alloc, row, (store, p), v, new);
    }
}

#[test]
fn numbers_are_exchanged(rt: HostRuntime) {
    let alloc = rt.alloc();
    for row in ROWS.lines() {
        let (store, p, v) = made_of(&rt, alloc, row);
        assert_exchanged(&rt, alloc, row, (store, p), v, numbers_of(&rt, row));
    }
}

#[test]
fn numbers_are_loaded_with_read_access_alone(rt: HostRuntime) {
    let alloc = rt.alloc();
    let (cell, place) = accessed(&rt, "atomic 5u with read");
    let store = store_of(&rt, alloc, cell);
    let p = pointer(&rt, alloc, place);
    assert_loaded(&rt, alloc, "read", &store, &p, U32(5));
    drop((store, p));
}
