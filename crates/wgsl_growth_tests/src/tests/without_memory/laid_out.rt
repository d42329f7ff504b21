//! Writes of the values that bytes lay out, to parts of cells of bytes: those that are accepted.

use crate::tests::asserts::assert_same;
use crate::tests::cells::cell_with;
use crate::tests::samples::{pair, vector_of};
use crate::tests::without_memory::cells::{assert_lends, view_index};
use std::alloc::Global;
use std::process::Abort;
use wgsl_rules::AccessMode::ReadWrite;
use wgsl_rules::AddressSpace::Storage;
use wgsl_session::{Reply, Session};
use wgsl_store::Store;
use wgsl_values::{Instance, RefInstance};

/// Asserts that the value that the bytes lay out is written.
fn assert_writes(
    rt: &impl Abort,
    alloc: Global,
    store: &mut Store,
    reference: &RefInstance,
    bytes: &[u8],
) {
    assert!(rt; store.holds(reference));
    assert_same(rt, store.write_bytes(alloc, reference, bytes), Ok(true));
}

#[test]
fn accepted_writes_of_bytes(rt: HostRuntime) {
    let alloc = rt.alloc();
    let mut store = Store::new(alloc);
    let vector = Instance::from(vector_of(&rt, alloc, &[1, 2, 3]));
    let whole = cell_with(&rt, alloc, &mut store, vector);
    let last = view_index(&rt, alloc, &store, &whole, 2);
    let words = [7, 0, 0, 0, 8, 0, 0, 0, 9, 0, 0, 0];
    assert_writes(&rt, alloc, &mut store, &whole, &words);
    assert_lends(&rt, &store, &whole, Some(words.as_slice()));
    assert_writes(&rt, alloc, &mut store, &last, &[5, 0, 0, 0]);
    assert_lends(&rt, &store, &last, Some([5, 0, 0, 0].as_slice()));
    drop((store, whole, last));
}

#[test]
fn an_accepted_write_of_bytes_of_a_session(rt: HostRuntime) {
    let alloc = rt.alloc();
    let mut session = Session::new(alloc);
    let made = session.new_from_bytes(pair(&rt, alloc), &[0; 32], Storage, ReadWrite);
    drop(made!(&rt; made));
    assert_same(&rt, session.write_bytes(0, &[3; 32]), Ok(Some(Reply::Done)));
    let whole = session.reference(0).expect(&rt, "a handle");
    let mut wanted = [3; 32];
    wanted[4..16].fill(0);
    wanted[28..].fill(0);
    assert_lends(&rt, session.store(), whole, Some(wanted.as_slice()));
    drop(session);
}
