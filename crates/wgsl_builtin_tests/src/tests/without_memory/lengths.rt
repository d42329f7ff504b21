//! Lengths of arrays, and why other values have none: no clause says which reason a refusal by `Builtin` has.

use crate::tests::atomics::{accessed, length};
use crate::tests::rows::{literal_of, parted, sample};
use crate::tests::without_memory::{pointer, store_of, value};
use std::alloc::Global;
use std::process::Abort;
use wgsl_samples::operands::Sample;
use wgsl_scalar::{BuiltinReason, Error};
use wgsl_store::Store;
use wgsl_values::Instance;

/// The length, or why there is none.
fn answer(rt: &impl Abort, text: &str) -> Result<Instance, Error> {
    match text {
        "NotRead" => Err(Error::NotRead),
        "NotArray" => Err(Error::Builtin(BuiltinReason::NotArray)),
        "NotPointer" => Err(Error::Builtin(BuiltinReason::NotPointer)),
        _ => Ok(Instance::from(literal_of(rt, text))),
    }
}

/// Asserts the length of what the value points to, or why there is none.
fn assert_length(
    rt: &impl Abort,
    alloc: Global,
    row: &str,
    (store, p): (Store, Instance),
    wanted: &str,
) {
    let found = length(rt, alloc, &store, &p);
    let wanted = answer(rt, wanted);
    assert!(rt; found == wanted, "{row}");
    drop((found, wanted, store, p));
}

/// Asserts each row: `place with access -> length`.
fn assert_rows(rt: &impl Abort, alloc: Global, rows: &'static str) {
    for row in rows.lines() {
        let (at, wanted) = parted(rt, row, " -> ");
        let (cell, place) = accessed(rt, at);
        let store = store_of(rt, alloc, cell);
        let p = pointer(rt, alloc, place);
        assert_length(rt, alloc, row, (store, p), wanted);
    }
}

#[test]
fn lengths_of_arrays(rt: HostRuntime) {
    let alloc = rt.alloc();
    let rows = "\
        array with read -> 2u
        numbers with read_write -> 3u";
    assert_rows(&rt, alloc, rows);
    // without a layout
    let rows = "\
        truths with read -> 3u
        fixed truths with read_write -> 3u
        counters.totals as totals with read -> 3u
        flagged.totals as fixed totals with read_write -> 3u";
    assert_rows(&rt, alloc, rows);
}

#[test]
fn pointers_to_no_array(rt: HostRuntime) {
    let alloc = rt.alloc();
    let rows = "\
        1u with read -> NotArray
        vec2(1u, 2u) with read_write -> NotArray
        matrix with read -> NotArray
        matrix[1] as vec2(3u, 4u) with read -> NotArray
        structure with read_write -> NotArray
        atomic 5i with read -> NotArray
        array[1] as 2u with read -> NotArray
        counters with read -> NotArray";
    assert_rows(&rt, alloc, rows);
    // without a layout
    let rows = "\
        true with read -> NotArray
        flagged with read_write -> NotArray
        flagged.flag as true with read -> NotArray
        flagged.totals[2] as atomic 3i with read -> NotArray";
    assert_rows(&rt, alloc, rows);
}

#[test]
fn pointers_that_are_not_read(rt: HostRuntime) {
    let alloc = rt.alloc();
    // what they point to is not looked at
    let rows = "\
        array with write -> NotRead
        flagged with write -> NotRead
        1u with write -> NotRead";
    assert_rows(&rt, alloc, rows);
}

/// A value of each sort, none of them a pointer.
const OTHERS: &str = "\
    1u
    1
    true
    vec2(1i, 2i)
    matrix
    array
    numbers
    structure
    reference
    atomic 5i
    deferred";

#[test]
fn values_that_are_no_pointers(rt: HostRuntime) {
    let alloc = rt.alloc();
    for line in OTHERS.lines() {
        let store = store_of(&rt, alloc, Sample::Array);
        let p = value(&rt, alloc, sample(&rt, line.trim()));
        assert_length(&rt, alloc, line, (store, p), "NotPointer");
    }
}
