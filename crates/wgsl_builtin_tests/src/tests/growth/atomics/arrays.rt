//! Lengths of arrays.

use crate::tests::atomics::assert_rows;

#[test]
fn lengths_of_arrays(rt: HostRuntime) {
    let alloc = rt.alloc();
    let rows = "\
        array with read, read_write: length -> 2u => array(1u, 2u) => 1 2
        numbers with read, read_write: length -> 3u => array(1u, 2u, 3u) => 1 2 3
        fixed numbers with read, read_write: length -> 3u => array(1u, 2u, 3u) => 1 2 3";
    assert_rows(&rt, alloc, rows);
    // without a layout
    let rows = "\
        truths with read, read_write: length -> 3u => array(true, false, true) => nothing
        fixed truths with read, read_write: length -> 3u => array(true, false, true) => nothing";
    assert_rows(&rt, alloc, rows);
}

#[test]
fn lengths_of_members(rt: HostRuntime) {
    let alloc = rt.alloc();
    let rows = "\
        counters.totals as totals with read: length -> 3u => Counters(atomic<u32>(7u), array(atomic<i32>(1i), atomic<i32>(-2i), atomic<i32>(3i))) => 7 1 4294967294 3
        flagged.totals as fixed totals with read: length -> 3u => Flagged(true, atomic<u32>(7u), array(atomic<i32>(1i), atomic<i32>(-2i), atomic<i32>(3i))) => nothing";
    assert_rows(&rt, alloc, rows);
}

#[test]
fn other_values_have_no_length(rt: HostRuntime) {
    let alloc = rt.alloc();
    let rows = "\
        1u with read_write: length -> Builtin
        vec2(1u, 2u) with read_write: length -> Builtin
        matrix with read_write: length -> Builtin
        structure with read_write: length -> Builtin
        atomic 5i with read_write: length -> Builtin";
    assert_rows(&rt, alloc, rows);
    // the access comes first
    let rows = "\
        1u with write: length -> NotRead
        vec2(1u, 2u) with write: length -> NotRead
        matrix with write: length -> NotRead
        structure with write: length -> NotRead
        atomic 5i with write: length -> NotRead
        array with write: length -> NotRead";
    assert_rows(&rt, alloc, rows);
}
