//! Loads of atomics.

use crate::tests::atomics::assert_rows;

#[test]
fn loads(rt: HostRuntime) {
    let alloc = rt.alloc();
    let rows = "\
        atomic 5i with read, read_write: load -> 5i => atomic<i32>(5i) => 5
        atomic -1i with read, read_write: load -> -1i => atomic<i32>(-1i) => 4294967295
        atomic 4294967295u with read, read_write: load -> 4294967295u => atomic<u32>(4294967295u) => 4294967295";
    assert_rows(&rt, alloc, rows);
}

#[test]
fn refused_loads(rt: HostRuntime) {
    let alloc = rt.alloc();
    let rows = "\
        atomic 5i with write: load -> NotRead";
    assert_rows(&rt, alloc, rows);
    // the access, then that it is an atomic
    let rows = "\
        5i with write: load -> NotRead
        5i with read_write: load -> Builtin
        true with read: load -> Builtin
        vec2(1u, 2u) with read: load -> Builtin
        matrix with read: load -> Builtin
        array with read: load -> Builtin
        counters with read_write: load -> Builtin";
    assert_rows(&rt, alloc, rows);
}
