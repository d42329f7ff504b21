//! Atomics that are parts of a structure and of an array in it: in a cell of bytes, and in one whose type has no layout.

use crate::tests::atomics::assert_rows;

#[test]
fn a_member_is_changed_alone(rt: HostRuntime) {
    let alloc = rt.alloc();
    let rows = "\
        counters.count as atomic 0u with read_write: load -> 7u => Counters(atomic<u32>(7u), array(atomic<i32>(1i), atomic<i32>(-2i), atomic<i32>(3i))) => 7 1 4294967294 3
        counters.count as atomic 0u with read_write: store 4294967295 -> done => Counters(atomic<u32>(4294967295u), array(atomic<i32>(1i), atomic<i32>(-2i), atomic<i32>(3i))) => 4294967295 1 4294967294 3
        counters.count as atomic 0u with read_write: add 3 -> 7u => Counters(atomic<u32>(10u), array(atomic<i32>(1i), atomic<i32>(-2i), atomic<i32>(3i))) => 10 1 4294967294 3
        counters.count as atomic 0u with read_write: sub 8u -> 7u => Counters(atomic<u32>(4294967295u), array(atomic<i32>(1i), atomic<i32>(-2i), atomic<i32>(3i))) => 4294967295 1 4294967294 3
        counters.count as atomic 0u with read_write: max 9u -> 7u => Counters(atomic<u32>(9u), array(atomic<i32>(1i), atomic<i32>(-2i), atomic<i32>(3i))) => 9 1 4294967294 3
        counters.count as atomic 0u with read_write: min 9u -> 7u => Counters(atomic<u32>(7u), array(atomic<i32>(1i), atomic<i32>(-2i), atomic<i32>(3i))) => 7 1 4294967294 3
        counters.count as atomic 0u with read_write: exchange 0 -> 7u => Counters(atomic<u32>(0u), array(atomic<i32>(1i), atomic<i32>(-2i), atomic<i32>(3i))) => 0 1 4294967294 3
        counters.count as atomic 0u with read_write: compare 7; 8 -> __atomic_compare_exchange_result(7u, true) => Counters(atomic<u32>(8u), array(atomic<i32>(1i), atomic<i32>(-2i), atomic<i32>(3i))) => 8 1 4294967294 3
        counters.count as atomic 0u with read_write: compare 8; 7 -> __atomic_compare_exchange_result(7u, false) => Counters(atomic<u32>(7u), array(atomic<i32>(1i), atomic<i32>(-2i), atomic<i32>(3i))) => 7 1 4294967294 3
        flagged.count as atomic 0u with read_write: load -> 7u => Flagged(true, atomic<u32>(7u), array(atomic<i32>(1i), atomic<i32>(-2i), atomic<i32>(3i))) => nothing
        flagged.count as atomic 0u with read_write: store 4294967295 -> done => Flagged(true, atomic<u32>(4294967295u), array(atomic<i32>(1i), atomic<i32>(-2i), atomic<i32>(3i))) => nothing
        flagged.count as atomic 0u with read_write: add 3 -> 7u => Flagged(true, atomic<u32>(10u), array(atomic<i32>(1i), atomic<i32>(-2i), atomic<i32>(3i))) => nothing
        flagged.count as atomic 0u with read_write: sub 8u -> 7u => Flagged(true, atomic<u32>(4294967295u), array(atomic<i32>(1i), atomic<i32>(-2i), atomic<i32>(3i))) => nothing
        flagged.count as atomic 0u with read_write: max 9u -> 7u => Flagged(true, atomic<u32>(9u), array(atomic<i32>(1i), atomic<i32>(-2i), atomic<i32>(3i))) => nothing
        flagged.count as atomic 0u with read_write: min 9u -> 7u => Flagged(true, atomic<u32>(7u), array(atomic<i32>(1i), atomic<i32>(-2i), atomic<i32>(3i))) => nothing
        flagged.count as atomic 0u with read_write: exchange 0 -> 7u => Flagged(true, atomic<u32>(0u), array(atomic<i32>(1i), atomic<i32>(-2i), atomic<i32>(3i))) => nothing
        flagged.count as atomic 0u with read_write: compare 7; 8 -> __atomic_compare_exchange_result(7u, true) => Flagged(true, atomic<u32>(8u), array(atomic<i32>(1i), atomic<i32>(-2i), atomic<i32>(3i))) => nothing
        flagged.count as atomic 0u with read_write: compare 8; 7 -> __atomic_compare_exchange_result(7u, false) => Flagged(true, atomic<u32>(7u), array(atomic<i32>(1i), atomic<i32>(-2i), atomic<i32>(3i))) => nothing";
    assert_rows(&rt, alloc, rows);
}

#[test]
fn an_element_is_changed_alone(rt: HostRuntime) {
    let alloc = rt.alloc();
    let rows = "\
        counters.totals[1] as atomic 0i with read_write: load -> -2i => Counters(atomic<u32>(7u), array(atomic<i32>(1i), atomic<i32>(-2i), atomic<i32>(3i))) => 7 1 4294967294 3
        counters.totals[0] as atomic 0i with read_write: store -2i -> done => Counters(atomic<u32>(7u), array(atomic<i32>(-2i), atomic<i32>(-2i), atomic<i32>(3i))) => 7 4294967294 4294967294 3
        counters.totals[1] as atomic 0i with read_write: min -3 -> -2i => Counters(atomic<u32>(7u), array(atomic<i32>(1i), atomic<i32>(-3i), atomic<i32>(3i))) => 7 1 4294967293 3
        counters.totals[1] as atomic 0i with read_write: and 3i -> -2i => Counters(atomic<u32>(7u), array(atomic<i32>(1i), atomic<i32>(2i), atomic<i32>(3i))) => 7 1 2 3
        counters.totals[2] as atomic 0i with read_write: or 4 -> 3i => Counters(atomic<u32>(7u), array(atomic<i32>(1i), atomic<i32>(-2i), atomic<i32>(7i))) => 7 1 4294967294 7
        counters.totals[2] as atomic 0i with read_write: xor -1 -> 3i => Counters(atomic<u32>(7u), array(atomic<i32>(1i), atomic<i32>(-2i), atomic<i32>(-4i))) => 7 1 4294967294 4294967292
        counters.totals[2] as atomic 0i with read_write: compare 3i; -2 -> __atomic_compare_exchange_result(3i, true) => Counters(atomic<u32>(7u), array(atomic<i32>(1i), atomic<i32>(-2i), atomic<i32>(-2i))) => 7 1 4294967294 4294967294
        counters.totals[0] as atomic 0i with read_write: compare 3i; -2 -> __atomic_compare_exchange_result(1i, false) => Counters(atomic<u32>(7u), array(atomic<i32>(1i), atomic<i32>(-2i), atomic<i32>(3i))) => 7 1 4294967294 3
        flagged.totals[1] as atomic 0i with read_write: load -> -2i => Flagged(true, atomic<u32>(7u), array(atomic<i32>(1i), atomic<i32>(-2i), atomic<i32>(3i))) => nothing
        flagged.totals[0] as atomic 0i with read_write: store -2i -> done => Flagged(true, atomic<u32>(7u), array(atomic<i32>(-2i), atomic<i32>(-2i), atomic<i32>(3i))) => nothing
        flagged.totals[1] as atomic 0i with read_write: min -3 -> -2i => Flagged(true, atomic<u32>(7u), array(atomic<i32>(1i), atomic<i32>(-3i), atomic<i32>(3i))) => nothing
        flagged.totals[1] as atomic 0i with read_write: and 3i -> -2i => Flagged(true, atomic<u32>(7u), array(atomic<i32>(1i), atomic<i32>(2i), atomic<i32>(3i))) => nothing
        flagged.totals[2] as atomic 0i with read_write: or 4 -> 3i => Flagged(true, atomic<u32>(7u), array(atomic<i32>(1i), atomic<i32>(-2i), atomic<i32>(7i))) => nothing
        flagged.totals[2] as atomic 0i with read_write: xor -1 -> 3i => Flagged(true, atomic<u32>(7u), array(atomic<i32>(1i), atomic<i32>(-2i), atomic<i32>(-4i))) => nothing
        flagged.totals[2] as atomic 0i with read_write: compare 3i; -2 -> __atomic_compare_exchange_result(3i, true) => Flagged(true, atomic<u32>(7u), array(atomic<i32>(1i), atomic<i32>(-2i), atomic<i32>(-2i))) => nothing
        flagged.totals[0] as atomic 0i with read_write: compare 3i; -2 -> __atomic_compare_exchange_result(1i, false) => Flagged(true, atomic<u32>(7u), array(atomic<i32>(1i), atomic<i32>(-2i), atomic<i32>(3i))) => nothing";
    assert_rows(&rt, alloc, rows);
}

#[test]
fn refusals_at_a_part_change_nothing(rt: HostRuntime) {
    let alloc = rt.alloc();
    let rows = "\
        counters.totals[1] as atomic 0i with write: load -> NotRead
        counters.totals[1] as atomic 0i with read: store 1 -> NotReadWrite
        counters.totals[1] as atomic 0i with read_write: store true -> ParamType i32, bool
        counters.totals[1] as atomic 0i with read_write: add 1u -> Binary + i32, u32
        counters.totals[1] as atomic 0i with read: add 1 -> NotReadWrite
        counters.totals[1] as atomic 0i with read: compare -2; 1 -> NotReadWrite
        counters.totals[1] as atomic 0i with read_write: compare -2; 1u -> ParamType i32, u32
        flagged.totals[1] as atomic 0i with write: load -> NotRead
        flagged.totals[1] as atomic 0i with read: store 1 -> NotReadWrite
        flagged.totals[1] as atomic 0i with read_write: store true -> ParamType i32, bool
        flagged.totals[1] as atomic 0i with read_write: add 1u -> Binary + i32, u32
        flagged.totals[1] as atomic 0i with read: add 1 -> NotReadWrite
        flagged.totals[1] as atomic 0i with read: compare -2; 1 -> NotReadWrite
        flagged.totals[1] as atomic 0i with read_write: compare -2; 1u -> ParamType i32, u32";
    assert_rows(&rt, alloc, rows);
}
