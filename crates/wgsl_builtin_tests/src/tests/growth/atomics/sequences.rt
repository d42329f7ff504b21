//! Calls one after the other on one store: each finds what the one before left.

use crate::tests::atomics::assert_steps;

#[test]
fn an_atomic_is_lowered_and_then_exchanged(rt: HostRuntime) {
    let rows = "\
        atomic 5i with read_write: min 3 -> 5i => atomic<i32>(3i) => 3
        atomic 5i with read_write: compare 4; 8 -> __atomic_compare_exchange_result(3i, false) => atomic<i32>(3i) => 3
        atomic 5i with read_write: compare 3; 8 -> __atomic_compare_exchange_result(3i, true) => atomic<i32>(8i) => 8
        atomic 5i with read_write: store 9u -> ParamType i32, u32 => atomic<i32>(8i) => 8
        atomic 5i with read_write: load -> 8i => atomic<i32>(8i) => 8";
    assert_steps(&rt, rt.alloc(), rows);
}

#[test]
fn pointers_to_one_element_see_each_other(rt: HostRuntime) {
    let rows = "\
        totals[1] as atomic 0i with write: store 9 -> done => array(atomic<i32>(1i), atomic<i32>(9i), atomic<i32>(3i)) => 1 9 3
        totals[1] as atomic 0i with write: load -> NotRead => array(atomic<i32>(1i), atomic<i32>(9i), atomic<i32>(3i)) => 1 9 3
        totals[1] as atomic 0i with read: load -> 9i => array(atomic<i32>(1i), atomic<i32>(9i), atomic<i32>(3i)) => 1 9 3
        totals[1] as atomic 0i with read: add 4i -> NotReadWrite => array(atomic<i32>(1i), atomic<i32>(9i), atomic<i32>(3i)) => 1 9 3
        totals[2] as atomic 0i with read_write: add 4i -> 3i => array(atomic<i32>(1i), atomic<i32>(9i), atomic<i32>(7i)) => 1 9 7
        totals[1] as atomic 0i with read_write: add 4i -> 9i => array(atomic<i32>(1i), atomic<i32>(13i), atomic<i32>(7i)) => 1 13 7
        totals with read: length -> 3u => array(atomic<i32>(1i), atomic<i32>(13i), atomic<i32>(7i)) => 1 13 7";
    assert_steps(&rt, rt.alloc(), rows);
}

#[test]
fn members_of_a_structure_without_a_layout_are_changed_in_turn(rt: HostRuntime) {
    let rows = "\
        flagged.count as atomic 0u with read_write: sub 8 -> 7u => Flagged(true, atomic<u32>(4294967295u), array(atomic<i32>(1i), atomic<i32>(-2i), atomic<i32>(3i))) => nothing
        flagged.totals[2] as atomic 0i with read_write: xor -1 -> 3i => Flagged(true, atomic<u32>(4294967295u), array(atomic<i32>(1i), atomic<i32>(-2i), atomic<i32>(-4i))) => nothing
        flagged.count as atomic 0u with read_write: add 2u -> 4294967295u => Flagged(true, atomic<u32>(1u), array(atomic<i32>(1i), atomic<i32>(-2i), atomic<i32>(-4i))) => nothing
        flagged.totals[2] as atomic 0i with read_write: load -> -4i => Flagged(true, atomic<u32>(1u), array(atomic<i32>(1i), atomic<i32>(-2i), atomic<i32>(-4i))) => nothing";
    assert_steps(&rt, rt.alloc(), rows);
}
