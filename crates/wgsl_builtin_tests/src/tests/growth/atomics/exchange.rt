//! Atomics that are compared and exchanged.

use crate::tests::atomics::assert_rows;

#[test]
fn an_equal_number_is_exchanged(rt: HostRuntime) {
    let alloc = rt.alloc();
    let rows = "\
        atomic 3i with read_write: compare 4; 8 -> __atomic_compare_exchange_result(3i, false) => atomic<i32>(3i) => 3
        atomic 3i with read_write: compare 3; 8 -> __atomic_compare_exchange_result(3i, true) => atomic<i32>(8i) => 8
        atomic 3i with read_write: compare 3i; -8i -> __atomic_compare_exchange_result(3i, true) => atomic<i32>(-8i) => 4294967288
        atomic 3i with read_write: compare -3i; 8 -> __atomic_compare_exchange_result(3i, false) => atomic<i32>(3i) => 3
        atomic 3i with read_write: compare 3; 3 -> __atomic_compare_exchange_result(3i, true) => atomic<i32>(3i) => 3";
    assert_rows(&rt, alloc, rows);
}

#[test]
fn an_equal_unsigned_number_is_exchanged(rt: HostRuntime) {
    let alloc = rt.alloc();
    let rows = "\
        atomic 4294967295u with read_write: compare 4294967295; 0u -> __atomic_compare_exchange_result(4294967295u, true) => atomic<u32>(0u) => 0
        atomic 4294967295u with read_write: compare 0u; 0 -> __atomic_compare_exchange_result(4294967295u, false) => atomic<u32>(4294967295u) => 4294967295";
    assert_rows(&rt, alloc, rows);
}

#[test]
fn refusals_of_the_load_come_first(rt: HostRuntime) {
    let alloc = rt.alloc();
    let rows = "\
        atomic 3i with write: compare 3; 8 -> NotRead
        atomic 3i with write: compare 1li; true -> NotRead
        atomic 3i with write: compare deferred; 8 -> NotRead
        3i with write: compare 1li; 8 -> NotRead
        3i with read_write: compare 3i; 8i -> Builtin
        3i with read_write: compare 1li; 8 -> Builtin
        3i with read: compare 3i; 8i -> Builtin
        array with read_write: compare 3i; 8i -> Builtin";
    assert_rows(&rt, alloc, rows);
}

#[test]
fn the_comparand_is_converted_before_the_new_number(rt: HostRuntime) {
    let alloc = rt.alloc();
    // a pointer without write access is refused after them
    let rows = "\
        atomic 3i with read, read_write: compare 1li; true -> ParamType i32, i64
        atomic 3i with read, read_write: compare 1li; deferred -> ParamType i32, i64
        atomic 3i with read, read_write: compare true; 8 -> ParamType i32, bool
        atomic 3i with read, read_write: compare 3u; 8 -> ParamType i32, u32
        atomic 3i with read, read_write: compare 2147483648; 8 -> ParamType i32, AbstractInt
        atomic 3i with read, read_write: compare vec2(3i, 3i); 8 -> ParamType i32, vec2<i32>
        atomic 3i with read, read_write: compare atomic 3i; 8 -> ParamType i32, atomic<i32>
        atomic 3i with read, read_write: compare structure; 8 -> ParamType i32, Pair
        atomic 3i with read, read_write: compare deferred; 1li -> Builtin
        atomic 3i with read, read_write: compare 3; true -> ParamType i32, bool
        atomic 3i with read, read_write: compare 4; 1li -> ParamType i32, i64
        atomic 3i with read, read_write: compare 3; -2147483649 -> ParamType i32, AbstractInt
        atomic 3i with read, read_write: compare 3; reference -> ParamType i32, ref<storage, i32, read_write>
        atomic 3i with read, read_write: compare 3; deferred -> Builtin
        atomic 3i with read, read_write: compare 4; deferred -> Builtin";
    assert_rows(&rt, alloc, rows);
}

#[test]
fn a_pointer_without_write_access_exchanges_nothing(rt: HostRuntime) {
    let alloc = rt.alloc();
    let rows = "\
        atomic 3i with read: compare 3; 8 -> NotReadWrite
        atomic 3i with read: compare 4; 8 -> NotReadWrite";
    assert_rows(&rt, alloc, rows);
}
