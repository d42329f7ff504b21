//! Stores to atomics.

use crate::tests::atomics::assert_rows;

#[test]
fn stores(rt: HostRuntime) {
    let alloc = rt.alloc();
    let rows = "\
        atomic 5i with read_write: store 3 -> done => atomic<i32>(3i) => 3
        atomic 5i with read_write: store 2147483647i -> done => atomic<i32>(2147483647i) => 2147483647
        atomic 5i with write: store -2147483648 -> done => atomic<i32>(-2147483648i) => 2147483648
        atomic 5u with write: store 7u -> done => atomic<u32>(7u) => 7
        atomic 5u with read_write: store 4294967295 -> done => atomic<u32>(4294967295u) => 4294967295";
    assert_rows(&rt, alloc, rows);
}

#[test]
fn refusals_of_stores_in_order(rt: HostRuntime) {
    let alloc = rt.alloc();
    let rows = "\
        atomic 5i with read: store 1 -> NotReadWrite
        atomic 5i with read: store 1li -> NotReadWrite
        atomic 5i with read: store deferred -> NotReadWrite
        5i with read: store 1i -> NotReadWrite
        5i with read_write: store 1i -> Builtin
        5i with read_write: store 1li -> Builtin
        5i with write: store reference -> Builtin
        counters with read_write: store 1u -> Builtin
        array with write: store 1u -> Builtin";
    assert_rows(&rt, alloc, rows);
}

#[test]
fn values_that_an_atomic_does_not_take(rt: HostRuntime) {
    let alloc = rt.alloc();
    let rows = "\
        atomic 5i with write, read_write: store 1li -> ParamType i32, i64
        atomic 5i with write, read_write: store 1u -> ParamType i32, u32
        atomic 5i with write, read_write: store true -> ParamType i32, bool
        atomic 5i with write, read_write: store 2147483648 -> ParamType i32, AbstractInt
        atomic 5u with write, read_write: store -1 -> ParamType u32, AbstractInt
        atomic 5u with write, read_write: store 1i -> ParamType u32, i32
        atomic 5i with write, read_write: store vec2(1i, 2i) -> ParamType i32, vec2<i32>
        atomic 5i with write, read_write: store matrix -> ParamType i32, mat2x2<u32>
        atomic 5i with write, read_write: store array -> ParamType i32, array<u32, 2>
        atomic 5i with write, read_write: store structure -> ParamType i32, Pair
        atomic 5i with write, read_write: store pointer -> ParamType i32, ptr<storage, i32, read_write>
        atomic 5i with write, read_write: store reference -> ParamType i32, ref<storage, i32, read_write>
        atomic 5i with write, read_write: store atomic 5i -> ParamType i32, atomic<i32>
        atomic 5i with write, read_write: store deferred -> Builtin
        atomic 5u with write, read_write: store deferred -> Builtin";
    assert_rows(&rt, alloc, rows);
}
