//! Atomics that are loaded, changed and stored.

use crate::tests::atomics::assert_rows;

#[test]
fn changes_of_signed_numbers_answer_the_old_one(rt: HostRuntime) {
    let alloc = rt.alloc();
    let rows = "\
        atomic 5i with read_write: min 3 -> 5i => atomic<i32>(3i) => 3
        atomic -5i with read_write: min 3i -> -5i => atomic<i32>(-5i) => 4294967291
        atomic 5i with read_write: max 3 -> 5i => atomic<i32>(5i) => 5
        atomic -5i with read_write: max 9i -> -5i => atomic<i32>(9i) => 9
        atomic 2147483647i with read_write: add 1 -> 2147483647i => atomic<i32>(-2147483648i) => 2147483648
        atomic 5i with read_write: add -7i -> 5i => atomic<i32>(-2i) => 4294967294
        atomic -2147483648i with read_write: sub 1 -> -2147483648i => atomic<i32>(2147483647i) => 2147483647
        atomic -4i with read_write: and 7 -> -4i => atomic<i32>(4i) => 4
        atomic -4i with read_write: or 3 -> -4i => atomic<i32>(-1i) => 4294967295
        atomic -1i with read_write: xor 2147483647i -> -1i => atomic<i32>(-2147483648i) => 2147483648
        atomic 5i with read_write: exchange -1 -> 5i => atomic<i32>(-1i) => 4294967295";
    assert_rows(&rt, alloc, rows);
}

#[test]
fn changes_of_unsigned_numbers_answer_the_old_one(rt: HostRuntime) {
    let alloc = rt.alloc();
    let rows = "\
        atomic 0u with read_write: sub 1 -> 0u => atomic<u32>(4294967295u) => 4294967295
        atomic 4294967295u with read_write: add 3u -> 4294967295u => atomic<u32>(2u) => 2
        atomic 4294967295u with read_write: min 1 -> 4294967295u => atomic<u32>(1u) => 1
        atomic 1u with read_write: max 4294967295u -> 1u => atomic<u32>(4294967295u) => 4294967295
        atomic 12u with read_write: and 10u -> 12u => atomic<u32>(8u) => 8
        atomic 12u with read_write: or 10 -> 12u => atomic<u32>(14u) => 14
        atomic 12u with read_write: xor 10u -> 12u => atomic<u32>(6u) => 6
        atomic 12u with read_write: exchange 7 -> 12u => atomic<u32>(7u) => 7";
    assert_rows(&rt, alloc, rows);
}

#[test]
fn each_change_is_refused_by_its_load_first(rt: HostRuntime) {
    let alloc = rt.alloc();
    let rows = "\
        atomic 5i with write: add true -> NotRead
        5i with write: add true -> NotRead
        5i with read_write: add true -> Builtin
        atomic 5i with write: sub true -> NotRead
        5i with write: sub true -> NotRead
        5i with read_write: sub true -> Builtin
        atomic 5i with write: max true -> NotRead
        5i with write: max true -> NotRead
        5i with read_write: max true -> Builtin
        atomic 5i with write: min true -> NotRead
        5i with write: min true -> NotRead
        5i with read_write: min true -> Builtin
        atomic 5i with write: and true -> NotRead
        5i with write: and true -> NotRead
        5i with read_write: and true -> Builtin
        atomic 5i with write: or true -> NotRead
        5i with write: or true -> NotRead
        5i with read_write: or true -> Builtin
        atomic 5i with write: xor true -> NotRead
        5i with write: xor true -> NotRead
        5i with read_write: xor true -> Builtin
        atomic 5i with write: exchange true -> NotRead
        5i with write: exchange true -> NotRead
        5i with read_write: exchange true -> Builtin";
    assert_rows(&rt, alloc, rows);
}

#[test]
fn each_change_is_refused_without_write_access(rt: HostRuntime) {
    let alloc = rt.alloc();
    let rows = "\
        atomic 5u with read: add 1 -> NotReadWrite
        atomic 5u with read: sub 1 -> NotReadWrite
        atomic 5u with read: max 1 -> NotReadWrite
        atomic 5u with read: min 1 -> NotReadWrite
        atomic 5u with read: and 1 -> NotReadWrite
        atomic 5u with read: or 1 -> NotReadWrite
        atomic 5u with read: xor 1 -> NotReadWrite
        atomic 5u with read: exchange 1 -> NotReadWrite";
    assert_rows(&rt, alloc, rows);
}

#[test]
fn refusals_of_the_operator_come_before_those_of_the_store(rt: HostRuntime) {
    let alloc = rt.alloc();
    let rows = "\
        atomic 5i with read, read_write: add true -> Binary + i32, bool
        atomic 5i with read, read_write: add 1u -> Binary + i32, u32";
    assert_rows(&rt, alloc, rows);
    // a sum is that of the vector and the scalar
    let rows = "\
        atomic 5i with read, read_write: add vec2(1u, 2u) -> Binary + vec2<u32>, i32
        atomic 5i with read, read_write: sub true -> Binary - i32, bool
        atomic 5i with read, read_write: sub 2147483648 -> Binary - i32, AbstractInt
        atomic 5i with read, read_write: sub 1li -> Binary - i32, i64
        atomic 5i with read, read_write: sub vec2(1u, 2u) -> Binary - i32, vec2<u32>
        atomic 5i with read, read_write: and true -> Binary & i32, bool
        atomic 5i with read, read_write: or 1u -> Binary | i32, u32
        atomic 5i with read, read_write: xor vec2(1i, 2i) -> Binary ^ i32, vec2<i32>
        atomic 5i with read, read_write: add deferred -> Binary + i32, u32
        atomic 5i with read, read_write: sub deferred -> Binary - i32, u32
        atomic 5i with read, read_write: and deferred -> Binary & i32, u32
        atomic 5i with read, read_write: or deferred -> Binary | i32, u32
        atomic 5i with read, read_write: xor deferred -> Binary ^ i32, u32
        atomic 5i with read, read_write: sub reference -> Binary - i32, ref<storage, i32, read_write>
        atomic 5i with read, read_write: xor atomic 1i -> Binary ^ i32, atomic<i32>
        atomic 5i with read, read_write: max 3u -> Builtin
        atomic 5i with read, read_write: min true -> Builtin
        atomic 5i with read, read_write: max vec2(1i, 2i) -> Builtin
        atomic 5i with read, read_write: min deferred -> Builtin";
    assert_rows(&rt, alloc, rows);
}

#[test]
fn refusals_of_the_store_come_last(rt: HostRuntime) {
    let alloc = rt.alloc();
    // a vector that the operator takes is refused with the type of what it gave
    let rows = "\
        atomic 5i with read_write: add vec2(1i, 2i) -> ParamType i32, vec2<i32>
        atomic 5i with read_write: sub vec2(1i, 2i) -> ParamType i32, vec2<i32>
        atomic 5i with read: sub vec2(1i, 2i) -> NotReadWrite
        atomic 5i with read_write: exchange 1li -> ParamType i32, i64
        atomic 5i with read_write: exchange true -> ParamType i32, bool
        atomic 5i with read_write: exchange 2147483648 -> ParamType i32, AbstractInt
        atomic 5i with read_write: exchange vec2(1u, 2u) -> ParamType i32, vec2<u32>
        atomic 5i with read_write: exchange structure -> ParamType i32, Pair
        atomic 5i with read_write: exchange deferred -> Builtin
        atomic 5i with read: exchange true -> NotReadWrite
        atomic 5i with read: exchange deferred -> NotReadWrite";
    assert_rows(&rt, alloc, rows);
}
