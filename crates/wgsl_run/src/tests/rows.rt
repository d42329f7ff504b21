//! Scripts whose lines are each answered as their rows say.

use crate::tests::{Script, assert_prints, assert_scripts};

/// Calls, refused ones too, and the values that they read and write.
const SCRIPTS: [Script; 22] = [
    Script {
        shows: "write through a component shows in the whole",
        lines: &[
            ("struct S a:u32 b:vec3<u32>", "done"),
            (
                "new S storage read_write 0100000000000000000000000000000002000000030000000400000000000000",
                "&0",
            ),
            ("member &0 b", "&1"),
            ("index &1 2", "&2"),
            ("write &2 09000000", "done"),
            ("read &1", "vec3(2u, 3u, 9u)"),
            (
                "dump &0",
                "0100000000000000000000000000000002000000030000000900000000000000",
            ),
        ],
    },
    Script {
        shows: "write through the whole shows in a component",
        lines: &[
            ("struct S a:u32 b:vec3<u32>", "done"),
            (
                "new S storage read_write 0100000000000000000000000000000002000000030000000400000000000000",
                "&0",
            ),
            ("member &0 b", "&1"),
            ("index &1 2", "&2"),
            ("write &1 070000000700000007000000", "done"),
            ("read &2", "7u"),
            ("member &0 a", "&3"),
            ("read &3", "1u"),
        ],
    },
    Script {
        shows: "a write only handle is written and not read",
        lines: &[
            ("read &0", "refused NoHandle"),
            ("new S storage read 00", "refused BadLine"),
            ("new vec3<u32> storage write 010000000200000003000000", "&0"),
            ("read &0", "refused NotRead"),
            ("index &0 0", "refused NotRead"),
            ("write &0 01", "refused NoValue"),
            ("write &0 040000000500000006000000", "done"),
        ],
    },
    Script {
        shows: "padding and bytes past the size are not kept",
        lines: &[
            ("struct S a:u32 b:vec3<u32>", "done"),
            (
                "new S storage read_write 01000000ffffffffffffffffffffffff020000000300000004000000ffffffff",
                "&0",
            ),
            (
                "dump &0",
                "0100000000000000000000000000000002000000030000000400000000000000",
            ),
            ("read &0", "S(1u, vec3(2u, 3u, 4u))"),
            ("new u32 storage read ffffffff0000", "&1"),
            ("dump &1", "ffffffff"),
        ],
    },
    Script {
        shows: "cells of one structure are apart",
        lines: &[
            ("struct S a:u32 b:vec2<u32>", "done"),
            ("struct T a:u32 b:vec2<i32>", "done"),
            ("new S storage read 01000000", "refused NoValue"),
            (
                "new S storage read_write 01000000000000000200000003000000",
                "&0",
            ),
            ("new S storage read 01000000", "refused NoValue"),
            (
                "new S storage read_write 04000000000000000500000006000000",
                "&1",
            ),
            (
                "new S storage read_write 07000000000000000800000009000000",
                "&2",
            ),
            ("new T storage read 0700000000000000f8fffffff7ffffff", "&3"),
            (
                "new array<S> storage read 01000000000000000200000003000000",
                "&4",
            ),
            ("member &1 b", "&5"),
            ("write &5 0a0000000b000000", "done"),
            ("read &0", "S(1u, vec2(2u, 3u))"),
            ("read &1", "S(4u, vec2(10u, 11u))"),
            ("read &2", "S(7u, vec2(8u, 9u))"),
            ("read &3", "T(7u, vec2(-8i, -9i))"),
            ("read &4", "array(S(1u, vec2(2u, 3u)))"),
        ],
    },
    Script {
        shows: "an odd number of digits is a bad line",
        lines: &[
            ("new u32 storage read_write 00000000", "&0"),
            ("write &0 0", "refused BadLine"),
            ("copy &0 &0", "done"),
        ],
    },
    Script {
        shows: "each case is refused by its name",
        lines: &[
            ("struct S a:u32 b:vec2<u32>", "done"),
            (
                "new S storage read_write 01000000000000000200000003000000",
                "&0",
            ),
            ("new u32 uniform read 05000000", "&1"),
            ("new u32 private write 06000000", "&2"),
            ("read &2", "refused NotRead"),
            ("dump &2", "refused NotRead"),
            ("member &2 a", "refused NotRead"),
            ("index &2 0", "refused NotRead"),
            ("write &1 07000000", "refused NotWrite"),
            ("member &0 c", "refused Component"),
            ("member &1 a", "refused Component"),
            ("index &0 0", "refused NotIndexable"),
            ("index &1 0", "refused NotIndexable"),
            ("member &0 b", "&3"),
            ("index &3 1", "&4"),
            ("index &3 2", "refused OutOfBounds"),
            ("index &3 9999999999", "refused OutOfBounds"),
            ("read &4", "3u"),
            ("dump &1", "05000000"),
        ],
    },
    Script {
        shows: "no handle is found before the bytes are looked at",
        lines: &[
            ("write &0 00", "refused NoHandle"),
            ("write &0 0", "refused BadLine"),
            ("dump &0", "refused NoHandle"),
            ("index &0 0", "refused NoHandle"),
            ("member &0 a", "refused NoHandle"),
            ("write &x 00000000", "refused BadLine"),
        ],
    },
    Script {
        shows: "too few bytes are found before the access",
        lines: &[
            ("new vec2<u32> storage read 0100000002000000", "&0"),
            ("write &0 01000000020000", "refused NoValue"),
            ("write &0 0300000004000000", "refused NotWrite"),
            ("read &0", "vec2(1u, 2u)"),
        ],
    },
    Script {
        shows: "bytes that lack the tail padding are no value",
        lines: &[
            ("struct S a:vec2<u32> b:u32", "done"),
            (
                "new S storage read 010000000200000003000000",
                "refused NoValue",
            ),
            ("new S storage read 01000000020000000300000000000000", "&0"),
            ("dump &0", "01000000020000000300000000000000"),
        ],
    },
    Script {
        shows: "a refused line leaves all as it was",
        lines: &[
            ("new vec2<u32> storage read_write 0100000002000000", "&0"),
            ("index &0 2", "refused OutOfBounds"),
            ("write &0 00", "refused NoValue"),
            ("nonsense", "refused BadLine"),
            ("index &0 1", "&1"),
            ("struct S a:T", "refused BadLine"),
            ("struct S a:u32", "done"),
            ("read &1", "2u"),
        ],
    },
    Script {
        shows: "a runtime sized array keeps its length",
        lines: &[
            (
                "new array<u32> storage read_write 0a0000000b0000000c000000",
                "&0",
            ),
            ("index &0 2", "&1"),
            ("index &0 3", "refused OutOfBounds"),
            ("write &0 0100000002000000", "refused WriteRefType"),
            ("read &1", "12u"),
            ("dump &0", "0a0000000b0000000c000000"),
            ("write &0 010000000200000003000000ff", "done"),
            ("read &0", "array(1u, 2u, 3u)"),
        ],
    },
    Script {
        shows: "what one handle names is copied to another",
        lines: &[
            ("new array<u32> storage read_write 0100000002000000", "&0"),
            (
                "new array<u32> storage read_write 030000000400000005000000",
                "&1",
            ),
            ("copy &0 &1", "refused WriteRefType"),
            ("index &1 2", "&2"),
            ("index &0 0", "&3"),
            ("copy &2 &3", "done"),
            ("dump &0", "0500000002000000"),
        ],
    },
    Script {
        shows: "copy is refused as the read then as the write",
        lines: &[
            ("new u32 storage read 01000000", "&0"),
            ("new u32 storage write 02000000", "&1"),
            ("new i32 storage read_write 03000000", "&2"),
            ("copy &0", "refused BadLine"),
            ("copy &0 1", "refused BadLine"),
            ("copy &0 &1 &2", "refused BadLine"),
            ("copy &0 &3", "refused NoHandle"),
            ("copy &3 &0", "refused NoHandle"),
            ("copy &1 &0", "refused NotRead"),
            ("copy &2 &0", "refused NotWrite"),
            ("copy &0 &2", "refused WriteRefType"),
            ("copy &0 &1", "done"),
            ("dump &2", "03000000"),
        ],
    },
    Script {
        shows: "a write to a member leaves its padding",
        lines: &[
            ("struct S @size(16)a:u32 b:u32", "done"),
            (
                "new S storage read_write 01000000ffffffffffffffffffffffff02000000",
                "&0",
            ),
            ("dump &0", "0100000000000000000000000000000002000000"),
            ("member &0 a", "&1"),
            ("write &1 05000000", "done"),
            ("dump &0", "0500000000000000000000000000000002000000"),
            ("read &0", "S(5u, 2u)"),
        ],
    },
    Script {
        shows: "an alignment moves a member",
        lines: &[
            ("struct S a:u32 @align(16)b:u32", "done"),
            (
                "new S storage read_write 0100000000000000000000000000000002000000000000000000000000000000",
                "&0",
            ),
            ("read &0", "S(1u, 2u)"),
            (
                "dump &0",
                "0100000000000000000000000000000002000000000000000000000000000000",
            ),
        ],
    },
    Script {
        shows: "columns of a matrix are vectors",
        lines: &[
            (
                "new mat2x3<u32> storage read_write 0100000002000000030000000000000004000000050000000600000000000000",
                "&0",
            ),
            ("read &0", "mat2x3(vec3(1u, 2u, 3u), vec3(4u, 5u, 6u))"),
            ("index &0 1", "&1"),
            ("index &1 0", "&2"),
            ("write &2 09000000", "done"),
            ("read &1", "vec3(9u, 5u, 6u)"),
            (
                "dump &0",
                "0100000002000000030000000000000009000000050000000600000000000000",
            ),
            ("index &0 2", "refused OutOfBounds"),
            ("member &0 x", "refused Component"),
        ],
    },
    Script {
        shows: "numbers of 64 bits are signed and unsigned",
        lines: &[
            (
                "new vec2<i64> storage read ffffffffffffffff0200000000000000",
                "&0",
            ),
            ("read &0", "vec2(-1li, 2li)"),
            ("new u64 storage read ffffffffffffffff", "&1"),
            ("read &1", "18446744073709551615lu"),
            ("new i32 storage read fbffffff", "&2"),
            ("read &2", "-5i"),
        ],
    },
    Script {
        shows: "elements of three 64 bit integers stand 32 bytes apart",
        lines: &[
            (
                "new array<vec3<i64>> storage read_write 01000000000000000200000000000000030000000000000000000000000000000400000000000000050000000000000006000000000000000000000000000000",
                "&0",
            ),
            ("index &0 1", "&1"),
            ("read &1", "vec3(4li, 5li, 6li)"),
        ],
    },
    Script {
        shows: "a structure may end in a runtime sized array",
        lines: &[
            ("struct S a:atomic<i32> b:array<u32>", "done"),
            ("new S storage read_write ffffffff05000000060000", "&0"),
            ("read &0", "S(atomic<i32>(-1i), array(5u))"),
            ("new S storage read_write ffffffff0500000006000000", "&1"),
            ("read &1", "S(atomic<i32>(-1i), array(5u, 6u))"),
            ("member &1 a", "&2"),
            ("index &2 0", "refused NotIndexable"),
            ("write &2 02000000", "done"),
            ("member &1 b", "&3"),
            ("index &3 1", "&4"),
            ("copy &4 &3", "refused WriteRefType"),
            ("dump &1", "020000000500000006000000"),
            ("new array<S,2> storage read 00000000", "refused NoValue"),
        ],
    },
    Script {
        shows: "hostile type words and attributes are refused",
        lines: &[
            (
                "new array<array<array<array<array<array<array<array<array<array<array<array<array<array<array<array<array<u32>>>>>>>>>>>>>>>>> storage read 01000000",
                "refused BadLine",
            ),
            ("struct S @align(4)@align(8)a:u32", "refused BadLine"),
            ("struct S a:u32", "done"),
            ("struct S a:u32", "refused BadLine"),
            ("struct E @align(3)a:u32", "done"),
            ("new E storage read 01000000", "refused NoValue"),
        ],
    },
    Script {
        shows: "hostile numbers are refused",
        lines: &[
            ("new vec2<u32> storage read_write 0100000002000000", "&0"),
            ("read &4294967296", "refused NoHandle"),
            ("read &99999999999", "refused BadLine"),
            ("read 0", "refused BadLine"),
            ("index &0 9999999999", "refused OutOfBounds"),
            ("read &0", "vec2(1u, 2u)"),
        ],
    },
];

#[test]
fn each_line_of_a_script_is_answered(rt: HostRuntime) {
    assert_scripts(&rt, rt.alloc(), &SCRIPTS);
}

#[test]
fn empty_input_prints_nothing(rt: HostRuntime) {
    assert_prints(&rt, rt.alloc(), b"", b"");
}
