//! What is a line of a script, and what is none.

use crate::tests::{Script, assert_each, assert_scripts, assert_shows};
/// Lines with words that are accepted, and lines beside them.
const SCRIPTS: [Script; 12] = [
    Script {
        shows: "attributes stand before the name",
        lines: &[
            ("struct A @align(16)a:u32", "done"),
            ("struct B @size(8)a:u32 b:u32", "done"),
            ("struct C @align(8)@size(16)a:u32", "done"),
            (
                "struct D @size(16)@align(8)a:u32 b:u32 @align(4)c:A",
                "done",
            ),
            ("struct @align(4) a:u32", "refused BadLine"),
        ],
    },
    Script {
        shows: "each attribute stands at most once",
        lines: &[
            ("struct S @align(4)@align(8)a:u32", "refused BadLine"),
            ("struct S @align(4)@align(4)a:u32", "refused BadLine"),
            ("struct S @size(4)@size(4)a:u32", "refused BadLine"),
            ("struct S @size(4)@align(4)@size(4)a:u32", "refused BadLine"),
            (
                "struct S @align(4)@size(4)@align(4)a:u32",
                "refused BadLine",
            ),
            ("struct S a:u32", "done"),
            ("struct S a:u32", "refused BadLine"),
            ("struct E @align(3)a:u32", "done"),
            ("new E storage read 01000000", "refused NoValue"),
        ],
    },
    Script {
        shows: "attributes reach to 4294967295",
        lines: &[
            ("struct A @align(4294967295)a:u32", "done"),
            ("struct B @align(4294967296)a:u32", "refused BadLine"),
            ("struct B @size(4294967295)a:u32", "done"),
            ("struct C @size(4294967296)a:u32", "refused BadLine"),
            ("struct C @size(9999999999)a:u32", "refused BadLine"),
            ("struct C @align(0)@size(0)a:u32", "done"),
            ("struct D @align(0000000004)@size(0000000016)a:u32", "done"),
            ("struct E @align(00000000004)a:u32", "refused BadLine"),
        ],
    },
    Script {
        shows: "a structure may be named as a type with parts",
        lines: &[
            ("struct array a:u32", "done"),
            ("struct mat2x2 a:array b:array<u32,2>", "done"),
            ("struct atomic a:array<array,2> b:array<mat2x2>", "done"),
            ("new array storage read 05000000", "&0"),
            ("read &0", "array(5u)"),
            ("new array<array> storage read 00", "refused NoValue"),
            ("new mat2x2<u32> storage read 00", "refused NoValue"),
            ("new atomic storage read 00", "refused NoValue"),
            ("new vec2<array> storage read 00", "refused BadLine"),
        ],
    },
    Script {
        shows: "spaces and accesses are the texts of the enumerations",
        lines: &[
            ("new u32 function read 00000000", "&0"),
            ("new u32 private write 00000000", "&1"),
            ("new u32 workgroup read_write 00000000", "&2"),
            ("new u32 uniform read 00000000", "&3"),
            ("new u32 storage read 00000000", "&4"),
            ("new u32 handle read 00000000", "&5"),
            ("new u32 Storage read 00000000", "refused BadLine"),
            ("new u32 push_constant read 00000000", "refused BadLine"),
            ("new u32 storage readwrite 00000000", "refused BadLine"),
            ("new u32 storage READ 00000000", "refused BadLine"),
        ],
    },
    Script {
        shows: "a member name that is no name is a bad line",
        lines: &[
            ("struct S a:u32", "done"),
            ("new S storage read 01000000", "&0"),
            ("member &0 1x", "refused BadLine"),
            ("member &0 a-b", "refused BadLine"),
            ("member &0 _1", "refused Component"),
            ("member &0 a", "&1"),
        ],
    },
    Script {
        shows: "numbers have 1 to 10 digits",
        lines: &[
            ("new vec2<u32> storage read 0100000002000000", "&0"),
            ("read &00", "vec2(1u, 2u)"),
            ("read &0000000000", "vec2(1u, 2u)"),
            ("read &00000000000", "refused BadLine"),
            ("read &4294967296", "refused NoHandle"),
            ("read &9999999999", "refused NoHandle"),
            ("read &10000000000", "refused BadLine"),
            ("index &0 01", "&1"),
            ("index &0 0000000001", "&2"),
            ("index &0 00000000001", "refused BadLine"),
            ("index &0 4294967296", "refused OutOfBounds"),
            ("read &", "refused BadLine"),
            ("read &+0", "refused BadLine"),
            ("read &-0", "refused BadLine"),
            ("read 0", "refused BadLine"),
            ("index &0 +1", "refused BadLine"),
            ("index &0 1a", "refused BadLine"),
        ],
    },
    Script {
        shows: "only the names of scalars are barred",
        lines: &[
            ("struct i32 a:u32", "refused BadLine"),
            ("struct u32 a:u32", "refused BadLine"),
            ("struct i64 a:u32", "refused BadLine"),
            ("struct u64 a:u32", "refused BadLine"),
            ("struct vec3 a:u32", "done"),
            ("struct array a:vec3 b:vec3<u32>", "done"),
            ("struct atomic a:u32", "done"),
            ("struct bool a:u32", "done"),
            ("struct struct a:bool", "done"),
            ("struct _ a:u32", "done"),
            ("struct S9_ a:_", "done"),
            ("struct vec3 b:u32", "refused BadLine"),
            ("struct 9S a:u32", "refused BadLine"),
            ("struct S-T a:u32", "refused BadLine"),
            ("struct \u{e9} a:u32", "refused BadLine"),
            ("new vec3 storage read 01000000", "&0"),
            ("read &0", "vec3(1u)"),
            (
                "new array storage read 0100000000000000000000000000000002000000030000000400000000000000",
                "&1",
            ),
            ("read &1", "array(vec3(1u), vec3(2u, 3u, 4u))"),
            ("new struct storage read 05000000", "&2"),
            ("read &2", "struct(bool(5u))"),
            ("new S9_ storage read 05000000", "&3"),
            ("read &3", "S9_(_(5u))"),
            ("new f32 storage read 00000000", "refused BadLine"),
        ],
    },
    Script {
        shows: "two members may have one name",
        lines: &[
            ("struct S a:u32 a:u32", "done"),
            ("new S storage read_write 0100000002000000", "&0"),
            ("member &0 a", "&1"),
            ("read &1", "1u"),
            ("write &1 09000000", "done"),
            ("read &0", "S(9u, 2u)"),
        ],
    },
    Script {
        shows: "members are a name and a type",
        lines: &[
            ("struct", "refused BadLine"),
            ("struct S", "refused BadLine"),
            ("struct S a:vec2<u32> b:vec4<u32>", "done"),
            (
                "struct T a:i32 b:vec2<i64> c:atomic<u32> d:mat3x2<u64> e:array<S,2>",
                "done",
            ),
            ("struct U a:array<u32> b:array<array<T>,4294967295>", "done"),
        ],
    },
    Script {
        shows: "digits of either case write bytes",
        lines: &[
            ("new u32 storage read_write aBcDeF01", "&0"),
            ("dump &0", "abcdef01"),
            ("write &0 0000000g", "refused BadLine"),
            ("write &0 0x000000", "refused BadLine"),
            ("write &0 000000", "refused NoValue"),
            ("write &0 -0000000", "refused BadLine"),
            ("write &0 00000000 00", "refused BadLine"),
            ("write &0", "refused BadLine"),
            ("dump &0", "abcdef01"),
        ],
    },
    Script {
        shows: "a line has just its words",
        lines: &[
            ("new u32 storage read_write 05000000", "&0"),
            ("read", "refused BadLine"),
            ("read &0 &0", "refused BadLine"),
            ("dump", "refused BadLine"),
            ("dump &0 x", "refused BadLine"),
            ("member &0", "refused BadLine"),
            ("member &0 a b", "refused BadLine"),
            ("index &0", "refused BadLine"),
            ("index &0 0 0", "refused BadLine"),
            ("new u32 storage read_write", "refused BadLine"),
            ("new u32 storage read_write 00000000 00", "refused BadLine"),
            ("Read &0", "refused BadLine"),
            ("read&0", "refused BadLine"),
            ("&0", "refused BadLine"),
            ("read &0", "5u"),
        ],
    },
];

/// A line with a star, words to stand in its place, and what each of these lines prints.
struct Words {
    line: &'static str,
    words: &'static [&'static str],
    answer: &'static str,
}

/// Words for types and members, and words beside them.
const WORDS: [Words; 4] = [
    // other words are no members
    Words {
        line: "struct S *",
        words: &[
            "@align(4)",
            "@align(4)a",
            "@align(4):u32",
            "@align(4)a:",
            "a:@align(4)u32",
            "a@align(4):u32",
            "@align()a:u32",
            "@align(4a:u32",
            "@align4)a:u32",
            "@align4a:u32",
            "align(4)a:u32",
            "@Align(4)a:u32",
            "@align (4)a:u32",
            "@align(4) a:u32",
            "@ align(4)a:u32",
            "@align(+4)a:u32",
            "@align(-4)a:u32",
            "@align(4u)a:u32",
            "@align(0x4)a:u32",
            "@align(4,4)a:u32",
            "@align((4))a:u32",
            "@binding(0)a:u32",
            "@(4)a:u32",
            "@a:u32",
            "@@align(4)a:u32",
            "@align(4)@a:u32",
            "@align(4);a:u32",
            "@aligna(4)a:u32",
            "@sizes(4)a:u32",
        ],
        answer: "refused BadLine",
    },
    // each type has its word
    Words {
        line: "new * storage read 00",
        words: &[
            "i32",
            "u32",
            "i64",
            "u64",
            "atomic<i32>",
            "atomic<u32>",
            "vec2<i32>",
            "vec3<u32>",
            "vec4<i64>",
            "vec2<u64>",
            "mat2x2<u32>",
            "mat2x3<i32>",
            "mat2x4<i64>",
            "mat3x2<u64>",
            "mat3x3<u32>",
            "mat3x4<i32>",
            "mat4x2<u32>",
            "mat4x3<u64>",
            "mat4x4<i64>",
            "array<u32>",
            "array<u32,1>",
            "array<u32,0>",
            "array<u32,0000000004>",
            "array<i64,4294967295>",
            "array<vec3<i32>>",
            "array<vec3<i32>,2>",
            "array<mat4x3<u32>,7>",
            "array<atomic<u32>,3>",
            "array<array<u32,2>,3>",
            "array<array<u32,2>>",
            "array<array<u32>,2>",
            "array<array<u32>>",
        ],
        answer: "refused NoValue",
    },
    // other words name no type
    Words {
        line: "new * storage read 00",
        words: &[
            "bool",
            "f32",
            "I32",
            "u16",
            "vec1<u32>",
            "vec5<u32>",
            "vec<u32>",
            "vec22<u32>",
            "vec02<u32>",
            "vec2",
            "vec2<>",
            "vec2<u32",
            "vec2<u32>>",
            "vec2<<u32>",
            "vec2<vec2<u32>>",
            "vec2<S>",
            "vec2<bool>",
            "vec2<u32,2>",
            "vec2u32",
            "Vec2<u32>",
            "mat2<u32>",
            "mat2x1<u32>",
            "mat1x2<u32>",
            "mat5x2<u32>",
            "mat2x5<u32>",
            "mat22<u32>",
            "mat2X2<u32>",
            "mat2x<u32>",
            "matx2<u32>",
            "mat2x2x2<u32>",
            "mat2x2<f32>",
            "mat2x2<vec2<u32>>",
            "mat<u32>",
            "atomic<i64>",
            "atomic<u64>",
            "atomic<vec2<u32>>",
            "atomic<>",
            "atomic",
            "atomic2<u32>",
            "array",
            "array<>",
            "array<,2>",
            "array<u32,>",
            "array<u32,2",
            "array<u32,2>>",
            "array<u32,2,2>",
            "array<u32,+2>",
            "array<u32,-1>",
            "array<u32,2u>",
            "array<u32,4294967296>",
            "array<u32,00000000004>",
            "array<2,u32>",
            "array<bool,2>",
            "array<S,2>",
            "Array<u32>",
            "array2<u32>",
            "array<u32>2",
            "array<array<u32,2>",
            "array<array<u32,2>,3,4>",
            "<u32>",
            "<>",
            ">",
            "S",
            "S<u32>",
            "ptr<u32>",
            "u32<u32>",
            "array<u32;2>",
            ",",
            "@align(4)u32",
        ],
        answer: "refused BadLine",
    },
    // members are a name and a type
    Words {
        line: "struct S *",
        words: &[
            "",
            "a",
            "a:",
            ":u32",
            "a:S",
            "a:u32:u32",
            "a:u32 b",
            "1:u32",
            "a:vec5<u32>",
            "a:vec1<u32>",
            "a:vec2<f32>",
            "a:vec2<u32>>",
            "a:bool",
            "a:array<u32,2",
            "a:atomic<u64>",
            "a: u32",
            "a:u32 a:u32 :u32",
            "\u{e9}:u32",
            "a::u32",
        ],
        answer: "refused BadLine",
    },
];

/// A script of bytes, and the bytes that it prints.
struct Printed {
    shows: &'static str,
    script: &'static [u8],
    wanted: &'static [u8],
}

/// Ends of lines, and what is between words.
const PRINTED: [Printed; 4] = [
    Printed {
        shows: "a carriage return is dropped right before a line feed",
        script: b"new u32 storage read 01000000\r\nread &0\r\n\r\n \r\nread &0\r\r\nread\r &0\nread &0\r",
        wanted: b"&0\n1u\nrefused BadLine\nrefused BadLine\nrefused BadLine\n",
    },
    Printed {
        shows: "the last line may lack its line feed",
        script: b"new u32 storage read 01000000\nread &0",
        wanted: b"&0\n1u\n",
    },
    Printed {
        shows: "spaces alone separate words",
        script: b"  new   u32 storage  read 01000000  \n\n   \nread &0 \n read  &0\nread\t&0\nread &0\t\n\t\nread &0\x0b\n",
        wanted: b"&0\n1u\n1u\nrefused BadLine\nrefused BadLine\nrefused BadLine\nrefused BadLine\n",
    },
    Printed {
        shows: "bytes that are no text are a bad line",
        script: b"new u32 storage read 05000000
read &0 \xff
\xff\xfe
read\xc2\xa0&0
struct \x80 a:u32
\x00
read &0\x00
read &0
",
        wanted: b"&0
refused BadLine
refused BadLine
refused BadLine
refused BadLine
refused BadLine
refused BadLine
5u
",
    },
];

#[test]
fn lines_of_the_grammar_are_carried_out_and_others_are_bad(rt: HostRuntime) {
    assert_scripts(&rt, rt.alloc(), &SCRIPTS);
}

#[test]
fn each_word_for_a_type_or_a_member_is_known_and_no_other(rt: HostRuntime) {
    for row in &WORDS {
        assert_each(&rt, rt.alloc(), row.line, row.words, row.answer);
    }
}

#[test]
fn spaces_and_ends_of_lines_alone_separate_words(rt: HostRuntime) {
    for row in &PRINTED {
        assert_shows(&rt, rt.alloc(), row.shows, row.script, row.wanted);
    }
}
