//! Lines and names that are for a preprocessor, and imports: each is told once, and what stands around it is read.

use crate::tests::texts::assert_all_declare;

const LINES: [(&str, &str); 10] = [
    (
        "#import a::b\nconst N = 1;",
        "const N; 1:1 WGSL has no preprocessor, and this line is passed over",
    ),
    (
        "\u{feff} \t#define A (1;\r\nconst N = 1;",
        "const N; 1:4 WGSL has no preprocessor, and this line is passed over",
    ),
    (
        "struct S {\n  a: u32,\n  #ifdef B\n  b: f32,\n  #endif\n}",
        "struct S(a, b); 3:3 WGSL has no preprocessor, and this line is passed over; 5:3 WGSL has no preprocessor, and this line is passed over",
    ),
    (
        "alias A = array<u32,\n#else\n4>;",
        "alias A; 2:1 WGSL has no preprocessor, and this line is passed over",
    ),
    (
        "fn f() {\n#if A == {\n  return;\n}\nconst N = 1;",
        "fn f; const N; 2:1 WGSL has no preprocessor, and this line is passed over",
    ),
    (
        "const N = 1; // a\n#undef",
        "const N; 2:1 WGSL has no preprocessor, and this line is passed over",
    ),
    ("/*\n#define A\n*/ const N = 1;", "const N"),
    ("// #define A\nconst N = 1;", "const N"),
    (
        "#a /* b\nconst N = 1;",
        "const N; 1:1 WGSL has no preprocessor, and this line is passed over",
    ),
    (
        "const M = 1; #define A\nconst N = 1;",
        "const M; const N; 1:14 expected a declaration",
    ),
];

const NAMES: [(&str, &str); 5] = [
    (
        "@group(#{A}) @binding(1) var<uniform> u: u32;",
        "var u; 1:8 this is no WGSL: a preprocessor has to put a text here",
    ),
    (
        "alias A = array<u32, #{N_1}>; const N = 1;",
        "alias A; const N; 1:22 this is no WGSL: a preprocessor has to put a text here",
    ),
    (
        "const N = 2 * #{N} + 1;",
        "const N; 1:15 this is no WGSL: a preprocessor has to put a text here",
    ),
    (
        "struct S { a: #{T}, @size(#{N}) b: u32 }",
        "struct S(a, b); 1:15 this is no WGSL: a preprocessor has to put a text here; 1:27 this is no WGSL: a preprocessor has to put a text here",
    ),
    (
        "fn f() -> #{T} { return #{A; }",
        "fn f; 1:11 this is no WGSL: a preprocessor has to put a text here; 1:25 this is no WGSL: a preprocessor has to put a text here",
    ),
];

const IMPORTS: [(&str, &str); 4] = [
    (
        "import package::lighting::{Light}; const N = 1;",
        "const N; 1:1 imports are not followed",
    ),
    (
        "import super::x as y;\nimport a::{b, c::{d, e}};\nconst N = 1;",
        "const N; 1:1 imports are not followed; 2:1 imports are not followed",
    ),
    (
        "import a::b struct S { a: u32 }",
        "struct S(a); 1:1 imports are not followed",
    ),
    ("import", "1:1 imports are not followed"),
];

#[test]
fn lines_for_a_preprocessor_are_told_and_passed_over(rt: HostRuntime) {
    assert_all_declare(&rt, rt.alloc(), &LINES);
}

#[test]
fn names_for_a_preprocessor_are_told_and_read(rt: HostRuntime) {
    assert_all_declare(&rt, rt.alloc(), &NAMES);
}

#[test]
fn imports_are_told_and_passed_over(rt: HostRuntime) {
    assert_all_declare(&rt, rt.alloc(), &IMPORTS);
}
