//! Where reading goes on behind a fault, and what is told once.

use crate::tests::texts::assert_all_declare;

const MEMBERS: [(&str, &str); 16] = [
    (
        "struct S { a: u32, b: , c: u32 } const N = 1;",
        "const N; 1:23 expected a type or a value",
    ),
    (
        "struct S { a: u32, b: , c: u32 } struct T { d: , e: f32 } const N = 1;",
        "const N; 1:23 expected a type or a value; 1:48 expected a type or a value",
    ),
    (
        "struct S { a: } @group(1) @binding(2) var<uniform> u: u32;",
        "var u; 1:15 expected a type or a value",
    ),
    (
        "struct S { a: u32; b: u32; }; const N = 1;",
        "const N; 1:18 expected `}`",
    ),
    (
        "struct S { a: u32 b: u32 } const N = 1;",
        "const N; 1:19 expected `}`",
    ),
    (
        "struct S { a: u32,, b: u32 } const N = 1;",
        "const N; 1:19 expected a name",
    ),
    (
        "struct S { a: u32, : u32 } const N = 1;",
        "const N; 1:20 expected a name",
    ),
    (
        "struct S { a: u32, @align() b: u32 } const N = 1;",
        "const N; 1:27 expected a type or a value",
    ),
    (
        "struct S { a: u32, b: , const: u32, var: } const N = 1;",
        "const N; 1:23 expected a type or a value",
    ),
    (
        "struct S { a: , @align(16) b: u33, c: array<u32, } const N = 1;",
        "const N; 1:15 expected a type or a value",
    ),
    (
        "struct S { a: { b: u32 }, c: } const N = 1;",
        "const N; 1:15 expected a type or a value",
    ),
    (
        "struct S { a: ) b: ] } const N = 1;",
        "const N; 1:15 expected a type or a value",
    ),
    (
        "struct S {\n  a: ,\nconst N = 1;",
        "const N; 2:6 expected a type or a value",
    ),
    (
        "struct S {\n  a: u32\nconst N = 1;",
        "const N; 3:1 expected `}`",
    ),
    (
        "struct S {\n  a: u32,\nconst N = 1;",
        "const N; 3:1 expected `}`",
    ),
    (
        "struct S {\n  a: u32,\n@group(1) @binding(2) var<uniform> u: u32;",
        "var u; 3:1 expected `}`",
    ),
];

const OTHERS: [(&str, &str); 8] = [
    ("struct S {} const N = 1;", "const N; 1:11 expected a name"),
    (
        "struct S { , } const N = 1;",
        "const N; 1:12 expected a name",
    ),
    (
        "struct S { @align(16) @align(32) a: u32 } const N = 1;",
        "const N; 1:24 this name is there already",
    ),
    (
        "@group(0) @binding(1) @group(1) var<uniform> u: u32; const N = 1;",
        "const N; 1:24 this name is there already",
    ),
    (
        "@group(0 var<uniform> u: u32; const N = 1;",
        "const N; 1:10 expected `)`",
    ),
    (
        "const N = 1 @group(1) @binding(2) var<uniform> u: u32;",
        "var u; 1:13 expected `;`",
    ),
    ("const N: u32; const M = 2;", "const M; 1:13 expected `=`"),
    (
        "fn (a: i32) -> @location(0) vec4f { return v; } const N = 1;",
        "const N; 1:4 expected a name",
    ),
];

const BRACKETS: [(&str, &str); 6] = [
    (
        "fn f() { if (a) { return; } const N = 1;",
        "1:41 expected `}`",
    ),
    ("fn f(a: i32 { return; } const N = 1;", "1:37 expected `)`"),
    (
        "const_assert (1 < 2; const N = 1;",
        "const N; 1:20 expected `)`",
    ),
    (
        "@workgroup_size(64 fn f() { } const N = 1;",
        "const N; 1:20 expected `)`",
    ),
    (
        "struct S { @location(0 a: u32 } const N = 1;",
        "const N; 1:33 expected `)`",
    ),
    (
        "@fragment fn f(@location(0) a: array<i32, 2>) { { } } const N = 1;",
        "fn f; const N",
    ),
];

#[test]
fn faults_of_members_are_told_once(rt: HostRuntime) {
    assert_all_declare(&rt, rt.alloc(), &MEMBERS);
}

#[test]
fn faults_of_declarations_are_told_once(rt: HostRuntime) {
    assert_all_declare(&rt, rt.alloc(), &OTHERS);
}

#[test]
fn brackets_of_what_is_skipped_are_closed(rt: HostRuntime) {
    assert_all_declare(&rt, rt.alloc(), &BRACKETS);
}
