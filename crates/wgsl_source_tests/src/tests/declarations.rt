//! Declarations as shaders have them.

use crate::tests::texts::assert_all_declare;

const ROWS: [(&str, &str); 17] = [
    ("", ""),
    ("struct S { a: u32, b: vec3<u32> }", "struct S(a, b)"),
    ("struct S { a: u32, b: vec3<u32>, };", "struct S(a, b)"),
    (
        "struct B { a: A } struct A { x: f32 }",
        "struct B(a); struct A(x)",
    ),
    (
        "struct S { @builtin(position) a: vec4f, @location(0) b: vec2h }",
        "struct S(a, b)",
    ),
    (
        "alias V = vec3<f32>; struct S { v: V }",
        "alias V; struct S(v)",
    ),
    (
        "override n: u32 = 3; override m: f32;",
        "override n; override m",
    ),
    (
        "@id(7) override n: u32; const M = n + 1; struct S { a: array<u32, n>, }",
        "override n; const M; struct S(a)",
    ),
    (
        "override n = 4; var<workgroup> w: array<f32, n>; alias A = array<u32, n * 2>;",
        "override n; var w; alias A",
    ),
    ("alias A = array<vec4<f32>>;", "alias A"),
    (
        "@group(0) @binding(1) var<storage, read_write> data: array<u32>;",
        "var data",
    ),
    (
        "var<uniform> u: mat2x2h; var<private> p: i32 = 1;",
        "var u; var p",
    ),
    (
        "@group(0) @binding(0) var t: texture_2d<f32>; var s: sampler;",
        "var t; var s",
    ),
    (
        "enable f16; fn f(a: i32) -> i32 { if (a < 1) { return 2; } return a; } const N = 1;",
        "fn f; const N",
    ),
    (
        "// struct A {}\n/* struct B { /* inner */ x */ const N = 1;",
        "const N",
    ),
    (
        "const_assert 1 < 2; alias L = vec2<i64>; alias U = u64;",
        "alias L; alias U",
    ),
    (
        "struct S { @size(12) a: vec3<u32>, @size(13,) b: vec3<u32> }",
        "struct S(a, b)",
    ),
];

#[test]
fn declarations_have_their_names(rt: HostRuntime) {
    assert_all_declare(&rt, rt.alloc(), &ROWS);
}
