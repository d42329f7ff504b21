//! Magnitudes, signs, the lesser and the greater, sums of products and matrices.

use crate::tests::builtins::{
    One, Three, Two, assert_rows_of_one, assert_rows_of_three, assert_rows_of_two,
};
use wgsl_rules::ShaderStage::{Const, Exec, Override};

#[test]
fn magnitudes(rt: HostRuntime) {
    let alloc = rt.alloc();
    let rows = "\
        -3i -> 3i
        vec2(-3i, -2147483648i) -> vec2(3i, -2147483648i)
        7u -> 7u
        vec4(0u, 1u, 4294967295u, 2u) -> vec4(0u, 1u, 4294967295u, 2u)
        -5 -> 5
        vec3(-9223372036854775808, -1, 1) -> vec3(-9223372036854775808, 1, 1)
        -5li -> 5li
        -9223372036854775808li -> -9223372036854775808li
        5lu -> 5lu
        true -> Builtin
        vec2(true, false) -> Builtin";
    assert_rows_of_one(&rt, alloc, One::Abs, rows);
}

#[test]
fn signs(rt: HostRuntime) {
    let alloc = rt.alloc();
    let rows = "\
        vec2(-3i, 0i) -> vec2(-1i, 0i)
        2147483647i -> 1i
        vec2(0u, 9u) -> vec2(0u, 1u)
        4294967295u -> 1u
        5 -> 1
        vec3(-9223372036854775808, 0, 9223372036854775807) -> vec3(-1, 0, 1)
        vec2(-9li, 9li) -> vec2(-1li, 1li)
        0lu -> 0lu
        false -> Builtin
        vec2(true, false) -> Builtin";
    assert_rows_of_one(&rt, alloc, One::Sign, rows);
}

#[test]
fn rows_become_columns(rt: HostRuntime) {
    let alloc = rt.alloc();
    let rows = "\
        tall -> mat3x2(vec2(1u, 4u), vec2(2u, 5u), vec2(3u, 6u))
        matrix -> mat2x2(vec2(1u, 3u), vec2(2u, 4u))
        vec2(1u, 2u) -> Builtin
        1u -> Builtin
        true -> Builtin";
    assert_rows_of_one(&rt, alloc, One::Transpose, rows);
}

#[test]
fn the_lesser_and_the_greater(rt: HostRuntime) {
    let alloc = rt.alloc();
    let rows = "\
        1i; 2 -> 1i
        2; 1i -> 1i
        vec2(1i, 5i); vec2(3i, 4i) -> vec2(1i, 4i)
        4294967295u; 1u -> 1u
        -2; 3 -> -2
        -5li; 3li -> -5li";
    assert_rows_of_two(&rt, alloc, Two::Min, rows);
    let rows = "\
        vec2(1i, 5i); vec2(3i, 4i) -> vec2(3i, 5i)
        vec2(-1i, -5i); vec2(-3i, -4i) -> vec2(-1i, -4i)
        vec2(1, 5); vec2(3u, 4u) -> vec2(3u, 5u)
        vec3(-9223372036854775808, 0, 1); vec3(9223372036854775807, -1, 1) -> vec3(9223372036854775807, 0, 1)";
    assert_rows_of_two(&rt, alloc, Two::Max, rows);
    // no common type, or a number that is out of its range
    let rows = "\
        1li; 1 -> Builtin
        1u; 1i -> Builtin
        vec2(1i, 2i); 1i -> Builtin
        4294967295; 1i -> Builtin
        vec2(true, false); vec2(true, true) -> Builtin
        true; 1i -> Builtin";
    assert_rows_of_two(&rt, alloc, Two::Min, rows);
    let rows = "\
        vec2(1i, 2i); vec3(1i, 2i, 3i) -> Builtin
        vec2(1u, 1u); vec2(1, -1) -> Builtin
        true; false -> Builtin";
    assert_rows_of_two(&rt, alloc, Two::Max, rows);
}

#[test]
fn sums_of_products(rt: HostRuntime) {
    let alloc = rt.alloc();
    let rows = "\
        vec2(3i, 4i); vec2(5i, 6i) -> 39i
        vec4(1u, 2u, 3u, 4u); vec4(1u, 1u, 1u, 1u) -> 10u
        vec2(2147483647i, 1i); vec2(1i, 1i) -> -2147483648i
        vec2(2li, 3li); vec2(5li, -7li) -> -11li
        vec2(9223372036854775807, 1); vec2(1, 1) -> AddOverflow";
    assert_rows_of_two(&rt, alloc, Two::Dot(Const), rows);
    let rows = "\
        vec2(3, 4); vec2(5u, 6u) -> 39u
        vec2(9223372036854775807, 1); vec2(2, 1) -> MulOverflow";
    assert_rows_of_two(&rt, alloc, Two::Dot(Exec), rows);
    let rows = "\
        vec3(1u, 2u, 3u); vec3(4, 5, 6) -> 32u";
    assert_rows_of_two(&rt, alloc, Two::Dot(Override), rows);
    // all products come first, then their sum from the left
    let rows = "\
        vec3(9223372036854775807, 1, 2); vec3(1, 1, 9223372036854775807) -> MulOverflow";
    assert_rows_of_two(&rt, alloc, Two::Dot(Exec), rows);
    let rows = "\
        vec3(9223372036854775807, 1, -1); vec3(1, 1, 1) -> AddOverflow
        vec3(9223372036854775807, -1, 1); vec3(1, 1, 1) -> 9223372036854775807
        vec2(true, true); vec2(true, true) -> Binary * bool, bool";
    assert_rows_of_two(&rt, alloc, Two::Dot(Const), rows);
    // no common type, or no vectors
    let rows = "\
        vec2(true, true); vec2(5u, 6u) -> Builtin
        vec2(3i, 4i); vec2(5u, 6u) -> Builtin
        vec2(3u, 4u); vec3(5u, 6u, 7u) -> Builtin
        vec2(4294967296, 4); vec2(5u, 6u) -> Builtin
        vec2(3u, 4u); 5u -> Builtin
        3i; 4i -> Builtin";
    assert_rows_of_two(&rt, alloc, Two::Dot(Const), rows);
}

#[test]
fn clamped_values(rt: HostRuntime) {
    let alloc = rt.alloc();
    let rows = "\
        300; 0i; 255i -> 255i
        -7i; 0; 255 -> 0i
        7i; 0; 255 -> 7i
        1; 2; 3u -> 2u
        1; 2; 3 -> 2
        9li; 2li; 3li -> 3li
        vec2(-5i, 9i); vec2(0i, 0i); vec2(3i, 3i) -> vec2(0i, 3i)
        vec2(5, 9); vec2(6u, 6u); vec2(7, 7) -> vec2(6u, 7u)";
    assert_rows_of_three(&rt, alloc, Three::Clamp, rows);
    // the lesser of high and the greater of e and low
    let rows = "\
        5u; 10u; 3u -> 3u
        1u; 10u; 3u -> 3u
        1i; 2u; 3u -> Builtin
        1u; 2i; 3u -> Builtin
        1u; 2u; 3i -> Builtin
        1u; -2; 3u -> Builtin
        vec2(1u, 2u); 1u; 2u -> Builtin
        true; true; true -> Builtin
        vec2(true, true); vec2(true, true); vec2(true, true) -> Builtin
        matrix; matrix; matrix -> Builtin";
    assert_rows_of_three(&rt, alloc, Three::Clamp, rows);
}
