//! Values with the bytes of others.

use crate::tests::builtins::Word::{Signed, Unsigned};
use crate::tests::builtins::assert_casts;

#[test]
fn signed_numbers_with_the_bytes_of_others(rt: HostRuntime) {
    let alloc = rt.alloc();
    let rows = "\
        4294967295u -> -1i
        -1i -> -1i
        -1 -> -1i
        4294967295 -> ConvOverflow 4294967295, i32";
    assert_casts(&rt, alloc, (0, Signed), rows);
    // out of range before unequal lengths
    let rows = "\
        vec2(1, 4294967295) -> ConvOverflow 4294967295, i32
        vec2(1, 2) -> Builtin
        vec2(1u, 2u) -> Builtin
        true -> Builtin";
    assert_casts(&rt, alloc, (0, Signed), rows);
}

#[test]
fn unsigned_numbers_with_the_bytes_of_others(rt: HostRuntime) {
    let alloc = rt.alloc();
    let rows = "\
        -1i -> 4294967295u
        4294967295 -> 4294967295u
        -1 -> ConvOverflow -1, u32
        4294967296 -> ConvOverflow 4294967296, u32
        -1li -> Builtin
        1lu -> Builtin
        matrix -> Builtin";
    assert_casts(&rt, alloc, (0, Unsigned), rows);
}

#[test]
fn vectors_of_signed_numbers_with_the_bytes_of_others(rt: HostRuntime) {
    let alloc = rt.alloc();
    let rows = "\
        -1li -> vec2(-1i, -1i)
        4294967296lu -> vec2(0i, 1i)
        vec2(1u, 4294967295u) -> vec2(1i, -1i)";
    assert_casts(&rt, alloc, (2, Signed), rows);
    let rows = "\
        vec3(1, -1, 0) -> vec3(1i, -1i, 0i)";
    assert_casts(&rt, alloc, (3, Signed), rows);
    let rows = "\
        vec2(1li, -1li) -> vec4(1i, 0i, -1i, -1i)
        vec4(1u, 2u, 3u, 4u) -> vec4(1i, 2i, 3i, 4i)";
    assert_casts(&rt, alloc, (4, Signed), rows);
    // the first number that is out of range, also where the lengths are unequal
    let rows = "\
        vec2(1, 4294967296) -> ConvOverflow 4294967296, i32
        vec2(4294967297, 4294967296) -> ConvOverflow 4294967297, i32
        4294967295 -> ConvOverflow 4294967295, i32
        1 -> Builtin
        vec3(1i, 2i, 3i) -> Builtin
        1i -> Builtin
        vec2(true, true) -> Builtin
        deferred -> Builtin";
    assert_casts(&rt, alloc, (2, Signed), rows);
    let rows = "\
        vec2(1, 4294967296) -> ConvOverflow 4294967296, i32
        vec2(1u, 2u) -> Builtin
        vec2(1li, 2li) -> Builtin";
    assert_casts(&rt, alloc, (3, Signed), rows);
}

#[test]
fn vectors_of_unsigned_numbers_with_the_bytes_of_others(rt: HostRuntime) {
    let alloc = rt.alloc();
    let rows = "\
        -1li -> vec2(4294967295u, 4294967295u)
        vec2(-1i, 1i) -> vec2(4294967295u, 1u)
        vec2(4294967295, 0) -> vec2(4294967295u, 0u)
        vec2(1, -1) -> ConvOverflow -1, u32";
    assert_casts(&rt, alloc, (2, Unsigned), rows);
    let rows = "\
        vec2(1li, -1li) -> vec4(1u, 0u, 4294967295u, 4294967295u)
        vec2(4294967296, -1) -> ConvOverflow 4294967296, u32
        vec2(1u, 2u) -> Builtin";
    assert_casts(&rt, alloc, (4, Unsigned), rows);
    let rows = "\
        structure -> Builtin";
    assert_casts(&rt, alloc, (3, Unsigned), rows);
}
