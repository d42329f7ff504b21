//! Counts of bits, the places of bits, and fields of bits.

use crate::tests::builtins::{
    One, Three, assert_rows_of_insertions, assert_rows_of_one, assert_rows_of_three,
};

#[test]
fn counts_of_bits(rt: HostRuntime) {
    let alloc = rt.alloc();
    let rows = "\
        1 -> 63
        0 -> 64
        vec2(0u, 1u) -> vec2(32u, 31u)
        -1i -> 0i
        1li -> 63li
        true -> Builtin";
    assert_rows_of_one(&rt, alloc, One::CountLeadingZeros, rows);
    let rows = "\
        -1i -> 32i
        vec2(0u, 7u) -> vec2(0u, 3u)
        vec4(1u, 3u, 7u, 4294967295u) -> vec4(1u, 2u, 3u, 32u)
        -1 -> 64
        255lu -> 8lu
        false -> Builtin";
    assert_rows_of_one(&rt, alloc, One::CountOneBits, rows);
    let rows = "\
        0u -> 32u
        vec2(8i, 1i) -> vec2(3i, 0i)
        -2147483648i -> 31i
        0 -> 64
        vec2(0li, 4li) -> vec2(64li, 2li)
        vec2(true, true) -> Builtin";
    assert_rows_of_one(&rt, alloc, One::CountTrailingZeros, rows);
}

#[test]
fn first_leading_bits(rt: HostRuntime) {
    let alloc = rt.alloc();
    let rows = "\
        0u -> 4294967295u
        8u -> 3u
        -1i -> -1i
        -2i -> 0i
        -2147483648i -> 30i
        vec3(0i, 1i, 2147483647i) -> vec3(-1i, 0i, 30i)
        vec2(2147483648u, 1u) -> vec2(31u, 0u)
        8 -> Builtin
        vec2(8, 1) -> Builtin
        8li -> Builtin
        8lu -> Builtin
        true -> Builtin";
    assert_rows_of_one(&rt, alloc, One::FirstLeadingBit, rows);
}

#[test]
fn first_trailing_bits(rt: HostRuntime) {
    let alloc = rt.alloc();
    let rows = "\
        8u -> 3u
        0i -> -1i
        -2147483648i -> 31i
        vec2(0u, 6u) -> vec2(4294967295u, 1u)
        8 -> Builtin
        vec2(8li, 1li) -> Builtin
        vec2(true, true) -> Builtin";
    assert_rows_of_one(&rt, alloc, One::FirstTrailingBit, rows);
}

#[test]
fn reversed_bits(rt: HostRuntime) {
    let alloc = rt.alloc();
    let rows = "\
        1u -> 2147483648u
        1i -> -2147483648i
        vec2(-1i, 2i) -> vec2(-1i, 1073741824i)
        vec3(0u, 2147483648u, 3u) -> vec3(0u, 1u, 3221225472u)
        1 -> Builtin
        vec2(1, 2) -> Builtin
        1li -> Builtin
        true -> Builtin";
    assert_rows_of_one(&rt, alloc, One::ReverseBits, rows);
}

#[test]
fn extracted_bits(rt: HostRuntime) {
    let alloc = rt.alloc();
    let rows = "\
        240u; 4u; 4u -> 15u
        240i; 4u; 4u -> -1i
        4294967295u; 28u; 10u -> 15u
        -1i; 28u; 10u -> -1i
        1u; 40; 5 -> 0u
        7u; 32u; 4294967295u -> 0u
        7u; 0u; 4294967295u -> 7u
        -9i; 0u; 32u -> -9i
        -1i; 3u; 0u -> 0i
        vec2(240u, 1u); 4; 4 -> vec2(15u, 0u)
        vec3(96i, 64i, 16i); 4u; 3u -> vec3(-2i, -4i, 1i)";
    assert_rows_of_three(&rt, alloc, Three::ExtractBits, rows);
}

#[test]
fn refused_fields_of_bits(rt: HostRuntime) {
    let alloc = rt.alloc();
    let rows = "\
        240; 4u; 4u -> Builtin
        vec2(240, 1); 4u; 4u -> Builtin
        240li; 4u; 4u -> Builtin
        240lu; 4u; 4u -> Builtin
        true; 4u; 4u -> Builtin
        vec2(true, true); 4u; 4u -> Builtin
        matrix; 4u; 4u -> Builtin
        240u; 4i; 4u -> Builtin
        240u; 4u; 4i -> Builtin
        240u; -1; 4u -> Builtin
        240u; 4u; 4294967296 -> Builtin
        vec2(240u, 1u); vec2(4u, 4u); 4u -> Builtin
        240u; 4u; true -> Builtin";
    assert_rows_of_three(&rt, alloc, Three::ExtractBits, rows);
}

#[test]
fn inserted_bits(rt: HostRuntime) {
    let alloc = rt.alloc();
    let rows = "\
        0u; 5u; 3u; 2u -> 8u
        255u; 0u; 4u; 32u -> 15u
        0i; -1; 31u; 1u -> -2147483648i
        7u; 0u; 2u; 0u -> 7u
        7u; 4294967295u; 40; 5 -> 7u
        7u; 9u; 0; 4294967295 -> 9u
        -1; 0i; 0; 4 -> -16i
        vec2(0u, 255u); vec2(5u, 0u); 3; 2 -> vec2(8u, 231u)
        vec2(0, 1); vec2(-1i, -1i); 4u; 4u -> vec2(240i, 241i)";
    assert_rows_of_insertions(&rt, alloc, rows);
    // offset and count, then the two values
    let rows = "\
        0u; 5u; 3i; 2u -> Builtin
        0u; 5u; 3u; 2i -> Builtin
        0u; 5u; -1; 2u -> Builtin
        0u; 5i; 3u; 2u -> Builtin
        0; 5; 3u; 2u -> Builtin
        -1; 5u; 3u; 2u -> Builtin
        0li; 5li; 3u; 2u -> Builtin
        true; true; 3u; 2u -> Builtin
        vec2(true, true); vec2(true, true); 3u; 2u -> Builtin
        vec2(0u, 0u); 5u; 3u; 2u -> Builtin
        vec2(0u, 0u); vec3(5u, 5u, 5u); 3u; 2u -> Builtin
        matrix; matrix; 3u; 2u -> Builtin";
    assert_rows_of_insertions(&rt, alloc, rows);
}
