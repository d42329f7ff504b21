//! Four bytes in a word.

use crate::tests::builtins::{One, Two, assert_rows_of_one, assert_rows_of_two};

#[test]
fn packed_bytes_with_signs(rt: HostRuntime) {
    let alloc = rt.alloc();
    let rows = "\
        vec4(-200i, 200i, -1i, 5i) -> 100649016u
        vec4(1i, 2i, 3i, 4i) -> 67305985u
        vec4(-1, 0, 0, 0) -> 255u
        vec4(2147483648, 0, 0, 0) -> Builtin
        vec4(1u, 2u, 3u, 4u) -> Builtin
        vec2(1i, 2i) -> Builtin
        vec4(1li, 1li, 1li, 1li) -> Builtin
        vec4(true, true, true, true) -> Builtin";
    assert_rows_of_one(&rt, alloc, One::Pack4xI8, rows);
    let rows = "\
        vec4(-200i, 200i, -1i, 5i) -> 100630400u
        vec4(-2147483648, 127, -128, 2147483647) -> 2139127680u
        vec4(1u, 2u, 3u, 4u) -> Builtin
        1i -> Builtin";
    assert_rows_of_one(&rt, alloc, One::Pack4xI8Clamp, rows);
}

#[test]
fn packed_bytes_without_signs(rt: HostRuntime) {
    let alloc = rt.alloc();
    let rows = "\
        vec4(1u, 2u, 3u, 4u) -> 67305985u
        vec4(300u, 255u, 0u, 1u) -> 16842540u
        vec4(1, 0, 0, 255) -> 4278190081u
        vec4(-1, 0, 0, 0) -> Builtin
        vec4(1i, 2i, 3i, 4i) -> Builtin";
    assert_rows_of_one(&rt, alloc, One::Pack4xU8, rows);
    let rows = "\
        vec4(300u, 255u, 0u, 1u) -> 16842751u
        vec4(4294967295, 0, 0, 0) -> 255u
        vec4(1i, 2i, 3i, 4i) -> Builtin
        vec3(1u, 2u, 3u) -> Builtin
        1u -> Builtin";
    assert_rows_of_one(&rt, alloc, One::Pack4xU8Clamp, rows);
}

#[test]
fn unpacked_bytes(rt: HostRuntime) {
    let alloc = rt.alloc();
    let rows = "\
        4294967295u -> vec4(-1i, -1i, -1i, -1i)
        100630400u -> vec4(-128i, 127i, -1i, 5i)
        128 -> vec4(-128i, 0i, 0i, 0i)
        -1 -> Builtin
        true -> Builtin";
    assert_rows_of_one(&rt, alloc, One::Unpack4xI8, rows);
    let rows = "\
        67305985u -> vec4(1u, 2u, 3u, 4u)
        4294967295 -> vec4(255u, 255u, 255u, 255u)
        1i -> Builtin
        1li -> Builtin
        4294967296 -> Builtin
        vec2(1u, 2u) -> Builtin";
    assert_rows_of_one(&rt, alloc, One::Unpack4xU8, rows);
}

#[test]
fn products_of_packed_bytes(rt: HostRuntime) {
    let alloc = rt.alloc();
    let rows = "\
        67305985u; 16843009u -> 10u
        4294967295u; 4294967295u -> 260100u
        128; 128u -> 16384u
        1u; -1 -> Builtin
        true; 1u -> Builtin
        vec2(1u, 2u); vec2(1u, 2u) -> Builtin";
    assert_rows_of_two(&rt, alloc, Two::Dot4U8Packed, rows);
    let rows = "\
        4294967295u; 4294967295u -> 4i
        128u; 128u -> 16384i
        255; 127 -> -127i
        1i; 1u -> Builtin
        1u; 1li -> Builtin";
    assert_rows_of_two(&rt, alloc, Two::Dot4I8Packed, rows);
}
