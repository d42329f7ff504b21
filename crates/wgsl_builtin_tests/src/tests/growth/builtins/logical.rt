//! Whether all or any are true, and a choice between two values.

use crate::tests::builtins::{One, Three, assert_rows_of_one, assert_rows_of_three, assert_three};
use crate::tests::rows::{parted, sample};
use wgsl_samples::operands::b;

#[test]
fn all_or_any_are_true(rt: HostRuntime) {
    let alloc = rt.alloc();
    let rows = "\
        true -> true
        false -> false
        vec2(true, false) -> false
        vec2(true, true) -> true
        vec4(false, false, false, true) -> false
        1i -> Builtin
        1 -> Builtin
        vec2(1i, 1i) -> Builtin";
    assert_rows_of_one(&rt, alloc, One::All, rows);
    let rows = "\
        true -> true
        false -> false
        vec2(true, false) -> true
        vec2(false, false) -> false
        vec4(false, false, false, true) -> true
        1u -> Builtin
        vec2(1u, 1u) -> Builtin";
    assert_rows_of_one(&rt, alloc, One::Any, rows);
}

#[test]
fn selected_numbers(rt: HostRuntime) {
    let alloc = rt.alloc();
    let rows = "\
        1; 2u; false -> 1u
        1; 2u; true -> 2u
        1u; 2; true -> 2u
        1; 2; true -> 2
        true; false; true -> false
        vec2(1i, 2i); vec2(3i, 4i); vec2(true, false) -> vec2(3i, 2i)
        vec2(1i, 2i); vec2(3i, 4i); true -> vec2(3i, 4i)
        vec2(1i, 2i); vec2(3i, 4i); false -> vec2(1i, 2i)
        vec2(1, 2); vec2(3i, 4i); vec2(false, true) -> vec2(1i, 4i)";
    assert_rows_of_three(&rt, alloc, Three::Select, rows);
}

#[test]
fn refused_selections(rt: HostRuntime) {
    let alloc = rt.alloc();
    // no common type, or a number that is out of its range
    let rows = "\
        1i; 2u; true -> Builtin
        -1; 2u; true -> Builtin
        vec2(1i, 2i); vec3(1i, 2i, 3i); true -> Builtin
        1i; vec2(1i, 2i); true -> Builtin
        array; structure; true -> Builtin";
    assert_rows_of_three(&rt, alloc, Three::Select, rows);
    // other conditions, and other counts
    let rows = "\
        1i; 2i; 1i -> Builtin
        1i; 2i; vec2(true, true) -> Builtin
        vec2(1i, 2i); vec2(3i, 4i); vec3(true, true, true) -> Builtin
        vec2(1i, 2i); vec2(3i, 4i); vec2(1i, 0i) -> Builtin
        matrix; matrix; vec2(true, true) -> Builtin
        array; array; vec2(true, true) -> Builtin
        deferred; deferred; true -> Builtin
        deferred; 1u; true -> Builtin
        1u; 2u; deferred -> Builtin";
    assert_rows_of_three(&rt, alloc, Three::Select, rows);
}

#[test]
fn selected_values_of_other_sorts(rt: HostRuntime) {
    let alloc = rt.alloc();
    let rows = "\
        structure -> Pair(1u, vec3(2u, 3u, 4u))
        array -> array(1u, 2u)
        matrix -> mat2x2(vec2(1u, 2u), vec2(3u, 4u))
        atomic 5i -> atomic<i32>(5i)
        pointer -> ptr<storage, i32, read_write>
        reference -> ref<storage, i32, read_write>";
    for line in rows.lines() {
        let (value, wanted) = parted(&rt, line, " -> ");
        let value = sample(&rt, value);
        let (first, second) = ((value, value, b(false)), (value, value, b(true)));
        assert_three(&rt, alloc, line, Three::Select, first, wanted);
        assert_three(&rt, alloc, line, Three::Select, second, wanted);
    }
}
