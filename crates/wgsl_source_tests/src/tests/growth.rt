//! Sources where memory is wanting: they are read as they stand, or not at all.

use crate::tests::asserts::{assert_same, assert_that};
use crate::tests::texts::text_of;
use std::alloc::AllocError;
use wgsl_source::{Declared, Reading};

const SOURCE: &str = "\
const N = 2 + 3;
alias Row = array<vec4<f32>, N>;
struct S { @size(8) a: u32, @align(16) rows: array<Row, 2> }
@group(1) @binding(2) var<storage, read_write> s: array<S>;
fn f() {}
struct T { a: u32, a: u32 }
const M = N / 0;
alias Row = u32;
const K = ;
";

const WANTED: &str = "\
const N; alias Row; struct S(a, rows); var s; fn f; struct T(a, a); const M; alias Row; \
8:7 this name is there already; 9:11 expected a type or a value";

#[test]
fn a_source_is_read_or_memory_is_wanting(rt: HostRuntime) {
    let alloc = rt.alloc();
    let text = match text_of(alloc, SOURCE) {
        Ok(text) => text,
        Err(AllocError) => text_of(alloc, SOURCE).expect(&rt, "one growth alone is refused"),
    };
    assert_same(&rt, text.as_str(), WANTED);
}

const MODULE: &str = "\
const A = B * 2;
const B = 3;
const_assert A == 6;
struct S { @size(16) a: u32, b: vec2<u32> }
const C = 1 & 2 == 3;
";

#[test]
fn a_module_is_shown_or_memory_is_wanting(rt: HostRuntime) {
    let alloc = rt.alloc();
    let reading = match Reading::of_module(alloc, MODULE) {
        Ok(reading) => reading,
        Err(AllocError) => {
            Reading::of_module(alloc, MODULE).expect(&rt, "one growth alone is refused")
        }
    };
    assert_same(&rt, reading.len(), 4);
    assert_same(&rt, reading.order().len(), 4);
    assert_same(&rt, reading.asserts().len(), 1);
    assert_same(&rt, reading.number_of("C"), Some(3));
    assert_same(&rt, reading.faults().len(), 1);
    drop(reading);
}

#[test]
fn an_expression_is_shown_or_memory_is_wanting(rt: HostRuntime) {
    let alloc = rt.alloc();
    let reading = match Reading::of_expression(alloc, "vec2(1, 2).x + 3") {
        Ok(reading) => reading,
        Err(AllocError) => Reading::of_expression(alloc, "vec2(1, 2).x + 3").expect(
            &rt,
            "one growth alone is refused",
        ),
    };
    assert_same(&rt, reading.len(), 1);
    assert_same(&rt, reading.order(), [0].as_slice());
    let steps = match reading.declared(0) {
        Some(Declared::Const { value, .. }) => reading.steps(value).len(),
        _ => 0,
    };
    assert_same(&rt, steps, 6);
    assert_that(&rt, reading.faults().is_empty());
    drop(reading);
}

#[test]
fn uses_are_found_or_memory_is_wanting(rt: HostRuntime) {
    let alloc = rt.alloc();
    let text = "const N = 2; var<private> a: array<u32, N>; fn f() { let b = a; _ = b; }";
    let reading = match Reading::of_module(alloc, text) {
        Ok(reading) => reading,
        Err(AllocError) => {
            Reading::of_module(alloc, text).expect(&rt, "one growth alone is refused")
        }
    };
    let uses = match reading.uses(alloc) {
        Ok(uses) => uses,
        Err(AllocError) => reading
            .uses(alloc)
            .expect(&rt, "one growth alone is refused"),
    };
    drop(reading);
    assert_same(&rt, uses.len(), 3);
    let of_function = uses.last().expect(&rt, "there are three");
    assert_same(&rt, of_function.as_slice(), [1].as_slice());
    let of_variable = uses.get(1).expect(&rt, "there are three");
    assert_same(&rt, of_variable.as_slice(), [0].as_slice());
    drop(uses);
}
