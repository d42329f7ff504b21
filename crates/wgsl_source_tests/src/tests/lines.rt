//! The lines of sources, and a reading as it is printed.

use crate::tests::asserts::assert_that;
use std::alloc::Global;
use std::process::Abort;
use wgsl_source::{Lines, Reading};

fn lines_of(rt: &impl Abort, alloc: Global, text: &str) -> Lines {
    Lines::new(alloc, text).expect(rt, "memory")
}

#[test]
fn lines_that_begin_alike_are_equal(rt: HostRuntime) {
    let alloc = rt.alloc();
    let lines = lines_of(&rt, alloc, "ab\nc\n");
    assert_that(&rt, lines == lines_of(&rt, alloc, "cd\ne\nfg"));
    assert_that(&rt, lines != lines_of(&rt, alloc, "ab\nc"));
    assert_that(&rt, lines != lines_of(&rt, alloc, "a\nbc\n"));
}

#[test]
fn a_reading_is_printed_with_its_text(rt: HostRuntime) {
    let alloc = rt.alloc();
    let reading = Reading::of_expression(alloc, "1 + apple").expect(&rt, "memory");
    let text = format!(in alloc; "{reading:?}").expect(&rt, "memory");
    assert_that(&rt, text.as_str().contains("1 + apple"));
}
