//! Tables of types of as many levels as `DEPTH` in the environment says. `tools/depths` runs these with the levels and the
//! stack of `docs/DEPTH.md`.

use crate::tests::asserts::{assert_same, assert_that};
use crate::tests::samples::{boxed, member, structure};
use std::alloc::Global;
use std::process::Abort;
use std::rt::Env;
use std::str;
use wgsl_nodes::{is_table, nodes_of, place};
use wgsl_rules::Type;

fn number(digits: Option<&[u8]>) -> Option<usize> {
    str::from_utf8(digits?).ok()?.parse().ok()
}

/// How many levels types have: `DEPTH`, and 200 where the environment has none.
fn levels<R: Env + Abort>(rt: &R) -> usize {
    let mut digits = [0u8; 32];
    match rt.var("DEPTH", &mut digits) {
        Ok(count) => number(digits.get(..count)).expect(rt, "a number of levels"),
        Err(_) => 200,
    }
}

/// Asserts that the type has a table of a record a level and one of its number.
fn assert_table(rt: &impl Abort, alloc: Global, ty: Type, levels: usize) {
    let made = nodes_of(alloc, &ty).expect(rt, "memory");
    drop(ty);
    let nodes = made.expect(rt, "a table");
    assert_same(rt, nodes.len(), levels.saturating_add(1));
    assert_that(rt, is_table(nodes.as_slice()));
    assert_that(rt, place(nodes.as_slice(), b"", 4, b"").is_some());
    drop(nodes);
}

#[test]
fn arrays_have_a_table(rt: HostRuntime) {
    let alloc = rt.alloc();
    let levels = levels(&rt);
    let mut ty = Type::U32;
    for _ in 0..levels {
        ty = Type::Array(boxed(alloc, ty).expect(&rt, "memory"), Some(1));
    }
    assert_table(&rt, alloc, ty, levels);
}

#[test]
fn structures_have_a_table(rt: HostRuntime) {
    let alloc = rt.alloc();
    let levels = levels(&rt);
    let mut ty = Type::U32;
    for _ in 0..levels {
        let inside = member(alloc, ty).expect(&rt, "memory");
        let members = vec![in alloc; inside].expect(&rt, "memory");
        ty = structure(alloc, members).expect(&rt, "memory");
    }
    assert_table(&rt, alloc, ty, levels);
}
