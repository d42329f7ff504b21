//! Tables where memory is wanting.

use crate::tests::asserts::{assert_same, assert_that};
use crate::tests::samples::scene;
use std::alloc::AllocError;
use wgsl_nodes::{is_table, nodes_of};

#[test]
fn a_table_is_made_or_memory_is_wanting(rt: HostRuntime) {
    let alloc = rt.alloc();
    let ty = scene(alloc).expect(&rt, "no memory to make it");
    let made = match nodes_of(alloc, &ty) {
        Ok(made) => made,
        Err(AllocError) => nodes_of(alloc, &ty).expect(&rt, "one growth alone is refused"),
    };
    drop(ty);
    let nodes = made.expect(&rt, "a table");
    assert_same(&rt, nodes.len(), 14);
    assert_that(&rt, is_table(nodes.as_slice()));
    drop(nodes);
}
