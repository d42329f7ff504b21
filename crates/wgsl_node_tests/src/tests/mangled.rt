//! A table with one field of one record set to another number.

use crate::tests::asserts::{assert_same, assert_that};
use crate::tests::samples::{NAMES, scene_table};
use std::process::Abort;
use wgsl_nodes::{Node, count_in, first_difference, is_table, part, place, size_with, whole};

/// The field of this place in a record.
fn field(node: Node, what: u32) -> u32 {
    match what {
        0 => node.sort,
        1 => node.kind,
        2 => node.offset,
        3 => node.size,
        4 => node.align,
        5 => node.count,
        6 => node.stride,
        7 => node.child,
        8 => node.tail_start,
        _ => node.tail_stride,
    }
}

fn with_field(node: Node, what: u32, number: u32) -> Node {
    let mut node = node;
    match what {
        0 => node.sort = number,
        1 => node.kind = number,
        2 => node.offset = number,
        3 => node.size = number,
        4 => node.align = number,
        5 => node.count = number,
        6 => node.stride = number,
        7 => node.child = number,
        8 => node.tail_start = number,
        _ => node.tail_stride = number,
    }
    node
}

/// Whether the record with the field set so is still one of a table: a number of 4 bytes is an i32 as well.
fn is_kept(node: Node, what: u32, number: u32) -> bool {
    let is_number = node.sort == Node::NUMBER && node.kind != 0;
    field(node, what) == number || (what == 1 && number == 1 && is_number)
}

/// Asserts that the tables differ in this field of this record alone, or are the same.
fn assert_difference(
    rt: &impl Abort,
    table: &[Node],
    mangled: &[Node],
    i: usize,
    what: u32,
    is_same: bool,
) {
    let difference = first_difference(table, mangled);
    assert_same(rt, difference.is_none(), is_same);
    if let Some(difference) = difference {
        assert_same(rt, difference.of_first as usize, i);
        assert_same(rt, difference.of_second as usize, i);
        assert_same(rt, difference.what, what);
    }
}

/// Asks for places, a size, a count and a part, each of which ends whatever the records say.
fn look_into(mangled: &[Node]) {
    let _ = place(mangled, NAMES, 224, b"d[2].color.b");
    let _ = place(mangled, NAMES, 224, b"c[3][2].y");
    let _ = size_with(mangled, 0, 3);
    let _ = count_in(mangled, 0, 224);
    if let Some(start) = whole(mangled) {
        let _ = part(mangled, start, 3, 224);
    }
}

/// Sets the field of this record to the number, asserts what is told of that, and sets it back.
fn assert_looked_at(
    rt: &impl Abort,
    table: &[Node],
    nodes: &mut [Node],
    i: usize,
    what: u32,
    number: u32,
) {
    let node = *nodes.get(i).expect(rt, "a record");
    *nodes.get_mut(i).expect(rt, "a record") = with_field(node, what, number);
    assert_same(rt, is_table(nodes), is_kept(node, what, number));
    assert_difference(rt, table, nodes, i, what, field(node, what) == number);
    look_into(nodes);
    *nodes.get_mut(i).expect(rt, "a record") = node;
}

#[test]
fn each_field_is_looked_at(rt: HostRuntime) {
    let mut nodes = scene_table(&rt, rt.alloc());
    let table = scene_table(&rt, rt.alloc());
    assert_that(&rt, is_table(table.as_slice()));
    for i in 0..nodes.len() {
        for what in 0..10 {
            for number in [0, 1, u32::MAX] {
                let mangled = nodes.as_mut_slice();
                assert_looked_at(&rt, table.as_slice(), mangled, i, what, number);
            }
        }
    }
    drop(nodes);
    drop(table);
}

#[test]
fn a_shorter_table_differs(rt: HostRuntime) {
    let table = scene_table(&rt, rt.alloc());
    let shorter = table.as_slice().get(..13).expect(&rt, "there are 14");
    assert_that(&rt, !is_table(shorter));
    assert_that(&rt, !is_table(&[]));
    let difference = first_difference(table.as_slice(), shorter).expect(&rt, "one is longer");
    assert_same(&rt, difference.of_first, 13);
    assert_same(&rt, difference.what, 10);
    drop(table);
}
