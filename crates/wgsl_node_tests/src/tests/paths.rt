//! Paths in the table of a structure, and where they lead.

use crate::tests::asserts::{assert_same, assert_that};
use crate::tests::samples::{NAMES, boxed, scene_table};
use wgsl_nodes::{Place, count_in, nodes_of, part, place, size_with, whole};
use wgsl_rules::Type;

/// A path, and the offset, the record, the kind and the count of its place, in three lights.
const PLACES: &[(&[u8], u64, u32, u32, u32)] = &[
    (b"", 0, 0, 0, 0),
    (b"a", 0, 1, 2, 1),
    (b"b", 16, 2, 3, 3),
    (b"b.x", 16, 5, 3, 1),
    (b"b.y", 20, 5, 3, 1),
    (b"b[2]", 24, 5, 3, 1),
    (b"c", 32, 3, 0, 0),
    (b"c[3]", 104, 6, 0, 0),
    (b"c[3][2]", 120, 7, 3, 2),
    (b"c[3][2].y", 124, 8, 3, 1),
    (b"c[0][1][0]", 40, 8, 3, 1),
    (b"d", 128, 4, 0, 0),
    (b"d[0].power", 140, 11, 3, 1),
    (b"d[1].count", 176, 12, 258, 1),
    (b"d[2].color.b", 200, 13, 3, 1),
];

const REFUSED: &[&[u8]] = &[
    b".a",
    b"a.",
    b"e",
    b"a b",
    b"[",
    b"[0]",
    b"[-1]",
    b"a[0]",
    b"a.x",
    b"b.q",
    b"b.xy",
    b"b[3]",
    b"b[",
    b"b[]",
    b"b[1",
    b"b[-1]",
    b"b[+1]",
    b"b[01]",
    b"b[0x1]",
    b"b[1]]",
    b"c.x",
    b"c[4]",
    b"c[0][3]",
    b"c[0][0].z",
    b"c[18446744073709551616]",
    b"c[18446744073709551615]",
    b"c[99999999999999999999999]",
    b"d[3]",
    b"d[0]power",
    b"d[0]..power",
    b"d[0].color.q",
    b"d[0].colo",
    b"d[0].colors",
    b"d.color",
];

const LEN: u64 = 128 + 3 * 32;

#[test]
fn paths_lead_to_places(rt: HostRuntime) {
    let nodes = scene_table(&rt, rt.alloc());
    assert_same(&rt, nodes.len(), 14);
    for (path, offset, node, kind, count) in PLACES {
        let wanted = Place {
            offset: *offset,
            node: *node,
            kind: *kind,
            count: *count,
            spare: 0,
        };
        assert_same(&rt, place(nodes.as_slice(), NAMES, LEN, path), Some(wanted));
    }
    drop(nodes);
}

#[test]
fn other_paths_are_refused(rt: HostRuntime) {
    let nodes = scene_table(&rt, rt.alloc());
    for path in REFUSED {
        assert_that(&rt, place(nodes.as_slice(), NAMES, LEN, path).is_none());
    }
    drop(nodes);
}

#[test]
fn positions_lead_on(rt: HostRuntime) {
    let nodes = scene_table(&rt, rt.alloc());
    let start = whole(nodes.as_slice()).expect(&rt, "a root");
    let lights = part(nodes.as_slice(), start, 3, LEN).expect(&rt, "a member");
    let light = part(nodes.as_slice(), lights, 2, LEN).expect(&rt, "an element");
    assert_same(&rt, light.offset, 192);
    assert_same(&rt, light.node, 9);
    assert_that(&rt, part(nodes.as_slice(), start, 4, LEN).is_none());
    assert_that(&rt, part(nodes.as_slice(), lights, 3, LEN).is_none());
    assert_that(&rt, part(nodes.as_slice(), lights, 2, LEN - 1).is_none());
    drop(nodes);
}

/// A record, a count, and the bytes that it has with as many elements at its end.
const SIZES: &[(u32, u64, Option<u64>)] = &[
    (0, 3, Some(LEN)),
    (9, 3, Some(32)),
    (0, u64::MAX, None),
    (14, 0, None),
];

/// A record, so many bytes, and how many elements at its end lie in these.
const COUNTS: &[(u32, u64, Option<u64>)] = &[
    (0, LEN + 31, Some(3)),
    (0, 159, None),
    (9, 32, Some(0)),
    (9, 31, None),
];

#[test]
fn lengths_and_counts(rt: HostRuntime) {
    let nodes = scene_table(&rt, rt.alloc());
    for (node, count, wanted) in SIZES {
        assert_same(&rt, size_with(nodes.as_slice(), *node, *count), *wanted);
    }
    for (node, len, wanted) in COUNTS {
        assert_same(&rt, count_in(nodes.as_slice(), *node, *len), *wanted);
    }
    drop(nodes);
}

#[test]
fn a_type_without_a_table(rt: HostRuntime) {
    let alloc = rt.alloc();
    let ty = Type::Vec(3, boxed(alloc, Type::F64).expect(&rt, "memory"));
    let made = nodes_of(alloc, &ty).expect(&rt, "memory");
    assert_that(&rt, made.is_none());
    drop(made);
    drop(ty);
}
