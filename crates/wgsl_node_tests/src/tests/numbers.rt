//! Numbers that are read and written in bytes.

use crate::tests::asserts::{assert_same, assert_that};
use crate::tests::samples::boxed;
use std::alloc::Global;
use std::process::Abort;
use wgsl_nodes::{Place, load, load_vec, nodes_of, store, store_vec, whole};
use wgsl_rules::Type;

const fn at(offset: u64, kind: u32, count: u32) -> Place {
    Place {
        offset,
        node: 0,
        kind,
        count,
        spare: 0,
    }
}

/// The offset and the kind of a number, and its bits in the bytes 1 to 12.
const LOADED: &[(u64, u32, Option<u64>)] = &[
    (0, 2, Some(0x0403_0201)),
    (1, 258, Some(0x0504_0302)),
    (0, 4, Some(0x0201)),
    (4, 7, Some(0x0c0b_0a09_0807_0605)),
    (5, 7, None),
    (9, 1, None),
    (u64::MAX, 1, None),
    (0, 0, None),
    (0, 8, None),
    (0, 259, None),
];

#[test]
fn numbers_are_loaded(rt: HostRuntime) {
    let bytes: [u8; 12] = [1, 2, 3, 4, 5, 6, 7, 8, 9, 10, 11, 12];
    for (offset, kind, wanted) in LOADED {
        assert_same(&rt, load(&bytes, at(*offset, *kind, 1)), *wanted);
        assert_same(&rt, load(&bytes, at(*offset, *kind, 2)), None);
    }
}

/// The offset and the kind of a number, the number, and whether it is stored: the first, and no other.
const STORED: &[(u64, u32, u64, bool)] = &[
    (1, 3, 0x8070_6050, true),
    (1, 3, 0x1_0000_0000, false),
    (3, 3, 1, false),
    (1, 4, 0x1_0000, false),
];

#[test]
fn numbers_are_stored(rt: HostRuntime) {
    let mut bytes: [u8; 6] = [0; 6];
    for (offset, kind, number, is_stored) in STORED {
        let stored = store(&mut bytes, at(*offset, *kind, 1), *number);
        assert_same(&rt, stored, *is_stored);
        assert_same(&rt, bytes, [0, 0x50, 0x60, 0x70, 0x80, 0]);
    }
}

/// The place of a vector of three f16.
fn vector_place(rt: &impl Abort, alloc: Global) -> Place {
    let ty = Type::Vec(3, boxed(alloc, Type::F16).expect(rt, "memory"));
    let made = nodes_of(alloc, &ty).expect(rt, "memory");
    drop(ty);
    let nodes = made.expect(rt, "a table");
    let place = whole(nodes.as_slice()).expect(rt, "a root");
    drop(nodes);
    place
}

/// Numbers that are stored in eight bytes one after the other, and whether they are: the first, and no others.
const VECTORS: &[(&[u64], bool)] = &[
    (&[1, 0x203, 0xffff], true),
    (&[1, 2, 0x1_0000], false),
    (&[1, 2], false),
];

#[test]
fn a_vector_of_f16(rt: HostRuntime) {
    let place = vector_place(&rt, rt.alloc());
    let mut bytes: [u8; 8] = [9; 8];
    for (numbers, is_stored) in VECTORS {
        assert_same(&rt, store_vec(&mut bytes, place, numbers), *is_stored);
        assert_same(&rt, bytes, [1, 0, 3, 2, 0xff, 0xff, 9, 9]);
    }
    let mut numbers: [u64; 3] = [0; 3];
    assert_that(&rt, load_vec(&bytes, place, &mut numbers));
    assert_same(&rt, numbers, [1, 0x203, 0xffff]);
}
