//! Vectors are loaded and stored where they stand, whole or not at all.

use crate::tests::asserts::{assert_same, assert_that};
use crate::tests::samples::Step::{self, Index, Member};
use crate::tests::samples::{add_member, stepped_in};
use std::alloc::{AllocError, Global};
use std::process::Abort;
use wgsl_places::Places;
use wgsl_rules::{StructMemberType, Type};
use wgsl_samples::types::{array, matrix, structure, vector};
use wgsl_scalar::LiteralInstance::{self, AbstractInt, Bool, I32, I64, U32, U64};

/// A vector of `Lot`: the steps to it, where its bytes begin and end, and its components in bytes of which each is its own
/// index.
struct Row {
    steps: &'static [Step],
    start: usize,
    end: usize,
    components: &'static [LiteralInstance],
}

/// The bytes of a `Lot` with two elements at its end.
const LEN: usize = 176;

/// A vector of each count and each kind: members, elements, and a column.
const ROWS: &[Row] = &[
    Row {
        steps: &[Member("pair", 0)],
        start: 0,
        end: 16,
        components: &[I64(0x0706_0504_0302_0100), I64(0x0f0e_0d0c_0b0a_0908)],
    },
    Row {
        steps: &[Member("triple", 1)],
        start: 16,
        end: 28,
        components: &[U32(0x1312_1110), U32(0x1716_1514), U32(0x1b1a_1918)],
    },
    Row {
        steps: &[Member("long", 3)],
        start: 32,
        end: 56,
        components: &[
            U64(0x2726_2524_2322_2120),
            U64(0x2f2e_2d2c_2b2a_2928),
            U64(0x3736_3534_3332_3130),
        ],
    },
    Row {
        steps: &[Member("grid", 4), Index(1)],
        start: 80,
        end: 92,
        components: &[I32(0x5352_5150), I32(0x5756_5554), I32(0x5b5a_5958)],
    },
    Row {
        steps: &[Member("rows", 5), Index(1)],
        start: 112,
        end: 128,
        components: &[
            U32(0x7372_7170),
            U32(0x7776_7574),
            U32(0x7b7a_7978),
            U32(0x7f7e_7d7c),
        ],
    },
    Row {
        steps: &[Member("wide", 6)],
        start: 128,
        end: 160,
        components: &[
            U64(0x8786_8584_8382_8180),
            U64(0x8f8e_8d8c_8b8a_8988),
            U64(0x9796_9594_9392_9190),
            U64(0x9f9e_9d9c_9b9a_9998),
        ],
    },
    Row {
        steps: &[Member("tail", 7), Index(1)],
        start: 168,
        end: 176,
        components: &[I32(-0x5455_5658), I32(-0x5051_5254)],
    },
];

/// Parts of a `Lot` that are no vectors.
const OTHERS: &[&[Step]] = &[
    &[],
    &[Member("pair", 0), Index(1)],
    &[Member("word", 2)],
    &[Member("grid", 4)],
    &[Member("rows", 5)],
    &[Member("tail", 7)],
];

fn add_members_of_lot(
    alloc: Global,
    members: &mut Vec<StructMemberType>,
) -> Result<(), AllocError> {
    add_member(alloc, members, "pair", vector(alloc, 2, Type::I64)?)?;
    add_member(alloc, members, "triple", vector(alloc, 3, Type::U32)?)?;
    add_member(alloc, members, "word", Type::U32)?;
    add_member(alloc, members, "long", vector(alloc, 3, Type::U64)?)?;
    add_member(alloc, members, "grid", matrix(alloc, Type::I32)?)?;
    let rows = array(alloc, vector(alloc, 4, Type::U32)?, Some(2))?;
    add_member(alloc, members, "rows", rows)?;
    add_member(alloc, members, "wide", vector(alloc, 4, Type::U64)?)?;
    let tail = array(alloc, vector(alloc, 2, Type::I32)?, None)?;
    add_member(alloc, members, "tail", tail)
}

/// struct Lot {
///     pair: vec2<i64>, triple: vec3<u32>, word: u32, long: vec3<u64>, grid: mat2x3<i32>, rows: array<vec4<u32>, 2>,
///     wide: vec4<u64>, tail: array<vec2<i32>>
/// }
fn lot(alloc: Global) -> Result<Type, AllocError> {
    let mut members = Vec::new(alloc);
    add_members_of_lot(alloc, &mut members)?;
    structure(alloc, "Lot", members)
}

/// The places of a `Lot`.
fn lot_places(rt: &impl Abort, alloc: Global) -> Places {
    let ty = lot(alloc).expect(rt, "no memory to make it");
    let places = Places::of(alloc, &ty).expect(rt, "no memory to make it");
    drop(ty);
    places.expect(rt, "a layout")
}

/// Bytes of which each is its own index.
fn counted() -> [u8; LEN] {
    let mut bytes = [0; LEN];
    for i in 0..LEN {
        bytes[i] = i as u8;
    }
    bytes
}

/// Asserts that these components are not stored there, and that nothing is changed.
fn assert_refused(
    rt: &impl Abort,
    places: &Places,
    steps: &[Step],
    components: &[LiteralInstance],
) {
    let place = stepped_in(rt, places, LEN, steps);
    let mut bytes = [0x55; LEN];
    assert_that(rt, !places.store_vec(&mut bytes, place, components));
    assert_same(rt, bytes, [0x55; LEN]);
}

#[test]
fn each_vector_is_loaded(rt: HostRuntime) {
    let places = lot_places(&rt, rt.alloc());
    let bytes = counted();
    for row in ROWS {
        let place = stepped_in(&rt, &places, LEN, row.steps);
        assert_same(&rt, place.start(), row.start);
        let loaded = places.load_vec(&bytes, place).expect(&rt, "a vector");
        assert_eq!(rt; loaded.as_slice(), row.components, "at {}", row.start);
    }
    drop(places);
}

#[test]
fn each_vector_is_stored_in_its_own_bytes(rt: HostRuntime) {
    let places = lot_places(&rt, rt.alloc());
    for row in ROWS {
        let place = stepped_in(&rt, &places, LEN, row.steps);
        let mut bytes = [0x55; LEN];
        assert_that(&rt, places.store_vec(&mut bytes, place, row.components));
        let mut wanted = [0x55; LEN];
        wanted[row.start..row.end].copy_from_slice(&counted()[row.start..row.end]);
        assert_eq!(rt; bytes, wanted, "at {}", row.start);
    }
    drop(places);
}

#[test]
fn a_vector_lies_in_the_bytes_whole(rt: HostRuntime) {
    let places = lot_places(&rt, rt.alloc());
    for row in ROWS {
        let place = stepped_in(&rt, &places, LEN, row.steps);
        let mut bytes = [0x55; LEN];
        let short = row.end - 1;
        assert_same(&rt, places.load_vec(&bytes[..short], place), None);
        let components = row.components;
        assert_that(
            &rt,
            !places.store_vec(&mut bytes[..short], place, components),
        );
        assert_same(&rt, bytes, [0x55; LEN]);
    }
    drop(places);
}

#[test]
fn what_is_no_vector_is_neither_loaded_nor_stored(rt: HostRuntime) {
    let places = lot_places(&rt, rt.alloc());
    for steps in OTHERS {
        let place = stepped_in(&rt, &places, LEN, steps);
        assert_same(&rt, places.load_vec(&counted(), place), None);
        for count in 0..5 {
            assert_refused(&rt, &places, steps, &[U32(7); 5][..count]);
        }
    }
    drop(places);
}

#[test]
fn as_many_components_are_stored_as_there_are(rt: HostRuntime) {
    let places = lot_places(&rt, rt.alloc());
    for row in ROWS {
        let components = row.components;
        let count = components.len();
        let longer = [components[0]; 5];
        assert_refused(&rt, &places, row.steps, &[]);
        assert_refused(&rt, &places, row.steps, &components[..count - 1]);
        assert_refused(&rt, &places, row.steps, &longer[..count + 1]);
    }
    drop(places);
}

#[test]
fn each_component_is_of_the_kind(rt: HostRuntime) {
    let places = lot_places(&rt, rt.alloc());
    for row in ROWS {
        let components = row.components;
        for i in 0..components.len() {
            let other = match components[i] {
                U32(_) => I32(7),
                I32(_) => U32(7),
                U64(_) => I64(7),
                I64(_) => AbstractInt(7),
                Bool(_) | AbstractInt(_) => rt.abort(),
            };
            let mut mixed = [other; 4];
            mixed[..components.len()].copy_from_slice(components);
            mixed[i] = other;
            assert_refused(&rt, &places, row.steps, &mixed[..components.len()]);
        }
    }
    drop(places);
}

/// A place of one type is nothing but numbers for the places of another: what is answered lies in the bytes.
#[test]
fn places_of_another_type_are_refused_or_lie_inside(rt: HostRuntime) {
    let alloc = rt.alloc();
    let lot = lot_places(&rt, alloc);
    let made = Places::of(alloc, &Type::U32).expect(&rt, "memory");
    let word = made.expect(&rt, "a layout");
    for row in ROWS {
        let place = stepped_in(&rt, &lot, LEN, row.steps);
        assert_same(&rt, word.load_vec(&[1, 2, 3, 4], place), None);
        let components = row.components;
        assert_that(&rt, !word.store_vec(&mut [1, 2, 3, 4], place, components));
    }
    drop((lot, word));
}
