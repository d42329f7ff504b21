//! Vectors in what references name are loaded and stored by places, whole or not at all.

use crate::tests::asserts::{assert_same, assert_that};
use crate::tests::memory::{bytes_of, place_at, zeros};
use crate::tests::samples::Step::{self, Index, Member};
use crate::tests::samples::{LEN, scene_places, view_of};
use std::alloc::Global;
use std::process::Abort;
use wgsl_places::{Components, Places};
use wgsl_rules::AccessMode::{Read, ReadWrite, Write};
use wgsl_scalar::LiteralInstance::{self, I32, U32};
use wgsl_store::Store;
use wgsl_values::RefInstance;

/// A vector of a `Scene`: the steps to it, where it begins, its components, and their bytes.
struct Row {
    steps: &'static [Step],
    start: usize,
    components: [LiteralInstance; 3],
    bytes: [u8; 12],
}

/// A member, and each column of a member.
const ROWS: &[Row] = &[
    Row {
        steps: &[Member("b", 1)],
        start: 16,
        components: [I32(-2), I32(0x0403_0201), I32(7)],
        bytes: [0xfe, 0xff, 0xff, 0xff, 1, 2, 3, 4, 7, 0, 0, 0],
    },
    Row {
        steps: &[Member("grid", 2), Index(0)],
        start: 32,
        components: [U32(0xffff_ffff), U32(0), U32(0x0807_0605)],
        bytes: [0xff, 0xff, 0xff, 0xff, 0, 0, 0, 0, 5, 6, 7, 8],
    },
    Row {
        steps: &[Member("grid", 2), Index(1)],
        start: 48,
        components: [U32(1), U32(0x0100_0000), U32(3)],
        bytes: [1, 0, 0, 0, 0, 0, 0, 1, 3, 0, 0, 0],
    },
];

/// A structure, a scalar, a component, a matrix and a runtime-sized array of it.
const OTHERS: &[&[Step]] = &[
    &[],
    &[Member("a", 0)],
    &[Member("b", 1), Index(0)],
    &[Member("grid", 2)],
    &[Member("tail", 5)],
];

/// Stores the components at the end of these steps in what the reference names, and says whether it did.
fn is_stored(
    rt: &impl Abort,
    alloc: Global,
    places: &Places,
    store: &mut Store,
    cell: &RefInstance,
    steps: &[Step],
    components: &[LiteralInstance],
) -> bool {
    assert!(rt; store.holds(cell));
    assert!(rt; places.are_of(cell));
    let view = view_of(rt, alloc, steps);
    let place = places.place_in(store, cell, &view).expect(rt, "a part");
    drop(view);
    places.store_vec_in(store, cell, place, components)
}

/// The components that are loaded there.
fn loaded(
    rt: &impl Abort,
    alloc: Global,
    places: &Places,
    store: &Store,
    cell: &RefInstance,
    steps: &[Step],
) -> Option<Components> {
    let place = place_at(rt, alloc, places, store, cell, steps).expect(rt, "a part");
    assert!(rt; store.holds(cell));
    places.load_vec_in(store, cell, place)
}

#[test]
fn each_vector_of_a_cell_is_stored_and_loaded(rt: HostRuntime) {
    let alloc = rt.alloc();
    let places = scene_places(&rt, alloc);
    let mut store = Store::new(alloc);
    for row in ROWS {
        let cell = zeros(&rt, alloc, &mut store, ReadWrite);
        let stored = is_stored(
            &rt,
            alloc,
            &places,
            &mut store,
            &cell,
            row.steps,
            &row.components,
        );
        assert!(rt; stored, "at {}", row.start);
        let mut wanted = [0; LEN];
        wanted[row.start..row.start + 12].copy_from_slice(&row.bytes);
        assert_eq!(rt; bytes_of(&rt, &store, &cell), wanted, "at {}", row.start);
        assert_eq!(rt;
            loaded(&rt, alloc, &places, &store, &cell, row.steps),
            Some(Components::Three(row.components))
        );
        drop(cell);
    }
    drop((places, store));
}

#[test]
fn a_vector_of_another_count_or_kind_is_not_stored(rt: HostRuntime) {
    let alloc = rt.alloc();
    let places = scene_places(&rt, alloc);
    let mut store = Store::new(alloc);
    let cell = zeros(&rt, alloc, &mut store, ReadWrite);
    let vector = [Member("b", 1)];
    for components in [
        [].as_slice(),
        [I32(1), I32(2)].as_slice(),
        [I32(1), I32(2), I32(3), I32(4)].as_slice(),
        [U32(1), U32(2), U32(3)].as_slice(),
        [I32(1), I32(2), U32(3)].as_slice(),
    ] {
        assert_that(
            &rt,
            !is_stored(&rt, alloc, &places, &mut store, &cell, &vector, components),
        );
        assert_same(&rt, bytes_of(&rt, &store, &cell), [0; LEN]);
    }
    drop((places, store, cell));
}

#[test]
fn what_is_no_vector_is_neither_loaded_nor_stored(rt: HostRuntime) {
    let alloc = rt.alloc();
    let places = scene_places(&rt, alloc);
    let mut store = Store::new(alloc);
    let cell = zeros(&rt, alloc, &mut store, ReadWrite);
    for steps in OTHERS {
        let (one, three) = ([U32(1)], [U32(1), U32(2), U32(3)]);
        assert_that(
            &rt,
            !is_stored(&rt, alloc, &places, &mut store, &cell, steps, &one),
        );
        assert_that(
            &rt,
            !is_stored(&rt, alloc, &places, &mut store, &cell, steps, &three),
        );
        assert_same(&rt, bytes_of(&rt, &store, &cell), [0; LEN]);
        assert_same(&rt, loaded(&rt, alloc, &places, &store, &cell, steps), None);
    }
    drop((places, store, cell));
}

#[test]
fn leave_to_read_and_to_write_vectors_is_asked(rt: HostRuntime) {
    let alloc = rt.alloc();
    let places = scene_places(&rt, alloc);
    let mut store = Store::new(alloc);
    let column = [Member("grid", 2), Index(1)];
    let numbers = [U32(7), U32(8), U32(9)];
    let written = zeros(&rt, alloc, &mut store, Write);
    assert_that(
        &rt,
        is_stored(&rt, alloc, &places, &mut store, &written, &column, &numbers),
    );
    assert_eq!(rt;
        loaded(&rt, alloc, &places, &store, &written, &column),
        None
    );
    assert_same(&rt, bytes_of(&rt, &store, &written)[56], 9);
    let read = zeros(&rt, alloc, &mut store, Read);
    assert_that(
        &rt,
        !is_stored(&rt, alloc, &places, &mut store, &read, &column, &numbers),
    );
    assert_eq!(rt;
        loaded(&rt, alloc, &places, &store, &read, &column),
        Some(Components::Three([U32(0); 3]))
    );
    drop((places, store, written, read));
}

#[test]
fn vectors_of_a_cell_are_loaded_and_stored_without_memory(rt: HostRuntime) {
    let alloc = rt.alloc();
    let places = scene_places(&rt, alloc);
    let mut store = Store::new(alloc);
    let cell = zeros(&rt, alloc, &mut store, ReadWrite);
    let column = [Member("grid", 2), Index(1)];
    let numbers = [U32(1), U32(2), U32(3)];
    assert_that(
        &rt,
        is_stored(&rt, alloc, &places, &mut store, &cell, &column, &numbers),
    );
    assert_eq!(rt;
        loaded(&rt, alloc, &places, &store, &cell, &column),
        Some(Components::Three(numbers))
    );
    assert_same(&rt, bytes_of(&rt, &store, &cell)[56], 3);
    drop((places, store, cell));
}
