//! What has no place, and what is not loaded or stored.

use crate::tests::asserts::{assert_same, assert_that};
use crate::tests::samples::Step::{self, Index, Member};
use crate::tests::samples::{LEN, ROWS, place_of, scene_places, stepped, view_of};
use std::alloc::Global;
use std::process::Abort;
use wgsl_places::Places;
use wgsl_rules::Type;
use wgsl_scalar::LiteralInstance;
use wgsl_store::LayoutRefusal::{NoPart, TooFewBytes};

/// Views that lead nowhere.
const NOWHERE: &[&[Step]] = &[
    &[Member("none", 0)],
    &[Index(0)],
    &[Member("a", 0), Index(0)],
    &[Member("b", 1), Index(3)],
    &[Member("b", 1), Member("x", 0)],
    &[Member("grid", 2), Index(2)],
    &[Member("grid", 2), Index(0), Index(3)],
    &[Member("spans", 3), Index(2)],
    &[Member("total", 4), Index(0)],
    &[Member("tail", 5), Index(3)],
];

/// Parts that are no numbers.
const COMPOSITES: &[&[Step]] = &[
    &[],
    &[Member("b", 1)],
    &[Member("grid", 2)],
    &[Member("grid", 2), Index(1)],
    &[Member("spans", 3)],
    &[Member("spans", 3), Index(1)],
    &[Member("tail", 5)],
];

const NUMBERS: &[LiteralInstance] = &[
    LiteralInstance::Bool(true),
    LiteralInstance::AbstractInt(7),
    LiteralInstance::I32(7),
    LiteralInstance::U32(7),
    LiteralInstance::I64(7),
    LiteralInstance::U64(7),
];

/// The name of the number's kind.
fn kind_of(number: LiteralInstance) -> &'static str {
    match number {
        LiteralInstance::Bool(_) => "bool",
        LiteralInstance::AbstractInt(_) => "abstract",
        LiteralInstance::I32(_) => "i32",
        LiteralInstance::U32(_) => "u32",
        LiteralInstance::I64(_) => "i64",
        LiteralInstance::U64(_) => "u64",
    }
}

#[test]
fn views_that_lead_nowhere_have_no_place(rt: HostRuntime) {
    let alloc = rt.alloc();
    let places = scene_places(&rt, alloc);
    for steps in NOWHERE {
        let view = view_of(&rt, alloc, steps);
        assert_same(&rt, places.place(LEN, &view), Err(NoPart));
        assert_same(&rt, places.place(103, &view), Err(TooFewBytes));
        drop(view);
    }
    drop(places);
}

#[test]
fn positions_past_the_last_have_no_place(rt: HostRuntime) {
    let alloc = rt.alloc();
    let places = scene_places(&rt, alloc);
    for (steps, count) in COMPOSITES.iter().zip([6, 3, 2, 3, 2, 2, 3]) {
        let place = stepped(&rt, &places, steps);
        assert_that(&rt, places.part(place, count - 1).is_some());
        assert_same(&rt, places.part(place, count), None);
        assert_same(&rt, places.part(place, usize::MAX), None);
    }
    for row in ROWS {
        let place = stepped(&rt, &places, row.steps);
        assert_same(&rt, places.part(place, 0), None);
    }
    drop(places);
}

#[test]
fn what_is_no_number_is_neither_loaded_nor_stored(rt: HostRuntime) {
    let alloc = rt.alloc();
    let places = scene_places(&rt, alloc);
    for steps in COMPOSITES {
        let place = place_of(&rt, alloc, &places, steps);
        let mut bytes = [0x55; LEN];
        assert_same(&rt, places.load(&bytes, place), None);
        for number in NUMBERS {
            assert_that(&rt, !places.store(&mut bytes, place, *number));
        }
        assert_same(&rt, bytes, [0x55; LEN]);
    }
    drop(places);
}

#[test]
fn a_number_of_another_kind_is_not_stored(rt: HostRuntime) {
    let alloc = rt.alloc();
    let places = scene_places(&rt, alloc);
    for row in ROWS {
        let place = stepped(&rt, &places, row.steps);
        for number in NUMBERS {
            let mut bytes = [0x55; LEN];
            let is_of_kind = kind_of(*number) == row.kind;
            assert_same(&rt, places.store(&mut bytes, place, *number), is_of_kind);
            assert_same(&rt, bytes == [0x55; LEN], !is_of_kind);
        }
    }
    drop(places);
}

#[test]
fn a_number_lies_in_the_bytes_whole(rt: HostRuntime) {
    let alloc = rt.alloc();
    let places = scene_places(&rt, alloc);
    for row in ROWS {
        let place = stepped(&rt, &places, row.steps);
        let mut bytes = [0x55; LEN];
        let short = row.start + 3;
        assert_same(&rt, places.load(&bytes[..short], place), None);
        for number in NUMBERS {
            assert_that(&rt, !places.store(&mut bytes[..short], place, *number));
        }
        assert_same(&rt, bytes, [0x55; LEN]);
    }
    drop(places);
}

/// Asserts that the type has no places.
fn assert_no_places(rt: &impl Abort, alloc: Global, ty: Type) {
    let places = Places::of(alloc, &ty).expect(rt, "memory");
    assert_that(rt, places.is_none());
    drop((ty, places));
}

#[test]
fn a_type_without_a_layout_has_no_places(rt: HostRuntime) {
    let alloc = rt.alloc();
    assert_no_places(&rt, alloc, Type::Bool);
    assert_no_places(&rt, alloc, Type::AbstractInt);
    assert_no_places(&rt, alloc, Type::F32);
}

/// A place of one type is nothing but numbers for the places of another: what is answered lies in the bytes.
#[test]
fn places_of_another_type_are_refused_or_lie_inside(rt: HostRuntime) {
    let alloc = rt.alloc();
    let scene = scene_places(&rt, alloc);
    let made = Places::of(alloc, &Type::U32).expect(&rt, "memory");
    let word = made.expect(&rt, "a layout");
    for row in ROWS {
        let place = stepped(&rt, &scene, row.steps);
        assert_same(&rt, word.part(place, 0), None);
        assert_same(&rt, word.load(&[1, 2, 3], place), None);
        assert_that(
            &rt,
            !word.store(&mut [1, 2, 3], place, LiteralInstance::U32(7)),
        );
    }
    drop((scene, word));
}
