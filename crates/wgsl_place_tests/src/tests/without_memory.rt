//! What takes no memory.

use crate::tests::asserts::{assert_same, assert_that};
use crate::tests::samples::Step::{Index, Member};
use crate::tests::samples::{LEN, scene, view_of};
use wgsl_places::{Components, Places};
use wgsl_scalar::LiteralInstance::{self, U32};

#[test]
fn numbers_are_found_loaded_and_stored_without_memory(rt: HostRuntime) {
    let alloc = rt.alloc();
    let ty = scene(alloc).expect(&rt, "no memory to make it");
    let made = Places::of(alloc, &ty).expect(&rt, "no memory to make it");
    let places = made.expect(&rt, "a layout");
    let view = view_of(&rt, alloc, &[Member("tail", 5)]);
    let mut bytes = [0; LEN];
    let tail = places.place(LEN, &view).expect(&rt, "a part");
    let last = places.part(tail, 2).expect(&rt, "an element");
    assert_that(&rt, places.store(&mut bytes, last, LiteralInstance::U32(7)));
    assert_same(&rt, &bytes[108..], [7, 0, 0, 0].as_slice());
    assert_same(
        &rt,
        places.load(&bytes, last),
        Some(LiteralInstance::U32(7)),
    );
    drop((ty, places, view));
}

#[test]
fn vectors_are_loaded_and_stored_without_memory(rt: HostRuntime) {
    let alloc = rt.alloc();
    let ty = scene(alloc).expect(&rt, "no memory to make it");
    let made = Places::of(alloc, &ty).expect(&rt, "no memory to make it");
    let places = made.expect(&rt, "a layout");
    let view = view_of(&rt, alloc, &[Member("grid", 2), Index(1)]);
    let mut bytes = [0; LEN];
    let column = places.place(LEN, &view).expect(&rt, "a part");
    let numbers = [U32(1), U32(2), U32(3)];
    assert_that(&rt, places.store_vec(&mut bytes, column, &numbers));
    assert_eq!(rt;
        &bytes[48..60],
        [1, 0, 0, 0, 2, 0, 0, 0, 3, 0, 0, 0].as_slice()
    );
    assert_eq!(rt;
        places.load_vec(&bytes, column),
        Some(Components::Three(numbers))
    );
    drop((ty, places, view));
}
