//! Places where memory is wanting.

use crate::tests::asserts::assert_that;
use crate::tests::samples::{LEN, scene};
use std::alloc::AllocError;
use wgsl_places::Places;
use wgsl_values::MemView;

#[test]
fn places_are_made_or_memory_is_wanting(rt: HostRuntime) {
    let alloc = rt.alloc();
    let ty = scene(alloc).expect(&rt, "no memory to make it");
    let made = match Places::of(alloc, &ty) {
        Ok(made) => made,
        Err(AllocError) => Places::of(alloc, &ty).expect(&rt, "one growth alone is refused"),
    };
    let places = made.expect(&rt, "a layout");
    assert_that(&rt, places.ty() == &ty);
    assert_that(&rt, places.place(LEN, &MemView::Whole).is_ok());
    drop((ty, places));
}
