//! Places in types of as many levels as `DEPTH` in the environment says. `tools/depths` runs these with the levels and the
//! stack of `docs/DEPTH.md`.

use crate::tests::asserts::assert_same;
use crate::tests::samples::{Step, view_of};
use std::alloc::Global;
use std::process::Abort;
use std::rt::Env;
use std::str;
use wgsl_places::Places;
use wgsl_rules::Type;
use wgsl_samples::types::{array, member, structure};
use wgsl_scalar::LiteralInstance;
use wgsl_values::MemView;

fn number(digits: Option<&[u8]>) -> Option<usize> {
    str::from_utf8(digits?).ok()?.parse().ok()
}

/// How many levels types have: `DEPTH`, and 200 where the environment has none.
fn levels<R: Env + Abort>(rt: &R) -> usize {
    let mut digits = [0u8; 32];
    match rt.var("DEPTH", &mut digits) {
        Ok(count) => number(digits.get(..count)).expect(rt, "a number of levels"),
        Err(_) => 200,
    }
}

/// The view of so many steps, each of them this one.
fn deep_view(rt: &impl Abort, alloc: Global, step: Step, levels: usize) -> MemView {
    let mut view = MemView::Whole;
    for _ in 0..levels {
        let mut outer = view_of(rt, alloc, &[step]);
        match &mut outer {
            MemView::Member(_, rest) => **rest = view,
            MemView::Index(_, rest) => **rest = view,
            MemView::Whole => rt.abort(),
        }
        view = outer;
    }
    view
}

/// Asserts that the number at the bottom of the type is found by the view, and is the one in the bytes.
fn assert_bottom(rt: &impl Abort, alloc: Global, ty: Type, step: Step, levels: usize) {
    let made = Places::of(alloc, &ty).expect(rt, "memory");
    let places = made.expect(rt, "a layout");
    let view = deep_view(rt, alloc, step, levels);
    let place = places.place(4, &view).expect(rt, "a part");
    let seven = LiteralInstance::U32(7);
    assert_same(rt, places.load(&[7, 0, 0, 0], place), Some(seven));
    drop((ty, places, view));
}

#[test]
fn numbers_in_arrays_of_arrays(rt: HostRuntime) {
    let alloc = rt.alloc();
    let levels = levels(&rt);
    let mut ty = Type::U32;
    for _ in 0..levels {
        ty = array(alloc, ty, Some(1)).expect(&rt, "memory");
    }
    assert_bottom(&rt, alloc, ty, Step::Index(0), levels);
}

#[test]
fn numbers_in_structures_of_structures(rt: HostRuntime) {
    let alloc = rt.alloc();
    let levels = levels(&rt);
    let mut ty = Type::U32;
    for _ in 0..levels {
        let inside = member(alloc, "inside", ty, None).expect(&rt, "memory");
        let members = vec![in alloc; inside].expect(&rt, "memory");
        ty = structure(alloc, "Outer", members).expect(&rt, "memory");
    }
    assert_bottom(&rt, alloc, ty, Step::Member("inside", 0), levels);
}
