//! The bytes of values, and layouts: arrays of one element in each other.

use crate::tests::asserts::{assert_answer, assert_is, assert_same, assert_that};
use crate::tests::depth::{arrays, first_parts, in_arrays, levels};
use crate::tests::samples::storable;
use std::alloc::Global;
use std::process::Abort;
use wgsl_rules::Type;
use wgsl_samples::values::bytes_of;
use wgsl_store::LayoutRefusal::NoPart;
use wgsl_store::{Buffers, Layout};
use wgsl_values::{Instance, MemView};

#[test]
fn bytes_of_values(rt: HostRuntime) {
    let alloc = rt.alloc();
    let depth = levels(&rt);
    let value = in_arrays(&rt, alloc, depth, Instance::from(5u32));
    let ty = arrays(&rt, alloc, depth, Type::U32);
    let bytes = made!(&rt; bytes_of(alloc, &[5]));
    let buffer = made!(&rt; value.to_buffer(alloc));
    assert_answer(&rt, buffer, Some(&bytes));
    let read = made!(&rt; Instance::from_buffer(alloc, &bytes, &ty));
    assert_answer(&rt, read, Some(&value));
    drop((value, ty));
}

fn layout_of(rt: &impl Abort, alloc: Global, ty: &Type) -> Layout {
    made!(rt; Layout::of(alloc, ty)).expect(rt, "a layout")
}

#[test]
fn parts_of_layouts(rt: HostRuntime) {
    let alloc = rt.alloc();
    let depth = levels(&rt);
    let ty = arrays(&rt, alloc, depth, Type::U32);
    let layout = layout_of(&rt, alloc, &ty);
    let view = first_parts(&rt, alloc, depth);
    let nowhere = first_parts(&rt, alloc, depth.saturating_add(1));
    let (word, all) = (Type::U32, MemView::Whole);
    assert_same(&rt, layout.ty(), &ty);
    let sizes = [layout.size(), layout.size_with(3), layout.count_in(4)];
    assert_same(&rt, sizes, [Some(4), Some(4), Some(0)]);
    let range = layout.range(4, &view);
    assert_same(&rt, range.map(|r| (r.start, r.end)), Ok((0, 4)));
    assert_same(&rt, layout.range(4, &nowhere), Err(NoPart));
    let part = made!(&rt; layout.part_ty(alloc, 4, &view));
    assert_answer(&rt, part, Some(&word));
    let whole = made!(&rt; layout.part_ty(alloc, 4, &all));
    assert_answer(&rt, whole, Some(&ty));
    drop((ty, layout, view));
    drop((nowhere, word, all));
}

#[test]
fn copies_of_layouts(rt: HostRuntime) {
    let alloc = rt.alloc();
    let depth = levels(&rt);
    let (ty, other) = (
        arrays(&rt, alloc, depth, Type::U32),
        arrays(&rt, alloc, depth, Type::I32),
    );
    let (layout, signed) = (layout_of(&rt, alloc, &ty), layout_of(&rt, alloc, &other));
    assert_that(&rt, layout != signed);
    assert_is(&rt, made!(&rt; layout.clone(alloc)), &layout);
    drop((ty, other));
    drop((layout, signed));
}

#[test]
fn bytes_of_the_caller_are_read_and_written(rt: HostRuntime) {
    let alloc = rt.alloc();
    let depth = levels(&rt);
    let ty = arrays(&rt, alloc, depth, Type::U32);
    let layout = layout_of(&rt, alloc, &ty);
    let (view, all) = (first_parts(&rt, alloc, depth), MemView::Whole);
    let whole = in_arrays(&rt, alloc, depth, Instance::from(5u32));
    let seven = storable(&rt, Instance::from(7u32));
    let mut bytes = [0u8; 6];
    assert_same(&rt, layout.write(&mut bytes, &all, &whole), Ok(()));
    assert_same(&rt, bytes, [5, 0, 0, 0, 0, 0]);
    let read = made!(&rt; layout.read(alloc, &bytes, &all));
    assert_answer(&rt, read, Some(&whole));
    assert_same(&rt, layout.write(&mut bytes, &view, &seven), Ok(()));
    assert_same(&rt, bytes, [7, 0, 0, 0, 0, 0]);
    let read = made!(&rt; layout.read(alloc, &bytes, &view));
    assert_answer(&rt, read, Some(&seven));
    drop((ty, layout, view, all));
    drop((whole, seven));
}
