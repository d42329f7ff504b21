//! Layouts: want of memory is told as such, and a write takes none.

use crate::tests::asserts::assert_same;
use crate::tests::samples::storable;
use std::alloc::{AllocError, Global};
use std::process::Abort;
use wgsl_rules::Type;
use wgsl_samples::types::pair;
use wgsl_store::Layout;
use wgsl_values::{Instance, MemView};

// The view to the second component of the member b.
fn component(alloc: Global) -> Result<MemView, AllocError> {
    let index = MemView::Index(1, Box::new(alloc, MemView::Whole)?);
    Ok(MemView::Member(String::from_str(alloc, "b")?, Box::new(alloc, index)?))
}

/// struct Pair { a: u32, b: vec3<u32> }
fn pair_type(rt: &impl Abort, alloc: Global) -> Type {
    answer_of!(rt; pair(alloc))
}

/// The view of [`component`].
fn view_of(rt: &impl Abort, alloc: Global) -> MemView {
    answer_of!(rt; component(alloc))
}

fn layout_of(rt: &impl Abort, alloc: Global, ty: &Type) -> Layout {
    answer_of!(rt; Layout::of(alloc, ty)).expect(rt, "a layout")
}

/// What the part of the bytes is read as.
fn value_at(
    rt: &impl Abort,
    alloc: Global,
    layout: &Layout,
    bytes: &[u8],
    view: &MemView,
) -> Option<Instance> {
    answer_of!(rt; layout.read(alloc, bytes, view))
}

fn assert_range(rt: &impl Abort, layout: &Layout, view: &MemView) {
    assert_same(rt, layout.range(32, view), Ok(20..24));
}

fn assert_part_ty(rt: &impl Abort, alloc: Global, layout: &Layout, view: &MemView, wanted: Type) {
    let part_ty = answer_of!(rt; layout.part_ty(alloc, 32, view));
    assert_same(rt, part_ty, Some(wanted));
}

#[test]
fn a_layout_wants_memory_or_is_whole(rt: HostRuntime) {
    let alloc = rt.alloc();
    let ty = pair_type(&rt, alloc);
    let view = view_of(&rt, alloc);
    let layout = layout_of(&rt, alloc, &ty);
    let seven = storable(&rt, Instance::from(7u32));
    let mut bytes = [0xff; 32];
    assert_same(&rt, layout.write(&mut bytes, &view, &seven), Ok(()));
    assert_range(&rt, &layout, &view);
    let read = value_at(&rt, alloc, &layout, &bytes, &view);
    assert_same(&rt, read, Some(seven));
    let whole = value_at(&rt, alloc, &layout, &bytes, &MemView::Whole);
    assert!(rt; whole.is_some());
    assert_part_ty(&rt, alloc, &layout, &view, Type::U32);
    drop((ty, view, layout, whole));
}

#[test]
fn a_copy_of_a_layout_wants_memory_or_is_whole(rt: HostRuntime) {
    let alloc = rt.alloc();
    let ty = pair_type(&rt, alloc);
    let view = view_of(&rt, alloc);
    let layout = layout_of(&rt, alloc, &ty);
    let copy = answer_of!(&rt; layout.clone(alloc));
    assert_same(&rt, &copy, &layout);
    assert_range(&rt, &copy, &view);
    drop((ty, view, layout, copy));
}
