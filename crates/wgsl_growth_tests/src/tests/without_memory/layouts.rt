//! What a layout answers without memory: lengths, ranges, and writes into bytes of the caller's.

use crate::tests::asserts::assert_same;
use crate::tests::samples::{array, array_of, at, pair, storable, text};
use std::alloc::Global;
use std::process::Abort;
use wgsl_rules::Type;
use wgsl_store::Layout;
use wgsl_store::LayoutRefusal::{NoPart, OtherLength, OtherType, TooFewBytes};
use wgsl_values::{Instance, MemView};

fn layout_of(rt: &impl Abort, alloc: Global, ty: &Type) -> Layout {
    made!(rt; Layout::of(alloc, ty)).expect(rt, "a layout")
}

/// The view to the second component of the member b.
fn component(rt: &impl Abort, alloc: Global) -> MemView {
    MemView::Member(
        text(rt, alloc, "b"),
        made!(rt; Box::new(alloc, at(rt, alloc, 1))),
    )
}

#[test]
fn ranges_and_writes_of_a_structure(rt: HostRuntime) {
    let alloc = rt.alloc();
    let ty = pair(&rt, alloc);
    let layout = layout_of(&rt, alloc, &ty);
    let (view, nowhere) = (component(&rt, alloc), at(&rt, alloc, 1));
    let (seven, truth) = (
        storable(&rt, Instance::from(7u32)),
        storable(&rt, Instance::from(true)),
    );
    let mut bytes = [0xff; 32];
    assert_same(&rt, layout.ty(), &ty);
    let sizes = [layout.size(), layout.size_with(3), layout.count_in(32)];
    assert_same(&rt, sizes, [Some(32), Some(32), Some(0)]);
    let range = layout.range(32, &view);
    assert_same(&rt, range.map(|r| (r.start, r.end)), Ok((20, 24)));
    assert_same(&rt, layout.range(32, &nowhere), Err(NoPart));
    assert_same(&rt, layout.range(31, &view), Err(TooFewBytes));
    assert_same(&rt, layout.write(&mut bytes, &view, &truth), Err(OtherType));
    assert_same(&rt, layout.write(&mut bytes, &view, &seven), Ok(()));
    let mut wanted = [0xff; 32];
    wanted[20..24].copy_from_slice(&[7, 0, 0, 0]);
    assert_same(&rt, bytes, wanted);
    drop((ty, layout, view));
    drop((nowhere, seven, truth));
}

#[test]
fn lengths_of_a_runtime_sized_array(rt: HostRuntime) {
    let alloc = rt.alloc();
    let ty = array(&rt, alloc, Type::U32, None);
    let layout = layout_of(&rt, alloc, &ty);
    let three = array_of(&rt, alloc, &[1, 2, 3], true);
    let three = storable(&rt, Instance::from(three));
    let mut bytes = [0xff; 13];
    let sizes = [layout.size(), layout.size_with(3)];
    assert_same(&rt, sizes, [None, Some(12)]);
    let counts = [layout.count_in(13), layout.count_in(3)];
    assert_same(&rt, counts, [Some(3), None]);
    let whole = MemView::Whole;
    assert_same(
        &rt,
        layout.write(&mut bytes[..11], &whole, &three),
        Err(OtherLength),
    );
    assert_same(&rt, layout.write(&mut bytes, &whole, &three), Ok(()));
    assert_same(&rt, bytes, [1, 0, 0, 0, 2, 0, 0, 0, 3, 0, 0, 0, 255]);
    drop((ty, layout, three));
}
