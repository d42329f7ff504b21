//! Views of 100,000 steps, whatever the levels of types and values are: they are gone along in loops.

use crate::tests::asserts::{assert_is, assert_same, assert_that};
use crate::tests::depth::{assert_text, first_parts, nested};
use crate::tests::samples::{array, array_of, storable, text};
use std::alloc::Global;
use std::process::Abort;
use wgsl_rules::AccessMode::ReadWrite;
use wgsl_rules::AddressSpace::Storage;
use wgsl_rules::Type;
use wgsl_samples::refusals::refusal_to_write;
use wgsl_scalar::Error;
use wgsl_store::LayoutRefusal::NoPart;
use wgsl_store::{Layout, References, Store};
use wgsl_values::{Instance, MemView, RefInstance};

const STEPS: usize = 100_000;

fn long_view(rt: &impl Abort, alloc: Global) -> MemView {
    first_parts(rt, alloc, STEPS)
}

#[test]
fn copies_of_views_with_a_step_more(rt: HostRuntime) {
    let alloc = rt.alloc();
    let view = long_view(&rt, alloc);
    let mut copy = made!(&rt; view.clone(alloc));
    assert_same(&rt, &copy, &view);
    made!(&rt; copy.append_index(alloc, 7));
    let longer = made!(&rt; view.with_index(alloc, 7));
    assert_same(&rt, &longer, &copy);
    assert_that(&rt, longer != view);
    let wanted = nested(&rt, alloc, STEPS, [":0", ":7", ""]);
    assert_text(&rt, alloc, &longer, wanted.as_str());
    drop((copy, longer));
    let mut copy = made!(&rt; view.clone(alloc));
    made!(&rt; copy.append_member(alloc, text(&rt, alloc, "m")));
    let longer = made!(&rt; view.with_member(alloc, text(&rt, alloc, "m")));
    assert_same(&rt, &longer, &copy);
    let wanted = nested(&rt, alloc, STEPS, [":0", ":m", ""]);
    assert_text(&rt, alloc, &longer, wanted.as_str());
    drop((view, copy, longer));
}

#[test]
fn a_view_that_leads_nowhere_behind_its_first_step(rt: HostRuntime) {
    let alloc = rt.alloc();
    let view = long_view(&rt, alloc);
    let mut value = storable(&rt, Instance::from(array_of(&rt, alloc, &[1], false)));
    let refusal = value.view(alloc, &view).err();
    assert_same(&rt, refusal, Some(Error::NotIndexable(Type::U32)));
    let refusal = refusal_to_write(alloc, &mut value, &view);
    assert_same(&rt, refusal, Some(Error::NotIndexable(Type::U32)));
    assert_same(&rt, value.put(&view, Instance::from(7u32)), None);
    let ty = array(&rt, alloc, Type::U32, Some(1));
    let layout = made!(&rt; Layout::of(alloc, &ty)).expect(&rt, "a layout");
    assert_same(&rt, layout.range(4, &view), Err(NoPart));
    drop((view, value, ty));
    drop(layout);
}

#[test]
fn references_with_long_views(rt: HostRuntime) {
    let alloc = rt.alloc();
    let mut store = Store::new(alloc);
    let value = storable(&rt, Instance::from(array_of(&rt, alloc, &[1], false)));
    assert!(rt; store.holds_value(&value));
    let whole = made!(&rt; RefInstance::new(alloc, &mut store, value, Storage, ReadWrite));
    let (view, other) = (long_view(&rt, alloc), long_view(&rt, alloc));
    let long = RefInstance::from_parts(whole.cell(), view, Type::U32, Storage, ReadWrite);
    let longer = made!(&rt; other.with_index(alloc, 0));
    let longer = RefInstance::from_parts(whole.cell(), longer, Type::U32, Storage, ReadWrite);
    assert!(rt; store.holds(&whole));
    assert!(rt; !store.holds(&long));
    assert_that(&rt, long != longer);
    assert_is(&rt, made!(&rt; long.clone(alloc)), &long);
    drop((store, whole, other));
    drop((long, longer));
}
