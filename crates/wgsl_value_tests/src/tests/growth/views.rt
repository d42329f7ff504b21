//! Views: their copies, their steps, and what they are refused.

use crate::tests::asserts::{assert_has, assert_same, assert_told};
use crate::tests::samples::{
    light, mat2x3, matrix, named, storable, text, to_component, to_member,
};
use std::alloc::{AllocError, Global};
use std::mem;
use std::process::Abort;
use wgsl_rules::Type;
use wgsl_samples::refusals::refusal_to_write;
use wgsl_scalar::Error;
use wgsl_values::{Instance, MemView};

#[test]
fn a_copy_of_a_view_wants_memory_or_is_equal(rt: HostRuntime) {
    let alloc = rt.alloc();
    let view = to_member(&rt, alloc);
    let copy = answer_of!(&rt; view.clone(alloc));
    assert_same(&rt, copy, view);
}

#[test]
fn the_text_of_a_view_wants_memory_or_is_whole(rt: HostRuntime) {
    let alloc = rt.alloc();
    let view = to_member(&rt, alloc);
    let wanted = text(&rt, alloc, ":pairs:0:b");
    let found = answer_of!(&rt; view.to_string(alloc));
    assert_same(&rt, found, wanted);
    drop(view);
}

/// The view `:m:1`.
fn to_column(rt: &impl Abort, alloc: Global) -> MemView {
    let mut view = named(rt, alloc, "m");
    made!(rt; view.append_index(alloc, 1));
    view
}

#[test]
fn an_index_that_wants_memory_is_not_put_on(rt: HostRuntime) {
    let alloc = rt.alloc();
    let (mut view, old) = (to_column(&rt, alloc), to_column(&rt, alloc));
    let wanted = to_component(&rt, alloc);
    if view.append_index(alloc, 2).is_err() {
        assert!(rt; view == old);
        view.append_index(alloc, 2).expect(&rt, "memory");
    }
    assert_same(&rt, view, wanted);
    drop(old);
}

/// The view `:pairs:0`.
fn to_element(rt: &impl Abort, alloc: Global) -> MemView {
    let mut view = named(rt, alloc, "pairs");
    made!(rt; view.append_index(alloc, 0));
    view
}

/// Whether memory is wanting to put the member b on.
fn wants_memory(rt: &impl Abort, alloc: Global, view: &mut MemView) -> bool {
    view.append_member(alloc, text(rt, alloc, "b")).is_err()
}

#[test]
fn a_member_that_wants_memory_is_not_put_on(rt: HostRuntime) {
    let alloc = rt.alloc();
    let (mut view, old) = (to_element(&rt, alloc), to_element(&rt, alloc));
    let wanted = to_member(&rt, alloc);
    if wants_memory(&rt, alloc, &mut view) {
        assert!(rt; view == old);
        assert!(rt; !wants_memory(&rt, alloc, &mut view));
    }
    assert_same(&rt, view, wanted);
    drop(old);
}

#[test]
fn a_view_with_a_last_index_wants_memory_or_is_made(rt: HostRuntime) {
    let alloc = rt.alloc();
    let (view, old) = (to_column(&rt, alloc), to_column(&rt, alloc));
    let wanted = to_component(&rt, alloc);
    let found = answer_of!(&rt; view.with_index(alloc, 2));
    assert_same(&rt, found, wanted);
    assert_same(&rt, view, old);
}

/// The view with a last step to the member b.
fn with_b(rt: &impl Abort, alloc: Global, view: &MemView) -> Result<MemView, AllocError> {
    view.with_member(alloc, text(rt, alloc, "b"))
}

#[test]
fn a_view_with_a_last_member_wants_memory_or_is_made(rt: HostRuntime) {
    let alloc = rt.alloc();
    let (view, old) = (to_element(&rt, alloc), to_element(&rt, alloc));
    let wanted = to_member(&rt, alloc);
    let found = answer_of!(&rt; with_b(&rt, alloc, &view));
    assert_same(&rt, found, wanted);
    assert_same(&rt, view, old);
}

/// The view to the third part.
fn to_third(rt: &impl Abort, alloc: Global) -> MemView {
    MemView::Index(2, made!(rt; Box::new(alloc, MemView::Whole)))
}

/// Why a matrix of two columns and three rows has no third column.
fn past_the_end(rt: &impl Abort, alloc: Global) -> Error {
    Error::OutOfBounds(2, matrix(rt, alloc, Type::U32), 2)
}

#[test]
fn a_refused_view_wants_memory_or_is_told(rt: HostRuntime) {
    let alloc = rt.alloc();
    let (view, error) = (to_third(&rt, alloc), past_the_end(&rt, alloc));
    let value = storable(&rt, Instance::from(mat2x3(&rt, alloc)));
    let first = value.view(alloc, &view).err();
    let second = value.view(alloc, &view).err();
    assert_told(&rt, first, second, error);
    drop((value, view));
}

#[test]
fn a_view_without_a_member_wants_memory_or_is_told(rt: HostRuntime) {
    let alloc = rt.alloc();
    let view = to_component(&rt, alloc);
    let ty = matrix(&rt, alloc, Type::U32);
    let error = Error::Component(ty, text(&rt, alloc, "m"));
    let value = storable(&rt, Instance::from(mat2x3(&rt, alloc)));
    let first = value.view(alloc, &view).err();
    let second = value.view(alloc, &view).err();
    assert_told(&rt, first, second, error);
    drop((value, view));
}

#[test]
fn a_view_to_write_that_is_refused_changes_nothing(rt: HostRuntime) {
    let alloc = rt.alloc();
    let (view, error) = (to_third(&rt, alloc), past_the_end(&rt, alloc));
    let copy = Instance::from(mat2x3(&rt, alloc));
    let mut value = storable(&rt, Instance::from(mat2x3(&rt, alloc)));
    let first = refusal_to_write(alloc, &mut value, &view);
    assert!(rt; value == copy);
    assert!(rt; value.is_well_formed());
    let second = refusal_to_write(alloc, &mut value, &view);
    assert_told(&rt, first, second, error);
    drop((value, copy, view));
}

#[test]
fn a_view_that_leads_to_a_part_takes_no_memory(rt: HostRuntime) {
    let alloc = rt.alloc();
    let view = to_component(&rt, alloc);
    let mut value = storable(&rt, light(&rt, alloc));
    assert_has(&rt, value.view(alloc, &view).ok(), Instance::from(6u32));
    let mut component = value.view_mut(alloc, &view).expect(&rt, "a part");
    drop(mem::replace(&mut *component, Instance::from(9u32)));
    drop(component);
    let old = value.put(&view, Instance::from(7u32));
    assert_same(&rt, old, Some(Instance::from(9u32)));
    drop((value, view));
}
