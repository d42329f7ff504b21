//! Views: what they lead to, what is refused, and what is written through them.

ghost use Rattle.wgsl_rules.specs.Values.{IsWellFormed};
ghost use Rattle.wgsl_values.specs.View.{value_of};

use crate::tests::asserts::{assert_is, assert_is_not, assert_same, assert_text};
use crate::tests::samples::{
    array, array_of, integers, light, matrix, member_then_index, named, pair, pair_value, storable,
    text, to_component, to_member, vector, vector_from, vector_of,
};
use std::alloc::Global;
use std::mem;
use std::process::Abort;
use wgsl_rules::Type;
use wgsl_samples::refusals::refusal_to_write;
use wgsl_scalar::Error;
use wgsl_values::{
    Instance, MemView, Placed, a_part_replaced_is_storable, texts_tell_values_apart,
    transposed_exchanges_rows_and_columns, transposed_twice_is_itself,
};

/// The view by one step, to the part of the index.
fn index(rt: &impl Abort, alloc: Global, i: usize) -> MemView {
    MemView::Index(i, Box::new(alloc, MemView::Whole).expect(rt, "memory"))
}

#[test]
fn steps_are_put_behind_the_others(rt: HostRuntime) {
    let alloc = rt.alloc();
    let mut view = MemView::Whole;
    view.append_member(alloc, text(&rt, alloc, "m"))
        .expect(&rt, "memory");
    view.append_index(alloc, 2).expect(&rt, "memory");
    assert_is(&rt, &view, member_then_index(&rt, alloc));
    assert_is(&rt, &view, view.clone(alloc).expect(&rt, "memory"));
    assert_is_not(&rt, &view, to_component(&rt, alloc));
    let member = named(&rt, alloc, "2");
    assert_is_not(&rt, &member, index(&rt, alloc, 2));
    let longer = to_member(&rt, alloc);
    assert_text(&rt, alloc, &longer, ":pairs:0:b");
    drop((view, member, longer));
}

/// Asserts that the view leads to the part.
fn assert_leads(rt: &impl Abort, alloc: Global, value: &Instance, view: MemView, part: Instance)
    requires { IsWellFormed (value_of value.now) }
{
    let found = value.view(alloc, &view).ok();
    assert!(rt; found == Some(&part), "{view}");
    drop((view, part));
}

#[test]
fn a_view_leads_to_a_part(rt: HostRuntime) {
    let alloc = rt.alloc();
    let value = storable(&rt, light(&rt, alloc));
    assert_leads(&rt, alloc, &value, MemView::Whole, light(&rt, alloc));
    let view = to_component(&rt, alloc);
    assert_leads(&rt, alloc, &value, view, Instance::from(6u32));
    let b = Instance::from(vector_of(&rt, alloc, &[2, 3, 4]));
    assert_leads(&rt, alloc, &value, to_member(&rt, alloc), b);
    drop(value);
}

/// Asserts that the view is refused with the error, where the value is looked at and where it is
/// to be written, and that nothing is changed.
fn assert_refused(rt: &impl Abort, alloc: Global, value: Instance, view: MemView, error: Error)
    requires { IsWellFormed (value_of value) }
{
    let mut whole = value.clone(alloc).expect(rt, "memory");
    assert!(rt; whole.is_well_formed());
    let refusal = value.view(alloc, &view).err();
    assert!(rt; refusal.as_ref() == Some(&error), "{view}");
    let write_refusal = refusal_to_write(alloc, &mut whole, &view);
    assert!(rt; write_refusal.as_ref() == Some(&error), "{view}");
    assert!(rt; whole == value, "{view}");
    drop((refusal, write_refusal, whole, value, view, error));
}

fn component(rt: &impl Abort, alloc: Global, ty: Type, name: &str) -> Error {
    Error::Component(ty, text(rt, alloc, name))
}

#[test]
fn the_first_step_that_leads_nowhere_is_refused(rt: HostRuntime) {
    let alloc = rt.alloc();
    let one = storable(&rt, Instance::from(1i32));
    let not_indexable = Error::NotIndexable(Type::I32);
    assert_refused(&rt, alloc, one, index(&rt, alloc, 0), not_indexable);
    let two = Instance::from(vector_from(&rt, integers(&rt, alloc, &[1, 2])));
    let error = component(&rt, alloc, vector(&rt, alloc, 2, Type::I32), "x");
    assert_refused(
        &rt,
        alloc,
        storable(&rt, two),
        named(&rt, alloc, "x"),
        error,
    );
    let two = Instance::from(vector_from(&rt, integers(&rt, alloc, &[1, 2])));
    let error = Error::OutOfBounds(2, vector(&rt, alloc, 2, Type::I32), 2);
    assert_refused(&rt, alloc, storable(&rt, two), index(&rt, alloc, 2), error);
}

#[test]
fn steps_into_a_structure_are_refused(rt: HostRuntime) {
    let alloc = rt.alloc();
    let pair_of = storable(&rt, Instance::from(pair_value(&rt, alloc)));
    let error = component(&rt, alloc, pair(&rt, alloc), "c");
    assert_refused(&rt, alloc, pair_of, named(&rt, alloc, "c"), error);
    let mut view = to_member(&rt, alloc);
    view.append_member(alloc, text(&rt, alloc, "x"))
        .expect(&rt, "memory");
    let error = component(&rt, alloc, vector(&rt, alloc, 3, Type::U32), "x");
    let whole = storable(&rt, light(&rt, alloc));
    assert_refused(&rt, alloc, whole, view, error);
    let mut view = named(&rt, alloc, "pairs");
    view.append_index(alloc, 1).expect(&rt, "memory");
    let error = Error::OutOfBounds(1, array(&rt, alloc, pair(&rt, alloc), None), 1);
    let whole = storable(&rt, light(&rt, alloc));
    assert_refused(&rt, alloc, whole, view, error);
    let mut view = named(&rt, alloc, "m");
    view.append_index(alloc, 2).expect(&rt, "memory");
    let error = Error::OutOfBounds(2, matrix(&rt, alloc, Type::U32), 2);
    let whole = storable(&rt, light(&rt, alloc));
    assert_refused(&rt, alloc, whole, view, error);
}

#[test]
fn a_deferred_value_has_no_parts(rt: HostRuntime) {
    let alloc = rt.alloc();
    let deferred = Instance::from(vector(&rt, alloc, 2, Type::U32));
    assert!(rt; deferred.is_well_formed());
    let error = Error::NotIndexable(vector(&rt, alloc, 2, Type::U32));
    assert_refused(&rt, alloc, deferred, index(&rt, alloc, 0), error);
}

#[test]
fn a_part_is_written_through_a_view(rt: HostRuntime) {
    let alloc = rt.alloc();
    let mut value = storable(&rt, light(&rt, alloc));
    let view = to_component(&rt, alloc);
    let mut component = value.view_mut(alloc, &view).expect(&rt, "memory");
    assert_is(&rt, &*component, Instance::from(6u32));
    drop(mem::replace(&mut *component, Instance::from(9u32)));
    drop(component);
    let text =
        "Light(mat2x3(vec3(1u, 2u, 3u), vec3(4u, 5u, 9u)), array(Pair(1u, vec3(2u, 3u, 4u))))";
    assert_text(&rt, alloc, &value, text);
    drop((value, view));
}

#[test]
fn a_part_is_put_into_its_place(rt: HostRuntime) {
    let alloc = rt.alloc();
    let mut value = light(&rt, alloc);
    let (member, first) = (to_member(&rt, alloc), index(&rt, alloc, 0));
    let b = Instance::from(vector_of(&rt, alloc, &[7, 8, 9]));
    let wanted = Instance::from(vector_of(&rt, alloc, &[2, 3, 4]));
    assert_same(&rt, value.put(&member, b), Some(wanted));
    let text =
        "Light(mat2x3(vec3(1u, 2u, 3u), vec3(4u, 5u, 6u)), array(Pair(1u, vec3(7u, 8u, 9u))))";
    assert_text(&rt, alloc, &value, text);
    assert_same(&rt, value.put(&first, Instance::from(1u32)), None);
    assert_text(&rt, alloc, &value, text);
    let component = to_component(&rt, alloc);
    Instance::from(5u32).place(&mut value, &component);
    let text =
        "Light(mat2x3(vec3(1u, 2u, 3u), vec3(4u, 5u, 5u)), array(Pair(1u, vec3(7u, 8u, 9u))))";
    assert_text(&rt, alloc, &value, text);
    drop((value, member, first, component));
}

#[test]
fn a_value_of_the_type_is_written_whatever_its_length(rt: HostRuntime) {
    let alloc = rt.alloc();
    let mut value = storable(&rt, Instance::from(array_of(&rt, alloc, &[1, 2, 3], true)));
    let shorter = storable(&rt, Instance::from(array_of(&rt, alloc, &[4, 5], true)));
    let old = value.write(alloc, shorter).expect(&rt, "memory");
    assert_same(
        &rt,
        old,
        Instance::from(array_of(&rt, alloc, &[1, 2, 3], true)),
    );
    assert_same(
        &rt,
        value,
        Instance::from(array_of(&rt, alloc, &[4, 5], true)),
    );
}

#[test]
fn a_value_of_another_type_is_not_written(rt: HostRuntime) {
    let alloc = rt.alloc();
    let mut value = storable(&rt, Instance::from(array_of(&rt, alloc, &[1, 2, 3], false)));
    let shorter = storable(&rt, Instance::from(array_of(&rt, alloc, &[4, 5], false)));
    let two = array(&rt, alloc, Type::U32, Some(2));
    let three = array(&rt, alloc, Type::U32, Some(3));
    let refusal = value.write(alloc, shorter).err();
    assert_same(&rt, refusal, Some(Error::WriteRefType(two, three)));
    assert_same(
        &rt,
        value,
        Instance::from(array_of(&rt, alloc, &[1, 2, 3], false)),
    );
}

#[test]
fn laws_of_values_do_nothing(_rt: HostRuntime) {
    texts_tell_values_apart();
    transposed_exchanges_rows_and_columns();
    transposed_twice_is_itself();
    a_part_replaced_is_storable();
}

/// A view of so many steps, each to the part of an index below 10.
fn long_view(rt: &impl Abort, alloc: Global, steps: usize) -> MemView {
    let mut view = MemView::Whole;
    for step in 0..steps {
        view = MemView::Index(step % 10, Box::new(alloc, view).expect(rt, "memory"));
    }
    view
}

#[test]
fn a_view_has_any_number_of_steps(rt: HostRuntime) {
    let alloc = rt.alloc();
    let view = long_view(&rt, alloc, 100_000);
    let mut copy = view.clone(alloc).expect(&rt, "memory");
    assert!(rt; copy == view);
    copy.append_index(alloc, 7).expect(&rt, "memory");
    assert!(rt; copy != view);
    let text = copy.to_string(alloc).expect(&rt, "memory");
    assert!(rt; text.len() == 200_002);
    assert!(rt; text.as_str().starts_with(":9:8:7"));
    assert!(rt; text.as_str().ends_with(":1:0:7"));
    drop((view, copy, text));
}
