//! Views that lead nowhere: the refusal has the type of what the step was asked of, or memory was wanting for it, and
//! nothing is changed.

ghost use Rattle.wgsl_rules.specs.Values.{IsWellFormed};
ghost use Rattle.wgsl_values.specs.View.{value_of};

use crate::tests::asserts::{assert_refusal, assert_same, is_of_memory};
use crate::tests::samples::{array, array_of, at, named, pair, pair_with, storable, text};
use std::alloc::Global;
use std::process::Abort;
use wgsl_rules::Type;
use wgsl_samples::refusals::refusal_to_write;
use wgsl_scalar::Error;
use wgsl_values::{Instance, MemView};

/// Asserts that the view is refused to be looked at.
fn assert_not_viewed(
    rt: &impl Abort,
    alloc: Global,
    value: &Instance,
    view: &MemView,
    error: &Error,
)
    requires { IsWellFormed (value_of value.now) }
{
    let first = value.view(alloc, view).err();
    let again = if is_of_memory(&first) {
        value.view(alloc, view).err()
    } else {
        None
    };
    assert_refusal(rt, first, again, error);
}

/// Asserts that the view is refused, where the value is looked at and where it is to be written.
fn assert_refused(rt: &impl Abort, alloc: Global, value: Instance, view: MemView, error: Error)
    requires { IsWellFormed (value_of value) }
{
    assert_not_viewed(rt, alloc, &value, &view, &error);
    let copy = made!(rt; value.clone(alloc));
    let mut value = value;
    let first = refusal_to_write(alloc, &mut value, &view);
    assert_same(rt, &value, &copy);
    let mut value = storable(rt, value);
    let again = if is_of_memory(&first) {
        refusal_to_write(alloc, &mut value, &view)
    } else {
        None
    };
    assert_refusal(rt, first, again, &error);
    assert_same(rt, value, copy);
    drop((view, error));
}

#[test]
fn a_structure_has_no_part_of_an_index(rt: HostRuntime) {
    let alloc = rt.alloc();
    let value = storable(&rt, Instance::from(pair_with(&rt, alloc, 1)));
    let error = Error::NotIndexable(pair(&rt, alloc));
    assert_refused(&rt, alloc, value, at(&rt, alloc, 0), error);
}

#[test]
fn a_structure_has_no_member_of_another_name(rt: HostRuntime) {
    let alloc = rt.alloc();
    let value = storable(&rt, Instance::from(pair_with(&rt, alloc, 1)));
    let error = Error::Component(pair(&rt, alloc), text(&rt, alloc, "c"));
    assert_refused(&rt, alloc, value, named(&rt, alloc, "c"), error);
}

#[test]
fn an_array_has_no_element_past_its_end(rt: HostRuntime) {
    let alloc = rt.alloc();
    let value = storable(&rt, Instance::from(array_of(&rt, alloc, &[1, 2], true)));
    let error = Error::OutOfBounds(2, array(&rt, alloc, Type::U32, None), 2);
    assert_refused(&rt, alloc, value, at(&rt, alloc, 2), error);
}
