//! Cells of stores, and calls on these and on sessions, that several tests make.

ghost use Rattle.wgsl_session.specs.Calls.{IsSoundCall};
ghost use Rattle.wgsl_session.specs.View.{call_of};

use crate::tests::asserts::assert_same;
use std::alloc::Global;
use std::process::Abort;
use wgsl_rules::AccessMode::ReadWrite;
use wgsl_rules::AddressSpace::Storage;
use wgsl_session::Call;
use wgsl_store::{References, Store};
use wgsl_values::{Instance, RefInstance};

/// The reference to a new cell with the value.
pub(super) fn cell_with(
    rt: &impl Abort,
    alloc: Global,
    store: &mut Store,
    value: Instance,
) -> RefInstance {
    assert!(rt; value.is_storable());
    assert!(rt; store.holds_value(&value));
    made!(rt; RefInstance::new(alloc, store, value, Storage, ReadWrite))
}

/// What is read through the reference.
pub(super) fn read(
    rt: &impl Abort,
    alloc: Global,
    store: &Store,
    reference: &RefInstance,
) -> Instance {
    assert!(rt; store.holds(reference));
    answer_of!(rt; reference.read(alloc, store))
}

/// Asserts that what the one reference names is copied to what the other names.
pub(super) fn assert_copied(
    rt: &impl Abort,
    alloc: Global,
    store: &mut Store,
    from: &RefInstance,
    to: &RefInstance,
) {
    assert!(rt; store.holds(from));
    assert!(rt; store.holds(to));
    assert_same(rt, from.copy_to(alloc, store, to), Ok(()));
}

/// The call, which a session takes.
pub(super) fn sound(rt: &impl Abort, call: Call) -> Call
    ensures { IsSoundCall (call_of result) }
{
    assert!(rt; call.is_sound());
    call
}
