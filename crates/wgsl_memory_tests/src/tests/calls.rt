//! Calls on references, each of which tests its conditions first.

use std::alloc::Global;
use std::process::Abort;
use wgsl_rules::AddressSpace::Storage;
use wgsl_rules::{AccessMode, Type};
use wgsl_scalar::Error;
use wgsl_store::{Loads, References, Show, Store};
use wgsl_values::{Instance, RefInstance};

/// A new cell with the value, and the reference to it.
pub(super) fn new(
    rt: &impl Abort,
    alloc: Global,
    store: &mut Store,
    value: Instance,
    access: AccessMode,
) -> Result<RefInstance, Error> {
    assert!(rt; value.is_storable());
    assert!(rt; store.holds_value(&value));
    RefInstance::new(alloc, store, value, Storage, access)
}

pub(super) fn view_member(
    rt: &impl Abort,
    alloc: Global,
    store: &Store,
    reference: &RefInstance,
    name: &str,
) -> Result<RefInstance, Error> {
    assert!(rt; store.holds(reference));
    reference.view_member(alloc, store, String::from_str(alloc, name)?)
}

pub(super) fn view_index(
    rt: &impl Abort,
    alloc: Global,
    store: &Store,
    reference: &RefInstance,
    i: usize,
) -> Result<RefInstance, Error> {
    assert!(rt; store.holds(reference));
    reference.view_index(alloc, store, i)
}

pub(super) fn read(
    rt: &impl Abort,
    alloc: Global,
    store: &Store,
    reference: &RefInstance,
) -> Result<Instance, Error> {
    assert!(rt; store.holds(reference));
    reference.read(alloc, store)
}

pub(super) fn write(
    rt: &impl Abort,
    alloc: Global,
    store: &mut Store,
    reference: &RefInstance,
    value: Instance,
) -> Result<(), Error> {
    assert!(rt; store.holds(reference));
    assert!(rt; value.is_storable());
    assert!(rt; store.holds_value(&value));
    reference.write(alloc, store, value)
}

pub(super) fn copy(
    rt: &impl Abort,
    alloc: Global,
    store: &mut Store,
    from: &RefInstance,
    to: &RefInstance,
) -> Result<(), Error> {
    assert!(rt; store.holds(from));
    assert!(rt; store.holds(to));
    from.copy_to(alloc, store, to)
}

pub(super) fn read_write(
    rt: &impl Abort,
    alloc: Global,
    store: &mut Store,
    reference: &RefInstance,
    value: Instance,
) -> Result<Instance, Error> {
    assert!(rt; store.holds(reference));
    assert!(rt; value.is_storable());
    assert!(rt; store.holds_value(&value));
    reference.read_write(alloc, store, value)
}

pub(super) fn show(
    rt: &impl Abort,
    alloc: Global,
    store: &Store,
    reference: &RefInstance,
) -> Result<String, Error> {
    let value = Instance::from(reference.clone(alloc)?);
    assert!(rt; store.holds_value(&value));
    drop(value);
    reference.show(alloc, store)
}

pub(super) fn loaded(
    rt: &impl Abort,
    alloc: Global,
    store: &Store,
    value: Instance,
) -> Result<Instance, Error> {
    assert!(rt; store.holds_value(&value));
    value.loaded(alloc, store)
}

pub(super) fn convert_loaded(
    rt: &impl Abort,
    alloc: Global,
    store: &Store,
    value: &Instance,
    ty: &Type,
) -> Result<Option<Instance>, Error> {
    assert!(rt; store.holds_value(value));
    assert!(rt; value.is_well_formed());
    value.convert_loaded(alloc, store, ty)
}
