//! Calls on references to cells that hold arrays of one element in each other: cells of bytes, and cells of what has no
//! layout.

use crate::tests::asserts::{assert_same, assert_that};
use crate::tests::cells::{assert_copied, cell_with};
use crate::tests::depth::{arrays, first_parts, in_arrays, levels, nested};
use std::alloc::Global;
use std::process::Abort;
use wgsl_rules::AccessMode::ReadWrite;
use wgsl_rules::AddressSpace::Storage;
use wgsl_rules::Type;
use wgsl_scalar::LiteralInstance::{Bool, U32};
use wgsl_scalar::{Error, LiteralInstance};
use wgsl_store::{Loads, References, Show, Store};
use wgsl_values::{Instance, RefInstance};

fn write(
    rt: &impl Abort,
    alloc: Global,
    store: &mut Store,
    reference: &RefInstance,
    value: Instance,
) -> Result<(), Error> {
    assert!(rt; store.holds(reference));
    assert!(rt; value.is_storable());
    assert!(rt; store.holds_value(&value));
    reference.write(alloc, store, value)
}

fn read_write(
    rt: &impl Abort,
    alloc: Global,
    store: &mut Store,
    reference: &RefInstance,
    value: Instance,
) -> Instance {
    assert!(rt; store.holds(reference));
    assert!(rt; value.is_storable());
    assert!(rt; store.holds_value(&value));
    made!(rt; reference.read_write(alloc, store, value))
}

/// Asserts what the reference is read as.
fn assert_reads(
    rt: &impl Abort,
    alloc: Global,
    store: &Store,
    reference: &RefInstance,
    wanted: Instance,
) {
    assert!(rt; store.holds(reference));
    assert_same(rt, made!(rt; reference.read(alloc, store)), wanted);
}

/// The first part of what the reference names.
fn first_of(rt: &impl Abort, alloc: Global, store: &Store, whole: &RefInstance) -> RefInstance {
    assert!(rt; store.holds(whole));
    made!(rt; whole.view_index(alloc, store, 0))
}

/// The reference to the part of the cell that is so many steps inside.
fn part_of(
    rt: &impl Abort,
    alloc: Global,
    whole: &RefInstance,
    steps: usize,
    ty: Type,
) -> RefInstance {
    let view = first_parts(rt, alloc, steps);
    RefInstance::from_parts(whole.cell(), view, ty, Storage, ReadWrite)
}

/// Asserts that the reference is written, and then written again while the value of before is answered. It names so many
/// arrays.
fn assert_written(
    rt: &impl Abort,
    alloc: Global,
    store: &mut Store,
    reference: &RefInstance,
    levels: usize,
    values: [LiteralInstance; 2],
) {
    let [first, second] = values;
    let value = in_arrays(rt, alloc, levels, Instance::from(first));
    let written = write(rt, alloc, store, reference, value);
    assert_same(rt, written, Ok(()));
    let value = in_arrays(rt, alloc, levels, Instance::from(second));
    let old = read_write(rt, alloc, store, reference, value);
    let wanted = in_arrays(rt, alloc, levels, Instance::from(first));
    assert_same(rt, old, wanted);
    assert_copied(rt, alloc, store, reference, reference);
    let wanted = in_arrays(rt, alloc, levels, Instance::from(second));
    assert_reads(rt, alloc, store, reference, wanted);
}

/// Makes a cell of the first literal in so many arrays, and asserts what is read of it, of its first element and of the
/// literal inside, while it is written, and a part half as many steps inside.
fn assert_cell(rt: &impl Abort, alloc: Global, depth: usize, values: [LiteralInstance; 2]) {
    let [first, second] = values;
    let mut store = Store::new(alloc);
    let value = in_arrays(rt, alloc, depth, Instance::from(first));
    let whole = cell_with(rt, alloc, &mut store, value);
    let element = first_of(rt, alloc, &store, &whole);
    let inside = part_of(rt, alloc, &whole, depth, first.literal_ty());
    assert_reads(rt, alloc, &store, &inside, Instance::from(first));
    assert_written(rt, alloc, &mut store, &whole, depth, [first, second]);
    assert_reads(rt, alloc, &store, &inside, Instance::from(second));
    let steps = depth / 2;
    let rest = depth.saturating_sub(steps);
    let ty = arrays(rt, alloc, rest, first.literal_ty());
    let part = part_of(rt, alloc, &whole, steps, ty);
    assert_written(rt, alloc, &mut store, &part, rest, [second, first]);
    let wanted = in_arrays(rt, alloc, depth.saturating_sub(1), Instance::from(first));
    assert_reads(rt, alloc, &store, &element, wanted);
    drop((store, whole, element));
    drop((inside, part));
}

#[test]
fn a_cell_of_bytes(rt: HostRuntime) {
    assert_cell(&rt, rt.alloc(), levels(&rt), [U32(1), U32(2)]);
}

#[test]
fn a_cell_that_is_no_bytes(rt: HostRuntime) {
    assert_cell(&rt, rt.alloc(), levels(&rt), [Bool(true), Bool(false)]);
}

/// Asserts that a value of another type is not written, and what is then told.
fn assert_misfit(rt: &impl Abort, alloc: Global, depth: usize, inside: LiteralInstance) {
    let mut store = Store::new(alloc);
    let own = arrays(rt, alloc, depth, inside.literal_ty());
    let value = in_arrays(rt, alloc, depth, Instance::from(inside));
    let whole = cell_with(rt, alloc, &mut store, value);
    let other = in_arrays(rt, alloc, depth, Instance::from(7i32));
    let given = arrays(rt, alloc, depth, Type::I32);
    let written = write(rt, alloc, &mut store, &whole, other);
    assert_same(rt, written, Err(Error::WriteRefType(given, own)));
    let wanted = in_arrays(rt, alloc, depth, Instance::from(inside));
    assert_reads(rt, alloc, &store, &whole, wanted);
    drop((store, whole));
}

#[test]
fn a_value_of_another_type_is_not_written(rt: HostRuntime) {
    let alloc = rt.alloc();
    let depth = levels(&rt);
    assert_misfit(&rt, alloc, depth, U32(1));
    assert_misfit(&rt, alloc, depth, Bool(true));
}

#[test]
fn what_is_told_of_a_cell(rt: HostRuntime) {
    let alloc = rt.alloc();
    let depth = levels(&rt);
    let mut store = Store::new(alloc);
    let value = in_arrays(&rt, alloc, depth, Instance::from(1u32));
    let whole = cell_with(&rt, alloc, &mut store, value);
    assert!(rt; store.holds(&whole));
    assert_that(&rt, !whole.names_component(&store));
    assert_same(&rt, store.element_count(&whole), Some(1));
    let bytes = [1u8, 0, 0, 0];
    assert_same(&rt, store.read_bytes(&whole), Ok(Some(bytes.as_slice())));
    let shown = made!(&rt; whole.show(alloc, &store));
    let ty = nested(&rt, alloc, depth, ["array<", "u32", ", 1>"]);
    let value = nested(&rt, alloc, depth, ["array(", "1u", ")"]);
    let wanted = format!(in alloc; "ref<storage, {ty}, read_write>({value})");
    assert_same(&rt, shown, made!(&rt; wanted));
    drop((store, whole));
}

#[test]
fn what_is_loaded(rt: HostRuntime) {
    let alloc = rt.alloc();
    let depth = levels(&rt);
    let mut store = Store::new(alloc);
    let value = in_arrays(&rt, alloc, depth, Instance::from(1i64));
    let whole = Instance::from(cell_with(&rt, alloc, &mut store, value));
    let ty = arrays(&rt, alloc, depth, Type::U32);
    assert!(rt; store.holds_value(&whole));
    assert!(rt; whole.is_well_formed());
    let converted = made!(&rt; whole.convert_loaded(alloc, &store, &ty));
    let wanted = in_arrays(&rt, alloc, depth, Instance::from(1u32));
    assert_same(&rt, converted, Some(wanted));
    let loaded = made!(&rt; whole.loaded(alloc, &store));
    let wanted = in_arrays(&rt, alloc, depth, Instance::from(1i64));
    assert_same(&rt, loaded, wanted);
    drop((store, ty));
}
