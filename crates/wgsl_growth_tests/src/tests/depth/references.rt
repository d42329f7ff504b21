//! References whose types are deep, and a chain of references: a reference to a cell that holds a reference, and so on. Its
//! types take memory with the square of its length, so it has a hundred of them, whatever the levels of types and values are.

use crate::tests::asserts::{assert_is, assert_same, assert_that};
use crate::tests::cells::cell_with;
use crate::tests::depth::{arrays, assert_text, levels, nested};
use std::alloc::Global;
use std::process::Abort;
use wgsl_rules::AccessMode::ReadWrite;
use wgsl_rules::AddressSpace::Storage;
use wgsl_rules::{Ty, Type};
use wgsl_store::{Loads, References, Store};
use wgsl_values::{Instance, MemView, PtrInstance, RefInstance};

/// The last of a hundred references, the first of them to 5u.
fn chain(rt: &impl Abort, alloc: Global, store: &mut Store) -> RefInstance {
    let mut reference = cell_with(rt, alloc, store, Instance::from(5u32));
    for _ in 1..100 {
        reference = cell_with(rt, alloc, store, Instance::from(reference));
    }
    reference
}

#[test]
fn a_chain_is_copied_and_printed(rt: HostRuntime) {
    let alloc = rt.alloc();
    let mut store = Store::new(alloc);
    let reference = chain(&rt, alloc, &mut store);
    let copy = made!(&rt; reference.clone(alloc));
    assert_same(&rt, &copy, &reference);
    let wanted = nested(&rt, alloc, 100, ["ref<storage, ", "u32", ", read_write>"]);
    assert_text(&rt, alloc, &reference, wanted.as_str());
    let wanted = nested(&rt, alloc, 99, ["ref<storage, ", "u32", ", read_write>"]);
    let wanted = made!(&rt; format!(in alloc; "ptr<storage, {wanted}, read_write>"));
    let pointer = PtrInstance::from(copy);
    assert_text(&rt, alloc, &pointer, wanted.as_str());
    assert_is(&rt, made!(&rt; pointer.clone(alloc)), &pointer);
    drop((store, reference, pointer));
}

#[test]
fn a_chain_is_loaded(rt: HostRuntime) {
    let alloc = rt.alloc();
    let mut store = Store::new(alloc);
    let reference = chain(&rt, alloc, &mut store);
    assert!(rt; store.holds(&reference));
    let value = Instance::from(reference);
    assert!(rt; store.holds_value(&value));
    assert!(rt; value.is_well_formed());
    let (ty, word) = (made!(&rt; value.ty(alloc)), Type::U32);
    assert_is(&rt, ty.loaded(), &word);
    let converted = made!(&rt; value.convert_loaded(alloc, &store, &word));
    assert_same(&rt, converted, Some(Instance::from(5u32)));
    let loaded = made!(&rt; value.loaded(alloc, &store));
    assert_same(&rt, loaded, Instance::from(5u32));
    drop((store, word));
}

/// A reference to cell 0, of so many arrays of the type.
fn to_arrays(rt: &impl Abort, alloc: Global, levels: usize, inside: Type) -> RefInstance {
    let ty = arrays(rt, alloc, levels, inside);
    RefInstance::from_parts(0, MemView::Whole, ty, Storage, ReadWrite)
}

#[test]
fn references_to_deep_types(rt: HostRuntime) {
    let alloc = rt.alloc();
    let depth = levels(&rt);
    let reference = to_arrays(&rt, alloc, depth, Type::U32);
    let other = to_arrays(&rt, alloc, depth, Type::I32);
    assert_is(&rt, made!(&rt; reference.clone(alloc)), &reference);
    assert_that(&rt, reference != other);
    let own = made!(&rt; reference.ty(alloc));
    assert_that(&rt, reference.has_ty(&own));
    drop(own);
    let ty = nested(&rt, alloc, depth, ["array<", "u32", ", 1>"]);
    let wanted = made!(&rt; format!(in alloc; "ref<storage, {ty}, read_write>"));
    assert_text(&rt, alloc, &reference, wanted.as_str());
    let pointer = PtrInstance::from(reference);
    assert_is(&rt, made!(&rt; pointer.clone(alloc)), &pointer);
    let wanted = made!(&rt; format!(in alloc; "ptr<storage, {ty}, read_write>"));
    assert_text(&rt, alloc, &pointer, wanted.as_str());
    drop((other, pointer));
}
