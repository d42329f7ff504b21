//! The pointers to what references name, and the references that pointers hold.

use crate::tests::answers::{assert_answer, turned};
use crate::tests::made::made;
use crate::tests::rows::parted;
use std::alloc::{AllocError, Global};
use std::process::Abort;
use wgsl_ops::InstanceOperators;
use wgsl_rules::AccessMode::{ReadWrite, Write};
use wgsl_rules::AddressSpace::{Handle, Storage};
use wgsl_rules::UnaryOperator::Indirection;
use wgsl_rules::{AccessMode, AddressSpace, Type};
use wgsl_samples::operands::{Sample, b2, i, u2};
use wgsl_samples::types;
use wgsl_samples::values::view;
use wgsl_scalar::Error;
use wgsl_scalar::LiteralInstance::I32;
use wgsl_store::{References, Store};
use wgsl_values::{Instance, RefInstance};

/// Makes a cell with the value, and answers the reference to it.
fn new_cell(
    rt: &impl Abort,
    alloc: Global,
    store: &mut Store,
    sample: Sample,
) -> Result<RefInstance, Error> {
    let value = made(rt, alloc, sample);
    assert!(rt; value.is_storable());
    assert!(rt; store.holds_value(&value));
    RefInstance::new(alloc, store, value, Storage, ReadWrite)
}

/// A store with one cell, which is made with the value: a call that wants memory makes none.
fn store_of(rt: &impl Abort, alloc: Global, cell: Sample) -> Store {
    let mut store = Store::new(alloc);
    drop(again!(rt; new_cell(rt, alloc, &mut store, cell)));
    assert_eq!(rt; store.len(), 1);
    store
}

/// The scalar type, or that of vectors of so many of it.
fn ty(alloc: Global, components: u8, scalar: Type) -> Result<Type, AllocError> {
    if components == 0 {
        Ok(scalar)
    } else {
        types::vector(alloc, components, scalar)
    }
}

/// What the reference names is taken the address of, in a store with one cell that holds the value.
fn address(
    rt: &impl Abort,
    alloc: Global,
    cell: Sample,
    reference: RefInstance,
) -> Result<Instance, Error> {
    let store = store_of(rt, alloc, cell);
    assert!(rt; store.holds(&reference));
    let value = Instance::from(reference);
    assert!(rt; value.is_well_formed());
    let answer = answered!(value.op_ref(alloc, &store));
    drop((store, value));
    answer
}

/// Asserts the text of the address of what the name and the indices lead to in the cell, which is of the type.
fn assert_address(
    rt: &impl Abort,
    alloc: Global,
    row: usize,
    (cell, name, indices): (Sample, &str, &[usize]),
    ty: Type,
    (space, access): (AddressSpace, AccessMode),
    wanted: &str,
) {
    let view = again!(rt; view(alloc, name, indices));
    let reference = RefInstance::from_parts(0, view, ty, space, access);
    let answer = address(rt, alloc, cell, reference);
    assert_answer(rt, alloc, row, answer, wanted);
}

/// The space and the access of the names; the test ends where they are others.
fn space_and_access(rt: &impl Abort, names: &str) -> (AddressSpace, AccessMode) {
    match names {
        "Storage ReadWrite" => (Storage, ReadWrite),
        "Storage Write" => (Storage, Write),
        "Handle ReadWrite" => (Handle, ReadWrite),
        _ => panic!(rt; "{names} are no space and access"),
    }
}

/// Asserts each row at the place of a u32, or of a vector of so many where that is not 0: `space access -> wanted`.
fn assert_addresses(
    rt: &impl Abort,
    alloc: Global,
    at: (Sample, &str, &[usize]),
    components: u8,
    rows: &str,
) {
    for (row, line) in rows.lines().enumerate() {
        let (names, wanted) = parted(rt, line, " -> ");
        let ty = again!(rt; ty(alloc, components, Type::U32));
        assert_address(rt, alloc, row, at, ty, space_and_access(rt, names), wanted);
    }
}

#[test]
fn components_of_vectors_have_no_address(rt: HostRuntime) {
    let alloc = rt.alloc();
    let rows = "\
        Storage ReadWrite -> PtrVecComp
        Storage Write -> PtrVecComp
        Handle ReadWrite -> PtrHandle";
    assert_addresses(&rt, alloc, (Sample::Structure, "b", &[0]), 0, rows);
    let rows = "\
        Storage ReadWrite -> ptr<storage, vec3<u32>, read_write>
        Storage Write -> ptr<storage, vec3<u32>, write>
        Handle ReadWrite -> PtrHandle";
    assert_addresses(&rt, alloc, (Sample::Structure, "b", &[]), 3, rows);
    let rows = "Storage ReadWrite -> ptr<storage, u32, read_write>";
    assert_addresses(&rt, alloc, (Sample::Structure, "a", &[]), 0, rows);
    let rows = "Storage ReadWrite -> PtrVecComp";
    assert_addresses(&rt, alloc, (Sample::Matrix, "", &[1, 0]), 0, rows);
    let rows = "Storage ReadWrite -> ptr<storage, vec2<u32>, read_write>";
    assert_addresses(&rt, alloc, (Sample::Matrix, "", &[1]), 2, rows);
    let rows = "Storage ReadWrite -> ptr<storage, u32, read_write>";
    assert_addresses(&rt, alloc, (Sample::Array, "", &[1]), 0, rows);
    let rows = "Storage Write -> PtrVecComp";
    assert_addresses(&rt, alloc, (u2(1, 2), "", &[1]), 0, rows);
    let rows = "Storage Write -> ptr<storage, vec2<u32>, write>";
    assert_addresses(&rt, alloc, (u2(1, 2), "", &[]), 2, rows);
}

#[test]
fn components_of_a_vector_that_has_no_bytes_have_no_address(rt: HostRuntime) {
    let alloc = rt.alloc();
    let (bools, reference) = (b2(true, false), (Storage, ReadWrite));
    let wanted = "PtrVecComp";
    assert_address(
        &rt,
        alloc,
        0,
        (bools, "", &[1]),
        Type::Bool,
        reference,
        wanted,
    );
    let ty = again!(&rt; ty(alloc, 2, Type::Bool));
    let wanted = "ptr<storage, vec2<bool>, read_write>";
    assert_address(&rt, alloc, 1, (bools, "", &[]), ty, reference, wanted);
}

/// Asserts the text of what the value leads to.
fn assert_led(rt: &impl Abort, alloc: Global, row: usize, value: Sample, wanted: &str) {
    let answer = turned(rt, alloc, Indirection, value);
    assert_answer(rt, alloc, row, answer, wanted);
}

#[test]
fn a_pointer_leads_to_its_reference(rt: HostRuntime) {
    let alloc = rt.alloc();
    assert_led(
        &rt,
        alloc,
        0,
        Sample::Pointer,
        "ref<storage, i32, read_write>",
    );
    let wanted = "Unary * ref<storage, i32, read_write>";
    assert_led(&rt, alloc, 1, Sample::Reference, wanted);
    let atomic = Sample::Atomic(I32(5));
    assert_led(&rt, alloc, 2, atomic, "Unary * atomic<i32>");
    assert_led(&rt, alloc, 3, Sample::Matrix, "Unary * mat2x2<u32>");
    assert_led(&rt, alloc, 4, Sample::Structure, "Unary * Pair");
    assert_led(&rt, alloc, 5, u2(1, 2), "Unary * vec2<u32>");
    assert_led(&rt, alloc, 6, i(5), "Unary * i32");
}
