//! Calls on references: after want of memory the store is as before, and the call can be made again.

use crate::tests::asserts::{assert_gives, assert_is, assert_same};
use crate::tests::calls::{
    convert_loaded, loaded, new, read, read_write, show, view_index, view_member, write,
};
use crate::tests::growth::samples::{open_vector, pair_of, u32_array, u32_vector};
use std::alloc::Global;
use std::process::Abort;
use std::slice;
use wgsl_rules::AccessMode::ReadWrite;
use wgsl_rules::Type;
use wgsl_samples::types::{pair, vector};
use wgsl_scalar::Error;
use wgsl_store::Store;
use wgsl_values::{Instance, RefInstance};

/// What a store holds: how many cells there are, and what is read by references.
#[derive(Debug, PartialEq, Drop)]
struct Content {
    cells: usize,
    values: Vec<Instance>,
}

/// What the reference is read as.
fn value_at(rt: &impl Abort, alloc: Global, store: &Store, reference: &RefInstance) -> Instance {
    answer_of!(rt; read(rt, alloc, store, reference))
}

fn member_of(
    rt: &impl Abort,
    alloc: Global,
    store: &Store,
    reference: &RefInstance,
    name: &str,
) -> RefInstance {
    answer_of!(rt; view_member(rt, alloc, store, reference, name))
}

fn part_of(
    rt: &impl Abort,
    alloc: Global,
    store: &Store,
    reference: &RefInstance,
    i: usize,
) -> RefInstance {
    answer_of!(rt; view_index(rt, alloc, store, reference, i))
}

fn copy_of(rt: &impl Abort, alloc: Global, reference: &RefInstance) -> RefInstance {
    answer_of!(rt; reference.clone(alloc))
}

fn assert_shows(
    rt: &impl Abort,
    alloc: Global,
    store: &Store,
    reference: &RefInstance,
    wanted: &str,
) {
    let text = answer_of!(rt; show(rt, alloc, store, reference));
    assert_same(rt, text.as_str(), wanted);
    drop(text);
}

fn values(
    rt: &impl Abort,
    alloc: Global,
    store: &Store,
    references: &[RefInstance],
) -> Vec<Instance> {
    let mut values = answer_of!(rt; Vec::with_capacity(alloc, references.len()));
    for reference in references {
        let value = value_at(rt, alloc, store, reference);
        values.push(value).expect(rt, "a place for it");
    }
    values
}

fn held(rt: &impl Abort, alloc: Global, store: &Store, references: &[RefInstance]) -> Content {
    Content {
        cells: store.len(),
        values: values(rt, alloc, store, references),
    }
}

/// The reference to a new cell with the value, which is given twice: a call that wants memory takes it all the same, and
/// what the others read is as before.
fn cell_beside(
    rt: &impl Abort,
    alloc: Global,
    store: &mut Store,
    others: &[RefInstance],
    value: Instance,
    again: Instance,
) -> RefInstance {
    let before = held(rt, alloc, store, others);
    match new(rt, alloc, store, value, ReadWrite) {
        Ok(reference) => {
            drop((before, again));
            reference
        }
        Err(error) => {
            assert_same(rt, error, Error::Memory);
            assert_same(rt, held(rt, alloc, store, others), before);
            new(rt, alloc, store, again, ReadWrite).expect(rt, "memory")
        }
    }
}

/// The reference to the first cell of a store, with the value.
fn first_cell(
    rt: &impl Abort,
    alloc: Global,
    store: &mut Store,
    value: Instance,
    again: Instance,
) -> RefInstance {
    assert_eq!(rt; store.len(), 0);
    cell_beside(rt, alloc, store, &[], value, again)
}

/// The reference to the first cell of a store, with Pair(1u, vec3(2u, 3u, 4u)).
fn pair_in(rt: &impl Abort, alloc: Global, store: &mut Store) -> RefInstance {
    let (pair, again) = (pair_of(rt, alloc, 1), pair_of(rt, alloc, 1));
    first_cell(rt, alloc, store, pair, again)
}

/// Pair(number, vec3(2u, 3u, 4u)) for an even number, whose cell is bytes, and for an odd one the reference, whose cell
/// is none.
fn value_of_cell(rt: &impl Abort, alloc: Global, number: u32, reference: &RefInstance) -> Instance {
    if number % 2 == 0 {
        pair_of(rt, alloc, number)
    } else {
        Instance::from(copy_of(rt, alloc, reference))
    }
}

#[test]
fn a_cell_that_wants_memory_is_not_made(rt: HostRuntime) {
    let alloc = rt.alloc();
    let mut store = Store::new(alloc);
    let whole = pair_in(&rt, alloc, &mut store);
    let b = member_of(&rt, alloc, &store, &whole, "b");
    let mut others = answer_of!(&rt; Vec::with_capacity(alloc, 8));
    others.push(b).expect(&rt, "a place for it");
    let first = copy_of(&rt, alloc, &whole);
    others.push(first).expect(&rt, "a place for it");
    for number in 2..7 {
        let value = value_of_cell(&rt, alloc, number, &whole);
        let again = value_of_cell(&rt, alloc, number, &whole);
        let wanted = value_of_cell(&rt, alloc, number, &whole);
        let reference = cell_beside(&rt, alloc, &mut store, &others, value, again);
        let value = value_at(&rt, alloc, &store, &reference);
        assert_same(&rt, value, wanted);
        others.push(reference).expect(&rt, "a place for it");
    }
    assert_eq!(rt; store.len(), 6);
    drop((store, whole, others));
}

#[test]
fn a_reference_one_step_deeper_wants_memory_or_is_made(rt: HostRuntime) {
    let alloc = rt.alloc();
    let mut store = Store::new(alloc);
    let whole = pair_in(&rt, alloc, &mut store);
    let b = member_of(&rt, alloc, &store, &whole, "b");
    assert!(rt; store.holds(&b));
    let last = part_of(&rt, alloc, &store, &b, 2);
    assert!(rt; store.holds(&last));
    let value = value_at(&rt, alloc, &store, &last);
    assert_same(&rt, value, Instance::from(4u32));
    drop((store, whole, b, last));
}

#[test]
fn what_is_read_and_shown_wants_memory_or_is_whole(rt: HostRuntime) {
    let alloc = rt.alloc();
    let mut store = Store::new(alloc);
    let whole = pair_in(&rt, alloc, &mut store);
    let value = value_at(&rt, alloc, &store, &whole);
    assert_same(&rt, value, pair_of(&rt, alloc, 1));
    let wanted = "ref<storage, Pair, read_write>(Pair(1u, vec3(2u, 3u, 4u)))";
    assert_shows(&rt, alloc, &store, &whole, wanted);
    drop((store, whole));
}

/// What the reference leads to, read on.
fn loaded_from(rt: &impl Abort, alloc: Global, store: &Store, reference: &RefInstance) -> Instance {
    let first = Instance::from(copy_of(rt, alloc, reference));
    let second = Instance::from(copy_of(rt, alloc, reference));
    match loaded(rt, alloc, store, first) {
        Ok(value) => {
            drop(second);
            value
        }
        Err(error) => {
            assert_same(rt, error, Error::Memory);
            loaded(rt, alloc, store, second).expect(rt, "memory")
        }
    }
}

#[test]
fn what_is_loaded_wants_memory_or_is_whole(rt: HostRuntime) {
    let alloc = rt.alloc();
    let mut store = Store::new(alloc);
    let whole = pair_in(&rt, alloc, &mut store);
    let value = loaded_from(&rt, alloc, &store, &whole);
    let wanted = value_at(&rt, alloc, &store, &whole);
    assert_same(&rt, value, wanted);
    drop((store, whole));
}

/// The reference to a new cell with the vector of 1 and 2, each an AbstractInt.
fn abstract_in(rt: &impl Abort, alloc: Global, store: &mut Store) -> RefInstance {
    let vector = open_vector(rt, alloc, &[1, 2]);
    let again = open_vector(rt, alloc, &[1, 2]);
    first_cell(rt, alloc, store, vector, again)
}

fn assert_converts(
    rt: &impl Abort,
    alloc: Global,
    store: &Store,
    value: &Instance,
    ty: &Type,
    wanted: Option<Instance>,
) {
    let converted = answer_of!(rt; convert_loaded(rt, alloc, store, value, ty));
    assert_same(rt, converted, wanted);
}

#[test]
fn what_is_loaded_and_converted_wants_memory_or_is_whole(rt: HostRuntime) {
    let alloc = rt.alloc();
    let mut store = Store::new(alloc);
    let whole = Instance::from(abstract_in(&rt, alloc, &mut store));
    let ty = answer_of!(&rt; vector(alloc, 2, Type::U32));
    let wanted = Some(u32_vector(&rt, alloc, &[1, 2]));
    assert_converts(&rt, alloc, &store, &whole, &ty, wanted);
    assert_converts(&rt, alloc, &store, &whole, &Type::Bool, None);
    drop((store, whole, ty));
}

fn is_memory(refusal: &Option<Error>) -> bool {
    matches!(refusal, Some(Error::Memory))
}

/// Why the reference to the pair is not written by an u32; a call that wants memory changes nothing, and is made again.
fn refusal_to_write(
    rt: &impl Abort,
    alloc: Global,
    store: &mut Store,
    whole: &RefInstance,
) -> Option<Error> {
    let refusal = write(rt, alloc, store, whole, Instance::from(1u32)).err();
    if !is_memory(&refusal) {
        return refusal;
    }
    drop(refusal);
    assert_pair(rt, alloc, store, whole);
    write(rt, alloc, store, whole, Instance::from(1u32)).err()
}

/// Why the reference to the pair is not exchanged for an u32; a call that wants memory changes nothing, and is made again.
fn refusal_to_exchange(
    rt: &impl Abort,
    alloc: Global,
    store: &mut Store,
    whole: &RefInstance,
) -> Option<Error> {
    let refusal = read_write(rt, alloc, store, whole, Instance::from(1u32)).err();
    if !is_memory(&refusal) {
        return refusal;
    }
    drop(refusal);
    assert_pair(rt, alloc, store, whole);
    read_write(rt, alloc, store, whole, Instance::from(1u32)).err()
}

/// Asserts that the reference names Pair(1u, vec3(2u, 3u, 4u)) in the one cell of the store.
fn assert_pair(rt: &impl Abort, alloc: Global, store: &Store, whole: &RefInstance) {
    assert_eq!(rt; store.len(), 1);
    let value = value_at(rt, alloc, store, whole);
    assert_same(rt, value, pair_of(rt, alloc, 1));
}

#[test]
fn a_write_that_is_refused_changes_nothing(rt: HostRuntime) {
    let alloc = rt.alloc();
    let mut store = Store::new(alloc);
    let whole = pair_in(&rt, alloc, &mut store);
    let wanted = Some(Error::WriteRefType(Type::U32, answer_of!(&rt; pair(alloc))));
    let refusal = refusal_to_write(&rt, alloc, &mut store, &whole);
    assert_is(&rt, &wanted, refusal);
    assert_pair(&rt, alloc, &store, &whole);
    let refusal = refusal_to_exchange(&rt, alloc, &mut store, &whole);
    assert_same(&rt, refusal, wanted);
    assert_pair(&rt, alloc, &store, &whole);
    drop((store, whole));
}

/// References to Pair(1u, vec3(2u, 3u, 4u)), to its vector and the last component there, and to the second of three
/// elements of a runtime-sized array.
#[derive(Drop)]
struct Places {
    whole: RefInstance,
    vector: RefInstance,
    component: RefInstance,
    element: RefInstance,
}

/// The reference to the second of three elements, in a cell beside that of the other reference.
fn element_beside(
    rt: &impl Abort,
    alloc: Global,
    store: &mut Store,
    whole: &RefInstance,
) -> RefInstance {
    let three = u32_array(rt, alloc, &[10, 11, 12]);
    let again = u32_array(rt, alloc, &[10, 11, 12]);
    let elements = cell_beside(rt, alloc, store, slice::from_ref(whole), three, again);
    let element = part_of(rt, alloc, store, &elements, 1);
    drop(elements);
    element
}

fn places_in(rt: &impl Abort, alloc: Global, store: &mut Store) -> Places {
    let whole = pair_in(rt, alloc, store);
    let vector = member_of(rt, alloc, store, &whole, "b");
    let component = part_of(rt, alloc, store, &vector, 2);
    let element = element_beside(rt, alloc, store, &whole);
    Places {
        whole,
        vector,
        component,
        element,
    }
}

/// Asserts that the value is written, whatever memory there is.
fn assert_written(
    rt: &impl Abort,
    alloc: Global,
    store: &mut Store,
    reference: &RefInstance,
    value: Instance,
) {
    assert_gives(rt, write(rt, alloc, store, reference, value), ());
}

/// Asserts what the places hold behind the writes.
fn assert_all_written(rt: &impl Abort, alloc: Global, store: &Store, places: &Places) {
    let wanted = "ref<storage, Pair, read_write>(Pair(9u, vec3(7u, 8u, 5u)))";
    assert_shows(rt, alloc, store, &places.whole, wanted);
    let element = value_at(rt, alloc, store, &places.element);
    assert_same(rt, element, Instance::from(6u32));
}

#[test]
fn an_accepted_write_takes_no_memory(rt: HostRuntime) {
    let alloc = rt.alloc();
    let mut store = Store::new(alloc);
    let places = places_in(&rt, alloc, &mut store);
    let pair = pair_of(&rt, alloc, 9);
    let vector = u32_vector(&rt, alloc, &[7, 8, 9]);
    assert_written(&rt, alloc, &mut store, &places.whole, pair);
    assert_written(&rt, alloc, &mut store, &places.vector, vector);
    let five = Instance::from(5u32);
    assert_written(&rt, alloc, &mut store, &places.component, five);
    let six = Instance::from(6u32);
    assert_written(&rt, alloc, &mut store, &places.element, six);
    assert_all_written(&rt, alloc, &store, &places);
    drop((store, places));
}
