//! A store with structures of atomics, and references into them.

use crate::tests::atomics::plain::TOTALS;
use std::alloc::Global;
use std::process::Abort;
use wgsl_rules::AccessMode::ReadWrite;
use wgsl_rules::AddressSpace::Storage;
use wgsl_store::{References, Store};
use wgsl_values::{Instance, PtrInstance, RefInstance};

/// A store with a structure of bytes and one without a layout, and references into them: to each word, and to the
/// totals of each structure.
#[derive(Drop)]
pub(super) struct Memory {
    pub store: Store,
    pub words: Vec<RefInstance>,
    pub totals: Vec<RefInstance>,
}

/// The reference to a new cell with the value.
fn new_cell(rt: &impl Abort, alloc: Global, store: &mut Store, value: Instance) -> RefInstance {
    assert!(rt; value.is_storable());
    assert!(rt; store.holds_value(&value));
    RefInstance::new(alloc, store, value, Storage, ReadWrite).expect(rt, "a cell")
}

fn view_member(
    rt: &impl Abort,
    alloc: Global,
    store: &Store,
    reference: &RefInstance,
    name: &str,
) -> RefInstance {
    assert!(rt; store.holds(reference));
    let name = String::from_str(alloc, name).expect(rt, "memory");
    reference
        .view_member(alloc, store, name)
        .expect(rt, "a member")
}

fn view_index(
    rt: &impl Abort,
    alloc: Global,
    store: &Store,
    reference: &RefInstance,
    i: usize,
) -> RefInstance {
    assert!(rt; store.holds(reference));
    reference.view_index(alloc, store, i).expect(rt, "a part")
}

impl Memory {
    pub(super) fn new(alloc: Global) -> Memory {
        Memory {
            store: Store::new(alloc),
            words: Vec::new(alloc),
            totals: Vec::new(alloc),
        }
    }

    /// Adds a structure in a cell of its own, and the references into it.
    pub(super) fn add(&mut self, rt: &impl Abort, alloc: Global, structure: Instance) {
        let whole = new_cell(rt, alloc, &mut self.store, structure);
        let count = view_member(rt, alloc, &self.store, &whole, "count");
        let totals = view_member(rt, alloc, &self.store, &whole, "totals");
        drop(whole);
        self.words.push(count).expect(rt, "memory");
        for i in 0..TOTALS {
            let total = view_index(rt, alloc, &self.store, &totals, i);
            self.words.push(total).expect(rt, "memory");
        }
        self.totals.push(totals).expect(rt, "memory");
    }
}

/// The reference there.
pub(super) fn at<'a>(rt: &impl Abort, references: &'a [RefInstance], i: usize) -> &'a RefInstance {
    references.get(i).expect(rt, "a reference")
}

/// A pointer to what the reference there names.
pub(super) fn pointer(
    rt: &impl Abort,
    alloc: Global,
    references: &[RefInstance],
    i: usize,
) -> Instance {
    let reference = at(rt, references, i).clone(alloc).expect(rt, "memory");
    Instance::from(PtrInstance::from(reference))
}
