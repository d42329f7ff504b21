//! Builtin functions that take no memory: they give what they give where each growth behind the making of their
//! arguments is refused.

use crate::tests::atomics::Place;
use crate::tests::rows::{parted, sample};
use std::alloc::Global;
use std::process::Abort;
use wgsl_rules::AccessMode::ReadWrite;
use wgsl_rules::AddressSpace::Storage;
use wgsl_rules::{Ty, Type};
use wgsl_samples::operands::{Sample, make};
use wgsl_samples::types::vector;
use wgsl_samples::values::view;
use wgsl_scalar::Error;
use wgsl_store::{References, Store};
use wgsl_value_builtins::{all, any, is_bitcast_target};
use wgsl_values::{Instance, PtrInstance, RefInstance};

/// What is made. The words are those of `tools/refuse/sweep`.
macro_rules! made {
    ($rt:expr; $call:expr) => {
        $call.expect($rt, "no memory to make it")
    };
}

mod atomics;
mod lengths;
mod literals;

/// The value of the sample.
fn value(rt: &impl Abort, alloc: Global, sample: Sample) -> Instance {
    made!(rt; make(alloc, sample)).expect(rt, "a value")
}

/// A store with one cell, which has the sample.
fn store_of(rt: &impl Abort, alloc: Global, cell: Sample) -> Store {
    let mut store = Store::new(alloc);
    let value = value(rt, alloc, cell);
    assert!(rt; value.is_storable());
    assert!(rt; store.holds_value(&value));
    drop(made!(rt; RefInstance::new(alloc, &mut store, value, Storage, ReadWrite)));
    store
}

/// A pointer to the place in cell 0.
fn pointer(rt: &impl Abort, alloc: Global, place: Place) -> Instance {
    let view = made!(rt; view(alloc, place.name, place.indices));
    let like = value(rt, alloc, place.like);
    assert!(rt; like.is_well_formed());
    let ty = made!(rt; like.ty(alloc));
    drop(like);
    let reference = RefInstance::from_parts(0, view, ty, Storage, place.access);
    Instance::from(PtrInstance::from(reference))
}

/// Whether the answer is true; none where there is none.
fn truth(answer: Result<Instance, Error>) -> Option<bool> {
    let wanted = Instance::from(true);
    let truth = match &answer {
        Ok(value) => Some(value == &wanted),
        Err(_) => None,
    };
    drop((answer, wanted));
    truth
}

/// What the word says: `-` stands for none.
fn said(rt: &impl Abort, word: &str) -> Option<bool> {
    match word {
        "true" => Some(true),
        "false" => Some(false),
        "-" => None,
        _ => panic!(rt; "{word} is no answer"),
    }
}

/// Values, and whether all and any of their bools are true, where they have some.
const ALL_AND_ANY: &str = "\
    true -> true true
    vec2(true, true) -> true true
    vec2(false, false) -> false false
    vec4(false, false, false, true) -> false true
    1i -> - -
    structure -> - -";

#[test]
fn all_and_any(rt: HostRuntime) {
    let alloc = rt.alloc();
    for row in ALL_AND_ANY.lines() {
        let (name, words) = parted(&rt, row, " -> ");
        let (every, some) = parted(&rt, words, " ");
        let value = value(&rt, alloc, sample(&rt, name));
        assert!(rt; value.is_well_formed());
        assert!(rt; truth(all(&value)) == said(&rt, every), "{row}");
        assert!(rt; truth(any(&value)) == said(&rt, some), "{row}");
        drop(value);
    }
}

#[test]
fn templates_of_casts(rt: HostRuntime) {
    let alloc = rt.alloc();
    let words = made!(&rt; vector(alloc, 4, Type::I32));
    let truths = made!(&rt; vector(alloc, 2, Type::Bool));
    assert!(rt; is_bitcast_target(&Type::U32));
    assert!(rt; is_bitcast_target(&words));
    assert!(rt; !is_bitcast_target(&truths));
    assert!(rt; !is_bitcast_target(&Type::I64));
    drop((words, truths));
}
