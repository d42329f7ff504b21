//! Values that functions take as they are, where each growth behind their making is refused.

use std::alloc::Global;
use std::process::Abort;
use wgsl_functions::{Builtin, Dialect};
use wgsl_samples::operands::{Sample, i, i4, make, n, n2, u, u2};
use wgsl_values::Instance;

/// What is made. The words are those of `tools/refuse/sweep`.
macro_rules! made {
    ($rt:expr; $call:expr) => {
        $call.expect($rt, "no memory to make it")
    };
}

fn values(rt: &impl Abort, alloc: Global, samples: &[Sample]) -> Vec<Instance> {
    let mut values = made!(rt; Vec::with_capacity(alloc, samples.len()));
    for sample in samples {
        let value = made!(rt; make(alloc, *sample)).expect(rt, "a value");
        values.push(value).expect(rt, "a place for it");
    }
    values
}

/// Asserts that the function takes these values, as they are.
fn assert_taken(rt: &impl Abort, alloc: Global, dialect: Dialect, name: &str, samples: &[Sample]) {
    let wanted = values(rt, alloc, samples);
    let given = values(rt, alloc, samples);
    let function = Builtin::named(name).expect(rt, "a function");
    match function
        .arguments(alloc, dialect, given)
        .expect(rt, "no need of memory")
    {
        Ok(taken) => assert!(rt; taken == wanted, "{name}"),
        Err(_) => panic!(rt; "{name} takes them"),
    }
}

#[test]
fn values_that_are_not_abstract(rt: HostRuntime) {
    let alloc = rt.alloc();
    let rows: [(&str, &[Sample]); 6] = [
        ("countOneBits", &[u(7)]),
        ("countOneBits", &[u2(7, 8)]),
        ("pack4xI8", &[i4(1, 2, 3, 4)]),
        ("dot4U8Packed", &[u(1), u(2)]),
        ("extractBits", &[i(1), u(2), u(3)]),
        ("insertBits", &[i(1), i(2), u(3), u(4)]),
    ];
    for (name, samples) in rows {
        assert_taken(&rt, alloc, Dialect::Wgsl, name, samples);
    }
}

#[test]
fn values_of_functions_with_overloads_for_abstract_integers(rt: HostRuntime) {
    let alloc = rt.alloc();
    let rows: [(&str, &[Sample]); 3] = [
        ("abs", &[n(-4294967295)]),
        ("min", &[n2(1, 2), n2(3, 4294967296)]),
        ("insertBits", &[n(1), u(2), u(3), u(4)]),
    ];
    for (name, samples) in rows {
        assert_taken(&rt, alloc, Dialect::Wgsl, name, samples);
    }
}

#[test]
fn values_in_the_dialect_of_the_crate(rt: HostRuntime) {
    let alloc = rt.alloc();
    let rows: [(&str, &[Sample]); 3] = [
        ("countOneBits", &[n(-1)]),
        ("extractBits", &[n(240), n(4), n(4294967296)]),
        ("dot4U8Packed", &[n(-1), n(-1)]),
    ];
    for (name, samples) in rows {
        assert_taken(&rt, alloc, Dialect::Crate, name, samples);
    }
}
