//! Values that are no pointers: each builtin function of memory refuses them, and changes nothing.

use crate::tests::atomics::OnMemory::{CompareExchange, Length, Load, Store};
use crate::tests::atomics::steps::assert_no_pointer;
use crate::tests::atomics::{Change, OnMemory};
use crate::tests::rows::sample;
use wgsl_samples::operands::Sample;
use wgsl_scalar::LiteralInstance::I32;

const EACH_ON_MEMORY: [OnMemory; 13] = [
    Length,
    Load,
    Store(Sample::One(I32(1))),
    OnMemory::Change(Change::Add, Sample::One(I32(1))),
    OnMemory::Change(Change::Sub, Sample::One(I32(1))),
    OnMemory::Change(Change::Max, Sample::One(I32(1))),
    OnMemory::Change(Change::Min, Sample::One(I32(1))),
    OnMemory::Change(Change::And, Sample::One(I32(1))),
    OnMemory::Change(Change::Or, Sample::One(I32(1))),
    OnMemory::Change(Change::Xor, Sample::One(I32(1))),
    OnMemory::Change(Change::Exchange, Sample::One(I32(1))),
    CompareExchange(Sample::One(I32(5)), Sample::One(I32(1))),
    CompareExchange(Sample::Deferred, Sample::Deferred),
];

/// A value of each sort, none of them a pointer.
const OTHERS: &str = "\
    1u
    1
    true
    vec2(1i, 2i)
    matrix
    array
    structure
    reference
    atomic 5i
    deferred";

#[test]
fn functions_of_memory_refuse_what_is_no_pointer(rt: HostRuntime) {
    let alloc = rt.alloc();
    for function in EACH_ON_MEMORY {
        for line in OTHERS.lines() {
            let other = sample(&rt, line.trim());
            assert_no_pointer(&rt, alloc, line, function, other);
        }
    }
}
