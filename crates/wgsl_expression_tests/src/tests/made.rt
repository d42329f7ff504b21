//! The values that rows name. That each is well-formed is asserted as it is made.

ghost use Rattle.wgsl_rules.specs.Values.{IsStorable, IsWellFormed};
ghost use Rattle.wgsl_values.specs.View.{value_of, vec_view};

use std::alloc::Global;
use std::process::Abort;
use wgsl_samples::operands::{Sample, make, vector};
use wgsl_values::{Instance, VecInstance};

/// The value, with ample memory; the test ends where the sample has none.
pub(super) fn made(rt: &impl Abort, alloc: Global, sample: Sample) -> Instance
    ensures { IsWellFormed (value_of result) }
{
    let value = again!(rt; make(alloc, sample)).expect(rt, "a value");
    assert!(rt; value.is_well_formed());
    value
}

/// The vector that a row names, with ample memory; the test ends where it is none.
pub(super) fn made_vector(rt: &impl Abort, alloc: Global, sample: Sample) -> VecInstance
    ensures { IsStorable (vec_view result) }
{
    let components = match &sample {
        Sample::Two(components) => components.as_slice(),
        Sample::Three(components) => components.as_slice(),
        Sample::Four(components) => components.as_slice(),
        _ => panic!(rt; "{sample:?} is no vector"),
    };
    again!(rt; vector(alloc, components)).expect(rt, "a vector")
}
