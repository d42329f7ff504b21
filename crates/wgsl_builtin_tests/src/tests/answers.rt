//! The values that rows name, and the texts of what is answered for them.

ghost use Rattle.wgsl_rules.specs.Values.{IsWellFormed};
ghost use Rattle.wgsl_values.specs.View.{value_of};

use std::alloc::Global;
use std::fmt::Display;
use std::process::Abort;
use wgsl_samples::operands::{Sample, make};
use wgsl_samples::refusals::text_of;
use wgsl_scalar::Error;
use wgsl_values::Instance;

/// The value, with ample memory; the test ends where the sample has none.
pub(super) fn made(rt: &impl Abort, alloc: Global, sample: Sample) -> Instance
    ensures { IsWellFormed (value_of result) }
{
    let value = again!(rt; make(alloc, sample)).expect(rt, "a value");
    assert!(rt; value.is_well_formed());
    value
}

/// Asserts the text of the answer.
pub(super) fn assert_answer<T: Display + Drop>(
    rt: &impl Abort,
    alloc: Global,
    row: &str,
    answer: Result<T, Error>,
    wanted: &str,
) {
    let text = again!(rt; text_of(alloc, &answer));
    drop(answer);
    assert_eq!(rt; text.as_str(), wanted, "{row}");
}
