//! The values that rows name, and the texts of what is answered for them.

use std::alloc::Global;
use std::fmt::Display;
use std::process::Abort;
use wgsl_rules::Type;
use wgsl_samples::operands::{Sample, make};
use wgsl_samples::refusals::text_of;
use wgsl_samples::types;
use wgsl_scalar::Error;
use wgsl_values::Instance;

/// The value, with ample memory; the test ends where the sample has none.
pub(super) fn made(rt: &impl Abort, alloc: Global, sample: Sample) -> Instance {
    again!(rt; make(alloc, sample)).expect(rt, "a value")
}

/// The values of the samples.
pub(super) fn made_all(rt: &impl Abort, alloc: Global, samples: &[Sample]) -> Vec<Instance> {
    let mut values = again!(rt; Vec::with_capacity(alloc, samples.len()));
    for sample in samples {
        let value = made(rt, alloc, *sample);
        values.push(value).expect(rt, "a place for it");
    }
    values
}

pub(super) fn text(rt: &impl Abort, alloc: Global, text: &str) -> String {
    again!(rt; String::from_str(alloc, text))
}

/// The type of vectors of two.
pub(super) fn vec2(rt: &impl Abort, alloc: Global, component: &Type) -> Type {
    let component = again!(rt; component.clone(alloc));
    let boxed = match Box::new(alloc, component) {
        Ok(boxed) => boxed,
        Err(_) => panic!(rt; "no memory to make it"),
    };
    Type::Vec(2, boxed)
}

/// struct Pair { a: u32, b: vec3<u32> }
pub(super) fn pair(rt: &impl Abort, alloc: Global) -> Type {
    again!(rt; types::pair(alloc))
}

/// Asserts the text of the answer.
pub(super) fn assert_answer<T: Display + Drop>(
    rt: &impl Abort,
    alloc: Global,
    row: usize,
    answer: Result<T, Error>,
    wanted: &str,
) {
    let text = again!(rt; text_of(alloc, &answer));
    drop(answer);
    assert_eq!(rt; text.as_str(), wanted, "row {row}");
}

/// Asserts the text of the value, or that there is none where the wanted text is empty.
pub(super) fn assert_value<T: Display + Drop>(
    rt: &impl Abort,
    alloc: Global,
    row: usize,
    value: Option<T>,
    wanted: &str,
) {
    let text = match &value {
        Some(value) => again!(rt; value.to_string(alloc)),
        None => String::new(alloc),
    };
    drop(value);
    assert_eq!(rt; text.as_str(), wanted, "row {row}");
}
