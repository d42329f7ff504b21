//! Rows of tests: lines of a text, with the values that they name by the texts that these have.

use std::process::Abort;
use wgsl_samples::operands::Sample;
use wgsl_samples::texts::{literal, vector_or_literal};
use wgsl_scalar::LiteralInstance;
use wgsl_scalar::LiteralInstance::{Bool, U32};

/// What stands before and behind the mark; the test ends where it is not there.
pub(super) fn parted<'a>(rt: &impl Abort, text: &'a str, mark: &str) -> (&'a str, &'a str) {
    match text.trim().split_once(mark) {
        Some(parts) => parts,
        None => panic!(rt; "no {mark} in {text}"),
    }
}

const NUMBERS: [LiteralInstance; 3] = [U32(1), U32(2), U32(3)];

const TRUTHS: [LiteralInstance; 3] = [Bool(true), Bool(false), Bool(true)];

/// The array of the name: `fixed` stands before one that has a count.
fn array(text: &str) -> Option<Sample> {
    match text {
        "array" => Some(Sample::Array),
        "numbers" => Some(Sample::Elements(NUMBERS, true)),
        "fixed numbers" => Some(Sample::Elements(NUMBERS, false)),
        "truths" => Some(Sample::Elements(TRUTHS, true)),
        "fixed truths" => Some(Sample::Elements(TRUTHS, false)),
        "totals" => Some(Sample::Totals(true)),
        "fixed totals" => Some(Sample::Totals(false)),
        _ => None,
    }
}

/// The atomic of the number, or what is no literal, vector, array or atomic.
fn other(text: &str) -> Option<Sample> {
    if let Some(number) = text.strip_prefix("atomic ") {
        return Some(Sample::Atomic(literal(number)?));
    }
    match text {
        "matrix" => Some(Sample::Matrix),
        "tall" => Some(Sample::Tall),
        "structure" => Some(Sample::Structure),
        "pointer" => Some(Sample::Pointer),
        "reference" => Some(Sample::Reference),
        "counters" => Some(Sample::Counters),
        "flagged" => Some(Sample::Flagged),
        "deferred" => Some(Sample::Deferred),
        _ => None,
    }
}

/// The literal that has the text; the test ends where there is none.
pub(super) fn literal_of(rt: &impl Abort, text: &str) -> LiteralInstance {
    match literal(text) {
        Some(literal) => literal,
        None => panic!(rt; "{text} is no literal"),
    }
}

/// The sample that has the text; the test ends where there is none.
pub(super) fn sample(rt: &impl Abort, text: &str) -> Sample {
    if let Some(sample) = array(text) {
        return sample;
    }
    if let Some(sample) = other(text) {
        return sample;
    }
    match vector_or_literal(text) {
        Some(sample) => sample,
        None => panic!(rt; "{text} is no sample"),
    }
}

/// The samples of `a; b`.
pub(super) fn two_samples(rt: &impl Abort, text: &str) -> (Sample, Sample) {
    let (a, b) = parted(rt, text, "; ");
    (sample(rt, a), sample(rt, b))
}

/// The samples of `a; b; c`.
pub(super) fn three_samples(rt: &impl Abort, text: &str) -> (Sample, Sample, Sample) {
    let (a, others) = parted(rt, text, "; ");
    let (b, c) = two_samples(rt, others);
    (sample(rt, a), b, c)
}
