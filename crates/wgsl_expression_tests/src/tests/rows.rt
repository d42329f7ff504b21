//! Rows of tests: lines of a text, with the values that they name by the texts that these have.

use std::process::Abort;
use wgsl_rules::ShaderStage;
use wgsl_samples::operands::Sample;
use wgsl_samples::texts::vector_or_literal;

/// What stands before and behind the mark.
pub(super) fn parted<'a>(rt: &impl Abort, text: &'a str, mark: &str) -> (&'a str, &'a str) {
    match text.trim().split_once(mark) {
        Some(parts) => parts,
        None => panic!(rt; "no {mark} in {text}"),
    }
}

/// The sample that has the text; the test ends where there is none.
pub(super) fn sample(rt: &impl Abort, text: &str) -> Sample {
    match vector_or_literal(text) {
        Some(sample) => sample,
        None => panic!(rt; "{text} is no sample"),
    }
}

/// The samples of `a; b`.
pub(super) fn two_samples(rt: &impl Abort, text: &str) -> (Sample, Sample) {
    let (a, b) = parted(rt, text, "; ");
    (sample(rt, a), sample(rt, b))
}

/// The stage of the name; the test ends where there is none.
pub(super) fn stage(rt: &impl Abort, name: &str) -> ShaderStage {
    match name {
        "Const" => ShaderStage::Const,
        "Override" => ShaderStage::Override,
        "Exec" => ShaderStage::Exec,
        _ => panic!(rt; "{name} is no stage"),
    }
}
