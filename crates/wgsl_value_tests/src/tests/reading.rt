//! Values by the texts that stand for them in the rows of tests, for runs in which no memory is refused.

use crate::tests::samples::{vector, vector_from};
use std::alloc::Global;
use std::process::Abort;
use wgsl_rules::Type;
use wgsl_samples::texts;
use wgsl_scalar::LiteralInstance;
use wgsl_values::Instance;

/// What stands before and behind the mark; the test ends where it is not there.
pub(super) fn parted<'a>(rt: &impl Abort, text: &'a str, mark: &str) -> (&'a str, &'a str) {
    match text.trim().split_once(mark) {
        Some(parts) => parts,
        None => panic!(rt; "no {mark} in {text}"),
    }
}

/// The question and the answer of a row `NAME: QUESTION = ANSWER`.
pub(super) fn asked<'a>(rt: &impl Abort, row: &'a str) -> (&'a str, &'a str) {
    let (question, answer) = parted(rt, row, " = ");
    let (_, question) = parted(rt, question, ": ");
    (question, answer)
}

/// What `true` or `false` says.
pub(super) fn is_true(rt: &impl Abort, text: &str) -> bool {
    text.parse::<bool>().expect(rt, "true or false")
}

/// The literal of the text, as `-5i`, `7li` or `true`; the test ends where there is none.
fn literal(rt: &impl Abort, text: &str) -> LiteralInstance {
    texts::literal(text).expect(rt, "a literal")
}

fn literals(rt: &impl Abort, alloc: Global, text: &str) -> Vec<Instance> {
    let mut literals = Vec::new(alloc);
    for part in text.split(", ") {
        literals
            .push(Instance::from(literal(rt, part)))
            .expect(rt, "memory");
    }
    literals
}

/// The value of a text as `-5i`, `vec2(1u, 2u)`, `deferred u32` or `deferred vec3<u32>`.
fn part(rt: &impl Abort, alloc: Global, text: &str) -> Instance {
    if text == "deferred u32" {
        return Instance::from(Type::U32);
    }
    if text == "deferred vec3<u32>" {
        return Instance::from(vector(rt, alloc, 3, Type::U32));
    }
    match text.split_once('(') {
        Some((_, components)) => {
            let components = components.trim_end_matches(')');
            Instance::from(vector_from(rt, literals(rt, alloc, components)))
        }
        None => Instance::from(literal(rt, text)),
    }
}

/// The values of a text as `1u; vec2(1u, 2u)`; none of `nothing`.
pub(super) fn parts(rt: &impl Abort, alloc: Global, text: &str) -> Vec<Instance> {
    let mut parts = Vec::new(alloc);
    if text == "nothing" {
        return parts;
    }
    for words in text.split("; ") {
        parts.push(part(rt, alloc, words)).expect(rt, "memory");
    }
    parts
}
