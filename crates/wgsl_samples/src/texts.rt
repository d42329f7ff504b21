//! Literals and vectors by the texts that rows of tests name them by, as `-5i`, `7lu`, `true` and `vec2(1u, 2u)`.

use crate::operands::Sample;
use wgsl_scalar::LiteralInstance;
use wgsl_scalar::LiteralInstance::{AbstractInt, Bool, I32, I64, U32, U64};

fn number(text: &str) -> Option<LiteralInstance> {
    if let Some(digits) = text.strip_suffix("li") {
        return Some(I64(digits.parse::<i64>().ok()?));
    }
    if let Some(digits) = text.strip_suffix("lu") {
        return Some(U64(digits.parse::<u64>().ok()?));
    }
    if let Some(digits) = text.strip_suffix("i") {
        return Some(I32(digits.parse::<i32>().ok()?));
    }
    if let Some(digits) = text.strip_suffix("u") {
        return Some(U32(digits.parse::<u32>().ok()?));
    }
    Some(AbstractInt(text.parse::<i64>().ok()?))
}

/// The literal of the text.
pub fn literal(text: &str) -> Option<LiteralInstance> {
    match text {
        "true" => Some(Bool(true)),
        "false" => Some(Bool(false)),
        _ => number(text),
    }
}

fn two(text: &str) -> Option<[LiteralInstance; 2]> {
    let (x, y) = text.split_once(", ")?;
    Some([literal(x)?, literal(y)?])
}

fn three(text: &str) -> Option<[LiteralInstance; 3]> {
    let (x, others) = text.split_once(", ")?;
    let [y, z] = two(others)?;
    Some([literal(x)?, y, z])
}

fn four(text: &str) -> Option<[LiteralInstance; 4]> {
    let (x, others) = text.split_once(", ")?;
    let [y, z, w] = three(others)?;
    Some([literal(x)?, y, z, w])
}

/// What the head and a bracket enclose.
fn enclosed<'a>(text: &'a str, head: &str) -> Option<&'a str> {
    text.strip_prefix(head)?.strip_suffix(")")
}

/// The vector of the text; the literal, if it is none.
pub fn vector_or_literal(text: &str) -> Option<Sample> {
    if let Some(components) = enclosed(text, "vec2(") {
        return Some(Sample::Two(two(components)?));
    }
    if let Some(components) = enclosed(text, "vec3(") {
        return Some(Sample::Three(three(components)?));
    }
    if let Some(components) = enclosed(text, "vec4(") {
        return Some(Sample::Four(four(components)?));
    }
    Some(Sample::One(literal(text)?))
}
