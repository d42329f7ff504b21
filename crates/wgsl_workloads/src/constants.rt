//! The constants of modules are evaluated: tables that are looked into, vectors, bits, assertions and long chains.

use crate::digest::Digest;
use crate::random::Random;
use std::alloc::{AllocError, Global};
use wgsl_eval::{Need, Outcome, evaluate};
use wgsl_source::Reading;
use wgsl_types::{Error, ShaderStage};

/// So many modules.
pub(crate) fn run(
    alloc: Global,
    random: &mut Random,
    scale: u32,
    digest: &mut Digest,
) -> Result<(), Error> {
    for number in 0..scale {
        let length = 256u32.wrapping_add(number % 4 * 256);
        let text = module(alloc, random, length)?;
        add_values(alloc, text.as_str(), digest)?;
    }
    Ok(())
}

// A module with a table of so many numbers, and constants that look into it.
fn module(alloc: Global, random: &mut Random, length: u32) -> Result<String, AllocError> {
    let mut text = String::new(alloc);
    add_table(&mut text, random, length)?;
    for number in 0..800u32 {
        add_look_up(&mut text, random, number, length)?;
        add_vector(&mut text, random, number)?;
        add_bits(&mut text, random, number)?;
        add_link(&mut text, random, number)?;
    }
    Ok(text)
}

fn add_table(text: &mut String, random: &mut Random, length: u32) -> Result<(), AllocError> {
    write!(
        text,
        "const LENGTH = {length};\nconst TABLE = array<u32, LENGTH>(\n"
    )?;
    for place in 0..length {
        write!(text, "{}u, ", random.below(65_536))?;
        if place % 16 == 15 {
            text.push_str("\n")?;
        }
    }
    text.push_str(");\n")
}

fn add_look_up(
    text: &mut String,
    random: &mut Random,
    number: u32,
    length: u32,
) -> Result<(), AllocError> {
    let place = random.below(length);
    let factor = random.below(1000);
    write!(
        text,
        "const ENTRY_{number}: u32 = TABLE[{place}] * {factor}u + TABLE[{number} % LENGTH];\n"
    )
}

fn add_vector(text: &mut String, random: &mut Random, number: u32) -> Result<(), AllocError> {
    let (a, b) = (random.below(1000), random.below(1000));
    write!(
        text,
        "const OFFSETS_{number} = max(vec3<u32>({a}, ENTRY_{number}, {b}) * 3u, vec3(7u, 8u, 9u)).zxy;\n"
    )
}

fn add_bits(text: &mut String, random: &mut Random, number: u32) -> Result<(), AllocError> {
    let (offset, count) = (random.below(16), random.below(16));
    write!(
        text,
        "const FIELD_{number} = extractBits(ENTRY_{number}, {offset}u, {count}u);\n"
    )?;
    write!(
        text,
        "const_assert FIELD_{number} < (1u << 16u) && OFFSETS_{number}.x + 1 > 1;\n"
    )
}

// Each names the one before it.
fn add_link(text: &mut String, random: &mut Random, number: u32) -> Result<(), AllocError> {
    let n = random.below(1000);
    match number.checked_sub(1) {
        Some(before) => {
            let sum = "clamp(FIELD";
            write!(
                text,
                "const LINK_{number} = (LINK_{before} ^ {n}u) + {sum}_{number}, 1u, {n}u) % 17;\n"
            )
        }
        None => write!(text, "const LINK_{number} = {n}u;\n"),
    }
}

// The values of a module.
fn add_values(alloc: Global, text: &str, digest: &mut Digest) -> Result<(), AllocError> {
    let reading = Reading::of_module(alloc, text)?;
    digest.add_faults(alloc, reading.faults())?;
    let evaluation = evaluate(alloc, &reading, ShaderStage::Const, false)?;
    digest.add_messages(&evaluation.messages);
    digest.add_count(evaluation.values.len());
    for value in &evaluation.values {
        digest.add_count(value.token);
        add_outcome(alloc, &value.outcome, digest)?;
    }
    Ok(())
}

// The value, or what of the source is not evaluated, and why.
fn add_outcome(alloc: Global, outcome: &Outcome, digest: &mut Digest) -> Result<(), AllocError> {
    match outcome {
        Outcome::Value(instance) => {
            digest.add(0);
            digest.add_value(alloc, instance)?;
        }
        Outcome::Skipped(skip) => {
            digest.add(match skip.need {
                Need::Float => 1,
                _ => 2,
            });
            digest.add_extent(skip.start, skip.end);
        }
        Outcome::Faulty => digest.add(3),
    }
    Ok(())
}
