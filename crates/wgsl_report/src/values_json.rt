//! Values as JSON.

ghost use Rattle.wgsl_rules.specs.Values.{IsWellFormed};
ghost use Rattle.wgsl_values.specs.View.{value_of};

use crate::findings_json::{Told, add_findings};
use crate::json_text::{SCHEMA, add_span, add_string};
use crate::left_out::add_need;
use crate::values::Entry;
use std::alloc::{AllocError, Global};
use wgsl_eval::{Outcome, Skip};
use wgsl_rules::Ty;
use wgsl_values::Instance;

/// One object with the values in their order, and what is told. Why a value is not evaluated is a part of this text.
pub(crate) fn add_json(
    alloc: Global,
    out: &mut String,
    text: &str,
    entries: &[Entry<'_>],
    told: Told<'_>,
) -> Result<(), AllocError> {
    write!(out, "{{\n  \"schema\": {SCHEMA},\n  \"file\": ")?;
    add_string(out, told.file)?;
    out.push_str(",\n  \"values\": [")?;
    for (i, entry) in entries.iter().enumerate() {
        out.push_str(if i == 0 { "\n    {" } else { ",\n    {" })?;
        add_entry(alloc, out, text, *entry)?;
    }
    out.push_str(if entries.is_empty() {
        "],\n  "
    } else {
        "\n  ],\n  "
    })?;
    add_findings(alloc, out, told)?;
    out.push_str("\n}\n")
}

fn add_entry(
    alloc: Global,
    out: &mut String,
    text: &str,
    entry: Entry<'_>,
) -> Result<(), AllocError> {
    if let Some(name) = entry.name {
        out.push_str("\"name\": ")?;
        add_string(out, name)?;
        out.push_str(", ")?;
    }
    add_outcome(alloc, out, text, entry.outcome)?;
    out.push('}')
}

fn add_outcome(
    alloc: Global,
    out: &mut String,
    text: &str,
    outcome: &Outcome,
) -> Result<(), AllocError> {
    match outcome {
        Outcome::Value(instance) if instance.is_well_formed() => { add_value(alloc, out, instance) }
        Outcome::Skipped(skip) => add_skipped(alloc, out, text, *skip),
        _ => out.push_str("\"faulty\": true"),
    }
}

/// The type and the value, each behind its key.
pub(crate) fn add_value(alloc: Global, out: &mut String, value: &Instance) -> Result<(), AllocError>
    requires { IsWellFormed (value_of value.now) }
{
    let ty = value.ty(alloc)?;
    let added = write!(out, "\"type\": \"{ty}\", \"value\": \"{value}\"");
    drop(ty);
    added
}

fn add_skipped(alloc: Global, out: &mut String, text: &str, skip: Skip) -> Result<(), AllocError> {
    out.push_str("\"skipped\": ")?;
    add_reason(alloc, out, text, skip)?;
    add_span(out, skip.start, skip.end)
}

fn add_reason(alloc: Global, out: &mut String, text: &str, skip: Skip) -> Result<(), AllocError> {
    let mut reason = String::new(alloc);
    add_need(&mut reason, text, skip)?;
    add_string(out, reason.as_str())
}
