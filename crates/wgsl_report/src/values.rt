//! Values as lines.

ghost use Rattle.std.specs.Prelude.{IfSome};
ghost use Rattle.wgsl_rules.specs.Values.{IsWellFormed};
ghost use Rattle.wgsl_values.specs.View.{value_of};

use std::alloc::{AllocError, Global};
use wgsl_eval::{Item, ItemKind, Outcome};
use wgsl_rules::Ty;
use wgsl_values::Instance;

/// What is printed of a value: the name that is given to it, and what it is found to be.
#[derive(Clone, Copy)]
pub(crate) struct Entry<'a> {
    pub(crate) name: Option<&'a str>,
    pub(crate) outcome: &'a Outcome,
}

/// A line for each that has no fault: its type and its value, or why there is none. Why is a part of this text.
pub(crate) fn add_entries(
    alloc: Global,
    output: &mut String,
    text: &str,
    entries: &[Entry<'_>],
) -> Result<(), AllocError> {
    for entry in entries {
        if let (Some(name), Outcome::Value(_) | Outcome::Skipped(_)) = (entry.name, entry.outcome) {
            write!(output, "{name}: ")?;
        }
        add_outcome(alloc, output, text, entry.outcome)?;
    }
    Ok(())
}

// `type = value`, or why there is none.
fn add_outcome(
    alloc: Global,
    output: &mut String,
    text: &str,
    outcome: &Outcome,
) -> Result<(), AllocError> {
    match outcome {
        Outcome::Value(instance) => {
            if instance.is_well_formed() {
                add_value(alloc, output, instance)?;
            }
            Ok(())
        }
        Outcome::Skipped(skip) => {
            let found = text.get(skip.start..skip.end).unwrap_or("");
            let need = skip.need;
            writeln!(output, "not evaluated: {need}, `{found}`")
        }
        Outcome::Faulty => Ok(()),
    }
}

/// `type = value`.
pub(crate) fn add_value(
    alloc: Global,
    output: &mut String,
    value: &Instance,
) -> Result<(), AllocError>
    requires { IsWellFormed (value_of value.now) }
{
    let ty = value.ty(alloc)?;
    let added = writeln!(output, "{ty} = {value}");
    drop(ty);
    added
}

/// The value that a declaration is, where that is well-formed.
pub(crate) fn value_in(item: Option<&Item>) -> Option<&Instance>
    ensures { IfSome result (λ value. IsWellFormed (value_of value.now)) }
{
    match &item?.kind {
        ItemKind::Value(instance) if instance.is_well_formed() => Some(instance),
        _ => None,
    }
}
