//! The interface of a module as JSON.

use crate::interface::{Binding, EntryPoint, Interface, Memory, Overridable};
use crate::json::{add_number, begin_object};
use crate::json_text::add_string;
use crate::shape::add_shape;
use crate::values::value_in;
use crate::values_json::add_value;
use std::alloc::{AllocError, Global};
use wgsl_eval::Item;

/// Four lists, each behind a key of its own. The values of overrides are among these items.
pub(crate) fn add_interface(
    alloc: Global,
    text: &mut String,
    interface: &Interface<'_>,
    values: &[Item],
) -> Result<(), AllocError> {
    add_bindings(text, interface.bindings.as_slice())?;
    add_memories(text, interface.memory.as_slice())?;
    add_overrides(alloc, text, interface.overrides.as_slice(), values)?;
    add_entries(text, interface)
}

fn add_bindings(text: &mut String, bindings: &[Binding<'_>]) -> Result<(), AllocError> {
    let mut count = 0usize;
    text.push_str("\"bindings\": [")?;
    for binding in bindings {
        begin_object(text, &mut count)?;
        add_binding(text, binding)?;
    }
    end_list(text, count)
}

fn add_memories(text: &mut String, memories: &[Memory<'_>]) -> Result<(), AllocError> {
    let mut count = 0usize;
    text.push_str("\"memory\": [")?;
    for memory in memories {
        begin_object(text, &mut count)?;
        add_memory(text, memory)?;
    }
    end_list(text, count)
}

fn add_overrides(
    alloc: Global,
    text: &mut String,
    overrides: &[Overridable<'_>],
    values: &[Item],
) -> Result<(), AllocError> {
    let mut count = 0usize;
    text.push_str("\"overrides\": [")?;
    for overridable in overrides {
        begin_object(text, &mut count)?;
        add_override(alloc, text, overridable, values.get(overridable.number))?;
    }
    end_list(text, count)
}

fn add_entries(text: &mut String, interface: &Interface<'_>) -> Result<(), AllocError> {
    let mut count = 0usize;
    text.push_str("\"entry_points\": [")?;
    for entry in &interface.entries {
        begin_object(text, &mut count)?;
        add_entry(text, entry, interface)?;
    }
    end_list(text, count)
}

// The end of a list of so many objects, behind which another key comes.
fn end_list(text: &mut String, count: usize) -> Result<(), AllocError> {
    text.push_str(if count == 0 { "],\n  " } else { "\n  ],\n  " })
}

fn add_binding(text: &mut String, binding: &Binding<'_>) -> Result<(), AllocError> {
    let (name, kind) = (&binding.item.name, binding.kind);
    write!(
        text,
        "{{\"name\": \"{name}\", \"kind\": \"{kind}\", \"type\": "
    )?;
    add_string(text, binding.words.as_str())?;
    add_number(text, "group", binding.group)?;
    add_number(text, "binding", binding.binding)?;
    if kind == "binding_array" {
        add_number(text, "count", binding.count)?;
    }
    text.push('}')
}

fn add_memory(text: &mut String, memory: &Memory<'_>) -> Result<(), AllocError> {
    let (name, space) = (&memory.item.name, memory.space);
    write!(
        text,
        "{{\"name\": \"{name}\", \"space\": \"{space}\", \"type\": "
    )?;
    add_string(text, memory.words.as_str())?;
    let align = match memory.ty {
        Some(ty) => ty.align_of(),
        None => None,
    };
    add_number(text, "size", memory.size())?;
    add_number(text, "align", align)?;
    text.push_str(", \"shape\": ")?;
    match memory.ty {
        Some(ty) => add_shape(text, ty)?,
        None => text.push_str("null")?,
    }
    text.push('}')
}

fn add_override(
    alloc: Global,
    text: &mut String,
    overridable: &Overridable<'_>,
    value: Option<&Item>,
) -> Result<(), AllocError> {
    let name = &overridable.item.name;
    write!(text, "{{\"name\": \"{name}\"")?;
    add_number(text, "id", overridable.id)?;
    let has_value = overridable.has_value;
    match value_in(value) {
        Some(value) => {
            text.push_str(", ")?;
            add_value(alloc, text, value)?;
        }
        None => add_no_value(text, overridable.words.as_str())?,
    }
    write!(text, ", \"has_default\": {has_value}}}")
}

fn add_no_value(text: &mut String, words: &str) -> Result<(), AllocError> {
    text.push_str(", \"type\": ")?;
    if words.is_empty() {
        text.push_str("null")?;
    } else {
        add_string(text, words)?;
    }
    text.push_str(", \"value\": null")
}

fn add_entry(
    text: &mut String,
    entry: &EntryPoint<'_>,
    interface: &Interface<'_>,
) -> Result<(), AllocError> {
    let (name, stage) = (&entry.item.name, entry.stage_word());
    write!(text, "{{\"name\": \"{name}\", \"stage\": \"{stage}\"")?;
    if entry.is_compute() {
        add_workgroup(text, entry)?;
    }
    text.push_str(", \"bindings\": [")?;
    let mut count = 0usize;
    for number in &entry.reached {
        if let Some(binding) = interface.binding_at(*number) {
            add_name(text, &mut count, binding.item)?;
        }
    }
    text.push_str("], \"overrides\": [")?;
    count = 0;
    for number in &entry.reached {
        if let Some(overridable) = interface.override_at(*number) {
            add_name(text, &mut count, overridable.item)?;
        }
    }
    text.push_str("]}")
}

fn add_workgroup(text: &mut String, entry: &EntryPoint<'_>) -> Result<(), AllocError> {
    text.push_str(", \"workgroup_size\": [")?;
    entry.add_sizes(text, "null")?;
    text.push_str("], \"workgroup_memory\": ")?;
    match entry.workgroup_memory {
        Some(bytes) => write!(text, "{bytes}"),
        None => text.push_str("null"),
    }
}

fn add_name(text: &mut String, count: &mut usize, item: &Item) -> Result<(), AllocError> {
    if *count > 0 {
        text.push_str(", ")?;
    }
    *count = count.saturating_add(1);
    let name = &item.name;
    write!(text, "\"{name}\"")
}
