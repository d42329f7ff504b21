//! The interface of a module, as a person reads it: what has no table, a line each.

use crate::interface::{Binding, EntryPoint, Interface, Memory, Overridable};
use crate::table::{add_align, add_size};
use crate::values::{add_value, value_in};
use std::alloc::{AllocError, Global};
use wgsl_eval::Item;

/// The lines, with an empty one before them where something stands there. The values of overrides are among these items.
pub(crate) fn add_interface(
    alloc: Global,
    text: &mut String,
    interface: &Interface<'_>,
    values: &[Item],
) -> Result<(), AllocError> {
    let mut lines = String::new(alloc);
    add_lines(alloc, &mut lines, interface, values)?;
    if !text.is_empty() && !lines.is_empty() {
        text.push('\n')?;
    }
    text.push_str(lines.as_str())
}

fn add_lines(
    alloc: Global,
    text: &mut String,
    interface: &Interface<'_>,
    values: &[Item],
) -> Result<(), AllocError> {
    for binding in &interface.bindings {
        if !binding.is_buffer() {
            add_binding(text, binding)?;
        }
    }
    for memory in &interface.memory {
        if !memory.is_laid_out() {
            add_memory(text, memory)?;
        }
    }
    for overridable in &interface.overrides {
        let value = values.get(overridable.number);
        add_override(alloc, text, overridable, value)?;
    }
    for entry in &interface.entries {
        add_entry(text, entry, interface)?;
    }
    Ok(())
}

// `@group(0) @binding(1) var name: type`
fn add_binding(text: &mut String, binding: &Binding<'_>) -> Result<(), AllocError> {
    if let Some(group) = binding.group {
        write!(text, "@group({group}) ")?;
    }
    if let Some(number) = binding.binding {
        write!(text, "@binding({number}) ")?;
    }
    let (name, words) = (&binding.item.name, &binding.words);
    writeln!(text, "var {name}: {words}")
}

// `var<workgroup> name: type, size 256, align 4`
fn add_memory(text: &mut String, memory: &Memory<'_>) -> Result<(), AllocError> {
    let (space, name, words) = (memory.space, &memory.item.name, &memory.words);
    write!(text, "var<{space}> {name}")?;
    match memory.ty {
        Some(ty) => {
            write!(text, ": {ty}, ")?;
            let measures = ty.measures();
            add_size(text, measures.size, None)?;
            add_align(text, measures.align)
        }
        None if words.is_empty() => text.push_str(", no size here\n"),
        None => writeln!(text, ": {words}, no size here"),
    }
}

// `@id(7) override name: u32 = 64u`
fn add_override(
    alloc: Global,
    text: &mut String,
    overridable: &Overridable<'_>,
    value: Option<&Item>,
) -> Result<(), AllocError> {
    if let Some(id) = overridable.id {
        write!(text, "@id({id}) ")?;
    }
    let name = &overridable.item.name;
    write!(text, "override {name}")?;
    match value_in(value) {
        Some(value) => {
            text.push_str(": ")?;
            add_value(alloc, text, value)
        }
        None => add_no_value(text, overridable),
    }
}

fn add_no_value(text: &mut String, overridable: &Overridable<'_>) -> Result<(), AllocError> {
    let words = &overridable.words;
    if !words.is_empty() {
        write!(text, ": {words}")?;
    }
    text.push_str(if overridable.has_value {
        ", a value that is not evaluated here\n"
    } else {
        ", no value\n"
    })
}

// `@compute @workgroup_size(64, 1, 1) fn name: 256 bytes of workgroup memory; uses a, b`
fn add_entry(
    text: &mut String,
    entry: &EntryPoint<'_>,
    interface: &Interface<'_>,
) -> Result<(), AllocError> {
    let (name, stage) = (&entry.item.name, entry.stage_word());
    write!(text, "@{stage} ")?;
    if entry.is_compute() {
        add_workgroup_size(text, entry)?;
    }
    write!(text, "fn {name}:")?;
    add_uses(text, entry, interface)?;
    match entry.workgroup_memory {
        Some(0) => {}
        Some(bytes) => write!(text, "; {bytes} bytes of workgroup memory")?,
        None => text.push_str("; workgroup memory that is not known here")?,
    }
    text.push('\n')
}

fn add_workgroup_size(text: &mut String, entry: &EntryPoint<'_>) -> Result<(), AllocError> {
    text.push_str("@workgroup_size(")?;
    entry.add_sizes(text, "?")?;
    text.push_str(") ")
}

// The bindings that the entry point uses.
fn add_uses(
    text: &mut String,
    entry: &EntryPoint<'_>,
    interface: &Interface<'_>,
) -> Result<(), AllocError> {
    let mut count = 0usize;
    for number in &entry.reached {
        if let Some(binding) = interface.binding_at(*number) {
            text.push_str(if count == 0 { " uses " } else { ", " })?;
            text.push_str(binding.item.name.as_str())?;
            count = count.saturating_add(1);
        }
    }
    if count == 0 {
        text.push_str(" uses no binding")?;
    }
    Ok(())
}
