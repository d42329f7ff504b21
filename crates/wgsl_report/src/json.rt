//! Layouts for programs, as JSON.

ghost use Rattle.std.specs.Prelude.{◌≡◌, ◌++◌, OnOk, string_bytes};
ghost use Rattle.wgsl_report.specs.Texts.{entry_text, runtime_entry};

use crate::findings_json::{Told, add_findings};
use crate::interface::Interface;
use crate::interface_json::add_interface;
use crate::json_text::{SCHEMA, add_span, add_string};
use crate::left_out::LeftOut;
use crate::shape::add_shape;
use crate::structures::{Asked, Laid, RuntimePart, runtime_member, runtime_part};
use crate::uniform::{add_rule, broken_rules};
use std::alloc::{AllocError, Global};
use wgsl_eval::{Item, Variable};
use wgsl_rules::{AccessMode, AddressSpace, MemberLayout, StructMemberType, StructType, Type};

/// What a module asks of its host, and the items that have the values of its overrides.
#[derive(Clone, Copy)]
pub(crate) struct Whole<'a, 'b> {
    pub(crate) interface: &'a Interface<'b>,
    pub(crate) values: &'a [Item],
}

/// One object, with the structures and the variables in their order, the interface where all of a module is asked for, what is
/// left out, and what is told. A number that is not known is `null`.
pub(crate) fn add_json(
    alloc: Global,
    text: &mut String,
    asked: Asked<'_>,
    whole: Option<Whole<'_, '_>>,
    left_out: &[LeftOut<'_>],
    told: Told<'_>,
) -> Result<(), AllocError> {
    write!(text, "{{\n  \"schema\": {SCHEMA},\n  \"file\": ")?;
    add_string(text, told.file)?;
    add_structs(alloc, text, asked)?;
    add_variables(alloc, text, asked)?;
    if let Some(Whole { interface, values }) = whole {
        add_interface(alloc, text, interface, values)?;
    }
    add_skipped(alloc, text, left_out, told.text)?;
    add_findings(alloc, text, told)?;
    text.push_str("\n}\n")
}

fn add_structs(alloc: Global, text: &mut String, asked: Asked<'_>) -> Result<(), AllocError> {
    text.push_str(",\n  \"structs\": [")?;
    let mut count = 0usize;
    for item in asked.items {
        if let Some(Laid::Struct(ty)) = asked.laid(item) {
            begin_object(text, &mut count)?;
            add_struct(alloc, text, ty)?;
        }
    }
    text.push_str("\n  ],\n  ")
}

fn add_variables(alloc: Global, text: &mut String, asked: Asked<'_>) -> Result<(), AllocError> {
    text.push_str("\"variables\": [")?;
    let mut count = 0usize;
    for item in asked.items {
        if let Some(Laid::Variable(name, variable)) = asked.laid(item) {
            begin_object(text, &mut count)?;
            add_variable(alloc, text, name, variable)?;
        }
    }
    text.push_str("\n  ],\n  ")
}

// What has no layout here, of a source of this text.
fn add_skipped(
    alloc: Global,
    text: &mut String,
    left_out: &[LeftOut<'_>],
    source: &str,
) -> Result<(), AllocError> {
    text.push_str("\"skipped\": [")?;
    let mut count = 0usize;
    for one in left_out {
        begin_object(text, &mut count)?;
        add_left_out(alloc, text, one, source)?;
    }
    text.push_str(if left_out.is_empty() {
        "],\n  "
    } else {
        "\n  ],\n  "
    })
}

// What has no layout here, and why.
fn add_left_out(
    alloc: Global,
    text: &mut String,
    one: &LeftOut<'_>,
    source: &str,
) -> Result<(), AllocError> {
    let (name, kind) = (&one.item.name, one.kind());
    write!(
        text,
        "{{\"name\": \"{name}\", \"kind\": \"{kind}\", \"reason\": "
    )?;
    add_reason(alloc, text, one, source)?;
    add_span(text, one.skip.start, one.skip.end)?;
    text.push('}')
}

fn add_reason(
    alloc: Global,
    text: &mut String,
    one: &LeftOut<'_>,
    source: &str,
) -> Result<(), AllocError> {
    let mut reason = String::new(alloc);
    one.add_reason(&mut reason, source)?;
    add_string(text, reason.as_str())
}

pub(crate) fn begin_object(text: &mut String, count: &mut usize) -> Result<(), AllocError> {
    if *count > 0 {
        text.push(',')?;
    }
    *count = count.saturating_add(1);
    text.push_str("\n    ")
}

fn add_struct(alloc: Global, text: &mut String, ty: &StructType) -> Result<(), AllocError> {
    let name = &ty.name;
    write!(text, "{{\"name\": \"{name}\"")?;
    add_numbers(
        text,
        &[
            ("size", ty.size_of()),
            ("align", ty.align_of()),
            ("least_binding", ty.least_binding()),
        ],
    )?;
    add_runtime(text, runtime_member(alloc, ty)?)?;
    let layouts = ty.member_layouts(alloc)?;
    let added = add_members(text, ty, layouts.as_slice());
    drop(layouts);
    added
}

fn add_members(
    text: &mut String,
    ty: &StructType,
    layouts: &[MemberLayout],
) -> Result<(), AllocError> {
    text.push_str(", \"members\": [")?;
    for (i, (member, layout)) in ty.members.iter().zip(layouts.iter()).enumerate() {
        text.push_str(if i == 0 { "\n      " } else { ",\n      " })?;
        add_member(text, member, *layout)?;
    }
    text.push_str("\n    ]}")
}

fn add_member(
    text: &mut String,
    member: &StructMemberType,
    layout: MemberLayout,
) -> Result<(), AllocError> {
    let name = &member.name;
    let ty = &member.ty;
    write!(text, "{{\"name\": \"{name}\", \"type\": \"{ty}\"")?;
    add_numbers(
        text,
        &[
            ("offset", layout.offset),
            ("size", layout.size),
            ("align", layout.align),
            ("padding", layout.padding),
            ("stride", ty.stride()),
        ],
    )?;
    text.push_str(", \"shape\": ")?;
    add_shape(text, ty)?;
    text.push('}')
}

fn add_variable(
    alloc: Global,
    text: &mut String,
    name: &str,
    variable: &Variable,
) -> Result<(), AllocError> {
    let ty = &variable.ty;
    write!(text, "{{\"name\": \"{name}\", \"type\": \"{ty}\"")?;
    let (space, access) = (space_word(variable), access_word(variable));
    write!(text, ", \"space\": \"{space}\", \"access\": \"{access}\"")?;
    let measures = ty.measures();
    add_numbers(
        text,
        &[
            ("group", variable.group),
            ("binding", variable.binding),
            ("size", measures.size),
            ("align", measures.align),
            ("least_binding", ty.least_binding()),
            ("stride", ty.stride()),
        ],
    )?;
    add_runtime(text, runtime_part(alloc, ty)?)?;
    text.push_str(", \"shape\": ")?;
    add_shape(text, ty)?;
    if variable.space == Some(AddressSpace::Uniform) {
        add_broken_rules(alloc, text, name, ty)?;
    }
    text.push('}')
}

fn space_word(variable: &Variable) -> &'static str {
    match variable.space {
        _ if variable.is_immediate => "immediate",
        Some(AddressSpace::Uniform) => "uniform",
        _ => "storage",
    }
}

fn access_word(variable: &Variable) -> &'static str {
    match variable.access {
        Some(AccessMode::ReadWrite) => "read_write",
        Some(AccessMode::Write) => "write",
        _ => "read",
    }
}

// The rules of the uniform address space that the variable breaks.
fn add_broken_rules(
    alloc: Global,
    text: &mut String,
    name: &str,
    ty: &Type,
) -> Result<(), AllocError> {
    text.push_str(", \"uniform_faults\": [")?;
    let broken = broken_rules(alloc, name, ty)?;
    for (i, one) in broken.iter().enumerate() {
        let path = &one.path;
        text.push_str(if i == 0 { "" } else { ", " })?;
        write!(text, "{{\"member\": \"{path}\", \"fault\": \"")?;
        add_rule(text, one.rule)?;
        text.push_str("\"}")?;
    }
    text.push(']')
}

// Of a runtime-sized array, where it begins and how far its elements lie apart.
fn add_runtime(text: &mut String, runtime: Option<RuntimePart>) -> Result<(), AllocError>
    ensures { OnOk result (string_bytes text.new ≡ string_bytes text.old ++ runtime_entry runtime) }
{
    match runtime {
        Some(RuntimePart { start, stride }) => {
            write!(
                text,
                ", \"runtime\": {{\"offset\": {start}, \"stride\": {stride}}}"
            )
        }
        None => Ok(()),
    }
}

fn add_numbers(text: &mut String, numbers: &[(&str, Option<u32>)]) -> Result<(), AllocError> {
    for (key, number) in numbers {
        add_number(text, key, *number)?;
    }
    Ok(())
}

pub(crate) fn add_number(
    text: &mut String,
    key: &str,
    number: Option<u32>,
) -> Result<(), AllocError>
    ensures { OnOk result (string_bytes text.new ≡ string_bytes text.old ++ entry_text key.now number) }
{
    match number {
        Some(number) => write!(text, ", \"{key}\": {number}"),
        None => write!(text, ", \"{key}\": null"),
    }
}
