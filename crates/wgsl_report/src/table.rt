//! Tables of layouts, as a person reads them.

ghost use Rattle.std.specs.Prelude.{◌≡◌, ◌++◌, Some, OnOk, codes, string_bytes};
ghost use Rattle.wgsl_rules.specs.Places.{part_stride};
ghost use Rattle.wgsl_rules.specs.Text.{type_text};
ghost use Rattle.wgsl_rules.specs.View.{type_view};
ghost use Rattle.wgsl_report.specs.Texts.{
  column_text,
  indent_text,
  stride_text,
  runtime_text,
  size_text,
  least_text,
  align_text,
};

use crate::rows::{MemberRow, PaddingRow, Row, rows_of};
use crate::structures::{Asked, Laid, RuntimePart, runtime_member, runtime_part, structure};
use crate::uniform::{add_rule, broken_rules};
use std::alloc::{AllocError, Global};
use wgsl_eval::Variable;
use wgsl_rules::{AccessMode, AddressSpace, StructType, Type};

/// A table of each structure and each variable, with an empty line between.
pub(crate) fn add_tables(
    alloc: Global,
    text: &mut String,
    asked: Asked<'_>,
) -> Result<(), AllocError> {
    for item in asked.items {
        if let Some(laid) = asked.laid(item) {
            if !text.is_empty() {
                text.push_str("\n")?;
            }
            add_table(alloc, text, laid)?;
        }
    }
    Ok(())
}

fn add_table(alloc: Global, text: &mut String, laid: Laid<'_>) -> Result<(), AllocError> {
    match laid {
        Laid::Struct(ty) => {
            let name = &ty.name;
            write!(text, "struct {name}: ")?;
            add_measures(alloc, text, ty)?;
            add_rows(alloc, text, ty)
        }
        Laid::Variable(name, variable) => {
            add_variable(text, name, variable)?;
            match structure(&variable.ty) {
                Some(ty) => {
                    add_measures(alloc, text, ty)?;
                    add_rows(alloc, text, ty)?;
                }
                None => add_type_measures(alloc, text, &variable.ty)?,
            }
            match variable.space {
                Some(AddressSpace::Uniform) => add_broken_rules(alloc, text, name, &variable.ty),
                _ => Ok(()),
            }
        }
    }
}

// `@group(0) @binding(1) var<storage, read_write> name: type, `
fn add_variable(text: &mut String, name: &str, variable: &Variable) -> Result<(), AllocError> {
    if let Some(group) = variable.group {
        write!(text, "@group({group}) ")?;
    }
    if let Some(binding) = variable.binding {
        write!(text, "@binding({binding}) ")?;
    }
    match (variable.space, variable.access) {
        (_, _) if variable.is_immediate => text.push_str("var<immediate> ")?,
        (Some(AddressSpace::Uniform), _) => text.push_str("var<uniform> ")?,
        (_, Some(AccessMode::ReadWrite)) => text.push_str("var<storage, read_write> ")?,
        (_, Some(AccessMode::Write)) => text.push_str("var<storage, write> ")?,
        (_, _) => text.push_str("var<storage, read> ")?,
    }
    let ty = &variable.ty;
    write!(text, "{name}: {ty}, ")
}

// The size and the alignment of a structure, and how large a buffer of it is at least.
fn add_measures(alloc: Global, text: &mut String, ty: &StructType) -> Result<(), AllocError> {
    let runtime = runtime_member(alloc, ty)?;
    let align = ty.align_of();
    add_size(text, ty.size_of(), runtime)?;
    add_filled(text, runtime, align)?;
    add_least(text, runtime, ty.least_binding())?;
    add_align(text, align)
}

fn add_type_measures(alloc: Global, text: &mut String, ty: &Type) -> Result<(), AllocError> {
    let runtime = runtime_part(alloc, ty)?;
    let measures = ty.measures();
    add_size(text, measures.size, runtime)?;
    add_least(text, runtime, ty.least_binding())?;
    if let Some(stride) = ty.stride() {
        write!(text, ", stride {stride}")?;
    }
    add_align(text, measures.align)
}

/// The size, or that of what ends in a runtime-sized array.
pub(crate) fn add_size(
    text: &mut String,
    size: Option<u32>,
    runtime: Option<RuntimePart>,
) -> Result<(), AllocError>
    ensures { OnOk result (string_bytes text.new ≡ string_bytes text.old ++ size_text size runtime) }
{
    match (size, runtime) {
        (Some(size), _) => write!(text, "size {size}"),
        (None, Some(part)) => add_runtime_size(text, part),
        (None, None) => text.push_str("no size"),
    }
}

// The size of what ends in a runtime-sized array, by the count of its elements.
fn add_runtime_size(text: &mut String, part: RuntimePart) -> Result<(), AllocError>
    ensures { OnOk result (string_bytes text.new ≡ string_bytes text.old ++ runtime_text part) }
{
    let RuntimePart { start, stride } = part;
    if start == 0 {
        write!(text, "size {stride} * n")
    } else {
        write!(text, "size {start} + {stride} * n")
    }
}

/// A line of how large the whole is that ends in a runtime-sized array, of which a host's structure has the first element
/// alone.
pub(crate) fn add_runtime(
    alloc: Global,
    text: &mut String,
    ty: &StructType,
) -> Result<(), AllocError> {
    let Some(runtime) = runtime_member(alloc, ty)? else {
        return Ok(());
    };
    text.push_str("// with n elements at its end: ")?;
    add_runtime_size(text, runtime)?;
    add_filled(text, Some(runtime), ty.align_of())?;
    text.push('\n')
}

// A structure is filled up to its alignment, whatever the count of elements.
fn add_filled(
    text: &mut String,
    runtime: Option<RuntimePart>,
    align: Option<u32>,
) -> Result<(), AllocError> {
    match (runtime, align) {
        (Some(RuntimePart { start, stride }), Some(align))
            if !start.is_multiple_of(align) || !stride.is_multiple_of(align) => {
            write!(text, " filled up to {align}")
        }
        (_, _) => Ok(()),
    }
}

fn add_least(
    text: &mut String,
    runtime: Option<RuntimePart>,
    least: Option<u32>,
) -> Result<(), AllocError>
    ensures { OnOk result (string_bytes text.new ≡ string_bytes text.old ++ least_text runtime least) }
{
    match (runtime, least) {
        (Some(_), Some(least)) => write!(text, ", least binding {least}"),
        (_, _) => Ok(()),
    }
}

/// The alignment, and the end of the line.
pub(crate) fn add_align(text: &mut String, align: Option<u32>) -> Result<(), AllocError>
    ensures { OnOk result (string_bytes text.new ≡ string_bytes text.old ++ align_text align) }
{
    match align {
        Some(align) => writeln!(text, ", align {align}"),
        None => text.push_str(", no alignment\n"),
    }
}

fn add_rows(alloc: Global, text: &mut String, ty: &StructType) -> Result<(), AllocError> {
    text.push_str("  offset    size   align\n")?;
    let rows = rows_of(alloc, ty)?;
    for row in &rows {
        match row {
            Row::Member(row) => add_member(text, row)?,
            Row::Padding(row) => add_padding(text, *row)?,
        }
    }
    Ok(())
}

fn add_member(text: &mut String, row: &MemberRow<'_>) -> Result<(), AllocError>
    ensures { OnOk result (string_bytes text.new ≡ string_bytes text.old ++ column_text row.now.offset ++ column_text row.now.layout.size ++ column_text row.now.layout.align ++ indent_text row.now.depth ++ (string_bytes row.now.member.now.name ++ (codes ": " ++ type_text (type_view row.now.member.now.ty))) ++ stride_text (part_stride (type_view row.now.member.now.ty))) }
{
    add_number(text, row.offset)?;
    add_number(text, wide(row.layout.size))?;
    add_number(text, wide(row.layout.align))?;
    add_indent(text, row.depth)?;
    let name = &row.member.name;
    let ty = &row.member.ty;
    write!(text, "{name}: {ty}")?;
    add_stride(text, ty.stride())
}

fn add_stride(text: &mut String, stride: Option<u32>) -> Result<(), AllocError>
    ensures { OnOk result (string_bytes text.new ≡ string_bytes text.old ++ stride_text stride) }
{
    match stride {
        Some(stride) => writeln!(text, ", stride {stride}"),
        None => text.push_str("\n"),
    }
}

fn add_padding(text: &mut String, row: PaddingRow) -> Result<(), AllocError>
    ensures { OnOk result (string_bytes text.new ≡ string_bytes text.old ++ column_text (Some row.offset) ++ column_text (Some row.size) ++ codes "        " ++ indent_text row.depth ++ codes "(padding)\n") }
{
    add_number(text, Some(row.offset))?;
    add_number(text, Some(u64::from(row.size)))?;
    text.push_str("        ")?;
    add_indent(text, row.depth)?;
    text.push_str("(padding)\n")
}

fn wide(number: Option<u32>) -> Option<u64>
    ensures { result ≡ number }
{
    match number {
        Some(number) => Some(u64::from(number)),
        None => None,
    }
}

fn add_number(text: &mut String, number: Option<u64>) -> Result<(), AllocError>
    ensures { OnOk result (string_bytes text.new ≡ string_bytes text.old ++ column_text number) }
{
    match number {
        Some(number) => write!(text, "  {number:>6}"),
        None => text.push_str("        "),
    }
}

fn add_indent(text: &mut String, depth: usize) -> Result<(), AllocError>
    ensures { OnOk result (string_bytes text.new ≡ string_bytes text.old ++ indent_text depth) }
{
    text.push_str("  ")?;
    for _ in 0..depth {
        text.push_str("  ")?;
    }
    Ok(())
}

// A line for each rule of the uniform address space that the variable breaks.
fn add_broken_rules(
    alloc: Global,
    text: &mut String,
    name: &str,
    ty: &Type,
) -> Result<(), AllocError> {
    let broken = broken_rules(alloc, name, ty)?;
    for one in &broken {
        let path = &one.path;
        write!(text, "  uniform: {path}: ")?;
        add_rule(text, one.rule)?;
        text.push('\n')?;
    }
    Ok(())
}
