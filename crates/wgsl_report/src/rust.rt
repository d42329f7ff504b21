//! Structures of the host in Rust.

ghost use Rattle.std.specs.Prelude.{◌≡◌, ◌++◌, OnOk, string_bytes};
ghost use Rattle.wgsl_rules.specs.View.{type_view};
ghost use Rattle.wgsl_report.specs.Scalars.{rust_scalar};
ghost use Rattle.wgsl_report.specs.Texts.{rust_padding};

use crate::fields::{HostField, components_apart, fields_of, is_runtime_sized};
use crate::host_names::padding_name;
use crate::structures::{Asked, Laid};
use crate::table::add_runtime;
use std::alloc::{AllocError, Global};
use wgsl_rules::{StructType, Type};

/// The words of Rust that may stand behind `r#`; of these WGSL lets a name be `box`, `dyn`, `gen` and `in`.
const KEYWORDS: [&str; 32] = [
    "abstract", "as", "async", "await", "become", "box", "dyn", "enum", "extern", "final", "gen",
    "impl", "in", "macro", "match", "mod", "move", "mut", "priv", "pub", "ref", "static", "trait",
    "try", "type", "typeof", "unsafe", "unsized", "use", "virtual", "where", "yield",
];

/// The traits that a structure of the host derives.
#[derive(Clone, Copy, Debug, PartialEq, Eq)]
pub(crate) enum Traits {
    Copy,
    /// Those of the crate `bytemuck` too.
    Bytemuck,
}

/// A structure for each that is asked for; what its compiler checks of it stands behind it.
pub(crate) fn add_rust(
    alloc: Global,
    text: &mut String,
    asked: Asked<'_>,
    traits: Traits,
) -> Result<(), AllocError> {
    for item in asked.items {
        if let Some(Laid::Struct(ty)) = asked.laid(item) {
            if !text.is_empty() {
                text.push('\n')?;
            }
            add_struct(alloc, text, ty, traits)?;
        }
    }
    Ok(())
}

fn add_struct(
    alloc: Global,
    text: &mut String,
    ty: &StructType,
    traits: Traits,
) -> Result<(), AllocError> {
    match fields_of(alloc, ty)? {
        Some(fields) => {
            let added = add_struct_with(alloc, text, ty, traits, fields.as_slice());
            drop(fields);
            added
        }
        None => {
            let name = &ty.name;
            writeln!(text, "// {name} has no layout")
        }
    }
}

fn add_struct_with(
    alloc: Global,
    text: &mut String,
    ty: &StructType,
    traits: Traits,
    fields: &[HostField<'_>],
) -> Result<(), AllocError> {
    let name = &ty.name;
    add_runtime(alloc, text, ty)?;
    let derived = derived_by(traits);
    write!(
        text,
        "#[repr(C)]\n#[derive(Clone, Copy{derived})]\npub struct "
    )?;
    add_name(text, name.as_str())?;
    text.push_str(" {\n")?;
    add_fields(alloc, text, ty, fields)?;
    text.push_str("}\n")?;
    for field in fields {
        add_check(text, name.as_str(), field)?;
    }
    match ty.size_of() {
        Some(size) => add_size_check(text, name.as_str(), size),
        None => Ok(()),
    }
}

fn add_fields(
    alloc: Global,
    text: &mut String,
    ty: &StructType,
    fields: &[HostField<'_>],
) -> Result<(), AllocError> {
    let padding = padding_name(alloc, ty)?;
    for (i, field) in fields.iter().enumerate() {
        add_field(text, field)?;
        add_padding(text, padding.as_str(), i, field.behind)?;
    }
    Ok(())
}

// What stands behind `Clone, Copy`.
fn derived_by(traits: Traits) -> &'static str {
    match traits {
        Traits::Copy => "",
        Traits::Bytemuck => ", bytemuck::Pod, bytemuck::Zeroable",
    }
}

fn add_size_check(text: &mut String, name: &str, size: u32) -> Result<(), AllocError> {
    text.push_str("const _: () = assert!(core::mem::size_of::<")?;
    add_name(text, name)?;
    writeln!(text, ">() == {size});")
}

fn add_field(text: &mut String, field: &HostField<'_>) -> Result<(), AllocError> {
    text.push_str("    pub ")?;
    add_name(text, field.name)?;
    text.push_str(": ")?;
    add_type(text, field.ty)?;
    text.push_str(if is_runtime_sized(field.ty) {
        ", // the first of its elements\n"
    } else {
        ",\n"
    })
}

fn add_padding(text: &mut String, name: &str, i: usize, behind: u64) -> Result<(), AllocError>
    ensures { OnOk result (string_bytes text.new ≡ string_bytes text.old ++ rust_padding name.now i behind) }
{
    if behind == 0 {
        Ok(())
    } else {
        writeln!(text, "    pub {name}{i}: [u8; {behind}],")
    }
}

fn add_check(text: &mut String, name: &str, field: &HostField<'_>) -> Result<(), AllocError> {
    let offset = field.offset;
    text.push_str("const _: () = assert!(core::mem::offset_of!(")?;
    add_name(text, name)?;
    text.push_str(", ")?;
    add_name(text, field.name)?;
    writeln!(text, ") == {offset});")
}

// A member or a structure may be named as a word of Rust.
fn add_name(text: &mut String, name: &str) -> Result<(), AllocError> {
    if is_keyword(name) {
        text.push_str("r#")?;
    }
    text.push_str(name)
}

fn is_keyword(name: &str) -> bool {
    KEYWORDS.iter().any(|word| *word == name)
}

// A runtime-sized array has its first element alone.
fn add_type(text: &mut String, ty: &Type) -> Result<(), AllocError> {
    match ty {
        Type::Struct(inner) => add_name(text, inner.name.as_str()),
        Type::Atomic(inner) => add_type(text, inner),
        Type::Vec(n, component) => add_array(text, component, u32::from(*n)),
        Type::Mat(columns, _, component) => {
            text.push('[')?;
            add_array(text, component, components_apart(ty.stride(), component))?;
            write!(text, "; {columns}]")
        }
        Type::Array(element, n) => {
            text.push('[')?;
            match element.as_ref() {
                Type::Vec(_, component) => {
                    add_array(text, component, components_apart(ty.stride(), component))?;
                }
                _ => add_type(text, element)?,
            }
            let n = n.unwrap_or(1);
            write!(text, "; {n}]")
        }
        scalar => text.push_str(scalar_name(scalar)),
    }
}

fn add_array(text: &mut String, component: &Type, n: u32) -> Result<(), AllocError> {
    let name = scalar_name(component);
    write!(text, "[{name}; {n}]")
}

// What Rust has no type for is its bits.
fn scalar_name(ty: &Type) -> &'static str
    ensures { result.now ≡ rust_scalar (type_view ty.now) }
{
    match ty {
        Type::I32 => "i32",
        Type::F32 => "f32",
        Type::F16 => "u16",
        Type::I64 => "i64",
        Type::U64 => "u64",
        Type::F64 => "f64",
        Type::Bool | Type::AbstractInt | Type::AbstractFloat => "u32",
        Type::Struct(_) | Type::Array(_, _) | Type::Vec(_, _) => "u32",
        Type::Mat(_, _, _) | Type::Atomic(_) | Type::U32 => "u32",
        Type::Ptr(_, _, _) | Type::Ref(_, _, _) => "u32",
        Type::Texture(_) | Type::Sampler(_) => "u32",
    }
}
