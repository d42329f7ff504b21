//! Structures of the host in C.

ghost use Rattle.std.specs.Prelude.{◌≡◌, ◌++◌, OnOk, string_bytes};
ghost use Rattle.wgsl_rules.specs.View.{type_view};
ghost use Rattle.wgsl_report.specs.Scalars.{c_scalar};
ghost use Rattle.wgsl_report.specs.Texts.{c_padding};

use crate::fields::{HostField, components_apart, fields_of, is_runtime_sized};
use crate::host_names::{marks_behind, padding_name};
use crate::structures::{Asked, Laid};
use crate::table::add_runtime;
use std::alloc::{AllocError, Global};
use wgsl_rules::{StructType, Type};

/// The words of C that no name may be.
const WORDS_OF_C: [&str; 34] = [
    "auto",
    "char",
    "double",
    "enum",
    "extern",
    "float",
    "goto",
    "inline",
    "int",
    "long",
    "register",
    "restrict",
    "short",
    "signed",
    "sizeof",
    "static",
    "typedef",
    "union",
    "unsigned",
    "void",
    "volatile",
    "_Alignas",
    "_Alignof",
    "_Atomic",
    "_Bool",
    "_Complex",
    "_Generic",
    "_Imaginary",
    "_Noreturn",
    "_Static_assert",
    "_Thread_local",
    "bool",
    "typeof",
    "typeof_unqual",
];

/// Those that C++ has beside them.
const WORDS_OF_CPP: [&str; 55] = [
    "alignas",
    "alignof",
    "and",
    "and_eq",
    "asm",
    "bitand",
    "bitor",
    "catch",
    "class",
    "compl",
    "concept",
    "consteval",
    "constexpr",
    "constinit",
    "const_cast",
    "decltype",
    "delete",
    "dynamic_cast",
    "explicit",
    "export",
    "friend",
    "mutable",
    "namespace",
    "new",
    "noexcept",
    "not",
    "not_eq",
    "nullptr",
    "operator",
    "or",
    "or_eq",
    "private",
    "protected",
    "public",
    "reinterpret_cast",
    "static_assert",
    "static_cast",
    "template",
    "this",
    "thread_local",
    "throw",
    "try",
    "typeid",
    "typename",
    "using",
    "virtual",
    "wchar_t",
    "char8_t",
    "char16_t",
    "char32_t",
    "xor",
    "xor_eq",
    "co_await",
    "co_return",
    "co_yield",
];

/// A structure for each that is asked for, in this order of the declarations; what its compiler
/// checks of it stands behind it.
pub(crate) fn add_c(
    alloc: Global,
    text: &mut String,
    order: &[usize],
    asked: Asked<'_>,
) -> Result<(), AllocError> {
    text.push_str("#include <assert.h>\n#include <stddef.h>\n#include <stdint.h>\n")?;
    for number in order {
        let Some(item) = asked.items.get(*number) else {
            continue;
        };
        if let Some(Laid::Struct(ty)) = asked.laid(item) {
            text.push('\n')?;
            add_struct(alloc, text, ty)?;
        }
    }
    Ok(())
}

fn add_struct(alloc: Global, text: &mut String, ty: &StructType) -> Result<(), AllocError> {
    match fields_of(alloc, ty)? {
        Some(fields) => {
            let added = add_struct_with(alloc, text, ty, fields.as_slice());
            drop(fields);
            added
        }
        None => {
            let name = &ty.name;
            writeln!(text, "// {name} has no layout")
        }
    }
}

fn add_struct_with(
    alloc: Global,
    text: &mut String,
    ty: &StructType,
    fields: &[HostField<'_>],
) -> Result<(), AllocError> {
    let name = &ty.name;
    add_runtime(alloc, text, ty)?;
    text.push_str("typedef struct ")?;
    add_type_name(text, name.as_str())?;
    text.push_str(" {\n")?;
    add_fields(alloc, text, ty, fields)?;
    text.push_str("} ")?;
    add_type_name(text, name.as_str())?;
    text.push_str(";\n")?;
    for field in fields {
        add_check(text, ty, field)?;
    }
    match ty.size_of() {
        Some(size) => add_size_check(text, name.as_str(), size),
        None => Ok(()),
    }
}

fn add_fields(
    alloc: Global,
    text: &mut String,
    ty: &StructType,
    fields: &[HostField<'_>],
) -> Result<(), AllocError> {
    let padding = padding_name(alloc, ty)?;
    for (i, field) in fields.iter().enumerate() {
        add_field(text, ty, field)?;
        add_padding(text, padding.as_str(), i, field.behind)?;
    }
    Ok(())
}

fn add_size_check(text: &mut String, name: &str, size: u32) -> Result<(), AllocError> {
    text.push_str("static_assert(sizeof(")?;
    add_type_name(text, name)?;
    writeln!(text, ") == {size}, \"{name}\");")
}

fn add_field(text: &mut String, ty: &StructType, field: &HostField<'_>) -> Result<(), AllocError> {
    text.push_str("    ")?;
    add_element(text, field.ty)?;
    text.push(' ')?;
    add_name(text, ty, field.name)?;
    add_counts(text, field.ty)?;
    text.push_str(if is_runtime_sized(field.ty) {
        "; // the first of its elements\n"
    } else {
        ";\n"
    })
}

fn add_padding(text: &mut String, name: &str, i: usize, behind: u64) -> Result<(), AllocError>
    ensures { OnOk result (string_bytes text.new ≡ string_bytes text.old ++ c_padding name.now i behind) }
{
    if behind == 0 {
        Ok(())
    } else {
        writeln!(text, "    uint8_t {name}{i}[{behind}];")
    }
}

fn add_check(text: &mut String, ty: &StructType, field: &HostField<'_>) -> Result<(), AllocError> {
    let (name, member, offset) = (&ty.name, field.name, field.offset);
    text.push_str("static_assert(offsetof(")?;
    add_type_name(text, name.as_str())?;
    text.push_str(", ")?;
    add_name(text, ty, member)?;
    writeln!(text, ") == {offset}, \"{name}.{member}\");")
}

// A member that is named as a word of C or of C++ has a `_` behind its name, or more where another has that name.
fn add_name(text: &mut String, ty: &StructType, name: &str) -> Result<(), AllocError> {
    text.push_str(name)?;
    if is_keyword(name) {
        for _ in 0..marks_behind(ty, name) {
            text.push('_')?;
        }
    }
    Ok(())
}

// So is a structure.
fn add_type_name(text: &mut String, name: &str) -> Result<(), AllocError> {
    text.push_str(name)?;
    if is_keyword(name) {
        text.push('_')?;
    }
    Ok(())
}

fn is_keyword(name: &str) -> bool {
    WORDS_OF_C.iter().any(|word| *word == name) || WORDS_OF_CPP.iter().any(|word| *word == name)
}

// What the field is made of.
fn add_element(text: &mut String, ty: &Type) -> Result<(), AllocError> {
    match ty {
        Type::Struct(inner) => add_type_name(text, inner.name.as_str()),
        Type::Atomic(inner) | Type::Vec(_, inner) => add_element(text, inner),
        Type::Mat(_, _, inner) | Type::Array(inner, _) => add_element(text, inner),
        scalar => text.push_str(scalar_name(scalar)),
    }
}

// What C has no type for is its bits.
fn scalar_name(ty: &Type) -> &'static str
    ensures { result.now ≡ c_scalar (type_view ty.now) }
{
    match ty {
        Type::I32 => "int32_t",
        Type::F32 => "float",
        Type::F16 => "uint16_t",
        Type::I64 => "int64_t",
        Type::U64 => "uint64_t",
        Type::F64 => "double",
        Type::Bool | Type::AbstractInt | Type::AbstractFloat => "uint32_t",
        Type::Struct(_) | Type::Array(_, _) | Type::Vec(_, _) => "uint32_t",
        Type::Mat(_, _, _) | Type::Atomic(_) | Type::U32 => "uint32_t",
        Type::Ptr(_, _, _) | Type::Ref(_, _, _) => "uint32_t",
        Type::Texture(_) | Type::Sampler(_) => "uint32_t",
    }
}

// How many of it, from the outermost in. A runtime-sized array has its first element alone.
fn add_counts(text: &mut String, ty: &Type) -> Result<(), AllocError> {
    match ty {
        Type::Vec(n, _) => write!(text, "[{n}]"),
        Type::Mat(columns, _, component) => {
            let rows = components_apart(ty.stride(), component);
            write!(text, "[{columns}][{rows}]")
        }
        Type::Array(element, n) => {
            let n = n.unwrap_or(1);
            write!(text, "[{n}]")?;
            match element.as_ref() {
                Type::Vec(_, component) => {
                    let rows = components_apart(ty.stride(), component);
                    write!(text, "[{rows}]")
                }
                _ => add_counts(text, element),
            }
        }
        _ => Ok(()),
    }
}
