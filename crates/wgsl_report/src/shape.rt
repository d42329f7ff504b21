//! Types as JSON (WGSL: types).

use std::alloc::AllocError;
use wgsl_rules::Type;

#[cycle(shape)]
/// One object: the kind of the type, and what it is made of; sizes in bytes. A structure stands there by its name.
/// It calls itself for each level of the type.
pub(crate) fn add_shape(text: &mut String, ty: &Type) -> Result<(), AllocError> {
    match ty {
        Type::Struct(of) => {
            let name = &of.name;
            write!(text, "{{\"kind\": \"struct\", \"name\": \"{name}\"}}")
        }
        Type::Array(element, count) => {
            text.push_str("{\"kind\": \"array\", \"count\": ")?;
            match count {
                Some(count) => write!(text, "{count}")?,
                None => text.push_str("null")?,
            }
            add_stride(text, ty)?;
            add_part(text, element)
        }
        Type::Vec(count, component) => {
            write!(text, "{{\"kind\": \"vector\", \"count\": {count}")?;
            add_part(text, component)
        }
        Type::Mat(columns, rows, component) => {
            write!(
                text,
                "{{\"kind\": \"matrix\", \"columns\": {columns}, \"rows\": {rows}"
            )?;
            add_stride(text, ty)?;
            add_part(text, component)
        }
        Type::Atomic(number) => {
            text.push_str("{\"kind\": \"atomic\"")?;
            add_part(text, number)
        }
        _ => add_scalar(text, ty),
    }
}

#[cycle(shape)]
fn add_part(text: &mut String, ty: &Type) -> Result<(), AllocError> {
    text.push_str(", \"of\": ")?;
    add_shape(text, ty)?;
    text.push('}')
}

// From one element or column to the next.
fn add_stride(text: &mut String, ty: &Type) -> Result<(), AllocError> {
    match ty.stride() {
        Some(stride) => write!(text, ", \"stride\": {stride}"),
        None => text.push_str(", \"stride\": null"),
    }
}

// Another type than these has no width here.
fn add_scalar(text: &mut String, ty: &Type) -> Result<(), AllocError> {
    let kind = match ty {
        Type::Bool => "bool",
        Type::I32 | Type::I64 | Type::AbstractInt => "sint",
        Type::U32 | Type::U64 => "uint",
        Type::F16 | Type::F32 | Type::F64 | Type::AbstractFloat => "float",
        _ => "other",
    };
    write!(text, "{{\"kind\": \"{kind}\", \"width\": ")?;
    match ty.size_of() {
        Some(width) => write!(text, "{width}}}"),
        None => text.push_str("null}"),
    }
}
