//! The structures and variables that are asked for.

ghost use Rattle.std.specs.Prelude.{◌≡◌, is_some};
ghost use Rattle.wgsl_rules.specs.View.{type_view};
ghost use Rattle.wgsl_report.specs.Kinds.{is_shared, is_shared_space, is_structure, is_laid_out};

use crate::rows::{Row, rows_of};
use std::alloc::{AllocError, Global};
use wgsl_eval::{Item, ItemKind, Variable};
use wgsl_rules::{AddressSpace, StructType, Type};

/// The declarations of a source, and the names that are asked for; none are all.
#[derive(Clone, Copy)]
pub(crate) struct Asked<'a> {
    pub(crate) items: &'a [Item],
    names: &'a [&'a str],
}

/// What has a layout.
#[derive(Clone, Copy)]
pub(crate) enum Laid<'a> {
    Struct(&'a StructType),
    Variable(&'a str, &'a Variable),
}

impl<'a> Asked<'a> {
    pub(crate) fn new(items: &'a [Item], names: &'a [&'a str]) -> Self {
        Asked { items, names }
    }

    /// What a declaration is, if it is asked for and has a layout. Of variables those in storage and
    /// uniform space and of immediate data have one.
    pub(crate) fn laid(&self, item: &'a Item) -> Option<Laid<'a>> {
        if !self.names.is_empty() && !self.is_named(item.name.as_str()) {
            return None;
        }
        laid_of(item)
    }

    /// Whether names are asked for.
    pub(crate) fn is_by_name(&self) -> bool {
        !self.names.is_empty()
    }

    fn is_named(&self, name: &str) -> bool {
        self.names.iter().any(|asked| *asked == name)
    }

    /// The names that are asked for, and those of the structures inside what they name; none where
    /// none are asked for.
    pub(crate) fn names_with_inner(&self, alloc: Global) -> Result<Vec<&'a str>, AllocError> {
        let mut names = Vec::new(alloc);
        if !self.is_by_name() {
            return Ok(names);
        }
        for name in self.names {
            push_name(&mut names, name)?;
        }
        for item in self.items {
            if let Some(laid) = self.laid(item) {
                push_inner(alloc, &mut names, laid)?;
            }
        }
        Ok(names)
    }
}

// The names of the structures inside.
fn push_inner<'a>(
    alloc: Global,
    names: &mut Vec<&'a str>,
    laid: Laid<'a>,
) -> Result<(), AllocError> {
    let outermost = match laid {
        Laid::Struct(ty) => Some(ty),
        Laid::Variable(_, variable) => innermost(&variable.ty),
    };
    let Some(outermost) = outermost else {
        return Ok(());
    };
    push_name(names, outermost.name.as_str())?;
    let rows = rows_of(alloc, outermost)?;
    for row in &rows {
        if let Some(inner) = inner_structure(*row) {
            push_name(names, inner.name.as_str())?;
        }
    }
    Ok(())
}

fn inner_structure(row: Row<'_>) -> Option<&StructType> {
    match row {
        Row::Member(row) => innermost(&row.member.ty),
        Row::Padding(_) => None,
    }
}

fn push_name<'a>(names: &mut Vec<&'a str>, name: &'a str) -> Result<(), AllocError> {
    if !names.iter().any(|other| *other == name) {
        names.push(name)?;
    }
    Ok(())
}

// What a declaration is, if it has a layout.
fn laid_of(item: &Item) -> Option<Laid<'_>>
    ensures { is_some result ≡ is_laid_out item.now.kind }
{
    match &item.kind {
        ItemKind::Struct(ty) => match structure(ty) {
            Some(ty) => Some(Laid::Struct(ty)),
            None => None,
        },
        ItemKind::Variable(variable) if is_shared(variable) => {
            Some(Laid::Variable(item.name.as_str(), variable))
        }
        ItemKind::Variable(_) | ItemKind::Alias(_) | ItemKind::Value(_) => None,
        ItemKind::Skipped(_) | ItemKind::Faulty => None,
    }
}

/// Whether the variable is one of storage or uniform space, or of immediate data.
pub(crate) fn is_shared(variable: &Variable) -> bool
    ensures { result ≡ is_shared variable.now }
{
    is_shared_space(variable.space) || variable.is_immediate
}

fn is_shared_space(space: Option<AddressSpace>) -> bool
    ensures { result ≡ is_shared_space space }
{
    match space {
        Some(AddressSpace::Storage | AddressSpace::Uniform) => true,
        Some(AddressSpace::Function | AddressSpace::Private) => false,
        Some(AddressSpace::Workgroup | AddressSpace::Handle) => false,
        None => false,
    }
}

/// The structure that a type is.
pub(crate) fn structure(ty: &Type) -> Option<&StructType>
    ensures { is_some result ≡ is_structure (type_view ty.now) }
{
    match ty {
        Type::Struct(inner) => Some(inner),
        Type::Bool | Type::AbstractInt | Type::AbstractFloat => None,
        Type::I32 | Type::U32 | Type::F32 | Type::F16 => None,
        Type::I64 | Type::U64 | Type::F64 => None,
        Type::Array(_, _) | Type::Vec(_, _) | Type::Mat(_, _, _) => None,
        Type::Atomic(_) | Type::Ptr(_, _, _) | Type::Ref(_, _, _) => None,
        Type::Texture(_) | Type::Sampler(_) => None,
    }
}

/// The structure that a type is, or that its elements are.
pub(crate) fn innermost(ty: &Type) -> Option<&StructType> {
    match ty {
        Type::Struct(inner) => Some(inner),
        Type::Array(element, _) => innermost(element),
        _ => None,
    }
}

/// Where the runtime-sized array begins that a type is or ends in, and how far its elements lie
/// apart, in bytes.
#[derive(Clone, Copy)]
pub(crate) struct RuntimePart {
    pub(crate) start: u32,
    pub(crate) stride: u32,
}

/// The runtime-sized array that a structure ends in.
pub(crate) fn runtime_member(
    alloc: Global,
    ty: &StructType,
) -> Result<Option<RuntimePart>, AllocError> {
    let layouts = ty.member_layouts(alloc)?;
    Ok(match (ty.members.last(), layouts.last()) {
        (Some(member), Some(layout)) => runtime_array(&member.ty, layout.offset),
        (_, _) => None,
    })
}

/// The runtime-sized array that a type is or ends in.
pub(crate) fn runtime_part(alloc: Global, ty: &Type) -> Result<Option<RuntimePart>, AllocError> {
    match structure(ty) {
        Some(of_struct) => runtime_member(alloc, of_struct),
        None => Ok(runtime_array(ty, Some(0))),
    }
}

// The runtime-sized array that a type is which begins at this offset.
fn runtime_array(ty: &Type, start: Option<u32>) -> Option<RuntimePart> {
    match ty {
        Type::Array(_, None) => Some(RuntimePart {
            start: start?,
            stride: ty.stride()?,
        }),
        _ => None,
    }
}
