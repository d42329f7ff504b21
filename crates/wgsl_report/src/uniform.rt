//! What is broken of the rules that the uniform address space has (WGSL: address space layout
//! constraints).

ghost use Rattle.std.specs.Prelude.{◌≡◌, ◌++◌, OnOk, string_bytes};
ghost use Rattle.wgsl_report.specs.Texts.{rule_text};

use crate::rows::DEPTH;
use std::alloc::{AllocError, Global};
use wgsl_rules::{StructType, Type, UniformRule};

/// A rule that is broken, and the names of the members that lead to where it is.
#[derive(Drop)]
pub(crate) struct Broken {
    pub(crate) path: String,
    pub(crate) rule: UniformRule,
}

/// All that a variable of this name and type breaks, each where it is deepest inside; none where it
/// may be uniform.
pub(crate) fn broken_rules(
    alloc: Global,
    name: &str,
    ty: &Type,
) -> Result<Vec<Broken>, AllocError> {
    let mut broken = Vec::new(alloc);
    if let Some(rule) = ty.uniform_rule() {
        match broken_inside(ty, rule) {
            Some(inner) => push_inner(alloc, &mut broken, "", inner, DEPTH)?,
            None => push_broken(alloc, &mut broken, "", name, rule)?,
        }
    }
    Ok(broken)
}

// What the members of a structure break that stands behind these names, so many structures deep at
// most.
fn push_inner(
    alloc: Global,
    broken: &mut Vec<Broken>,
    path: &str,
    ty: &StructType,
    deep: usize,
) -> Result<(), AllocError> {
    let faults = ty.uniform_faults(alloc)?;
    for fault in &faults {
        let Some(member) = ty.members.get(fault.member) else {
            continue;
        };
        let name = member.name.as_str();
        match broken_inside(&member.ty, fault.rule) {
            Some(inner) if deep > 0 => {
                let inner_path = format!(in alloc; "{path}{name}.")?;
                push_inner(alloc, broken, inner_path.as_str(), inner, deep - 1)?;
            }
            _ => push_broken(alloc, broken, path, name, fault.rule)?,
        }
    }
    Ok(())
}

fn push_broken(
    alloc: Global,
    broken: &mut Vec<Broken>,
    path: &str,
    name: &str,
    rule: UniformRule,
) -> Result<(), AllocError> {
    let path = format!(in alloc; "{path}{name}")?;
    broken.push(Broken { path, rule })?;
    Ok(())
}

// The structure inside a type that breaks this rule, where the type does so by what is inside.
fn broken_inside(ty: &Type, rule: UniformRule) -> Option<&StructType> {
    match ty {
        Type::Struct(inner) if ty.uniform_rule() == Some(rule) => Some(inner),
        Type::Array(element, _) if element.uniform_rule() == Some(rule) => {
            broken_inside(element, rule)
        }
        _ => None,
    }
}

/// The words for a rule that is broken.
pub(crate) fn add_rule(text: &mut String, rule: UniformRule) -> Result<(), AllocError>
    ensures { OnOk result (string_bytes text.new ≡ string_bytes text.old ++ rule_text rule) }
{
    match rule {
        UniformRule::NotShared => text.push_str("no type that a uniform variable has"),
        UniformRule::RuntimeSized => text.push_str("a runtime-sized array"),
        UniformRule::NotKnown => text.push_str("a place that is not known"),
        UniformRule::Stride(stride) => {
            write!(
                text,
                "a stride of {stride} bytes, which is no multiple of 16"
            )
        }
        UniformRule::Align(align) => {
            write!(
                text,
                "an alignment of {align}, which is no multiple of what the type requires"
            )
        }
        UniformRule::Offset(offset) => {
            write!(
                text,
                "the offset {offset}, which is no multiple of what the type requires"
            )
        }
        UniformRule::Distance(offset) => {
            write!(text, "the offset {offset}, too near behind a structure")
        }
    }
}
