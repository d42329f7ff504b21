//! What a source may not share with its host (WGSL: host-shareable types; address spaces; resource interface).

use crate::finding::Finding;
use std::alloc::{AllocError, Global};
use wgsl_eval::{Item, ItemKind, Severity, Variable};
use wgsl_interface::{ShareRule, share_faults, struct_faults, variable_rules};
use wgsl_rules::{AddressSpace, Type};
use wgsl_source::{Declared, DeclaredVariable, Reading};

/// The most of these faults that are told of a source.
const SHARED: usize = 100;

/// The faults of structures and variables, in their order; of many the first.
pub(crate) fn shared_faults(
    alloc: Global,
    reading: &Reading<'_>,
    items: &[Item],
) -> Result<Vec<Finding>, AllocError> {
    let mut found = Vec::new(alloc);
    for (number, item) in items.iter().enumerate() {
        match (&item.kind, reading.declared(number)) {
            (ItemKind::Struct(ty), _) => add_struct(alloc, &mut found, item, ty)?,
            (ItemKind::Variable(variable), Some(Declared::Variable(declared))) => {
                add_variable(alloc, &mut found, item, variable, declared)?;
            }
            (_, _) => {}
        }
    }
    Ok(found)
}

fn add_struct(
    alloc: Global,
    found: &mut Vec<Finding>,
    item: &Item,
    ty: &Type,
) -> Result<(), AllocError> {
    let Type::Struct(ty) = ty else {
        return Ok(());
    };
    let faults = struct_faults(alloc, ty)?;
    for fault in &faults {
        add(alloc, found, item, fault.path.as_str(), fault.rule)?;
    }
    Ok(())
}

// What a structure breaks wherever it stands is told of it alone. Immediate data has the types that uniform variables have,
// and no access mode, group or binding.
fn add_variable(
    alloc: Global,
    found: &mut Vec<Finding>,
    item: &Item,
    variable: &Variable,
    declared: DeclaredVariable,
) -> Result<(), AllocError> {
    if !variable.is_immediate {
        add_rules(alloc, found, item, variable, declared)?;
    }
    let space = match variable.space {
        Some(space) => space,
        None if variable.is_immediate => AddressSpace::Uniform,
        None => AddressSpace::Handle,
    };
    let faults = share_faults(alloc, &variable.ty, space, variable.access)?;
    for fault in &faults {
        let path = fault.path.as_str();
        if !fault.rule.is_of_each_type() || !is_in_structure(path) {
            add(alloc, found, item, path, fault.rule)?;
        }
    }
    Ok(())
}

// What its access mode, its group and its binding break, which are given or not.
fn add_rules(
    alloc: Global,
    found: &mut Vec<Finding>,
    item: &Item,
    variable: &Variable,
    declared: DeclaredVariable,
) -> Result<(), AllocError> {
    let space = variable.space.unwrap_or(AddressSpace::Handle);
    let (has_group, has_binding) = (declared.group.is_some(), declared.binding.is_some());
    let rules = variable_rules(space, variable.access, has_group, has_binding);
    for rule in [rules.access, rules.group, rules.binding] {
        if let Some(rule) = rule {
            add(alloc, found, item, "", rule)?;
        }
    }
    Ok(())
}

// Whether the path goes through a member.
fn is_in_structure(path: &str) -> bool {
    path.bytes().any(|byte| byte != b'[' && byte != b']')
}

fn add(
    alloc: Global,
    found: &mut Vec<Finding>,
    item: &Item,
    path: &str,
    rule: ShareRule,
) -> Result<(), AllocError> {
    if found.len() >= SHARED {
        return Ok(());
    }
    let name = &item.name;
    let between = if path.is_empty() || path.starts_with('[') {
        ""
    } else {
        "."
    };
    let path = format!(in alloc; "{name}{between}{path}")?;
    let section = rule.section();
    let text = format!(in alloc; "{path}: {rule} (WGSL: {section})")?;
    found.push(Finding {
        start: item.start,
        end: item.end,
        severity: Severity::Fault,
        code: rule.code(),
        path,
        text,
    })?;
    Ok(())
}
