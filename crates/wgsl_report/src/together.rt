//! Variables of one group and binding that an entry point uses together (WGSL: resource interface of a shader).

use crate::finding::Finding;
use crate::interface::{EntryPoint, Interface};
use std::alloc::{AllocError, Global};
use std::collections::BTreeSet;
use wgsl_eval::{Item, Severity};
use wgsl_interface::{Binding, BindingPair, ShareRule, pairs_at_binding};

/// The most of these warnings that are told of a source.
const TOGETHER: usize = 100;

/// A warning for each variable that an entry point uses beside one before it with its group and its binding; of several
/// entry points the first. With strictness it is a fault.
pub(crate) fn used_together(
    alloc: Global,
    interface: &Interface<'_>,
    items: &[Item],
    is_strict: bool,
) -> Result<Vec<Finding>, AllocError> {
    let mut found = Vec::new(alloc);
    let mut told = BTreeSet::new(alloc);
    let bindings = bindings_of(alloc, interface, items.len())?;
    for entry in &interface.entries {
        let pairs = pairs_at_binding(alloc, bindings.as_slice(), entry.reached.as_slice())?;
        for pair in &pairs {
            if found.len() < TOGETHER && told.insert(pair.later)? {
                add(alloc, &mut found, items, entry, *pair, is_strict)?;
            }
        }
    }
    Ok(found)
}

// The group and the binding of each of so many declarations, where it has both.
fn bindings_of(
    alloc: Global,
    interface: &Interface<'_>,
    count: usize,
) -> Result<Vec<Option<Binding>>, AllocError> {
    let mut bindings = vec![in alloc; None; count]?;
    for one in &interface.bindings {
        let Some(place) = bindings.get_mut(one.number) else {
            continue;
        };
        *place = match (one.group, one.binding) {
            (Some(group), Some(binding)) => Some(Binding { group, binding }),
            (_, _) => None,
        };
    }
    Ok(bindings)
}

fn add(
    alloc: Global,
    found: &mut Vec<Finding>,
    items: &[Item],
    entry: &EntryPoint<'_>,
    pair: BindingPair,
    is_strict: bool,
) -> Result<(), AllocError> {
    let (Some(first), Some(later)) = (items.get(pair.first), items.get(pair.later)) else {
        return Ok(());
    };
    let (name, other, user) = (&later.name, &first.name, &entry.item.name);
    let rule = ShareRule::SameBinding;
    let section = rule.section();
    let text = format!(in alloc;
        "{name} stands where {other} does, and {user} uses both: {rule} (WGSL: {section})"
    )?;
    found.push(Finding {
        start: later.start,
        end: later.end,
        severity: if is_strict {
            Severity::Fault
        } else {
            Severity::Warning
        },
        code: rule.code(),
        path: String::from_str(alloc, name.as_str())?,
        text,
    })?;
    Ok(())
}
