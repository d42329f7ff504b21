//! The names of what a host's structure has beside the members of a shader's.

use std::alloc::{AllocError, Global};
use wgsl_rules::StructType;

/// What the names of padding begin with, so that no member's name does.
pub(crate) fn padding_name(alloc: Global, ty: &StructType) -> Result<String, AllocError> {
    let mut name = String::from_str(alloc, "_padding")?;
    for member in &ty.members {
        // Each turn makes it longer.
        for _ in 0..member.name.len() {
            if !member.name.as_str().starts_with(name.as_str()) {
                break;
            }
            name.push('x')?;
        }
    }
    Ok(name)
}

/// How many `_` stand behind a member's name that the host's language has as a word of its own, so
/// that no other member is named so: one more than behind any other.
pub(crate) fn marks_behind(ty: &StructType, name: &str) -> usize {
    let mut marks = 1usize;
    for member in &ty.members {
        if let Some(rest) = member.name.as_str().strip_prefix(name) {
            if rest.bytes().all(|byte| byte == b'_') {
                marks = marks.max(rest.len().saturating_add(1));
            }
        }
    }
    marks
}
