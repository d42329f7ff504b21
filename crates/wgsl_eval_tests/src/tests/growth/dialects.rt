//! The constants and the declarations of a module in each dialect.

use crate::tests::growth::evaluations::text_of;
use crate::tests::growth::separate;
use std::alloc::{AllocError, Global};
use std::process::Abort;
use wgsl_eval::{Declarations, Dialect, ItemKind, Settings, evaluate_in, resolve_in};
use wgsl_rules::ShaderStage;
use wgsl_source::Reading;

const MODULE: &str = "\
const A = countLeadingZeros(1);
const B = mat2x2(1, 2, 3, 4);
const C = 1li;
alias Rows = array<u32, countLeadingZeros(1)>;
";

fn settings(dialect: Dialect) -> Settings {
    Settings {
        stage: ShaderStage::Const,
        is_strict: false,
        dialect,
    }
}

pub(super) fn text_of_aliases(alloc: Global, found: &Declarations) -> Result<String, AllocError> {
    let mut text = String::new(alloc);
    for item in &found.items {
        if let ItemKind::Alias(ty) = &item.kind {
            separate(&mut text)?;
            write!(text, "{ty}")?;
        }
    }
    Ok(text)
}

fn assert_values(rt: &impl Abort, alloc: Global, dialect: Dialect, wanted: &str) {
    let reading = again!(rt; Reading::of_module(alloc, MODULE));
    let evaluation = again!(rt; evaluate_in(alloc, &reading, settings(dialect)));
    let text = again!(rt; text_of(alloc, &evaluation));
    drop(evaluation);
    drop(reading);
    assert_eq!(rt; text.as_str(), wanted);
}

#[test]
fn a_module_in_each_dialect_is_evaluated_or_memory_is_wanting(rt: HostRuntime) {
    let alloc = rt.alloc();
    let wanted = "31i; skipped; 1li; WGSL has no 64-bit integers";
    assert_values(&rt, alloc, Dialect::Wgsl, wanted);
    let wanted = "63; mat2x2(vec2(1, 2), vec2(3, 4)); 1li; \
                  the standard takes this as an i32 first (WGSL: bit counts); \
                  the standard takes this as an i32 first (WGSL: bit counts)";
    assert_values(&rt, alloc, Dialect::Crate, wanted);
}

fn assert_aliases(rt: &impl Abort, alloc: Global, dialect: Dialect, wanted: &str) {
    let reading = again!(rt; Reading::of_module(alloc, MODULE));
    let found = again!(rt; resolve_in(alloc, &reading, settings(dialect)));
    let text = again!(rt; text_of_aliases(alloc, &found));
    drop(found);
    drop(reading);
    assert_eq!(rt; text.as_str(), wanted);
}

#[test]
fn declarations_in_each_dialect_are_found_or_memory_is_wanting(rt: HostRuntime) {
    let alloc = rt.alloc();
    assert_aliases(&rt, alloc, Dialect::Wgsl, "array<u32, 31>");
    assert_aliases(&rt, alloc, Dialect::Crate, "array<u32, 63>");
}
