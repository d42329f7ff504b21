//! Overrides with values that a host gives.

use crate::tests::growth::dialects::text_of_aliases;
use crate::tests::growth::evaluations::text_of;
use std::alloc::Global;
use std::process::Abort;
use wgsl_eval::{Dialect, Given, Settings, evaluate_with, resolve_with};
use wgsl_rules::ShaderStage;
use wgsl_scalar::LiteralInstance::AbstractInt;
use wgsl_source::Reading;

const MODULE: &str = "\
override n: u32;
const A = n + 1;
alias Rows = array<u32, n>;
";

const SETTINGS: Settings = Settings {
    stage: ShaderStage::Const,
    is_strict: false,
    dialect: Dialect::Wgsl,
};

fn assert_values(rt: &impl Abort, alloc: Global, given: &[Given<'_>]) {
    let reading = again!(rt; Reading::of_module(alloc, MODULE));
    let evaluation = again!(rt; evaluate_with(alloc, &reading, SETTINGS, given));
    let text = again!(rt; text_of(alloc, &evaluation));
    drop(evaluation);
    drop(reading);
    assert_eq!(rt; text.as_str(), "3u; 4u");
}

#[test]
fn overrides_with_values_are_evaluated_or_memory_is_wanting(rt: HostRuntime) {
    let given = [Given {
        name: "n",
        value: AbstractInt(3),
    }];
    assert_values(&rt, rt.alloc(), &given);
}

fn assert_aliases(rt: &impl Abort, alloc: Global, given: &[Given<'_>]) {
    let reading = again!(rt; Reading::of_module(alloc, MODULE));
    let found = again!(rt; resolve_with(alloc, &reading, SETTINGS, given));
    let text = again!(rt; text_of_aliases(alloc, &found));
    drop(found);
    drop(reading);
    assert_eq!(rt; text.as_str(), "array<u32, 3>");
}

#[test]
fn counts_by_values_are_found_or_memory_is_wanting(rt: HostRuntime) {
    let given = [Given {
        name: "n",
        value: AbstractInt(3),
    }];
    assert_aliases(&rt, rt.alloc(), &given);
}
