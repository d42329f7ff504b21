//! Values that a host gives overrides.

use std::alloc::{AllocError, Global};
use std::process::Abort;
use wgsl_eval::{
    Dialect, Evaluation, Given, ItemKind, Outcome, Settings, evaluate_in, evaluate_with,
    is_override, resolve_with,
};
use wgsl_rules::ShaderStage;
use wgsl_scalar::LiteralInstance::{self, AbstractInt, Bool, I32, U32};
use wgsl_source::Reading;

const MODULE: &str = "\
override n: u32;
override m = 2;
override f: f32;
override b = m > 1;
const A = n;
var<workgroup> row: array<u32, n * 2>;
alias Rows = array<u32, n>;
const_assert n == 3;
";

fn settings(stage: ShaderStage) -> Settings {
    Settings {
        stage,
        is_strict: false,
        dialect: Dialect::Wgsl,
    }
}

fn text_of(
    alloc: Global,
    reading: &Reading<'_>,
    evaluation: &Evaluation,
) -> Result<String, AllocError> {
    let mut text = String::new(alloc);
    for value in &evaluation.values {
        let name = reading.word(value.token);
        match &value.outcome {
            Outcome::Value(instance) => write!(text, "{name} = {instance}; ")?,
            Outcome::Skipped(_) => write!(text, "{name} skipped; ")?,
            Outcome::Faulty => write!(text, "{name} faulty; ")?,
        }
    }
    for message in &evaluation.messages {
        write!(text, "{}: {}; ", message.start, message.text.as_str())?;
    }
    Ok(text)
}

fn assert_given(
    rt: &impl Abort,
    alloc: Global,
    stage: ShaderStage,
    given: &[Given<'_>],
    wanted: &str,
) {
    let reading = again!(rt; Reading::of_module(alloc, MODULE));
    let evaluation = again!(rt; evaluate_with(alloc, &reading, settings(stage), given));
    let text = again!(rt; text_of(alloc, &reading, &evaluation));
    drop(evaluation);
    drop(reading);
    assert_eq!(rt; text.as_str(), wanted);
}

fn given(name: &str, value: LiteralInstance) -> Given<'_> {
    Given { name, value }
}

#[test]
fn overrides_have_the_values_that_are_given(rt: HostRuntime) {
    let alloc = rt.alloc();
    let first = ShaderStage::Const;
    let three = [given("n", AbstractInt(3))];
    assert_given(&rt, alloc, first, &three, "n = 3u; A = 3u; ");
    let both = [given("m", I32(7)), given("n", U32(3)), given("n", U32(4))];
    assert_given(&rt, alloc, first, &both, "n = 3u; m = 7i; A = 3u; ");
    let later = ShaderStage::Override;
    let wanted = "n = 3u; m = 2i; f skipped; b = true; A = 3u; ";
    assert_given(&rt, alloc, later, &three, wanted);
    let wanted = "n = 3u; m = 0i; f skipped; b = false; A = 3u; ";
    let zero = [given("m", AbstractInt(0)), given("n", AbstractInt(3))];
    assert_given(&rt, alloc, later, &zero, wanted);
}

#[test]
fn what_does_not_convert_is_a_fault_of_the_override(rt: HostRuntime) {
    let alloc = rt.alloc();
    let first = ShaderStage::Const;
    let large = [given("n", AbstractInt(4294967296))];
    let wanted = "n faulty; A faulty; 9: 4294967296 is no u32; ";
    assert_given(&rt, alloc, first, &large, wanted);
    let typed = [given("m", U32(3)), given("n", AbstractInt(3))];
    let wanted = "n = 3u; m faulty; A = 3u; 26: 3u is no i32; ";
    assert_given(&rt, alloc, first, &typed, wanted);
    let truth = [given("n", AbstractInt(3)), given("f", Bool(true))];
    let wanted = "n = 3u; f skipped; A = 3u; ";
    assert_given(&rt, alloc, first, &truth, wanted);
}

#[test]
fn counts_name_overrides_that_are_given(rt: HostRuntime) {
    let alloc = rt.alloc();
    let reading = again!(&rt; Reading::of_module(alloc, MODULE));
    let three = [given("n", AbstractInt(3))];
    let settings = settings(ShaderStage::Const);
    let found = again!(&rt; resolve_with(alloc, &reading, settings, &three));
    let mut text = String::new(alloc);
    for item in &found.items {
        match &item.kind {
            ItemKind::Alias(ty) => write!(text, "{ty}; ").expect(&rt, "memory"),
            ItemKind::Variable(variable) => {
                write!(text, "{}; ", variable.ty).expect(&rt, "memory")
            }
            _ => {}
        }
    }
    assert_eq!(rt; text.as_str(), "array<u32, 6>; array<u32, 3>; ");
    assert!(rt; is_override(&reading, "f"));
    assert!(rt; !is_override(&reading, "A"));
    assert!(rt; !is_override(&reading, "k"));
}

#[test]
fn nothing_that_is_given_changes_nothing(rt: HostRuntime) {
    let alloc = rt.alloc();
    let reading = again!(&rt; Reading::of_module(alloc, MODULE));
    let settings = settings(ShaderStage::Override);
    let own = again!(&rt; evaluate_in(alloc, &reading, settings));
    let with = again!(&rt; evaluate_with(alloc, &reading, settings, &[]));
    assert!(rt; own == with);
    let other = [given("k", AbstractInt(1))];
    let with = again!(&rt; evaluate_with(alloc, &reading, settings, &other));
    assert!(rt; own == with);
}
