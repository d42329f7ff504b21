//! Why declarations are skipped, what is found of assertions, and which messages are told.

use std::alloc::Global;
use std::process::Abort;
use wgsl_eval::{
    Assertion, Dialect, ItemKind, Need, Outcome, Part, Settings, Severity, Skip, evaluate,
    evaluate_in, resolve, resolve_in,
};
use wgsl_rules::ShaderStage;
use wgsl_source::Reading;

/// Why the last declaration of the source is skipped.
fn skip_of(rt: &impl Abort, alloc: Global, source: &str) -> Skip {
    let reading = Reading::of_module(alloc, source).expect(rt, "memory");
    let mut declared = resolve(alloc, &reading).expect(rt, "memory");
    match declared.items.pop().expect(rt, "an item").kind {
        ItemKind::Skipped(skip) => skip,
        _ => panic!(rt; "{source}"),
    }
}

#[test]
fn declarations_are_skipped_for_their_reasons(rt: HostRuntime) {
    let alloc = rt.alloc();
    let rows = [
        ("const A = 1.5;", Need::Float, Part::Expression, "1.5"),
        ("override o = 1;", Need::Override, Part::Expression, "o"),
        ("override o: u32;", Need::Override, Part::Expression, "o"),
        ("var<private> v = 1;", Need::Variable, Part::Expression, "v"),
        (
            "var<private> v: u32; const A = v;",
            Need::Variable,
            Part::Expression,
            "v;",
        ),
        ("fn f() {}", Need::Function, Part::Expression, "f()"),
        (
            "fn f() {} const A = f();",
            Need::Function,
            Part::Expression,
            "f();",
        ),
        (
            "alias A = sampler;",
            Need::Opaque,
            Part::Expression,
            "sampler",
        ),
        (
            "alias A = texture_2d<f32>;",
            Need::Opaque,
            Part::Expression,
            "texture_2d",
        ),
        (
            "const A = arrayLength(1);",
            Need::Runtime,
            Part::Expression,
            "arrayLength",
        ),
        (
            "alias A = array<u32, u32(1.5)>;",
            Need::Float,
            Part::Count,
            "1.5",
        ),
        (
            "override o = 1; struct A { a: array<array<u32, o>, 2> }",
            Need::Override,
            Part::Count,
            "o>",
        ),
        (
            "struct A { @size(u32(1.5)) a: u32 }",
            Need::Float,
            Part::Attribute,
            "1.5",
        ),
        (
            "alias B = array<u32, u32(1.5)>; const A = B();",
            Need::Float,
            Part::Expression,
            "B();",
        ),
    ];
    for (row, (source, need, part, found)) in rows.into_iter().enumerate() {
        let skip = skip_of(&rt, alloc, source);
        assert_eq!(rt; (skip.need, skip.part), (need, part), "row {row}");
        let at = source.get(skip.start..).unwrap_or("");
        assert!(rt; at.starts_with(found), "row {row}: {at}");
    }
}

#[test]
fn assertions_are_found(rt: HostRuntime) {
    let alloc = rt.alloc();
    let source = "\
const_assert true; const_assert 1 > 2; const_assert 1.5 > 1.0; const_assert nothing; const A = 1 / 0; const_assert A == 1;";
    let reading = Reading::of_module(alloc, source).expect(&rt, "memory");
    let evaluation = evaluate(alloc, &reading, ShaderStage::Const, false).expect(&rt, "memory");
    let mut text = String::new(alloc);
    for assertion in &evaluation.asserts {
        let word = match assertion {
            Assertion::Holds => "holds ",
            Assertion::Skipped(_) => "skipped ",
            Assertion::Faulty => "faulty ",
        };
        text.push_str(word).expect(&rt, "memory");
    }
    assert_eq!(rt; text.as_str(), "holds faulty skipped faulty faulty ");
    assert_eq!(rt; evaluation.messages.len(), 3);
}

#[test]
fn faults_are_told_before_warnings(rt: HostRuntime) {
    let alloc = rt.alloc();
    let mut source = String::new(alloc);
    for number in 0..120 {
        write!(source, "const a{number} = 1u << 32u; ").expect(&rt, "memory");
    }
    source.push_str("const b = 1 / 0;").expect(&rt, "memory");
    let reading = Reading::of_module(alloc, source.as_str()).expect(&rt, "memory");
    let evaluation = evaluate(alloc, &reading, ShaderStage::Const, false).expect(&rt, "memory");
    assert_eq!(rt; evaluation.messages.len(), 100);
    let is_fault = evaluation
        .messages
        .iter()
        .any(|m| m.severity == Severity::Fault);
    assert!(rt; is_fault);
}

#[test]
fn the_library_has_more_than_the_standard(rt: HostRuntime) {
    let alloc = rt.alloc();
    let source = "const A = mat2x2(1, 2, 3, 4); alias B = vec2<i64>;";
    let reading = Reading::of_module(alloc, source).expect(&rt, "memory");
    let mut settings = Settings {
        stage: ShaderStage::Const,
        is_strict: true,
        dialect: Dialect::Crate,
    };
    let own = evaluate_in(alloc, &reading, settings).expect(&rt, "memory");
    assert!(rt; own.messages.is_empty());
    let outcome = own.values.first().map(|value| &value.outcome);
    assert!(rt; matches!(outcome, Some(Outcome::Value(_))));
    settings.dialect = Dialect::Wgsl;
    let declared = resolve_in(alloc, &reading, settings).expect(&rt, "memory");
    let matrix = declared.items.first().map(|item| &item.kind);
    assert!(rt; matches!(matrix, Some(ItemKind::Skipped(_))));
    let wide = declared.items.get(1).map(|item| &item.kind);
    assert!(rt; matches!(wide, Some(ItemKind::Faulty)));
    assert_eq!(rt; declared.messages.len(), 1);
}
