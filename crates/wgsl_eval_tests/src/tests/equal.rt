//! What is found of two sources, and what is asked, is equal where all its parts are.

use crate::tests::answers::{made, made_all};
use std::alloc::Global;
use std::process::Abort;
use wgsl_apply::Asked;
use wgsl_eval::{Declarations, Evaluation, evaluate, resolve};
use wgsl_rules::BinaryOperator::Addition;
use wgsl_rules::ShaderStage::Const;
use wgsl_rules::UnaryOperator::{LogicalNegation, Negation};
use wgsl_samples::operands::i;
use wgsl_source::Reading;

fn evaluation(rt: &impl Abort, alloc: Global, source: &str) -> Evaluation {
    let reading = Reading::of_module(alloc, source).expect(rt, "memory");
    evaluate(alloc, &reading, Const, false).expect(rt, "memory")
}

fn declarations(rt: &impl Abort, alloc: Global, source: &str) -> Declarations {
    let reading = Reading::of_module(alloc, source).expect(rt, "memory");
    resolve(alloc, &reading).expect(rt, "memory")
}

fn assert_compared<T: Eq + Drop>(rt: &impl Abort, row: usize, left: T, right: T, wanted: bool) {
    let is_equal = left == right;
    drop((left, right));
    assert_eq!(rt; is_equal, wanted, "row {row}");
}

#[test]
fn evaluations_are_compared(rt: HostRuntime) {
    let alloc = rt.alloc();
    let rows = [
        ("const A = 1;", "const A =  1 ;", true),
        ("const A = 1;", "const A = 2;", false),
        ("const A = 1;", "const A = 1u;", false),
        ("const A = 1;", "fn f() {} const A = 1;", false),
        ("const A = 1;", "const A = 1; const B = A;", false),
        ("const A = 1 / 0;", "const A = 1 / 0;", true),
        ("const A = 1 / 0;", "const A =  1 / 0;", false),
        ("const A = 1 / 0;", "const A = 1 % 0;", false),
    ];
    for (row, (left, right, wanted)) in rows.into_iter().enumerate() {
        let left = evaluation(&rt, alloc, left);
        assert_compared(&rt, row, left, evaluation(&rt, alloc, right), wanted);
    }
}

#[test]
fn declarations_are_compared(rt: HostRuntime) {
    let alloc = rt.alloc();
    let rows = [
        ("struct S { a: u32 }", "struct S { a : u32, }", true),
        ("struct S { a: u32 }", "struct S { a: i32 }", false),
        ("struct S { a: u32 }", "struct T { a: u32 }", false),
        ("struct S { a: u32 }", " struct S { a: u32 }", false),
        ("struct S { a: u32 }", "alias  S = u32;", false),
        ("alias A = u32;", "const A = 1u;", false),
        ("var<private> v: u32;", "var<private> v : u32;", true),
        ("var<private> v: u32;", "var<uniform> v: u32;", false),
        ("const A = 1 / 0;", "const A = 1 % 0;", false),
    ];
    for (row, (left, right, wanted)) in rows.into_iter().enumerate() {
        let left = declarations(&rt, alloc, left);
        assert_compared(&rt, row, left, declarations(&rt, alloc, right), wanted);
    }
}

#[test]
fn what_is_asked_is_compared(rt: HostRuntime) {
    let alloc = rt.alloc();
    let (one, same, two) = (
        made(&rt, alloc, i(1)),
        made(&rt, alloc, i(1)),
        made(&rt, alloc, i(2)),
    );
    let values = made_all(&rt, alloc, &[i(1)]);
    let unary = Asked::Unary(Negation, &one);
    let rows = [
        (unary, Asked::Unary(Negation, &same), true),
        (unary, Asked::Unary(Negation, &two), false),
        (unary, Asked::Unary(LogicalNegation, &one), false),
        (unary, Asked::Binary(Addition, &one, &one), false),
        (
            Asked::Binary(Addition, &one, &two),
            Asked::Binary(Addition, &same, &two),
            true,
        ),
        (
            Asked::Function("abs", &values),
            Asked::Function("abs", &values),
            true,
        ),
        (
            Asked::Function("abs", &values),
            Asked::Function("sign", &values),
            false,
        ),
        (
            Asked::Function("abs", &values),
            Asked::Function("abs", &[]),
            false,
        ),
    ];
    for (row, (left, right, wanted)) in rows.into_iter().enumerate() {
        assert_eq!(rt; left == right, wanted, "row {row}");
    }
    drop((one, same, two, values));
}
