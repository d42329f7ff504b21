//! What the standard refuses and the library answers, in words; and what both answer.

use crate::tests::answers::{made, made_all};
use std::process::Abort;
use wgsl_apply::against_operator;
use wgsl_functions::{Builtin, against_function};
use wgsl_rules::BinaryOperator::{Addition, GreaterThanEqual, LessThan, ShiftLeft, ShiftRight};
use wgsl_rules::ShaderStage::{self, Const, Exec, Override};
use wgsl_samples::operands::{Sample, b, b2, i, i2, n, u};
use wgsl_scalar::LiteralInstance::U32;

const ORDER: Option<&str> = Some("the standard orders no bools (WGSL: comparison expressions)");

const SHIFT: Option<&str> = Some(
    "the standard shifts by less than the width (WGSL: bit expressions)",
);

const SIGN: Option<&str> = Some("the standard has no sign of u32 (WGSL: sign)");

const COUNT: Option<&str> = Some("the standard takes this as an i32 first (WGSL: bit counts)");

const CLAMP: Option<&str> = Some("the standard refuses low above high (WGSL: clamp)");

const FIELD: Option<&str> = Some(
    "the standard refuses offset + count past 32 (WGSL: extractBits; insertBits)",
);

/// Asserts that the standard says this, or nothing where there is no text.
fn assert_said(rt: &impl Abort, row: usize, said: Option<&'static str>, wanted: Option<&str>) {
    assert_eq!(rt; said.unwrap_or(""), wanted.unwrap_or(""), "row {row}");
}

#[test]
fn operators_that_the_standard_refuses(rt: HostRuntime) {
    let alloc = rt.alloc();
    let rows = [
        (LessThan, Const, [b(true), b(false)], ORDER),
        (
            GreaterThanEqual,
            Exec,
            [b2(true, false), b2(true, true)],
            ORDER,
        ),
        (LessThan, Const, [i(1), i(2)], None),
        (ShiftLeft, Const, [u(1), u(32)], SHIFT),
        (
            ShiftLeft,
            Override,
            [i2(1, 2), Sample::Two([U32(31), U32(32)])],
            SHIFT,
        ),
        (ShiftLeft, Exec, [u(1), u(32)], None),
        (ShiftLeft, Const, [u(1), u(31)], None),
        (ShiftRight, Const, [u(1), u(32)], None),
        (Addition, Const, [b(true), b(false)], None),
    ];
    for (row, (operator, stage, [left, right], wanted)) in rows.into_iter().enumerate() {
        let (left, right) = (made(&rt, alloc, left), made(&rt, alloc, right));
        assert_said(
            &rt,
            row,
            against_operator(operator, stage, &left, &right),
            wanted,
        );
        drop((left, right));
    }
}

#[test]
fn functions_that_the_standard_refuses(rt: HostRuntime) {
    let alloc = rt.alloc();
    let rows: [(&str, ShaderStage, &[Sample], Option<&str>); 9] = [
        ("sign", Exec, &[u(2)], SIGN),
        ("sign", Const, &[i(2)], None),
        ("countOneBits", Const, &[n(7)], COUNT),
        ("clamp", Const, &[i(1), i(3), i(2)], CLAMP),
        ("clamp", Exec, &[i(1), i(3), i(2)], None),
        ("clamp", Override, &[i2(1, 1), i2(0, 3), i2(2, 2)], CLAMP),
        ("extractBits", Const, &[u(1), u(30), u(3)], FIELD),
        ("insertBits", Const, &[u(1), u(1), u(31), u(1)], None),
        ("insertBits", Const, &[u(1), u(1), u(32), u(1)], FIELD),
    ];
    for (row, (name, stage, samples, wanted)) in rows.into_iter().enumerate() {
        let function = Builtin::named(name).expect(&rt, "a function");
        let values = made_all(&rt, alloc, samples);
        assert_said(&rt, row, against_function(function, stage, &values), wanted);
        drop(values);
    }
}
