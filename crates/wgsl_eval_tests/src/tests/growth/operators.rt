//! Operators that a source writes, and their refusals in words.

use crate::tests::answers::{assert_answer, made};
use std::process::Abort;
use wgsl_apply::{Asked, binary, refusal_text, unary};
use wgsl_rules::BinaryOperator::{
    Addition, BitwiseAnd, BitwiseOr, BitwiseXor, Division, Equality, GreaterThan, GreaterThanEqual,
    Inequality, LessThan, LessThanEqual, Multiplication, Remainder, ShiftLeft, ShiftRight,
    ShortCircuitAnd, ShortCircuitOr, Subtraction,
};
use wgsl_rules::UnaryOperator::{
    AddressOf, BitwiseComplement, Indirection, LogicalNegation, Negation,
};
use wgsl_rules::{BinaryOperator, ShaderStage, UnaryOperator};
use wgsl_samples::operands::{Sample, b, b2, i, i2, u, u2, u3};

#[test]
fn operators_before_a_value(rt: HostRuntime) {
    let alloc = rt.alloc();
    let rows: [(UnaryOperator, Sample, &str); 5] = [
        (Negation, i2(1, -2), "vec2(-1i, 2i)"),
        (LogicalNegation, b2(true, false), "vec2(false, true)"),
        (
            BitwiseComplement,
            u2(0, 1),
            "vec2(4294967295u, 4294967294u)",
        ),
        (AddressOf, i2(1, 2), "Unary & vec2<i32>"),
        (Indirection, i2(1, 2), "Unary * vec2<i32>"),
    ];
    for (row, (operator, operand, wanted)) in rows.into_iter().enumerate() {
        let operand = made(&rt, alloc, operand);
        let answer = answered!(unary(alloc, operator, &operand));
        assert_answer(&rt, alloc, row, answer, wanted);
        drop(operand);
    }
}

#[test]
fn operators_between_values(rt: HostRuntime) {
    let alloc = rt.alloc();
    let rows: [(BinaryOperator, Sample, Sample, &str); 19] = [
        (Addition, i2(1, 2), i(3), "vec2(4i, 5i)"),
        (Subtraction, i2(1, 2), i2(3, 5), "vec2(-2i, -3i)"),
        (Multiplication, u2(2, 3), u(4), "vec2(8u, 12u)"),
        (Division, i2(7, -7), i(2), "vec2(3i, -3i)"),
        (Remainder, i2(7, -7), i(2), "vec2(1i, -1i)"),
        (ShiftLeft, u2(1, 2), u2(4, 1), "vec2(16u, 4u)"),
        (ShiftRight, i2(-8, 8), u2(1, 2), "vec2(-4i, 2i)"),
        (Equality, u2(1, 2), u2(1, 3), "vec2(true, false)"),
        (Inequality, u2(1, 2), u2(1, 3), "vec2(false, true)"),
        (LessThan, i2(1, 2), i2(2, 2), "vec2(true, false)"),
        (LessThanEqual, i2(1, 3), i2(2, 2), "vec2(true, false)"),
        (GreaterThan, i2(1, 3), i2(2, 2), "vec2(false, true)"),
        (GreaterThanEqual, i2(2, 1), i2(2, 2), "vec2(true, false)"),
        (BitwiseOr, u2(1, 2), u2(4, 6), "vec2(5u, 6u)"),
        (BitwiseAnd, u2(5, 6), u2(4, 3), "vec2(4u, 2u)"),
        (BitwiseXor, u2(5, 6), u2(4, 3), "vec2(1u, 5u)"),
        (ShortCircuitOr, b(false), b(true), "true"),
        (ShortCircuitAnd, b(true), b(false), "false"),
        (
            Addition,
            u2(1, 2),
            u3(1, 2, 3),
            "Binary + vec2<u32>, vec3<u32>",
        ),
    ];
    for (row, (operator, left, right, wanted)) in rows.into_iter().enumerate() {
        let (left, right) = (made(&rt, alloc, left), made(&rt, alloc, right));
        let answer = answered!(binary(alloc, operator, ShaderStage::Const, &left, &right));
        assert_answer(&rt, alloc, row, answer, wanted);
        drop((left, right));
    }
}

#[test]
fn refusals_in_words(rt: HostRuntime) {
    let alloc = rt.alloc();
    let (left, right) = (made(&rt, alloc, u2(1, 2)), made(&rt, alloc, u3(1, 2, 3)));
    let asked = Asked::Binary(Addition, &left, &right);
    let stage = ShaderStage::Const;
    match answered!(binary(alloc, Addition, stage, &left, &right)) {
        Ok(value) => drop(value),
        Err(error) => {
            let text = again!(&rt; refusal_text(alloc, &error, asked));
            drop(error);
            let wanted =
                "no operator + for vec2<u32> and vec3<u32>: vec2(1u, 2u) + vec3(1u, 2u, 3u)";
            assert_eq!(rt; text.as_str(), wanted);
        }
    }
    drop((left, right));
}
