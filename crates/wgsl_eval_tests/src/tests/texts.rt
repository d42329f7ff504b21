//! Refusals in words: each case, and the call that was refused behind a colon.

use crate::tests::answers::{made, text};
use std::alloc::Global;
use std::process::Abort;
use wgsl_apply::{Asked, refusal_text};
use wgsl_rules::BinaryOperator::{Addition, Division, Remainder, ShiftRight};
use wgsl_rules::UnaryOperator::{LogicalNegation, Negation};
use wgsl_rules::{BinaryOperator, Type};
use wgsl_samples::operands::{Sample, i, i2, u};
use wgsl_scalar::LiteralInstance::{AbstractInt, U32};
use wgsl_scalar::{BuiltinName, BuiltinReason, Error};

/// Asserts what the refusal is told as.
fn assert_told(rt: &impl Abort, alloc: Global, error: Error, asked: Asked<'_>, wanted: &str) {
    let told = refusal_text(alloc, &error, asked).expect(rt, "memory");
    drop(error);
    assert_eq!(rt; told.as_str(), wanted);
}

#[test]
fn refusals_without_types(rt: HostRuntime) {
    let alloc = rt.alloc();
    let rows = [
        (Error::Memory, "memory is wanting"),
        (Error::NotRead, "the reference may not be read"),
        (Error::NotWrite, "the reference may not be written"),
        (
            Error::NotReadWrite,
            "the reference may not be read and written",
        ),
        (Error::PtrHandle, "no pointer into the handle address space"),
        (Error::PtrVecComp, "no pointer to a component of a vector"),
        (Error::AddOverflow, "the sum is out of range"),
        (Error::SubOverflow, "the difference is out of range"),
        (Error::MulOverflow, "the product is out of range"),
        (Error::DivByZero, "division by zero"),
        (Error::RemZeroDiv, "division by zero"),
        (
            Error::ShlOverflow(40, AbstractInt(1)),
            "bits are shifted out",
        ),
        (Error::ShrOverflow(40, U32(1)), "1u has no 40 bits"),
        (Error::Builtin(BuiltinReason::NotBool), "a bool is expected"),
        (
            Error::Todo(BuiltinName::ReverseBits),
            "reverseBits has no meaning yet",
        ),
    ];
    for (error, wanted) in rows {
        assert_told(&rt, alloc, error, Asked::Part, wanted);
    }
}

#[test]
fn refusals_with_types(rt: HostRuntime) {
    let alloc = rt.alloc();
    let name = text(&rt, alloc, "w");
    let rows = [
        (Error::Component(Type::I32, name), "i32 has no member w"),
        (Error::NotIndexable(Type::Bool), "bool has no elements"),
        (
            Error::OutOfBounds(3, Type::U32, 2),
            "no element 3 in u32, which has 2",
        ),
        (
            Error::WriteRefType(Type::I32, Type::U32),
            "i32 written where u32 belongs",
        ),
        (
            Error::ConvOverflow(AbstractInt(-1), Type::U32),
            "-1 is no u32",
        ),
        (
            Error::Unary(LogicalNegation, Type::I32),
            "no operator ! for i32",
        ),
        (
            Error::Binary(Addition, Type::I32, Type::U32),
            "no operator + for i32 and u32",
        ),
        (
            Error::Binary(Addition, Type::U32, Type::AbstractInt),
            "an operand of + is no u32",
        ),
        (
            Error::CompwiseBinary(Type::I32, Type::U32),
            "i32 and u32 have unequal sizes",
        ),
        (
            Error::ParamType(Type::I32, Type::U32),
            "u32 where i32 belongs",
        ),
    ];
    for (error, wanted) in rows {
        assert_told(&rt, alloc, error, Asked::Part, wanted);
    }
}

/// Asserts what the refusal of an operator between two values is told as.
fn assert_told_between(
    rt: &impl Abort,
    alloc: Global,
    error: Error,
    operator: BinaryOperator,
    operands: [Sample; 2],
    wanted: &str,
) {
    let [left, right] = operands;
    let (left, right) = (made(rt, alloc, left), made(rt, alloc, right));
    let asked = Asked::Binary(operator, &left, &right);
    assert_told(rt, alloc, error, asked, wanted);
    drop((left, right));
}

#[test]
fn refused_calls_stand_behind_a_colon(rt: HostRuntime) {
    let alloc = rt.alloc();
    let rows = [
        (
            Error::DivByZero,
            Division,
            [i(7), i(0)],
            "division by zero: 7i / 0i",
        ),
        (
            Error::DivByZero,
            Division,
            [i2(7, 8), i2(1, 0)],
            "division by zero: vec2(7i, 8i) / vec2(1i, 0i)",
        ),
        (
            Error::RemZeroDiv,
            Remainder,
            [i(-2147483648), i(-1)],
            "the quotient is out of range: -2147483648i % -1i",
        ),
        (
            Error::ShrOverflow(32, U32(1)),
            ShiftRight,
            [u(1), u(32)],
            "1u has no 32 bits: 1u >> 32u",
        ),
        (
            Error::Binary(Addition, Type::I32, Type::U32),
            Addition,
            [Sample::Matrix, u(2)],
            "no operator + for i32 and u32",
        ),
    ];
    for (error, operator, operands, wanted) in rows {
        assert_told_between(&rt, alloc, error, operator, operands, wanted);
    }
    let operand = made(&rt, alloc, u(1));
    let asked = Asked::Unary(Negation, &operand);
    let error = Error::Unary(Negation, Type::U32);
    assert_told(&rt, alloc, error, asked, "no operator - for u32: -1u");
    drop(operand);
}

#[test]
fn calls_of_functions_stand_behind_a_colon(rt: HostRuntime) {
    let alloc = rt.alloc();
    let (first, second) = (made(&rt, alloc, i(1)), made(&rt, alloc, Sample::Matrix));
    let values = vec![in alloc; first, second].expect(&rt, "memory");
    let asked = Asked::Function("min", &values);
    let error = Error::Builtin(BuiltinReason::NotNumber);
    assert_told(
        &rt,
        alloc,
        error,
        asked,
        "a number is expected: min(1i, ..)",
    );
    drop(values);
}
