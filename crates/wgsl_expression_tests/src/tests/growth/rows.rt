//! Operators on literals and vectors, in each stage where stages differ: what each two sorts of them give.

use crate::tests::answers::{assert_answer, joined, joined_by_function, turned};
use crate::tests::rows::{parted, sample, stage, two_samples};
use std::alloc::Global;
use std::process::Abort;
use wgsl_rules::BinaryOperator::{
    Addition, BitwiseAnd, BitwiseOr, BitwiseXor, Division, Equality, GreaterThan, GreaterThanEqual,
    Inequality, LessThan, LessThanEqual, Multiplication, Remainder, ShiftLeft, ShiftRight,
    ShortCircuitAnd, ShortCircuitOr, Subtraction,
};
use wgsl_rules::UnaryOperator::{BitwiseComplement, LogicalNegation, Negation};
use wgsl_rules::{BinaryOperator, UnaryOperator};

/// Asserts each row: `stage left; right -> wanted`.
fn assert_rows(rt: &impl Abort, alloc: Global, operator: BinaryOperator, rows: &str) {
    for (row, line) in rows.lines().enumerate() {
        let (operands, wanted) = parted(rt, line, " -> ");
        let (name, operands) = parted(rt, operands, " ");
        let (left, right) = two_samples(rt, operands);
        let answer = joined(rt, alloc, operator, stage(rt, name), left, right);
        assert_answer(rt, alloc, row, answer, wanted);
    }
}

/// Asserts each row of the function of the operator: `left; right -> wanted`.
fn assert_rows_of_function(rt: &impl Abort, alloc: Global, operator: BinaryOperator, rows: &str) {
    for (row, line) in rows.lines().enumerate() {
        let (operands, wanted) = parted(rt, line, " -> ");
        let (left, right) = two_samples(rt, operands);
        let answer = joined_by_function(rt, alloc, operator, left, right);
        assert_answer(rt, alloc, row, answer, wanted);
    }
}

/// Asserts each row: `value -> wanted`.
fn assert_rows_of_one(rt: &impl Abort, alloc: Global, operator: UnaryOperator, rows: &str) {
    for (row, line) in rows.lines().enumerate() {
        let (value, wanted) = parted(rt, line, " -> ");
        let answer = turned(rt, alloc, operator, sample(rt, value));
        assert_answer(rt, alloc, row, answer, wanted);
    }
}

#[test]
fn sums_and_differences(rt: HostRuntime) {
    let alloc = rt.alloc();
    let rows = "\
        Const 2i; 3i -> 5i
        Const vec2(1i, 2i); vec2(3i, 4i) -> vec2(4i, 6i)
        Const vec2(1i, 2i); 3i -> vec2(4i, 5i)
        Const 3i; vec2(1i, 2i) -> vec2(4i, 5i)
        Override vec2(1, 2); 3u -> vec2(4u, 5u)
        Exec 3; vec2(1u, 2u) -> vec2(4u, 5u)
        Exec vec2(1, 2); vec2(3u, 4u) -> vec2(4u, 6u)
        Const vec2(2147483647i, 0i); 1i -> vec2(-2147483648i, 1i)";
    assert_rows(&rt, alloc, Addition, rows);
    // unequal counts, kinds without a common type, numbers out of range
    let rows = "\
        Const vec2(1u, 2u); vec3(1u, 2u, 3u) -> Binary + vec2<u32>, vec3<u32>
        Const vec2(1u, 2u); vec2(1i, 2i) -> Binary + vec2<u32>, vec2<i32>
        Const vec2(1i, 2i); 2u -> Binary + vec2<i32>, u32
        Const 2u; vec2(1i, 2i) -> Binary + vec2<i32>, u32
        Const vec2(1, 4294967295); vec2(3i, 4i) -> Binary + vec2<AbstractInt>, vec2<i32>
        Const vec2(3i, 4i); 4294967295 -> Binary + vec2<i32>, AbstractInt
        Const vec2(true, false); vec2(true, true) -> Binary + bool, bool
        Const vec2(true, false); true -> Binary + bool, bool
        Exec vec2(9223372036854775807, 1); vec2(1, 1) -> AddOverflow";
    assert_rows(&rt, alloc, Addition, rows);
    let rows = "\
        Const 3i; vec2(1i, 5i) -> vec2(2i, -2i)
        Const vec2(1i, 5i); 3i -> vec2(-2i, 2i)
        Const vec2(0u, 1u); vec2(1u, 1u) -> vec2(4294967295u, 0u)
        Const 2u; vec2(1i, 2i) -> Binary - u32, vec2<i32>
        Const vec2(1i, 2i); 2u -> Binary - vec2<i32>, u32
        Override vec2(-9223372036854775808, 0); 1 -> SubOverflow";
    assert_rows(&rt, alloc, Subtraction, rows);
}

#[test]
fn products(rt: HostRuntime) {
    let rows = "\
        Const vec2(1i, -5i); vec2(2i, 3i) -> vec2(2i, -15i)
        Const 3i; vec2(1i, -5i) -> vec2(3i, -15i)
        Const vec2(1i, -5i); 3i -> vec2(3i, -15i)
        Const 2u; vec2(1i, 2i) -> Binary * vec2<i32>, u32
        Const vec2(1i, 2i); 2u -> Binary * vec2<i32>, u32
        Exec vec2(9223372036854775807, 1); 2 -> MulOverflow
        Exec vec2(4294967295u, 3u); 2u -> vec2(4294967294u, 6u)";
    assert_rows(&rt, rt.alloc(), Multiplication, rows);
}

#[test]
fn quotients(rt: HostRuntime) {
    let alloc = rt.alloc();
    let rows = "\
        Const vec2(7i, -7i); 2i -> vec2(3i, -3i)
        Const vec2(7, 7); 2i -> vec2(3i, 3i)
        Exec vec2(7, 7); 0i -> vec2(7i, 7i)
        Const vec2(7, 7); 0i -> DivByZero
        Override vec2(7, 7); 0i -> DivByZero
        Const 7i; vec2(2i, 0i) -> DivByZero
        Exec 7i; vec2(2i, 0i) -> vec2(3i, 7i)
        Exec vec2(7, 8); vec2(2i, 0i) -> vec2(3i, 8i)
        Const vec2(-2147483648i, 6i); vec2(-1i, 4i) -> DivByZero
        Override vec2(-2147483648i, 6i); vec2(-1i, 4i) -> DivByZero
        Exec vec2(-2147483648i, 6i); vec2(-1i, 4i) -> vec2(-2147483648i, 1i)
        Const vec2(-9223372036854775808li, 1li); -1li -> vec2(-9223372036854775808li, -1li)";
    assert_rows(&rt, alloc, Division, rows);
    // a component by itself and the scalar: a refusal names scalar types
    let rows = "\
        Exec vec2(7i, 8i); 2u -> Binary / i32, u32
        Exec 2u; vec2(7i, 8i) -> Binary / u32, i32
        Exec vec2(7, 4294967295); 2i -> Binary / AbstractInt, i32
        Exec vec2(7i, 8i); vec2(2u, 2u) -> Binary / vec2<i32>, vec2<u32>
        Exec vec2(true, true); true -> Binary / bool, bool";
    assert_rows(&rt, alloc, Division, rows);
}

#[test]
fn remainders(rt: HostRuntime) {
    let rows = "\
        Const vec2(7i, -7i); 2i -> vec2(1i, -1i)
        Const vec2(7, 8); vec2(2, 3) -> vec2(1, 2)
        Const vec2(7i, 8i); 0i -> RemZeroDiv
        Override vec2(7i, 8i); 0i -> vec2(0i, 0i)
        Exec vec2(7i, 8i); 0i -> vec2(0i, 0i)
        Const 7i; vec2(4i, 0i) -> RemZeroDiv
        Override 7i; vec2(4i, 0i) -> vec2(3i, 0i)
        Const vec2(7i, 8i); 2u -> Binary % i32, u32
        Const 2u; vec2(7i, 8i) -> Binary % u32, i32
        Const vec2(7i, 8i); vec3(1i, 2i, 3i) -> Binary % vec2<i32>, vec3<i32>";
    assert_rows(&rt, rt.alloc(), Remainder, rows);
}

#[test]
fn comparisons(rt: HostRuntime) {
    let alloc = rt.alloc();
    let rows = "\
        Const vec2(1u, 2u); vec2(1u, 3u) -> vec2(true, false)
        Const vec2(1, 2); vec2(1u, 3u) -> vec2(true, false)
        Const vec2(1u, 2u); vec2(1i, 2i) -> Binary == vec2<u32>, vec2<i32>
        Const vec2(1u, 2u); 2u -> Binary == vec2<u32>, u32
        Const 2u; vec2(1u, 2u) -> Binary == u32, vec2<u32>";
    assert_rows(&rt, alloc, Equality, rows);
    let rows = "\
        Const vec2(1u, 2u); vec2(1u, 3u) -> vec2(false, true)
        Const vec2(1u, 2u); vec3(1u, 2u, 3u) -> Binary != vec2<u32>, vec3<u32>
        Const vec2(1u, 2u); 2u -> Binary != vec2<u32>, u32
        Const 2u; vec2(1u, 2u) -> Binary != u32, vec2<u32>";
    assert_rows(&rt, alloc, Inequality, rows);
    let rows = "\
        Const vec2(1u, 2u); vec2(2u, 2u) -> vec2(true, false)
        Const vec2(false, true); vec2(true, true) -> vec2(true, false)
        Const 1i; 2 -> true
        Const false; true -> true
        Const vec2(1u, 2u); 2u -> Binary < vec2<u32>, u32
        Const 2u; vec2(1u, 2u) -> Binary < u32, vec2<u32>";
    assert_rows(&rt, alloc, LessThan, rows);
    let rows = "\
        Const vec2(1u, 3u); vec2(1u, 2u) -> vec2(true, false)
        Const vec2(1u, 2u); 2u -> Binary <= vec2<u32>, u32
        Const 2u; vec2(1u, 2u) -> Binary <= u32, vec2<u32>";
    assert_rows(&rt, alloc, LessThanEqual, rows);
    let rows = "\
        Const vec2(1u, 3u); vec2(1u, 2u) -> vec2(false, true)
        Const 2u; vec2(1u, 2u) -> Binary > u32, vec2<u32>
        Const vec2(1u, 2u); 2u -> Binary > vec2<u32>, u32";
    assert_rows(&rt, alloc, GreaterThan, rows);
    let rows = "\
        Const vec2(1u, 1u); vec2(1u, 2u) -> vec2(true, false)
        Const false; true -> false
        Const 2u; vec2(1u, 2u) -> Binary >= u32, vec2<u32>
        Const vec2(1u, 2u); 2u -> Binary >= vec2<u32>, u32";
    assert_rows(&rt, alloc, GreaterThanEqual, rows);
}

#[test]
fn bits(rt: HostRuntime) {
    let alloc = rt.alloc();
    let rows = "\
        Const vec2(12i, 10i); vec2(10i, 5i) -> vec2(14i, 15i)
        Const vec2(true, false); vec2(false, false) -> vec2(true, false)
        Const 12u; 10u -> 14u";
    assert_rows(&rt, alloc, BitwiseOr, rows);
    let rows = "\
        Const vec2(12i, 10i); vec2(10i, 5i) -> vec2(8i, 0i)
        Const vec2(true, false); vec2(false, false) -> vec2(false, false)";
    assert_rows(&rt, alloc, BitwiseAnd, rows);
    let rows = "\
        Const vec2(12i, 10i); vec2(10i, 5i) -> vec2(6i, 15i)
        Const vec2(true, false); vec2(false, false) -> Binary ^ bool, bool
        Const vec2(1, 2); vec2(3i, 4i) -> vec2(2i, 6i)";
    assert_rows(&rt, alloc, BitwiseXor, rows);
    // each component by itself: a refusal names scalar types
    let rows = "\
        Const vec2(1i, 2i); vec2(3u, 4u) -> Binary | i32, u32
        Const vec2(1u, 2u); vec3(1u, 2u, 3u) -> CompwiseBinary vec2<u32>, vec3<u32>
        Const vec2(1u, 2u); 1u -> Binary | vec2<u32>, u32
        Const 1u; vec2(1u, 2u) -> Binary | u32, vec2<u32>";
    assert_rows(&rt, alloc, BitwiseOr, rows);
    let rows = "\
        Const vec2(1, 4294967295); vec2(3i, 4i) -> Binary & AbstractInt, i32
        Const vec3(1u, 2u, 3u); vec2(1i, 2i) -> CompwiseBinary vec3<u32>, vec2<i32>
        Const vec2(1u, 2u); 1u -> Binary & vec2<u32>, u32
        Const 1u; vec2(1u, 2u) -> Binary & u32, vec2<u32>";
    assert_rows(&rt, alloc, BitwiseAnd, rows);
    let rows = "\
        Const vec2(1u, 2u); vec3(1u, 2u, 3u) -> CompwiseBinary vec2<u32>, vec3<u32>
        Const vec2(1u, 2u); 1u -> Binary ^ vec2<u32>, u32
        Const 1u; vec2(1u, 2u) -> Binary ^ u32, vec2<u32>";
    assert_rows(&rt, alloc, BitwiseXor, rows);
}

#[test]
fn shifts(rt: HostRuntime) {
    let alloc = rt.alloc();
    let rows = "\
        Const vec2(1i, -1i); vec2(1u, 31u) -> vec2(2i, -2147483648i)
        Const vec2(1i, 2i); vec2(0u, 31u) -> ShlOverflow 31, 2i
        Override vec2(1i, 2i); vec2(0u, 31u) -> ShlOverflow 31, 2i
        Exec vec2(1i, 2i); vec2(0u, 31u) -> vec2(1i, 0i)
        Const vec2(1, 1); vec2(3, 64) -> vec2(8, 0)
        Const vec2(1i, 2i); vec2(1i, 1i) -> Binary << i32, i32
        Const vec2(1u, 2u); vec3(1u, 2u, 3u) -> CompwiseBinary vec2<u32>, vec3<u32>
        Const vec2(1u, 2u); 1u -> Binary << vec2<u32>, u32
        Const 1u; vec2(1u, 2u) -> Binary << u32, vec2<u32>
        Const true; 0u -> Binary << bool, u32";
    assert_rows(&rt, alloc, ShiftLeft, rows);
    let rows = "\
        Const vec2(8u, 8u); vec2(1u, 32u) -> ShrOverflow 32, 8u
        Override vec2(8u, 8u); vec2(1u, 32u) -> ShrOverflow 32, 8u
        Exec vec2(8u, 8u); vec2(1u, 32u) -> vec2(4u, 8u)
        Const vec2(-1i, -8i); vec2(31u, 1u) -> vec2(-1i, -4i)
        Const vec3(1u, 2u, 3u); vec2(1u, 2u) -> CompwiseBinary vec3<u32>, vec2<u32>
        Const vec2(1u, 2u); 1u -> Binary >> vec2<u32>, u32
        Const 1u; vec2(1u, 2u) -> Binary >> u32, vec2<u32>";
    assert_rows(&rt, alloc, ShiftRight, rows);
}

#[test]
fn truths(rt: HostRuntime) {
    let alloc = rt.alloc();
    let rows = "\
        Exec true; false -> true
        Exec false; false -> false
        Exec 1i; 1i -> Binary || i32, i32
        Exec vec2(true, true); vec2(true, true) -> Binary || vec2<bool>, vec2<bool>
        Exec true; vec2(true, true) -> Binary || bool, vec2<bool>
        Exec vec2(true, true); true -> Binary || vec2<bool>, bool";
    assert_rows(&rt, alloc, ShortCircuitOr, rows);
    let rows = "\
        Exec true; false -> false
        Exec true; true -> true
        Exec true; 1u -> Binary && bool, u32
        Exec vec2(true, true); vec2(true, true) -> Binary && vec2<bool>, vec2<bool>
        Exec true; vec2(true, true) -> Binary && bool, vec2<bool>
        Exec vec2(true, true); true -> Binary && vec2<bool>, bool";
    assert_rows(&rt, alloc, ShortCircuitAnd, rows);
}

#[test]
fn truths_by_functions(rt: HostRuntime) {
    let alloc = rt.alloc();
    let rows = "\
        true; false -> true
        false; true -> true
        false; false -> false
        true; 1i -> Binary || bool, i32
        vec2(true, true); true -> Binary || vec2<bool>, bool";
    assert_rows_of_function(&rt, alloc, ShortCircuitOr, rows);
    let rows = "\
        true; false -> false
        false; true -> false
        true; true -> true
        1; true -> Binary && AbstractInt, bool
        true; vec2(true, true) -> Binary && bool, vec2<bool>";
    assert_rows_of_function(&rt, alloc, ShortCircuitAnd, rows);
}

#[test]
fn one_operand(rt: HostRuntime) {
    let alloc = rt.alloc();
    let rows = "\
        true -> false
        vec2(true, false) -> vec2(false, true)
        1i -> Unary ! i32
        vec2(1i, 2i) -> Unary ! i32";
    assert_rows_of_one(&rt, alloc, LogicalNegation, rows);
    let rows = "\
        5i -> -5i
        vec2(1i, -2147483648i) -> vec2(-1i, -2147483648i)
        vec2(1u, 2u) -> Unary - u32
        true -> Unary - bool";
    assert_rows_of_one(&rt, alloc, Negation, rows);
    let rows = "\
        vec2(0u, 4294967295u) -> vec2(4294967295u, 0u)
        0i -> -1i
        vec2(true, false) -> Unary ~ bool";
    assert_rows_of_one(&rt, alloc, BitwiseComplement, rows);
}
