//! A vector with a scalar, a scalar with a vector, and the dot product.

ghost use Rattle.wgsl_rules.specs.Values.{IsStorable};
ghost use Rattle.wgsl_values.specs.View.{vec_view};

use crate::tests::answers::{answer_of_one, answer_of_two, assert_answer};
use crate::tests::made::made_vector;
use crate::tests::rows::{parted, sample, stage, two_samples};
use std::alloc::Global;
use std::process::Abort;
use wgsl_rules::BinaryOperator::{
    Addition, BitwiseAnd, BitwiseOr, BitwiseXor, Division, Equality, GreaterThan, GreaterThanEqual,
    Inequality, LessThan, LessThanEqual, Multiplication, Remainder, ShiftLeft, ShiftRight,
    Subtraction,
};
use wgsl_rules::ShaderStage::Const;
use wgsl_rules::UnaryOperator::{BitwiseComplement, LogicalNegation, Negation};
use wgsl_rules::{BinaryOperator, ShaderStage, UnaryOperator};
use wgsl_samples::operands::{Sample, i2};
use wgsl_scalar::{Error, LiteralInstance};
use wgsl_value_ops::{ScalarOperators, VecOperators};
use wgsl_values::VecInstance;

/// What the operator gives for the vector and the scalar.
fn with_scalar(
    rt: &impl Abort,
    alloc: Global,
    operator: BinaryOperator,
    stage: ShaderStage,
    vector: &VecInstance,
    scalar: &LiteralInstance,
) -> Result<VecInstance, Error>
    requires { IsStorable (vec_view vector.now) }
{
    match operator {
        Addition => vector.op_add_sca(alloc, scalar, stage),
        Subtraction => vector.op_sub_sca(alloc, scalar, stage),
        Multiplication => vector.op_mul_sca(alloc, scalar, stage),
        Division => vector.op_div_sca(alloc, scalar, stage),
        Remainder => vector.op_rem_sca(alloc, scalar, stage),
        _ => panic!(rt; "{operator} takes no scalar"),
    }
}

/// What the operator gives for the scalar and the vector.
fn with_vector(
    rt: &impl Abort,
    alloc: Global,
    operator: BinaryOperator,
    stage: ShaderStage,
    scalar: &LiteralInstance,
    vector: &VecInstance,
) -> Result<VecInstance, Error>
    requires { IsStorable (vec_view vector.now) }
{
    match operator {
        Addition => scalar.op_add_vec(alloc, vector, stage),
        Subtraction => scalar.op_sub_vec(alloc, vector, stage),
        Multiplication => scalar.op_mul_vec(alloc, vector, stage),
        Division => scalar.op_div_vec(alloc, vector, stage),
        Remainder => scalar.op_rem_vec(alloc, vector, stage),
        _ => panic!(rt; "{operator} takes no vector"),
    }
}

/// The scalar of the text.
fn scalar_of(rt: &impl Abort, text: &str) -> LiteralInstance {
    match sample(rt, text) {
        Sample::One(literal) => literal,
        _ => panic!(rt; "{text} is no scalar"),
    }
}

/// What the operator gives for `stage vector; scalar`.
fn answer_with_scalar(
    rt: &impl Abort,
    alloc: Global,
    operator: BinaryOperator,
    call: &str,
) -> Result<VecInstance, Error> {
    let (name, operands) = parted(rt, call, " ");
    let (vector, scalar) = parted(rt, operands, "; ");
    let (stage, scalar) = (stage(rt, name), scalar_of(rt, scalar));
    let vector = made_vector(rt, alloc, sample(rt, vector));
    let answer = answered!(with_scalar(rt, alloc, operator, stage, &vector, &scalar));
    drop(vector);
    answer
}

/// Asserts each row: `stage vector; scalar -> wanted`.
fn assert_with_scalar(rt: &impl Abort, alloc: Global, operator: BinaryOperator, rows: &str) {
    for (row, line) in rows.lines().enumerate() {
        let (call, wanted) = parted(rt, line, " -> ");
        let answer = answer_with_scalar(rt, alloc, operator, call);
        assert_answer(rt, alloc, row, answer, wanted);
    }
}

#[test]
fn a_vector_and_a_scalar_have_a_common_type_first(rt: HostRuntime) {
    let alloc = rt.alloc();
    let rows = "\
        Const vec2(1, 2); 3u -> vec2(4u, 5u)
        Const vec2(1i, 2i); 3u -> Binary + vec2<i32>, u32
        Const vec2(7i, 8i); 4294967295 -> Binary + vec2<i32>, AbstractInt";
    assert_with_scalar(&rt, alloc, Addition, rows);
    let rows = "\
        Const vec2(1i, 5i); 3i -> vec2(-2i, 2i)
        Const vec2(1i, 5i); 3 -> vec2(-2i, 2i)";
    assert_with_scalar(&rt, alloc, Subtraction, rows);
    let rows = "Const vec2(1u, 5u); 3u -> vec2(3u, 15u)";
    assert_with_scalar(&rt, alloc, Multiplication, rows);
    let rows = "\
        Const vec2(7i, -7i); 2i -> vec2(3i, -3i)
        Exec vec2(7, 8); 0i -> vec2(7i, 8i)
        Override vec2(7i, 8i); 0i -> DivByZero
        Exec vec2(7i, 8i); 2u -> Binary / vec2<i32>, u32";
    assert_with_scalar(&rt, alloc, Division, rows);
    let rows = "\
        Const vec2(7, 8); 3i -> vec2(1i, 2i)
        Const vec2(7i, 8i); 0i -> RemZeroDiv
        Override vec2(7i, 8i); 0i -> vec2(0i, 0i)";
    assert_with_scalar(&rt, alloc, Remainder, rows);
}

/// What the operator gives for `stage scalar; vector`.
fn answer_with_vector(
    rt: &impl Abort,
    alloc: Global,
    operator: BinaryOperator,
    call: &str,
) -> Result<VecInstance, Error> {
    let (name, operands) = parted(rt, call, " ");
    let (scalar, vector) = parted(rt, operands, "; ");
    let (stage, scalar) = (stage(rt, name), scalar_of(rt, scalar));
    let vector = made_vector(rt, alloc, sample(rt, vector));
    let answer = answered!(with_vector(rt, alloc, operator, stage, &scalar, &vector));
    drop(vector);
    answer
}

/// Asserts each row: `stage scalar; vector -> wanted`.
fn assert_with_vector(rt: &impl Abort, alloc: Global, operator: BinaryOperator, rows: &str) {
    for (row, line) in rows.lines().enumerate() {
        let (call, wanted) = parted(rt, line, " -> ");
        let answer = answer_with_vector(rt, alloc, operator, call);
        assert_answer(rt, alloc, row, answer, wanted);
    }
}

#[test]
fn a_scalar_and_a_vector_have_a_common_type_first(rt: HostRuntime) {
    let alloc = rt.alloc();
    let rows = "Const 3u; vec2(1, 2) -> vec2(4u, 5u)";
    assert_with_vector(&rt, alloc, Addition, rows);
    // a sum and a product are those of the vector and the scalar
    let rows = "Const 2u; vec2(1i, 2i) -> Binary + vec2<i32>, u32";
    assert_with_vector(&rt, alloc, Addition, rows);
    let rows = "\
        Const 2u; vec2(1i, 2i) -> Binary * vec2<i32>, u32
        Const 3i; vec2(1, 5) -> vec2(3i, 15i)";
    assert_with_vector(&rt, alloc, Multiplication, rows);
    let rows = "\
        Const 2u; vec2(1i, 2i) -> Binary - u32, vec2<i32>
        Const 3i; vec2(1i, 5i) -> vec2(2i, -2i)";
    assert_with_vector(&rt, alloc, Subtraction, rows);
    let rows = "\
        Const 2u; vec2(1i, 2i) -> Binary / u32, vec2<i32>
        Const 7i; vec2(2i, -2i) -> vec2(3i, -3i)
        Exec 7; vec2(2i, 0i) -> vec2(3i, 7i)";
    assert_with_vector(&rt, alloc, Division, rows);
    let rows = "\
        Const 2u; vec2(1i, 2i) -> Binary % u32, vec2<i32>
        Const 7i; vec2(4i, 5i) -> vec2(3i, 2i)";
    assert_with_vector(&rt, alloc, Remainder, rows);
}

/// The sum of the products of the components of `stage left; right`.
fn dot(rt: &impl Abort, alloc: Global, call: &str) -> Result<LiteralInstance, Error> {
    let (name, operands) = parted(rt, call, " ");
    let (left, right) = two_samples(rt, operands);
    let left = made_vector(rt, alloc, left);
    let right = made_vector(rt, alloc, right);
    let stage = stage(rt, name);
    let answer = answered!(left.dot(alloc, &right, stage));
    drop((left, right));
    answer
}

/// Asserts each row: `stage left; right -> wanted`.
fn assert_dots(rt: &impl Abort, alloc: Global, rows: &str) {
    for (row, line) in rows.lines().enumerate() {
        let (call, wanted) = parted(rt, line, " -> ");
        assert_answer(rt, alloc, row, dot(rt, alloc, call), wanted);
    }
}

#[test]
fn dot_products(rt: HostRuntime) {
    let rows = "\
        Const vec2(3i, 4i); vec2(5i, 6i) -> 39i
        Const vec2(1, 2); vec2(3i, 4i) -> 11i
        Exec vec2(2147483647i, 1i); vec2(2i, 1i) -> -1i
        Const vec3(1u, 2u, 3u); vec3(4u, 5u, 6u) -> 32u
        Const vec2(9223372036854775807, 1); vec2(1, 1) -> AddOverflow
        Const vec2(9223372036854775807, 1); vec2(2, 1) -> MulOverflow
        Const vec2(1u, 2u); vec3(1u, 2u, 3u) -> CompwiseBinary vec2<u32>, vec3<u32>
        Const vec2(1i, 2i); vec2(1u, 2u) -> Binary * i32, u32
        Const vec2(true, true); vec2(true, true) -> Binary * bool, bool";
    assert_dots(&rt, rt.alloc(), rows);
}

/// What the operator gives for the two vectors.
fn joined(
    rt: &impl Abort,
    alloc: Global,
    operator: BinaryOperator,
    left: &VecInstance,
    right: &VecInstance,
) -> Result<VecInstance, Error>
    requires left { IsStorable (vec_view left.now) }
    requires right { IsStorable (vec_view right.now) }
{
    answered!(answer_of_two(rt, alloc, operator, Const, left, right))
}

/// Asserts the text of what the operator gives for two vectors.
fn assert_joined(rt: &impl Abort, alloc: Global, operator: BinaryOperator, wanted: &str) {
    let left = made_vector(rt, alloc, i2(12, 10));
    let right = made_vector(rt, alloc, i2(10, 5));
    let answer = joined(rt, alloc, operator, &left, &right);
    drop((left, right));
    assert_answer(rt, alloc, 0, answer, wanted);
}

#[test]
fn operators_of_two_vectors(rt: HostRuntime) {
    let alloc = rt.alloc();
    assert_joined(&rt, alloc, Addition, "vec2(22i, 15i)");
    assert_joined(&rt, alloc, Subtraction, "vec2(2i, 5i)");
    assert_joined(&rt, alloc, Multiplication, "vec2(120i, 50i)");
    assert_joined(&rt, alloc, Division, "vec2(1i, 2i)");
    assert_joined(&rt, alloc, Remainder, "vec2(2i, 0i)");
    assert_joined(&rt, alloc, Equality, "vec2(false, false)");
    assert_joined(&rt, alloc, Inequality, "vec2(true, true)");
    assert_joined(&rt, alloc, LessThan, "vec2(false, false)");
    assert_joined(&rt, alloc, LessThanEqual, "vec2(false, false)");
    assert_joined(&rt, alloc, GreaterThan, "vec2(true, true)");
    assert_joined(&rt, alloc, GreaterThanEqual, "vec2(true, true)");
    assert_joined(&rt, alloc, BitwiseOr, "vec2(14i, 15i)");
    assert_joined(&rt, alloc, BitwiseAnd, "vec2(8i, 0i)");
    assert_joined(&rt, alloc, BitwiseXor, "vec2(6i, 15i)");
    assert_joined(&rt, alloc, ShiftLeft, "Binary << i32, i32");
    assert_joined(&rt, alloc, ShiftRight, "Binary >> i32, i32");
}

/// Asserts the text of what the operator gives for a vector.
fn assert_turned(rt: &impl Abort, alloc: Global, operator: UnaryOperator, wanted: &str) {
    let vector = made_vector(rt, alloc, i2(12, 10));
    let answer = answered!(answer_of_one(rt, alloc, operator, &vector));
    drop(vector);
    assert_answer(rt, alloc, 0, answer, wanted);
}

#[test]
fn operators_of_one_vector(rt: HostRuntime) {
    let alloc = rt.alloc();
    assert_turned(&rt, alloc, Negation, "vec2(-12i, -10i)");
    assert_turned(&rt, alloc, BitwiseComplement, "vec2(-13i, -11i)");
    assert_turned(&rt, alloc, LogicalNegation, "Unary ! i32");
}
