//! Every call on literals.

use crate::tests::asserts::{assert_gives, assert_same, assert_that};
use crate::tests::samples::vector;
use wgsl_rules::BinaryOperator::Addition;
use wgsl_rules::ShaderStage::{Const, Exec};
use wgsl_rules::Type;
use wgsl_scalar::LiteralInstance::{AbstractInt, Bool, I32, I64, U32, U64};
use wgsl_scalar::{Error, LiteralInstance};

#[test]
fn operators(rt: HostRuntime) {
    let ty = vector(&rt, rt.alloc(), 2, Type::U32);
    let (a, b, yes) = (U32(12), U32(10), Bool(true));
    assert_gives(&rt, yes.op_not(), Bool(false));
    assert_gives(&rt, I32(5).op_neg(), I32(-5));
    assert_gives(&rt, yes.op_or(&Bool(false)), Bool(true));
    assert_gives(&rt, yes.op_and(&Bool(false)), Bool(false));
    assert_gives(&rt, a.op_add(&b, Const), U32(22));
    assert_gives(&rt, a.op_sub(&b, Const), U32(2));
    assert_gives(&rt, a.op_mul(&b, Const), U32(120));
    assert_gives(&rt, a.op_div(&b, Const), U32(1));
    assert_gives(&rt, a.op_rem(&b, Const), U32(2));
    assert_gives(&rt, a.op_bitnot(), U32(4294967283));
    assert_gives(&rt, a.op_bitor(&b), U32(14));
    assert_gives(&rt, a.op_bitand(&b), U32(8));
    assert_gives(&rt, a.op_bitxor(&b), U32(6));
    assert_gives(&rt, a.op_shl(&U32(2), Const), U32(48));
    assert_gives(&rt, a.op_shr(&U32(2), Exec), U32(3));
    drop(ty);
}

#[test]
fn comparisons_and_refusals(rt: HostRuntime) {
    let ty = vector(&rt, rt.alloc(), 2, Type::U32);
    let (a, b) = (U32(12), U32(10));
    assert_gives(&rt, a.op_eq(&b), false);
    assert_gives(&rt, a.op_ne(&b), true);
    assert_gives(&rt, a.op_lt(&b), false);
    assert_gives(&rt, a.op_le(&b), false);
    assert_gives(&rt, a.op_gt(&b), true);
    assert_gives(&rt, a.op_ge(&b), true);
    let refusal = Error::Binary(Addition, Type::Bool, Type::U32);
    assert_same(&rt, Bool(true).op_add(&a, Const), Err(refusal));
    assert_same(&rt, a.op_div(&U32(0), Const), Err(Error::DivByZero));
    drop(ty);
}

#[test]
fn counts_and_fields(rt: HostRuntime) {
    let ty = vector(&rt, rt.alloc(), 2, Type::U32);
    let (a, b) = (U32(12), U32(10));
    assert_gives(&rt, I32(-5).abs(), I32(5));
    assert_gives(&rt, I32(-5).sign(), I32(-1));
    assert_gives(&rt, a.min(&b), U32(10));
    assert_gives(&rt, a.max(&b), U32(12));
    assert_gives(&rt, a.count_leading_zeros(), U32(28));
    assert_gives(&rt, a.count_one_bits(), U32(2));
    assert_gives(&rt, a.count_trailing_zeros(), U32(2));
    assert_gives(&rt, a.extract_bits(1, 3), U32(6));
    assert_gives(&rt, a.insert_bits(&U32(1), 0, 2), U32(13));
    assert_gives(&rt, a.first_leading_bit(), U32(3));
    assert_gives(&rt, a.first_trailing_bit(), U32(2));
    assert_gives(&rt, U32(1).reverse_bits(), U32(2147483648));
    drop(ty);
}

#[test]
fn kinds_and_payloads(rt: HostRuntime) {
    let ty = vector(&rt, rt.alloc(), 2, Type::U32);
    let word = Type::U32;
    assert_same(&rt, AbstractInt(5).to_kind(&word), Some(U32(5)));
    assert_same(&rt, AbstractInt(-5).to_kind(&word), None);
    assert_same(&rt, U32(5).to_kind(&ty), None);
    assert_same(&rt, I64(5).literal_ty(), Type::I64);
    assert_that(&rt, U64(5).is_finite());
    assert_that(&rt, !U64(5).is_infinite());
    assert_same(&rt, LiteralInstance::from(true), Bool(true));
    assert_same(&rt, LiteralInstance::from(5i64), AbstractInt(5));
    assert_same(&rt, LiteralInstance::from(5i32), I32(5));
    assert_same(&rt, LiteralInstance::from(5u32), U32(5));
    assert_that(&rt, Bool(true).unwrap_bool());
    assert_same(&rt, AbstractInt(5).unwrap_abstract_int(), 5);
    assert_same(&rt, I32(5).unwrap_i32(), 5);
    assert_same(&rt, U32(5).unwrap_u32(), 5);
    assert_same(&rt, I64(5).unwrap_i64(), 5);
    assert_same(&rt, U64(5).unwrap_u64(), 5);
    let error = Error::NotIndexable(ty);
    assert_same(&rt, error.number(), 9);
    drop((word, error));
}
