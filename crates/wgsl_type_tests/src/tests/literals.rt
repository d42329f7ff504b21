//! Literals: conversions and payloads.

use crate::tests::asserts::{assert_is, assert_same, assert_that};
use std::alloc::Global;
use std::process::Abort;
use wgsl_rules::{Ty, Type};
use wgsl_scalar::LiteralInstance;
use wgsl_scalar::LiteralInstance::{AbstractInt, I32, I64, U32, U64};

/// Asserts what the literal is as one of that type.
fn assert_kind(
    rt: &impl Abort,
    literal: LiteralInstance,
    ty: &Type,
    wanted: Option<LiteralInstance>,
) {
    assert_same(rt, (ty, literal.to_kind(ty)), (ty, wanted));
}

#[test]
fn conversions(rt: HostRuntime) {
    let large = AbstractInt(4294967295);
    assert_kind(&rt, large, &Type::U32, Some(U32(4294967295)));
    assert_kind(&rt, large, &Type::I32, None);
    assert_kind(&rt, AbstractInt(1), &Type::I64, None);
    assert_kind(&rt, I64(1), &Type::I64, Some(I64(1)));
    assert_kind(&rt, U32(1), &Type::I32, None);
    assert_same(&rt, I64(7).literal_ty(), Type::I64);
}

#[test]
fn payloads(rt: HostRuntime) {
    assert_that(&rt, LiteralInstance::from(true).unwrap_bool());
    assert_same(&rt, LiteralInstance::from(-4i64).unwrap_abstract_int(), -4);
    assert_same(&rt, LiteralInstance::from(-5i32).unwrap_i32(), -5);
    assert_same(&rt, LiteralInstance::from(6u32).unwrap_u32(), 6);
    assert_same(&rt, I64(-7).unwrap_i64(), -7);
    assert_same(&rt, U64(8).unwrap_u64(), 8);
    assert_that(&rt, I64(7).is_finite());
    assert_that(&rt, !I64(7).is_infinite());
}

// `literal_ty` ensures that the number is one of its kind, which `has_ty` asks for.
fn has_type(literal: LiteralInstance, ty: &Type) -> bool {
    let _own = literal.literal_ty();
    literal.has_ty(ty)
}

/// Asserts the type of the literal, each way to ask for it.
fn assert_type(rt: &impl Abort, alloc: Global, literal: LiteralInstance, ty: &Type) {
    assert_same(rt, (ty, has_type(literal, ty)), (ty, true));
    assert_same(rt, (ty, has_type(literal, &Type::F32)), (ty, false));
    assert_is(rt, ty, literal.literal_ty());
    assert_is(rt, ty, literal.ty(alloc).expect(rt, "memory"));
    assert_is(rt, ty, literal.inner_ty(alloc).expect(rt, "memory"));
}

#[test]
fn types_of_literals(rt: HostRuntime) {
    let alloc = rt.alloc();
    assert_type(&rt, alloc, LiteralInstance::Bool(true), &Type::Bool);
    assert_type(&rt, alloc, AbstractInt(1), &Type::AbstractInt);
    assert_type(&rt, alloc, I32(1), &Type::I32);
    assert_type(&rt, alloc, U32(1), &Type::U32);
    assert_type(&rt, alloc, I64(1), &Type::I64);
    assert_type(&rt, alloc, U64(1), &Type::U64);
}
