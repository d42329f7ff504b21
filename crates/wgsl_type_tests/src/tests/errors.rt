//! Errors: their numbers and their copies.

use crate::tests::asserts::{assert_gives, assert_same};
use std::alloc::Global;
use std::process::Abort;
use wgsl_rules::{BinaryOperator, Type, UnaryOperator};
use wgsl_scalar::LiteralInstance::{AbstractInt, U32};
use wgsl_scalar::{BuiltinName, BuiltinReason, Error};

/// Asserts the number of the error, and that its copy is equal.
fn assert_numbered(rt: &impl Abort, alloc: Global, number: usize, error: Error) {
    assert_same(rt, error.number() as usize, number);
    assert_gives(rt, error.clone(alloc), error);
}

#[test]
fn errors_are_numbered_in_order(rt: HostRuntime) {
    let alloc = rt.alloc();
    let name = String::from_str(alloc, "m").expect(&rt, "memory");
    assert_numbered(&rt, alloc, 1, Error::Memory);
    assert_numbered(&rt, alloc, 2, Error::NotRead);
    assert_numbered(&rt, alloc, 3, Error::NotWrite);
    assert_numbered(&rt, alloc, 4, Error::NotReadWrite);
    assert_numbered(&rt, alloc, 5, Error::PtrHandle);
    assert_numbered(&rt, alloc, 6, Error::PtrVecComp);
    assert_numbered(&rt, alloc, 7, Error::WriteRefType(Type::U32, Type::I32));
    assert_numbered(&rt, alloc, 8, Error::Component(Type::U32, name));
    assert_numbered(&rt, alloc, 9, Error::NotIndexable(Type::U32));
    assert_numbered(&rt, alloc, 10, Error::OutOfBounds(4, Type::U32, 3));
    assert_numbered(
        &rt,
        alloc,
        11,
        Error::ConvOverflow(AbstractInt(4294967295), Type::I32),
    );
    assert_numbered(
        &rt,
        alloc,
        12,
        Error::Unary(UnaryOperator::Negation, Type::U32),
    );
    assert_numbered(
        &rt,
        alloc,
        13,
        Error::Binary(BinaryOperator::Addition, Type::U32, Type::I32),
    );
    assert_numbered(&rt, alloc, 14, Error::CompwiseBinary(Type::U32, Type::I32));
    assert_numbered(&rt, alloc, 15, Error::AddOverflow);
    assert_numbered(&rt, alloc, 16, Error::SubOverflow);
    assert_numbered(&rt, alloc, 17, Error::MulOverflow);
    assert_numbered(&rt, alloc, 18, Error::DivByZero);
    assert_numbered(&rt, alloc, 19, Error::RemZeroDiv);
    assert_numbered(&rt, alloc, 20, Error::ShlOverflow(1, U32(3000000000)));
    assert_numbered(&rt, alloc, 21, Error::ShrOverflow(32, U32(8)));
    assert_numbered(&rt, alloc, 22, Error::ParamType(Type::I32, Type::I64));
    assert_numbered(&rt, alloc, 23, Error::Builtin(BuiltinReason::NotNumber));
    assert_numbered(&rt, alloc, 24, Error::Todo(BuiltinName::ExtractBits));
}

/// Asserts that the copy of an error of that reason has it too.
fn assert_reason_kept(rt: &impl Abort, alloc: Global, reason: BuiltinReason) {
    let error = Error::Builtin(reason);
    assert_gives(rt, error.clone(alloc), error);
}

#[test]
fn a_copy_keeps_the_reason(rt: HostRuntime) {
    for reason in [
        BuiltinReason::NotNumber,
        BuiltinReason::NoCommonType,
        BuiltinReason::UnequalSizes,
        BuiltinReason::OutOfRange,
    ] {
        assert_reason_kept(&rt, rt.alloc(), reason);
    }
}
