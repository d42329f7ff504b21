//! Operators on literals and numeric builtins, by worked rows.

use crate::tests::asserts::{assert_row, assert_same};
use crate::tests::reading::{asked, number, parted, ty};
use std::alloc::Global;
use std::process::Abort;
use wgsl_rules::ShaderStage::{Const, Exec, Override};
use wgsl_rules::{BinaryOperator, ShaderStage, Type, UnaryOperator, convert};
use wgsl_samples::texts;
use wgsl_scalar::LiteralInstance::{AbstractInt, Bool, I32, I64, U32, U64};
use wgsl_scalar::{
    BuiltinReason, Error, LiteralInstance, common_kinds_are_common_types, kinds_are_rings,
    operands_are_in_their_common_type, quotients_and_remainders_divide, sums_and_products_wrap,
};

const LEAST: i64 = -9223372036854775808;

/// The literal of the text, as `-5i`, `7li` or `true`; the test ends where there is none.
fn literal(rt: &impl Abort, text: &str) -> LiteralInstance {
    texts::literal(text).expect(rt, "a literal")
}

fn stage(rt: &impl Abort, name: &str) -> ShaderStage {
    match name {
        "Const" => Const,
        "Override" => Override,
        "Exec" => Exec,
        _ => panic!(rt; "{name} is no stage"),
    }
}

/// Both literals of a text as `1, 2u`.
fn two(rt: &impl Abort, text: &str) -> (LiteralInstance, LiteralInstance) {
    let (left, right) = parted(rt, text, ", ");
    (literal(rt, left), literal(rt, right))
}

/// What the call of a text as `div Const 7i, 2i` answers.
fn answer_of(rt: &impl Abort, text: &str) -> Result<LiteralInstance, Error> {
    let (call, others) = parted(rt, text, " ");
    let (name, operands) = parted(rt, others, " ");
    let (left, right) = two(rt, operands);
    let stage = stage(rt, name);
    match call {
        "or" => left.op_or(&right),
        "and" => left.op_and(&right),
        "add" => left.op_add(&right, stage),
        "sub" => left.op_sub(&right, stage),
        "mul" => left.op_mul(&right, stage),
        "div" => left.op_div(&right, stage),
        "rem" => left.op_rem(&right, stage),
        "bitor" => left.op_bitor(&right),
        "bitand" => left.op_bitand(&right),
        "bitxor" => left.op_bitxor(&right),
        "shl" => left.op_shl(&right, stage),
        "shr" => left.op_shr(&right, stage),
        "min" => left.min(&right),
        "max" => left.max(&right),
        _ => panic!(rt; "{call} is no call"),
    }
}

/// Calls on two numbers, and the numbers that they give. Quotients are cut toward zero, and have the common type; sums,
/// differences and products wrap.
const NUMBERS: &str = "\
    two_numbers_give_a_number: div Const -7i, 2i = -3i
    two_numbers_give_a_number: div Exec -2147483648i, -1i = -2147483648i
    two_numbers_give_a_number: div Exec -9223372036854775808, -1 = -9223372036854775808
    two_numbers_give_a_number: div Const -9223372036854775808li, -1li = -9223372036854775808li
    two_numbers_give_a_number: div Exec 1li, 0li = 1li
    two_numbers_give_a_number: div Exec 7, 0i = 7i
    two_numbers_give_a_number: rem Exec -2147483648i, -1i = 0i
    two_numbers_give_a_number: rem Override 7i, 0i = 0i
    two_numbers_give_a_number: rem Const -7i, 2i = -1i
    two_numbers_give_a_number: add Const 2147483647i, 1i = -2147483648i
    two_numbers_give_a_number: sub Const 0u, 1u = 4294967295u
    two_numbers_give_a_number: mul Const 18446744073709551615lu, 18446744073709551615lu = 1lu
    two_numbers_give_a_number: shl Const 1, 64 = 0
    two_numbers_give_a_number: shl Const 1i, 33u = 2i
    two_numbers_give_a_number: shl Const 1li, 40u = 1099511627776li
    two_numbers_give_a_number: shl Const -1, 63 = -9223372036854775808
    two_numbers_give_a_number: shl Exec 3000000000u, 1u = 1705032704u
    two_numbers_give_a_number: shl Const 1li, 64u = 1li
    two_numbers_give_a_number: shr Const -1, 70u = -1
    two_numbers_give_a_number: shr Exec 8u, 32u = 8u
    two_numbers_give_a_number: shr Const -1i, 31u = -1i
    two_numbers_give_a_number: bitor Const 12i, 10i = 14i
    two_numbers_give_a_number: bitand Const 12i, 10 = 8i
    two_numbers_give_a_number: bitxor Const 12i, 10i = 6i
    two_numbers_give_a_number: bitor Const false, true = true
    two_numbers_give_a_number: or Const false, true = true
    two_numbers_give_a_number: and Const false, true = false
    two_numbers_give_a_number: min Const 1i, 2 = 1i
    two_numbers_give_a_number: max Const 1i, 2 = 2i";

#[test]
fn two_numbers_give_a_number(rt: HostRuntime) {
    for row in NUMBERS.lines() {
        let (question, wanted) = asked(&rt, row);
        assert_row(&rt, row, answer_of(&rt, question), Ok(literal(&rt, wanted)));
    }
}

/// Calls on two literals that are refused, and how. A bool and a number have no common type, but two bools have one.
const REFUSED: &str = "\
    two_numbers_are_refused: div Const -2147483648i, -1i = DivByZero
    two_numbers_are_refused: div Override -2147483648i, -1i = DivByZero
    two_numbers_are_refused: div Const -9223372036854775808, -1 = DivByZero
    two_numbers_are_refused: div Const 1li, 0li = DivByZero
    two_numbers_are_refused: rem Const -2147483648i, -1i = RemZeroDiv
    two_numbers_are_refused: rem Const 7i, 0i = RemZeroDiv
    two_numbers_are_refused: add Exec 9223372036854775807, 1 = AddOverflow
    two_numbers_are_refused: sub Const -9223372036854775808, 1 = SubOverflow
    two_numbers_are_refused: mul Const -9223372036854775808, -1 = MulOverflow
    two_numbers_are_refused: shl Const 1, 63 = ShlOverflow 63 of 1
    two_numbers_are_refused: shl Const 3000000000u, 1u = ShlOverflow 1 of 3000000000u
    two_numbers_are_refused: shr Const 8u, 32u = ShrOverflow 32 of 8u
    two_numbers_are_refused: min Const 4294967295, 1i = Builtin NoCommonType
    two_numbers_are_refused: max Const true, 1i = Builtin NoCommonType
    two_numbers_are_refused: min Const true, false = Builtin NotNumber
    two_numbers_are_refused: max Const true, true = Builtin NotNumber
    operands_without_a_common_type_are_refused: add Exec 4294967295, 1i = Binary Addition of AbstractInt, i32
    operands_without_a_common_type_are_refused: div Exec true, true = Binary Division of bool, bool
    operands_without_a_common_type_are_refused: shl Exec 1u, 1i = Binary ShiftLeft of u32, i32
    operands_without_a_common_type_are_refused: shl Exec true, 0u = Binary ShiftLeft of bool, u32
    operands_without_a_common_type_are_refused: bitxor Exec false, true = Binary BitwiseXor of bool, bool
    operands_without_a_common_type_are_refused: and Exec false, 1i = Binary ShortCircuitAnd of bool, i32";

/// The case of a binary operator's refusal, as `Addition of i32, u32`.
fn binary_of(rt: &impl Abort, alloc: Global, text: &str) -> Error {
    let (name, types) = parted(rt, text, " of ");
    let (left, right) = parted(rt, types, ", ");
    let operator = match name {
        "Addition" => BinaryOperator::Addition,
        "Division" => BinaryOperator::Division,
        "ShiftLeft" => BinaryOperator::ShiftLeft,
        "BitwiseXor" => BinaryOperator::BitwiseXor,
        "ShortCircuitAnd" => BinaryOperator::ShortCircuitAnd,
        _ => panic!(rt; "{name} is no operator"),
    };
    Error::Binary(
        operator,
        ty(rt, alloc, &[], left),
        ty(rt, alloc, &[], right),
    )
}

/// The places and the number of a text as `63 of 1`.
fn places_of(rt: &impl Abort, text: &str) -> (u32, LiteralInstance) {
    let (places, shifted) = parted(rt, text, " of ");
    (
        number(rt, places).expect(rt, "places"),
        literal(rt, shifted),
    )
}

/// The error of the name, and of what stands behind it.
fn error_of(rt: &impl Abort, alloc: Global, name: &str, parts: &str) -> Error {
    match name {
        "ShlOverflow" => {
            let (places, shifted) = places_of(rt, parts);
            Error::ShlOverflow(places, shifted)
        }
        "ShrOverflow" => {
            let (places, shifted) = places_of(rt, parts);
            Error::ShrOverflow(places, shifted)
        }
        "Binary" => binary_of(rt, alloc, parts),
        _ => panic!(rt; "{name} of {parts} is no error"),
    }
}

/// The error of a text as `DivByZero`, `ShlOverflow 63 of 1` or `Binary Addition of i32, u32`.
fn error(rt: &impl Abort, alloc: Global, text: &str) -> Error {
    match text {
        "AddOverflow" => Error::AddOverflow,
        "SubOverflow" => Error::SubOverflow,
        "MulOverflow" => Error::MulOverflow,
        "DivByZero" => Error::DivByZero,
        "RemZeroDiv" => Error::RemZeroDiv,
        "Builtin NoCommonType" => Error::Builtin(BuiltinReason::NoCommonType),
        "Builtin NotNumber" => Error::Builtin(BuiltinReason::NotNumber),
        _ => {
            let (name, parts) = parted(rt, text, " ");
            error_of(rt, alloc, name, parts)
        }
    }
}

#[test]
fn two_numbers_are_refused(rt: HostRuntime) {
    for row in REFUSED.lines() {
        let (question, wanted) = asked(&rt, row);
        let wanted = error(&rt, rt.alloc(), wanted);
        assert_row(&rt, row, answer_of(&rt, question), Err(wanted));
    }
}

// `literal_ty` ensures that the numbers are of their kinds, which `convert` asks for.
fn in_common(
    rt: &impl Abort,
    alloc: Global,
    left: LiteralInstance,
    right: LiteralInstance,
) -> Option<(LiteralInstance, LiteralInstance)> {
    let _left = left.literal_ty();
    let _right = right.literal_ty();
    convert(alloc, &left, &right).expect(rt, "memory")
}

/// Two numbers, what they are in their common type, and the difference that `op_sub` gives of these: of one kind, and
/// an abstract integer on either side, to the ends of the other kind.
const TAKEN: &str = "\
    numbers_are_taken_to_their_common_kind: -7, 2 = -7, 2; -9
    numbers_are_taken_to_their_common_kind: -7i, 2i = -7i, 2i; -9i
    numbers_are_taken_to_their_common_kind: 9u, 2u = 9u, 2u; 7u
    numbers_are_taken_to_their_common_kind: -7li, 2li = -7li, 2li; -9li
    numbers_are_taken_to_their_common_kind: 9lu, 2lu = 9lu, 2lu; 7lu
    numbers_are_taken_to_their_common_kind: -2147483648, -1i = -2147483648i, -1i; -2147483647i
    numbers_are_taken_to_their_common_kind: -1i, 2147483647 = -1i, 2147483647i; -2147483648i
    numbers_are_taken_to_their_common_kind: 4294967295, 5u = 4294967295u, 5u; 4294967290u
    numbers_are_taken_to_their_common_kind: 7u, 0 = 7u, 0u; 7u";

#[test]
fn numbers_are_taken_to_their_common_kind(rt: HostRuntime) {
    operands_are_in_their_common_type();
    for row in TAKEN.lines() {
        let (question, wanted) = asked(&rt, row);
        let (common, difference) = parted(&rt, wanted, "; ");
        let (left, right) = two(&rt, question);
        let found = in_common(&rt, rt.alloc(), left, right);
        assert_row(&rt, row, found, Some(two(&rt, common)));
        let difference = literal(&rt, difference);
        assert_row(&rt, row, left.op_sub(&right, Exec), Ok(difference));
    }
}

#[test]
fn bools_are_taken_as_they_are(rt: HostRuntime) {
    operands_are_in_their_common_type();
    let (yes, no) = (Bool(true), Bool(false));
    assert_same(&rt, in_common(&rt, rt.alloc(), yes, no), Some((yes, no)));
    assert_same(&rt, yes.op_gt(&no), Ok(true));
    assert_same(&rt, yes.op_lt(&no), Ok(false));
}

/// Asserts that the two have no common type, and that `op_sub` refuses them.
fn assert_not_taken(rt: &impl Abort, alloc: Global, left: LiteralInstance, right: LiteralInstance) {
    let row = (left, right);
    assert_same(rt, (row, in_common(rt, alloc, left, right)), (row, None));
    let (first, second) = (left.literal_ty(), right.literal_ty());
    let wanted = Error::Binary(BinaryOperator::Subtraction, first, second);
    assert_same(rt, (row, left.op_sub(&right, Exec)), (row, Err(wanted)));
}

/// Two literals out of the range of the other kind, or of kinds that do not convert to each other.
const NOT_TAKEN: [(LiteralInstance, LiteralInstance); 17] = [
    (AbstractInt(2147483648), I32(1)),
    (AbstractInt(-2147483649), I32(1)),
    (AbstractInt(4294967296), U32(1)),
    (AbstractInt(-1), U32(1)),
    (AbstractInt(1), I64(1)),
    (AbstractInt(1), U64(1)),
    (I32(1), U32(1)),
    (I32(1), I64(1)),
    (I32(1), U64(1)),
    (U32(1), I64(1)),
    (U32(1), U64(1)),
    (I64(1), U64(1)),
    (Bool(true), AbstractInt(1)),
    (Bool(true), I32(1)),
    (Bool(true), U32(1)),
    (Bool(true), I64(1)),
    (Bool(true), U64(1)),
];

#[test]
fn operands_of_other_kinds_are_not_taken(rt: HostRuntime) {
    operands_are_in_their_common_type();
    for (left, right) in NOT_TAKEN {
        assert_not_taken(&rt, rt.alloc(), left, right);
        assert_not_taken(&rt, rt.alloc(), right, left);
    }
}

#[test]
fn one_literal(rt: HostRuntime) {
    assert_same(&rt, AbstractInt(LEAST).op_neg(), Ok(AbstractInt(LEAST)));
    assert_same(
        &rt,
        U32(7).op_neg(),
        Err(Error::Unary(UnaryOperator::Negation, Type::U32)),
    );
    assert_same(&rt, I32(0).op_bitnot(), Ok(I32(-1)));
    assert_same(&rt, Bool(true).op_not(), Ok(Bool(false)));
    assert_same(&rt, I32(-3).sign(), Ok(I32(-1)));
    assert_same(
        &rt,
        Bool(true).abs(),
        Err(Error::Builtin(BuiltinReason::NotNumber)),
    );
}

#[test]
fn magnitudes_and_counts(rt: HostRuntime) {
    assert_same(&rt, I32(-3).abs(), Ok(I32(3)));
    assert_same(&rt, I32(-2147483648).abs(), Ok(I32(-2147483648)));
    assert_same(
        &rt,
        AbstractInt(1).count_leading_zeros(),
        Ok(AbstractInt(63)),
    );
    assert_same(&rt, U32(0).count_trailing_zeros(), Ok(U32(32)));
    assert_same(&rt, I32(-1).count_one_bits(), Ok(I32(32)));
}

#[test]
fn comparisons_take_the_common_type(rt: HostRuntime) {
    assert_same(&rt, Bool(false).op_lt(&Bool(true)), Ok(true));
    assert_same(&rt, AbstractInt(3).op_eq(&U32(3)), Ok(true));
    assert_same(&rt, I32(3).op_ne(&I32(3)), Ok(false));
    assert_same(&rt, I32(-3).op_le(&I32(-3)), Ok(true));
    assert_same(&rt, I32(-3).op_gt(&I32(2)), Ok(false));
    assert_same(&rt, I32(-3).op_ge(&I32(2)), Ok(false));
}

#[test]
fn laws_of_literals_do_nothing(_rt: HostRuntime) {
    common_kinds_are_common_types();
    kinds_are_rings();
    sums_and_products_wrap();
    quotients_and_remainders_divide();
}
