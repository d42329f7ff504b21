//! Laws of the definitions that the operators meet. The functions do nothing: their contracts are
//! the laws.

ghost use Rattle.std.specs.Prelude.{◌≡◌, ◌≢◌, ℤ, pos};
ghost use Rattle.wgsl_rules.specs.Kinds as kinds;
ghost use Rattle.wgsl_rules.specs.Kinds.{Kind};
ghost use Rattle.wgsl_scalar.specs.Arith.{cut_quotient, cut_remainder};
ghost use Rattle.wgsl_scalar.specs.Laws.{
  CommonKindsAreCommonTypes,
  Divides,
  GivesWrapped,
  InsertingBackChangesNothing,
  IsRing,
  LeadingBitAndZerosAddUp,
  OperandsAreInTheirCommonType,
  ReversingTwiceChangesNothing,
};

/// The kind that an operator takes both of its numbers to is the common type of the two, as
/// `convert_ty` finds it (WGSL: conversion rank).
pub fn common_kinds_are_common_types()
    ensures { CommonKindsAreCommonTypes }
{}

/// The two literals that an operator joins are what both operands are in the common type of their types,
/// as `convert` finds them: there are none where no common type is, or where one of the numbers is not in
/// its range (WGSL: conversion rank; overload resolution algorithm).
pub fn operands_are_in_their_common_type()
    ensures { OperandsAreInTheirCommonType }
{}

/// Sums and products that wrap commute and associate, and products distribute over sums, whether
/// parts are wrapped first or not (WGSL: arithmetic expressions).
pub fn kinds_are_rings()
    ensures { (k : Kind) → IsRing k }
{}

/// In each kind but the abstract one, `op_add` and `op_mul` give these sums and products.
pub fn sums_and_products_wrap()
    ensures { (k : Kind) → k ≢ kinds.abstract_int → GivesWrapped k }
{}

/// The quotient and the remainder by a number that is not 0 are the ones that divide: the whole is
/// the divisor times the quotient and the remainder, and the remainder is nearer to 0 than the
/// divisor, and is 0 or has the sign of the whole. No other numbers do so
/// (WGSL: arithmetic expressions).
pub fn quotients_and_remainders_divide()
    ensures divides { (a b : ℤ) → b ≢ pos 0 → Divides a b (cut_quotient a b) (cut_remainder a b) }
    ensures alone { (a b q r : ℤ) → b ≢ pos 0 → Divides a b q r → (q ≡ cut_quotient a b) × (r ≡ cut_remainder a b) }
{}

/// The bits of an `i32` or a `u32` that `reverse_bits` turns round twice are as before
/// (WGSL: numeric builtin functions, `reverseBits`).
pub fn reversing_twice_changes_nothing()
    ensures { ReversingTwiceChangesNothing }
{}

/// A field that `extract_bits` gives of an `i32` or a `u32`, and that `insert_bits` puts back with the
/// same offset and count, changes nothing (WGSL: numeric builtin functions, `extractBits` and
/// `insertBits`).
pub fn inserting_back_changes_nothing()
    ensures { InsertingBackChangesNothing }
{}

/// What `first_leading_bit` and `count_leading_zeros` give of a `u32` other than 0 adds up to 31
/// (WGSL: numeric builtin functions, `firstLeadingBit` and `countLeadingZeros`).
pub fn leading_bit_and_zeros_add_up()
    ensures { LeadingBitAndZerosAddUp }
{}
