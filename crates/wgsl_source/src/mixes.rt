//! Which operators stand beside each other without brackets (WGSL: operator precedence and
//! associativity; expression grammar).

ghost use Rattle.std.specs.Prelude.{◌≡◌};
ghost use Rattle.wgsl_source.specs.Mixes.{form_of, may_stand_beside};
ghost use Rattle.wgsl_source.specs.Families.{family_in};

use wgsl_rules::BinaryOperator;

/// The operators whose operands the grammar gives one form.
#[derive(Clone, Copy, PartialEq, Eq)]
enum Family {
    /// Of sums and products.
    Arithmetic,
    Shift,
    Relation,
    Bitwise,
    Logical,
}

/// Whether an operator may follow one that still waits for its right operand, in the same brackets.
pub(crate) fn may_join(waiting: BinaryOperator, next: BinaryOperator) -> bool
    ensures { result ≡ may_stand_beside waiting next }
{
    match (family_of(waiting), family_of(next)) {
        (Family::Bitwise, Family::Bitwise) | (Family::Logical, Family::Logical) => waiting == next,
        (Family::Bitwise, _) | (_, Family::Bitwise) => false,
        (Family::Logical, _) | (_, Family::Logical) => true,
        (Family::Relation, Family::Relation) => false,
        (Family::Relation, _) | (_, Family::Relation) => true,
        (Family::Shift, _) | (_, Family::Shift) => false,
        (Family::Arithmetic, Family::Arithmetic) => true,
    }
}

fn family_of(operator: BinaryOperator) -> Family
    ensures { result ≡ family_in (form_of operator) }
{
    match operator {
        BinaryOperator::Addition | BinaryOperator::Subtraction => Family::Arithmetic,
        BinaryOperator::Multiplication | BinaryOperator::Division => Family::Arithmetic,
        BinaryOperator::Remainder => Family::Arithmetic,
        BinaryOperator::ShiftLeft | BinaryOperator::ShiftRight => Family::Shift,
        BinaryOperator::LessThan | BinaryOperator::LessThanEqual => Family::Relation,
        BinaryOperator::GreaterThan | BinaryOperator::GreaterThanEqual => Family::Relation,
        BinaryOperator::Equality | BinaryOperator::Inequality => Family::Relation,
        BinaryOperator::BitwiseAnd | BinaryOperator::BitwiseOr => Family::Bitwise,
        BinaryOperator::BitwiseXor => Family::Bitwise,
        BinaryOperator::ShortCircuitAnd | BinaryOperator::ShortCircuitOr => Family::Logical,
    }
}
