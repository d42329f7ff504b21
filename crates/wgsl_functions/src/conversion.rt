//! Conversions that a source writes out (WGSL: value constructor built-in functions).

ghost use Rattle.std.specs.Prelude.{◌≡◌, Some, option_map};
ghost use Rattle.wgsl_functions.specs.Written.{is_true, truth_as, written};
ghost use Rattle.wgsl_rules.specs.View.{type_view};
ghost use Rattle.wgsl_scalar.specs.Literals.{literal_of};

use wgsl_apply::zero_literal;
use wgsl_rules::Type;
use wgsl_scalar::LiteralInstance;

/// The literal as a scalar of the type that is written out: a bool as 0 or 1, whether a number is not 0, an
/// `i32` and a `u32` with the bits of each other, and else what it converts to by itself. `None` where it is
/// no number of the type, or the language has no such conversion.
pub fn written(literal: LiteralInstance, ty: &Type) -> Option<LiteralInstance>
    ensures { option_map literal_of result ≡ written (literal_of literal) (type_view ty.now) }
{
    match literal {
        LiteralInstance::Bool(b) => of_bool(b, ty),
        _ if *ty == Type::Bool => is_not_zero(literal).map(LiteralInstance::Bool),
        LiteralInstance::I32(n) if *ty == Type::U32 => {
            Some(LiteralInstance::U32(n.cast_unsigned()))
        }
        LiteralInstance::U32(n) if *ty == Type::I32 => Some(LiteralInstance::I32(n.cast_signed())),
        _ => literal.to_kind(ty),
    }
}

// 1 of true, and 0 of false.
fn of_bool(b: bool, ty: &Type) -> Option<LiteralInstance>
    ensures { option_map literal_of result ≡ truth_as b (type_view ty.now) }
{
    if *ty == Type::Bool {
        Some(LiteralInstance::Bool(b))
    } else if *ty == Type::I32 {
        Some(LiteralInstance::I32(i32::from(b)))
    } else if *ty == Type::U32 {
        Some(LiteralInstance::U32(u32::from(b)))
    } else {
        None
    }
}

// Whether it is not the zero of its type.
fn is_not_zero(literal: LiteralInstance) -> Option<bool>
    ensures { result ≡ Some (is_true (literal_of literal)) }
{
    let zero = zero_literal(&literal.literal_ty())?;
    literal.op_ne(&zero).ok()
}
