//! Literals of WGSL, the refusals of calls, and the operators on literals.
#![tactic(auto)]

mod arith;
mod bits;
mod builtin;
mod conv;
mod counts;
mod error;
mod fields;
mod kind;
mod laws;
mod literal;
mod logic;
mod operands;
mod order;
mod shift;
mod text;

pub use builtin::{BuiltinName, BuiltinReason};
pub use error::Error;
pub use laws::{
    common_kinds_are_common_types, inserting_back_changes_nothing, kinds_are_rings,
    leading_bit_and_zeros_add_up, operands_are_in_their_common_type,
    quotients_and_remainders_divide, reversing_twice_changes_nothing, sums_and_products_wrap,
};
pub use literal::LiteralInstance;
