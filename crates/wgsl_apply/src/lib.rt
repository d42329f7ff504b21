//! The operators of `wgsl_value_ops` by what a source writes, and values that are made and converted: on
//! any values, of which each condition of the library is tested, with its refusals in words.
#![tactic(auto)]

mod convert;
mod make;
mod operator;
mod refusal;
mod standard;

pub use convert::{automatic, concrete, has_rank, in_common, literal_of, natural};
pub use make::{make_array, make_matrix, make_structure, make_vector, zero, zero_literal};
pub use operator::{binary, unary};
pub use refusal::{Asked, is_of_numbers, is_short, refusal_text};
pub use standard::{COMPONENTS, against_operator, component, is_runtime};
