//! Operators on vectors and on values of every kind, and what is done component by component. Nothing here looks into a
//! memory.
#![tactic(auto)]

mod compwise;
mod in_place;
mod instances;
mod laws;
mod lifted;
mod logical;
mod mixed;
mod operators;
mod ops;

pub use compwise::Compwise;
pub use laws::{
    answers_are_storable, answers_have_their_types, lifted_answers_keep_the_count,
    literals_are_joined_as_literals, sums_and_products_swap,
};
pub use logical::{logical_and, logical_or};
pub use mixed::{ScalarOperators, VecOperators};
pub use ops::Operators;
