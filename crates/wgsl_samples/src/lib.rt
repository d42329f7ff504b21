//! Types and values that the tests of several crates look at.
#![tactic(auto)]

pub mod atomics;
mod both;
pub mod composites;
pub mod operands;
pub mod refusals;
pub mod texts;
pub mod types;
pub mod values;
