//! Places of numbers in bytes that hold a value of a type: found once, by a view or step by step, and then read and put
//! with no names, no value and no memory (WGSL: internal layout of values; memory views).
#![tactic(auto)]

mod components;
pub mod laws;
mod memory;
mod numbers;
mod place;
mod places;
mod rows;
mod shape;

pub use components::Components;
pub use place::Place;
pub use places::Places;
