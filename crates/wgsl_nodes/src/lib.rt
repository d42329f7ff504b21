//! The layout of a WGSL type as a table of plain records, which serves to find the places of numbers in bytes and to
//! read and write them, with no memory taken.
#![tactic(auto)]

mod compare;
pub mod laws;
mod lengths;
mod make;
mod nodes;
mod numbers;
mod paths;
mod places;
mod tables;

pub use compare::{Difference, first_difference};
pub use lengths::{count_in, size_with};
pub use make::{nodes_of, set_name};
pub use nodes::Node;
pub use numbers::{load, load_vec, store, store_vec};
pub use paths::place;
pub use places::{Place, part, part_with, whole};
pub use tables::is_table;
