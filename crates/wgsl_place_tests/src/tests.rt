//! Places, and the numbers there.

mod asserts;
mod depth;
mod growth;
mod memory;
mod numbers;
mod refusals;
mod samples;
mod using;
mod vectors;
mod vectors_in_memory;
mod without_memory;
