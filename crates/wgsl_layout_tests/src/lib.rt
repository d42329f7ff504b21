//! Tests of cells of bytes, of their parts, and of the values that bytes lay out, by calls that stores make of
//! `wgsl_layout`. Its layouts and buffers are tested with stores, in `wgsl_memory_tests`.
#![tactic(auto)]

#[cfg(test)]
mod tests;
