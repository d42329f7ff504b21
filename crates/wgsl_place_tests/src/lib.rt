//! The tests of `wgsl_places`.
#![tactic(auto)]

#[cfg(test)]
mod tests;
