//! Tests of the calls that an evaluator of sources makes, where memory is wanting. They stand in a crate of their own: a
//! crate is proved a second time with its tests.
#![tactic(auto)]

#[cfg(test)]
mod tests;
