//! Tests of calls to which memory is refused, of those that take none, and of calls on deep types and values, which stand in a
//! crate of their own: a crate is proved a second time with its tests, and tests of several crates are proved side by side.
#![tactic(auto)]

#[cfg(test)]
mod tests;
