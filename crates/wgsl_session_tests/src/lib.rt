//! Tests of long lists of calls on sessions, against memories that know no code of the libraries, which stand in a crate of
//! their own: a crate is proved a second time with its tests, and tests of several crates are proved side by side.
#![tactic(auto)]

#[cfg(test)]
mod tests;
