//! Tests of what is read of WGSL sources: rows of text, and what is declared in each.
#![tactic(auto)]

#[cfg(test)]
mod tests;
