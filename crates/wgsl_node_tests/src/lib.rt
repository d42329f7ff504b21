//! Tests of tables of records: rows of paths by hand, numbers in bytes, and records that are no table.
#![tactic(auto)]

#[cfg(test)]
mod tests;
