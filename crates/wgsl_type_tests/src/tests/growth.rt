//! Runs in which memory may be refused at any growth: they accept either answer, and check what must
//! be so after each.

mod errors;
mod shared;
mod types;
