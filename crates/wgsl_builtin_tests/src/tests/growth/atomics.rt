//! Builtin functions of memory: what they answer, what the cell then has, and which refusal comes first.

mod arrays;
mod changes;
mod exchange;
mod loads;
mod places;
mod sequences;
mod stores;
