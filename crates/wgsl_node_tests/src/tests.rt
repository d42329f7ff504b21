//! What tables tell.

mod asserts;
mod depth;
mod growth;
mod mangled;
mod numbers;
mod paths;
mod samples;
