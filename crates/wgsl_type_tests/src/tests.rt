//! What public calls on types and literals answer.

mod asserts;
mod depth;
mod errors;
mod growth;
mod layouts;
mod literals;
mod operators;
mod reach;
mod reading;
mod samples;
mod shared;
mod sizes;
mod types;
mod workgroup;
