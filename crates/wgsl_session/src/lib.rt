//! Lists of calls on a shader's memory, by handles.
#![tactic(auto)]

mod call;
pub mod laws;
mod plain;
mod session;

pub use call::{Call, Fault, Reply};
pub use session::Session;
