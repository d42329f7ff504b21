//! Scripts of calls on a shader's memory: a line a call, and a line for what it answers.
#![tactic(auto)]

mod answer;
mod attributes;
mod fault;
mod grammar;
mod hexadecimal;
mod input;
mod output;
mod script;
mod stop;
mod structs;
mod type_words;

pub use fault::RunFault;
pub use input::LIMIT;
pub use output::write_bytes;
pub use script::run_script;
