//! Each call that takes memory.

mod declarations;
mod dialects;
mod evaluations;
mod functions;
mod operators;
mod overrides;
mod parameters;
mod values;

use std::alloc::AllocError;

// Sets what comes next apart from what stands there.
fn separate(text: &mut String) -> Result<(), AllocError> {
    if text.is_empty() {
        return Ok(());
    }
    text.push_str("; ")
}
