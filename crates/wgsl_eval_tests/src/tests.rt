//! Calls with each growth of memory refused in turn: what wants memory is asked again, and every other answer is
//! compared. The snippets of `docs/USING.md` on sources.

/// What the call answers, where memory is not wanted a second time.
macro_rules! again {
    ($rt:expr; $call:expr) => {
        match $call.ok() {
            Some(answer) => answer,
            None => $call.expect($rt, "memory"),
        }
    };
}

/// The answer or the refusal of the call, which is made a second time where it wants memory.
macro_rules! answered {
    ($call:expr) => {
        match wgsl_samples::refusals::settled($call) {
            Some(answer) => answer,
            None => $call,
        }
    };
}

mod answers;
mod equal;
mod given;
mod growth;
mod laws;
mod skips;
mod standard;
mod texts;
mod using;
mod without_memory;
