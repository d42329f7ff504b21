//! What no clause says of the operators: worked rows, by the texts of their answers.
//!
//! One growth of memory alone is refused in a run, so what wants memory is asked again. Tests whose growths are
//! refused in turn stand in `growth`.

/// What the call answers, where memory is not wanted a second time.
macro_rules! again {
    ($rt:expr; $call:expr) => {
        match $call.ok() {
            Some(answer) => answer,
            None => $call.expect($rt, "memory"),
        }
    };
}

/// The answer or the refusal of the call, which is made a second time where it wants memory.
macro_rules! answered {
    ($call:expr) => {
        match wgsl_samples::refusals::settled($call) {
            Some(answer) => answer,
            None => $call,
        }
    };
}

mod answers;
mod growth;
mod made;
mod rows;
mod sorts;
