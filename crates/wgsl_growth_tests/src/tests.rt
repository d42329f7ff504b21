//! What calls answer where memory is refused to them, and on deep types and values. Each test first makes what it looks at: a run in which memory is
//! refused to that ends with words of its own, by which `tools/refuse/sweep` tells it from a call that answers wrongly.

/// What is made. The words are those of `tools/refuse/sweep`.
macro_rules! made {
    ($rt:expr; $call:expr) => {
        $call.expect($rt, "no memory to make it")
    };
}

/// What the call answers. One growth alone is refused: where the call wants memory, it says so, and is made again.
macro_rules! answer_of {
    ($rt:expr; $call:expr) => {
        match $call {
            Ok(answer) => answer,
            Err(error) => {
                crate::tests::asserts::assert_memory($rt, error);
                $call.expect($rt, "memory")
            }
        }
    };
}

mod asserts;
mod cells;
mod depth;
mod growth;
mod samples;
mod without_memory;
