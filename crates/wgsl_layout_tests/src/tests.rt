//! What public calls on cells of bytes and their parts answer. Each table has rows that were worked out by the rules of
//! WGSL: alignments and sizes, the order of members, bytes with the lowest first.

/// What is made. The words are those of `tools/refuse/sweep`.
macro_rules! made {
    ($rt:expr; $call:expr) => {
        $call.expect($rt, "no memory to make it")
    };
}

/// What the call answers. One growth alone is refused: where the call wants memory, it is made again.
macro_rules! answer_of {
    ($rt:expr; $call:expr) => {
        match $call {
            Ok(answer) => answer,
            Err(std::alloc::AllocError) => $call.expect($rt, "memory"),
        }
    };
}

mod asserts;
mod growth;
mod held;
mod rows;
mod samples;
mod without_memory;
