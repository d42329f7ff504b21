//! What public calls on values answer. Each test first makes what it looks at: a run in which memory is refused to that
//! ends with words of its own, by which `tools/refuse/sweep` tells it from a call that answers wrongly.

/// What is made. The words are those of `tools/refuse/sweep`.
macro_rules! made {
    ($rt:expr; $call:expr) => {
        $call.expect($rt, "no memory to make it")
    };
}

mod asserts;
mod conversion_laws;
mod conversions;
mod growth;
mod instances;
mod lent;
mod parts;
mod reading;
mod samples;
mod signatures;
mod value_texts;
mod value_types;
mod views;
