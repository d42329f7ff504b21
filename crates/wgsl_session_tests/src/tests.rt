//! What sessions answer long lists of calls, and lists in which memory is refused.

mod asserts;
mod growth;
mod handles;
mod plain_memory;
mod samples;
mod sessions;
