//! What public calls on buffers, stores, references and sessions answer.

mod asserts;
mod buffers;
mod calls;
mod cells;
mod fixtures;
mod growth;
mod layouts;
mod readme;
mod references;
mod samples;
mod scripts;
mod sessions;
mod stores;
mod texts;
mod using;
mod values;
mod words;
