//! Layouts: where the parts of values stand in bytes, what is read and written there, and the bytes of values in
//! host-shared memory (WGSL: internal layout of values; memory layout).
#![tactic(auto)]

mod buffers;
mod copier;
mod extent;
mod flat;
mod in_place;
pub mod laws;
mod layout;
mod located;
mod make;
mod part_bytes;
mod plan;
mod reader;
mod types;
mod writer;

pub use buffers::Buffers;
pub use flat::{FlatCell, FlatPart};
pub use in_place::{BytesWrite, InPlace};
pub use layout::{Layout, LayoutRefusal};
pub use reader::read_buffer;
