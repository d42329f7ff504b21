//! The memory of a shader: the cells of a store, and the calls on references to parts of them. The bytes of values in
//! host-shared memory are those of `wgsl_layout`, which are handed on.
#![tactic(auto)]

mod cell;
mod laid_out;
pub mod laws;
mod loads;
mod parts;
mod references;
mod show;
mod store;

pub use loads::Loads;
pub use references::References;
pub use show::Show;
pub use store::Store;
pub use wgsl_layout::{Buffers, Layout, LayoutRefusal};
