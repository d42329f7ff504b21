//! The values of WGSL: literals, composites, atomics, pointers and references, views into them,
//! and every way to look at their parts and to write them.
#![tactic(auto)]

mod array;
mod atomic;
mod call;
mod instance;
mod iter;
mod laws;
mod lists;
mod matrix;
mod part_mut;
mod pointer;
mod shared;
mod structure;
mod vector;
mod view;

pub use array::ArrayInstance;
pub use atomic::AtomicInstance;
pub use call::{CallSignature, TpltParam};
pub use instance::Instance;
pub use iter::{IntoItems, Items, MatItems};
pub use laws::{
    a_part_replaced_is_storable, texts_tell_values_apart, transposed_exchanges_rows_and_columns,
    transposed_twice_is_itself,
};
pub use matrix::MatInstance;
pub use part_mut::{PartMut, Placed};
pub use pointer::{PtrInstance, RefInstance};
pub use shared::SharedStructType;
pub use structure::StructInstance;
pub use vector::VecInstance;
pub use view::MemView;
