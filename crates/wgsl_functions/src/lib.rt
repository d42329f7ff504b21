//! The builtin functions of `wgsl_value_builtins` by the names that a source writes, on any values, of which
//! each condition of the library is tested.
#![tactic(auto)]

mod builtin;
mod conversion;
mod names;
mod parameters;
mod standard;

pub use builtin::{Builtin, OfOne, OfThree, OfTwo, bitcast, insert_bits};
pub use conversion::written;
pub use parameters::{Dialect, Unfit, bitcast_argument};
pub use standard::against_function;
