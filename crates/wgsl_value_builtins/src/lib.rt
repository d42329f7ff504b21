//! The builtin functions on values alone (WGSL: builtin functions): logical, numeric, on bits, of packed bytes, and bitcasts. None
//! looks into a memory.
#![tactic(auto)]

mod bitcast;
mod bits;
mod cases;
mod components;
mod held;
mod laws;
mod lifts;
mod logical;
mod numeric;
mod packing;

pub use bitcast::{bitcast_t, is_bitcast_target};
pub use bits::{extractBits, firstLeadingBit, firstTrailingBit, insertBits, reverseBits};
pub use laws::{
    answers_may_be_stored, bitcasts_undo_each_other, min_and_max_are_symmetric,
    packing_undoes_unpacking, reversed_twice_is_itself,
};
pub use logical::{all, any, select};
pub use numeric::{
    abs, clamp, countLeadingZeros, countOneBits, countTrailingZeros, dot, max, min, sign, transpose,
};
pub use packing::{
    dot4I8Packed, dot4U8Packed, pack4xI8, pack4xI8Clamp, pack4xU8, pack4xU8Clamp, unpack4xI8,
    unpack4xU8,
};
