//! What a job makes of numbers.

use wgsl_scalar::{Error, LiteralInstance};

/// The number, of an `i32`; any other is refused with `NotRead`.
pub(crate) fn signed(number: LiteralInstance) -> Result<i32, Error> {
    match number {
        LiteralInstance::I32(n) => Ok(n),
        _ => Err(Error::NotRead),
    }
}

/// The number, of a `u32`; any other is refused with `NotRead`.
pub(crate) fn unsigned(number: LiteralInstance) -> Result<u32, Error> {
    match number {
        LiteralInstance::U32(n) => Ok(n),
        _ => Err(Error::NotRead),
    }
}

/// The speed of what is drawn back to where it came from.
pub(crate) fn drawn(speed: i32, position: i32) -> i32 {
    speed.wrapping_sub(position >> 4)
}

/// A number that both others change.
pub(crate) fn mixed(a: u32, b: u32) -> u32 {
    let turned = a.rotate_left(7) ^ b;
    let spread = turned.wrapping_mul(0x9e37_79b9);
    spread ^ (spread >> 15)
}
