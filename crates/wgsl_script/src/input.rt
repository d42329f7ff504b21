//! The bytes that a script is read from.

use crate::fault::RunFault;
use std::alloc::Global;
use std::io::Read;

/// The most bytes that a script may have.
pub const LIMIT: usize = 1_048_576;

/// The bytes of the reader to its end. A read that fails or is interrupted is a fault, and one byte
/// more than the limit is too long.
pub(crate) fn read_input<R: Read>(alloc: Global, reader: &mut R) -> Result<Vec<u8>, RunFault> {
    let mut input = Vec::new(alloc);
    let mut chunk = [0; 4096];
    for _ in 0..u64::MAX {
        let count = reader.read(&mut chunk).map_err(|_| RunFault::Read)?;
        if count == 0 {
            return Ok(input);
        }
        if LIMIT - input.len() < count {
            return Err(RunFault::TooLong);
        }
        input.extend_from_slice(&chunk[..count])?;
    }
    Err(RunFault::TooLong)
}
