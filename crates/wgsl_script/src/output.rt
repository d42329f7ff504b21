//! The bytes that a script writes.

use std::io;
use std::io::Write;

/// Writes all the bytes, in one write where the writer takes them. A write that fails, is
/// interrupted or takes no byte is an error, and is not made again.
pub fn write_bytes<W: Write>(writer: &mut W, bytes: &[u8]) -> io::Result<()> {
    let mut rest = bytes;
    while !rest.is_empty() {
        let count = writer.write(rest)?;
        if count == 0 {
            return Err(io::ErrorKind::WriteZero.into());
        }
        rest = &rest[count..];
    }
    Ok(())
}
