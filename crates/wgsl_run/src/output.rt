//! Output that waits in a buffer.

use std::alloc::{AllocError, Global};
use std::io;
use std::io::Write;
use wgsl_script::write_bytes;

/// A writer whose bytes wait in a buffer until it is full or flushed. Unlike that of the standard
/// library it makes no write again that was interrupted: this is an error as any other. What waits
/// where a write fails is let go, so that nothing is written behind the failure.
#[derive(Drop)]
pub(crate) struct Buffered<W: Write + Drop> {
    pub(crate) writer: W,
    waiting: Vec<u8>,
}

impl<W: Write + Drop> Buffered<W> {
    /// With room for so many bytes, or more.
    pub(crate) fn new(alloc: Global, capacity: usize, writer: W) -> Result<Self, AllocError> {
        let waiting = Vec::with_capacity(alloc, capacity)?;
        Ok(Buffered { writer, waiting })
    }

    fn has_room(&self, bytes: &[u8]) -> bool {
        bytes.len() <= self.waiting.capacity() - self.waiting.len()
    }

    fn write_waiting(&mut self) -> io::Result<()> {
        let written = write_bytes(&mut self.writer, self.waiting.as_slice());
        self.waiting.clear();
        written
    }
}

impl<W: Write + Drop> Write for Buffered<W> {
    fn write(&mut self, buf: &[u8]) -> io::Result<usize> {
        if !self.has_room(buf) {
            self.write_waiting()?;
        }
        // What is longer than the buffer does not wait.
        if !self.has_room(buf) {
            return self.writer.write(buf);
        }
        self.waiting.extend_from_slice(buf)?;
        Ok(buf.len())
    }

    fn flush(&mut self) -> io::Result<()> {
        self.write_waiting()?;
        self.writer.flush()
    }
}
