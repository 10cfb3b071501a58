//! Counting writer: how many bytes were written.

use std::io;
use std::io::Write;

/// A writer that counts the bytes that it takes.
#[derive(Drop)]
pub struct Counter<W: Write + Drop> {
    pub inner: W,
    /// How many bytes were written.
    pub count: u64,
}

impl<W: Write + Drop> Write for Counter<W> {
    ghost contents = { λ c. W.contents c.inner };

    fn write(&mut self, bytes: &[u8]) -> io::Result<usize> {
        let taken = self.inner.write(bytes)?;
        self.count = self.count.saturating_add(taken as u64);
        Ok(taken)
    }

    #[inline(always)]
    fn write_all(&mut self, bytes: &[u8]) -> io::Result<()> {
        self.inner.write_all(bytes)?;
        self.count = self.count.saturating_add(bytes.len() as u64);
        Ok(())
    }

    fn flush(&mut self) -> io::Result<()> {
        self.inner.flush()
    }
}
