//! Prompt output: what was printed is written before a reader may wait.
ghost use Rattle.std.specs.Prelude.{Some, [], cond};

use std::cell::RefCell;
use std::io;
use std::io::{BufWriter, ErrorKind, Read, Stdout, Write};

/// The standard output, behind one buffer that printers and readers share.
#[derive(Clone, Copy)]
pub struct SharedStdout<'c> {
    pub buffer: &'c RefCell<BufWriter<Stdout>>,
}

impl Write for SharedStdout<'_> {
    fn write(&mut self, bytes: &[u8]) -> io::Result<usize> {
        match self.buffer.try_borrow_mut() {
            Ok(mut buffer) => buffer.write(bytes),
            Err(_) => Err(io::Error::from(ErrorKind::Other)),
        }
    }

    #[inline(always)]
    fn write_all(&mut self, bytes: &[u8]) -> io::Result<()> {
        match self.buffer.try_borrow_mut() {
            Ok(mut buffer) => buffer.write_all(bytes),
            Err(_) => Err(io::Error::from(ErrorKind::Other)),
        }
    }

    fn flush(&mut self) -> io::Result<()> {
        match self.buffer.try_borrow_mut() {
            Ok(mut buffer) => buffer.flush(),
            Err(_) => Err(io::Error::from(ErrorKind::Other)),
        }
    }
}

/// A reader that flushes the output before each read, if that may wait. An error of the output is one
/// of the read then, and what couldn't be written stays in the buffer. Its end is read once.
#[derive(Drop)]
pub struct PromptReader<R: Read + Drop, W: Write + Drop> {
    pub inner: R,
    pub output: W,
    /// Whether a read may wait, as that of a pipe or a terminal does.
    pub may_wait: bool,
    /// Whether the end was reached. Then nothing more is read: a terminal would wait again.
    pub is_over: bool,
}

impl<R: Read + Drop, W: Write + Drop> Read for PromptReader<R, W> {
    ghost remaining = { λ r. cond r.is_over (Some []) (R.remaining r.inner) };

    fn read(&mut self, bytes: &mut [u8]) -> io::Result<usize> {
        if self.is_over {
            return Ok(0);
        }
        if self.may_wait {
            self.output.flush()?;
        }
        let count = self.inner.read(bytes)?;
        if count > 0 || bytes.is_empty() {
            return Ok(count);
        }
        self.is_over = true;
        Ok(0)
    }
}
