//! Buffered output: a sink that hands its bytes on in long pieces.
#![tactic(auto)]

ghost use Rattle.std.specs.Prelude.{◌≡◌, false, IfErr, IfOk};
ghost use Rattle.std.specs.Io.Buffered.{writer_contents};
ghost use Rattle.std.specs.Io.KnownBytes.{Keeps};
ghost use Rattle.std.specs.IoError.{error_kind};

use regex_cursor::run::Sink;
use std::alloc::Global;
use std::io;
use std::io::{BufWriter, ErrorKind, Write};

/// The length of the buffer, in bytes.
const CAPACITY: usize = 65_536;

/// The most bytes that one call takes. `BufWriter` writes a piece as long as its buffer past it, in
/// a call that isn't made again if it is interrupted. A shorter piece goes through the buffer.
const LONGEST: usize = 32_768;

/// A sink over a buffered writer. What it takes is written when the buffer is full, and by
/// `into_inner`. A write that is interrupted is made again.
///
/// A write that takes nothing of a piece with bytes is an error of kind `WriteZero`.
#[derive(Drop)]
pub struct BufferedSink<W: Write + Drop> {
    writer: BufWriter<W>,
    has_failed: bool,
}

impl<W: Write + Drop> BufferedSink<W> {
    /// Returns a sink over this writer. It has not failed. An `Err` means out of memory, and the
    /// writer is dropped.
    pub fn new(alloc: Global, inner: W) -> io::Result<BufferedSink<W>>
        ensures holds { IfOk result (λ s. ⟦<BufferedSink<W> as Sink>⟧.taken s ≡ W.contents inner) }
        ensures sound { IfOk result (λ s. ⟦<BufferedSink<W> as Sink>⟧.has_failed s ≡ false) }
        ensures err { IfErr result (λ e. error_kind e ≡ ErrorKind.OutOfMemory) }
    {
        let writer = BufWriter::with_capacity(alloc, CAPACITY, inner)?;
        Ok(BufferedSink {
            writer,
            has_failed: false,
        })
    }

    /// Writes the bytes that are held, and returns the writer. After an `Err` they were written in
    /// part, from their start on.
    pub fn into_inner(self) -> io::Result<W>
        ensures { IfOk result (λ w. Keeps (⟦<BufferedSink<W> as Sink>⟧.taken self) (W.contents w)) }
    {
        match self.writer.into_inner() {
            Ok(inner) => Ok(inner),
            Err(fault) => Err(fault.into_error()),
        }
    }
}

impl<W: Write + Drop> Sink for BufferedSink<W> {
    ghost taken = { λ s. writer_contents W.contents s.writer };

    ghost has_failed = { λ s. s.has_failed };

    fn put(&mut self, bytes: &[u8]) -> io::Result<usize> {
        let piece = &bytes[..bytes.len().min(LONGEST)];
        match self.writer.write(piece) {
            Ok(n) => {
                if n == 0 && !bytes.is_empty() {
                    self.has_failed = true;
                    return Err(io::Error::from(ErrorKind::WriteZero));
                }
                Ok(n)
            }
            Err(fault) => {
                self.has_failed = true;
                Err(fault)
            }
        }
    }

    fn failed(&self) -> bool {
        self.has_failed
    }
}
