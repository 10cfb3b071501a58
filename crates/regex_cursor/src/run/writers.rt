//! Sinks: writers that remember whether they failed.
ghost use Rattle.std.specs.Prelude.{◌≡◌, ℕ, ◌<◌, ◌≤◌, List, Option, None, Bool, true, false, length, IfOk, OnOk, OnErr};
ghost use Rattle.std.specs.Io.KnownBytes.{WriteAppends};

use std::io;
use std::io::Write;

/// A writer that remembers whether it failed.
pub trait Sink {
    /// The bytes that it contains, or `None` if it doesn't know them.
    ghost taken: { Self → Option (List ℕ) } = { λ _. None };

    /// Whether a call failed.
    ghost has_failed: { Self → Bool };

    /// Writes the first bytes of a piece, and returns how many it wrote.
    ///
    /// It writes at least one byte of a piece that has one. An error writes none, and from then on
    /// the sink has failed.
    fn put(&mut self, bytes: &[u8]) -> io::Result<usize>
        ensures some { IfOk result (λ n. 0 < length bytes.now → 0 < n) }
        ensures within { IfOk result (λ n. n ≤ length bytes.now) }
        ensures appended { WriteAppends (taken self.old) (taken self.new) result bytes.now }
        ensures ok { OnOk result (has_failed self.new ≡ has_failed self.old) }
        ensures err { OnErr result (has_failed self.new ≡ true) };

    /// Whether a call failed.
    fn failed(&self) -> bool
        ensures { result ≡ has_failed self.now };
}

/// A sink over a writer of `std::io`. Each call is one `write`.
///
/// A write that takes nothing of a piece with bytes is an error of kind `WriteZero`.
#[derive(Drop)]
pub struct Written<W> {
    inner: W,
    has_failed: bool,
}

impl<W: Write> Written<W> {
    /// Returns a sink over this writer. It has not failed.
    pub fn new(inner: W) -> Written<W>
        ensures holds { ⟦<Written<W> as Sink>⟧.taken result ≡ W.contents inner }
        ensures sound { ⟦<Written<W> as Sink>⟧.has_failed result ≡ false }
    {
        Written {
            inner,
            has_failed: false,
        }
    }
}

impl<W: Write> Sink for Written<W> {
    ghost taken = { λ s. W.contents s.inner };

    ghost has_failed = { λ s. s.has_failed };

    fn put(&mut self, bytes: &[u8]) -> io::Result<usize> {
        match self.inner.write(bytes) {
            Ok(n) => {
                if n == 0 && !bytes.is_empty() {
                    self.has_failed = true;
                    return Err(io::Error::from(io::ErrorKind::WriteZero));
                }
                Ok(n)
            }
            Err(e) => {
                self.has_failed = true;
                Err(e)
            }
        }
    }

    fn failed(&self) -> bool {
        self.has_failed
    }
}
