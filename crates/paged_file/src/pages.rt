//! Page readers: what a paged file asks of its source.
ghost use Rattle.std.specs.Prelude.{◌≡◌, ◌+◌, ◌<◌, ◌^◌, MatchResult, false, length, min, take, true};
ghost use Rattle.paged_file.specs.Stored.{Fails, Gives, Stored, cut};

use thiserror::Error;

/// A page couldn't be read.
#[derive(Clone, Copy, Debug, PartialEq, Eq, Error)]
#[error("the file can't be read at {offset}")]
pub struct ReadFault {
    /// The first position that couldn't be read, in bytes of the file.
    pub offset: usize,
}

/// A file that is read a page at a time, in any order and any number of times.
///
/// What can be read never changes: all bytes of the file, or those before the first position that
/// can't be read. It has fewer bytes than the greatest `usize`. So a page that was read has the
/// same bytes when it is read again, and a page that couldn't be read never can. The clauses of
/// `read` say all this, so it is proved of each implementation.
pub trait Pages {
    /// What can be read, and whether this is the whole file.
    ghost stored: { Self → Stored };

    /// Reads the page that begins at a position, into a buffer of at least one byte, and returns
    /// the number of bytes read.
    ///
    /// It fills the buffer unless fewer bytes can be read from that position on. It returns 0 if
    /// the file ends at the position or before it, and an `Err` if the file goes on there and can't
    /// be read; the buffer is unspecified then.
    fn read(&mut self, at: usize, page: &mut [u8]) -> Result<usize, ReadFault>
        requires room { 0 < length page.old }
        ensures stored { stored self.new ≡ stored self.old }
        ensures small { length (stored self.old).bytes + 1 < 2 ^ 64 }
        ensures gives { MatchResult result (Gives (stored self.old) at page.new)
            (Fails (stored self.old) at) };
}

/// Bytes in memory, read as a file is.
#[derive(Clone, Copy, Debug)]
pub struct MemoryPages<'a> {
    /// Those that can be read.
    bytes: &'a [u8],
    is_whole: bool,
}

impl<'a> MemoryPages<'a> {
    /// A file of these bytes.
    pub fn new(bytes: &'a [u8]) -> MemoryPages<'a>
        ensures { ⟦<MemoryPages<'static> as Pages>⟧.stored result
            ≡ record { bytes = bytes.now; is_whole = true } }
    {
        MemoryPages {
            bytes,
            is_whole: true,
        }
    }

    /// Returns a file of these bytes that can't be read from a position on. If the position is past
    /// the end, all of it can be read.
    pub fn failing(bytes: &'a [u8], at: usize) -> MemoryPages<'a>
        ensures { ⟦<MemoryPages<'static> as Pages>⟧.stored result ≡ cut bytes.now at }
    {
        match bytes.get(..at) {
            Some(bytes) => MemoryPages {
                bytes,
                is_whole: false,
            },
            None => MemoryPages::new(bytes),
        }
    }
}

impl Pages for MemoryPages<'_> {
    ghost stored = { λ s. record { bytes = s.bytes.now; is_whole = s.is_whole } };

    fn read(&mut self, at: usize, page: &mut [u8]) -> Result<usize, ReadFault> {
        let len = self.bytes.len();
        let rest = &self.bytes[at.min(len)..];
        if rest.is_empty() && !self.is_whole {
            return Err(ReadFault { offset: len });
        }
        let count = rest.len().min(page.len());
        page[..count].copy_from_slice(&rest[..count]);
        Ok(count)
    }
}
