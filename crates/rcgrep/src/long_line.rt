//! Long lines: whether a line has a match, where it is told piece by piece.
ghost use Rattle.std.specs.Prelude.{◌≡◌, ◌≢◌, ◌<◌, ◌^◌, ℕ, [], IfOk, List, false, length};
ghost use Rattle.std.specs.IoError.{error_kind};
ghost use Rattle.rcgrep.specs.Long.{WasTold};
ghost use Rattle.rcgrep.specs.Picked.{has_match};

use grep_lines::LinePieces;
use regex_cursor::engines::meta::{Finder, Regex};
use std::alloc::{AllocError, Global};
use std::io;
use std::io::ErrorKind;
use stream_search::{FeedError, StreamSearcher};

/// The least number of bytes that are searched at once.
const LEAST: usize = 1 << 18;

/// A line that is told piece by piece, until it has a match. The bytes of the match under way are
/// held.
#[derive(Drop)]
pub struct LongLine<'r> {
    search: StreamSearcher<'r>,
    /// How many bytes are held when they are searched next: four times as many as the last search
    /// left. So what is searched again is a part of the line.
    next: usize,
    /// Whether it has a match.
    is_found: bool,
}

/// The error if a piece of a line can't be searched.
fn error_of(fault: FeedError) -> io::Error
    ensures { error_kind result ≢ ErrorKind.Interrupted }
{
    match fault {
        FeedError::Memory => io::Error::from(ErrorKind::OutOfMemory),
        FeedError::TooLong => io::Error::from(ErrorKind::FileTooLarge),
        FeedError::Finished | FeedError::Limit => io::Error::from(ErrorKind::Other),
    }
}

impl<'r> LongLine<'r> {
    /// Returns a line of which nothing was told. An `Err` means out of memory.
    pub fn new(alloc: Global, regex: &'r Regex) -> Result<LongLine<'r>, AllocError>
        ensures told { IfOk result (λ s. WasTold s []) }
        ensures regex { IfOk result (λ s. s.search.regex ≡ regex.now) }
    {
        let finder = Finder::new(alloc, regex)?;
        Ok(LongLine {
            search: StreamSearcher::new(alloc, finder),
            next: LEAST,
            is_found: false,
        })
    }

    /// Searches the bytes that are held.
    fn search_held(&mut self)
        requires { self.old.is_found ≡ false }
        ensures told { (bytes : List ℕ) → WasTold self.old bytes → WasTold self.new bytes }
        ensures same { self.new.search.regex ≡ self.old.search.regex }
    {
        self.is_found = self.search.next_match().is_some();
        let left = self
            .search
            .stream_len()
            .saturating_sub(self.search.position());
        self.next = left.saturating_mul(4).max(LEAST);
    }

    /// Whether the line has a match. It ends here.
    pub fn finish(&mut self) -> bool
        ensures { (line : List ℕ) → WasTold self.old line → length line < 2 ^ 64
            → result ≡ has_match self.old.search.regex line }
    {
        if self.is_found {
            return true;
        }
        self.search.finish();
        self.search.next_match().is_some()
    }
}

impl LinePieces for LongLine<'_> {
    ghost was_told = { WasTold };

    ghost tests = { λ s. has_match s.search.regex };

    fn take(&mut self, piece: &[u8]) -> io::Result<()> {
        if self.is_found {
            return Ok(());
        }
        match self.search.feed(piece) {
            Ok(()) => {}
            Err(fault) => return Err(error_of(fault)),
        }
        if self.search.kept_len() < self.next {
            return Ok(());
        }
        self.search_held();
        Ok(())
    }
}
