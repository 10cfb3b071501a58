//! A piece table.
ghost use Rattle.std.specs.Prelude.{◌≤◌, length, slice_range};

use regex_cursor::Input;
use regex_cursor::cursor::{Piece, SliceCursor};
use regex_cursor::engines::meta::Regex;
use regex_cursor::run::RunError;
use regex_cursor::types::Match;
use std::alloc::Global;

/// A part of one of a piece table's buffers.
#[derive(Clone, Copy, Debug)]
pub struct Part<'a> {
    buffer: &'a [u8],
    start: usize,
    end: usize,
    ghost within: { (start ≤ end) × (end ≤ length buffer.now) },
}

impl<'a> Part<'a> {
    /// The bytes of the buffer from one place to another, if it has them.
    pub fn new(buffer: &'a [u8], start: usize, end: usize) -> Option<Part<'a>> {
        if start > end || end > buffer.len() {
            return None;
        }
        Some(Part { buffer, start, end })
    }
}

impl Piece for Part<'_> {
    ghost bytes = { λ s. slice_range s.buffer.now s.start s.end };

    fn bytes(&self) -> &[u8] {
        &self.buffer[self.start..self.end]
    }
}

/// The first match in pieces, one after another.
pub fn first_in_pieces<T: Piece>(
    alloc: Global,
    regex: &Regex,
    pieces: &[T],
) -> Result<Option<Match>, RunError> {
    let input = Input::new(SliceCursor::new(pieces)?);
    let found = regex.find(alloc, input)?;
    Ok(found)
}
