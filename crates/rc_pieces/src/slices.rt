//! Slice cursor: a cursor over a slice of pieces.
ghost use Rattle.std.specs.Prelude.{◌≡◌, ◌+◌, ◌<◌, ◌≤◌, ◌^◌, length, take, drop, Some, MatchOption, MatchResult};
ghost use Rattle.rc_text.specs.Joined.{joined, chunk_at, IsChunk, IsNextFilled, IsLastFilled, IsTooLong, ShowsAt};
ghost use Rattle.rc_text.specs.Piece.{Shows, GoesOn};
ghost use Rattle.rc_text.specs.Refusals.{IsAtError};
ghost use Rattle.rc_pieces.specs.Pieces.{chunks_of};

use crate::pieces::Piece;
use rc_text::chunks::{AtError, TooLong};
use rc_text::cursor::Cursor;
use std::alloc::AllocError;

/// A cursor whose content is the bytes of a slice of pieces, one after another. It skips empty
/// ones.
///
/// Use it instead of `ChunkCursor` for values that aren't a list of slices, such as `Vec<Vec<u8>>`,
/// `[[u8; N]; M]` or `&[String]`. A move looks only at the piece that it goes to and at the empty
/// ones between.
#[derive(Debug)]
pub struct SliceCursor<'a, T: Piece> {
    pieces: &'a [T],
    index: usize,
    chunk: &'a [u8],
    offset: usize,
    total: usize,
    ghost within: { index ≤ length pieces.now },
    ghost counted: { total ≡ length (joined (chunks_of T.bytes pieces.now)) },
    ghost is_chunk: { IsChunk (chunks_of T.bytes pieces.now) index offset chunk.now },
    ghost shows: { Shows (joined (chunks_of T.bytes pieces.now)) offset chunk.now },
}

impl<T: Piece> Clone for SliceCursor<'_, T> {
    ghost is_clone = { λ c d. d ≡ c };

    fn clone(&self) -> Result<Self, AllocError> {
        Ok(*self)
    }
}

impl<T: Piece> Copy for SliceCursor<'_, T> {}

impl<'a, T: Piece> SliceCursor<'a, T> {
    /// Returns the cursor that shows the first piece with a byte, or an empty chunk if there is no
    /// byte.
    ///
    /// Fails if and only if the number of bytes reaches the greatest `usize`.
    pub fn new(pieces: &'a [T]) -> Result<SliceCursor<'a, T>, TooLong>
        ensures { MatchResult result
            (λ c. ShowsAt (chunks_of T.bytes pieces.now) 0
            (⟦<SliceCursor<'static, T> as Cursor>⟧.content c)
            (⟦<SliceCursor<'static, T> as Cursor>⟧.offset c)
            (⟦<SliceCursor<'static, T> as Cursor>⟧.chunk c))
            (λ _. IsTooLong (chunks_of T.bytes pieces.now)) }
    {
        match SliceCursor::at(pieces, 0) {
            Ok(cursor) => Ok(cursor),
            Err(_) => Err(TooLong),
        }
    }

    /// Returns the cursor that shows the piece with the byte `at`, or the last piece with a byte if
    /// `at` is the number of bytes.
    ///
    /// Fails with `TooLong` if the number of bytes reaches the greatest `usize`, and otherwise with
    /// `PastEnd` if `at` is above it.
    pub fn at(pieces: &'a [T], at: usize) -> Result<SliceCursor<'a, T>, AtError>
        ensures { MatchResult result
            (λ c. ShowsAt (chunks_of T.bytes pieces.now) at
            (⟦<SliceCursor<'static, T> as Cursor>⟧.content c)
            (⟦<SliceCursor<'static, T> as Cursor>⟧.offset c)
            (⟦<SliceCursor<'static, T> as Cursor>⟧.chunk c))
            (IsAtError (chunks_of T.bytes pieces.now) at) }
    {
        let Some(total) = total_of(pieces) else {
            return Err(AtError::TooLong);
        };
        if at > total {
            return Err(AtError::PastEnd);
        }
        let mut cursor = SliceCursor::first(pieces, total);
        while at - cursor.offset >= cursor.chunk.len() {
            if !cursor.next() {
                return Ok(cursor);
            }
        }
        Ok(cursor)
    }

    /// The cursor that shows the first piece with a byte.
    fn first(pieces: &'a [T], total: usize) -> SliceCursor<'a, T>
        requires counted { total ≡ length (joined (chunks_of T.bytes pieces.now)) }
        requires small { total + 1 < 2 ^ 64 }
        ensures pieces { result.pieces ≡ pieces.entry }
        ensures offset { result.offset ≡ 0 }
    {
        if total == 0 {
            return SliceCursor {
                pieces,
                index: 0,
                chunk: &[],
                offset: 0,
                total,
            };
        }
        let index = next_filled(pieces, 0);
        let chunk = pieces[index].bytes();
        SliceCursor {
            pieces,
            index,
            chunk,
            offset: 0,
            total,
        }
    }

    /// Goes to the next piece with a byte, or returns false if there is none.
    fn next(&mut self) -> bool
        ensures pieces { self.new.pieces ≡ self.old.pieces }
        ensures total { self.new.total ≡ self.old.total }
        ensures moved { GoesOn result (joined (chunks_of T.bytes self.old.pieces.now))
            self.old.offset self.old.chunk.now
            self.new.offset self.new.chunk.now }
    {
        let end = self.offset + self.chunk.len();
        if end == self.total {
            return false;
        }
        let index = next_filled(self.pieces, self.index + 1);
        let chunk = self.pieces[index].bytes();
        *self = SliceCursor {
            pieces: self.pieces,
            index,
            chunk,
            offset: end,
            total: self.total,
        };
        true
    }
}

impl<T: Piece> Cursor for SliceCursor<'_, T> {
    ghost content = { λ s. joined (chunks_of T.bytes s.pieces.now) };

    ghost chunk = { λ s. s.chunk.now };

    ghost offset = { λ s. s.offset };

    ghost total = { λ s. Some s.total };

    fn chunk(&self) -> &[u8] {
        self.chunk
    }

    fn advance(&mut self) -> bool {
        self.next()
    }

    fn backtrack(&mut self) -> bool {
        if self.offset == 0 {
            return false;
        }
        let index = last_filled(self.pieces, self.index);
        let chunk = self.pieces[index].bytes();
        *self = SliceCursor {
            pieces: self.pieces,
            index,
            chunk,
            offset: self.offset - chunk.len(),
            total: self.total,
        };
        true
    }

    fn total_bytes(&self) -> Option<usize> {
        Some(self.total)
    }

    fn offset(&self) -> usize {
        self.offset
    }
}

/// The number of all bytes, if it is below the greatest `usize`.
fn total_of<T: Piece>(pieces: &[T]) -> Option<usize>
    ensures { MatchOption result (IsTooLong (chunks_of T.bytes pieces.now))
        (λ n. (n ≡ length (joined (chunks_of T.bytes pieces.now))) × (n + 1 < 2 ^ 64)) }
{
    let mut total: usize = 0;
    for piece in pieces {
        match total.checked_add(piece.bytes().len()) {
            Some(sum) => total = sum,
            None => return None,
        }
    }
    if total == usize::MAX {
        None
    } else {
        Some(total)
    }
}

/// The index of the first piece with a byte, from the index `from` on.
fn next_filled<T: Piece>(pieces: &[T], from: usize) -> usize
    requires { 0 < length (joined (drop from (chunks_of T.bytes pieces.now))) }
    ensures { IsNextFilled (chunks_of T.bytes pieces.now) from result }
{
    let mut index = from;
    while pieces[index].bytes().is_empty() {
        index += 1;
    }
    index
}

/// The index of the last piece with a byte below the index `to`.
fn last_filled<T: Piece>(pieces: &[T], to: usize) -> usize
    requires within { to ≤ length pieces.now }
    requires some { 0 < length (joined (take to (chunks_of T.bytes pieces.now))) }
    ensures { IsLastFilled (chunks_of T.bytes pieces.now) to result
        (chunk_at (chunks_of T.bytes pieces.now) result) }
{
    let mut index = to - 1;
    while pieces[index].bytes().is_empty() {
        index -= 1;
    }
    index
}
