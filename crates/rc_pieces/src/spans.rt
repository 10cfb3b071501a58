//! Span bytes: the bytes of a span, chunk by chunk.
ghost use Rattle.std.specs.Prelude.{◌≡◌, ◌+◌, ◌<◌, ◌≤◌, ◌++◌, ◌↔◌, [], IsTrue, length, max, slice_range};
ghost use Rattle.rc_text.specs.Piece.{Shows};

use rc_text::cursor::Cursor;
use rc_text::types::Span;
use std::marker::Model;

/// The bytes of a span, a piece of a chunk after another. They are borrowed, and nothing is copied.
///
/// A span that ends past the content ends with it.
#[derive(Drop)]
pub struct SpanPieces<C: Cursor> {
    cursor: C,
    /// Where the shown piece begins, and where it ends, in bytes of the content.
    start: usize,
    next: usize,
    /// Where the span ends.
    end: usize,
}

impl<C: Cursor> Model for SpanPieces<C> {
    ghost use Rattle.std.specs.Prelude.{◌+◌, ◌≤◌, length, slice_range};
    ghost use Rattle.rc_text.specs.Piece.{Shows};
    ghost use Rattle.rc_pieces.specs.Pieces.{Spanned};

    ghost Value = { Spanned };

    ghost view = { λ s. record {
      shown = slice_range (C.content s.cursor) s.start s.next;
      left = slice_range (C.content s.cursor) s.next s.end;
    } };

    ghost invariant = { λ s. (C.offset s.cursor ≤ s.start) × (s.start ≤ s.next)
        × (s.next ≤ C.offset s.cursor + length (C.chunk s.cursor))
        × Shows (C.content s.cursor) (C.offset s.cursor) (C.chunk s.cursor) };
}

impl<C: Cursor> SpanPieces<C> {
    /// Returns the bytes of a span of the cursor's content. None of them is shown yet.
    pub fn new(mut cursor: C, span: Span) -> SpanPieces<C>
        ensures shown { result.shown ≡ [] }
        ensures left { result.left ≡ slice_range (C.content cursor) span.start span.end }
    {
        seek(&mut cursor, span.start);
        let start = span.start.min(cursor.offset() + cursor.chunk().len());
        SpanPieces {
            cursor,
            start,
            next: start,
            end: span.end,
        }
    }

    /// Goes to the next piece, which has a byte, or returns false if no byte is left.
    pub fn advance(&mut self) -> bool
        ensures goes_on { self.old.left ≡ self.new.shown ++ self.new.left }
        ensures some { IsTrue result ↔ 0 < length self.new.shown }
        ensures end { IsTrue result ↔ 0 < length self.old.left }
    {
        seek(&mut self.cursor, self.next);
        let len = piece(&self.cursor, self.next, self.end).len();
        self.start = self.next;
        self.next += len;
        len > 0
    }

    /// The bytes of the shown piece: none before the first `advance`.
    pub fn piece(&self) -> &[u8]
        ensures { result.now ≡ self.now.shown }
    {
        piece(&self.cursor, self.start, self.next)
    }
}

/// Goes to the chunk with the byte `at`, or to the last one if there is no such byte.
pub fn seek<C: Cursor>(cursor: &mut C, at: usize)
    ensures content { C.content cursor.new ≡ C.content cursor.old }
    ensures shows { Shows (C.content cursor.new) (C.offset cursor.new) (C.chunk cursor.new) }
    ensures low { C.offset cursor.new ≤ at }
    ensures there { at < length (C.content cursor.new)
        → at < C.offset cursor.new + length (C.chunk cursor.new) }
    ensures end { length (C.content cursor.new) ≤ at
        → C.offset cursor.new + length (C.chunk cursor.new) ≡ length (C.content cursor.new) }
{
    while at < cursor.offset() {
        if !cursor.backtrack() {
            return;
        }
    }
    while at - cursor.offset() >= cursor.chunk().len() {
        if !cursor.advance() {
            return;
        }
    }
}

/// The bytes of the shown chunk from the position `at` in the content on, up to `end`. It is empty
/// only if there are none.
pub fn piece<C: Cursor>(cursor: &C, at: usize, end: usize) -> &[u8]
    requires { C.offset cursor.now ≤ at }
    ensures bytes { result.now ≡ slice_range (C.content cursor.now) at (at + length result.now) }
    ensures within { at + length result.now ≤ max at end }
    ensures some { at < end → at < C.offset cursor.now + length (C.chunk cursor.now)
        → 0 < length result.now }
    ensures whole { end ≤ C.offset cursor.now + length (C.chunk cursor.now) → at ≤ end
        → at + length result.now ≡ end }
    ensures inside { at ≤ C.offset cursor.now + length (C.chunk cursor.now)
        → at + length result.now ≤ C.offset cursor.now + length (C.chunk cursor.now) }
{
    let offset = cursor.offset();
    let chunk = cursor.chunk();
    let from = (at - offset).min(chunk.len());
    let to = end.saturating_sub(offset).min(chunk.len()).max(from);
    &chunk[from..to]
}
