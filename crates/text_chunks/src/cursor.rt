//! Text cursor: a cursor over the chunks of a prepared text.
ghost use Rattle.std.specs.Prelude.{◌≡◌, ◌+◌, ◌<◌, ◌≤◌, MatchOption, Some, drop, length, take};
ghost use Rattle.rc_text.specs.Joined.{IsChunk, IsLastFilled, IsNextFilled, ShowsAt, chunk_at, joined};
ghost use Rattle.rc_text.specs.Piece.{GoesOn, Shows};

use crate::text::TextChunks;
use rc_text::cursor::Cursor;

/// A cursor over a text. It skips chunks that are empty.
#[derive(Clone, Copy)]
pub struct TextCursor<'t> {
    text: &'t TextChunks<'t>,
    index: usize,
    chunk: &'t [u8],
    offset: usize,
    ghost within: { index ≤ length text.now },
    ghost is_chunk: { IsChunk text.now index offset chunk.now },
    ghost shows: { Shows (joined text.now) offset chunk.now },
}

impl<'t> TextCursor<'t> {
    /// Returns the cursor that shows the chunk with the byte `at`, or the last chunk with a byte if
    /// `at` is the number of bytes; `None` if `at` is above it.
    pub fn at(text: &'t TextChunks<'t>, at: usize) -> Option<TextCursor<'t>>
        ensures { MatchOption result (length (joined text.now) < at)
            (λ c. ShowsAt text.now at
            (⟦<TextCursor<'static> as Cursor>⟧.content c)
            (⟦<TextCursor<'static> as Cursor>⟧.offset c)
            (⟦<TextCursor<'static> as Cursor>⟧.chunk c)) }
    {
        let total = text.len();
        if at > total {
            return None;
        }
        if at == total {
            return Some(TextCursor::last(text));
        }
        let (index, offset) = text.place_of(at);
        Some(TextCursor {
            text,
            index,
            chunk: text.get(index),
            offset,
        })
    }

    /// The cursor that shows the last chunk with a byte, or an empty chunk if there is no byte.
    fn last(text: &'t TextChunks<'t>) -> TextCursor<'t>
        ensures text { result.text ≡ text.entry }
        ensures end { result.offset + length result.chunk.now ≡ length (joined text.now) }
    {
        let total = text.len();
        if total == 0 {
            return TextCursor {
                text,
                index: 0,
                chunk: &[],
                offset: 0,
            };
        }
        let (index, offset) = text.place_of(total - 1);
        TextCursor {
            text,
            index,
            chunk: text.get(index),
            offset,
        }
    }

    /// Goes to the next chunk with a byte, or returns false if there is none.
    fn next(&mut self) -> bool
        ensures text { self.new.text ≡ self.old.text }
        ensures moved { GoesOn result (joined self.old.text.now)
            self.old.offset self.old.chunk.now
            self.new.offset self.new.chunk.now }
    {
        let end = self.offset + self.chunk.len();
        if end == self.text.len() {
            return false;
        }
        let index = next_filled(self.text, self.index + 1);
        *self = TextCursor {
            text: self.text,
            index,
            chunk: self.text.get(index),
            offset: end,
        };
        true
    }
}

impl Cursor for TextCursor<'_> {
    ghost content = { λ s. joined s.text.now };

    ghost chunk = { λ s. s.chunk.now };

    ghost offset = { λ s. s.offset };

    ghost total = { λ s. Some (length (joined s.text.now)) };

    fn chunk(&self) -> &[u8] {
        self.chunk
    }

    fn advance(&mut self) -> bool {
        self.next()
    }

    fn backtrack(&mut self) -> bool {
        if self.offset == 0 {
            return false;
        }
        let index = last_filled(self.text, self.index);
        let chunk = self.text.get(index);
        *self = TextCursor {
            text: self.text,
            index,
            chunk,
            offset: self.offset - chunk.len(),
        };
        true
    }

    fn total_bytes(&self) -> Option<usize> {
        Some(self.text.len())
    }

    fn offset(&self) -> usize {
        self.offset
    }
}

/// The index of the first chunk with a byte, from the index `from` on.
fn next_filled(text: &TextChunks, from: usize) -> usize
    requires { 0 < length (joined (drop from text.now)) }
    ensures { IsNextFilled text.now from result }
{
    let mut index = from;
    while text.get(index).is_empty() {
        index += 1;
    }
    index
}

/// The index of the last chunk with a byte below the index `to`.
fn last_filled(text: &TextChunks, to: usize) -> usize
    requires within { to ≤ length text.now }
    requires some { 0 < length (joined (take to text.now)) }
    ensures { IsLastFilled text.now to result (chunk_at text.now result) }
{
    let mut index = to - 1;
    while text.get(index).is_empty() {
        index -= 1;
    }
    index
}
