//! Opening cursor: the first bytes of another cursor's content.
ghost use Rattle.std.specs.Prelude.{◌≡◌, ◌-◌, ◌<◌, ◌≤◌, Some, length, min, take};

use regex_cursor::Cursor;

/// A cursor whose content is the first bytes of another cursor's content. It cuts them as that
/// cursor does.
#[derive(Drop)]
pub(crate) struct Opening<C: Cursor> {
    cursor: C,
    /// How many bytes it has.
    len: usize,
    /// How many bytes of the cursor's chunk it shows.
    shown: usize,
    ghost inside: { len ≤ length (C.content cursor) },
    ghost before: { C.offset cursor < len },
    ghost cut: { shown ≡ min (length (C.chunk cursor)) (len - C.offset cursor) },
}

/// How many bytes of the cursor's chunk lie before `len`.
fn shown_of<C: Cursor>(cursor: &C, len: usize) -> usize
    requires { C.offset cursor.now < len }
    ensures { result ≡ min (length (C.chunk cursor.now)) (len - C.offset cursor.now) }
{
    cursor.chunk().len().min(len - cursor.offset())
}

impl<C: Cursor> Opening<C> {
    /// Returns the first bytes of the cursor's content. Its shown chunk has to begin in them.
    pub(crate) fn new(cursor: C, len: usize) -> Opening<C>
        requires inside { len ≤ length (C.content cursor) }
        requires before { C.offset cursor < len }
        ensures content { ⟦<Opening<C> as Cursor>⟧.content result ≡ take len (C.content cursor) }
        ensures total { ⟦<Opening<C> as Cursor>⟧.total result ≡ Some len }
    {
        let shown = shown_of(&cursor, len);
        Opening { cursor, len, shown }
    }
}

impl<C: Cursor> Cursor for Opening<C> {
    ghost use Rattle.std.specs.Prelude.{◌-◌, Some, false, take};

    ghost content = { λ s. take s.len (C.content s.cursor) };

    ghost chunk = { λ s. take (s.len - C.offset s.cursor) (C.chunk s.cursor) };

    ghost offset = { λ s. C.offset s.cursor };

    ghost total = { λ s. Some s.len };

    ghost is_utf8_aware = { λ _. false };

    fn chunk(&self) -> &[u8] {
        &self.cursor.chunk()[..self.shown]
    }

    fn utf8_aware(&self) -> bool {
        false // its end may split one
    }

    fn advance(&mut self) -> bool {
        if self.shown >= self.len - self.cursor.offset() {
            return false;
        }
        let moved = self.cursor.advance();
        self.shown = shown_of(&self.cursor, self.len);
        moved
    }

    fn backtrack(&mut self) -> bool {
        let moved = self.cursor.backtrack();
        self.shown = shown_of(&self.cursor, self.len);
        moved
    }

    fn total_bytes(&self) -> Option<usize> {
        Some(self.len)
    }

    fn offset(&self) -> usize {
        self.cursor.offset()
    }
}
