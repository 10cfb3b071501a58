//! Cursor over a gap buffer: the text before the gap, and the text behind it.
ghost use Rattle.std.specs.Prelude.{◌≡◌, ◌+◌, ◌++◌, ◌<◌, Some, false, if◌then◌else◌, length, true};

use regex_cursor::Cursor;

/// A cursor over the bytes on both sides of a gap.
///
/// It shows the front, then the back. It skips one that is empty, unless both are.
#[derive(Clone, Copy, Debug)]
pub struct GapCursor<'a> {
    front: &'a [u8],
    back: &'a [u8],
    /// Whether the back is shown.
    in_back: bool,
    ghost back_some: { in_back ≡ true → 0 < length back.now },
    ghost front_some: { in_back ≡ false → length front.now ≡ 0 → length back.now ≡ 0 },
}

impl<'a> GapCursor<'a> {
    /// Returns the cursor over these two, at the start of the first one with a byte.
    pub fn new(front: &'a [u8], back: &'a [u8]) -> GapCursor<'a>
        ensures content { ⟦<GapCursor<'static> as Cursor>⟧.content result ≡ front.now ++ back.now }
        ensures start { ⟦<GapCursor<'static> as Cursor>⟧.offset result ≡ 0 }
        ensures total { ⟦<GapCursor<'static> as Cursor>⟧.total result
            ≡ Some (length front.now + length back.now) }
    {
        GapCursor {
            front,
            back,
            in_back: front.is_empty() && !back.is_empty(),
        }
    }
}

impl Cursor for GapCursor<'_> {
    ghost content = { λ s. s.front.now ++ s.back.now };

    ghost chunk = { λ s. if s.in_back then s.back.now else s.front.now };

    ghost offset = { λ s. if s.in_back then length s.front.now else 0 };

    ghost total = { λ s. Some (length s.front.now + length s.back.now) };

    fn chunk(&self) -> &[u8] {
        if self.in_back { self.back } else { self.front }
    }

    fn advance(&mut self) -> bool {
        if self.in_back || self.back.is_empty() {
            return false;
        }
        self.in_back = true;
        true
    }

    fn backtrack(&mut self) -> bool {
        if !self.in_back || self.front.is_empty() {
            return false;
        }
        self.in_back = false;
        true
    }

    fn total_bytes(&self) -> Option<usize> {
        Some(self.front.len() + self.back.len())
    }

    fn offset(&self) -> usize {
        if self.in_back { self.front.len() } else { 0 }
    }
}
