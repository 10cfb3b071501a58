//! Positions in a text, counted in characters.

ghost use Rattle.std.specs.Prelude.{◌≡◌, ◌+◌, ◌≤◌, ◌↔◌, IsTrue, drop, length, List, ℕ, encode_utf8_all};
ghost use Rattle.rc_parser.specs.declared.config.Grammar.{Grammar};
ghost use Rattle.rc_explain.specs.Shown.{HasShape, Stands, byte_of};

use crate::faults::FaultKind;

/// A kind of fault, with the characters at fault.
#[derive(Clone, Copy)]
pub struct Found {
    pub kind: FaultKind,
    /// The number of characters before the first.
    pub start: usize,
    /// The number of characters up to and including the last.
    pub end: usize,
}

impl Found {
    /// The fault in a text with `count` more characters before it.
    pub fn after(self, count: usize) -> Found
        ensures { (grammar : Grammar) (text : List ℕ) → length text ≤ usize.MAX
            → HasShape grammar self.kind (drop count text) self.start self.end
            → HasShape grammar result.kind text result.start result.end }
    {
        Found {
            kind: self.kind,
            start: self.start.saturating_add(count),
            end: self.end.saturating_add(count),
        }
    }
}

/// Whether a character is there.
pub fn is_at(text: &[char], at: usize, c: char) -> bool
    ensures { IsTrue result ↔ Stands text.now at c }
{
    text.get(at).copied() == Some(c)
}

/// The number of characters that end at or before this byte.
pub fn characters_before(text: &[char], byte: usize) -> usize {
    let mut seen: usize = 0;
    for i in 0..text.len() {
        if seen >= byte {
            return i;
        }
        seen = seen.saturating_add(text[i].len_utf8());
    }
    text.len()
}

#[tactic(auto, using(crate::proofs::Bytes::byte_more, crate::proofs::Bytes::byte_within, crate::proofs::Bytes::byte_clamped))]
/// The byte at which the character after the first `count` begins.
pub fn byte_after(text: &[char], count: usize) -> usize
    requires { length (encode_utf8_all text.now) ≤ usize.MAX }
    ensures { result ≡ byte_of text.now count }
{
    let mut seen: usize = 0;
    for i in 0..text.len().min(count) {
        seen += text[i].len_utf8();
    }
    seen
}
