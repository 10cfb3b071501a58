//! Entry: a match of a list, with how many bytes settle it; and an edit of its text.
ghost use Rattle.std.specs.Prelude.{◌≡◌, ◌+◌, ◌-◌, ◌<◌, ◌≤◌, ◌^◌, IsTrue, min};
ghost use Rattle.live_matches.specs.Entries.{is_open, mirror, moved_with, reach_of};

use regex_cursor::types::{Match, PatternID, Span};
use std::marker::Model;

/// A match of a list. The bytes before its end settle it, with so many after its end. Contracts see
/// it as the match and that number.
#[derive(Clone, Copy, Debug, PartialEq, Eq)]
pub struct Entry {
    span: Span,
    pattern: PatternID,
    /// The number of bytes after its end. The greatest number stands for all that aren't less.
    ahead: u32,
}

impl Model for Entry {
    ghost use Rattle.std.specs.Prelude.{◌≡◌, ◌<◌, ◌≤◌, ◌^◌};
    ghost use Rattle.live_matches.specs.Entry.{Entry as an_entry, ahead_of, stored_ahead};
    ghost use Rattle.std.proofs.Common.{ap, arith, ◌∙◌, ⊎_elim, if◌then◌else◌};
    ghost use Rattle.std.proofs.lemmas.Bool.{cases_lt, le-ltb, lt-ltb};

    ghost Value = { an_entry };

    ghost view = { λ e. record {
      found = record { pattern = e.pattern; start = e.span.start; end = e.span.end };
      ahead = ahead_of e.ahead;
    } };

    ghost invariant = { λ e. (e.span.start ≤ e.span.end) × (e.ahead < 2 ^ 32) };

    ghost inverse = { λ v. record {
      span = record { start = v.found.start; end = v.found.end };
      pattern = v.found.pattern;
      ahead = stored_ahead v.ahead;
    } };

    ghost inverse_ok = { λ e h i.
        let again : stored_ahead (ahead_of e.ahead) ≡ e.ahead = ⊎_elim
        (λ less. ap (λ b. stored_ahead (if b then e.ahead else 18446744073709551615))
        (lt-ltb e.ahead 4294967295 less) ∙ omega (arith, less))
        (λ more. ap (λ b. stored_ahead (if b then e.ahead else 18446744073709551615))
        (le-ltb e.ahead 4294967295 more) ∙ omega (arith, more, h.1))
        (cases_lt e.ahead 4294967295) in
        record { span = e.span; pattern = e.pattern; ahead = again i } };
}

/// An edit of a text: the bytes of a span are replaced by others.
#[derive(Clone, Copy, Debug, PartialEq, Eq)]
pub struct Edit {
    /// The span that is replaced, in bytes of the text before the edit.
    pub replaced: Span,
    /// The number of bytes that replace it.
    pub inserted: usize,
}

/// What an edit of its text changed in a list of matches.
#[derive(Clone, Copy, Debug, PartialEq, Eq)]
pub struct Changed {
    /// The number of matches before those that changed. They stay as they are.
    pub first: usize,
    /// The number of matches of the old list that went, from `first` on.
    pub dropped: usize,
    /// The number of matches that came in their place. Those after them moved with the text.
    pub added: usize,
    /// The span to draw anew, in bytes of the text as it is now. It has the bytes that were
    /// inserted. The matches outside it are those of the old list.
    pub span: Span,
}

/// The entry of a match that so many bytes settle.
pub fn entry_of(found: Match, reach: usize) -> Entry
    requires { found.end ≤ reach }
    ensures found { result.found ≡ found }
    ensures reach { reach ≤ reach_of result }
    ensures exact { reach < found.end + 4294967295 → reach_of result ≡ reach }
{
    Entry {
        span: found.span(),
        pattern: found.pattern(),
        ahead: u32::try_from(reach - found.end()).unwrap_or(u32::MAX),
    }
}

impl Entry {
    /// The match.
    pub fn found(&self) -> Match
        ensures value { result ≡ self.now.found }
    {
        Match::new(self.pattern, self.span)
    }

    /// Where the match begins, in bytes: at most where it ends.
    pub fn start(&self) -> usize
        ensures value { result ≡ self.now.found.start }
        ensures ordered { result ≤ self.now.found.end }
    {
        self.span.start
    }

    /// Where the match ends, in bytes: at least where it begins.
    pub fn end(&self) -> usize
        ensures value { result ≡ self.now.found.end }
        ensures ordered { self.now.found.start ≤ result }
    {
        self.span.end
    }

    /// How many bytes after its end settle it. The greatest `usize` stands for all that a text may
    /// have.
    fn ahead(&self) -> usize
        ensures { result ≡ self.now.ahead }
    {
        if self.ahead == u32::MAX {
            return usize::MAX;
        }
        self.ahead as usize
    }

    /// How many bytes settle it, or the greatest `usize` if they are more than that.
    pub fn reach(&self) -> usize
        ensures { result ≡ min (reach_of self.now) usize.MAX }
    {
        self.span.end.saturating_add(self.ahead())
    }

    /// Whether more bytes settle it than a text of `len` bytes has.
    pub fn is_open(&self, len: usize) -> bool
        ensures { result ≡ is_open len self.now }
    {
        match self.span.end.checked_add(self.ahead()) {
            Some(reach) => len < reach,
            None => true,
        }
    }

    /// The entry with its places counted from the other end of a text of `len` bytes.
    pub fn mirrored(&self, len: usize) -> Entry
        ensures entry { result ≡ mirror len self.now }
        ensures ordered { self.now.found.start ≤ self.now.found.end }
    {
        let span = Span {
            start: len.saturating_sub(self.span.end),
            end: len.saturating_sub(self.span.start),
        };
        Entry { span, ..*self }
    }

    /// The entry in the text after an edit before it.
    pub fn moved(&self, edit: Edit) -> Entry
        ensures entry { self.now.found.end - (edit.replaced.end - edit.replaced.start)
            + edit.inserted < 2 ^ 64 → result ≡ moved_with edit self.now }
        ensures ordered { self.now.found.start ≤ self.now.found.end }
    {
        let removed = edit.replaced.len();
        let start = self.span.start.saturating_sub(removed);
        let end = self.span.end.saturating_sub(removed);
        let span = Span {
            start: start.saturating_add(edit.inserted),
            end: end.saturating_add(edit.inserted),
        };
        Entry { span, ..*self }
    }

    /// Whether the two are the same match, and as many bytes settle them.
    pub fn is_same(&self, other: &Entry) -> bool
        ensures { IsTrue result → self.now ≡ other.now }
    {
        self.pattern == other.pattern
            && self.span.start == other.span.start
            && self.span.end == other.span.end
            && self.ahead == other.ahead
    }
}
