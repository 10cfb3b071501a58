//! Search types: spans, pattern numbers, matches, anchoring and errors.
ghost use Rattle.std.specs.Prelude.{◌≡◌, ◌+◌, ◌-◌, ◌≤◌, ◌↔◌, IsTrue, SomeIff};

use std::marker::Model;
use std::ops::Range;
use thiserror::Error;

/// A range of positions, in bytes of a content: from `start` on, up to and without `end`.
///
/// `start` may be above `end`. If `start` is at least `end`, the span is empty.
#[derive(Clone, Copy, Debug, PartialEq, Eq, Hash)]
pub struct Span {
    /// Where it begins, in bytes.
    pub start: usize,
    /// Where it ends, in bytes.
    pub end: usize,
}

impl Span {
    /// The number of bytes, which is 0 if `start` is above `end`.
    pub fn len(&self) -> usize
        ensures { result ≡ self.now.end - self.now.start }
    {
        self.end.saturating_sub(self.start)
    }

    /// Whether `start` is at least `end`.
    pub fn is_empty(&self) -> bool
        ensures { IsTrue result ↔ (self.now.end ≤ self.now.start) }
    {
        self.start >= self.end
    }

    /// The range `start..end`.
    pub fn range(&self) -> Range<usize>
        ensures start { result.start ≡ self.now.start }
        ensures end { result.end ≡ self.now.end }
    {
        self.start..self.end
    }
}

/// The greatest number of a pattern.
const MAX_PATTERN: u32 = 2_147_483_646;

/// The number of a pattern in its list, from 0 to 2,147,483,646. Contracts see it as that number.
#[derive(Clone, Copy, Debug, PartialEq, Eq, PartialOrd, Ord, Hash)]
pub struct PatternID {
    index: u32,
}

impl Model for PatternID {
    ghost use Rattle.std.specs.Prelude.{ℕ, ◌≤◌};
    ghost use Rattle.rc_text.specs.declared.types.TheConstants.{MAX_PATTERN};

    ghost Value = { ℕ };

    ghost view = { λ p. p.index };

    ghost invariant = { λ p. p.index ≤ MAX_PATTERN };

    ghost inverse = { λ n. record { index = n } };
}

impl PatternID {
    /// The number of the first pattern.
    pub const ZERO: PatternID = PatternID { index: 0 };

    /// Returns the pattern with this number, or `None` above 2,147,483,646.
    pub fn new(index: usize) -> Option<PatternID>
        ensures { SomeIff result (index ≤ MAX_PATTERN) index }
    {
        if index <= MAX_PATTERN as usize {
            Some(PatternID::must(index))
        } else {
            None
        }
    }

    /// Returns the pattern with this number, which has to be at most 2,147,483,646.
    pub const fn must(index: usize) -> PatternID
        requires { index ≤ MAX_PATTERN }
        ensures { result ≡ index }
    {
        PatternID {
            index: index as u32,
        }
    }

    /// The number, at most 2,147,483,646.
    pub fn as_usize(&self) -> usize
        ensures value { result ≡ self.now }
        ensures small { result ≤ MAX_PATTERN }
    {
        self.index as usize
    }
}

/// The number of the first pattern.
impl Default for PatternID {
    ghost use Rattle.std.specs.Prelude.{◌≡◌};

    ghost is_default = { λ p. p ≡ 0 };

    fn default() -> PatternID {
        PatternID::ZERO
    }
}

/// A match: its pattern and its span, whose start is at most its end.
#[derive(Clone, Copy, Debug, PartialEq, Eq, Hash)]
pub struct Match {
    pattern: PatternID,
    span: Span,
}

impl Model for Match {
    ghost use Rattle.std.specs.Prelude.{◌≤◌};
    ghost use Rattle.rc_text.specs.Found.{Found};

    ghost Value = { Found };

    ghost view = { λ m. record { pattern = m.pattern; start = m.span.start; end = m.span.end } };

    ghost invariant = { λ m. m.span.start ≤ m.span.end };

    ghost inverse = { λ f. record {
      pattern = f.pattern;
      span = record { start = f.start; end = f.end };
    } };
}

impl Match {
    /// Returns the match of a pattern at a span. The start of the span has to be at most its end.
    pub fn new(pattern: PatternID, span: Span) -> Match
        requires { span.start ≤ span.end }
        ensures { result ≡ record { pattern = pattern; start = span.start; end = span.end } }
    {
        Match { pattern, span }
    }

    /// The pattern that matched.
    pub fn pattern(&self) -> PatternID
        ensures value { result ≡ self.now.pattern }
    {
        self.pattern
    }

    /// Where it begins, in bytes: at most where it ends.
    pub fn start(&self) -> usize
        ensures value { result ≡ self.now.start }
        ensures ordered { result ≤ self.now.end }
    {
        self.span.start
    }

    /// Where it ends, in bytes: at least where it begins.
    pub fn end(&self) -> usize
        ensures value { result ≡ self.now.end }
        ensures ordered { self.now.start ≤ result }
    {
        self.span.end
    }

    /// Its span, whose start is at most its end.
    pub fn span(&self) -> Span
        ensures value { result ≡ record { start = self.now.start; end = self.now.end } }
        ensures ordered { result.start ≤ result.end }
    {
        self.span
    }

    /// The number of its bytes.
    pub fn len(&self) -> usize
        ensures { self.now.start + result ≡ self.now.end }
    {
        self.span.len()
    }

    /// Whether it has no byte.
    pub fn is_empty(&self) -> bool
        ensures { IsTrue result ↔ (self.now.start ≡ self.now.end) }
    {
        self.span.is_empty()
    }

    /// The range from where it begins to where it ends.
    pub fn range(&self) -> Range<usize>
        ensures start { result.start ≡ self.now.start }
        ensures end { result.end ≡ self.now.end }
    {
        self.span.range()
    }
}

/// One side of a match: its pattern, and where it ends, or, for a reverse search, where it begins.
#[derive(Clone, Copy, Debug, PartialEq, Eq, Hash)]
pub struct HalfMatch {
    pattern: PatternID,
    offset: usize,
}

impl Model for HalfMatch {
    ghost use Rattle.rc_text.specs.Found.{HalfFound};

    ghost Value = { HalfFound };

    ghost view = { λ m. record { pattern = m.pattern; offset = m.offset } };

    ghost inverse = { λ f. record { pattern = f.pattern; offset = f.offset } };
}

impl HalfMatch {
    /// Returns the half match of a pattern at an offset, in bytes.
    pub fn new(pattern: PatternID, offset: usize) -> HalfMatch
        ensures { result ≡ record { pattern = pattern; offset = offset } }
    {
        HalfMatch { pattern, offset }
    }

    /// The pattern that matched.
    pub fn pattern(&self) -> PatternID
        ensures { result ≡ self.now.pattern }
    {
        self.pattern
    }

    /// Where the match ends, or, for a reverse search, where it begins, in bytes.
    pub fn offset(&self) -> usize
        ensures { result ≡ self.now.offset }
    {
        self.offset
    }
}

/// Where a match may begin, and of which pattern.
#[derive(Clone, Copy, Debug, PartialEq, Eq)]
pub enum Anchored {
    /// Anywhere, of any pattern.
    No,
    /// Where the search begins, of any pattern.
    Yes,
    /// Where the search begins, of this pattern alone.
    Pattern(PatternID),
}

impl Anchored {
    ghost use Rattle.rc_text.specs.Plain.{is_anchored, only_pattern};

    /// Whether a match may begin only where the search does.
    pub fn is_anchored(&self) -> bool
        ensures { result ≡ is_anchored self.now }
    {
        match self {
            Anchored::No => false,
            Anchored::Yes | Anchored::Pattern(_) => true,
        }
    }

    /// The only pattern that may match, or `None` if each may.
    pub fn pattern(&self) -> Option<PatternID>
        ensures { result ≡ only_pattern self.now }
    {
        match self {
            Anchored::No | Anchored::Yes => None,
            Anchored::Pattern(pattern) => Some(*pattern),
        }
    }
}

/// Which match a search returns.
#[derive(Clone, Copy, Debug, PartialEq, Eq)]
pub enum MatchKind {
    /// The match with the greatest end, then the least start, then the first pattern.
    All,
    /// The match with the least start, and of these the one that the pattern prefers.
    LeftmostFirst,
    /// The match with the least start, and of these the longest; of the ways to match that span,
    /// the one that the pattern prefers.
    LeftmostLongest,
}

/// Why a search failed.
#[derive(Clone, Copy, Debug, PartialEq, Eq, Error)]
pub enum MatchError {
    /// The search found a byte that it cannot go past.
    #[error("the search quit at the byte {byte}, at offset {offset}")]
    Quit {
        /// The byte.
        byte: u8,
        /// Where that byte is, in bytes of the content.
        offset: usize,
    },
    /// The search gave up.
    #[error("the search gave up at offset {offset} (out of memory: {memory})")]
    GaveUp {
        /// How far the search came, in bytes of the content.
        offset: usize,
        /// Whether it ran out of memory.
        memory: bool,
    },
}
