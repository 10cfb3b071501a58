//! Search results as plain numbers, and why there is none.

ghost use Rattle.std.specs.Prelude.{◌≤◌, Some, length};
ghost use Rattle.rc_text.specs.Limits.{most_patterns};
ghost use Rattle.rc_pattern_set.specs.Sets.{Has};
ghost use Rattle.searcher.specs.Places.{AreMarksOf, IsMark};

use rc_captures::captures::Captures;
use rc_pattern_set::sets::PatternSet;
use rc_settings::error::BuildError;
use rc_text::types::{Anchored, Match, PatternID, Span};
use std::alloc::{AllocError, AllocFailed};

/// A match: the number of its pattern, and its span, in bytes of the whole text.
#[repr(C)]
#[derive(Clone, Copy)]
pub struct MatchAt {
    /// The number of the pattern.
    pub pattern: usize,
    /// Where the match begins.
    pub start: usize,
    /// Where it ends, exclusive.
    pub end: usize,
}

/// The span of a group, in bytes of the whole text. Both are the greatest `usize` if the group took
/// no part.
#[repr(C)]
#[derive(Clone, Copy)]
pub struct GroupAt {
    /// Where the group begins.
    pub start: usize,
    /// Where it ends, exclusive.
    pub end: usize,
}

/// Where a text is searched, in bytes of the text, and where its match has to begin.
#[repr(C)]
#[derive(Clone, Copy)]
pub struct Bounds {
    /// Where the search begins.
    pub start: usize,
    /// Where it ends, exclusive.
    pub end: usize,
    /// Whether the match has to begin at `start`: not 0.
    pub anchored: u8,
}

/// Roughly how many bytes the parts of a searcher take.
#[repr(C)]
#[derive(Clone, Copy)]
pub struct MemoryParts {
    /// The patterns.
    pub patterns: usize,
    /// The cache of their searches.
    pub cache: usize,
}

/// A part of a text, whose bytes are handed to a search.
#[derive(Clone, Copy)]
pub struct Window {
    /// Where it begins, in bytes of the text.
    pub start: usize,
    /// Whether the text ends with it.
    pub is_last: bool,
}

/// What a window tells of a search in the whole text. Places are in bytes of the text.
#[derive(Clone, Copy)]
pub enum WindowAnswer {
    /// The match.
    Final(Match),
    /// There is no match.
    NoMatch,
    /// The window ends too early. The search may go on from this place.
    MoreAfter(usize),
    /// The window begins too late.
    MoreBefore,
}

/// Why a search failed.
#[derive(Clone, Copy)]
pub enum Fault {
    /// The number of bytes in the chunks reaches the greatest `usize`.
    TooLong,
    /// The search was to begin behind its end, or behind the end of the text.
    Outside,
}

/// Why a call on a live list failed.
#[derive(Clone, Copy)]
pub enum ListFault {
    /// The searcher keeps no list.
    NoList,
    /// The edit ends before it begins, or behind the end of the list's text.
    Outside,
    /// The number of bytes in the chunks reaches the greatest `usize`.
    TooLong,
    /// The number of bytes in the chunks isn't the one that the edit gives.
    Misfit,
    /// Out of memory. The list is gone.
    Memory,
}

/// Why there is no searcher.
#[derive(Clone, Copy)]
pub enum Refusal {
    /// No kind of match has the number.
    NoKind,
    /// There are more than 2,147,483,647 patterns.
    TooMany,
    /// The pattern with this number isn't UTF-8.
    NotUtf8(usize),
    /// The patterns couldn't be built.
    Build(BuildError),
    /// Out of memory.
    Memory,
}

impl Bounds {
    ghost use Rattle.std.specs.Prelude.{◌≡◌};
    ghost use Rattle.searcher.specs.Ranges.{anchoring};

    /// Whether the match has to begin where the search does.
    pub(crate) fn anchoring(&self) -> Anchored
        ensures { result ≡ anchoring self.now.anchored }
    {
        if self.anchored != 0 {
            Anchored::Yes
        } else {
            Anchored::No
        }
    }
}

impl MatchAt {
    ghost use Rattle.std.specs.Prelude.{◌≡◌};
    ghost use Rattle.searcher.specs.Places.{found_at};

    /// Returns the match as plain numbers.
    pub fn of(found: Match) -> MatchAt
        ensures { found_at result ≡ found }
    {
        MatchAt {
            pattern: found.pattern().as_usize(),
            start: found.start(),
            end: found.end(),
        }
    }
}

impl GroupAt {
    ghost use Rattle.std.specs.Prelude.{◌≡◌};
    ghost use Rattle.searcher.specs.Places.{AreGroups, group_of};

    /// Returns the span as plain numbers.
    fn of(span: Option<Span>) -> GroupAt
        ensures { result ≡ group_of span }
    {
        match span {
            Some(span) => GroupAt {
                start: span.start,
                end: span.end,
            },
            None => GroupAt {
                start: usize::MAX,
                end: usize::MAX,
            },
        }
    }

    /// Writes the groups of the captures, one after another from group 0 on. A group that doesn't
    /// exist took no part.
    pub fn write_all(captures: &Captures, groups: &mut [GroupAt])
        ensures { AreGroups captures.now groups.new }
    {
        for i in 0..groups.len() {
            groups[i] = GroupAt::of(captures.get_group(i));
        }
    }
}

/// Writes for each number whether it is a member of the set: 1 or 0.
pub(crate) fn write_marks(set: &PatternSet, marks: &mut [u8])
    requires { length set.now ≤ most_patterns }
    ensures { AreMarksOf set.now marks.new }
{
    for i in 0..marks.len() {
        marks[i] = mark_of(set, i);
    }
}

/// Whether the number is a member of the set: 1 or 0.
fn mark_of(set: &PatternSet, number: usize) -> u8
    requires { length set.now ≤ most_patterns }
    ensures { IsMark (Has set.now number) (Some result) }
{
    if number < set.capacity() && set.contains(PatternID::must(number)) {
        return 1;
    }
    0
}

impl From<BuildError> for Refusal {
    ghost use Rattle.std.specs.Prelude.{◌≡◌};
    ghost use Rattle.searcher.specs.declared.answers.Refusal.TheVariants.{Build};

    ghost from_gives = { λ e r. r ≡ Build e };

    fn from(error: BuildError) -> Refusal {
        Refusal::Build(error)
    }
}

impl From<AllocError> for Refusal {
    ghost use Rattle.std.specs.Prelude.{◌≡◌};
    ghost use Rattle.searcher.specs.declared.answers.Refusal.TheVariants.{Memory};

    ghost from_gives = { λ _ r. r ≡ Memory };

    fn from(_: AllocError) -> Refusal {
        Refusal::Memory
    }
}

impl<T: Drop> From<AllocFailed<T>> for Refusal {
    ghost use Rattle.std.specs.Prelude.{◌≡◌};
    ghost use Rattle.searcher.specs.declared.answers.Refusal.TheVariants.{Memory};

    ghost from_gives = { λ _ r. r ≡ Memory };

    fn from(_: AllocFailed<T>) -> Refusal {
        Refusal::Memory
    }
}

impl From<AllocError> for ListFault {
    ghost use Rattle.std.specs.Prelude.{◌≡◌};
    ghost use Rattle.searcher.specs.declared.answers.ListFault.TheVariants.{Memory};

    ghost from_gives = { λ _ r. r ≡ Memory };

    fn from(_: AllocError) -> ListFault {
        ListFault::Memory
    }
}
