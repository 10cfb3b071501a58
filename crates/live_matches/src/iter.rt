//! Iterator over the matches of a list.

use crate::live::LiveMatches;
use regex_cursor::types::Match;
use std::iter::FusedIterator;

/// An iterator over the matches of a list, or over some of them, in order. It takes no memory.
#[derive(Clone, Copy)]
pub struct LiveMatchesIter<'a> {
    live: &'a LiveMatches,
    /// The index of the next match.
    next: usize,
    /// The index behind the last match.
    end: usize,
}

impl<'a> LiveMatchesIter<'a> {
    ghost use Rattle.std.specs.Prelude.{◌≡◌, ◌-◌, drop, take};
    ghost use Rattle.live_matches.specs.Live.{listed};
    ghost use Rattle.live_matches.specs.Reading.{matches_left};

    /// Returns an iterator over the matches from the index `next` on, and before the index `end`.
    pub(crate) fn new(live: &'a LiveMatches, next: usize, end: usize) -> LiveMatchesIter<'a>
        ensures { matches_left result ≡ take (end - next) (drop next (listed live.now)) }
    {
        LiveMatchesIter { live, next, end }
    }
}

impl<'a> Iterator for LiveMatchesIter<'a> {
    ghost use Rattle.std.specs.Iterator.{YieldsFirst, item_count};
    ghost use Rattle.live_matches.specs.Reading.{matches_left};

    type Item = Match;

    ghost next_gives = { YieldsFirst matches_left };

    ghost remaining = { item_count matches_left };

    fn next(&mut self) -> Option<Match> {
        if self.next >= self.end {
            return None;
        }
        let found = self.live.get(self.next)?;
        self.next += 1;
        Some(found)
    }
}

impl<'a> FusedIterator for LiveMatchesIter<'a> {}
