//! Searchers, with finders by hand.
ghost use Rattle.std.specs.Prelude.{IfSome};
ghost use Rattle.rc_text.specs.Text.{Keeps};
ghost use Rattle.rc_program.specs.Matches.{begin_of, end_of};
ghost use Rattle.rc_iter.specs.Finders.{LiesIn, offset_of};

use rc_text::input::high;
use regex_cursor::types::{HalfMatch, Match, MatchError, PatternID, Span};
use regex_cursor::util::iter::Searcher;
use regex_cursor::{Cursor, Input};

/// The empty match where the search begins.
fn here<C: Cursor>(input: &mut Input<C>) -> Option<Match>
    ensures keeps { Keeps input.old input.new }
    ensures within { IfSome result (LiesIn begin_of end_of input.old) }
{
    let start = input.start();
    if start > high(input) {
        return None;
    }
    Some(Match::new(PatternID::ZERO, Span { start, end: start }))
}

/// The end of the empty match where the search starts.
fn half_here<C: Cursor>(input: &mut Input<C>) -> Option<HalfMatch>
    ensures keeps { Keeps input.old input.new }
    ensures within { IfSome result (LiesIn offset_of offset_of input.old) }
{
    let found = here(input)?;
    Some(HalfMatch::new(found.pattern(), found.end()))
}

/// Where the first two empty matches in `abc` lie, by each call in turn, and how many more there are. An empty one where the last one
/// ended isn't given again.
fn empty_matches() -> Result<(Option<Match>, Option<HalfMatch>, usize), MatchError> {
    let mut searcher = Searcher::new(Input::new("abc"));
    let first = searcher.advance(|input| Ok(here(input)))?;
    let second = searcher.try_advance_half(|input| Ok(half_here(input)))?;
    let halves = searcher.into_half_matches_iter(|input| Ok(half_here(input)));
    Ok((first, second, halves.count()))
}

#[test]
fn finders_by_hand(rt: HostRuntime) {
    let first = Match::new(PatternID::ZERO, Span { start: 0, end: 0 });
    let second = HalfMatch::new(PatternID::ZERO, 1);
    assert!(rt; empty_matches() == Ok((Some(first), Some(second), 2)));
}
