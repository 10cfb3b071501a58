//! Questions: what a search is asked for.
ghost use Rattle.std.specs.Prelude.{◌≡◌};
ghost use Rattle.std.specs.Option.{option_map};
ghost use Rattle.rc_text.specs.Found.{half_of};
ghost use Rattle.rc_strategy.specs.Questions.{at_end};

use rc_text::types::{HalfMatch, Match, Span};

/// What a search is asked for. The reply is a match, of which only that counts.
#[derive(Clone, Copy)]
pub(crate) enum Question {
    /// The match of the kind.
    Match,
    /// The end of that match, and its pattern.
    End,
    /// Whether there is a match.
    Any,
    /// Some match: the search may stop at the first position at which one ends. If matches are
    /// passed over, it is the match of the kind.
    Earliest,
}

impl Question {
    ghost use Rattle.rc_strategy.specs.Questions.{may_stop};

    /// Whether any match is enough.
    #[inline(always)]
    pub(crate) fn may_stop(self) -> bool
        ensures { result ≡ may_stop self }
    {
        match self {
            Question::Match | Question::End => false,
            Question::Any | Question::Earliest => true,
        }
    }
}

/// Returns the empty match at an end, of its pattern.
#[inline(always)]
pub(crate) fn at_end(half: Option<HalfMatch>) -> Option<Match>
    ensures { result ≡ option_map at_end half }
{
    let half = half?;
    let end = half.offset();
    Some(Match::new(half.pattern(), Span { start: end, end }))
}

/// Returns the pattern and the end of a match, if there is one.
pub(crate) fn half_of(found: Option<Match>) -> Option<HalfMatch>
    ensures { result ≡ option_map half_of found }
{
    match found {
        Some(found) => Some(HalfMatch::new(found.pattern(), found.end())),
        None => None,
    }
}
