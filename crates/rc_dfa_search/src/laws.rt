//! Laws of DFA searches. Each function does nothing: its contract is the law.
ghost use Rattle.rc_dfa_search.specs.Laws.{LastLaw, LeftmostLaw, MetLaw, ReverseEndLaw, ReverseLaw, UnreadLaw};
ghost use Rattle.rc_dfa_search.specs.Rests.{GivenLaw, RestLaw};

/// For leftmost-first and leftmost-longest, the match is from where a search backwards begins to
/// where the search forwards ends.
pub fn halves_give_answers()
    ensures { LeftmostLaw }
{}

/// A search backwards from the upper bound finds the least position from which a match may lead
/// there.
pub fn starts_are_reversed()
    ensures { ReverseLaw }
{}

/// If a DFA search quits, it is at a byte that may not be read. Bytes that were read forwards may
/// be read backwards.
pub fn unread_bytes()
    ensures { UnreadLaw }
{}

/// For every kind, what a search forwards finds is the end of a match, and what a search backwards
/// from there finds is its start.
pub fn ends_have_walks()
    ensures { MetLaw }
{}

/// With `MatchKind::All`, the greatest span is from the least start of a search backwards to the
/// last end of the one forwards.
pub fn last_ends_are_greatest()
    ensures { LastLaw }
{}

/// Forward runs may rest while nothing is under way, and begin anew further on: they find what all
/// starts give.
pub fn runs_may_rest()
    ensures { RestLaw }
{}

/// The match of the least start ends where the starts of a search lead, whichever runs found that,
/// and begins where the search backwards does.
pub fn starts_give_answers()
    ensures { GivenLaw }
{}

/// If each span ends at the upper bound, a search backwards from there finds the leftmost-first
/// match and the leftmost-longest match.
pub fn last_spans_are_reversed()
    ensures { ReverseEndLaw }
{}
