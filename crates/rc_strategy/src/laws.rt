//! Law of narrowing: a search of a match's span gives the match's groups. The function does
//! nothing: its contract is the law.
ghost use Rattle.rc_strategy.specs.Narrow.{NarrowLaw};

/// Over the span of a search's match, a search for that match's pattern alone finds the same walk,
/// with the same groups.
pub fn narrowed_searches_answer_alike()
    ensures { NarrowLaw }
{}
