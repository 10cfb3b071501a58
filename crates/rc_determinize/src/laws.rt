//! Laws of determinization. The functions do nothing: their contracts are the laws.
ghost use Rattle.rc_determinize.specs.Laws.{ForwardLaw, BackwardLaw, SpanLaw, GatherLaw};
ghost use Rattle.rc_determinize.specs.Sides.{HoldsLaw};
ghost use Rattle.rc_determinize.specs.Classes.{ClassLaw};
ghost use Rattle.rc_determinize.specs.Spans.{GreatestSpanLaw};
ghost use Rattle.rc_determinize.specs.Kinds.{KindLaw, TurnLaw};
ghost use Rattle.rc_determinize.specs.LongestLaws.{LongestForwardLaw, LongestSpanLaw, LongestStepLaw};

/// What a step knows of the two sides of a position decides each assertion there, in broken UTF-8
/// too.
pub fn facts_decide_assertions()
    ensures { HoldsLaw }
{}

/// A search from state to state, a byte at a time, gives where the first walk of the least start
/// ends.
pub fn states_carry_first_walks()
    ensures { ForwardLaw }
{}

/// A search from state to state downwards from an end reports at each position whether a walk leads
/// from there to that end.
pub fn states_tell_starts()
    ensures { BackwardLaw }
{}

/// The end that is found forwards, and the least start that is found backwards from it, are those
/// of the answer.
pub fn ends_and_starts_are_answers()
    ensures { SpanLaw }
{}

/// With `MatchKind::All`, a search from state to state reports at each position whether a walk ends
/// there.
pub fn states_gather_walks()
    ensures { GatherLaw }
{}

/// A step of each kind is the same over bytes that are alike. Its state lists places of the
/// program, each once.
pub fn steps_are_of_a_kind()
    ensures { KindLaw }
{}

/// What a step is told of the side that it leaves changes only what the new state keeps of it.
pub fn steps_turn()
    ensures { TurnLaw }
{}

/// No step distinguishes bytes of one class.
pub fn classes_are_alike()
    ensures { ClassLaw }
{}

/// With `MatchKind::All`, the greatest span ends at the last end that is found forwards. It begins
/// at the least start that is found backwards from there, and is of the first root there.
pub fn last_ends_and_least_starts_are_greatest()
    ensures { GreatestSpanLaw }
{}

/// For leftmost-longest, a search from state to state, a byte at a time, gives where the longest
/// walk of the least start that has one ends.
pub fn states_carry_longest_walks()
    ensures { LongestForwardLaw }
{}

/// For leftmost-longest, the end that is found forwards and the least start that is found backwards
/// from it are the match's.
pub fn ends_and_starts_are_longest()
    ensures { LongestSpanLaw }
{}

/// A step for leftmost-longest is the same over bytes that are alike. Its state lists places of the
/// program, each once, and fewer marks than places.
pub fn steps_part_starts()
    ensures { LongestStepLaw }
{}
