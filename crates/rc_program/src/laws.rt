//! Laws of programs and of searches. Each function does nothing: its contract is the law.
ghost use Rattle.rc_program.specs.Answer.{AnswerLaw};
ghost use Rattle.rc_program.specs.Greatest.{GreatestLaw};
ghost use Rattle.rc_program.specs.Heads.{HeadsLaw};
ghost use Rattle.rc_program.specs.Kinds.{KindsLaw};
ghost use Rattle.rc_program.specs.Longest.{LongestLaw};
ghost use Rattle.rc_program.specs.Laws.{ClosedLaw, EntryLaw, GroupLaw, ProgramLaw, PropertyLaw};
ghost use Rattle.rc_program.specs.Matches.{MatchesLaw, PiecesLaw};
ghost use Rattle.rc_program.specs.Scalars.{ScalarLaw};

/// The scalars that begin and end some bytes, as assertions and scalar classes see them, are those
/// of UTF-8.
pub fn scalars_are_utf8()
    ensures { ScalarLaw }
{}

/// Some walk of a pattern leads from one position to another exactly if the pattern spells that
/// span.
pub fn walks_are_spellings()
    ensures { ProgramLaw }
{}

/// If a pattern spells a span, that is no shorter than the pattern's least length and no longer
/// than its greatest. The assertions of its prefix set hold at the start of the span, and those of
/// its suffix set at the end.
pub fn properties_are_sound()
    ensures { PropertyLaw }
{}

/// The function that contracts call the answer agrees with the definition: it gives the first walk
/// of the least start that has a walk and isn't passed over, with its pattern, its span and its
/// slots. It gives nothing exactly if no start gives one.
pub fn answers_are_first_walks()
    ensures { AnswerLaw }
{}

/// A program's edges stay inside it, it is entered at one of its places, and its match places and
/// slots are those of its patterns. If the bounds of each repetition and the ranges of each class
/// are in order, it weighs no more than its patterns, and has no more places than that.
pub fn programs_are_closed()
    ensures { ClosedLaw }
{}

/// If only one pattern's walks count, its entry stands for the root: the first walk from the root
/// is, after choices, the first walk from the entry.
pub fn patterns_have_entries()
    ensures { EntryLaw }
{}

/// The function that contracts call the list of matches agrees with the definition. Each match is
/// the answer from the end of the one before, and an empty one that ends there gives way to the
/// answer from one byte later. The matches rise, lie within the bounds, and are no more than there
/// are positions.
pub fn matches_are_listed()
    ensures { MatchesLaw }
{}

/// There is one more piece than matches, and the two in turn cover the text from its beginning to
/// the end of the search. With a limit there are as many pieces as it allows, and the last one
/// takes in what further matches would cut.
pub fn pieces_are_gaps()
    ensures { PiecesLaw }
{}

/// A pattern without its groups spells the same, with the same least length and no more weight. So
/// a program that names no slot of a group has walks over the same spans.
pub fn groups_can_be_left_out()
    ensures { GroupLaw }
{}

/// The function that contracts call the greatest span agrees with the definition: of the spans that
/// allowed walks spell, the one with the greatest end, then the least start, then the least
/// pattern. It gives nothing exactly if none is spelled. If no answer is passed over, that is
/// exactly if there is no answer. Each answer is a span that is spelled.
pub fn greatest_spans_are_greatest()
    ensures { GreatestLaw }
{}

/// The function that contracts call the longest match agrees with the definition. Of the starts
/// that have a walk and aren't passed over, it takes the least; of the walks from there, the first
/// of those that reach furthest, with its pattern, its span and its slots. It gives nothing exactly
/// if no start gives one. If no match is passed over, it has the start of the preferred match, and
/// ends no earlier.
pub fn longest_matches_are_longest_walks()
    ensures { LongestLaw }
{}

/// The match of each kind is an answer, with the earliest flag on or off. Each answer is a span
/// that is spelled, and an answer is missing exactly if there is no match. The list of a kind's
/// matches is the one of the definition: they rise, lie within the bounds, and are no more than
/// there are positions. Those of `LeftmostFirst` are the answer and the list of matches, and those
/// of `LeftmostLongest` the longest match.
pub fn kinds_have_answers()
    ensures { KindsLaw }
{}

/// If the places that are reached without reading let no walk go on over the byte ahead, no walk
/// begins.
pub fn heads_bar_walks()
    ensures { HeadsLaw }
{}
