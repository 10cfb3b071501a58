//! What holds of the full grammar.

ghost use Rattle.rc_full_parser.specs.Laws.{PatternsInOneWay, PatternsByMarks, PatternsAreWellFormed, SharedPatternsAlike};

/// No text is read as two patterns.
pub fn patterns_are_one()
    ensures { PatternsInOneWay }
{}

/// A text is read as the pattern to which its marks lead, one after the other.
pub fn patterns_are_read_by_marks()
    ensures { PatternsByMarks }
{}

/// A pattern that is read is well-formed.
pub fn patterns_are_well_formed()
    ensures { PatternsAreWellFormed }
{}

/// A text that both grammars read is read alike by both, if it has no Perl class and no flag `i` or
/// `x`.
pub fn shared_patterns_are_read_alike()
    ensures { SharedPatternsAlike }
{}
