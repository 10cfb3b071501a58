//! Laws of literal extraction. Each function does nothing: its contract is the law.
ghost use Rattle.rc_literals.specs.Laws.{NeedLaw};
ghost use Rattle.rc_literals.specs.Literals.{LiteralLaw};
ghost use Rattle.rc_literals.specs.Prefixes.{CoverLaw};

/// A literal that isn't empty, and an alternation of such literals, are exactly their needles: the
/// answer is what a search for the needles finds.
pub fn literals_are_exact()
    ensures { LiteralLaw }
{}

/// If needles cover patterns, no walk of their program begins at a position where none of the
/// needles occurs, with their groups or without. If each of a covering list begins with one of some
/// needles, these cover the patterns too.
pub fn covering_needles_guard()
    ensures { CoverLaw }
{}

/// If each match of patterns contains a needle and no byte of a set, a walk of their program begins
/// only where a needle occurs before the next byte of the set, or before the end.
pub fn needles_confine()
    ensures { NeedLaw }
{}
