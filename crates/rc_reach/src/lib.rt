//! Settled answers: how many bytes tell what a search finds, and what an edit of its text leaves
//! true.
//!
//! The crate has definitions and lemmas alone. `specs/Settled` has the definition that public
//! contracts cite.
#![tactic(auto)]

ghost use Rattle.rc_reach.specs.Fixed.{FixedLaw};
ghost use Rattle.rc_reach.specs.Laws.{LengthLaw, ReachLaw, SliceLaw};
ghost use Rattle.rc_reach.specs.Live.{LiveLaw, TakeUpLaw};
ghost use Rattle.rc_reach.specs.Partial.{PartialLaw};

/// If a search reads below a position alone, the bytes before that position settle its answer.
pub fn reaches_settle_answers()
    ensures { ReachLaw }
{}

/// The slice of a search, its end, and the byte after it settle whatever the search finds.
pub fn slices_settle_answers()
    ensures { SliceLaw }
{}

/// If no pattern is longer than n bytes, n + 4 bytes from its start settle a match, and whether an
/// anchored search has one.
pub fn lengths_settle_answers()
    ensures { LengthLaw }
{}

/// The list of matches after some bytes of a content are replaced: the matches that the bytes
/// before them settle, those found anew, and the rest of the old list, moved.
pub fn lists_are_kept()
    ensures { LiveLaw }
{}

/// A list of matches may be taken up between two matches, and at either end of a stretch in which
/// none begins.
pub fn lists_are_taken_up()
    ensures { TakeUpLaw }
{}

/// The beginning of a content tells some matches of each content that goes on from it.
pub fn beginnings_tell()
    ensures { PartialLaw }
{}

/// How far an answer is settled moves with its match.
pub fn reaches_move()
    ensures { FixedLaw }
{}
