//! Laws of both grammars. Each function does nothing: its contract is the law.

ghost use Rattle.rc_syntax.specs.Laws.{OneLaw, WellFormedLaw, StatedLaw};

/// Under the same settings no text is read as two patterns.
pub fn reads_as_one()
    ensures { OneLaw }
{}

/// A pattern that is read is well-formed.
pub fn reads_well_formed()
    ensures { WellFormedLaw }
{}

/// Unless the full grammar is set, a text is read exactly as the stated grammar reads it.
pub fn reads_as_stated()
    ensures { StatedLaw }
{}
