//! Law of the weight by what is laid out. The function does nothing: its contract is the law.
ghost use Rattle.rc_weigh.specs.Laws.{LaidLaw};

/// The byte program of patterns has no more places and ways than the patterns weigh, together with
/// the ranges of their program. Without their groups they are no heavier. They are never heavier
/// than by the stated grammar.
pub fn weight_bounds_what_is_laid_out()
    ensures { LaidLaw }
{}
