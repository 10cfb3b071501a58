//! Law of literal search. The function does nothing: its contract is the law.
ghost use Rattle.rc_needles.specs.Needles.{NeedleLaw};

/// The needle that is found is the first needle at the least start at which one occurs. None is
/// found exactly if none occurs anywhere.
pub fn needles_are_first()
    ensures { NeedleLaw }
{}
