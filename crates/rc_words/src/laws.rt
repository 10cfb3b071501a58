//! Laws of words. Each function does nothing: its contract is the law.
ghost use Rattle.rc_words.specs.Laws.{WordLaw};

/// The matches of a pattern that is a list of literals between two assertions are the words. If a
/// word is the only one at the least start of all, it is the leftmost match, whichever alternative
/// is preferred.
pub fn matches_are_words()
    ensures { WordLaw }
{}
