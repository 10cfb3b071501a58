//! Laws: the list of matches, and its groups. Each function does nothing: its contract is the law.
ghost use Rattle.rc_pikevm_search.specs.Lists.{LeftLaw};
ghost use Rattle.rc_pikevm_search.specs.Walks.{WalksLaw};

/// Captures of a list of matches hold the groups of walks; these walks are those of the list of
/// matches.
pub fn walks_are_those_of_matches()
    ensures { WalksLaw }
{}

/// The list of matches that is left is the one of the definition, wherever the span starts and
/// whatever match came before. Each match is the answer of its kind from the end of the one before,
/// and an empty one that ends there gives way to the answer from one byte later. No other list is
/// like this. The matches rise, lie within the bounds, and are no more than there are positions.
pub fn lists_go_on()
    ensures { LeftLaw }
{}
