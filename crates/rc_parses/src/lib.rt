//! Parse trees: parses of a text by patterns, and what they say of the answers of searches. Each
//! function does nothing: its contract is a law.
#![tactic(auto)]

ghost use Rattle.rc_parses.specs.Laws.{OrderLaw, PreferenceLaw, SamenessLaw};

/// For plain patterns, which repeat nothing that may be empty, a search finds the least parse of
/// the least start that gives a match, with its groups.
pub fn answers_are_least_parses()
    ensures { PreferenceLaw }
{}

/// Parses show what a pattern spells, and are in a strict total order.
pub fn parses_are_ordered()
    ensures { OrderLaw }
{}

/// Two lists of plain patterns that have the same parses in the same order give the same answers,
/// with the same groups.
pub fn same_parses_give_same_answers()
    ensures { SamenessLaw }
{}
