//! NFA paths: walks over a graph whose ways out of each pair (place, position) are in order of
//! preference.
//!
//! The crate has definitions and lemmas alone. It knows no pattern, no text and no engine, so its
//! lemmas serve them all.
#![tactic(auto)]

ghost use Rattle.rc_walks.specs.Walks.{FirstWalkLaw};

/// At most one of the walks from some pairs is the first.
pub fn first_walks_are_one()
    ensures { FirstWalkLaw }
{}
