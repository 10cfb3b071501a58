//! Trails: walks over a graph that may end anywhere, and how far another graph has to agree so that
//! it has the same first walk.
//!
//! The crate has definitions and lemmas alone, as `rc_walks` has.
#![tactic(auto)]

ghost use Rattle.rc_trails.specs.Limits.{LimitLaw};
ghost use Rattle.rc_trails.specs.Trails.{TrailLaw};

/// A graph that agrees with another one wherever the trails of that one lead has the same first
/// walk. Of the trails only those count that come no later than the first walk.
pub fn trails_decide_walks()
    ensures { TrailLaw }
{}

/// What a search has seen is told by what it would have found if walks might also end out of reach.
pub fn limits_tell_what_was_seen()
    ensures { LimitLaw }
{}
