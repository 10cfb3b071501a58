//! Idle states: where a DFA search rests, nothing that began earlier is under way.
//!
//! The crate has definitions and lemmas alone.
#![tactic(auto)]

ghost use Rattle.rc_idle.specs.Idle.{IdleLaw};

/// If a DFA search for the preferred match rests, no walk that began before that position ends.
pub fn runs_rest_with_nothing_under_way()
    ensures { IdleLaw }
{}
