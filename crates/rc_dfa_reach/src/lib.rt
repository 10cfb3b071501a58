//! Reading by DFAs: which bytes a search from state to state looks at, and that it ends alike in
//! each text that has them.
//!
//! The crate has definitions and lemmas alone.
#![tactic(auto)]

ghost use Rattle.rc_dfa_reach.specs.RunReach.{RunReachLaw, TableReachLaw};

/// A DFA search ends alike in each text that has the bytes that it looked at.
pub fn runs_are_local()
    ensures { RunReachLaw }
{}

/// A DFA search ends alike in each search that agrees with its own as far as it looked.
pub fn tables_settle_their_ends()
    ensures { TableReachLaw }
{}
