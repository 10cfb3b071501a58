//! Pattern sets.
#![tactic(auto)]

pub mod sets;
