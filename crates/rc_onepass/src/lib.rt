//! One-pass DFA: the slots of a match whose span is known, if each byte leaves one way.
#![tactic(auto)]

pub mod closure;
pub mod onepass;
pub mod row;
