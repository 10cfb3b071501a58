//! Words: a pattern that is a list of literals between two assertions, and searches that go from
//! literal to literal and ask the assertions on both sides.
#![tactic(auto)]

pub mod laws;
pub mod search;
pub mod words;
