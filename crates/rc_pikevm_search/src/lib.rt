//! The Pike VM with its literals: searches for one match, with its groups, and for the next match
//! of a list.
#![tactic(auto)]

pub mod choice;
pub mod engine;
pub mod laws;
pub mod lists;
pub mod literals;
