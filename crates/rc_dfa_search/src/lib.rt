//! DFA search: a forward and a reverse search together give a match's span and pattern.
#![tactic(auto)]

pub mod again;
pub mod build;
pub mod first;
pub mod guarded;
pub mod heads;
pub mod here;
pub mod idle;
pub mod laws;
pub mod literals;
mod needles;
pub mod passed;
pub mod reach;
pub mod search;
pub mod undecided;
