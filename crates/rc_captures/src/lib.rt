//! Capture groups: which groups patterns have, their slots, and the captures of a match.
#![tactic(auto)]

pub mod captures;
pub mod groups;
