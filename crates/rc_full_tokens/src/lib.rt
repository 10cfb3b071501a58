//! Tokens of the full grammar: white space and comments, names of groups, counts and flags.
#![tactic(auto)]

pub mod counts;
pub mod flags;
pub mod gaps;
pub mod names;
pub mod text;
