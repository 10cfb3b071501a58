//! Settings of a regex, of each engine and of a program, and build errors.
#![tactic(auto)]

pub mod error;
pub mod meta;
pub mod pikevm;
pub mod states;
pub mod thompson;
pub mod which;
