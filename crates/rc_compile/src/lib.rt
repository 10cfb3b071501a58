//! NFA compiler: from a list of patterns to its program.
#![tactic(auto)]

pub mod compile;
