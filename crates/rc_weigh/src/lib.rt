//! Weight of patterns by what is laid out for them.
#![tactic(auto)]

pub mod laws;
pub mod weight;
