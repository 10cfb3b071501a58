//! Backtracking oracle: a plain engine that tries the walks of a program in their order.
//!
//! No search uses it. Tests compare its answers with those of the other engines.
#![tactic(auto)]

mod frames;
pub mod walker;
mod ways;
