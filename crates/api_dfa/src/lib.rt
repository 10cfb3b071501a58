//! DFA front: the engine `engines::dfa` as its users see it, with its builder, its `Regex` and its
//! searches.
//!
//! All states are built before the first search; `rc_dense_dfa` holds them.
#![tactic(auto)]

pub mod builder;
pub mod dfa;
pub mod iterators;
pub mod regex;
pub mod search;
