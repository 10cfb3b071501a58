//! Pike VM front: the engine `engines::pikevm` as its users see it, with its builder, its cache and
//! its searches.
//!
//! `rc_pikevm` is the engine itself.
#![tactic(auto)]

pub mod builder;
pub mod cache;
pub mod iterators;
pub mod reach;
pub mod search;
pub mod vm;
