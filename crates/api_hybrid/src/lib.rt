//! Lazy DFA front: the engine `engines::hybrid` as its users see it, with its builder, its cache
//! and its searches.
//!
//! States are built while a search runs, in a cache whose memory never passes its capacity;
//! `rc_lazy_dfa` holds them.
#![tactic(auto)]

pub mod builder;
pub mod cache;
mod finder;
pub mod iterators;
mod lazy;
pub mod regex;
pub mod search;
