//! Literal extraction: exact, prefix and required literals of patterns, and the bytes that no match
//! contains.
#![tactic(auto)]

pub mod exact;
pub mod guard;
pub mod laws;
pub mod marks;
pub mod needs;
pub mod owned;
pub mod prefixes;
pub mod required;
pub mod search;
pub mod stops;
