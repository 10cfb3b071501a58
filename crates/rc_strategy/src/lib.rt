//! Meta strategy: picks what searches: literals alone, a DFA, a lazy DFA or the Pike VM.
#![tactic(auto)]

mod at_once;
pub mod cache;
pub mod engines;
mod entries;
pub mod laws;
pub mod lengths;
pub mod list;
mod longest;
mod lookahead;
mod onepass;
mod overlap;
pub mod partial;
mod pass;
mod question;
pub mod reach;
mod route;
mod search;
mod slots;
mod starts;
mod symbols;
mod tables;
mod unpassed;
mod which;
mod words;
