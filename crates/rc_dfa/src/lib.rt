//! DFA basics: the determinizer that both DFAs run, the set of their states, and the trait of their
//! searches.
#![tactic(auto)]

pub mod automaton;
pub mod ended;
pub mod halves;
pub mod laws;
mod matches;
pub mod memo;
mod past;
mod samples;
pub mod sides;
pub mod states;
pub mod symbols;
