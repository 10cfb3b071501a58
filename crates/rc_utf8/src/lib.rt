//! UTF-8 automata: from a program over characters to a program over bytes with the same walks. Each
//! edge of the byte program reads one byte at most.
#![tactic(auto)]

pub mod laws;
pub mod place;
pub mod program;
