//! Parser of the full grammar: the marks of which the text of a pattern is made, and what it is read as.
#![tactic(auto)]

pub mod characters;
pub mod laws;
pub mod marks;
mod pieces;
mod reader;

pub use reader::parse;
