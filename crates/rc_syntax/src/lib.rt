//! Syntax: parses the text of a pattern by the grammar that is set.
#![tactic(auto)]

pub mod laws;
mod parser;

pub use parser::parse;
