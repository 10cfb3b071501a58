//! Lexer: the tokens of the text of a pattern.
#![tactic(auto)]

pub mod classes;
mod escapes;
mod groups;
pub mod items;
pub mod lexer;
mod lists;
pub mod refusal;
mod text;
pub mod tokens;
