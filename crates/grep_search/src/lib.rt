//! File search of a line filter: prints what the options ask for of files, or of the standard input.
#![tactic(auto)]

mod fault;
mod files;
mod job;
mod pages;
mod prompt;

pub use files::search_all;
