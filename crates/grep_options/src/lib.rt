//! Command-line options of programs: a table of options for each, what a command line gives, and the
//! texts that are made of the table.
#![tactic(auto)]

mod faults;
pub mod filter;
mod fixed;
mod help;
mod program;
mod rcgrep;
mod rcsub;
mod read;
mod table;

pub use faults::{put_usage, put_words_fault};
pub use fixed::escaped;
pub use help::{put_help, put_text};
pub use program::{FAULT, lent, words_of};
pub use rcgrep::{OPTIONS, RCGREP};
pub use rcsub::{RCSUB, SUB_OPTIONS};
pub use read::{Given, WordsError, nearest, read_words};
pub use table::{Entry, Id, Program, Section, Takes};
