//! Parser: reads the text of a pattern as a `Hir`.
#![tactic(auto)]

pub mod builder;
mod config;
mod error;
pub mod flags;
pub mod names;
pub mod nested;
pub mod parts;
pub mod pieces;
pub mod reader;

pub use config::{Config, Grammar};
pub use error::Error;
pub use reader::{parse, reads_as_one, reads_plain, reads_well_formed};
