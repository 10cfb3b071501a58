//! Paged search: searches in a file that is read a page at a time.
#![tactic(auto)]

pub mod search;
pub mod step;

pub use search::{FindError, find, find_whole};
pub use step::find_on;
