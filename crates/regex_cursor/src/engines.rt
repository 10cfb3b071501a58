//! Regex engines: the regex that chooses among all, and each engine by itself.

pub mod dfa;
pub mod hybrid;
pub mod meta;
pub mod pikevm;
