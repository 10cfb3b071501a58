//! Names of classes: POSIX classes, and properties of Unicode with their values.
#![tactic(auto)]

pub mod posix;
pub mod properties;
