//! Files of a line filter: those that a command line names, and those in folders.
#![tactic(auto)]

mod glob;
mod identity;
mod walk;

pub use glob::fits;
pub use identity::Identity;
pub use walk::{Choice, FoundFile, Walk, WalkError};
