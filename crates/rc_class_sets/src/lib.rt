//! Sets of characters or bytes: set operations, properties of Unicode, case folding.
#![tactic(auto)]

pub mod folding;
pub mod perl;
pub mod properties;
pub mod sets;
