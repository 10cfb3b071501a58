//! Determinization: the subset construction over bytes, one step at a time, forwards and backwards.
//! A state lists the places under way, and no step sees a text.
#![tactic(auto)]

pub mod backward;
pub mod classes;
pub mod forward;
pub mod laws;
pub mod longest;
mod open;
pub mod scratch;
pub mod sides;
mod sparse_set;
pub mod state;
