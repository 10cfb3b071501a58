//! The Pike VM: runs all threads over a text at once, in order of preference. Each place is entered
//! once at a position, so for a fixed program a pass is linear in the bytes.
#![tactic(auto)]

mod alone;
pub mod cache;
mod closure;
pub mod early;
mod entrance;
pub mod greatest;
mod growth;
mod heads;
pub mod kinds;
mod longest;
mod moves;
mod pass;
pub mod reach;
pub mod rule;
mod scratch;
pub mod search;
mod sides;
pub mod sparse_set;
mod spot;
mod threads;
pub mod which;
mod window;
