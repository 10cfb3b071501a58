//! Lists in brackets of the full grammar: how they open, their parts, the classes of items, operators,
//! and lists in lists.
#![tactic(auto)]

pub mod items;
mod levels;
pub mod lists;
pub mod openings;
pub mod parts;
pub mod sides;
