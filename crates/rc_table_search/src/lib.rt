//! Table search: searches by the cells of a table, forwards or backwards.
#![tactic(auto)]

pub mod again;
pub mod cells;
pub mod inside;
pub(crate) mod over;
pub mod refusal;
pub mod rows;
pub mod run;
pub mod scalars;
pub mod search;
pub mod sides;
pub mod symbols;
pub mod transitions;
pub mod way;
