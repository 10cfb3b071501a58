//! Patterns as trees (`Hir`), with their properties and their checks.
#![tactic(auto)]

pub mod check;
mod drops;
pub mod hir;
pub mod laws;
pub mod syntax;
