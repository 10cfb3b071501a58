//! Build: patterns are parsed, checked and compiled, and given an engine.
#![tactic(auto)]

pub mod build;
pub mod check;
pub mod compile;
pub mod laws;
pub mod limit;
pub mod oversize;
pub mod texts;
pub mod weighing;
