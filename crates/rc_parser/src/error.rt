//! Syntax errors.

pub use rc_pattern::syntax::Error;
