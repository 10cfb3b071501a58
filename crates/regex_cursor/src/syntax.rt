//! Pattern syntax: parsing, what is wrong with a text that doesn't parse, and how heavy patterns
//! are that the size limit refuses.

pub use rc_build::oversize::Oversize;
pub use rc_build::weighing::explain_size;
pub use rc_explain::{Explained, Fault, FaultKind, explain};
pub use rc_parser::{Config, Error, Grammar};
pub use rc_syntax::parse;
