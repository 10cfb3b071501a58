//! Regex search over text in chunks, as an editor's buffer, a gap buffer or a paged file holds it.
//!
//! Nothing is copied or joined. The answer is that of the whole text, wherever it is cut.
#![tactic(auto)]

pub mod cursor;
pub mod engines;
pub mod hir;
pub mod input;
pub mod laws;
pub mod prefilter;
pub mod run;
pub mod syntax;
pub mod thompson;
pub mod types;
pub mod util;

pub use cursor::Cursor;
pub use input::Input;
