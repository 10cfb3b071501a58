//! Gap buffer: a text that is edited at its caret, with the searches that an editor makes.
#![tactic(auto)]

pub mod buffer;
pub mod cursor;
pub mod search;
pub mod typing;

pub use buffer::GapBuffer;
pub use cursor::GapCursor;
