//! Prepared text: chunks with the positions where they begin, edited in place. A search that begins
//! anywhere in it counts nothing.
#![tactic(auto)]

pub mod cursor;
mod pile;
pub mod text;

pub use cursor::TextCursor;
pub use text::{EditFault, TextChunks};
