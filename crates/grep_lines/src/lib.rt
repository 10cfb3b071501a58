//! Line selection: the lines of a reader, which of them are selected, and those around them.
#![tactic(auto)]

mod block;
pub mod context;
mod pages;
pub mod parts;
pub mod pieces;
pub mod select;
mod steps;
pub mod touched;

pub use context::{Extent, LinePrinter, PrintError, print_selected};
pub use parts::split_at_line;
pub use pieces::{Begun, LinePieces, begin_line, read_pieces};
pub use select::{LineSelector, Passed, Stretch, next_line, next_selected};
pub use touched::{Touched, print_touched, spans_from};
