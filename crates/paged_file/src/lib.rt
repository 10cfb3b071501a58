//! Paged files: a file that is read a page at a time, and a cursor that keeps a bounded number of
//! its pages in memory.
#![tactic(auto)]

pub mod cursor;
mod page;
pub mod pages;

pub use cursor::PagedCursor;
pub use pages::{MemoryPages, Pages, ReadFault};
