//! DFA: all states that a search can reach, built in a table before the first search.
//!
//! Take `a+b`, forwards and unanchored. The bytes below `a`, `a`, `b` and those above `b` are the
//! four classes, so a row has four cells. A row is named by the index of its first cell.
//!
//!     row  state   below a   a   b  above b
//!       4  [0]           4  16   4        4  most bytes of texts stay among rows 4 and 16,
//!      16  [2, 0]        4  16  24        4  so cells that lead there have `SKIP` too
//!      24  [4, 0]       32  32  32       32  with `MET` and `DEAD`: a match, then nothing
//!
//! From row 4, a search of `xaab.` reads the cells 4, 16, 16, 24 and 32: a match ends at 4.
#![tactic(auto)]

mod build;
pub mod dense;
pub mod error;
pub mod exits;
pub mod leaps;
mod look;
mod maker;
mod marks;
mod names;
mod rows;
mod search;
mod start;
pub mod table;
