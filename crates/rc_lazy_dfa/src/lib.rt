//! Lazy DFA: builds a state when a search reaches it, in a cache that never exceeds its capacity.
//!
//! Take `a+b` over `xaab.`, with four byte classes, so that a row has five cells, one of them for
//! the end. Each cell begins as `UNKNOWN`. The first search makes these steps:
//!
//!     row 0,  [0],     x: to [0], so the cell becomes 0
//!     row 0,  [0],     a: to [2, 0], which becomes row 5
//!     row 5,  [2, 0],  a: to [2, 0], so the cell becomes 5
//!     row 5,  [2, 0],  b: to [4, 0], which becomes row 10
//!     row 10, [4, 0],  .: to [] after a match, row 15 with `MET` and `DEAD`
#![tactic(auto)]

mod cells;
pub mod error;
mod half;
pub mod lazy;
mod letters;
mod rows;
mod search;
mod store;
mod which;
