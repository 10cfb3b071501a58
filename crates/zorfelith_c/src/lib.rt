//! C interface: `libzorfelith`, a searcher for callers in C and in whatever calls C.
//! `include/zorfelith.h` declares what is exported here.
//!
//! Each call takes the searcher out of its handle, works, and puts it back. It returns a status;
//! `specs/Statuses.antt` has their numbers.
#![tactic(auto)]

pub mod build;
pub mod escape;
pub mod explain;
pub mod groups;
pub mod handle;
pub mod held;
pub mod held_text;
pub mod live;
mod options;
pub mod replace;
pub mod search;
pub mod status;
pub mod step;
pub mod stream;
pub mod text;
pub mod window;
