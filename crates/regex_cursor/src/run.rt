//! Match output: the program `rcfind`, which writes a line for each match, and helpers that write
//! the bytes of spans.

mod engine;
mod error;
mod line;
mod lines;
mod shell;
mod spans;
mod writers;

pub use engine::run;
pub use error::RunError;
pub use lines::put_all;
pub use shell::program;
pub use spans::put_span;
pub use writers::{Sink, Written};
