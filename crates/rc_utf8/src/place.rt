//! NFA states over bytes: the places of a byte program.

use rc_pattern::hir::{ClassBytesRange, Look};

/// A transition of a branch: over one byte of a range, both ends included, to the place of this
/// index.
#[derive(Clone, Copy, Debug, PartialEq, Eq)]
pub struct ByteWay {
    pub first: u8,
    pub last: u8,
    pub next: usize,
}

/// A place of a byte program: an NFA state. A way out names another place by its index in the
/// program.
#[derive(Drop)]
pub enum BytePlace {
    /// Two ways out, in order of preference, which read nothing.
    Choice(usize, usize),
    /// One way out, which reads nothing: an epsilon transition.
    Pass(usize),
    /// No way out.
    Dead,
    /// One way out, over this byte.
    Byte(u8, usize),
    /// One way out, over one byte of the ranges.
    Bytes(Vec<ClassBytesRange>, usize),
    /// A way out over each range of bytes.
    Branch(Vec<ByteWay>),
    /// One way out, which reads nothing, if the assertion holds.
    Guard(Look, usize),
    /// One way out, which reads nothing, and the slot that is set here.
    Slot(usize, usize),
    /// The match place of a pattern.
    Accept(usize),
}
