//! NFA states: the places of a program.

use rc_pattern::hir::{ClassBytesRange, ClassUnicodeRange, Look};
use std::mem::size_of;

/// A place of a program: an NFA state. A way out names another place by its index in the program.
#[derive(Drop)]
pub enum Place {
    /// Two ways out, in order of preference, which read nothing.
    Choice(usize, usize),
    /// One way out, which reads nothing: an epsilon transition.
    Pass(usize),
    /// No way out.
    Dead,
    /// One way out, over this byte.
    Byte(u8, usize),
    /// One way out, over one byte of the ranges.
    Bytes(Vec<ClassBytesRange>, usize),
    /// One way out, over the bytes of one scalar of the ranges.
    Scalar(Vec<ClassUnicodeRange>, usize),
    /// One way out, which reads nothing, if the assertion holds.
    Guard(Look, usize),
    /// One way out, which reads nothing, and the slot that is set here.
    Slot(usize, usize),
    /// The match place of a pattern.
    Accept(usize),
}

/// Returns about how many bytes the places and their ranges take, or `usize::MAX` if that is more.
pub(crate) fn bytes_of(places: &[Place]) -> usize {
    let mut bytes = places.len().saturating_mul(size_of::<Place>());
    for place in places {
        bytes = bytes.saturating_add(range_bytes(place));
    }
    bytes
}

/// Returns how many bytes the place's ranges take, or `usize::MAX` if that is more.
fn range_bytes(place: &Place) -> usize {
    match place {
        Place::Bytes(ranges, _) => ranges.len().saturating_mul(size_of::<ClassBytesRange>()),
        Place::Scalar(ranges, _) => ranges.len().saturating_mul(size_of::<ClassUnicodeRange>()),
        _ => 0,
    }
}
