//! Slice cursor: a cursor over a slice of any values that contain bytes, and the bytes of a span.
#![tactic(auto)]

pub mod pieces;
pub mod slices;
pub mod spans;
