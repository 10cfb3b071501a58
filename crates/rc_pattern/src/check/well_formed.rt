//! Well-formedness of a pattern.

ghost use Rattle.std.specs.Prelude.{◌≡◌, ◌↔◌, length, IfOk, IsTrue, map};
ghost use Rattle.std.specs.List.{range_with_len};
ghost use Rattle.rc_pattern.specs.Meaning.{meaning};
ghost use Rattle.rc_pattern.specs.WellFormed.{IsWellFormed};
ghost use Rattle.rc_pattern.specs.Groups.{number_of};

use super::bounds::has_bounds;
use super::captures::push_captures;
use super::depths::is_shallow;
use super::names::are_distinct;
use crate::hir::{Capture, Hir};
use std::alloc::{AllocError, Global};

/// Whether the groups are numbered 1, 2, .. in this order.
fn are_numbered(captures: &[&Capture]) -> bool
    ensures { IsTrue result ↔ (map number_of captures.now
        ≡ range_with_len 1 (length captures.now)) }
{
    for (i, capture) in captures.iter().enumerate() {
        if capture.index != i + 1 {
            return false;
        }
    }
    true
}

/// Whether the pattern is well-formed: its groups are numbered 1, 2, .. in the order of their
/// opening, no name occurs twice, and each `min` is at most its `max`. Each class range ends where
/// it begins or later, and begins above the end of the last one. The pattern is at most 1,024 nodes
/// deep. The depth is checked first, so a pattern of any depth may be passed. An `Err` means out of
/// memory.
pub fn is_well_formed(alloc: Global, hir: &Hir) -> Result<bool, AllocError>
    ensures { IfOk result (λ b. IsTrue b ↔ IsWellFormed (meaning hir.now)) }
{
    if !is_shallow(hir) {
        return Ok(false);
    }
    if !has_bounds(hir) {
        return Ok(false);
    }
    let mut captures = Vec::new(alloc);
    push_captures(&mut captures, hir)?;
    if !are_numbered(&captures) {
        return Ok(false);
    }
    are_distinct(alloc, &captures)
}
