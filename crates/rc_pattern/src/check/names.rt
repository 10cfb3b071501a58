//! Group name checks.

ghost use Rattle.std.specs.Prelude.{◌↔◌, IfOk, IsTrue, map};
ghost use Rattle.rc_pattern.specs.WellFormed.{AreDistinct};
ghost use Rattle.rc_pattern.specs.Groups.{name_of};

use crate::hir::Capture;
use std::alloc::{AllocError, Global};
use std::collections::BTreeSet;

/// Whether no two groups have one name.
pub(super) fn are_distinct(alloc: Global, captures: &[&Capture]) -> Result<bool, AllocError>
    ensures { IfOk result (λ b. IsTrue b ↔ AreDistinct (map name_of captures.now)) }
{
    let mut seen = BTreeSet::new(alloc);
    for capture in captures {
        if let Some(name) = &capture.name {
            if !seen.insert(name.as_str())? {
                return Ok(false);
            }
        }
    }
    Ok(true)
}
