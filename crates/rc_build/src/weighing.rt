//! Size diagnostics: weighs patterns that are too large for the limit.

ghost use Rattle.std.specs.Prelude.{◌↔◌, map, All, IfOk, IsTrue, MatchOption};
ghost use Rattle.rc_pattern.specs.Meaning.{meaning};
ghost use Rattle.rc_pattern.specs.WellFormed.{IsWellFormed};
ghost use Rattle.rc_build.specs.Oversized.{IsOversize, IsUnrefused};
ghost use Rattle.rc_build.specs.Refusals.{limit_of};

use crate::limit::capped_weight;
use crate::oversize::Oversize;
use rc_parser::Grammar;
use rc_pattern::check::is_well_formed;
use rc_pattern::hir::Hir;
use std::alloc::{AllocError, Global};

/// Returns the weight of the patterns if a build under this limit, in bytes, fails with
/// `SizeLimit`: they are well-formed, and 32 times their weight by the grammar is above the limit.
///
/// It returns `None` if and only if such a build doesn't fail for the size of the patterns. An
/// `Err` means out of memory.
pub fn explain_size(
    alloc: Global,
    hirs: &[Hir],
    limit: Option<usize>,
    grammar: Grammar,
) -> Result<Option<Oversize>, AllocError>
    ensures { IfOk result (λ found. MatchOption found
        (IsUnrefused (limit_of limit grammar) (map meaning hirs.now))
        (λ oversize. IsOversize (limit_of limit grammar) (map meaning hirs.now)
        oversize)) }
{
    let Some(limit) = limit else {
        return Ok(None);
    };
    if !are_well_formed(alloc, hirs)? {
        return Ok(None);
    }
    let weight = capped_weight(alloc, hirs, grammar)?;
    if 32 * weight > limit as u128 {
        return Ok(Some(Oversize { weight, limit }));
    }
    Ok(None)
}

/// Whether each pattern is well-formed.
fn are_well_formed(alloc: Global, hirs: &[Hir]) -> Result<bool, AllocError>
    ensures { IfOk result (λ b. IsTrue b ↔ All IsWellFormed (map meaning hirs.now)) }
{
    for hir in hirs {
        if !is_well_formed(alloc, hir)? {
            return Ok(false);
        }
    }
    Ok(true)
}
