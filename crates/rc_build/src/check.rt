//! Checks before a build: well-formedness, weight and limits.
ghost use Rattle.std.specs.Prelude.{◌≡◌, ◌≤◌, ◌<◌, ◌^◌, min, length, map, All, IfErr, IfOk};
ghost use Rattle.rc_text.specs.Limits.{most_patterns};
ghost use Rattle.rc_pattern.specs.Meaning.{meaning};
ghost use Rattle.rc_pattern.specs.Weight.{list_weight};
ghost use Rattle.rc_pattern.specs.WellFormed.{IsWellFormed};
ghost use Rattle.rc_build.specs.Refusals.{IsBuildable, IsRefusal};

use crate::limit::{Limit, is_above};
use rc_pattern::check::{capped_list_weight, is_well_formed};
use rc_pattern::hir::Hir;
use rc_settings::error::BuildError;
use rc_text::types::PatternID;
use std::alloc::Global;

/// The greatest weight of patterns that have a program, by the stated grammar.
const GREATEST_WEIGHT: u128 = 2_147_483_646;

/// Checks that the patterns, at most 2,147,483,647 of them, can be built under a limit on 32 times
/// their weight by its grammar.
///
/// The error is the first of these that applies: `IllFormed`, with the first pattern that isn't
/// well-formed; `SizeLimit`, if 32 times the weight by that grammar is above the limit;
/// `PlaceLimit`, if the weight by the stated grammar is above 2,147,483,646. `Memory` may come at
/// any time. The patterns may have any depth and any weight.
pub fn check(alloc: Global, hirs: &[Hir], limit: Limit) -> Result<(), BuildError>
    requires { length hirs.now ≤ most_patterns }
    ensures buildable { IfOk result (λ _. IsBuildable limit (map meaning hirs.now)) }
    ensures refused { IfErr result (λ e. IsRefusal limit (map meaning hirs.now) e) }
{
    check_forms(alloc, hirs, limit)?;
    check_weight(alloc, hirs, limit)
}

/// Checks that each pattern is well-formed.
fn check_forms(alloc: Global, hirs: &[Hir], limit: Limit) -> Result<(), BuildError>
    requires { length hirs.now ≤ most_patterns }
    ensures well_formed { IfOk result (λ _. All IsWellFormed (map meaning hirs.now)) }
    ensures refused { IfErr result (λ e. IsRefusal limit (map meaning hirs.now) e) }
{
    for (i, hir) in hirs.iter().enumerate() {
        if !is_well_formed(alloc, hir)? {
            let pattern = PatternID::new(i).unwrap();
            return Err(BuildError::IllFormed { pattern });
        }
    }
    Ok(())
}

/// Checks that well-formed patterns are light enough.
fn check_weight(alloc: Global, hirs: &[Hir], limit: Limit) -> Result<(), BuildError>
    requires { All IsWellFormed (map meaning hirs.now) }
    ensures buildable { IfOk result (λ _. IsBuildable limit (map meaning hirs.now)) }
    ensures refused { IfErr result (λ e. IsRefusal limit (map meaning hirs.now) e) }
{
    if let Some(bytes) = limit.bytes {
        if is_above(alloc, hirs, limit.grammar, bytes)? {
            return Err(BuildError::SizeLimit { limit: bytes });
        }
    }
    if capped_list_weight(hirs) > GREATEST_WEIGHT {
        return Err(BuildError::PlaceLimit);
    }
    Ok(())
}
