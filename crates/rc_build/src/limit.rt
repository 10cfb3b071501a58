//! Size limits: how heavy patterns may be, by the grammar that weighs them.

ghost use Rattle.std.specs.Prelude.{◌≡◌, ◌↔◌, ◌<◌, ◌^◌, All, IfOk, IsTrue, map, min};
ghost use Rattle.rc_pattern.specs.Meaning.{meaning};
ghost use Rattle.rc_pattern.specs.WellFormed.{IsWellFormed};
ghost use Rattle.rc_build.specs.Refusals.{size_of, weight_by};

use rc_parser::Grammar;
use rc_pattern::check::capped_list_weight;
use rc_pattern::hir::Hir;
use rc_weigh::weight::capped_laid_weight;
use std::alloc::{AllocError, Global};

/// A limit on the size of patterns, which is 32 times their weight.
#[derive(Clone, Copy, Debug)]
pub struct Limit {
    /// The limit in bytes, or `None` for no limit.
    pub bytes: Option<usize>,
    /// The grammar that weighs the patterns.
    pub grammar: Grammar,
}

/// Returns the weight of well-formed patterns by the grammar, or 2 to the power of 64 if it is
/// above that.
///
/// By the full grammar the patterns weigh what is laid out for them. `Err` means out of memory.
pub fn capped_weight(alloc: Global, hirs: &[Hir], grammar: Grammar) -> Result<u128, AllocError>
    requires { All IsWellFormed (map meaning hirs.now) }
    ensures { IfOk result (λ w. w ≡ min (weight_by grammar (map meaning hirs.now)) (2 ^ 64)) }
{
    match grammar {
        Grammar::Stated => Ok(capped_list_weight(hirs)),
        Grammar::Full => capped_laid_weight(alloc, hirs),
    }
}

/// Whether the size of well-formed patterns by the grammar is above so many bytes.
///
/// Patterns are never heavier than by the stated grammar, so only those that are too heavy by that
/// one are weighed by the full one. `Err` means out of memory.
#[tactic(auto, using(crate::proofs::LimitLemmas::never_heavier))]
pub fn is_above(
    alloc: Global,
    hirs: &[Hir],
    grammar: Grammar,
    bytes: usize,
) -> Result<bool, AllocError>
    requires { All IsWellFormed (map meaning hirs.now) }
    ensures { IfOk result (λ b. IsTrue b ↔ (bytes < size_of grammar (map meaning hirs.now))) }
{
    if 32 * capped_list_weight(hirs) <= bytes as u128 {
        return Ok(false);
    }
    let weight = capped_weight(alloc, hirs, grammar)?;
    Ok(32 * weight > bytes as u128)
}
