//! Prefilters: by which literals the searches for some patterns go.
ghost use Rattle.std.specs.Prelude.{◌≡◌, ◌≤◌, All, Bool, IfOk, IfSome, None, Some, false, if◌then◌else◌, length, map, option_map};
ghost use Rattle.rc_text.specs.Limits.{most_patterns};
ghost use Rattle.rc_pattern.specs.Meaning.{meaning};
ghost use Rattle.rc_pattern.specs.WellFormed.{HasBounds};
ghost use Rattle.rc_program.specs.Program.{program, shown};
ghost use Rattle.rc_program.specs.Sought.{Sought, passes_over};
ghost use Rattle.rc_program.specs.Text.{Text};
ghost use Rattle.rc_literals.specs.Literals.{Covers, exact_needles};
ghost use Rattle.rc_needles.specs.Prefilters.{needles_of};
ghost use Rattle.rc_pikevm_search.specs.Choices.{answering, guarding, IsGuard};
ghost use Rattle.rc_pikevm_search.specs.Literals.{MayGoBy};

use crate::literals::Literals;
use rc_literals::exact::exact_needles;
use rc_literals::prefixes::{begins_with_one_of, prefixes};
use rc_needles::prefilter::{Prefilter, copy_of, from_needles};
use rc_pattern::hir::Hir;
use std::alloc::{AllocError, Global};

/// Returns the literals by which searches for these patterns go. `asked` is the caller's own
/// prefilter; if `is_auto` is off, no other is used.
///
/// Patterns each of which is a literal, or an alternation of literals, go by these literals. Other
/// patterns go by a copy of `asked` if each text that they match is known to begin with one of its
/// needles, or else by prefixes of the patterns if these have some of use. `Err` means out of
/// memory.
pub fn choose(
    alloc: Global,
    hirs: &[Hir],
    asked: Option<&Prefilter>,
    is_auto: bool,
) -> Result<Literals, AllocError>
    requires bounds { All HasBounds (map meaning hirs.now) }
    requires patterns { length hirs.now ≤ most_patterns }
    ensures sound { (q : Sought) → q.patterns ≡ map meaning hirs.now
        → IfOk result (MayGoBy (program (shown q.grouped q.patterns)) q.terminator
        (passes_over q)) }
    ensures exact { IfOk result (λ s. answering s
        ≡ (if is_auto then exact_needles (map meaning hirs.now) else None)) }
    ensures asked { is_auto ≡ false
        → IfOk result (λ s. IfSome (guarding s)
        (λ needles. option_map (λ p. needles_of p.now) asked.entry ≡ Some needles)) }
    ensures guards { IfOk result (λ s. answering s ≡ None
        → IsGuard (map meaning hirs.now) (option_map (λ p. needles_of p.now) asked.entry) is_auto
        (guarding s)) }
{
    if is_auto {
        if let Some(needles) = exact_needles(alloc, hirs)? {
            return Ok(Literals::Exact(needles));
        }
    }
    match guard(alloc, hirs, asked, is_auto)? {
        Some(needles) => Ok(Literals::Guarded(needles)),
        None => Ok(Literals::Absent),
    }
}

/// Returns needles with one of which each text of the patterns begins: those asked for, or else the
/// patterns' prefixes.
fn guard(
    alloc: Global,
    hirs: &[Hir],
    asked: Option<&Prefilter>,
    is_auto: bool,
) -> Result<Option<Prefilter>, AllocError>
    ensures covers { IfOk result (λ found. IfSome found
        (λ p. (t : Text) → Covers t (map meaning hirs.now) (needles_of p))) }
    ensures asked { is_auto ≡ false
        → IfOk result (λ found. IfSome found
        (λ p. option_map (λ a. needles_of a.now) asked.entry ≡ Some (needles_of p))) }
    ensures guards { IfOk result (λ found. IsGuard (map meaning hirs.now)
        (option_map (λ a. needles_of a.now) asked.entry) is_auto
        (option_map needles_of found)) }
{
    let Some(prefixes) = prefixes(alloc, hirs)? else {
        return Ok(None);
    };
    if let Some(asked) = asked {
        if begins_with_one_of(&prefixes, asked) {
            return Ok(Some(copy_of(alloc, asked)?));
        }
    }
    if !is_auto {
        return Ok(None);
    }
    from_needles(alloc, prefixes)
}
