//! Whole lists: what stands behind a `[` up to its `]`.

ghost use Rattle.std.specs.Prelude.{◌≡◌, ◌⊎◌, ◌≤◌, ℕ, MatchResult};
ghost use Rattle.rc_tokens.specs.Text.{Characters};
ghost use Rattle.rc_tokens.specs.ClassView.{pairs};
ghost use Rattle.rc_tokens.specs.declared.refusal.Refusal.TheVariants.{Memory};
ghost use Rattle.rc_class_sets.specs.Sets.{CodeSet, AreRangesOf};
ghost use Rattle.rc_full_lists.specs.Lists.{IsList};
ghost use Rattle.rc_full_lists.specs.Laws.{ListsInOneWay, ListsHaveTheirItems, ListsStayFolded};

use crate::levels::{Levels, Step};
use crate::openings::opening;
use crate::parts::{Settings, first_part, passed};
use rc_tokens::classes::CodeRange;
use rc_tokens::refusal::Refusal;
use std::alloc::Global;

/// The list behind a `[`: its class, how deep it is nested, and the rest behind its `]`. A list that
/// has none in it is nested 1 deep.
///
/// If `fold` is set, which is the flag `i`, each item is folded. It fails with `Refusal::Syntax`
/// only if no list stands there, or one that is nested deeper than `nest_limit`, and with
/// `Refusal::Memory` if it runs out of memory.
pub fn list(
    alloc: Global,
    settings: Settings,
    fold: bool,
    nest_limit: u32,
    text: &[char],
) -> Result<(Vec<CodeRange>, u32, &[char]), Refusal>
    ensures { MatchResult result
        (λ r. (p : CodeSet) × IsList settings fold text.now p r.1 r.2.now × (r.1 ≤ nest_limit)
        × AreRangesOf settings.unicode p (pairs r.0.items))
        (λ e. (e ≡ Memory) ⊎ ((p : CodeSet) (depth : ℕ) (rest : Characters)
        → IsList settings fold text.now p depth rest → depth ≤ nest_limit → ⊥)) }
{
    if nest_limit == 0 {
        return Err(Refusal::Syntax);
    }
    let (negated, lead, inside) = opening(settings.verbose, text);
    let mut levels = Levels::outermost(alloc, settings.unicode, fold, negated, lead)?;
    let mut rest = inside;
    'parts: loop {
        let (part, behind) = first_part(alloc, settings, passed(settings.verbose, rest))?;
        match levels.step(alloc, settings, fold, nest_limit, part, behind)? {
            Step::Goes(next, after) => {
                levels = next;
                rest = after;
            }
            Step::Ends(class, depth) => return Ok((class, depth, behind)),
        }
    }
}

/// No text is read as two lists.
pub fn lists_are_one()
    ensures { ListsInOneWay }
{}

/// A list without operators has exactly the codes that one of its items or lists has, or if it is
/// negated the others.
pub fn lists_have_their_items()
    ensures { ListsHaveTheirItems }
{}

/// To fold a folded list again changes nothing.
pub fn lists_stay_folded()
    ensures { ListsStayFolded }
{}
