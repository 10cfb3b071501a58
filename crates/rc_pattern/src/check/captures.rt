//! Groups of a pattern.

ghost use Rattle.std.specs.Prelude.{◌≡◌, ◌-◌, ◌^◌, ◌++◌, min, string_bytes, IfOk, OnOk, map};
ghost use Rattle.std.specs.Option.{option_map};
ghost use Rattle.rc_pattern.specs.Meaning.{meaning, cat_all};
ghost use Rattle.rc_pattern.specs.WellFormed.{group_numbers, group_names, group_count};
ghost use Rattle.rc_pattern.specs.Groups.{number_of, name_of};

use crate::hir::{Capture, Hir, HirKind};
use std::alloc::{AllocError, Global};

/// Appends the groups of the pattern, in the order of their opening.
#[cycle(captures)]
pub(super) fn push_captures<'a>(
    captures: &mut Vec<&'a Capture>,
    hir: &'a Hir,
) -> Result<(), AllocError>
    ensures numbers { OnOk result (map number_of captures.new.items
        ≡ map number_of captures.old.items ++ group_numbers (meaning hir.now)) }
    ensures names { OnOk result (map name_of captures.new.items ≡ map name_of captures.old.items
        ++ group_names (meaning hir.now)) }
{
    match hir.kind() {
        HirKind::Empty | HirKind::Literal(_) | HirKind::Class(_) | HirKind::Look(_) => Ok(()),
        HirKind::Repetition(repetition) => push_captures(captures, &repetition.sub),
        HirKind::Capture(capture) => {
            captures.push(capture)?;
            push_captures(captures, &capture.sub)
        }
        HirKind::Concat(subs) => push_all_captures(captures, subs),
        HirKind::Alternation(subs) => push_all_captures(captures, subs),
    }
}

#[cycle(captures)]
fn push_all_captures<'a>(captures: &mut Vec<&'a Capture>, subs: &'a [Hir]) -> Result<(), AllocError>
    ensures numbers { OnOk result (map number_of captures.new.items
        ≡ map number_of captures.old.items ++ group_numbers (cat_all (map meaning subs.now))) }
    ensures names { OnOk result (map name_of captures.new.items ≡ map name_of captures.old.items
        ++ group_names (cat_all (map meaning subs.now))) }
{
    for sub in subs {
        push_captures(captures, sub)?;
    }
    Ok(())
}

/// The names of the groups of the pattern, in the order of their opening; `None` for a group
/// without one. An `Err` means out of memory.
pub fn groups(alloc: Global, hir: &Hir) -> Result<Vec<Option<String>>, AllocError>
    ensures { IfOk result (λ names. map (option_map string_bytes) names.items
        ≡ group_names (meaning hir.now)) }
{
    let mut captures = Vec::new(alloc);
    push_captures(&mut captures, hir)?;
    let mut names = Vec::new(alloc);
    for capture in &captures {
        names.push(capture.name.clone()?)?;
    }
    Ok(names)
}

/// The number of groups of the pattern, or the greatest `usize` if there are more.
#[cycle(count)]
pub fn group_count(hir: &Hir) -> usize
    ensures { result ≡ min (group_count (meaning hir.now)) (2 ^ 64 - 1) }
{
    match hir.kind() {
        HirKind::Empty | HirKind::Literal(_) | HirKind::Class(_) | HirKind::Look(_) => 0,
        HirKind::Repetition(repetition) => group_count(&repetition.sub),
        HirKind::Capture(capture) => group_count(&capture.sub).saturating_add(1),
        HirKind::Concat(subs) => group_count_of_all(subs),
        HirKind::Alternation(subs) => group_count_of_all(subs),
    }
}

#[cycle(count)]
#[tactic(auto, using(crate::proofs::WellFormedLemmas::cat_count))]
fn group_count_of_all(subs: &[Hir]) -> usize
    ensures { result ≡ min (group_count (cat_all (map meaning subs.now))) (2 ^ 64 - 1) }
{
    let mut total = 0usize;
    for sub in subs {
        total = total.saturating_add(group_count(sub));
    }
    total
}
