//! Compiled size: how many places a pattern takes.

ghost use Rattle.std.specs.Prelude.{◌≡◌, ◌<◌, ◌^◌, map};
ghost use Rattle.rc_pattern.specs.Meaning.{meaning, cat_all, alt_all, repetition_meaning};
ghost use Rattle.rc_compile.specs.Shown.{laid};

use rc_pattern::hir::{Hir, HirKind, Repetition};

/// Returns how many places the pattern takes: with its groups, or with each group as its body.
#[cycle(size)]
pub(super) fn size(hir: &Hir, groups: bool) -> usize
    requires { (laid groups (meaning hir.now)).size < 2 ^ 62 }
    ensures { result ≡ (laid groups (meaning hir.now)).size }
{
    match hir.kind() {
        HirKind::Empty | HirKind::Class(_) | HirKind::Look(_) => 1,
        HirKind::Literal(bytes) => bytes.len().max(1),
        HirKind::Repetition(repetition) => size_of_repetition(repetition, groups),
        HirKind::Capture(capture) => {
            if groups {
                return 1 + (size(&capture.sub, groups) + 1);
            }
            size(&capture.sub, groups)
        }
        HirKind::Concat(subs) => size_of_concat(subs, groups),
        HirKind::Alternation(subs) => size_of_alternation(subs, groups),
    }
}

/// Returns how many places a repetition takes.
#[cycle(size)]
fn size_of_repetition(repetition: &Repetition, groups: bool) -> usize
    requires { (laid groups (repetition_meaning repetition.now)).size < 2 ^ 62 }
    ensures { result ≡ (laid groups (repetition_meaning repetition.now)).size }
{
    let min = repetition.min as usize;
    match repetition.max {
        None => {
            let body = size(&repetition.sub, groups);
            if min == 0 {
                return 1 + (body + 1);
            }
            (min - 1) * body + (body + 1)
        }
        Some(max) => {
            let copies = min.max(max as usize);
            if copies == 0 {
                return 1;
            }
            let body = size(&repetition.sub, groups);
            let more = (max as usize).saturating_sub(min);
            min * body + (more * (1 + body) + 1)
        }
    }
}

/// Returns how many places a concatenation takes.
#[cycle(size)]
#[tactic(auto, using(crate::proofs::SizeLemmas::cat_member))]
fn size_of_concat(subs: &[Hir], groups: bool) -> usize
    requires { (laid groups (cat_all (map meaning subs.now))).size < 2 ^ 62 }
    ensures { result ≡ (laid groups (cat_all (map meaning subs.now))).size }
{
    let mut total = 1;
    for i in (0..subs.len()).rev() {
        total = size(&subs[i], groups) + total;
    }
    total
}

/// Returns how many places an alternation takes.
#[cycle(size)]
#[tactic(auto, using(crate::proofs::SizeLemmas::alt_member))]
fn size_of_alternation(subs: &[Hir], groups: bool) -> usize
    requires { (laid groups (alt_all (map meaning subs.now))).size < 2 ^ 62 }
    ensures { result ≡ (laid groups (alt_all (map meaning subs.now))).size }
{
    let mut total = 1;
    for i in (0..subs.len()).rev() {
        total = 1 + (size(&subs[i], groups) + total);
    }
    total
}
