//! Nesting depth of a pattern.

ghost use Rattle.std.specs.Prelude.{◌≤◌, ◌↔◌, ◌+◌, IsTrue, map};
ghost use Rattle.rc_pattern.specs.Meaning.{meaning, cat_all};
ghost use Rattle.rc_pattern.specs.WellFormed.{depth};

use crate::hir::{Hir, HirKind};

/// Whether no path from the root of the pattern to a leaf has more than `most` nodes. It recurses
/// at most `most` deep.
#[cycle(depth)]
#[tactic(auto, using(crate::proofs::WellFormedLemmas::some_depth))]
pub fn depth_within(hir: &Hir, most: u32) -> bool
    ensures { IsTrue result ↔ (depth (meaning hir.now) ≤ most) }
{
    if most == 0 {
        return false;
    }
    match hir.kind() {
        HirKind::Empty | HirKind::Literal(_) | HirKind::Class(_) | HirKind::Look(_) => true,
        HirKind::Repetition(repetition) => depth_within(&repetition.sub, most - 1),
        HirKind::Capture(capture) => depth_within(&capture.sub, most - 1),
        HirKind::Concat(subs) => depths_within(subs, most - 1),
        HirKind::Alternation(subs) => depths_within(subs, most - 1),
    }
}

/// Whether the pattern is at most 1,024 levels deep, as a well-formed one is.
pub(crate) fn is_shallow(hir: &Hir) -> bool
    ensures { IsTrue result ↔ (depth (meaning hir.now) ≤ 1024) }
{
    depth_within(hir, 1024)
}

/// Whether no path from the root of a member to a leaf has more than `most` nodes.
#[cycle(depth)]
#[tactic(auto, using(crate::proofs::WellFormedLemmas::member_depth))]
fn depths_within(subs: &[Hir], most: u32) -> bool
    ensures { IsTrue result ↔ (depth (cat_all (map meaning subs.now)) ≤ most + 1) }
{
    for sub in subs {
        if !depth_within(sub, most) {
            return false;
        }
    }
    true
}
