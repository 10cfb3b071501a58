//! The drop of a pattern, in a loop.
//!
//! The nodes that wait for their turn stand in a vector of children that the loop met. If it meets
//! the next such vector, the one before becomes a child there, in a place that has become free. So
//! the drop takes no memory, and its stack doesn't depend on the pattern.

ghost use Rattle.std.specs.Prelude.{◌≡◌, ◌<◌, ◌++◌, ◌∷◌, [], map, IfSome, vec_len, vec_capacity, slice_index_or, slice_set};
ghost use Rattle.rc_pattern.specs.declared.hir.Hir.{Hir, out-Hir};
ghost use Rattle.rc_pattern.specs.Drops.{parent, steps, items_of, steps_left};

use crate::hir::{Hir, HirKind};
use std::mem;

/// The next node to drop, and those that wait.
type Left = Option<(Hir, Option<Vec<Hir>>)>;

/// Drops a pattern.
pub(crate) fn drop_all(hir: Hir) {
    let mut left = Some((hir, None));
    while let Some((node, waiting)) = left {
        left = drop_node(node, waiting);
    }
}

/// Drops a node without its children, and returns what is left.
fn drop_node(node: Hir, waiting: Option<Vec<Hir>>) -> Left
    ensures { IfSome result (λ left. steps_left left.0 left.1 < steps_left node waiting) }
{
    match node.into_kind() {
        HirKind::Empty | HirKind::Literal(_) | HirKind::Class(_) | HirKind::Look(_) => {
            last_of(waiting)
        }
        HirKind::Repetition(repetition) => Some((Box::into_inner(repetition.sub), waiting)),
        HirKind::Capture(capture) => Some((Box::into_inner(capture.sub), waiting)),
        HirKind::Concat(subs) => enter(subs, waiting),
        HirKind::Alternation(subs) => enter(subs, waiting),
    }
}

/// The last node that waits comes next.
fn last_of(waiting: Option<Vec<Hir>>) -> Left
    ensures { IfSome result (λ left. items_of waiting ≡ items_of left.1 ++ left.0 ∷ []) }
{
    let mut waiting = waiting?;
    match waiting.pop() {
        Some(last) => Some((last, Some(waiting))),
        None => {
            waiting.destroy_empty();
            None
        }
    }
}

/// The last child comes next, and the others wait. Those that waited become a child.
fn enter(subs: Vec<Hir>, waiting: Option<Vec<Hir>>) -> Left
    ensures { (h : Hir) → steps h ≡ parent (map steps subs.items)
        → IfSome result (λ left. steps_left left.0 left.1 < steps_left h waiting) }
{
    let mut subs = subs;
    let Some(last) = subs.pop() else {
        subs.destroy_empty();
        return last_of(waiting);
    };
    let Some(waiting) = waiting else {
        return Some((last, Some(subs)));
    };
    if waiting.is_empty() {
        waiting.destroy_empty();
        return Some((last, Some(subs)));
    }
    if subs.is_empty() {
        subs.destroy_empty();
        return Some((last, Some(waiting)));
    }
    let earlier = Hir::from_kind(HirKind::Concat(waiting));
    let first = put_first(&mut subs, earlier);
    subs.push_reserved(first);
    Some((last, Some(subs)))
}

/// Puts a node into the place of the first one, and returns that.
fn put_first(nodes: &mut Vec<Hir>, node: Hir) -> Hir
    requires { 0 < vec_len nodes.old }
    ensures value { result ≡ slice_index_or nodes.old.items 0 result }
    ensures items { nodes.new.items ≡ slice_set nodes.old.items 0 node }
    ensures capacity { (vec_len nodes.new ≡ vec_len nodes.old)
        × (vec_capacity nodes.new ≡ vec_capacity nodes.old) }
{
    mem::replace(&mut nodes[0], node)
}
