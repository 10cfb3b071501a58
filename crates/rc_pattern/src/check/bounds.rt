//! Bounds checks: whether repetitions and classes of a pattern are in order.

ghost use Rattle.std.specs.Prelude.{◌↔◌, IsTrue, map};
ghost use Rattle.rc_pattern.specs.Meaning.{meaning, cat_all, class_meaning, byte_range, char_range};
ghost use Rattle.rc_pattern.specs.WellFormed.{HasBounds, AreAscending};

use crate::hir::{Class, ClassBytesRange, ClassUnicodeRange, Hir, HirKind};

/// Whether each `min` is at most its `max`, and the ranges of each class ascend. It recurses as
/// deep as the pattern is nested.
#[cycle(bounds)]
pub(super) fn has_bounds(hir: &Hir) -> bool
    ensures { IsTrue result ↔ HasBounds (meaning hir.now) }
{
    match hir.kind() {
        HirKind::Empty | HirKind::Literal(_) | HirKind::Look(_) => true,
        HirKind::Class(class) => is_ascending(class),
        HirKind::Repetition(repetition) => {
            if let Some(max) = repetition.max {
                if max < repetition.min {
                    return false;
                }
            }
            has_bounds(&repetition.sub)
        }
        HirKind::Capture(capture) => has_bounds(&capture.sub),
        HirKind::Concat(subs) => have_bounds(subs),
        HirKind::Alternation(subs) => have_bounds(subs),
    }
}

#[cycle(bounds)]
fn have_bounds(subs: &[Hir]) -> bool
    ensures { IsTrue result ↔ HasBounds (cat_all (map meaning subs.now)) }
{
    for sub in subs {
        if !has_bounds(sub) {
            return false;
        }
    }
    true
}

/// Whether each range ends where it begins or later, and begins above the end of the one before.
fn is_ascending(class: &Class) -> bool
    ensures { IsTrue result ↔ HasBounds (class_meaning class.now) }
{
    match class {
        Class::Unicode(ranges) => are_chars_ascending(ranges),
        Class::Bytes(ranges) => are_bytes_ascending(ranges),
    }
}

fn are_chars_ascending(ranges: &[ClassUnicodeRange]) -> bool
    ensures { IsTrue result ↔ AreAscending 0 (map char_range ranges.now) }
{
    let mut from = 0;
    for range in ranges {
        if (range.start as u32) < from || range.end < range.start {
            return false;
        }
        from = range.end as u32 + 1;
    }
    true
}

fn are_bytes_ascending(ranges: &[ClassBytesRange]) -> bool
    ensures { IsTrue result ↔ AreAscending 0 (map byte_range ranges.now) }
{
    let mut from = 0;
    for range in ranges {
        if (range.start as u16) < from || range.end < range.start {
            return false;
        }
        from = range.end as u16 + 1;
    }
    true
}
