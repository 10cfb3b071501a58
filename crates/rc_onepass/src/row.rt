//! Rows: to where each ASCII byte leads from a place, and which slots are set on the way.
ghost use Rattle.std.specs.Prelude.{◌≡◌, ◌<◌, ◌≤◌, ℕ, IsTrue, None, Some, length, map, min, slice_index_or, true};
ghost use Rattle.rc_pattern.specs.Meaning.{byte_range, char_range};
ghost use Rattle.rc_program.specs.Places.{place_of};
ghost use Rattle.rc_program.specs.Program.{in_ranges};
ghost use Rattle.rc_onepass.specs.OnePass.{Takes};
ghost use Rattle.rc_onepass.specs.Rows.{Fills, bytes_of_row};

use rc_pattern::hir::{ClassBytesRange, ClassUnicodeRange};
use rc_program::place::Place;

/// How many ASCII bytes there are.
pub(crate) const ASCII: usize = 128;

/// A slot that is set, and the number of the link to the slots that are set with it. Number 0 is
/// that of no link.
#[derive(Clone, Copy)]
pub struct Link {
    pub slot: usize,
    pub before: usize,
}

/// A transition: to a place, and the number of the link to the slots that are set before its byte.
#[derive(Clone, Copy)]
pub struct Transition {
    pub next: usize,
    pub slots: usize,
}

/// The transitions from a place.
#[derive(Drop)]
pub struct Row {
    /// For each ASCII byte its transition. None if the byte leads nowhere.
    pub transitions: Vec<Option<Transition>>,
    /// The number of the link to the slots that are set if a match ends. None if none ends.
    pub end: Option<usize>,
    /// The links. The first has number 1.
    pub links: Vec<Link>,
}

/// Enters the transition for each byte from the first to the last. Returns false if one of them has
/// a transition already.
fn enter_range(
    transitions: &mut [Option<Transition>],
    first: usize,
    last: usize,
    transition: Transition,
) -> bool
    requires whole { length transitions.old ≡ 128 }
    requires last { last < 128 }
    ensures fills { Fills transitions.old transitions.new }
    ensures entered { result ≡ true → (b : ℕ) → first ≤ b → b ≤ last
        → slice_index_or transitions.new b None ≡ Some transition }
{
    for byte in first..last + 1 {
        if transitions[byte].is_some() {
            return false;
        }
        transitions[byte] = Some(transition);
    }
    true
}

/// Enters the transition for each ASCII byte of the ranges. Returns false if one of them has a
/// transition already.
fn enter_bytes(
    transitions: &mut [Option<Transition>],
    ranges: &[ClassBytesRange],
    transition: Transition,
) -> bool
    requires whole { length transitions.old ≡ 128 }
    ensures fills { Fills transitions.old transitions.new }
    ensures entered { result ≡ true → (b : ℕ) → b < 128
        → IsTrue (in_ranges (map byte_range ranges.now) b)
        → slice_index_or transitions.new b None ≡ Some transition }
{
    for range in ranges {
        let first = usize::from(range.start);
        let last = usize::from(range.end).min(ASCII - 1);
        if !enter_range(transitions, first, last, transition) {
            return false;
        }
    }
    true
}

/// Enters the transition for each ASCII character of the ranges. Returns false if one of them has a
/// transition already.
fn enter_chars(
    transitions: &mut [Option<Transition>],
    ranges: &[ClassUnicodeRange],
    transition: Transition,
) -> bool
    requires whole { length transitions.old ≡ 128 }
    ensures fills { Fills transitions.old transitions.new }
    ensures entered { result ≡ true → (b : ℕ) → b < 128
        → IsTrue (in_ranges (map char_range ranges.now) b)
        → slice_index_or transitions.new b None ≡ Some transition }
{
    for range in ranges {
        let first = range.start as usize;
        let last = (range.end as usize).min(ASCII - 1);
        if !enter_range(transitions, first, last, transition) {
            return false;
        }
    }
    true
}

/// Enters the transition of the place for each ASCII byte that it reads. `slots` is the link to the
/// slots that are set before. Returns false if one of these bytes has a transition already.
pub(crate) fn enter(transitions: &mut [Option<Transition>], place: &Place, slots: usize) -> bool
    requires whole { length transitions.old ≡ 128 }
    ensures fills { Fills transitions.old transitions.new }
    ensures entered { result ≡ true → (b n : ℕ) → b < 128 → Takes (place_of place.now) b n
        → slice_index_or transitions.new b None ≡ Some (record { next = n; slots = slots }) }
{
    match place {
        Place::Byte(byte, next) => {
            let byte = usize::from(*byte);
            let transition = Transition { next: *next, slots };
            byte >= ASCII || enter_range(transitions, byte, byte, transition)
        }
        Place::Bytes(ranges, next) => {
            let transition = Transition { next: *next, slots };
            enter_bytes(transitions, ranges, transition)
        }
        Place::Scalar(ranges, next) => {
            let transition = Transition { next: *next, slots };
            enter_chars(transitions, ranges, transition)
        }
        _ => true,
    }
}

/// Returns how many bytes the row's transitions and links take, or `usize::MAX` if that is more.
pub(crate) fn bytes_of(row: &Row) -> usize
    ensures { result ≡ min (bytes_of_row (Some row.now)) usize.MAX }
{
    let transitions = row.transitions.len().saturating_mul(24);
    let links = row.links.len().saturating_mul(16);
    transitions.saturating_add(links)
}
