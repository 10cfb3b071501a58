//! Columns: which cells of a thread's row the slots of groups have.
ghost use Rattle.std.specs.Prelude.{◌≡◌, ◌+◌, ◌-◌, ◌^◌, ◌<◌, ℕ, IfOk, length, min, slice_index_or};
ghost use Rattle.rc_program.specs.Columns.{AreColumns, column_at, match_count, no_slots, ranges_of, slot_number, widest, with_place, with_slot};
ghost use Rattle.rc_program.specs.Places.{place_of, places_of};

use crate::place::Place;
use std::alloc::{AllocError, Global};
use std::mem::size_of;

/// The slots from the first to the last. There is none if the first is greater.
#[derive(Clone, Copy)]
pub struct SlotRange {
    pub first: usize,
    pub last: usize,
}

/// No slot.
const NONE: SlotRange = SlotRange { first: 1, last: 0 };

/// Which slots each pattern's groups have, and which cells of a thread's row the slots have.
#[derive(Drop)]
pub struct Columns {
    /// For each pattern the slots of its groups. One more range has the slots of the places after
    /// the last match place.
    pub ranges: Vec<SlotRange>,
    /// For each place that names a slot, the slot's column; 0 for others.
    pub of_places: Vec<usize>,
    /// How many slots the widest range has, or `usize::MAX` if that is more.
    pub widest: usize,
}

impl Columns {
    /// Returns about how many bytes the columns take, or `usize::MAX` if that is more.
    pub(crate) fn bytes(&self) -> usize {
        let ranges = self.ranges.len().saturating_mul(size_of::<SlotRange>());
        let columns = self.of_places.len().saturating_mul(size_of::<usize>());
        ranges.saturating_add(columns)
    }
}

/// Returns the columns of the slots that the places name. `Err` means out of memory.
pub fn columns_of(alloc: Global, places: &[Place]) -> Result<Columns, AllocError>
    ensures { IfOk result (AreColumns (places_of places.now)) }
{
    let ranges = ranges_of(alloc, places)?;
    let of_places = column_list(alloc, places, &ranges)?;
    let widest = widest(&ranges);
    Ok(Columns {
        ranges,
        of_places,
        widest,
    })
}

/// Returns for each match place the range of the slots that are named from after the match place
/// before it, and then the range of those after the last.
fn ranges_of(alloc: Global, places: &[Place]) -> Result<Vec<SlotRange>, AllocError>
    ensures { IfOk result (λ ranges. ranges.items ≡ ranges_of (places_of places.now)) }
{
    let mut ranges = Vec::new(alloc);
    let mut range = NONE;
    for place in places {
        if let Place::Accept(_) = place {
            ranges.push(range)?;
            range = NONE;
        } else {
            range = with_place(range, place);
        }
    }
    ranges.push(range)?;
    Ok(ranges)
}

/// Returns the range, widened by the slot that the place names, if it names one.
fn with_place(range: SlotRange, place: &Place) -> SlotRange
    ensures { result ≡ with_place range (place_of place.now) }
{
    match place {
        Place::Slot(slot, _) => with_slot(range, *slot),
        _ => range,
    }
}

/// Returns the range, widened by a slot.
fn with_slot(range: SlotRange, slot: usize) -> SlotRange
    ensures { result ≡ with_slot range slot }
{
    if range.last < range.first {
        return SlotRange {
            first: slot,
            last: slot,
        };
    }
    SlotRange {
        first: range.first.min(slot),
        last: range.last.max(slot),
    }
}

/// Returns for each place the column of the slot that it names, or 0 if it names none.
fn column_list(
    alloc: Global,
    places: &[Place],
    ranges: &[SlotRange],
) -> Result<Vec<usize>, AllocError>
    requires { ranges.now ≡ ranges_of (places_of places.now) }
    ensures long { IfOk result (λ columns. length columns.items ≡ length places.now) }
    ensures told { IfOk result (λ columns. (q : ℕ) → q < length places.now
        → slice_index_or columns.items q 0 ≡ column_at (places_of places.now) q) }
{
    let mut columns = Vec::with_capacity(alloc, places.len())?;
    let mut pattern = 0;
    for place in places {
        columns.push(column_in(ranges, pattern, place))?;
        pattern = pattern_after(pattern, place);
    }
    Ok(columns)
}

/// Returns the number of the pattern to which the places after this one belong, if this one belongs
/// to `pattern`.
fn pattern_after(pattern: usize, place: &Place) -> usize
    requires { pattern < 2 ^ 64 - 1 }
    ensures { result ≡ pattern + match_count (place_of place.now) }
{
    match place {
        Place::Accept(_) => pattern + 1,
        _ => pattern,
    }
}

/// Returns the distance of the slot that the place names from the first of the pattern's range.
fn column_in(ranges: &[SlotRange], pattern: usize, place: &Place) -> usize
    ensures { result ≡ slot_number (place_of place.now)
        - (slice_index_or ranges.now pattern no_slots).first }
{
    let range = range_at(ranges, pattern);
    match place {
        Place::Slot(slot, _) => slot.saturating_sub(range.first),
        _ => 0,
    }
}

/// Returns the pattern's range, or none if there is no such pattern.
pub(crate) fn range_at(ranges: &[SlotRange], pattern: usize) -> SlotRange
    ensures { result ≡ slice_index_or ranges.now pattern no_slots }
{
    match ranges.get(pattern) {
        Some(range) => *range,
        None => NONE,
    }
}

/// Returns how many slots the widest of the ranges has, or `usize::MAX` if that is more.
fn widest(ranges: &[SlotRange]) -> usize
    ensures { result ≡ min (widest ranges.now) (2 ^ 64 - 1) }
{
    let mut most = 0;
    for range in ranges {
        most = most.max(size(*range));
    }
    most
}

/// Returns how many slots the range has, or `usize::MAX` if that is more.
fn size(range: SlotRange) -> usize
    ensures { result ≡ min (range.last + 1 - range.first) (2 ^ 64 - 1) }
{
    if range.last < range.first {
        return 0;
    }
    (range.last - range.first).saturating_add(1)
}
