//! First-byte sets: over which bytes walks may go on from each place of a program.

ghost use Rattle.std.specs.Prelude.{◌≡◌, ℕ, ◌<◌, ◌≤◌, ◌&&◌, [], ◌∷◌, IfOk, OnOk, false, map, length, nat_le, slice_index_or, true};
ghost use Rattle.rc_pattern.specs.Meaning.{byte_range, char_range};
ghost use Rattle.rc_program.specs.Closing.{AreFlags, AreJoined, AreReached, Opens, OpensPast, takes};
ghost use Rattle.rc_program.specs.Heads.{AreHeads, TellsHeads, flags_in, lead, leads, may_take, silent};
ghost use Rattle.rc_program.specs.Places.{place_of, places_of};
ghost use Rattle.rc_program.specs.Program.{in_ranges, place_at};

use crate::place::Place;
use rc_pattern::hir::{ClassBytesRange, ClassUnicodeRange};
use std::alloc::{AllocError, Global};
use std::mem::size_of;

/// A place gets no set if more places than these are reached from it without reading. What is
/// reached from a place that has a set isn't counted. So a build stays linear.
const MOST_REACHED: usize = 62;

/// Places from this number on get no set. So all sets take at most 16 MiB.
const MOST_PLACES: usize = 65_536;

/// Returns the first-byte set of each place, as `Program` keeps it: 256 flags, or none. `Err` means
/// out of memory.
///
/// The last place comes first, so a choice takes over the sets of later choices.
pub fn heads_of(alloc: Global, places: &[Place]) -> Result<Vec<Vec<bool>>, AllocError>
    ensures { IfOk result (λ tables. AreHeads (places_of places.now) (flags_in tables.items)) }
{
    let mut tables = no_sets(alloc, places)?;
    let mut opened = Vec::with_capacity(alloc, MOST_REACHED + 2)?;
    let mut spots = vec![in alloc; 0; places.len()]?;
    for place in (0..places.len()).rev() {
        let flags = flags_of(alloc, places, &tables, place, &mut opened, &mut spots)?;
        tables[place] = flags;
    }
    Ok(tables)
}

/// Returns no set for each place. `Err` means out of memory.
fn no_sets(alloc: Global, places: &[Place]) -> Result<Vec<Vec<bool>>, AllocError>
    ensures { IfOk result (λ tables. AreHeads (places_of places.now) (flags_in tables.items)) }
{
    let mut tables = Vec::with_capacity(alloc, places.len())?;
    for _ in places {
        tables.push(Vec::new(alloc))?;
    }
    Ok(tables)
}

/// Returns the first-byte set of the place. It has no flags if the place compares a single byte, if
/// it is a match or a dead end, and if too many places are reached. `opened` and `spots` are
/// scratch memory. `Err` means out of memory.
fn flags_of(
    alloc: Global,
    places: &[Place],
    tables: &[Vec<bool>],
    place: usize,
    opened: &mut Vec<usize>,
    spots: &mut [usize],
) -> Result<Vec<bool>, AllocError>
    requires within { place < length places.now }
    requires heads { AreHeads (places_of places.now) (flags_in tables.now) }
    ensures { IfOk result (λ flags. 0 < length flags.items
        → TellsHeads (places_of places.now) place flags.items) }
{
    if place >= MOST_PLACES
        || matches!(
            &places[place],
            Place::Byte(..) | Place::Accept(_) | Place::Dead
        )
    {
        return Ok(Vec::new(alloc));
    }
    if !open_all(opened, spots, places, tables, place)? {
        return Ok(Vec::new(alloc));
    }
    let flags = joined(alloc, places, tables, opened)?;
    Ok(flags)
}

/// Returns the set of the place, without flags if it has none.
fn set_of(tables: &[Vec<bool>], place: usize) -> &[bool]
    ensures { result.now ≡ slice_index_or (flags_in tables.now) place [] }
{
    match tables.get(place) {
        Some(flags) => flags.as_slice(),
        None => &[],
    }
}

/// Lists the places that are reached from this one without reading, except what is reached from a
/// listed place that has a set. Returns false if there are too many.
fn open_all(
    opened: &mut Vec<usize>,
    spots: &mut [usize],
    places: &[Place],
    tables: &[Vec<bool>],
    place: usize,
) -> Result<bool, AllocError>
    ensures { IfOk result (λ all. all ≡ true
        → AreReached (places_of places.now) (flags_in tables.now) place opened.new.items) }
{
    opened.clear();
    open(opened, spots, place)?;
    for next in 0..MOST_REACHED + 1 {
        if next == opened.len() {
            return Ok(true);
        }
        if opened.len() > MOST_REACHED {
            return Ok(false);
        }
        let from = opened[next];
        open_past(opened, spots, places, tables, from)?;
    }
    Ok(false)
}

/// Lists the places to which epsilon ways lead from one, unless it has a set.
fn open_past(
    opened: &mut Vec<usize>,
    spots: &mut [usize],
    places: &[Place],
    tables: &[Vec<bool>],
    from: usize,
) -> Result<(), AllocError>
    ensures { OnOk result (OpensPast (places_of places.now) (flags_in tables.now) from
        opened.old.items opened.new.items) }
{
    if set_of(tables, from).is_empty() {
        return open_from(opened, spots, places, from);
    }
    Ok(())
}

/// Lists the places to which epsilon ways lead from one.
fn open_from(
    opened: &mut Vec<usize>,
    spots: &mut [usize],
    places: &[Place],
    from: usize,
) -> Result<(), AllocError>
    ensures { OnOk result (Opens (silent
        (place_at (places_of places.now) from)) opened.old.items opened.new.items) }
{
    match places.get(from) {
        Some(Place::Choice(first, second)) => {
            open(opened, spots, *first)?;
            open(opened, spots, *second)?;
            Ok(())
        }
        Some(Place::Pass(next)) => open(opened, spots, *next),
        Some(Place::Guard(_, next)) => open(opened, spots, *next),
        Some(Place::Slot(_, next)) => open(opened, spots, *next),
        _ => Ok(()),
    }
}

/// Lists a place unless it is there. `spots` has the index at which it was listed last, so one
/// lookup shows whether it still is.
fn open(opened: &mut Vec<usize>, spots: &mut [usize], place: usize) -> Result<(), AllocError>
    ensures { OnOk result (Opens (place ∷ []) opened.old.items opened.new.items) }
{
    if place < spots.len() {
        let spot = spots[place];
        if spot < opened.len() && opened[spot] == place {
            return Ok(());
        }
        spots[place] = opened.len();
    }
    opened.push(place)?;
    Ok(())
}

/// Returns 256 flags: which bytes these places take, or have in their sets.
fn joined(
    alloc: Global,
    places: &[Place],
    tables: &[Vec<bool>],
    opened: &[usize],
) -> Result<Vec<bool>, AllocError>
    ensures { IfOk result (λ flags. AreFlags (places_of places.now) (flags_in tables.now)
        opened.now flags.items) }
{
    let mut flags = vec![in alloc; false; 256]?;
    for number in opened {
        join_at(&mut flags, places, tables, *number);
    }
    Ok(flags)
}

/// Sets the flags of the bytes that the place with this number takes, or has in its set.
fn join_at(flags: &mut [bool], places: &[Place], tables: &[Vec<bool>], number: usize)
    requires { length flags.old ≡ 256 }
    ensures { AreJoined 256 (takes (places_of places.now) (flags_in tables.now) number)
        flags.old flags.new }
{
    join_set(flags, set_of(tables, number));
    if let Some(place) = places.get(number) {
        join(flags, place);
    }
}

/// Sets the flags that the set has.
fn join_set(flags: &mut [bool], set: &[bool])
    requires { length flags.old ≡ 256 }
    ensures { AreJoined 256 (λ b. slice_index_or set.now b false) flags.old flags.new }
{
    for byte in 0..flags.len().min(set.len()) {
        flags[byte] |= set[byte];
    }
}

/// Sets the flags of the bytes that the place takes, or all flags if a walk ends there.
fn join(flags: &mut [bool], place: &Place)
    requires { length flags.old ≡ 256 }
    ensures { AreJoined 256 (may_take (place_of place.now)) flags.old flags.new }
{
    match place {
        Place::Byte(byte, _) => fill(flags, *byte as usize, *byte as usize),
        Place::Bytes(ranges, _) => fill_bytes(flags, ranges),
        Place::Scalar(ranges, _) => fill_scalars(flags, ranges),
        Place::Accept(_) => fill(flags, 0, 255),
        _ => {}
    }
}

/// Sets the flags of the bytes of the ranges.
fn fill_bytes(flags: &mut [bool], ranges: &[ClassBytesRange])
    requires { length flags.old ≡ 256 }
    ensures { AreJoined 256 (in_ranges (map byte_range ranges.now)) flags.old flags.new }
{
    for range in ranges {
        fill(flags, range.start as usize, range.end as usize);
    }
}

/// Sets the flags of the bytes that may begin a character of the ranges: for each range those from
/// the first byte of its first character to that of its last.
fn fill_scalars(flags: &mut [bool], ranges: &[ClassUnicodeRange])
    requires { length flags.old ≡ 256 }
    ensures { AreJoined 256 (in_ranges (map leads (map char_range ranges.now))) flags.old flags.new }
{
    for range in ranges {
        fill(flags, lead(range.start) as usize, lead(range.end) as usize);
    }
}

/// Returns the first byte of the character in UTF-8.
fn lead(c: char) -> u8
    ensures { result ≡ lead c }
{
    let mut buffer = [0; 4];
    c.encode_utf8(&mut buffer).as_bytes()[0]
}

/// Sets the flags from `low` to `high`, both included.
fn fill(flags: &mut [bool], low: usize, high: usize)
    requires whole { length flags.old ≡ 256 }
    requires within { high < 256 }
    ensures { AreJoined 256 (λ b. nat_le low b && nat_le b high) flags.old flags.new }
{
    for byte in low..high + 1 {
        flags[byte] = true;
    }
}

/// Returns about how many bytes the sets take, or `usize::MAX` if that is more.
pub(crate) fn bytes_of(tables: &[Vec<bool>]) -> usize {
    let mut bytes = tables.len().saturating_mul(size_of::<Vec<bool>>());
    for flags in tables {
        bytes = bytes.saturating_add(flags.len());
    }
    bytes
}
