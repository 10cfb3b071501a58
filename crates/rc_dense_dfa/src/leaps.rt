//! Acceleration: if most bytes of most texts stay among two rows, a vector search finds the next
//! byte that may leave them.
ghost use Rattle.std.specs.Prelude.{◌≡◌, ◌<◌, ◌≤◌, ◌+◌, IfOk, IfSome, IsTrue, length};
ghost use Rattle.rc_dense_dfa.specs.Cells.{dead, met, row_of, skip};
ghost use Rattle.rc_dense_dfa.specs.Exits.{AreLeaps, AreStays, StaysAmong, cell_by};

use crate::exits::{Exits, are_few};
use rc_needles::byte_set::ByteSet;
use rc_table_search::cells::{DEAD, QUIT, row_of};
use rc_text::frequency::{MOST_COMMON, per_thousand};
use std::alloc::{AllocError, Global};

/// A table has at most this many leaps.
const MOST: usize = 4;

/// Of a thousand bytes of most texts, at most this many may leave the rows of a leap.
const LEAVING: usize = 60;

/// Two rows among which a run stays for most bytes of most texts.
#[derive(Clone, Copy)]
pub struct Leap {
    /// One row.
    pub row: usize,
    /// Another row, or the same one.
    pub other: usize,
    /// Bytes that are known to lead from both rows to the same one of the two, without a match.
    pub stays: ByteSet,
    /// Whether a search may rest at `row`.
    pub rests: bool,
    /// Whether a search may rest at `other`.
    pub other_rests: bool,
}

/// Returns the row to which a byte leads, if that isn't dead and no match is found on the way.
fn row_behind(classes: &[u8], cells: &[usize], row: usize, byte: usize) -> Option<usize>
    requires { row < met }
    ensures small { IfSome result (λ behind. behind < met) }
    ensures below { IfSome result (λ _. cell_by classes.now cells.now row byte < dead) }
    ensures value { IfSome result (λ behind. behind
        ≡ row_of (cell_by classes.now cells.now row byte)) }
{
    let Some(class) = classes.get(byte) else {
        return None;
    };
    let Some(cell) = cells.get(row + *class as usize) else {
        return None;
    };
    if *cell >= DEAD {
        return None;
    }
    Some(row_of(*cell))
}

/// Whether the byte leads from both rows to the same one of the two, without a match.
fn stays_among(classes: &[u8], cells: &[usize], row: usize, other: usize, byte: usize) -> bool
    requires row { row < met }
    requires other { other < met }
    ensures { IsTrue result → StaysAmong dead classes.now cells.now row other byte }
{
    let Some(behind) = row_behind(classes, cells, row, byte) else {
        return false;
    };
    let Some(beside) = row_behind(classes, cells, other, byte) else {
        return false;
    };
    behind == beside && (behind == row || behind == other)
}

/// Whether the byte may not be read in the row. It ends a search, so it doesn't count as leaving.
fn quits(classes: &[u8], cells: &[usize], row: usize, byte: usize) -> bool
    requires { row < met }
{
    let Some(class) = classes.get(byte) else {
        return false;
    };
    let Some(cell) = cells.get(row + *class as usize) else {
        return false;
    };
    *cell == QUIT
}

/// Roughly how many of a thousand bytes are this byte. Of those past ASCII one in eight counts, so
/// that all of them together are 32, as in texts in English.
fn weight(byte: u8) -> usize {
    if byte < 128 || byte % 8 == 0 {
        return per_thousand(byte);
    }
    0
}

/// Returns about how many of a thousand bytes of most texts leave the two rows. A result above
/// `LEAVING` may be too small, since the count stops there.
fn leaving(classes: &[u8], cells: &[usize], row: usize, other: usize) -> usize
    requires row { row < met }
    requires other { other < met }
{
    let mut sum = 0usize;
    for number in 0..256usize {
        // Letters come first, since they decide soonest.
        let byte = (number + 97) % 256;
        if !stays_among(classes, cells, row, other, byte) && !quits(classes, cells, row, byte) {
            sum = sum.saturating_add(weight(byte as u8));
            if sum > LEAVING {
                return sum;
            }
        }
    }
    sum
}

/// Returns the row to which the most common byte leads that leaves the row, or else the row itself.
fn likely(classes: &[u8], cells: &[usize], row: usize) -> usize
    requires { row < met }
    ensures { result < met }
{
    for byte in MOST_COMMON {
        if let Some(behind) = row_behind(classes, cells, row, *byte as usize)
            && behind != row
        {
            return behind;
        }
    }
    row
}

/// Builds the leap of two rows.
fn among(classes: &[u8], cells: &[usize], row: usize, other: usize) -> Leap
    requires row { row < met }
    requires other { other < met }
    ensures { AreStays dead classes.now cells.now result.row result.other result.stays.flags }
{
    let mut stays = [false; 256];
    for byte in 0..256usize {
        if stays_among(classes, cells, row, other, byte) {
            stays[byte] = true;
        }
    }
    Leap {
        row,
        other,
        stays: ByteSet::new(stays),
        rests: false,
        other_rests: false,
    }
}

/// Builds the leap of a row, if few bytes of most texts leave it, or leave it and another.
fn leap_of(classes: &[u8], cells: &[usize], row: usize) -> Option<Leap>
    requires { row < met }
    ensures { IfSome result (λ leap. AreStays dead classes.now cells.now leap.row
        leap.other leap.stays.flags) }
{
    let alone = leaving(classes, cells, row, row);
    let other = likely(classes, cells, row);
    if other != row {
        let both = leaving(classes, cells, row, other);
        if both < alone && both <= LEAVING {
            return Some(among(classes, cells, row, other));
        }
    }
    if alone <= LEAVING {
        return Some(among(classes, cells, row, row));
    }
    None
}

/// Whether a leap has the row.
fn is_in(leaps: &[Leap], row: usize) -> bool {
    for leap in leaps {
        if leap.row == row || leap.other == row {
            return true;
        }
    }
    false
}

/// Builds the leap of a row, unless its exits are few or a leap has the row already.
fn wanted(classes: &[u8], cells: &[usize], exits: Exits, leaps: &[Leap], row: usize) -> Option<Leap>
    requires { row < met }
    ensures { IfSome result (λ leap. AreStays dead classes.now cells.now leap.row
        leap.other leap.stays.flags) }
{
    if are_few(exits) || is_in(leaps, row) {
        return None;
    }
    leap_of(classes, cells, row)
}

/// Whether a search may rest at the row.
fn may_rest_at(idles: &[bool], row: usize, width: usize) -> bool
    requires { 0 < width }
{
    match idles.get(row / width) {
        Some(idle) => *idle,
        None => false,
    }
}

/// Sets in a leap whether searches may rest at its rows.
fn resting(mut leap: Leap, idles: &[bool], width: usize) -> Leap
    requires { 0 < width }
    ensures { (result.row ≡ leap.row) × (result.other ≡ leap.other) × (result.stays ≡ leap.stays) }
{
    leap.rests = may_rest_at(idles, leap.row, width);
    leap.other_rests = may_rest_at(idles, leap.other, width);
    leap
}

/// Builds the leaps of a table, at most `MOST`. Rows with few exits have none. `Err` means out of
/// memory.
pub(crate) fn leaps_of(
    alloc: Global,
    classes: &[u8],
    cells: &[usize],
    exits: &[Exits],
    idles: &[bool],
    width: usize,
) -> Result<Vec<Leap>, AllocError>
    requires wide { (0 < width) × (width < met) }
    requires small { length cells.now < skip }
    ensures { IfOk result (λ leaps. AreLeaps dead classes.now cells.now leaps.items) }
{
    let mut leaps = Vec::new(alloc);
    let mut row = 0usize;
    for exits in exits {
        if row >= cells.len() || leaps.len() >= MOST {
            return Ok(leaps);
        }
        if let Some(leap) = wanted(classes, cells, *exits, &leaps, row) {
            leaps.push(resting(leap, idles, width))?;
        }
        row += width;
    }
    Ok(leaps)
}

/// Whether a leap has the row of this number.
pub(crate) fn is_told(leaps: &[Leap], number: usize, width: usize) -> bool
    requires { 0 < width }
{
    for leap in leaps {
        if leap.row / width == number || leap.other / width == number {
            return true;
        }
    }
    false
}

/// Returns the index at which a leap from the index `from` of a piece ends at most. That is the
/// piece's length; if a search may rest at one of the rows, it is at most the position `looks`.
/// Behind `looks`, bytes are read one at a time. Returns None if the search may rest at its row.
#[inline(always)]
pub(crate) fn leap_end(
    leap: &Leap,
    row: usize,
    from: usize,
    len: usize,
    start: usize,
    looks: usize,
) -> Option<usize>
    requires from { from ≤ len }
    requires fits { start + len ≤ usize.MAX }
    ensures { IfSome result (λ end. (from ≤ end) × (end ≤ len)) }
{
    if !leap.rests && !leap.other_rests {
        return Some(len);
    }
    if start + from <= looks {
        return Some(len.min(looks - start));
    }
    let rests = if leap.row == row {
        leap.rests
    } else {
        leap.other_rests
    };
    if rests {
        return None;
    }
    Some(from)
}
