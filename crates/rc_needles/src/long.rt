//! Search for one long needle: linear wherever chunks are cut.
//!
//! Candidates are looked for as those of other needles are. From a candidate on, pieces are read
//! by the needle's failure function, so that no byte is read again.
//!
//! A needle that would end in a later chunk is looked at there first. If the needle lacks the byte
//! at which it would end, no start up to that byte is a candidate:
//!
//!     needle     a a a a a a
//!     chunks     a a a a|a b|a a a a      it would end at `b`, so none of the six starts is one
//!     next start             ^
ghost use Rattle.std.specs.Prelude.{◌≡◌, ◌+◌, ◌<◌, ◌≤◌, ℕ, IfSome, None, false, length};
ghost use Rattle.rc_text.specs.Text.{Keeps};
ghost use Rattle.rc_needles.specs.Needles.{find_needle, needle_at, stands_within};
ghost use Rattle.rc_needles.specs.Scans.{IsLongSearch};
ghost use Rattle.rc_needles.specs.Tables.{needles_in};

use crate::candidates::place_from;
use crate::failure::read_on;
use crate::hit::Hit;
use crate::scan::NeedleSearch;
use memchr::memchr;
use rc_text::cursor::Cursor;
use rc_text::input::{Input, byte_at, piece_from};

/// Returns where the needle occurs first from `from` on, up to `end`, in bytes.
#[inline(never)]
pub fn find_long<C: Cursor>(
    input: &mut Input<C>,
    searcher: &NeedleSearch,
    failures: &[usize],
    from: usize,
    end: usize,
) -> Option<Hit>
    requires inside { end ≤ length input.old.content }
    requires long { IsLongSearch (needles_in searcher.now.table.needles.items) searcher.now.offset
        failures.now }
    ensures keeps { Keeps input.old input.new }
    ensures value { result ≡ find_needle (needles_in searcher.now.table.needles.items)
        input.old.content from end }
    ensures within { IfSome result (λ hit. (from ≤ hit.start) × (hit.start < hit.end)
        × (hit.end ≤ end)) }
{
    let needle = searcher.table.needles[0].as_slice();
    let mut at = from;
    let mut state = 0;
    let mut ahead = from;
    while at < end {
        at = next_place(input, searcher, &mut ahead, state, at, end);
        let piece = piece_from(input, at, end);
        let reading = read_on(needle, failures, state, piece);
        at += reading.len;
        state = reading.state;
        if state == needle.len() {
            return Some(Hit {
                start: at - state,
                end: at,
                number: 0,
            });
        }
    }
    None
}

/// Returns where to read on: at the next candidate from `at` on, if no bytes of the needle stand
/// before it. If there is none below `end`, it is at least `end`. From `ahead` on, the bytes at
/// which the needle would end weren't looked at yet.
#[inline(always)]
fn next_place<C: Cursor>(
    input: &mut Input<C>,
    searcher: &NeedleSearch,
    ahead: &mut usize,
    state: usize,
    at: usize,
    end: usize,
) -> usize
    requires inside { end ≤ length input.old.content }
    requires from_start { searcher.now.offset ≡ 0 }
    requires one { length (needles_in searcher.now.table.needles.items) ≡ 1 }
    ensures keeps { Keeps input.old input.new }
    ensures low { at ≤ result }
    ensures stays { 0 < state → result ≡ at }
    ensures passed { (i : ℕ) → at ≤ i → i < result
        → needle_at (needles_in searcher.now.table.needles.items) input.old.content end i ≡ None }
{
    if state > 0 {
        return at;
    }
    let needle = searcher.table.needles[0].as_slice();
    let start = next_start(input, needle, ahead, at, end);
    place_from(input, searcher, start, end)
}

/// Returns the first start from `at` on that no byte rules out at which the needle would end. Each
/// byte is looked at once.
#[inline(always)]
fn next_start<C: Cursor>(
    input: &mut Input<C>,
    needle: &[u8],
    ahead: &mut usize,
    at: usize,
    end: usize,
) -> usize
    requires inside { end ≤ length input.old.content }
    ensures keeps { Keeps input.old input.new }
    ensures low { at ≤ result }
    ensures passed { (i : ℕ) → at ≤ i → i < result
        → stands_within input.old.content end i needle.now ≡ false }
{
    if at < *ahead {
        return at;
    }
    let start = pass_starts(input, needle, at, end);
    *ahead = start.saturating_add(needle.len());
    start
}

/// Passes over starts from `from` on, as long as the needle would end in a later chunk, and lacks
/// the byte there. Returns the first start that isn't passed over.
#[inline(never)]
fn pass_starts<C: Cursor>(input: &mut Input<C>, needle: &[u8], from: usize, end: usize) -> usize
    requires inside { end ≤ length input.old.content }
    ensures keeps { Keeps input.old input.new }
    ensures low { from ≤ result }
    ensures passed { (i : ℕ) → from ≤ i → i < result
        → stands_within input.old.content end i needle.now ≡ false }
{
    let mut at = from;
    while at < end {
        let Some(last) = last_byte_of(needle, at, end) else {
            return at;
        };
        if shows(input, last) {
            return at;
        }
        let Some(byte) = byte_at(input, last) else {
            return at;
        };
        match memchr(byte, needle) {
            Some(_) => return at,
            None => at = last + 1,
        }
    }
    at
}

/// Returns where the last byte of the needle would stand that begins at `at`, if it ends at `end` or
/// earlier.
fn last_byte_of(needle: &[u8], at: usize, end: usize) -> Option<usize>
    requires { at < end }
    ensures { IfSome result (λ last. (at ≤ last) × (last < end)
        × (last + 1 ≡ at + length needle.now)) }
{
    if needle.len() == 0 || needle.len() > end - at {
        return None;
    }
    Some(at + needle.len() - 1)
}

/// Whether the shown chunk has the byte at `p`.
fn shows<C: Cursor>(input: &Input<C>, p: usize) -> bool {
    let offset = input.chunk_offset();
    offset <= p && p - offset < input.chunk().len()
}
