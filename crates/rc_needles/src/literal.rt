//! Literal search: the first needle at the least start, across the borders of chunks.
ghost use Rattle.std.specs.Prelude.{◌≡◌, ◌+◌, ◌<◌, ◌≤◌, ℕ, IfSome, IsTrue, List, Some, bytes_eq, false, length, slice_get, slice_range, true};
ghost use Rattle.rc_text.specs.Text.{Keeps, high, low};
ghost use Rattle.rc_needles.specs.Needles.{find_needle, needle_at, prefix_needle, stands_within};
ghost use Rattle.rc_needles.specs.Prefilters.{needles_of};
ghost use Rattle.rc_needles.specs.Tables.{BeginsWithByte, needles_in, numbered};
ghost use Rattle.rc_needles.specs.Tries.{AreCarriedBy, IsCarried};

use crate::candidates::place_from;
use crate::hit::Hit;
use crate::long::find_long;
use crate::many::candidate_in;
use crate::prefilter::Prefilter;
use crate::scan::{FirstBytes, NeedleSearch, Scan};
use crate::table::Table;
use crate::trie::{ROOT, Trie};
use rc_text::cursor::Cursor;
use rc_text::input::{Input, byte_at, high, low, piece_from};

/// Whether the needle occurs from `at` to `to`, compared a piece of a chunk at a time.
#[inline(always)]
pub fn stands_by_pieces<C: Cursor>(
    input: &mut Input<C>,
    needle: &[u8],
    at: usize,
    to: usize,
) -> bool
    requires long { to ≡ at + length needle.now }
    requires within { to ≤ length input.old.content }
    ensures keeps { Keeps input.old input.new }
    ensures value { result ≡ bytes_eq (slice_range input.old.content at
        (at + length needle.now)) needle.now }
{
    let mut done = 0;
    while done < needle.len() {
        let piece = piece_from(input, at + done, to);
        let len = piece.len();
        if piece != &needle[done..done + len] {
            return false;
        }
        done += len;
    }
    true
}

/// Whether the needle occurs from `at` to `to`, if its first byte does.
#[inline(always)]
fn stands<C: Cursor>(input: &mut Input<C>, needle: &[u8], at: usize, to: usize) -> bool
    requires long { to ≡ at + length needle.now }
    requires within { to ≤ length input.old.content }
    requires begins { slice_get needle.now 0 ≡ slice_get input.old.content at }
    ensures keeps { Keeps input.old input.new }
    ensures value { result ≡ bytes_eq (slice_range input.old.content at
        (at + length needle.now)) needle.now }
{
    if needle.len() == 1 {
        return true;
    }
    stands_by_pieces(input, needle, at, to)
}

/// Returns the least number of a needle that may occur at `at`, by the trie, or how many needles
/// there are if none does.
#[inline(always)]
fn least_number<C: Cursor>(
    input: &mut Input<C>,
    trie: &Trie,
    at: usize,
    end: usize,
    count: usize,
) -> usize
    requires { end ≤ length input.old.content }
    ensures keeps { Keeps input.old input.new }
    ensures least { (needle : List ℕ) (n : ℕ) → IsCarried trie.now.nodes.items needle n
        → 0 < length needle
        → stands_within input.old.content end at needle ≡ true → result ≤ n }
{
    let mut best = count;
    let mut node = ROOT;
    let mut place = at;
    while place < end {
        let Some(byte) = byte_at(input, place) else {
            return 0;
        };
        node = trie.step(node, byte);
        if node == 0 {
            return best;
        }
        best = best.min(trie.number(node));
        place += 1;
    }
    best
}

/// Whether the needle begins with the byte.
fn begins_with(needle: &[u8], byte: u8) -> bool
    ensures { IsTrue result → BeginsWithByte needle.now byte }
{
    match needle.get(0) {
        Some(first) => *first == byte,
        None => false,
    }
}

/// Returns a number: no needle of a lesser one occurs at `at`, where the content has this byte. It
/// is that of a needle that begins with the byte, or how many needles there are.
#[inline(always)]
fn start_number<C: Cursor>(
    input: &mut Input<C>,
    table: &Table,
    at: usize,
    end: usize,
    byte: u8,
) -> usize
    requires high { end ≤ length input.old.content }
    requires here { slice_get input.old.content at ≡ Some byte }
    ensures keeps { Keeps input.old input.new }
    ensures high { result ≤ length (needles_in table.now.needles.items) }
    ensures begins { result < length (needles_in table.now.needles.items)
        → BeginsWithByte (numbered (needles_in table.now.needles.items) result) byte }
    ensures none_below { (k : ℕ) → k < result → k < length (needles_in table.now.needles.items)
        → stands_within input.old.content end at (numbered (needles_in table.now.needles.items) k)
        ≡ false }
{
    let head = table.heads[byte as usize];
    let Some(trie) = &table.trie else {
        return head;
    };
    let count = table.needles.len();
    let least = least_number(input, trie, at, end, count);
    if least >= count {
        return count;
    }
    if begins_with(table.needles[least].as_slice(), byte) {
        return least;
    }
    head
}

/// Returns the first of the needles that occurs at `at` and ends at `end` or earlier.
#[inline(always)]
fn needle_at<C: Cursor>(input: &mut Input<C>, table: &Table, at: usize, end: usize) -> Option<Hit>
    requires low { at < end }
    requires high { end ≤ length input.old.content }
    ensures keeps { Keeps input.old input.new }
    ensures value { result ≡ needle_at (needles_in table.now.needles.items) input.old.content end
        at }
{
    let byte = byte_at(input, at)?;
    let mut number = start_number(input, table, at, end, byte);
    while number < table.needles.len() {
        let needle = table.needles[number].as_slice();
        let len = needle.len();
        if len <= end - at {
            let to = at + len;
            if stands(input, needle, at, to) {
                return Some(Hit {
                    start: at,
                    end: to,
                    number,
                });
            }
        }
        number = table.nexts[number];
    }
    None
}

/// Returns the first of the needles that occurs at `at` and ends at `end` or earlier. It is not
/// inlined.
#[inline(never)]
fn needle_there<C: Cursor>(
    input: &mut Input<C>,
    table: &Table,
    at: usize,
    end: usize,
) -> Option<Hit>
    requires low { at < end }
    requires high { end ≤ length input.old.content }
    ensures keeps { Keeps input.old input.new }
    ensures value { result ≡ needle_at (needles_in table.now.needles.items) input.old.content end
        at }
{
    needle_at(input, table, at, end)
}

/// Returns the trie if needles are searched for by it: if they have one, and begin with many
/// different bytes.
#[inline(always)]
fn trie_sought(searcher: &NeedleSearch) -> Option<&Trie>
    ensures { IfSome result (λ trie. AreCarriedBy (Some trie.now)
        (needles_in searcher.now.table.needles.items)) }
{
    match &searcher.scan {
        Scan::FirstBytes(FirstBytes::Many) => searcher.table.trie.as_ref(),
        _ => None,
    }
}

/// Returns what `find_from` does, by the trie.
#[inline(never)]
fn find_by_trie<C: Cursor>(
    input: &mut Input<C>,
    table: &Table,
    trie: &Trie,
    from: usize,
    end: usize,
) -> Option<Hit>
    requires inside { end ≤ length input.old.content }
    requires carried { AreCarriedBy (Some trie.now) (needles_in table.now.needles.items) }
    ensures keeps { Keeps input.old input.new }
    ensures value { result ≡ find_needle
        (needles_in table.now.needles.items) input.old.content from end }
    ensures within { IfSome result (λ hit. (from ≤ hit.start) × (hit.start < hit.end)
        × (hit.end ≤ end)) }
{
    let mut at = from;
    while at < end {
        let piece = piece_from(input, at, end);
        let len = piece.len();
        let seen = candidate_in(table, trie, piece);
        at += seen.passed;
        if seen.number < table.needles.len() {
            return Some(Hit {
                start: at,
                end: at + table.needles[seen.number].as_slice().len(),
                number: seen.number,
            });
        }
        if seen.passed < len {
            if let Some(hit) = needle_there(input, table, at, end) {
                return Some(hit);
            }
            at += 1;
        }
    }
    None
}

/// Returns what `find_from` does, by candidates.
#[inline(never)]
fn find_by_places<C: Cursor>(
    input: &mut Input<C>,
    prefilter: &Prefilter,
    from: usize,
    end: usize,
) -> Option<Hit>
    requires inside { end ≤ length input.old.content }
    ensures keeps { Keeps input.old input.new }
    ensures value { result ≡ find_needle (needles_of prefilter.now) input.old.content from end }
    ensures within { IfSome result (λ hit. (from ≤ hit.start) × (hit.start < hit.end)
        × (hit.end ≤ end)) }
{
    let searcher = &prefilter.searcher;
    let offset = searcher.offset;
    let last = end.saturating_sub(offset);
    let mut at = from;
    while at < last {
        at = place_from(input, searcher, at + offset, end) - offset;
        if at < last {
            if let Some(hit) = needle_at(input, &searcher.table, at, end) {
                return Some(hit);
            }
            at += 1;
        }
    }
    None
}

/// Returns the first of the needles at the least start from `from` on at which one occurs that ends
/// at `end` or earlier, in bytes.
///
/// It reads the uncut bytes, wherever the input was before. It allocates and copies nothing. The
/// input's bounds are not read.
pub fn find_from<C: Cursor>(
    input: &mut Input<C>,
    prefilter: &Prefilter,
    from: usize,
    end: usize,
) -> Option<Hit>
    requires inside { end ≤ length input.old.content }
    ensures keeps { Keeps input.old input.new }
    ensures value { result ≡ find_needle (needles_of prefilter.now) input.old.content from end }
    ensures within { IfSome result (λ hit. (from ≤ hit.start) × (hit.start < hit.end)
        × (hit.end ≤ end)) }
{
    let searcher = &prefilter.searcher;
    if !searcher.failures.is_empty() {
        return find_long(input, searcher, searcher.failures.as_slice(), from, end);
    }
    if let Some(trie) = trie_sought(searcher) {
        return find_by_trie(input, &searcher.table, trie, from, end);
    }
    find_by_places(input, prefilter, from, end)
}

/// Returns the first of the needles at the least start at which one occurs within the bounds.
///
/// It reads the uncut bytes, wherever the input was before. It allocates and copies nothing.
pub fn find<C: Cursor>(input: &mut Input<C>, prefilter: &Prefilter) -> Option<Hit>
    ensures keeps { Keeps input.old input.new }
    ensures value { result ≡ find_needle (needles_of prefilter.now) input.old.content
        (low input.old) (high input.old) }
    ensures within { IfSome result (λ hit. (low input.old ≤ hit.start) × (hit.start < hit.end)
        × (hit.end ≤ high input.old)) }
{
    let end = high(input);
    let from = low(input);
    find_from(input, prefilter, from, end)
}

/// Returns the first of the needles that occurs where the bounds begin, and within them.
pub fn prefix<C: Cursor>(input: &mut Input<C>, prefilter: &Prefilter) -> Option<Hit>
    ensures keeps { Keeps input.old input.new }
    ensures value { result ≡ prefix_needle (needles_of prefilter.now) input.old.content
        (low input.old) (high input.old) }
    ensures within { IfSome result (λ hit. (hit.start ≡ low input.old) × (hit.start < hit.end)
        × (hit.end ≤ high input.old)) }
{
    let end = high(input);
    let at = low(input);
    if at < end {
        return needle_there(input, &prefilter.searcher.table, at, end);
    }
    None
}
