//! Overlapping search for exact literals: which patterns have a match, if they are lists of needles.
ghost use Rattle.std.specs.Prelude.{◌≡◌, ◌<◌, ◌≤◌, ◌+◌, ◌↔◌, ◌⊎◌, IsTrue, true, ℕ, length};
ghost use Rattle.rc_text.specs.Text.{Keeps, high, low};
ghost use Rattle.rc_pattern_set.specs.Sets.{Has};
ghost use Rattle.rc_needles.specs.Needles.{stands_within};
ghost use Rattle.rc_needles.specs.Tables.{numbered};
ghost use Rattle.rc_literals.specs.Answers.{AddsOwners, owned_of};
ghost use Rattle.rc_literals.specs.Marks.{AddsFrom, AreDone, AreRelated, HasRelated, IsAt};

use crate::owned::OwnedNeedles;
use crate::search::{occurs, search};
use rc_needles::hit::Hit;
use rc_needles::literal::find_from;
use rc_pattern_set::sets::PatternSet;
use rc_text::cursor::Cursor;
use rc_text::input::{Input, byte_at, high, low};
use rc_text::types::{Anchored, PatternID};

/// How many needles are noted as done, each in the slot of its number.
const SLOTS: usize = 1024;

/// Inserts each pattern of which a needle occurs within the bounds, as far as the set can hold it.
/// The set keeps what it has. If only one pattern is searched for, no other is inserted.
///
/// It goes from needle to needle, and ends early if the set has all that it can hold. It allocates
/// and copies nothing.
pub fn mark_owners<C: Cursor>(input: &mut Input<C>, needles: &OwnedNeedles, set: &mut PatternSet)
    ensures keeps { Keeps input.old input.new }
    ensures adds { AddsOwners (owned_of needles.now) input.old set.old set.new }
{
    match input.get_anchored() {
        Anchored::No => mark_anywhere(input, needles, set),
        Anchored::Yes => mark_at_start(input, needles, set),
        Anchored::Pattern(pattern) => {
            if search(input, needles).is_some() {
                set.insert(pattern);
            }
        }
    }
}

/// Inserts each pattern of which a needle occurs where the bounds begin, and within them.
fn mark_at_start<C: Cursor>(input: &mut Input<C>, needles: &OwnedNeedles, set: &mut PatternSet)
    ensures keeps { Keeps input.old input.new }
    ensures adds { AddsFrom (owned_of needles.now) input.old.content (high input.old)
        (low input.old) (low input.old + 1) set.old set.new }
{
    let end = high(input);
    let at = low(input);
    if at < end {
        mark_at(input, needles, at, end, set);
    }
}

/// Inserts each pattern of which a needle occurs within the bounds.
fn mark_anywhere<C: Cursor>(input: &mut Input<C>, needles: &OwnedNeedles, set: &mut PatternSet)
    ensures keeps { Keeps input.old input.new }
    ensures adds { AddsFrom (owned_of needles.now) input.old.content (high input.old)
        (low input.old) (high input.old) set.old set.new }
{
    let end = high(input);
    let mut at = low(input);
    let mut missing = 0;
    let mut done = [usize::MAX; SLOTS];
    while at < end {
        missing = missing_from(set, missing);
        if missing >= set.capacity() {
            return;
        }
        let Some(hit) = find_from(input, &needles.prefilter, at, end) else {
            return;
        };
        mark_hit(input, needles, hit, end, &mut done, set);
        at = hit.start + 1;
    }
}

/// Returns the least number from `from` on that is no member, or the capacity.
fn missing_from(set: &PatternSet, from: usize) -> usize
    ensures { (p : ℕ) → from ≤ p → p < result → Has set.now p }
{
    let mut number = from;
    while number < set.capacity() {
        let Some(pattern) = PatternID::new(number) else {
            return number;
        };
        if !set.contains(pattern) {
            return number;
        }
        number += 1;
    }
    number
}

/// Whether one of the two begins with the other.
fn are_related(left: &[u8], right: &[u8]) -> bool
    ensures { AreRelated left.now right.now → IsTrue result }
{
    let common = left.len().min(right.len());
    &left[..common] == &right[..common]
}

/// Whether the set has the owner of each needle that may occur where the one with this number does.
fn has_related(needles: &OwnedNeedles, number: usize, set: &PatternSet) -> bool
    requires number { number < length (owned_of needles.now).needles }
    ensures { IsTrue result → HasRelated (owned_of needles.now) set.now number }
{
    let table = &needles.prefilter.searcher.table;
    let needle = table.needles[number].as_slice();
    let Some(first) = needle.get(0) else {
        return false;
    };
    let mut other = table.heads[*first as usize];
    while other < table.needles.len() {
        let is_missing = !set.contains(needles.owners[other]);
        if is_missing && are_related(needle, table.needles[other].as_slice()) {
            return false;
        }
        other = table.nexts[other];
    }
    true
}

/// Inserts each pattern of which a needle occurs where the hit begins, and ends at `end` or earlier.
/// If the hit's needle is done, the set has them, and nothing is compared.
fn mark_hit<C: Cursor>(
    input: &mut Input<C>,
    needles: &OwnedNeedles,
    hit: Hit,
    end: usize,
    done: &mut [usize; SLOTS],
    set: &mut PatternSet,
)
    requires number { hit.number < length (owned_of needles.now).needles }
    requires here { stands_within input.old.content end hit.start
        (numbered (owned_of needles.now).needles hit.number) ≡ true }
    requires low { hit.start < end }
    requires high { end ≤ length input.old.content }
    requires done { AreDone (owned_of needles.now) done.old set.old }
    ensures keeps { Keeps input.old input.new }
    ensures adds { AddsFrom (owned_of needles.now) input.old.content end hit.start
        (hit.start + 1) set.old set.new }
    ensures done { AreDone (owned_of needles.now) done.new set.new }
{
    let slot = hit.number % SLOTS;
    if done[slot] == hit.number {
        return;
    }
    mark_at(input, needles, hit.start, end, set);
    if has_related(needles, hit.number, set) {
        done[slot] = hit.number;
    }
}

/// Inserts each pattern of which a needle occurs at `at` and ends at `end` or earlier.
fn mark_at<C: Cursor>(
    input: &mut Input<C>,
    needles: &OwnedNeedles,
    at: usize,
    end: usize,
    set: &mut PatternSet,
)
    requires low { at < end }
    requires high { end ≤ length input.old.content }
    ensures keeps { Keeps input.old input.new }
    ensures adds { AddsFrom (owned_of needles.now) input.old.content end at
        (at + 1) set.old set.new }
{
    let table = &needles.prefilter.searcher.table;
    let Some(byte) = byte_at(input, at) else {
        return;
    };
    let mut number = table.heads[byte as usize];
    while number < table.needles.len() {
        mark_one(input, needles, number, at, end, set);
        number = table.nexts[number];
    }
}

/// Inserts the owner of the needle with this number, if the needle occurs at `at` and ends at `end`
/// or earlier.
fn mark_one<C: Cursor>(
    input: &mut Input<C>,
    needles: &OwnedNeedles,
    number: usize,
    at: usize,
    end: usize,
    set: &mut PatternSet,
)
    requires number { number < length (owned_of needles.now).needles }
    requires low { at ≤ end }
    requires high { end ≤ length input.old.content }
    ensures keeps { Keeps input.old input.new }
    ensures capacity { length set.new ≡ length set.old }
    ensures adds { (p : ℕ) → Has set.new p ↔ (Has set.old p ⊎ ((p < length set.old)
        × IsAt (owned_of needles.now) input.old.content end at p number)) }
{
    let owner = needles.owners[number];
    if set.contains(owner) {
        return;
    }
    let needle = needles.prefilter.searcher.table.needles[number].as_slice();
    if occurs(input, needle, at, end) {
        set.insert(owner);
    }
}
