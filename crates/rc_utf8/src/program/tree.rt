//! UTF-8 automata: the places of one class. They are a tree over its sequences, with shared places
//! for continuation bytes.

ghost use Rattle.std.specs.Prelude.{◌≡◌, ◌+◌, ◌-◌, ◌<◌, ◌≤◌, ◌^◌, [], ◌∷◌, ◌++◌, IfOk, drop, length, take, vec_len};
ghost use Rattle.std.specs.List.{AllByRecursion};
ghost use Rattle.rc_pattern.specs.Meaning.{byte_range};
ghost use Rattle.rc_utf8.specs.Bytes.{none, rest_of, size, tails, tree_of};
ghost use Rattle.rc_utf8.specs.Places.{longest, AllBegin, IsDeep, IsNext, Lays, all_left_at, begins_with, left_at, place_of, places_of, sequence_of, sequences_of, ways_of};

use super::sequence::Sequence;
use crate::place::{BytePlace, ByteWay};
use rc_pattern::hir::ClassBytesRange;
use std::alloc::{AllocError, Global};

/// Where a class leads: to `next`, after `count` places for continuation bytes. The first of these
/// is place `tail` and reads `count` bytes of any value; each of the others reads one less.
#[derive(Clone, Copy)]
pub(super) struct Exits {
    pub(super) count: usize,
    pub(super) tail: usize,
    pub(super) next: usize,
}

/// Appends one place.
pub(super) fn append(places: &mut Vec<BytePlace>, place: BytePlace) -> Result<(), AllocError>
    ensures long { IfOk result (λ _. vec_len places.new ≡ vec_len places.old + 1) }
    ensures more { IfOk result (λ _. places_of places.new.items ≡ places_of places.old.items
        ++ place_of place ∷ []) }
{
    places.push(place)?;
    Ok(())
}

/// Appends one way.
fn add_way(ways: &mut Vec<ByteWay>, range: ClassBytesRange, next: usize) -> Result<(), AllocError>
    ensures { IfOk result (λ _. ways_of ways.new.items ≡ ways_of ways.old.items
        ++ (byte_range range, next) ∷ []) }
{
    ways.push(ByteWay {
        first: range.start,
        last: range.end,
        next,
    })?;
    Ok(())
}

/// Returns the place that reads any `rest` continuation bytes.
fn rest_of(exits: Exits, rest: usize) -> usize
    requires few { rest ≤ exits.count }
    requires room { exits.tail + exits.count < 2 ^ 62 }
    ensures { result ≡ rest_of exits.count exits.tail exits.next rest }
{
    if rest == 0 {
        return exits.next;
    }
    exits.tail + (exits.count - rest)
}

/// Appends the places that read continuation bytes of any value.
pub(super) fn add_tails(
    alloc: Global,
    blocks: &mut Vec<BytePlace>,
    exits: Exits,
) -> Result<(), AllocError>
    requires room { exits.tail + exits.count < 2 ^ 62 }
    ensures long { IfOk result (λ _. vec_len blocks.new ≡ vec_len blocks.old + exits.count) }
    ensures more { IfOk result (λ _. places_of blocks.new.items ≡ places_of blocks.old.items
        ++ tails exits.count exits.tail exits.next) }
{
    for i in 0..exits.count {
        let next = rest_of(exits, exits.count - i - 1);
        let mut ways = Vec::new(alloc);
        let range = ClassBytesRange {
            start: 128,
            end: 191,
        };
        add_way(&mut ways, range, next)?;
        append(blocks, BytePlace::Branch(ways))?;
    }
    Ok(())
}

/// Returns the most continuation bytes of any value with which a sequence ends.
pub(super) fn longest(sequences: &[Sequence]) -> usize
    ensures { result ≡ longest (sequences_of sequences.now) }
{
    let mut longest = 0;
    for sequence in sequences {
        if longest < sequence.rest {
            longest = sequence.rest;
        }
    }
    longest
}

/// Whether the sequence goes on with this range after `level` ranges, and then with others.
fn begins_with(sequence: &Sequence, level: usize, range: ClassBytesRange) -> bool
    requires { level < 4 }
    ensures { result ≡ begins_with (byte_range range) (left_at level (sequence_of sequence.now)).0 }
{
    if sequence.ranges.len() <= level + 1 {
        return false;
    }
    let here = sequence.ranges.get(level);
    here.start == range.start && here.end == range.end
}

/// Returns how many of the first sequences go on with this range after `level` ranges, and then
/// with others.
fn group_len(sequences: &[Sequence], level: usize, range: ClassBytesRange) -> usize
    requires { level < 4 }
    ensures within { result ≤ length sequences.now }
    ensures group { AllBegin (byte_range range)
        (take result (all_left_at level (sequences_of sequences.now))) }
    ensures others { IsNext (byte_range range)
        (drop result (all_left_at level (sequences_of sequences.now))) }
{
    for i in 0..sequences.len() {
        if !begins_with(&sequences[i], level, range) {
            return i;
        }
    }
    sequences.len()
}

/// Appends the first way over sequences after `level` ranges, and the places below it. `blocks`
/// begin at place number `first`. Returns how many sequences go by that way.
#[cycle(tree)]
fn add_group(
    alloc: Global,
    blocks: &mut Vec<BytePlace>,
    first: usize,
    exits: Exits,
    ways: &mut Vec<ByteWay>,
    sequences: &[Sequence],
    level: usize,
) -> Result<usize, AllocError>
    requires some { 0 < length sequences.now }
    requires deep { AllByRecursion (IsDeep level exits.count) (sequences_of sequences.now) }
    requires tails { exits.tail + exits.count < 2 ^ 62 }
    requires room { first + vec_len blocks.old
        + size (tree_of (all_left_at level (sequences_of sequences.now))) < 2 ^ 62 }
    ensures some { IfOk result (λ count. 0 < count) }
    ensures within { IfOk result (λ count. count ≤ length sequences.now) }
    ensures laid { IfOk result (λ count. Lays exits.count exits.tail exits.next
        (tree_of (all_left_at level (sequences_of sequences.now)))
        (tree_of (all_left_at level (sequences_of (drop count sequences.now))))
        (first + vec_len blocks.old) (first
        + vec_len blocks.new) ways.old.items ways.new.items blocks.old.items blocks.new.items) }
{
    let sequence = &sequences[0];
    let range = sequence.ranges.get(level);
    if sequence.ranges.len() == level + 1 {
        let next = rest_of(exits, sequence.rest);
        add_way(ways, range, next)?;
        return Ok(1);
    }
    let count = group_len(sequences, level, range);
    let below = add_tree(alloc, blocks, first, exits, &sequences[..count], level + 1)?;
    let here = first + blocks.len();
    append(blocks, BytePlace::Branch(below))?;
    add_way(ways, range, here)?;
    Ok(count)
}

/// Returns the ways over sequences after `level` ranges, and appends the places below them to
/// `blocks`, which begin at place number `first`.
#[cycle(tree)]
pub(super) fn add_tree(
    alloc: Global,
    blocks: &mut Vec<BytePlace>,
    first: usize,
    exits: Exits,
    sequences: &[Sequence],
    level: usize,
) -> Result<Vec<ByteWay>, AllocError>
    requires deep { AllByRecursion (IsDeep level exits.count) (sequences_of sequences.now) }
    requires tails { exits.tail + exits.count < 2 ^ 62 }
    requires room { first + vec_len blocks.old
        + size (tree_of (all_left_at level (sequences_of sequences.now))) < 2 ^ 62 }
    ensures { IfOk result (λ ways. Lays exits.count exits.tail exits.next
        (tree_of (all_left_at level (sequences_of sequences.now))) none
        (first + vec_len blocks.old) (first
        + vec_len blocks.new) [] ways.items blocks.old.items blocks.new.items) }
{
    let mut ways = Vec::new(alloc);
    let mut at = 0;
    while at < sequences.len() {
        let count = add_group(
            alloc,
            blocks,
            first,
            exits,
            &mut ways,
            &sequences[at..],
            level,
        )?;
        at += count;
    }
    Ok(ways)
}
