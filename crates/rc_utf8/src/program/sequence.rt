//! UTF-8 sequences: the ranges of bytes that encode the scalars of a class.

ghost use Rattle.std.specs.Prelude.{◌≡◌, [], ◌∷◌, ◌++◌, ◌<◌, ◌≤◌, ◌-◌, ◌+◌, IfOk, length, map, max, min, nat_le, nat_lt, ◌&&◌};
ghost use Rattle.rc_pattern.specs.Meaning.{byte_range, char_range};
ghost use Rattle.rc_utf8.specs.Bytes.{after, all_are, all_pieces, between, from_bytes, if_some, only_range, over_both, pieces, sequences, to_bytes, within_bytes};
ghost use Rattle.rc_utf8.specs.Places.{sequences_of};

use super::ranges::Ranges;
use rc_pattern::hir::{ClassBytesRange, ClassUnicodeRange};
use std::alloc::AllocError;

/// A sequence: one byte of each of the ranges in turn, and then `rest` continuation bytes of any
/// value.
#[derive(Drop)]
pub(super) struct Sequence {
    pub(super) ranges: Ranges,
    pub(super) rest: usize,
}

/// Returns the ranges with one more, which is the byte alone.
fn extended(ranges: &Ranges, byte: u8) -> Ranges
    requires { length ranges.now < 4 }
    ensures longer { map byte_range result ≡ map byte_range ranges.now ++ (byte, byte) ∷ [] }
    ensures len { length result ≡ length ranges.now + 1 }
{
    ranges.followed_by(ClassBytesRange {
        start: byte,
        end: byte,
    })
}

/// Adds the sequence of the ranges, one more range, and `rest` continuation bytes.
fn add_range(
    list: &mut Vec<Sequence>,
    ranges: &Ranges,
    start: u8,
    end: u8,
    rest: usize,
) -> Result<(), AllocError>
    requires { length ranges.now < 4 }
    ensures { IfOk result (λ _. sequences_of list.new.items
        ≡ sequences_of list.old.items ++ after (map byte_range ranges.now)
        (only_range start end rest)) }
{
    let ranges = ranges.followed_by(ClassBytesRange { start, end });
    list.push(Sequence { ranges, rest })?;
    Ok(())
}

/// Adds the sequence of the ranges, a byte above `byte` up to `end`, if there is one, and `rest`
/// continuation bytes.
fn add_above(
    list: &mut Vec<Sequence>,
    ranges: &Ranges,
    byte: u8,
    end: u8,
    rest: usize,
) -> Result<(), AllocError>
    requires { length ranges.now < 4 }
    ensures { IfOk result (λ _. sequences_of list.new.items
        ≡ sequences_of list.old.items ++ after (map byte_range ranges.now)
        (if_some (byte + 1) end rest)) }
{
    if byte >= end {
        return Ok(());
    }
    add_range(list, ranges, byte + 1, end, rest)
}

/// Adds the sequence of the ranges, a continuation byte below `byte`, if there is one, and `rest`
/// continuation bytes.
fn add_below(
    list: &mut Vec<Sequence>,
    ranges: &Ranges,
    byte: u8,
    rest: usize,
) -> Result<(), AllocError>
    requires { length ranges.now < 4 }
    ensures { IfOk result (λ _. sequences_of list.new.items
        ≡ sequences_of list.old.items ++ after (map byte_range ranges.now)
        (if_some 128 (byte - 1) rest)) }
{
    if byte <= 128 {
        return Ok(());
    }
    add_range(list, ranges, 128, byte - 1, rest)
}

/// Whether each of the bytes is this one.
fn all_are(byte: u8, bytes: &[u8]) -> bool
    ensures { result ≡ all_are byte bytes.now }
{
    for i in 0..bytes.len() {
        if bytes[i] != byte {
            return false;
        }
    }
    true
}

/// Whether the bytes from `first` and `left` on, with a first byte up to `last`, are all those that
/// begin with a byte from `first` to `last`.
fn reach_all_from(first: u8, left: &[u8], last: u8) -> bool
    ensures { result ≡ (all_are 128 left.now && nat_le first last) }
{
    all_are(128, left) && first <= last
}

/// Whether the bytes up to `last` and `left`, with a lesser first byte, are all those that begin
/// with a byte up to `last`.
fn reach_all_to(first: u8, last: u8, left: &[u8]) -> bool
    ensures { result ≡ (all_are 191 left.now && nat_lt first last) }
{
    all_are(191, left) && first < last
}

/// Whether the bytes from `low` to `high` are all continuation bytes.
fn are_any(low: &[u8], high: &[u8]) -> bool
    ensures { result ≡ (all_are 128 low.now && all_are 191 high.now) }
{
    all_are(128, low) && all_are(191, high)
}

/// Adds the sequences over the bytes that are at least `low`, with a first byte up to `last`, after
/// the ranges.
fn add_from(
    list: &mut Vec<Sequence>,
    ranges: &Ranges,
    low: &[u8],
    last: u8,
) -> Result<(), AllocError>
    requires { length ranges.now + length low.now ≤ 4 }
    ensures { IfOk result (λ _. sequences_of list.new.items
        ≡ sequences_of list.old.items ++ after (map byte_range ranges.now)
        (from_bytes low.now last)) }
{
    let [first, left @ ..] = low else {
        return Ok(());
    };
    let first = *first;
    if reach_all_from(first, left, last) {
        return add_range(list, ranges, first, last, left.len());
    }
    let longer = extended(ranges, first);
    add_from(list, &longer, left, 191)?;
    add_above(list, ranges, first, last, left.len())
}

/// Adds the sequences over the continuation bytes that are at most `high`, after the ranges.
fn add_to(list: &mut Vec<Sequence>, ranges: &Ranges, high: &[u8]) -> Result<(), AllocError>
    requires { length ranges.now + length high.now ≤ 4 }
    ensures { IfOk result (λ _. sequences_of list.new.items
        ≡ sequences_of list.old.items ++ after (map byte_range ranges.now) (to_bytes high.now)) }
{
    let [last, left @ ..] = high else {
        return Ok(());
    };
    let last = *last;
    if all_are(191, left) {
        return add_range(list, ranges, 128, last, left.len());
    }
    add_below(list, ranges, last, left.len())?;
    let longer = extended(ranges, last);
    add_to(list, &longer, left)
}

/// Adds the sequences over the bytes from `low` to those of `last` and `high`, after the ranges.
/// The first byte of `low` isn't `last`.
fn add_both(
    list: &mut Vec<Sequence>,
    ranges: &Ranges,
    low: &[u8],
    first: u8,
    last: u8,
    high: &[u8],
) -> Result<(), AllocError>
    requires low { length ranges.now + length low.now ≤ 4 }
    requires high { length ranges.now + length high.now < 4 }
    ensures { IfOk result (λ _. sequences_of list.new.items ≡ sequences_of list.old.items
        ++ after (map byte_range ranges.now)
        (over_both (all_are 191 high.now && nat_lt first last) low.now last high.now)) }
{
    if reach_all_to(first, last, high) {
        return add_from(list, ranges, low, last);
    }
    add_from(list, ranges, low, last.saturating_sub(1))?;
    let longer = extended(ranges, last);
    add_to(list, &longer, high)
}

/// Adds the sequences over the bytes from `low` to `high`, which are as many, after the ranges.
fn add_within(
    list: &mut Vec<Sequence>,
    ranges: &Ranges,
    low: &[u8],
    high: &[u8],
) -> Result<(), AllocError>
    requires low { length ranges.now + length low.now ≤ 4 }
    requires high { length ranges.now + length high.now ≤ 4 }
    ensures { IfOk result (λ _. sequences_of list.new.items
        ≡ sequences_of list.old.items ++ after (map byte_range ranges.now)
        (within_bytes low.now high.now)) }
{
    let [first, low_left @ ..] = low else {
        return Ok(());
    };
    let [last, high_left @ ..] = high else {
        return Ok(());
    };
    let (first, last) = (*first, *last);
    if low_left.is_empty() {
        return add_range(list, ranges, first, last, 0);
    }
    if first != last {
        return add_both(list, ranges, low, first, last, high_left);
    }
    if are_any(low_left, high_left) {
        return add_range(list, ranges, first, first, low_left.len());
    }
    let longer = extended(ranges, first);
    add_within(list, &longer, low_left, high_left)
}

/// Returns the later of two scalars.
fn later(one: char, other: char) -> char
    ensures { result ≡ max one other }
{
    if one < other {
        return other;
    }
    one
}

/// Returns the earlier of two scalars.
fn earlier(one: char, other: char) -> char
    ensures { result ≡ min one other }
{
    if other < one {
        return other;
    }
    one
}

/// Adds the sequences of the scalars of a range from `least` to `most`, all of which take the same
/// number of bytes.
fn add_between(
    list: &mut Vec<Sequence>,
    range: ClassUnicodeRange,
    least: char,
    most: char,
) -> Result<(), AllocError>
    ensures { IfOk result (λ _. sequences_of list.new.items
        ≡ sequences_of list.old.items ++ sequences (between least most (char_range range))) }
{
    let from = later(range.start, least);
    let to = earlier(range.end, most);
    if from > to {
        return Ok(());
    }
    let mut low = [0; 4];
    let low = from.encode_utf8(&mut low).as_bytes();
    let mut high = [0; 4];
    let high = to.encode_utf8(&mut high).as_bytes();
    add_within(list, &Ranges::new(), low, high)
}

/// Adds the sequences of the characters of a range.
fn add_scalars(list: &mut Vec<Sequence>, range: ClassUnicodeRange) -> Result<(), AllocError>
    ensures { IfOk result (λ _. sequences_of list.new.items
        ≡ sequences_of list.old.items ++ sequences (pieces (char_range range))) }
{
    add_between(list, range, '\0', '\u{7F}')?;
    add_between(list, range, '\u{80}', '\u{7FF}')?;
    add_between(list, range, '\u{800}', '\u{D7FF}')?;
    add_between(list, range, '\u{E000}', '\u{FFFF}')?;
    add_between(list, range, '\u{10000}', char::MAX)
}

/// Replaces the list by the sequences of the scalars of the ranges. `Err` means out of memory.
pub(super) fn put_sequences(
    list: &mut Vec<Sequence>,
    ranges: &[ClassUnicodeRange],
) -> Result<(), AllocError>
    ensures { IfOk result (λ _. sequences_of list.new.items
        ≡ sequences (all_pieces (map char_range ranges.now))) }
{
    list.clear();
    for i in 0..ranges.len() {
        add_scalars(list, ranges[i])?;
    }
    Ok(())
}
