//! Byte classes: bytes that no step distinguishes, so that they share a column of a DFA's table.
ghost use Rattle.std.specs.Prelude.{ℕ, ◌≡◌, ◌+◌, ◌<◌, ◌≤◌, ◌||◌, IfOk, List, length, map, nat_eq, Some, slice_index, slice_index_or, false};
ghost use Rattle.std.specs.List.{list_any};
ghost use Rattle.rc_pattern.specs.Meaning.{byte_range};
ghost use Rattle.rc_program.specs.Closing.{AreJoined};
ghost use Rattle.rc_program.specs.Program.{Place};
ghost use Rattle.rc_utf8.specs.Places.{place_of, places_of};
ghost use Rattle.rc_utf8.specs.declared.place.ByteWay.{ByteWay};
ghost use Rattle.rc_determinize.specs.Sides.{told, ranges_of};
ghost use Rattle.rc_determinize.specs.Classes.{parts, is_other_line, is_other_word, is_other, is_border, ArePartedAt, AreClasses, AreSingle};

use crate::sides::{Asked, Seen, told};
use rc_pattern::hir::ClassBytesRange;
use rc_utf8::place::{BytePlace, ByteWay};
use std::alloc::{AllocError, Global};

/// Whether a step knows different facts about lines of the two bytes.
fn is_other_line(one: Seen, other: Seen) -> bool
    ensures { result ≡ is_other_line one other }
{
    one.edge != other.edge
        || one.terminator != other.terminator
        || one.line_feed != other.line_feed
        || one.carriage_return != other.carriage_return
}

/// Whether a step knows different facts about words of the two bytes.
fn is_other_word(one: Seen, other: Seen) -> bool
    ensures { result ≡ is_other_word one other }
{
    one.word != other.word || one.letter != other.letter || one.broken != other.broken
}

/// Whether a step knows different facts of the two bytes.
fn is_other(one: Seen, other: Seen) -> bool
    ensures { result ≡ is_other one other }
{
    is_other_line(one, other) || is_other_word(one, other)
}

/// Sets the flag of the byte.
fn flag(borders: &mut [bool], byte: u8)
    requires { length borders.old ≡ 256 }
    ensures { AreJoined 255 (λ b. nat_eq b byte) borders.old borders.new }
{
    borders[byte as usize] = true;
}

/// Sets the flags of the bytes that the range from `first` to `last` contains if it doesn't contain
/// the next one, and the other way round.
fn flag_range(borders: &mut [bool], first: u8, last: u8)
    requires { length borders.old ≡ 256 }
    ensures { AreJoined 255 (λ b. parts b (first, last)) borders.old borders.new }
{
    if first > last {
        return;
    }
    if first > 0 {
        flag(borders, first - 1);
    }
    flag(borders, last);
}

/// Sets the flags of the bytes that one of the ranges separates from the next one.
fn flag_ranges(borders: &mut [bool], ranges: &Vec<ClassBytesRange>)
    requires { length borders.old ≡ 256 }
    ensures { AreJoined 255 (λ b. list_any (parts b) (map byte_range ranges.now.items))
        borders.old borders.new }
{
    for range in ranges {
        flag_range(borders, range.start, range.end);
    }
}

/// Sets the flags of the bytes that one of the ways separates from the next one.
fn flag_ways(borders: &mut [bool], ways: &Vec<ByteWay>)
    requires { length borders.old ≡ 256 }
    ensures { AreJoined 255 (λ b. list_any (parts b)
        (map (λ (w : ByteWay). (w.first, w.last)) ways.now.items)) borders.old borders.new }
{
    for way in ways {
        flag_range(borders, way.first, way.last);
    }
}

/// Sets the flags of the bytes that the place may tell from the next one.
fn flag_place(borders: &mut [bool], place: &BytePlace)
    requires { length borders.old ≡ 256 }
    ensures { AreJoined 255 (λ b. list_any (parts b) (ranges_of (place_of place.now)))
        borders.old borders.new }
{
    match place {
        BytePlace::Byte(only, _) => flag_range(borders, *only, *only),
        BytePlace::Bytes(ranges, _) => flag_ranges(borders, ranges),
        BytePlace::Branch(ways) => flag_ways(borders, ways),
        _ => {}
    }
}

/// Which bytes some place may tell from the next one, in one pass over all ranges. `Err` means out
/// of memory.
fn parted(alloc: Global, places: &[BytePlace]) -> Result<Vec<bool>, AllocError>
    ensures size { IfOk result (λ borders. length borders.items ≡ 256) }
    ensures parted { IfOk result (λ borders. ArePartedAt (places_of places.now) borders.items) }
{
    let mut borders = vec![in alloc; false; 256]?;
    for place in places {
        flag_place(&mut borders, place);
    }
    Ok(borders)
}

/// Whether a class ends at the byte: some place or some assertion of the program may tell it from
/// the next byte, or only one of the two may be read. The flags of `borders` say the first.
fn is_border(borders: &[bool], needs: Asked, terminator: u8, byte: u8) -> bool
    requires size { length borders.now ≡ 256 }
    requires within { byte < 255 }
    ensures { (places : List Place) → ArePartedAt places borders.now
        → result ≡ is_border places needs terminator byte }
{
    borders[byte as usize]
        || is_other(
            told(needs, terminator, Some(byte)),
            told(needs, terminator, Some(byte + 1)),
        )
        || (needs.unicode && byte == 127)
}

/// Returns the class of each of the 256 bytes, numbered from 0 on. A class ends only where some
/// place or some assertion of the program may tell a byte from the next one, or only one of the two
/// may be read. `Err` means out of memory.
pub fn classes(
    alloc: Global,
    places: &[BytePlace],
    needs: Asked,
    terminator: u8,
) -> Result<Vec<u8>, AllocError>
    ensures { IfOk result (λ classes. AreClasses
        (places_of places.now) needs terminator classes.items) }
{
    let borders = parted(alloc, places)?;
    let mut classes = Vec::new(alloc);
    let mut class = 0;
    classes.push(class)?;
    for byte in 0..255 {
        if is_border(&borders, needs, terminator, byte) {
            class += 1;
        }
        classes.push(class)?;
    }
    Ok(classes)
}

/// Returns each of the 256 bytes as a class of its own. `Err` means out of memory.
pub fn single_classes(alloc: Global) -> Result<Vec<u8>, AllocError>
    ensures { IfOk result (λ classes. AreSingle classes.items) }
{
    let mut classes = Vec::new(alloc);
    for byte in 0..256usize {
        classes.push(byte as u8)?;
    }
    Ok(classes)
}
