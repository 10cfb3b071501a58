//! Transitions: how a thread goes on from a place at one position.
ghost use Rattle.std.specs.Prelude.{◌≡◌, ◌<◌, ◌≤◌, ℕ, [], ◌∷◌, length, slice_get, take, map};
ghost use Rattle.rc_pattern.specs.Meaning.{byte_range, char_range};
ghost use Rattle.rc_text.specs.Text.{Searched};
ghost use Rattle.rc_pikevm.specs.Near.{IsHere, seen_from, size};
ghost use Rattle.rc_program.specs.Places.{places_of};
ghost use Rattle.rc_program.specs.Program.{in_ranges, is_match_place, place_at, accept, byte as byte_place, guard, scalar};
ghost use Rattle.rc_program.specs.Scalars.{scalar_at};
ghost use Rattle.rc_pikevm.specs.Moves.{IsMove, IsMoveAt, moving, reading};
ghost use Rattle.rc_pikevm.specs.declared.moves.Move.TheVariants.{Matches, Stays};

use crate::sides::holds;
use crate::spot::Spot;
use rc_pattern::hir::{ClassBytesRange, ClassUnicodeRange, Look};
use rc_program::look::scalar_at;
use rc_program::place::Place;
use rc_program::program::Program;
use rc_program::ranges::{has_byte, has_char};

/// A transition: how a thread goes on from a place that it enters.
#[derive(Clone, Copy)]
pub enum Move {
    /// At either of two places, the first preferred.
    Fork(usize, usize),
    /// At a place, once the position is written to a slot: the slot's column, and the place.
    Save(usize, usize),
    /// Not at all: a walk of this pattern ends.
    Matches(usize),
    /// At a place.
    Stays(usize),
    /// At a place and a later position: the place, and the position in bytes.
    Reads(usize, usize),
    /// Not at all.
    DeadEnd,
}

/// Returns the transition of a place that a thread enters at the spot.
#[inline(always)]
pub fn look_up(spot: &Spot, place: usize) -> Move
    ghost text: { Searched }
    requires here { IsHere spot.now text }
    requires place_in { place < size spot.now.course }
    ensures { IsMove (seen_from spot.now text) (place, spot.now.at) result }
{
    match &spot.course.program.places[place] {
        Place::Choice(first, second) => Move::Fork(*first, *second),
        Place::Pass(next) => Move::Stays(*next),
        Place::Dead => Move::DeadEnd,
        Place::Byte(byte, next) => reading(*next, after_byte(spot, *byte)),
        Place::Bytes(ranges, next) => reading(*next, after_one_of(spot, place, ranges)),
        Place::Scalar(ranges, next) => reading(*next, after_scalar(spot, place, ranges)),
        Place::Guard(look, next) => {
            if !is_open(spot, *look) {
                return Move::DeadEnd;
            }
            Move::Stays(*next)
        }
        Place::Slot(_, next) => Move::Save(spot.course.program.column(place), *next),
        Place::Accept(number) => {
            if !may_end(spot, *number) {
                return Move::DeadEnd;
            }
            Move::Matches(*number)
        }
    }
}

/// The transition of a place that reads: to the place and the position, or none if there is no
/// position.
#[inline(always)]
fn reading(place: usize, to: Option<usize>) -> Move
    ensures { result ≡ reading place to }
{
    let Some(at) = to else {
        return Move::DeadEnd;
    };
    Move::Reads(place, at)
}

/// Returns the position after the next byte if that byte is `byte`.
#[inline(always)]
pub fn after_byte(spot: &Spot, byte: u8) -> Option<usize>
    ghost text: { Searched }
    requires here { IsHere spot.now text }
    ensures { (p n : ℕ) → IsMoveAt (seen_from spot.now text) (p, spot.now.at)
        (byte_place ((byte, byte) ∷ []) n) (reading n result) }
{
    let Some(found) = next_byte(spot.after, spot.course.hi - spot.at) else {
        return None;
    };
    if found != byte {
        return None;
    }
    Some(spot.at + 1)
}

/// Returns the position after the next byte if one of the place's ranges contains it.
#[inline(always)]
pub fn after_one_of(spot: &Spot, place: usize, ranges: &Vec<ClassBytesRange>) -> Option<usize>
    ghost text: { Searched }
    requires here { IsHere spot.now text }
    requires place_in { place < size spot.now.course }
    ensures { (n : ℕ) → IsMoveAt (seen_from spot.now text) (place, spot.now.at)
        (byte_place (map byte_range ranges.now.items) n) (reading n result) }
{
    let Some(found) = next_byte(spot.after, spot.course.hi - spot.at) else {
        return None;
    };
    if !takes_byte(spot.course.program, place, ranges, found) {
        return None;
    }
    Some(spot.at + 1)
}

/// Returns the position after the next scalar if one of the place's ranges contains it.
#[inline(always)]
pub fn after_scalar(spot: &Spot, place: usize, ranges: &Vec<ClassUnicodeRange>) -> Option<usize>
    ghost text: { Searched }
    requires here { IsHere spot.now text }
    requires place_in { place < size spot.now.course }
    ensures { (n : ℕ) → IsMoveAt (seen_from spot.now text) (place, spot.now.at)
        (scalar (map char_range ranges.now.items) n) (reading n result) }
{
    let Some((c, count)) = next_scalar(spot.after, spot.course.hi - spot.at) else {
        return None;
    };
    if !takes_scalar(spot.course.program, place, ranges, c) {
        return None;
    }
    Some(spot.at + count)
}

/// Whether the assertion holds at the spot.
#[inline(always)]
pub fn is_open(spot: &Spot, look: Look) -> bool
    ghost text: { Searched }
    requires here { IsHere spot.now text }
    ensures { (p n : ℕ) → IsMoveAt (seen_from spot.now text) (p, spot.now.at) (guard look n)
        (moving (Stays n) result) }
{
    holds(
        look,
        spot.course.program.terminator,
        spot.before,
        spot.after,
    )
}

/// Whether a match of the pattern may end at the spot.
#[inline(always)]
pub fn may_end(spot: &Spot, number: usize) -> bool
    ghost text: { Searched }
    requires here { IsHere spot.now text }
    ensures { (p : ℕ) → IsMoveAt (seen_from spot.now text) (p, spot.now.at) (accept number)
        (moving (Matches number) result) }
{
    is_allowed(spot.course.pattern, number)
}

/// Whether walks of the pattern count.
#[inline(always)]
fn is_allowed(pattern: Option<usize>, number: usize) -> bool
    ensures { result ≡ is_match_place pattern (accept number) }
{
    match pattern {
        None => true,
        Some(only) => number == only,
    }
}

/// Whether one of the place's ranges contains the byte. If the place has a first-byte set, that is
/// asked instead of the ranges.
#[inline(always)]
fn takes_byte(program: &Program, place: usize, ranges: &Vec<ClassBytesRange>, byte: u8) -> bool
    requires { place < length program.now.places.items }
    ensures { (n : ℕ) → place_at (places_of program.now.places.items) place
        ≡ byte_place (map byte_range ranges.now.items) n
        → result ≡ in_ranges (map byte_range ranges.now.items) byte }
{
    let Some(goes) = program.may_go_on(place, byte) else {
        return has_byte(ranges, byte);
    };
    goes
}

/// Whether one of the place's ranges contains the character. For an ASCII character, the place's
/// first-byte set is asked instead if it has one.
#[inline(always)]
fn takes_scalar(program: &Program, place: usize, ranges: &Vec<ClassUnicodeRange>, c: char) -> bool
    requires { place < length program.now.places.items }
    ensures { (n : ℕ) → place_at (places_of program.now.places.items) place
        ≡ scalar (map char_range ranges.now.items) n
        → result ≡ in_ranges (map char_range ranges.now.items) c }
{
    let code = c as u32;
    if code >= 128 {
        return has_char(ranges, c);
    }
    let Some(goes) = program.may_go_on(place, code as u8) else {
        return has_char(ranges, c);
    };
    goes
}

/// Whether one of the ranges contains the byte.
#[inline(always)]
fn next_byte(after: &[u8], room: usize) -> Option<u8>
    ensures { result ≡ slice_get (take room after.now) 0 }
{
    if room == 0 || after.is_empty() {
        return None;
    }
    Some(after[0])
}

/// Returns the scalar with which the first `room` bytes begin, and its length in bytes.
#[inline(always)]
fn next_scalar(after: &[u8], room: usize) -> Option<(char, usize)>
    ensures { result ≡ scalar_at (take room after.now) }
{
    if let Some(byte) = next_byte(after, room) {
        if byte < 128 {
            return Some((char::from(byte), 1));
        }
    }
    long_scalar(after, room)
}

/// Returns the scalar with which the first `room` bytes begin, and its length in bytes, whatever
/// its first byte is.
#[inline(never)]
fn long_scalar(after: &[u8], room: usize) -> Option<(char, usize)>
    ensures { result ≡ scalar_at (take room after.now) }
{
    scalar_at(&after[..after.len().min(room)])
}
