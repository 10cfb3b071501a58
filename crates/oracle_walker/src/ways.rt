//! Transitions: the ways out of a state at a position of an input.
ghost use Rattle.std.specs.Prelude.{◌≡◌, ◌<◌, ◌≤◌, length, map, slice_get, slice_range};
ghost use Rattle.rc_text.specs.Text.{Keeps, high, slice_end};
ghost use Rattle.rc_program.specs.Text.{ahead, holds};
ghost use Rattle.rc_program.specs.Scalars.{scalar_at};
ghost use Rattle.rc_program.specs.Sought.{text_of};
ghost use Rattle.rc_program.specs.Program.{pair_at, place_at, ways, ways_out};
ghost use Rattle.rc_program.specs.Places.{place_of, places_of};

use rc_pattern::hir::Look;
use rc_program::look::{holds, scalar_at};
use rc_program::place::Place;
use rc_program::program::Program;
use rc_program::ranges::{has_byte, has_char};
use rc_text::cursor::Cursor;
use rc_text::input::{Input, around, byte_at};

/// The byte at the position, below `hi`.
fn next_byte<C: Cursor>(input: &mut Input<C>, hi: usize, position: usize) -> Option<u8>
    ensures keeps { Keeps input.old input.new }
    ensures value { result ≡ slice_get (slice_range input.old.content position hi) 0 }
{
    if position >= hi {
        return None;
    }
    byte_at(input, position)
}

/// The character whose bytes begin at the position, below `hi`, and its number of bytes.
fn next_scalar<C: Cursor>(input: &mut Input<C>, hi: usize, position: usize) -> Option<(char, usize)>
    requires { hi ≤ length input.old.content }
    ensures keeps { Keeps input.old input.new }
    ensures value { result ≡ scalar_at (slice_range input.old.content position hi) }
{
    let mut bytes = [0; 4];
    let count = hi.saturating_sub(position).min(4);
    for len in 0..count {
        if let Some(byte) = byte_at(input, position + len) {
            bytes[len] = byte;
        }
    }
    scalar_at(&bytes[..count])
}

/// Whether the assertion holds at the position, which is in the slice.
fn holds_at<C: Cursor>(input: &mut Input<C>, look: Look, terminator: u8, position: usize) -> bool
    requires low { input.old.slice.start ≤ position }
    requires high { position ≤ slice_end input.old }
    ensures keeps { Keeps input.old input.new }
    ensures value { result ≡ holds (text_of terminator input.old) look position }
{
    let (bytes, place) = around(input, position);
    holds(look, terminator, &bytes[..place], &bytes[place..])
}

/// The first way out of a place, as a place and a position.
fn first_way<C: Cursor>(
    input: &mut Input<C>,
    place: &Place,
    terminator: u8,
    hi: usize,
    position: usize,
) -> Option<(usize, usize)>
    requires low { input.old.slice.start ≤ position }
    requires position_in { position ≤ hi }
    requires hi_in { hi ≤ high input.old }
    ensures keeps { Keeps input.old input.new }
    ensures value { result ≡ slice_get (map (pair_at position)
        (ways_out (λ l. holds (text_of terminator input.old) l position)
        (ahead (text_of terminator input.old) hi position) (place_of place.now))) 0 }
{
    match place {
        Place::Choice(first, _) => Some((*first, position)),
        Place::Pass(next) => Some((*next, position)),
        Place::Slot(_, next) => Some((*next, position)),
        Place::Dead => None,
        Place::Accept(_) => None,
        Place::Byte(byte, next) => {
            if next_byte(input, hi, position)? == *byte {
                Some((*next, position + 1))
            } else {
                None
            }
        }
        Place::Bytes(ranges, next) => {
            if has_byte(ranges, next_byte(input, hi, position)?) {
                Some((*next, position + 1))
            } else {
                None
            }
        }
        Place::Scalar(ranges, next) => {
            let (character, count) = next_scalar(input, hi, position)?;
            if has_char(ranges, character) {
                Some((*next, position + count))
            } else {
                None
            }
        }
        Place::Guard(look, next) => {
            if holds_at(input, *look, terminator, position) {
                Some((*next, position))
            } else {
                None
            }
        }
    }
}

/// The way out of a place at this index, counted from 0.
pub fn way<C: Cursor>(
    input: &mut Input<C>,
    program: &Program,
    hi: usize,
    place: usize,
    position: usize,
    number: usize,
) -> Option<(usize, usize)>
    requires place_in { place < length program.now.places.items }
    requires low { input.old.slice.start ≤ position }
    requires position_in { position ≤ hi }
    requires hi_in { hi ≤ high input.old }
    ensures keeps { Keeps input.old input.new }
    ensures value { result ≡ slice_get (ways (places_of program.now.places.items)
        (text_of program.now.terminator input.old) hi (place, position)) number }
{
    if number == 0 {
        return first_way(
            input,
            &program.places[place],
            program.terminator,
            hi,
            position,
        );
    }
    match &program.places[place] {
        Place::Choice(_, second) => {
            if number == 1 {
                Some((*second, position))
            } else {
                None
            }
        }
        Place::Pass(_)
        | Place::Dead
        | Place::Byte(_, _)
        | Place::Bytes(_, _)
        | Place::Scalar(_, _)
        | Place::Guard(_, _)
        | Place::Slot(_, _)
        | Place::Accept(_) => None,
    }
}
