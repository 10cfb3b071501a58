//! UTF-8 automata: from a program to its byte program.

ghost use Rattle.std.specs.Prelude.{◌≡◌, ◌+◌, ◌*◌, ◌<◌, ◌≤◌, ◌^◌, [], ◌∷◌, ◌++◌, IfOk, length, map, vec_len};
ghost use Rattle.rc_pattern.specs.Limits.{greatest_weight};
ghost use Rattle.rc_pattern.specs.Meaning.{char_range};
ghost use Rattle.rc_program.specs.Program.{scalar};
ghost use Rattle.rc_program.specs.Laws.{heaviness, place_weight};
ghost use Rattle.rc_program.specs.Places.{place_of as source_of, places_of as sources_of};
ghost use Rattle.rc_utf8.specs.Bytes.{block, byte_place, bytes_of};
ghost use Rattle.rc_utf8.specs.Places.{places_of};

mod ranges;
mod sequence;
mod tree;

use crate::place::BytePlace;
use rc_pattern::hir::ClassUnicodeRange;
use rc_program::place::Place;
use sequence::{Sequence, put_sequences};
use std::alloc::{AllocError, Global};
use tree::{Exits, add_tails, add_tree, append, longest};

/// Appends a place of scalars as a branch, and its block. `list` is scratch memory. `Err` means out
/// of memory.
fn add_scalars(
    alloc: Global,
    places: &mut Vec<BytePlace>,
    blocks: &mut Vec<BytePlace>,
    list: &mut Vec<Sequence>,
    first: usize,
    ranges: &[ClassUnicodeRange],
    next: usize,
) -> Result<(), AllocError>
    requires room { first + vec_len blocks.old + (1 + 84 * length ranges.now) < 2 ^ 61 }
    ensures long { IfOk result (λ _. vec_len blocks.new + 1 ≤ vec_len blocks.old
        + (1 + 84 * length ranges.now)) }
    ensures more { IfOk result (λ _. places_of places.new.items
        ≡ places_of places.old.items ++ byte_place (first + vec_len blocks.old)
        (scalar (map char_range ranges.now) next) ∷ []) }
    ensures behind { IfOk result (λ _. places_of blocks.new.items
        ≡ places_of blocks.old.items ++ block (first + vec_len blocks.old)
        (scalar (map char_range ranges.now) next)) }
{
    put_sequences(list, ranges)?;
    let sequences = list.as_slice();
    let exits = Exits {
        count: longest(sequences),
        tail: first + blocks.len(),
        next,
    };
    add_tails(alloc, blocks, exits)?;
    let ways = add_tree(alloc, blocks, first, exits, sequences, 0)?;
    append(places, BytePlace::Branch(ways))
}

/// Appends a place, and its block if it has one. `blocks` begin at place number `first`. `list` is
/// scratch memory. `Err` means out of memory.
fn add_place(
    alloc: Global,
    places: &mut Vec<BytePlace>,
    blocks: &mut Vec<BytePlace>,
    list: &mut Vec<Sequence>,
    first: usize,
    place: &Place,
) -> Result<(), AllocError>
    requires room { first + vec_len blocks.old + place_weight (source_of place.now) < 2 ^ 61 }
    ensures long { IfOk result (λ _. vec_len blocks.new + 1 ≤ vec_len blocks.old
        + place_weight (source_of place.now)) }
    ensures more { IfOk result (λ _. places_of places.new.items
        ≡ places_of places.old.items ++ byte_place (first + vec_len blocks.old)
        (source_of place.now) ∷ []) }
    ensures behind { IfOk result (λ _. places_of blocks.new.items
        ≡ places_of blocks.old.items ++ block (first + vec_len blocks.old) (source_of place.now)) }
{
    match place {
        Place::Choice(one, other) => append(places, BytePlace::Choice(*one, *other)),
        Place::Pass(next) => append(places, BytePlace::Pass(*next)),
        Place::Dead => append(places, BytePlace::Dead),
        Place::Byte(byte, next) => append(places, BytePlace::Byte(*byte, *next)),
        Place::Bytes(ranges, next) => {
            let ranges = ranges.clone()?;
            append(places, BytePlace::Bytes(ranges, *next))
        }
        Place::Scalar(ranges, next) => {
            add_scalars(alloc, places, blocks, list, first, ranges, *next)
        }
        Place::Guard(look, next) => append(places, BytePlace::Guard(*look, *next)),
        Place::Slot(slot, next) => append(places, BytePlace::Slot(*slot, *next)),
        Place::Accept(pattern) => append(places, BytePlace::Accept(*pattern)),
    }
}

/// Returns the byte program of a program: each place keeps its number, and after them are the
/// places that read scalars byte by byte.
///
/// It has no more places than the program weighs: 1 for each place, and 84 more for each range of a
/// place of scalars. So patterns whose weight allows their program have a byte program too. `Err`
/// means out of memory, and nothing else.
pub fn byte_program(alloc: Global, program: &[Place]) -> Result<Vec<BytePlace>, AllocError>
    requires light { heaviness (sources_of program.now) ≤ greatest_weight }
    ensures { IfOk result (λ places. places_of places.items ≡ bytes_of (sources_of program.now)) }
{
    let mut places = Vec::new(alloc);
    let mut blocks = Vec::new(alloc);
    let mut list = Vec::new(alloc);
    for i in 0..program.len() {
        add_place(
            alloc,
            &mut places,
            &mut blocks,
            &mut list,
            program.len(),
            &program[i],
        )?;
    }
    places.append(&mut blocks)?;
    Ok(places)
}
