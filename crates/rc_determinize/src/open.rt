//! Epsilon closure: how a step expands one place.
ghost use Rattle.std.specs.Prelude.{◌≡◌, ◌<◌, ◌≤◌, ◌++◌, IfOk, length, map, reverse, None};
ghost use Rattle.rc_program.specs.Program.{branch_ways, ways_out, place_at, is_match_place};
ghost use Rattle.rc_program.specs.Laws.{targets};
ghost use Rattle.rc_utf8.specs.Places.{way_of, place_of, places_of};
ghost use Rattle.rc_utf8.specs.declared.place.ByteWay.{ByteWay};
ghost use Rattle.rc_determinize.specs.Sides.{holds_by};
ghost use Rattle.rc_determinize.specs.Steps.{AreBelow, ahead_of};
ghost use Rattle.rc_determinize.specs.States.{root_if};
ghost use Rattle.rc_determinize.specs.Machine.{stay_places, read_places, add_one, add_all, least_with, first_with};

use crate::sides::{Seen, holds_by};
use crate::sparse_set::SparseSet;
use rc_program::ranges::has_byte;
use rc_utf8::place::{BytePlace, ByteWay};
use std::alloc::AllocError;

/// Returns the place at the index.
pub fn place_at(places: &[BytePlace], index: usize) -> &BytePlace
    requires { index < length places.now }
    ensures { place_of result.now ≡ place_at (places_of places.now) index }
{
    &places[index]
}

/// Adds the place unless the set has it.
pub fn add(listed: &mut SparseSet, place: usize)
    requires { place < listed.old.capacity }
    ensures { listed.new ≡ record listed.old { items = add_one listed.old.items place } }
{
    listed.insert(place);
}

/// Adds the place where walks begin, if they still may.
pub fn add_root(listed: &mut SparseSet, root: usize, goes_on: bool)
    requires { root < listed.old.capacity }
    ensures { listed.new ≡ record listed.old {
      items = add_all listed.old.items
          (root_if goes_on root);
    } }
{
    if goes_on {
        add(listed, root);
    }
}

/// Adds the places to which ways over the byte lead.
fn add_ways(listed: &mut SparseSet, ways: &Vec<ByteWay>, byte: u8)
    requires { AreBelow listed.old.capacity (map (λ (w : ByteWay). w.next) ways.now.items) }
    ensures { listed.new ≡ record listed.old {
      items = add_all listed.old.items
          (read_places (branch_ways byte (map way_of ways.now.items)));
    } }
{
    for way in ways {
        if way.first <= byte && byte <= way.last {
            add(listed, way.next);
        }
    }
}

/// Whether a walk may end at the place.
pub fn is_match(place: &BytePlace) -> bool
    ensures { result ≡ is_match_place None (place_of place.now) }
{
    match place {
        BytePlace::Accept(_) => true,
        _ => false,
    }
}

/// Pushes the places to which epsilon ways lead, so that the first is on top, and adds to `listed`
/// those to which the byte leads. `Err` means out of memory.
pub fn open(
    place: &BytePlace,
    behind: Seen,
    ahead: Seen,
    after: Option<u8>,
    stack: &mut Vec<usize>,
    listed: &mut SparseSet,
) -> Result<(), AllocError>
    requires { AreBelow listed.old.capacity (targets (place_of place.now)) }
    ensures kept { listed.new.capacity ≡ listed.old.capacity }
    ensures pushed { IfOk result (λ _. stack.new.items
        ≡ stack.old.items ++ reverse (stay_places
        (ways_out (holds_by behind ahead) (ahead_of after) (place_of place.now)))) }
    ensures added { IfOk result (λ _. listed.new
        ≡ record listed.old {
          items = add_all listed.old.items
              (read_places (ways_out (holds_by behind ahead) (ahead_of after)
              (place_of place.now)));
        }) }
{
    match place {
        BytePlace::Choice(first, second) => {
            stack.push(*second)?;
            stack.push(*first)?;
            Ok(())
        }
        BytePlace::Pass(next) => {
            stack.push(*next)?;
            Ok(())
        }
        BytePlace::Dead => Ok(()),
        BytePlace::Byte(byte, next) => {
            if after == Some(*byte) {
                add(listed, *next);
            }
            Ok(())
        }
        BytePlace::Bytes(ranges, next) => {
            if let Some(found) = after {
                if has_byte(ranges, found) {
                    add(listed, *next);
                }
            }
            Ok(())
        }
        BytePlace::Branch(ways) => {
            if let Some(found) = after {
                add_ways(listed, ways, found);
            }
            Ok(())
        }
        BytePlace::Guard(look, next) => {
            if holds_by(behind, ahead, *look) {
                stack.push(*next)?;
                return Ok(());
            }
            Ok(())
        }
        BytePlace::Slot(_, next) => {
            stack.push(*next)?;
            Ok(())
        }
        BytePlace::Accept(_) => Ok(()),
    }
}

/// Returns the lesser of `least` and this place, if a walk may end at it.
pub fn least_with(least: Option<usize>, here: &BytePlace, index: usize) -> Option<usize>
    ensures { result ≡ least_with (is_match_place None (place_of here.now)) least index }
{
    if !is_match(here) {
        return least;
    }
    match least {
        None => Some(index),
        Some(before) => Some(before.min(index)),
    }
}

/// Returns `first` if it is Some; else this place, if a walk may end at it.
pub fn first_with(first: Option<usize>, here: &BytePlace, index: usize) -> Option<usize>
    ensures { result ≡ first_with (is_match_place None (place_of here.now)) first index }
{
    if first.is_none() && is_match(here) {
        return Some(index);
    }
    first
}
