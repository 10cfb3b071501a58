//! Determinization for leftmost-longest: the step from a state over one byte. A state's list has
//! marks between the walks of different starts.
ghost use Rattle.std.specs.Prelude.{ℕ, List, ◌≡◌, ◌≢◌, ◌<◌, ◌≤◌, ◌+◌, ◌∷◌, [], IfOk, length, reverse, drop, Some, None, slice_range};
ghost use Rattle.rc_program.specs.Laws.{IsClosed};
ghost use Rattle.rc_utf8.specs.Places.{places_of};
ghost use Rattle.rc_determinize.specs.Places.{state_of};
ghost use Rattle.rc_determinize.specs.Steps.{HasPlace, AreBelow, out_by};
ghost use Rattle.rc_determinize.specs.Sides.{holds_by};
ghost use Rattle.rc_determinize.specs.States.{is_match};
ghost use Rattle.rc_determinize.specs.Longest.{groups_of, IsNextOfLongestOver};
ghost use Rattle.rc_determinize.specs.Machine.{IsShut, IsParted};

use crate::forward::{goes_on, stack_up};
use crate::open::{add_root, first_with, open, place_at};
use crate::scratch::Scratch;
use crate::sides::{Seen, Sides};
use crate::sparse_set::SparseSet;
use crate::state::State;
use rc_utf8::place::BytePlace;
use std::alloc::AllocError;

/// Follows epsilon ways from the places on the stack, the top one first, until it is empty. Adds
/// the places to which the byte leads to `listed`, in that order. Returns the first match place
/// that it came to.
fn close(
    places: &[BytePlace],
    behind: Seen,
    ahead: Seen,
    after: Option<u8>,
    stack: &mut Vec<usize>,
    entered: &mut SparseSet,
    listed: &mut SparseSet,
) -> Result<Option<usize>, AllocError>
    requires closed { IsClosed (places_of places.now) }
    requires below { AreBelow (length places.now) (reverse stack.old.items) }
    requires entered { entered.old.capacity ≡ length places.now }
    requires few { length entered.old.items ≤ length places.now }
    requires listed { listed.old.capacity ≡ length places.now }
    ensures sizes { (entered.new.capacity ≡ length places.now)
        × (listed.new.capacity ≡ length places.now) }
    ensures few { IfOk result (λ _. length entered.new.items ≤ length places.now) }
    ensures shut { IfOk result (λ matched. IsShut
        (out_by (places_of places.now) (holds_by behind ahead) after)
        (is_match (places_of places.now))
        (reverse stack.old.items) entered.old.items entered.new.items listed.old.items
        listed.new.items matched) }
{
    let mut first = None;
    'places: while let Some(place) = stack.pop() {
        if entered.insert(place) {
            let here = place_at(places, place);
            first = first_with(first, here, place);
            open(here, behind, ahead, after, stack, listed)?;
        }
    }
    Ok(first)
}

/// Returns the index of the mark that ends the group which begins at the index `from`, or the
/// list's length.
fn group_end(list: &[usize], from: usize, mark: usize) -> usize
    requires { from < length list.now }
    ensures inside { (from ≤ result) × (result ≤ length list.now) }
    ensures other { (q : ℕ) → HasPlace q (slice_range list.now from result) → q ≢ mark }
    ensures group { groups_of mark (drop from list.now) ≡ slice_range list.now from result
        ∷ groups_of mark (drop (result + 1) list.now) }
{
    for index in from..list.len() {
        if list[index] == mark {
            return index;
        }
    }
    list.len()
}

/// Closes over the groups of the list, one after another, up to the first with a match. Returns the
/// match place. The places to which the byte leads go into `to`, again in groups.
fn close_groups(
    places: &[BytePlace],
    behind: Seen,
    ahead: Seen,
    after: Option<u8>,
    list: &[usize],
    stack: &mut Vec<usize>,
    entered: &mut SparseSet,
    listed: &mut SparseSet,
    to: &mut Vec<usize>,
) -> Result<Option<usize>, AllocError>
    requires closed { IsClosed (places_of places.now) }
    requires below { AreBelow (length places.now + 1) list.now }
    requires entered { entered.old ≡ record { capacity = length places.now; items = [] } }
    requires listed { listed.old ≡ record { capacity = length places.now; items = [] } }
    ensures sizes { (entered.new.capacity ≡ length places.now)
        × (listed.new.capacity ≡ length places.now) }
    ensures parted { IfOk result (λ matched. IsParted
        (out_by (places_of places.now) (holds_by behind ahead) after)
        (is_match (places_of places.now))
        (length places.now) (groups_of (length places.now) list.now) listed.new.items
        to.new.items matched) }
{
    to.clear();
    let mut from = 0;
    'groups: while from < list.len() {
        let end = group_end(list, from, places.len());
        let before = listed.len();
        stack_up(&list[from..end], stack)?;
        let met = close(places, behind, ahead, after, stack, entered, listed)?;
        listed.part_to(before, places.len(), to)?;
        if met.is_some() {
            return Ok(met);
        }
        from = end + 1;
    }
    Ok(None)
}

/// Makes `to` the state to which a byte leads from a state, for leftmost-longest, by what is told of
/// its sides. A match drops the groups after its own, and nothing of its own. `Err` means out of
/// memory; then `to` is some state.
pub fn next_longest(
    places: &[BytePlace],
    root: usize,
    scratch: &mut Scratch,
    from: &State,
    sides: Sides,
    to: &mut State,
) -> Result<(), AllocError>
    requires closed { IsClosed (places_of places.now) }
    requires rooted { root < length places.now }
    requires below { AreBelow (length places.now + 1) from.now.list.items }
    requires scratch { scratch.old ≡ length places.now }
    ensures scratch { scratch.new ≡ scratch.old }
    ensures next { IfOk result (λ _. IsNextOfLongestOver (places_of places.now) root
        (state_of from.now) sides (state_of to.new)) }
{
    scratch.entered.clear();
    scratch.listed.clear();
    let matched = close_groups(
        places,
        from.beside,
        sides.near,
        sides.byte,
        &from.list,
        &mut scratch.stack,
        &mut scratch.entered,
        &mut scratch.listed,
        &mut to.list,
    )?;
    let goes_on = goes_on(from, matched);
    let before = scratch.listed.len();
    add_root(&mut scratch.listed, root, goes_on);
    scratch.listed.part_to(before, places.len(), &mut to.list)?;
    to.beside = sides.far;
    to.goes_on = goes_on;
    to.matched = matched;
    Ok(())
}
