//! Epsilon closure: the row of a place, unless two ways lead from it over one byte.
ghost use Rattle.std.specs.Prelude.{◌≡◌, ℕ, IfOk, IfSome, List, None, Option, Some, length, true};
ghost use Rattle.std.specs.List.{Contains};
ghost use Rattle.rc_program.specs.Heads.{silent};
ghost use Rattle.rc_program.specs.Places.{place_of, places_of};
ghost use Rattle.rc_program.specs.Program.{accept, place_at};
ghost use Rattle.rc_onepass.specs.OnePass.{named};
ghost use Rattle.rc_onepass.specs.Rows.{GrowsLinks, IsFollowed, Names, TellsRow};

use crate::row::{ASCII, Link, Row, enter};
use rc_program::place::Place;
use std::alloc::{AllocError, Global};

/// The most places of a closure. A place with more gets no row, so a build stays linear.
const MOST: usize = 1024;

/// A place that is entered next, and the number of the link to the slots that are set before.
#[derive(Clone, Copy)]
pub struct Visit {
    pub place: usize,
    pub slots: usize,
}

/// Returns a row without a transition. `Err` means out of memory.
fn empty_row(alloc: Global) -> Result<Row, AllocError>
    ensures whole { IfOk result (λ row. length row.transitions.items ≡ 128) }
{
    Ok(Row {
        transitions: vec![in alloc; None; ASCII]?,
        end: None,
        links: Vec::new(alloc),
    })
}

/// Returns the number of the link to the slots that are set once the place is left, if `slots` are
/// those before. `Err` means out of memory.
fn slots_past(place: &Place, links: &mut Vec<Link>, slots: usize) -> Result<usize, AllocError>
    ensures grows { GrowsLinks links.old.items links.new.items }
    ensures names { IfOk result (λ past. (ks : List ℕ) → Names links.old.items slots ks
        → Names links.new.items past (named (place_of place.now) ks)) }
{
    let Place::Slot(slot, _) = place else {
        return Ok(slots);
    };
    let link = Link {
        slot: *slot,
        before: slots,
    };
    links.push(link)?;
    Ok(links.len())
}

/// Pushes the places to which the place leads without reading, the preferred one last. `Err` means
/// out of memory.
fn push_silent(place: &Place, slots: usize, stack: &mut Vec<Visit>) -> Result<(), AllocError>
    ensures stays { IfOk result (λ _. (v : Visit) → Contains stack.old.items v
        → Contains stack.new.items v) }
    ensures pushed { IfOk result (λ _. (n : ℕ) → Contains (silent (place_of place.now)) n
        → Contains stack.new.items (record { place = n; slots = slots })) }
{
    match place {
        Place::Choice(first, second) => {
            let place = *second;
            stack.push(Visit { place, slots })?;
            let place = *first;
            stack.push(Visit { place, slots })?;
        }
        Place::Pass(next) | Place::Guard(_, next) | Place::Slot(_, next) => {
            let place = *next;
            stack.push(Visit { place, slots })?;
        }
        _ => {}
    }
    Ok(())
}

/// Enters the end of a match if the place is a match place. Returns false if there is one already.
fn enter_end(place: &Place, end: &mut Option<usize>, slots: usize) -> bool
    ensures kept { result ≡ true → (j : ℕ) → end.old ≡ Some j → end.new ≡ Some j }
    ensures entered { result ≡ true → (p : ℕ) → place_of place.now ≡ accept p
        → end.new ≡ Some slots }
{
    let Place::Accept(_) = place else {
        return true;
    };
    if end.is_some() {
        return false;
    }
    *end = Some(slots);
    true
}

/// Follows the ways from a place: its transitions and the end of a match go to the row, and the
/// places to which it leads without reading to the stack. Returns false if the row has a transition
/// over one of these bytes, or an end. `Err` means out of memory.
fn follow(
    places: &[Place],
    row: &mut Row,
    stack: &mut Vec<Visit>,
    visit: Visit,
) -> Result<bool, AllocError>
    requires whole { length row.old.transitions.items ≡ 128 }
    ensures whole { length row.new.transitions.items ≡ 128 }
    ensures followed { IfOk result (λ single. single ≡ true
        → IsFollowed (places_of places.now) row.old row.new
        stack.old.items stack.new.items visit) }
{
    let Some(place) = places.get(visit.place) else {
        return Ok(true);
    };
    if !enter_end(place, &mut row.end, visit.slots) {
        return Ok(false);
    }
    let slots = slots_past(place, &mut row.links, visit.slots)?;
    push_silent(place, slots, stack)?;
    Ok(enter(&mut row.transitions, place, visit.slots))
}

/// Returns the row of a place, or None if two ways lead from it over one byte, or to matches. `Err`
/// means out of memory.
pub(crate) fn row_of(
    alloc: Global,
    places: &[Place],
    from: usize,
) -> Result<Option<Row>, AllocError>
    ensures { IfOk result (λ row. IfSome row (TellsRow (places_of places.now) from)) }
{
    let mut row = empty_row(alloc)?;
    let mut stack = Vec::new(alloc);
    stack.push(Visit {
        place: from,
        slots: 0,
    })?;
    for _turn in 0..MOST {
        let Some(visit) = stack.pop() else {
            return Ok(Some(row));
        };
        if !follow(places, &mut row, &mut stack, visit)? {
            return Ok(None);
        }
    }
    if stack.is_empty() {
        Ok(Some(row))
    } else {
        Ok(None)
    }
}
