//! Epsilon shortcuts: if the next byte shuts all branches of a choice but one, a thread enters at
//! that branch instead.
ghost use Rattle.std.specs.Prelude.{◌≡◌, ◌<◌, IsTrue};
ghost use Rattle.rc_text.specs.Text.{Searched};
ghost use Rattle.rc_pikevm.specs.Entrances.{IsOnWay, IsShut, IsWayIn};
ghost use Rattle.rc_pikevm.specs.Near.{IsHere, seen_from, size};

use crate::heads::is_dead;
use crate::moves::{Move, look_up};
use crate::sparse_set::SparseSet;
use crate::spot::Spot;
use rc_program::place::Place;

/// How many choices a thread skips at most before it enters. The choice among patterns is a chain of
/// choices, of which most have one branch that is shut.
const MOST: usize = 16;

/// Whether the place's own transition is quickly looked up.
#[inline(always)]
fn is_quick(place: &Place) -> bool {
    matches!(place, Place::Dead | Place::Byte(_, _) | Place::Guard(_, _))
}

/// Whether no walk leads on from the place, as far as a quick look shows. Returns false if it shows
/// nothing.
#[inline(always)]
pub fn is_shut(spot: &Spot, place: usize) -> bool
    ghost text: { Searched }
    requires here { IsHere spot.now text }
    requires place_in { place < size spot.now.course }
    ensures { IsTrue result → IsShut (seen_from spot.now text) (place, spot.now.at) }
{
    if !is_quick(&spot.course.program.places[place]) {
        return is_dead(spot, place);
    }
    match look_up(spot, place) {
        Move::DeadEnd => true,
        _ => false,
    }
}

/// Returns one branch of a choice if a quick look shows that no walk leads on from the other, else
/// the place itself.
#[inline(always)]
fn way_on(spot: &Spot, place: usize) -> usize
    ghost text: { Searched }
    requires here { IsHere spot.now text }
    requires place_in { place < size spot.now.course }
    ensures inside { result < size spot.now.course }
    ensures way { IsOnWay (seen_from spot.now text) spot.now.at place result }
{
    match &spot.course.program.places[place] {
        Place::Choice(first, second) => {
            if is_shut(spot, *second) {
                return *first;
            }
            if is_shut(spot, *first) {
                return *second;
            }
            place
        }
        _ => place,
    }
}

/// Returns the place at which a thread enters instead of `root`. It skips up to `MOST` choices of
/// which one branch is shut, as long as these weren't entered yet.
#[inline(always)]
pub(crate) fn way_in(spot: &Spot, root: usize, entered: &SparseSet) -> usize
    ghost text: { Searched }
    requires here { IsHere spot.now text }
    requires root { root < size spot.now.course }
    requires capacity { entered.now.capacity ≡ size spot.now.course }
    ensures inside { result < size spot.now.course }
    ensures way { IsWayIn (seen_from spot.now text) spot.now.at entered.now.items root result }
{
    let mut place = root;
    'ways: for _ in 0..MOST {
        let next = way_on(spot, place);
        if next == place {
            return place;
        }
        if entered.contains(place) {
            return place;
        }
        place = next;
    }
    place
}
