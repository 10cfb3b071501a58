//! Epsilon closure: all places that a thread reaches at one position without reading, in order of
//! preference. It stops at each match: the caller drops the ways still to come, or goes on.
ghost use Rattle.std.specs.Prelude.{◌≡◌, ◌≢◌, ℕ, ◌+◌, ◌*◌, ◌<◌, ◌≤◌, [], ◌∷◌, ◌++◌, length, reverse, vec_len, vec_capacity, None, Some, slice_set, slice_index_or};
ghost use Rattle.rc_text.specs.Text.{Searched};
ghost use Rattle.rc_pikevm.specs.Near.{IsHere, seen_from, size};
ghost use Rattle.rc_pikevm.specs.Explored.{Closes, Grows, IsExploring, closure_at, closure_of, count_ended};
ghost use Rattle.rc_pikevm.specs.Moves.{reading};
ghost use Rattle.rc_pikevm.specs.Passing.{AllInside, HasRoom};
ghost use Rattle.rc_pikevm.specs.Entered.{IsMade, IsActed, IsVisited};
ghost use Rattle.rc_pikevm.specs.declared.moves.Move.TheVariants.{Fork, Save, Stays};

use crate::entrance::way_in;
use crate::growth::{Frame, Growth};
use crate::heads::is_dead;
use crate::moves::{after_byte, after_one_of, after_scalar, is_open, may_end};
use crate::spot::Spot;
use crate::threads::BareThread;
use rc_program::place::Place;

/// Writes the position to the slot of the row, and pushes the frame that undoes that.
#[inline(always)]
fn save(slot: usize, at: usize, growth: &mut Growth)
    requires within { slot < length growth.old.slots.items }
    requires room { vec_len growth.old.stack < vec_capacity growth.old.stack }
    ensures threads { growth.new.threads ≡ growth.old.threads }
    ensures entered { growth.new.entered ≡ growth.old.entered }
    ensures stack { growth.new.stack.items
        ≡ growth.old.stack.items ++ Frame.Restore slot
        (slice_index_or growth.old.slots.items slot None) ∷ [] }
    ensures len { vec_len growth.new.stack ≡ vec_len growth.old.stack + 1 }
    ensures capacity { vec_capacity growth.new.stack ≡ vec_capacity growth.old.stack }
    ensures slots { growth.new.slots.items ≡ slice_set growth.old.slots.items slot (Some at) }
{
    let old = growth.slots[slot];
    growth.stack.push_reserved(Frame::Restore(slot, old));
    growth.slots[slot] = Some(at);
}

/// Pushes both places, so that the first is on top.
#[inline(always)]
fn fork(first: usize, second: usize, growth: &mut Growth)
    requires deep { vec_len growth.old.stack + 2 ≤ vec_capacity growth.old.stack }
    ensures made { (at start : ℕ) → IsMade at start (Fork first second) growth.old growth.new }
    ensures deep { vec_len growth.new.stack ≤ vec_len growth.old.stack + 2 }
{
    growth.stack.push_reserved(Frame::Explore(second));
    growth.stack.push_reserved(Frame::Explore(first));
}

/// Pushes the place.
#[inline(always)]
fn stay(place: usize, growth: &mut Growth)
    requires deep { vec_len growth.old.stack + 1 ≤ vec_capacity growth.old.stack }
    ensures made { (at start : ℕ) → IsMade at start (Stays place) growth.old growth.new }
    ensures deep { vec_len growth.new.stack ≤ vec_len growth.old.stack + 1 }
{
    growth.stack.push_reserved(Frame::Explore(place));
}

/// Writes the position to the slot if the thread's row has that slot, and pushes the place.
#[inline(always)]
fn note(slot: usize, place: usize, at: usize, growth: &mut Growth)
    requires deep { vec_len growth.old.stack + 2 ≤ vec_capacity growth.old.stack }
    ensures made { (start : ℕ) → IsMade at start (Save slot place) growth.old growth.new }
    ensures deep { vec_len growth.new.stack ≤ vec_len growth.old.stack + 2 }
{
    if slot < growth.slots.len() {
        save(slot, at, growth);
        growth.stack.push_reserved(Frame::Explore(place));
    } else {
        growth.stack.push_reserved(Frame::Explore(place));
    }
}

/// If a position is given, appends a thread that goes on there at the place.
#[inline(always)]
fn read(place: usize, to: Option<usize>, start: usize, growth: &mut Growth)
    requires room { length growth.old.threads.items < growth.old.threads.room }
    ensures made { (at : ℕ) → IsMade at start (reading place to) growth.old growth.new }
    ensures deep { vec_len growth.new.stack ≤ vec_len growth.old.stack }
{
    let Some(at) = to else {
        return;
    };
    growth
        .threads
        .push(BareThread { place, at, start }, &growth.slots);
}

/// Makes the transition of a place. Places reached without reading go onto the stack, the preferred
/// one on top; a place that reads appends a thread. A choice, a slot or an assertion from which the
/// next byte lets no walk go on does nothing. Returns the pattern if a walk ends at the place.
#[inline(always)]
fn act(spot: &Spot, place: usize, start: usize, growth: &mut Growth) -> Option<usize>
    ghost text: { Searched }
    requires here { IsHere spot.now text }
    requires place_in { place < size spot.now.course }
    requires deep { vec_len growth.old.stack + 2 ≤ vec_capacity growth.old.stack }
    requires room { length growth.old.threads.items < growth.old.threads.room }
    ensures acted { IsActed (seen_from spot.now text) spot.now.at place start result growth.old
        growth.new }
    ensures deep { vec_len growth.new.stack ≤ vec_len growth.old.stack + 2 }
{
    match &spot.course.program.places[place] {
        Place::Choice(first, second) => {
            if is_dead(spot, place) {
                return None;
            }
            fork(*first, *second, growth);
            None
        }
        Place::Pass(next) => {
            stay(*next, growth);
            None
        }
        Place::Dead => None,
        Place::Byte(byte, next) => {
            read(*next, after_byte(spot, *byte), start, growth);
            None
        }
        Place::Bytes(ranges, next) => {
            read(*next, after_one_of(spot, place, ranges), start, growth);
            None
        }
        Place::Scalar(ranges, next) => {
            read(*next, after_scalar(spot, place, ranges), start, growth);
            None
        }
        Place::Guard(look, next) => {
            if is_dead(spot, place) {
                return None;
            }
            if is_open(spot, *look) {
                stay(*next, growth);
                return None;
            }
            None
        }
        Place::Slot(_, next) => {
            if is_dead(spot, place) {
                return None;
            }
            let column = spot.course.program.column(place);
            note(column, *next, spot.at, growth);
            None
        }
        Place::Accept(number) => {
            if may_end(spot, *number) {
                return Some(*number);
            }
            None
        }
    }
}

/// Enters a place, unless it was entered at this position before, and makes its transition. Returns
/// the pattern if a walk ends there.
#[inline(always)]
fn enter(spot: &Spot, place: usize, start: usize, growth: &mut Growth) -> Option<usize>
    ghost text: { Searched }
    requires here { IsHere spot.now text }
    requires place_in { place < size spot.now.course }
    requires sound { HasRoom (seen_from spot.now text) (size spot.now.course) spot.now.course.hi
        spot.now.at
        growth.old.threads growth.old.entered }
    requires frames { AllInside (size spot.now.course) growth.old.threads.width
        (reverse growth.old.stack.items) }
    requires deep { vec_len growth.old.stack ≤ length growth.old.entered.items }
    ensures visited { IsVisited (seen_from spot.now text) spot.now.at place start result growth.old
        growth.new }
    ensures grown { Grows spot.now text start growth.old growth.new }
    ensures exploring { IsExploring spot.now text growth.new }
    ensures falls { vec_len growth.new.stack + 3 * length growth.old.entered.items
        ≤ vec_len growth.old.stack + 3 * length growth.new.entered.items }
{
    if !growth.entered.insert(place) {
        return None;
    }
    act(spot, place, start, growth)
}

/// Pops frames and goes on from them until none is left or a walk ends. Choices of which one branch
/// is shut are skipped. Returns the pattern of that walk, whose slots are then in `slots`.
#[inline(never)]
pub fn drain(spot: &Spot, start: usize, growth: &mut Growth) -> Option<usize>
    ghost text: { Searched }
    requires here { IsHere spot.now text }
    requires exploring { IsExploring spot.now text growth.old }
    ensures closes { Closes (seen_from spot.now text) spot.now.at start (closure_of growth.old)
        result (closure_of growth.new) }
    ensures grown { Grows spot.now text start growth.old growth.new }
    ensures exploring { IsExploring spot.now text growth.new }
    ensures falls { count_ended result + vec_len growth.new.stack
        + 3 * length growth.old.entered.items
        ≤ vec_len growth.old.stack + 3 * length growth.new.entered.items }
{
    'frames: while let Some(frame) = growth.stack.pop() {
        match frame {
            Frame::Explore(place) => {
                let place = way_in(spot, place, &growth.entered);
                if let Some(number) = enter(spot, place, start, growth) {
                    return Some(number);
                }
            }
            Frame::Restore(slot, old) => growth.slots[slot] = old,
        }
    }
    None
}

/// Follows all ways from `root` that read nothing, in order of preference, and appends a thread for
/// each place that reads.
///
/// Returns the pattern if a walk ends on the way. Then `slots` are that walk's, and `drain` follows
/// the ways still to come.
#[inline(always)]
pub fn close(spot: &Spot, root: usize, start: usize, growth: &mut Growth) -> Option<usize>
    ghost text: { Searched }
    requires here { IsHere spot.now text }
    requires root_in { root < size spot.now.course }
    requires sound { HasRoom (seen_from spot.now text) (size spot.now.course) spot.now.course.hi
        spot.now.at
        growth.old.threads growth.old.entered }
    ensures closes { Closes (seen_from spot.now text) spot.now.at start
        (closure_at root growth.old) result (closure_of growth.new) }
    ensures grown { Grows spot.now text start growth.old growth.new }
    ensures exploring { IsExploring spot.now text growth.new }
{
    growth.stack.clear();
    if let Some(number) = enter(spot, root, start, growth) {
        return Some(number);
    }
    if growth.stack.is_empty() {
        return None;
    }
    drain(spot, start, growth)
}
