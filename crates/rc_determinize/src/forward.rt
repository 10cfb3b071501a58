//! Determinization: the step from a state over one byte, forwards.
//!
//! Take `a+b` over `xaab.`. Place 0 is a choice of 1 or 6, place 2 of 1 or 3. Place 1 reads `a`,
//! place 3 reads `b`, place 4 goes on to 5, the match, and 6 is a dead end.
//!
//!     from    byte  closure, in order              to
//!     [0]     x     0, 1, 6: nothing reads `x`     [0]
//!     [0]     a     0, 1 reads it to 2, 6          [2, 0]
//!     [2, 0]  a     2, 1 reads it to 2, 3, 0, 6    [2, 0]
//!     [2, 0]  b     2, 1, 3 reads it to 4, 0, 6    [4, 0]
//!     [4, 0]  .     4, 5: a match, one byte late   [], with `matched` 5
ghost use Rattle.std.specs.Prelude.{ℕ, List, ◌≡◌, ◌<◌, ◌≤◌, ◌++◌, [], ◌∷◌, IfOk, length, reverse, Some, None, ◌&&◌, is_none, ◌↔◌, IsTrue};
ghost use Rattle.rc_program.specs.Laws.{IsClosed};
ghost use Rattle.rc_program.specs.Program.{place_at};
ghost use Rattle.rc_utf8.specs.Places.{places_of};
ghost use Rattle.rc_determinize.specs.Places.{state_of};
ghost use Rattle.rc_determinize.specs.Steps.{HasPlace, AreBelow, IsStep, IsRising, HasWay, out_by};
ghost use Rattle.rc_determinize.specs.Sides.{holds_by};
ghost use Rattle.rc_determinize.specs.States.{IsNextOver, IsFirstBeside, is_match};
ghost use Rattle.rc_determinize.specs.Sets.{ComesBy, EndsOver, IsNextOfAllOver};
ghost use Rattle.rc_determinize.specs.Kinds.{IsNextByOver, bound_of};
ghost use Rattle.rc_determinize.specs.Machine.{IsGathered};

use crate::longest::next_longest;
use crate::open::{add_root, is_match, least_with, open, place_at};
use crate::scratch::Scratch;
use crate::sides::{Seen, Sides};
use crate::sparse_set::SparseSet;
use crate::state::State;
use rc_text::types::MatchKind;
use rc_utf8::place::BytePlace;
use std::alloc::AllocError;

/// Replaces the stack by the places, the first of them on top.
pub fn stack_up(list: &[usize], stack: &mut Vec<usize>) -> Result<(), AllocError>
    ensures { IfOk result (λ _. stack.new.items ≡ reverse list.now) }
{
    stack.clear();
    stack.extend_from_slice(list)?;
    stack.reverse();
    Ok(())
}

/// Follows epsilon ways from the places on the stack, the top one first, and adds the places to
/// which the byte leads to `listed`, in that order. Returns the first match place that it comes to,
/// and follows nothing after it; or None once the stack is empty.
fn follow(
    places: &[BytePlace],
    behind: Seen,
    ahead: Seen,
    after: Option<u8>,
    stack: &mut Vec<usize>,
    entered: &mut SparseSet,
    listed: &mut SparseSet,
) -> Result<Option<usize>, AllocError>
    requires closed { IsClosed (places_of places.now) }
    requires below { AreBelow (length places.now) (reverse stack.old.items) }
    requires entered { entered.old ≡ record { capacity = length places.now; items = [] } }
    requires listed { listed.old ≡ record { capacity = length places.now; items = [] } }
    ensures sizes { (entered.new.capacity ≡ length places.now)
        × (listed.new.capacity ≡ length places.now) }
    ensures step { IfOk result (λ matched. IsStep
        (out_by (places_of places.now) (holds_by behind ahead) after)
        (is_match (places_of places.now))
        (reverse stack.old.items) listed.new.items matched) }
{
    'places: while let Some(place) = stack.pop() {
        if entered.insert(place) {
            let here = place_at(places, place);
            if is_match(here) {
                return Ok(Some(place));
            }
            open(here, behind, ahead, after, stack, listed)?;
        }
    }
    Ok(None)
}

/// Follows epsilon ways from the places on the stack until it is empty, and adds the places to
/// which the byte leads to `listed`. Returns the least match place that it came to.
fn gather(
    places: &[BytePlace],
    behind: Seen,
    ahead: Seen,
    after: Option<u8>,
    stack: &mut Vec<usize>,
    entered: &mut SparseSet,
    listed: &mut SparseSet,
) -> Result<Option<usize>, AllocError>
    requires closed { IsClosed (places_of places.now) }
    requires below { AreBelow (length places.now) (reverse stack.old.items) }
    requires entered { entered.old ≡ record { capacity = length places.now; items = [] } }
    requires listed { listed.old ≡ record { capacity = length places.now; items = [] } }
    ensures sizes { (entered.new.capacity ≡ length places.now)
        × (listed.new.capacity ≡ length places.now) }
    ensures step { IfOk result (λ matched. IsGathered
        (out_by (places_of places.now) (holds_by behind ahead) after) (places_of places.now)
        (reverse stack.old.items) listed.new.items matched) }
    ensures entered { IfOk result (λ _. (q : ℕ) → HasPlace q entered.new.items
        ↔ ComesBy (out_by (places_of places.now) (holds_by behind ahead) after)
        (reverse stack.old.items) q) }
{
    let mut least = None;
    'places: while let Some(place) = stack.pop() {
        if entered.insert(place) {
            let here = place_at(places, place);
            least = least_with(least, here, place);
            open(here, behind, ahead, after, stack, listed)?;
        }
    }
    Ok(least)
}

/// Whether walks may begin at later positions: they did so far, and no match was found.
pub fn goes_on(from: &State, matched: Option<usize>) -> bool
    ensures { result ≡ (from.now.goes_on && is_none matched) }
{
    from.goes_on && matched.is_none()
}

/// Makes `to` the state to which a byte leads, for leftmost-first, by what is told of its sides.
/// `Err` means out of memory; then `to` is some state.
fn next_preferred(
    places: &[BytePlace],
    root: usize,
    scratch: &mut Scratch,
    from: &State,
    sides: Sides,
    to: &mut State,
) -> Result<(), AllocError>
    requires closed { IsClosed (places_of places.now) }
    requires rooted { root < length places.now }
    requires below { AreBelow (length places.now) from.now.list.items }
    requires scratch { scratch.old ≡ length places.now }
    ensures scratch { scratch.new ≡ scratch.old }
    ensures next { IfOk result (λ _. IsNextOver (places_of places.now) root
        (state_of from.now) sides (state_of to.new)) }
{
    scratch.entered.clear();
    scratch.listed.clear();
    stack_up(&from.list, &mut scratch.stack)?;
    let matched = follow(
        places,
        from.beside,
        sides.near,
        sides.byte,
        &mut scratch.stack,
        &mut scratch.entered,
        &mut scratch.listed,
    )?;
    let goes_on = goes_on(from, matched);
    add_root(&mut scratch.listed, root, goes_on);
    scratch.listed.copy_to(&mut to.list)?;
    to.beside = sides.far;
    to.goes_on = goes_on;
    to.matched = matched;
    Ok(())
}

/// Makes `to` the state to which a byte leads, for `MatchKind::All`, by what is told of its sides.
/// `Err` means out of memory; then `to` is some state.
fn next_of_all(
    places: &[BytePlace],
    root: usize,
    scratch: &mut Scratch,
    from: &State,
    sides: Sides,
    to: &mut State,
) -> Result<(), AllocError>
    requires closed { IsClosed (places_of places.now) }
    requires rooted { root < length places.now }
    requires below { AreBelow (length places.now) from.now.list.items }
    requires scratch { scratch.old ≡ length places.now }
    ensures scratch { scratch.new ≡ scratch.old }
    ensures next { IfOk result (λ _. IsNextOfAllOver (places_of places.now) root
        (state_of from.now) sides (state_of to.new)) }
{
    scratch.entered.clear();
    scratch.listed.clear();
    stack_up(&from.list, &mut scratch.stack)?;
    let matched = gather(
        places,
        from.beside,
        sides.near,
        sides.byte,
        &mut scratch.stack,
        &mut scratch.entered,
        &mut scratch.listed,
    )?;
    add_root(&mut scratch.listed, root, from.goes_on);
    scratch.listed.rise_to(&mut to.list)?;
    to.beside = sides.far;
    to.goes_on = from.goes_on;
    to.matched = matched;
    Ok(())
}

/// Replaces `ends` by the match places in the set. `Err` means out of memory.
fn matches_of(
    places: &[BytePlace],
    entered: &SparseSet,
    ends: &mut Vec<usize>,
) -> Result<(), AllocError>
    requires below { entered.now.capacity ≡ length places.now }
    ensures { IfOk result (λ _. (q : ℕ) → HasPlace q ends.new.items
        ↔ (HasPlace q entered.now.items × IsTrue (is_match (places_of places.now) q))) }
{
    ends.clear();
    for index in 0..entered.len() {
        let place = entered.get(index);
        if is_match(place_at(places, place)) {
            ends.push(place)?;
        }
    }
    Ok(())
}

/// Replaces `ends` by the match places at which walks end at a state's position, for
/// `MatchKind::All`: those to which ways that read nothing lead, by what is told of the byte ahead.
/// The other arguments are those of `next_by`. `Err` means out of memory; then `ends` is some list.
pub fn ends_here(
    places: &[BytePlace],
    scratch: &mut Scratch,
    from: &State,
    sides: Sides,
    ends: &mut Vec<usize>,
) -> Result<(), AllocError>
    requires closed { IsClosed (places_of places.now) }
    requires below { AreBelow (length places.now) from.now.list.items }
    requires scratch { scratch.old ≡ length places.now }
    ensures scratch { scratch.new ≡ scratch.old }
    ensures ends { IfOk result (λ _. (q : ℕ) → HasPlace q ends.new.items
        ↔ EndsOver (places_of places.now) (state_of from.now) sides q) }
{
    scratch.entered.clear();
    scratch.listed.clear();
    stack_up(&from.list, &mut scratch.stack)?;
    gather(
        places,
        from.beside,
        sides.near,
        sides.byte,
        &mut scratch.stack,
        &mut scratch.entered,
        &mut scratch.listed,
    )?;
    matches_of(places, &scratch.entered, ends)
}

/// Makes `to` the state to which a byte leads from a state, by what is told of its sides. If there is
/// none, it is the state after the end of what the search sees. States are those for matches of this
/// kind, and walks begin at the place `root`.
///
/// Nothing is allocated but what the lists of `scratch` and `to` grow by. `Err` means out of
/// memory; then `to` is some state.
pub fn next_by(
    kind: MatchKind,
    places: &[BytePlace],
    root: usize,
    scratch: &mut Scratch,
    from: &State,
    sides: Sides,
    to: &mut State,
) -> Result<(), AllocError>
    requires closed { IsClosed (places_of places.now) }
    requires rooted { root < length places.now }
    requires below { AreBelow (bound_of kind (length places.now)) from.now.list.items }
    requires scratch { scratch.old ≡ length places.now }
    ensures scratch { scratch.new ≡ scratch.old }
    ensures next { IfOk result (λ _. IsNextByOver kind (places_of places.now) root
        (state_of from.now) sides (state_of to.new)) }
{
    match kind {
        MatchKind::LeftmostFirst => next_preferred(places, root, scratch, from, sides, to),
        MatchKind::LeftmostLongest => next_longest(places, root, scratch, from, sides, to),
        MatchKind::All => next_of_all(places, root, scratch, from, sides, to),
    }
}

/// Makes `to` the start state: walks begin at the place `root`, and at later positions too unless
/// the search is anchored. `beside` has the facts about the side before the start. `Err` means out
/// of memory; then `to` is some state.
pub fn first(root: usize, beside: Seen, anchored: bool, to: &mut State) -> Result<(), AllocError>
    ensures { IfOk result (λ _. IsFirstBeside root beside anchored (state_of to.new)) }
{
    to.list.clear();
    to.list.push(root)?;
    to.beside = beside;
    to.goes_on = !anchored;
    to.matched = None;
    Ok(())
}
