//! One-pass DFA: the rows of a program, and the slots of a match by them.
ghost use Rattle.std.specs.Prelude.{◌≡◌, ◌≢◌, ◌+◌, ◌≤◌, IfOk, IfSome, List, MatchOption, Option, Some, length, min, slice_get, slice_index_or, slice_range, true, false, ℕ, None, ◌<◌};
ghost use Rattle.rc_text.specs.Text.{Keeps};
ghost use Rattle.rc_walks.specs.Walks.{Pair};
ghost use Rattle.rc_program.specs.Answer.{Chosen, Search, last_of};
ghost use Rattle.rc_program.specs.Places.{place_of, places_of};
ghost use Rattle.rc_onepass.specs.OnePass.{IsEntered, Takes};
ghost use Rattle.rc_onepass.specs.Rows.{IsOnePassOf, LeadOneWay, Names, bytes_of_rows};
ghost use Rattle.rc_onepass.specs.Walked.{HasVisits, HasWide, IsWalkOver, Marks, Stands};

use crate::closure::row_of;
use crate::row::{Link, Row, Transition, bytes_of};
use rc_program::place::Place;
use rc_text::cursor::Cursor;
use rc_text::input::{Input, piece_from};
use rc_text::types::{Match, Span};
use std::alloc::{AllocError, Global};

/// A one-pass DFA. Its states are the places of a program that are entered after a byte, and the
/// first: these have a row.
#[derive(Drop)]
pub struct OnePass {
    /// For each place its row.
    pub rows: Vec<Option<Row>>,
}

/// Returns the place to which a place leads over what it reads, or None if it reads nothing.
fn read_to(place: &Place) -> Option<usize>
    ensures { (b n : ℕ) → Takes (place_of place.now) b n → result ≡ Some n }
{
    match place {
        Place::Byte(_, next) | Place::Bytes(_, next) | Place::Scalar(_, next) => Some(*next),
        _ => None,
    }
}

/// Returns for each place whether it is entered after a byte, or first. `Err` means out of memory.
fn entered(alloc: Global, places: &[Place]) -> Result<Vec<bool>, AllocError>
    ensures long { IfOk result (λ flags. length flags.items ≡ length places.now) }
    ensures entered { IfOk result (λ flags. (q : ℕ) → q < length places.now
        → IsEntered (places_of places.now) q → slice_index_or flags.items q false ≡ true) }
{
    let mut flags = vec![in alloc; false; places.len()]?;
    if !flags.is_empty() {
        flags[0] = true;
    }
    for place in places {
        if let Some(next) = read_to(place) {
            if next < flags.len() {
                flags[next] = true;
            }
        }
    }
    Ok(flags)
}

/// Sets the slots from a link on to the position, as far as `slots` has them.
fn set_slots(links: &[Link], from: usize, at: usize, slots: &mut [Option<usize>])
    ensures long { length slots.new ≡ length slots.old }
    ensures marks { (ks : List ℕ) → Names links.now from ks → Marks ks at slots.old slots.new }
{
    let mut number = from;
    while number != 0 {
        let link = match links.get(number - 1) {
            Some(link) => *link,
            None => return,
        };
        if link.slot < slots.len() {
            slots[link.slot] = Some(at);
        }
        if link.before >= number {
            return;
        }
        number = link.before;
    }
}

/// Returns the transition over the byte.
#[inline(always)]
fn transition_of(row: &Row, byte: u8) -> Option<Transition>
    ensures { result ≡ slice_index_or row.now.transitions.items byte None }
{
    match row.transitions.get(usize::from(byte)) {
        Some(transition) => *transition,
        None => None,
    }
}

impl OnePass {
    /// Returns the one-pass DFA of the places, which are entered at the first. Returns None if it
    /// would take more than `size_limit` bytes, or if from a place that is entered after a byte two
    /// ways lead on over one ASCII byte, or to matches, whatever assertions say. `Err` means out of
    /// memory.
    pub fn new(
        alloc: Global,
        places: &[Place],
        size_limit: Option<usize>,
    ) -> Result<Option<OnePass>, AllocError>
        ensures rows { IfOk result (λ dfa. IfSome dfa (IsOnePassOf (places_of places.now))) }
        ensures single { IfOk result (λ dfa. IfSome dfa (LeadOneWay (places_of places.now))) }
    {
        let entered = entered(alloc, places)?;
        let mut rows = Vec::with_capacity(alloc, places.len())?;
        let mut bytes = 0usize;
        for place in 0..places.len() {
            if !entered[place] {
                rows.push(None)?;
                continue;
            }
            let Some(row) = row_of(alloc, places, place)? else {
                return Ok(None);
            };
            bytes = bytes.saturating_add(bytes_of(&row));
            if let Some(most) = size_limit {
                if bytes > most {
                    return Ok(None);
                }
            }
            rows.push(Some(row))?;
        }
        Ok(Some(OnePass { rows }))
    }

    /// Returns how many bytes the rows take, or `usize::MAX` if that is more.
    pub fn memory_usage(&self) -> usize
        ensures { result ≡ min (bytes_of_rows self.now.rows.items) usize.MAX }
    {
        let mut bytes = 0usize;
        for row in &self.rows {
            if let Some(row) = row {
                bytes = bytes.saturating_add(bytes_of(row));
            }
        }
        bytes
    }

    /// Returns the place's row.
    #[inline(always)]
    fn row(&self, place: usize) -> Option<&Row>
        ensures { MatchOption result
            ((row : Row) → slice_get self.now.rows.items place ≢ Some (Some row))
            (λ row. slice_get self.now.rows.items place ≡ Some (Some row.now)) }
    {
        match self.rows.get(place) {
            Some(Some(row)) => Some(row),
            _ => None,
        }
    }

    /// Runs over the bytes of a piece, which begins at the position `start`, from a place on, and
    /// sets the slots on the way. Returns the place after them, or None at a byte without a
    /// transition.
    fn run(
        &self,
        piece: &[u8],
        start: usize,
        from: usize,
        slots: &mut [Option<usize>],
    ) -> Option<usize>
        requires fits { start + length piece.now ≤ usize.MAX }
        ensures long { length slots.new ≡ length slots.old }
        ensures stands { IfSome result (λ to. (s : Search) (w : List Pair)
            (before : List (Option ℕ)) → IsOnePassOf s.places self.now
            → piece.now ≡ slice_range s.text.content start (start + length piece.now)
            → start + length piece.now ≤ (last_of w).1 → Stands s w before start from slots.old
            → Stands s w before (start + length piece.now) to slots.new) }
        ensures wide { result ≡ None → (s : Search) (w : List Pair)
            (before : List (Option ℕ)) → IsOnePassOf s.places self.now
            → piece.now ≡ slice_range s.text.content start (start + length piece.now)
            → start + length piece.now ≤ (last_of w).1 → Stands s w before start from slots.old
            → HasWide s.text.content start (start + length piece.now) }
    {
        let mut place = from;
        for i in 0..piece.len() {
            let row = self.row(place)?;
            let transition = transition_of(row, piece[i])?;
            set_slots(&row.links, transition.slots, start + i, slots);
            place = transition.next;
        }
        Some(place)
    }

    /// Runs over the bytes of a span, and sets the slots on the way. Returns the place after them,
    /// or None at a byte without a transition.
    fn cross<C: Cursor>(
        &self,
        input: &mut Input<C>,
        span: Span,
        slots: &mut [Option<usize>],
    ) -> Option<usize>
        ensures keeps { Keeps input.old input.new }
        ensures long { length slots.new ≡ length slots.old }
        ensures stands { IfSome result (λ to. (s : Search) (w : List Pair)
            (before : List (Option ℕ)) → IsOnePassOf s.places self.now
            → s.text.content ≡ input.old.content → span.end ≡ (last_of w).1
            → Stands s w before span.start 0 slots.old
            → span.start ≤ span.end → Stands s w before span.end to slots.new) }
        ensures wide { result ≡ None → (s : Search) (w : List Pair)
            (before : List (Option ℕ)) → IsOnePassOf s.places self.now
            → s.text.content ≡ input.old.content → span.end ≡ (last_of w).1
            → Stands s w before span.start 0 slots.old
            → span.start ≤ span.end → HasWide s.text.content span.start span.end }
    {
        let mut at = span.start;
        let mut place = 0;
        while at < span.end {
            let piece = piece_from(input, at, span.end);
            if piece.is_empty() {
                return None;
            }
            place = self.run(piece, at, place, slots)?;
            at += piece.len();
        }
        Some(place)
    }

    /// Sets the slots of the groups of a match, and leaves the others as they are. Returns false only
    /// if the match contains a byte past ASCII; then some slots may be set.
    pub fn set_groups<C: Cursor>(
        &self,
        input: &mut Input<C>,
        found: Match,
        slots: &mut [Option<usize>],
    ) -> bool
        ensures keeps { Keeps input.old input.new }
        ensures long { length slots.new ≡ length slots.old }
        ensures slots { result ≡ true → (s : Search) (c : Chosen) → IsOnePassOf s.places self.now
            → s.text.content ≡ input.old.content → IsWalkOver s c found
            → HasVisits s c.walk slots.old slots.new }
        ensures wide { result ≡ false → (s : Search) (c : Chosen) → IsOnePassOf s.places self.now
            → s.text.content ≡ input.old.content → IsWalkOver s c found
            → HasWide s.text.content found.start found.end }
    {
        let span = Span {
            start: found.start(),
            end: found.end(),
        };
        let Some(place) = self.cross(input, span, slots) else {
            return false;
        };
        let Some(row) = self.row(place) else {
            return false;
        };
        let Some(number) = row.end else {
            return false;
        };
        set_slots(&row.links, number, span.end, slots);
        true
    }
}
