//! Prefilters: where a search goes on, from literal to literal.
ghost use Rattle.std.specs.Prelude.{◌≡◌, ◌-◌, ◌<◌, ◌≤◌, ℕ, Bool, IfSome, IsTrue, List, MatchOption, false, length, option_map, slice_index};
ghost use Rattle.rc_text.specs.Text.{Keeps, high};
ghost use Rattle.rc_program.specs.Program.{Place};
ghost use Rattle.rc_program.specs.Answer.{HasNoWalkFrom};
ghost use Rattle.rc_program.specs.Sought.{search_over};
ghost use Rattle.rc_needles.specs.Needles.{find_needle};
ghost use Rattle.rc_literals.specs.Needs.{is_stop};
ghost use Rattle.rc_literals.specs.Guard.{BeginsFor, IsBehind, IsGuard, guard_needles};

use crate::stops::Stops;
use rc_needles::literal::find_from;
use rc_needles::prefilter::Prefilter;
use rc_text::cursor::Cursor;
use rc_text::input::{Input, piece_before};

/// Required literals: needles of which each match contains one, and bytes of which it contains
/// none.
#[derive(Drop)]
pub struct Needs {
    pub needles: Prefilter,
    pub stops: Stops,
}

/// The needles by which a search goes.
#[derive(Clone, Copy)]
pub enum Guard<'a> {
    /// No match begins at a position where none of these needles occurs.
    Begins(&'a Prefilter),
    /// Each match contains one of the needles, and none of the stop bytes.
    Holds(&'a Needs),
}

/// The position at which a search is to begin, and the needle for which it does, in bytes of the
/// whole content.
#[derive(Clone, Copy)]
pub struct Start {
    /// No match begins before it.
    pub from: usize,
    /// Where the needle occurs, at `from` or later.
    pub needle: usize,
}

/// Returns where a search is to go on that has come to `at`. With prefix literals that is the next
/// needle. With required literals it is after the last byte before that needle which no match
/// contains. Returns None if no needle is left, and so no match.
///
/// `end` is where the input's bounds end. It reads the uncut bytes, none of them before `at`,
/// wherever the input was before. It allocates and copies nothing.
#[inline(always)]
pub fn next_start<C: Cursor>(
    input: &mut Input<C>,
    guard: Guard,
    at: usize,
    end: usize,
) -> Option<Start>
    requires end { end ≡ high input.old }
    ensures keeps { Keeps input.old input.new }
    ensures within { IfSome result (λ s. (at ≤ s.from) × (s.from ≤ s.needle) × (s.needle < end)) }
    ensures needle { option_map (λ s. s.needle) result
        ≡ option_map (λ h. h.start) (find_needle
        (guard_needles guard.entry) input.old.content at end) }
    ensures from { IfSome result (BeginsFor guard.entry input.old.content at) }
    ensures passed { (places : List Place) (terminator : ℕ) (over : Bool)
        → IsGuard places terminator guard.entry → MatchOption result
        ((x : ℕ) → at ≤ x → x ≤ end → HasNoWalkFrom
        (search_over places terminator over input.old) x)
        (λ s. (x : ℕ) → at ≤ x → x < s.from
        → HasNoWalkFrom (search_over places terminator over input.old) x) }
{
    match guard {
        Guard::Begins(prefilter) => {
            let hit = find_from(input, prefilter, at, end)?;
            Some(Start {
                from: hit.start,
                needle: hit.start,
            })
        }
        Guard::Holds(needs) => {
            let hit = find_from(input, &needs.needles, at, end)?;
            let from = behind_stop(input, &needs.stops, at, hit.start);
            Some(Start {
                from,
                needle: hit.start,
            })
        }
    }
}

/// Returns the position after the last stop byte before the needle, but at least `at`, in bytes.
#[inline(always)]
pub fn behind_stop<C: Cursor>(
    input: &mut Input<C>,
    stops: &Stops,
    at: usize,
    needle: usize,
) -> usize
    requires ordered { at ≤ needle }
    requires inside { needle ≤ length input.old.content }
    ensures keeps { Keeps input.old input.new }
    ensures low { at ≤ result }
    ensures high { result ≤ needle }
    ensures behind { IsBehind stops.now.table input.old.content at needle result }
{
    let mut from = needle;
    while from > at {
        let piece = piece_before(input, at, from);
        let left = stopped_len(piece, stops);
        from -= piece.len() - left;
        if left > 0 {
            return from;
        }
    }
    at
}

/// Returns the length of the piece up to and with its last stop byte, or 0 if it has none.
#[inline(always)]
fn stopped_len(piece: &[u8], stops: &Stops) -> usize
    ensures within { result ≤ length piece.now }
    ensures none { (k : ℕ) → result ≤ k → k < length piece.now
        → is_stop stops.now.table (slice_index piece.now k) ≡ false }
    ensures last { 0 < result → IsTrue (is_stop stops.now.table
        (slice_index piece.now (result - 1))) }
{
    let mut left = piece.len();
    while left > 0 {
        if stops.table[piece[left - 1] as usize] {
            return left;
        }
        left -= 1;
    }
    0
}
