//! The Pike VM: one pass over a text, for the first or the longest match of the least start.
//!
//! Take `a|ab` over `xab`. Place 0 is a choice of 1 or 8, place 1 of 2 or 3, place 3 of 4 or 6.
//! Places 2 and 4 read `a`, place 5 reads `b`, place 7 is the match, 6 and 8 are dead ends.
//!
//!     at  next  threads, in order          what happens
//!      0   x    none                       no walk begins with `x`, so no thread sets out
//!      1   a    none                       one sets out at 0; its closure reaches 2 and 4
//!      2   b    (7, start 1) (5, start 1)  the first matches 1..2, so the second is dropped
//!
//! No thread is left, so the pass returns 1..2. For the longest match a match drops threads of
//! later starts alone. So the second thread stays, reads `b`, and matches 1..3 at the end.
//!
//! A `Rule` says which match is sought, and so how the threads go on at a position. A single thread
//! goes on without lists, and starts from which no walk leads on are skipped (`alone`).
ghost use Rattle.std.specs.Prelude.{◌≡◌, ℕ, ◌+◌, ◌-◌, ◌*◌, ◌<◌, ◌≤◌, ◌⊎◌, ⊤, List, [], ◌∷◌, ◌++◌, length, map, Option, None, Some, MatchOption, true, false, replicate, ◌^◌, IsTrue, is_none, vec_capacity};
ghost use Rattle.rc_walks.specs.Walks.{Pair};
ghost use Rattle.rc_text.specs.Text.{Searched, Keeps, low, high};
ghost use Rattle.rc_pikevm.specs.Sights.{HasNoWalkFrom, IsUpTo};
ghost use Rattle.rc_needles.specs.Guards.{Guards};
ghost use Rattle.rc_needles.specs.Prefilters.{needles_of};
ghost use Rattle.rc_program.specs.Places.{places_of};
ghost use Rattle.rc_pikevm.specs.Alone.{EndsAlone, IsAhead, ReadsOne};
ghost use Rattle.rc_pikevm.specs.Threads.{Thread};
ghost use Rattle.rc_pikevm.specs.Near.{IsHere, seen_from, size};
ghost use Rattle.rc_pikevm.specs.Moves.{IsSetting, seen_by};
ghost use Rattle.rc_pikevm.specs.Roots.{StandsFor};
ghost use Rattle.rc_pikevm.specs.Trace.{Trace, done};
ghost use Rattle.rc_pikevm.specs.Passing.{CarriesTo, pending, AllFrom, waiting_starts, PendingTo, IsCounted, best_of};
ghost use Rattle.rc_pikevm.specs.Scratches.{IsSame, IsScratchFor};
ghost use Rattle.rc_pikevm.specs.Steps.{HasStepped, MayStep};
ghost use Rattle.rc_pikevm.specs.Rules.{GivesBy, MayEnter, TellsBy, Turns, root_of};
ghost use Rattle.rc_pikevm.specs.Underway.{IsInLine};

use crate::alone::{FastPath, try_fast_path};
use crate::closure::close;
use crate::entrance::way_in;
use crate::growth::{Growth, copy_row};
use crate::heads::is_dead;
use crate::longest;
use crate::longest::{is_over, is_spent};
use crate::rule::{Rule, root_of};
use crate::scratch::Scratch;
use crate::spot::{Course, Spot};
use crate::threads::{BareThread, Threads};
use crate::window::{open, reach, spot_at};
use rc_needles::literal::find_from;
use rc_needles::prefilter::Prefilter;
use rc_text::cursor::Cursor;
use rc_text::input::Input;

/// How many times in a row the fast path may fail before it is no longer tried.
const PATIENCE: u32 = 4;

/// A walk that has ended.
#[derive(Clone, Copy)]
pub struct Ending {
    /// The number of its pattern.
    pub pattern: usize,
    /// Where it began, in bytes.
    pub start: usize,
    /// Where it ended, in bytes.
    pub end: usize,
}

/// Advances the threads of `curr` at the spot, in order. Threads that wait for a later position are
/// appended to `growth` as they are.
///
/// Returns the pattern and the start of the first thread that comes to a match. Then `growth.slots`
/// are that walk's, and all threads after it are dropped.
fn step(spot: &Spot, curr: &Threads, growth: &mut Growth) -> Option<(usize, usize)>
    ghost text: { Searched }
    requires here { IsHere spot.now text }
    requires ready { MayStep spot.now text curr.now.items growth.old }
    requires widths { curr.now.width ≡ growth.old.threads.width }
    ensures carries { (limit : Option ℕ) → IsUpTo spot.now.at limit
        → (below : List (Trace × Pair)) (best o : Option Trace) → MatchOption result
        (CarriesTo limit (seen_from spot.now text) spot.now.at growth.new.threads.items
        growth.new.entered.items below best o)
        (λ r. CarriesTo limit (seen_from spot.now text) spot.now.at growth.new.threads.items
        growth.new.entered.items []
        (Some (done r.0 r.1 spot.now.at growth.new.slots.items)) o)
        → CarriesTo limit (seen_from spot.now text) spot.now.at [] []
        (map pending curr.now.items ++ below) best o }
    ensures stepped { HasStepped spot.now text curr.now.items growth.old growth.new }
    ensures ended { MatchOption result
        ((length curr.now.items ≡ 0) ⊎ (0 < length growth.new.threads.items
        + length growth.new.entered.items))
        (λ r. (0 < length growth.new.entered.items)
        × ((x : ℕ) → AllFrom x curr.now.items → x ≤ r.1)) }
{
    'threads: for index in 0..curr.len() {
        let (head, row) = curr.get(index);
        if head.at > spot.at {
            growth.threads.push(head, row);
            continue;
        }
        copy_row(&mut growth.slots, row);
        let place = way_in(spot, head.place, &growth.entered);
        if let Some(number) = close(spot, place, head.start, growth) {
            return Some((number, head.start));
        }
    }
    None
}

/// Sets out a new thread at the spot if `is_open` and the spot isn't past the last start, while no
/// other is under way. It enters at the place `root`, which stands for place 0. Returns the pattern
/// and the start if it comes to a match, with its slots in `growth.slots`.
fn set_out(spot: &Spot, root: usize, is_open: bool, growth: &mut Growth) -> Option<(usize, usize)>
    ghost text: { Searched }
    requires here { IsHere spot.now text }
    requires ready { MayStep spot.now text [] growth.old }
    requires root { root < size spot.now.course }
    requires stands { StandsFor (seen_from spot.now text) root }
    ensures carries { (limit : Option ℕ) → IsUpTo spot.now.at limit → (limit ≡ None) ⊎ (root ≡ 0)
        → (best o : Option Trace) → MatchOption result
        (CarriesTo limit (seen_from spot.now text) spot.now.at growth.new.threads.items
        growth.new.entered.items
        (waiting_starts is_open growth.old.threads.width
        (spot.now.at + 1) spot.now.course.last) best o)
        (λ r. CarriesTo limit (seen_from spot.now text) spot.now.at growth.new.threads.items
        growth.new.entered.items []
        (Some (done r.0 r.1 spot.now.at growth.new.slots.items)) o)
        → CarriesTo limit (seen_from spot.now text) spot.now.at [] []
        (waiting_starts is_open growth.old.threads.width spot.now.at spot.now.course.last) best
        o }
    ensures stepped { HasStepped spot.now text [] growth.old growth.new }
    ensures ended { MatchOption result ⊤
        (λ r. (0 < length growth.new.entered.items) × ((x : ℕ) → x ≤ spot.now.at → x ≤ r.1)) }
{
    if !is_open || spot.at > spot.course.last {
        return None;
    }
    empty(&mut growth.slots);
    let place = way_in(spot, root, &growth.entered);
    if let Some(number) = close(spot, place, spot.at, growth) {
        return Some((number, spot.at));
    }
    None
}

/// Advances the threads of `curr` at the spot. Then, if `is_open` and the spot isn't past the last
/// start, a new thread sets out. If it is the only one, it enters at the place `root`, which stands
/// for place 0. Returns the pattern and the start of the first thread that comes to a match. Then
/// `growth.slots` are that walk's, and all threads after it are dropped.
fn advance(
    spot: &Spot,
    root: usize,
    is_open: bool,
    curr: &Threads,
    growth: &mut Growth,
) -> Option<(usize, usize)>
    ghost text: { Searched }
    requires here { IsHere spot.now text }
    requires ready { MayStep spot.now text curr.now.items growth.old }
    requires widths { curr.now.width ≡ growth.old.threads.width }
    requires root { root < size spot.now.course }
    requires stands { StandsFor (seen_from spot.now text) root }
    ensures carries { (limit : Option ℕ) → IsUpTo spot.now.at limit → (limit ≡ None) ⊎ (root ≡ 0)
        → (best o : Option Trace) → MatchOption result
        (CarriesTo limit (seen_from spot.now text) spot.now.at growth.new.threads.items
        growth.new.entered.items
        (waiting_starts is_open growth.old.threads.width
        (spot.now.at + 1) spot.now.course.last) best o)
        (λ r. CarriesTo limit (seen_from spot.now text) spot.now.at growth.new.threads.items
        growth.new.entered.items []
        (Some (done r.0 r.1 spot.now.at growth.new.slots.items)) o)
        → CarriesTo limit (seen_from spot.now text) spot.now.at [] []
        (map pending curr.now.items ++ waiting_starts is_open growth.old.threads.width
        spot.now.at spot.now.course.last) best o }
    ensures stepped { HasStepped spot.now text curr.now.items growth.old growth.new }
    ensures ended { MatchOption result ⊤
        (λ r. (0 < length growth.new.entered.items)
        × ((x : ℕ) → x ≤ spot.now.at → AllFrom x curr.now.items → x ≤ r.1)) }
{
    if curr.len() == 0 {
        return set_out(spot, root, is_open, growth);
    }
    if let Some(end) = step(spot, curr, growth) {
        return Some(end);
    }
    if !is_open || spot.at > spot.course.last {
        return None;
    }
    if is_dead(spot, 0) {
        return None;
    }
    empty(&mut growth.slots);
    let place = way_in(spot, 0, &growth.entered);
    if let Some(number) = close(spot, place, spot.at, growth) {
        return Some((number, spot.at));
    }
    None
}

/// Empties all slots.
pub(crate) fn empty(slots: &mut Vec<Option<usize>>)
    ensures slots { slots.new.items ≡ replicate (length slots.old.items) None }
    ensures capacity { vec_capacity slots.new ≡ vec_capacity slots.old }
{
    slots.fill(None);
}

/// Handles one position of a pass: advances the threads, and counts the places entered. Returns the
/// best walk that has ended so far, with its slots in `found`.
#[inline(always)]
pub(crate) fn turn(
    spot: &Spot,
    root: usize,
    best: Option<Ending>,
    scratch: &mut Scratch,
) -> Option<Ending>
    ghost text: { Searched }
    requires here { IsHere spot.now text }
    requires made { scratch.old.next.entered.capacity ≡ size spot.now.course }
    requires lined { IsInLine spot.now.course text scratch.old.next.threads.width spot.now.at scratch.old }
    requires counted { IsCounted scratch.old.insertions best }
    requires small { scratch.old.insertions + size spot.now.course < 2 ^ 128 }
    requires root { root < size spot.now.course }
    requires stands { StandsFor (seen_from spot.now text) root }
    ensures carries { (limit : Option ℕ) → IsUpTo spot.now.at limit → (limit ≡ None) ⊎ (root ≡ 0)
        → (o : Option Trace) → PendingTo limit (seen_from spot.now text) scratch.old.next.threads.width spot.now.course.last
        (spot.now.at + 1) scratch.new.curr.items
        result scratch.new.found.items o
        → PendingTo limit (seen_from spot.now text) scratch.old.next.threads.width spot.now.course.last
        spot.now.at scratch.old.curr.items
        best scratch.old.found.items o }
    ensures lined { IsInLine spot.now.course text scratch.old.next.threads.width (spot.now.at + 1)
        scratch.new }
    ensures same { IsSame scratch.old scratch.new }
    ensures counted { IsCounted scratch.new.insertions result }
    ensures ends { (x : ℕ) → spot.now.at ≤ x → MatchOption best ⊤ (λ r. r.end ≤ x)
        → MatchOption result ⊤ (λ r. r.end ≤ x) }
    ensures few { scratch.new.insertions ≤ scratch.old.insertions + size spot.now.course }
{
    scratch.next.clear();
    let end = advance(spot, root, best.is_none(), &scratch.curr, &mut scratch.next);
    scratch.finish();
    if let Some((number, start)) = end {
        scratch.found.copy_from_slice(&scratch.next.slots);
        return Some(Ending {
            pattern: number,
            start,
            end: spot.at,
        });
    }
    best
}

/// Handles one position of a pass by its rule. The best walk that has ended so far is `best`, with
/// its slots in `found`.
fn turn_by(spot: &Spot, rule: Rule, best: &mut Option<Ending>, scratch: &mut Scratch)
    ghost text: { Searched }
    requires here { IsHere spot.now text }
    requires made { scratch.old.next.entered.capacity ≡ size spot.now.course }
    requires lined { IsInLine spot.now.course text scratch.old.next.threads.width spot.now.at scratch.old }
    requires counted { IsCounted scratch.old.insertions best.old }
    requires small { scratch.old.insertions + size spot.now.course < 2 ^ 128 }
    requires enters { MayEnter (size spot.now.course) (StandsFor (seen_from spot.now text)) rule }
    ensures turns { Turns rule (seen_from spot.now text) scratch.old.next.threads.width
        spot.now.course.last spot.now.at scratch.old.curr scratch.new.curr best.old best.new
        scratch.old.found.items scratch.new.found.items }
    ensures lined { IsInLine spot.now.course text scratch.old.next.threads.width (spot.now.at + 1)
        scratch.new }
    ensures same { IsSame scratch.old scratch.new }
    ensures counted { IsCounted scratch.new.insertions best.new }
    ensures few { scratch.new.insertions ≤ scratch.old.insertions + size spot.now.course }
{
    match rule {
        Rule::First(root) => *best = turn(spot, root, *best, scratch),
        Rule::Longest => longest::turn(spot, best, scratch),
    }
}

/// Ends the walk of the only thread at the position, as a match of the pattern. Returns that match,
/// with its slots in `found`.
#[inline(always)]
pub fn end_walk(course: Course, at: usize, number: usize, scratch: &mut Scratch) -> Ending
    ghost text: { Searched }
    requires lined { IsInLine course text scratch.old.next.threads.width at scratch.old }
    requires small { scratch.old.insertions + 1 < 2 ^ 128 }
    requires ends { EndsAlone (seen_by course text) at scratch.old.curr.items number }
    ensures turns { (rule : Rule) (best : Option Ending) → IsAhead best result.start at
        → Turns rule (seen_by course.entry text) scratch.old.next.threads.width course.entry.last at
        scratch.old.curr scratch.new.curr best (Some result) scratch.old.found.items
        scratch.new.found.items }
    ensures start { (t : Thread) → scratch.old.curr.items ≡ t ∷ [] → result.start ≡ t.start }
    ensures lined { IsInLine course.entry text scratch.old.next.threads.width (at + 1) scratch.new }
    ensures same { IsSame scratch.old scratch.new }
    ensures counted { IsCounted scratch.new.insertions (Some result) }
    ensures few { scratch.new.insertions ≤ scratch.old.insertions + 1 }
{
    let (head, row) = scratch.curr.get(0);
    let start = head.start;
    copy_row(&mut scratch.found, row);
    scratch.curr.clear(scratch.next.slots.len());
    scratch.insertions += 1;
    Ending {
        pattern: number,
        start,
        end: at,
    }
}

/// Sets out a thread at the position, while no other is under way. It reads one byte there, and
/// goes on at the place `next`.
#[inline(always)]
pub fn set_out_alone(course: Course, at: usize, root: usize, next: usize, scratch: &mut Scratch)
    ghost text: { Searched }
    requires setting { IsSetting course text }
    requires lined { IsInLine course text scratch.old.next.threads.width at scratch.old }
    requires small { scratch.old.insertions + 1 < 2 ^ 128 }
    requires none { length scratch.old.curr.items ≡ 0 }
    requires within { at ≤ course.last }
    requires stands { StandsFor (seen_by course text) root }
    requires reads { (p : ℕ) × ReadsOne (seen_by course text) (size course) at root (p, next) }
    ensures turns { (rule : Rule) → root_of rule ≡ root
        → Turns rule (seen_by course.entry text) scratch.old.next.threads.width course.entry.last at
        scratch.old.curr scratch.new.curr None None scratch.old.found.items
        scratch.new.found.items }
    ensures lined { IsInLine course.entry text scratch.old.next.threads.width (at + 1) scratch.new }
    ensures same { IsSame scratch.old scratch.new }
    ensures few { scratch.new.insertions ≤ scratch.old.insertions + 1 }
{
    empty(&mut scratch.next.slots);
    scratch.curr.push(
        BareThread {
            place: next,
            at: at + 1,
            start: at,
        },
        &scratch.next.slots,
    );
    scratch.insertions += 1;
}

/// Returns how many more times the fast path is tried. Success resets the count, and a failure with
/// at most one thread lowers it.
fn patience_left(patience: u32, has_moved: bool, threads: usize) -> u32 {
    if has_moved {
        return PATIENCE;
    }
    if threads > 1 {
        return patience;
    }
    patience.saturating_sub(1)
}

/// Whether a pass is done after the position `at`: no thread is left, and none will set out.
pub fn is_done(curr: &Threads, best: Option<Ending>, at: usize, last: usize) -> bool
    ensures { IsTrue result → (length curr.now.items ≡ 0) × ((is_none best ≡ false) ⊎ (last ≤ at)) }
{
    if curr.len() > 0 {
        return false;
    }
    if best.is_some() {
        return true;
    }
    at >= last
}

/// Whether no thread is left and no match was found.
fn is_idle(curr: &Threads, best: Option<Ending>) -> bool
    ensures { IsTrue result → (length curr.now.items ≡ 0) × (is_none best ≡ true) }
{
    curr.len() == 0 && best.is_none()
}

/// Returns the position from which a pass goes on that has come to `at`. If it is idle, has a
/// prefilter and isn't yet at `last`, that is the start of the next needle, or None if none is
/// left. Else it is `at`.
pub(crate) fn next_position<C: Cursor>(
    input: &mut Input<C>,
    course: Course,
    prefilter: Option<&Prefilter>,
    at: usize,
    idle: bool,
) -> Option<usize>
    requires inside { (at ≤ course.hi) × (course.hi ≡ high input.old) }
    ensures keeps { Keeps input.old input.new }
    ensures next { MatchOption prefilter.entry ⊤
        (λ p. Guards (places_of course.entry.program.now.places.items)
        course.entry.program.now.terminator (needles_of p.now))
        → MatchOption result
        (IsTrue idle × ((y : ℕ) → at ≤ y → y ≤ course.entry.hi
        → HasNoWalkFrom (seen_by course.entry input.old) y))
        (λ x. (at ≤ x) × (x ≤ course.entry.hi) × ((x ≡ at)
        ⊎ (IsTrue idle × ((y : ℕ) → at ≤ y → y < x
        → HasNoWalkFrom (seen_by course.entry input.old) y)))) }
{
    if !idle || at >= course.last {
        return Some(at);
    }
    let Some(needles) = prefilter else {
        return Some(at);
    };
    let Some(hit) = find_from(input, needles, at, course.hi) else {
        return None;
    };
    Some(hit.start)
}

/// Runs one pass over the positions from `from` on. Returns the walk of the least start that the
/// rule chooses, with its slots in `found`. Without a match, `found` stays as it is.
///
/// A place is entered once at a position, and `insertions` counts how many are. With a prefilter,
/// starts at which no needle occurs are skipped while no thread is under way. With `earliest`, the
/// pass ends at the first position at which some walk ends, and returns that walk.
pub(crate) fn pass<C: Cursor>(
    input: &mut Input<C>,
    course: Course,
    rule: Rule,
    prefilter: Option<&Prefilter>,
    from: usize,
    earliest: bool,
    scratch: &mut Scratch,
) -> Option<Ending>
    ghost text: { Searched }
    requires same { Keeps text input.old }
    requires setting { IsSetting course text }
    requires guarded { MatchOption prefilter ⊤
        (λ p. Guards (places_of course.program.now.places.items) course.program.now.terminator
        (needles_of p.now)) }
    requires bounds { (low text ≤ from) × (from ≤ course.last) }
    requires made { IsScratchFor course.program.now scratch.old }
    requires enters { MayEnter (size course) (StandsFor (seen_by course text)) rule }
    ensures keeps { Keeps input.old input.new }
    ensures gives { earliest ≡ false → GivesBy rule
        (seen_by course.entry text) scratch.old.next.threads.width from course.entry.last
        (best_of result scratch.new.found.items) }
    ensures tells { TellsBy rule (seen_by course.entry text) from course.entry.last result }
    ensures counted { IsCounted scratch.new.insertions result }
    ensures few { scratch.new.insertions ≤ size course.entry * (course.entry.hi - from + 1) }
    ensures same { IsSame scratch.old scratch.new }
{
    let mut best: Option<Ending> = None;
    scratch.insertions = 0;
    scratch.curr.clear(scratch.next.slots.len());
    let mut window = open(input, from);
    let mut at = from;
    let mut patience = PATIENCE;
    let root = root_of(rule);
    'positions: while at <= course.hi {
        let idle = is_idle(&scratch.curr, best);
        let Some(next_at) = next_position(input, course, prefilter, at, idle) else {
            return None;
        };
        at = next_at;
        reach(&mut window, input, at);
        let fast = FastPath {
            alone: patience > 0,
            skips: prefilter.is_none(),
        };
        let here = try_fast_path(course, &window, root, fast, &mut best, at, scratch);
        patience = patience_left(patience, here > at, scratch.curr.len());
        if is_spent(&scratch.curr, best, here) {
            return best;
        }
        at = here;
        turn_by(&spot_at(course, &window, at), rule, &mut best, scratch);
        if earliest && best.is_some() {
            return best;
        }
        if is_over(&scratch.curr, best, at, course.last) {
            return best;
        }
        at += 1;
    }
    best
}
