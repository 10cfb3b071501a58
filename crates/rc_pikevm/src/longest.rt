//! The Pike VM for leftmost-longest: how the threads go on at a position in a pass for the longest
//! walk of the least start. A match drops the threads of later starts, and no other.
ghost use Rattle.std.specs.Prelude.{◌≡◌, ℕ, ◌+◌, ◌-◌, ◌*◌, ◌<◌, ◌≤◌, ◌⊎◌, ◌^◌, List, [], ◌++◌, length, map, Option, IsTrue, ◌∷◌, MatchBool};
ghost use Rattle.rc_walks.specs.Walks.{Pair};
ghost use Rattle.rc_text.specs.Text.{Searched};
ghost use Rattle.rc_pikevm.specs.Near.{IsHere, seen_from, size};
ghost use Rattle.rc_pikevm.specs.Trace.{Trace, trace};
ghost use Rattle.rc_pikevm.specs.Passing.{pending, AllFrom, IsCounted, HasRoom};
ghost use Rattle.rc_pikevm.specs.Races.{Races, IsCutOff, starts_to, IsSought, IsRecorded};
ghost use Rattle.rc_pikevm.specs.Scratches.{IsSame};
ghost use Rattle.rc_pikevm.specs.Steps.{HasStepped, MayStep};
ghost use Rattle.rc_pikevm.specs.Underway.{IsInLine};
ghost use Rattle.rc_pikevm.specs.Explored.{Grows};
ghost use Rattle.rc_pikevm.specs.Spread.{StaysCounted};

use crate::closure::{close, drain};
use crate::entrance::way_in;
use crate::growth::{Growth, copy_row};
use crate::heads::is_dead;
use crate::pass::{Ending, empty};
use crate::scratch::Scratch;
use crate::spot::Spot;
use crate::threads::Threads;

/// Whether a walk from this start may still be the longest of the least start.
#[inline(always)]
fn is_sought(best: Option<Ending>, start: usize) -> bool
    ensures { MatchBool result (IsSought best start) (IsCutOff best start) }
{
    let Some(old) = best else {
        return true;
    };
    start <= old.start
}

/// Records a walk that has ended: it becomes the best, and its slots are copied to `found`, unless
/// the best so far ended there or later.
#[inline(always)]
fn record(
    new: Ending,
    slots: &[Option<usize>],
    best: &mut Option<Ending>,
    found: &mut [Option<usize>],
)
    requires { length slots.now ≡ length found.old }
    ensures { IsRecorded best.old found.old new slots.now best.new found.new }
{
    if let Some(old) = *best {
        if new.end <= old.end {
            return;
        }
    }
    *best = Some(new);
    found.copy_from_slice(slots);
}

/// Follows all ways from `root` that read nothing, in order of preference, and appends a thread for
/// each place that reads. `best` is the longest match of the least start so far, and `found` are
/// its slots.
#[inline(always)]
fn spread(
    spot: &Spot,
    root: usize,
    start: usize,
    best: &mut Option<Ending>,
    found: &mut [Option<usize>],
    growth: &mut Growth,
)
    ghost text: { Searched }
    requires here { IsHere spot.now text }
    requires root_in { root < size spot.now.course }
    requires sound { HasRoom (seen_from spot.now text) (size spot.now.course) spot.now.course.hi
        spot.now.at
        growth.old.threads growth.old.entered }
    requires sought { IsSought best.old start }
    requires wide { length found.old ≡ growth.old.threads.width }
    ensures races { (all below : List (Trace × Pair))
        → Races (seen_from spot.now text) all spot.now.at growth.old.threads.items
        growth.old.entered.items
        ((trace start growth.old.slots.items, (root, spot.now.at)) ∷ below) best.old found.old
        → Races (seen_from spot.now text) all spot.now.at growth.new.threads.items
        growth.new.entered.items below best.new found.new }
    ensures counted { StaysCounted start spot.now.at best.old best.new }
    ensures grown { Grows spot.now text start growth.old growth.new }
    ensures some { 0 < length growth.new.entered.items }
{
    let mut ended = close(spot, root, start, growth);
    'ends: while let Some(pattern) = ended {
        let new = Ending {
            pattern,
            start,
            end: spot.at,
        };
        record(new, &growth.slots, best, found);
        ended = drain(spot, start, growth);
    }
}

/// Advances the threads of `curr` at the spot, in order. Threads that wait for a later position are
/// appended to `growth` as they are. Threads of later starts than the best walk's are dropped.
/// `best` is the longest match of the least start so far, and `found` are its slots.
fn step(
    spot: &Spot,
    curr: &Threads,
    best: &mut Option<Ending>,
    found: &mut [Option<usize>],
    growth: &mut Growth,
)
    ghost text: { Searched }
    requires here { IsHere spot.now text }
    requires ready { MayStep spot.now text curr.now.items growth.old }
    requires widths { (curr.now.width ≡ growth.old.threads.width)
        × (length found.old ≡ growth.old.threads.width) }
    ensures races { (all below : List (Trace × Pair))
        → Races (seen_from spot.now text) all spot.now.at [] []
        (map pending curr.now.items ++ below) best.old found.old
        → Races (seen_from spot.now text) all spot.now.at growth.new.threads.items
        growth.new.entered.items below best.new found.new }
    ensures stepped { HasStepped spot.now text curr.now.items growth.old growth.new }
    ensures counted { (k : ℕ) → AllFrom (spot.now.at + 1 - k) curr.now.items → IsCounted k best.old
        → IsCounted k best.new }
    ensures still { (best.new ≡ best.old) ⊎ (0 < length growth.new.entered.items) }
{
    'threads: for index in 0..curr.len() {
        let (head, row) = curr.get(index);
        if !is_sought(*best, head.start) {
            continue;
        }
        if head.at > spot.at {
            growth.threads.push(head, row);
            continue;
        }
        copy_row(&mut growth.slots, row);
        let place = way_in(spot, head.place, &growth.entered);
        spread(spot, place, head.start, best, found, growth);
    }
}

/// Advances the threads of `curr` at the spot. Then a new thread sets out there, unless the spot is
/// past the last start or a match was found at an earlier start. `best` is the longest match of the
/// least start so far, and `found` are its slots.
fn advance(
    spot: &Spot,
    curr: &Threads,
    best: &mut Option<Ending>,
    found: &mut [Option<usize>],
    growth: &mut Growth,
)
    ghost text: { Searched }
    requires here { IsHere spot.now text }
    requires ready { MayStep spot.now text curr.now.items growth.old }
    requires widths { (curr.now.width ≡ growth.old.threads.width)
        × (length found.old ≡ growth.old.threads.width) }
    ensures races { (all : List (Trace × Pair))
        → Races (seen_from spot.now text) all spot.now.at [] []
        (map pending curr.now.items ++ starts_to growth.old.threads.width
        spot.now.at spot.now.course.last) best.old found.old
        → Races (seen_from spot.now text) all spot.now.at growth.new.threads.items
        growth.new.entered.items
        (starts_to growth.old.threads.width
        (spot.now.at + 1) spot.now.course.last) best.new found.new }
    ensures stepped { HasStepped spot.now text curr.now.items growth.old growth.new }
    ensures counted { (k : ℕ) → length growth.new.entered.items ≤ k
        → AllFrom (spot.now.at + 1 - k) curr.now.items
        → IsCounted k best.old → IsCounted k best.new }
    ensures still { (best.new ≡ best.old) ⊎ (0 < length growth.new.entered.items) }
{
    step(spot, curr, best, found, growth);
    if spot.at > spot.course.last {
        return;
    }
    if !is_sought(*best, spot.at) {
        return;
    }
    if is_dead(spot, 0) {
        return;
    }
    empty(&mut growth.slots);
    let place = way_in(spot, 0, &growth.entered);
    spread(spot, place, spot.at, best, found, growth);
}

/// Handles one position of a pass: advances the threads, and counts the places entered.
pub(crate) fn turn(spot: &Spot, best: &mut Option<Ending>, scratch: &mut Scratch)
    ghost text: { Searched }
    requires here { IsHere spot.now text }
    requires made { scratch.old.next.entered.capacity ≡ size spot.now.course }
    requires lined { IsInLine spot.now.course text scratch.old.next.threads.width spot.now.at scratch.old }
    requires counted { IsCounted scratch.old.insertions best.old }
    requires small { scratch.old.insertions + size spot.now.course < 2 ^ 128 }
    ensures races { (all : List (Trace × Pair))
        → Races (seen_from spot.now text) all spot.now.at [] []
        (map pending scratch.old.curr.items
        ++ starts_to scratch.old.next.threads.width spot.now.at spot.now.course.last)
        best.old scratch.old.found.items
        → Races (seen_from spot.now text) all (spot.now.at + 1) [] []
        (map pending scratch.new.curr.items
        ++ starts_to scratch.old.next.threads.width (spot.now.at + 1) spot.now.course.last)
        best.new scratch.new.found.items }
    ensures lined { IsInLine spot.now.course text scratch.old.next.threads.width (spot.now.at + 1)
        scratch.new }
    ensures same { IsSame scratch.old scratch.new }
    ensures counted { IsCounted scratch.new.insertions best.new }
    ensures few { scratch.new.insertions ≤ scratch.old.insertions + size spot.now.course }
{
    scratch.next.clear();
    advance(
        spot,
        &scratch.curr,
        best,
        &mut scratch.found,
        &mut scratch.next,
    );
    scratch.finish();
}

/// Whether a pass is over after the position `at`: no thread is left, and none will set out.
pub(crate) fn is_over(curr: &Threads, best: Option<Ending>, at: usize, last: usize) -> bool
    ensures { IsTrue result → (length curr.now.items ≡ 0) × ((last ≤ at) ⊎ IsCutOff best (at + 1)) }
{
    if curr.len() > 0 {
        return false;
    }
    at >= last || !is_sought(best, at + 1)
}

/// Whether no thread is left, and a start at the position couldn't give the answer.
pub(crate) fn is_spent(curr: &Threads, best: Option<Ending>, at: usize) -> bool
    ensures { IsTrue result → (length curr.now.items ≡ 0) × IsCutOff best at }
{
    curr.len() == 0 && !is_sought(best, at)
}
