//! The Pike VM for `MatchKind::All`: of all spans that walks spell, the one with the greatest end,
//! then the least start, then the least pattern.
ghost use Rattle.std.specs.Prelude.{◌≡◌, ℕ, ◌+◌, ◌-◌, ◌*◌, ◌<◌, ◌≤◌, ◌⊎◌, ⊤, ◌^◌, List, [], ◌++◌, length, map, Option, MatchOption, option_map, ◌∷◌, MatchBool};
ghost use Rattle.rc_text.specs.Found.{Found};
ghost use Rattle.rc_text.specs.Bounds.{IsWithinBounds};
ghost use Rattle.rc_text.specs.Text.{Searched, Keeps, low, high};
ghost use Rattle.rc_program.specs.Greatest.{greatest, IsNoGreater};
ghost use Rattle.rc_program.specs.Programs.{search_of};
ghost use Rattle.rc_program.specs.Places.{places_of};
ghost use Rattle.rc_pikevm.specs.Near.{IsHere, seen_from, size};
ghost use Rattle.rc_pikevm.specs.Moves.{IsSetting, seen, seen_by};
ghost use Rattle.rc_pikevm.specs.Passing.{AllFrom, IsCounted, HasRoom};
ghost use Rattle.rc_pikevm.specs.Spread.{Runner, running, SomeSpells, IsTop, Seeks, BeginFrom, IsOrdered, span_of, starting, IsGreater, StaysCounted};
ghost use Rattle.rc_pikevm.specs.Steps.{HasStepped, MayStep};
ghost use Rattle.rc_pikevm.specs.Caches.{IsCacheFor};
ghost use Rattle.rc_pikevm.specs.Scratches.{IsSame, IsScratchFor};
ghost use Rattle.rc_pikevm.specs.Underway.{IsInLine};
ghost use Rattle.rc_pikevm.specs.Explored.{Grows};

use crate::cache::Cache;
use crate::closure::{close, drain};
use crate::growth::Growth;
use crate::pass::{Ending, is_done};
use crate::scratch::Scratch;
use crate::search::{bounds, starts_of};
use crate::spot::{Course, Spot};
use crate::threads::Threads;
use crate::window::{open, reach, spot_at};
use rc_program::program::Program;
use rc_text::cursor::Cursor;
use rc_text::input::Input;
use rc_text::types::{Match, PatternID, Span};

/// Whether the new walk is greater than the old one: by a greater end, then a lesser start, then a
/// lesser pattern.
fn is_greater(old: Ending, new: Ending) -> bool
    ensures { MatchBool result (IsNoGreater (span_of old) (span_of new))
        (IsNoGreater (span_of new) (span_of old)) }
{
    if new.end != old.end {
        return new.end > old.end;
    }
    if new.start != old.start {
        return new.start < old.start;
    }
    new.pattern < old.pattern
}

/// Returns the greater of the best walk so far and a new one.
fn greater(best: Option<Ending>, new: Ending) -> Ending
    ensures { IsGreater best new result }
{
    let Some(old) = best else {
        return new;
    };
    if is_greater(old, new) {
        return new;
    }
    old
}

/// Follows all ways from `root` that read nothing, in order, and appends a thread for each place
/// that reads. `best` is the greatest walk that has ended so far.
fn spread(spot: &Spot, root: usize, start: usize, best: &mut Option<Ending>, growth: &mut Growth)
    ghost text: { Searched }
    requires here { IsHere spot.now text }
    requires root_in { root < size spot.now.course }
    requires sound { HasRoom (seen_from spot.now text) (size spot.now.course) spot.now.course.hi
        spot.now.at
        growth.old.threads growth.old.entered }
    requires ordered { IsOrdered start growth.old.threads.items }
    requires width { growth.old.threads.width ≡ 0 }
    ensures seeks { (below : List Runner) (o : Option Found) → BeginFrom start below
        → Seeks (seen_from spot.now text) spot.now.at growth.new.threads.items
        growth.new.entered.items below best.new o
        → Seeks (seen_from spot.now text) spot.now.at growth.old.threads.items
        growth.old.entered.items
        ((start, (root, spot.now.at)) ∷ below) best.old o }
    ensures grown { Grows spot.now text start growth.old growth.new }
    ensures ordered { IsOrdered start growth.new.threads.items }
    ensures counted { StaysCounted start spot.now.at best.old best.new }
    ensures some { 0 < length growth.new.entered.items }
{
    let mut ended = close(spot, root, start, growth);
    'ends: while let Some(pattern) = ended {
        let new = Ending {
            pattern,
            start,
            end: spot.at,
        };
        *best = Some(greater(*best, new));
        ended = drain(spot, start, growth);
    }
}

/// Advances the threads of `curr` at the spot, in order. Threads that wait for a later position are
/// appended to `growth` as they are. `best` is the greatest match so far.
fn step(spot: &Spot, curr: &Threads, best: &mut Option<Ending>, growth: &mut Growth)
    ghost text: { Searched }
    requires here { IsHere spot.now text }
    requires ready { MayStep spot.now text curr.now.items growth.old }
    requires ordered { IsOrdered spot.now.at curr.now.items }
    requires widths { (curr.now.width ≡ 0) × (growth.old.threads.width ≡ 0) }
    ensures seeks { (below : List Runner) (o : Option Found) → BeginFrom spot.now.at below
        → Seeks (seen_from spot.now text) spot.now.at growth.new.threads.items
        growth.new.entered.items below best.new o
        → Seeks (seen_from spot.now text) spot.now.at [] []
        (map running curr.now.items ++ below) best.old o }
    ensures stepped { HasStepped spot.now text curr.now.items growth.old growth.new }
    ensures ordered { IsOrdered spot.now.at growth.new.threads.items }
    ensures some { (length curr.now.items ≡ 0)
        ⊎ (0 < length growth.new.threads.items + length growth.new.entered.items) }
    ensures counted { (k : ℕ) → AllFrom (spot.now.at + 1 - k) curr.now.items → IsCounted k best.old
        → IsCounted k best.new }
{
    'threads: for index in 0..curr.len() {
        let (head, row) = curr.get(index);
        if head.at > spot.at {
            growth.threads.push(head, row);
            continue;
        }
        spread(spot, head.place, head.start, best, growth);
    }
}

/// Advances the threads of `curr` at the spot, and then a new thread that sets out there, unless
/// the spot is past the last start. `best` is the greatest match so far.
fn advance(spot: &Spot, curr: &Threads, best: &mut Option<Ending>, growth: &mut Growth)
    ghost text: { Searched }
    requires here { IsHere spot.now text }
    requires ready { MayStep spot.now text curr.now.items growth.old }
    requires ordered { IsOrdered spot.now.at curr.now.items }
    requires widths { (curr.now.width ≡ 0) × (growth.old.threads.width ≡ 0) }
    ensures seeks { (o : Option Found)
        → Seeks (seen_from spot.now text) spot.now.at growth.new.threads.items
        growth.new.entered.items
        (starting (spot.now.at + 1) spot.now.course.last) best.new o
        → Seeks (seen_from spot.now text) spot.now.at [] []
        (map running curr.now.items ++ starting spot.now.at spot.now.course.last)
        best.old o }
    ensures stepped { HasStepped spot.now text curr.now.items growth.old growth.new }
    ensures ordered { IsOrdered spot.now.at growth.new.threads.items }
    ensures some { (length curr.now.items ≡ 0)
        ⊎ (0 < length growth.new.threads.items + length growth.new.entered.items) }
    ensures counted { (k : ℕ) → length growth.new.entered.items ≤ k
        → AllFrom (spot.now.at + 1 - k) curr.now.items
        → IsCounted k best.old → IsCounted k best.new }
{
    step(spot, curr, best, growth);
    if spot.at <= spot.course.last {
        spread(spot, 0, spot.at, best, growth);
    }
}

/// Handles one position of a pass: advances the threads, and counts the places entered.
fn turn(spot: &Spot, best: &mut Option<Ending>, scratch: &mut Scratch)
    ghost text: { Searched }
    requires here { IsHere spot.now text }
    requires made { scratch.old.next.entered.capacity ≡ size spot.now.course }
    requires lined { IsInLine spot.now.course text 0 spot.now.at scratch.old }
    requires ordered { IsOrdered spot.now.at scratch.old.curr.items }
    requires counted { IsCounted scratch.old.insertions best.old }
    requires small { scratch.old.insertions + size spot.now.course < 2 ^ 128 }
    ensures seeks { (o : Option Found)
        → Seeks (seen_from spot.now text) (spot.now.at + 1) [] []
        (map running scratch.new.curr.items
        ++ starting (spot.now.at + 1) spot.now.course.last) best.new o
        → Seeks (seen_from spot.now text) spot.now.at [] []
        (map running scratch.old.curr.items
        ++ starting spot.now.at spot.now.course.last) best.old o }
    ensures lined { IsInLine spot.now.course text 0 (spot.now.at + 1) scratch.new }
    ensures ordered { IsOrdered (spot.now.at + 1) scratch.new.curr.items }
    ensures same { IsSame scratch.old scratch.new }
    ensures counted { IsCounted scratch.new.insertions best.new }
    ensures few { scratch.new.insertions ≤ scratch.old.insertions + size spot.now.course }
{
    scratch.next.clear();
    advance(spot, &scratch.curr, best, &mut scratch.next);
    scratch.finish();
}

/// Runs one pass over the positions from `from` on. Returns the greatest match of the starts there,
/// or None if none of them has a match.
///
/// A place is entered once at a position, and `insertions` counts how many are.
pub(crate) fn reach_end<C: Cursor>(
    input: &mut Input<C>,
    course: Course,
    from: usize,
    scratch: &mut Scratch,
) -> Option<Ending>
    ghost text: { Searched }
    requires same { Keeps text input.old }
    requires setting { IsSetting course text }
    requires bounds { (low text ≤ from) × (from ≤ course.last) }
    requires made { IsScratchFor course.program.now scratch.old }
    requires width { scratch.old.next.threads.width ≡ 0 }
    ensures keeps { Keeps input.old input.new }
    ensures top { IsTop (SomeSpells (seen_by course.entry text) []
        (starting from course.entry.last)) (option_map span_of result) }
    ensures counted { IsCounted scratch.new.insertions result }
    ensures few { scratch.new.insertions ≤ size course.entry * (course.entry.hi - from + 1) }
    ensures same { IsSame scratch.old scratch.new }
{
    let mut best: Option<Ending> = None;
    scratch.insertions = 0;
    scratch.curr.clear(0);
    let mut window = open(input, from);
    'positions: for at in from..course.hi + 1 {
        reach(&mut window, input, at);
        turn(&spot_at(course, &window, at), &mut best, scratch);
        if is_done(&scratch.curr, None, at, course.last) {
            return best;
        }
    }
    best
}

/// Returns the greatest match within the bounds of the search, or None if there is none.
fn choose<C: Cursor>(
    input: &mut Input<C>,
    program: &Program,
    scratch: &mut Scratch,
) -> Option<Ending>
    requires made { IsScratchFor program.now scratch.old }
    requires width { scratch.old.next.threads.width ≡ 0 }
    ensures keeps { Keeps input.old input.new }
    ensures chosen { option_map span_of result ≡ greatest (seen program.now input.old) }
    ensures counted { IsCounted scratch.new.insertions result }
    ensures few { scratch.new.insertions ≤ length program.now.places.items
        * (high input.old - low input.old + 2) }
    ensures none { high input.old < low input.old → scratch.new.insertions ≡ 0 }
    ensures same { IsSame scratch.old scratch.new }
{
    scratch.insertions = 0;
    let (lo, hi) = bounds(input);
    if lo > hi {
        return None;
    }
    let (pattern, last) = starts_of(input.get_anchored(), lo, hi);
    let course = Course {
        program,
        hi,
        pattern,
        last,
    };
    reach_end(input, course, lo, scratch)
}

/// Returns the greatest match of a search: the one with the greatest end, then the least start,
/// then the least pattern number. Neither the earliest flag is read, nor are matches passed over
/// that end off a boundary.
///
/// The cache must be made for programs of as many places, and stays so. Nothing is allocated, and
/// the time is linear in the bytes between the search's bounds.
pub fn find_greatest<C: Cursor>(
    cache: &mut Cache,
    input: &mut Input<C>,
    program: &Program,
) -> Option<Match>
    requires made { IsCacheFor (places_of program.now.places.items) 0 cache.old }
    ensures keeps { Keeps input.old input.new }
    ensures found { result ≡ greatest (search_of program.now input.old) }
    ensures within { MatchOption result ⊤ (IsWithinBounds input.old) }
    ensures cache { cache.new ≡ record cache.old { insertions = cache.new.insertions } }
    ensures none { high input.old < low input.old → cache.new.insertions ≡ 0 }
    ensures few { cache.new.insertions ≤ length program.now.places.items
        * (high input.old - low input.old + 2) }
    ensures counted { MatchOption result ⊤ (λ m. m.end - m.start + 1 ≤ cache.new.insertions) }
{
    cache.scratch.widen(0);
    let Some(end) = choose(input, program, &mut cache.scratch) else {
        return None;
    };
    let Some(pattern) = PatternID::new(end.pattern) else {
        return None;
    };
    let span = Span {
        start: end.start,
        end: end.end,
    };
    Some(Match::new(pattern, span))
}
