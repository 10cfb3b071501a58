//! Overlapping search: which patterns have a match, by one pass of the Pike VM. A match drops no
//! thread, and marks its pattern in a set.
ghost use Rattle.std.specs.Prelude.{◌≡◌, ◌↔◌, ℕ, ◌+◌, ◌-◌, ◌*◌, ◌<◌, ◌≤◌, ◌⊎◌, ◌^◌, ⊤, false, IfSome, IsTrue, List, MatchOption, [], ◌∷◌, ◌++◌, length, map, slice_set, true};
ghost use Rattle.rc_text.specs.Text.{Searched, Keeps, low, high};
ghost use Rattle.rc_text.specs.Limits.{greatest_pattern};
ghost use Rattle.rc_pattern_set.specs.Sets.{Has};
ghost use Rattle.rc_needles.specs.Guards.{Guards};
ghost use Rattle.rc_needles.specs.Prefilters.{needles_of};
ghost use Rattle.rc_walks.specs.Walks.{Pair};
ghost use Rattle.rc_program.specs.Program.{accept, choice, is_match_place, place_at};
ghost use Rattle.rc_program.specs.Places.{places_of};
ghost use Rattle.rc_program.specs.Programs.{search_of};
ghost use Rattle.rc_pikevm.specs.Caches.{IsCacheFor};
ghost use Rattle.rc_pikevm.specs.Entrances.{IsShut};
ghost use Rattle.rc_pikevm.specs.Explored.{Grows};
ghost use Rattle.rc_pikevm.specs.Fronts.{HasOwnWays};
ghost use Rattle.rc_pikevm.specs.Marking.{AreSame, Owed, SomeLeads, HasAll, HasNoneBefore, IsSettingOut, KeepsMarks, MarksFrom, MayBegin, entering, going};
ghost use Rattle.rc_pikevm.specs.Moves.{IsSetting, seen, seen_by};
ghost use Rattle.rc_pikevm.specs.Near.{IsHere, seen_from, size};
ghost use Rattle.rc_pikevm.specs.Passing.{HasRoom};
ghost use Rattle.rc_pikevm.specs.PatternSpans.{AddsSpelled, AreOfFirst};
ghost use Rattle.rc_pikevm.specs.Scratches.{IsSame, IsScratchFor};
ghost use Rattle.rc_pikevm.specs.Steps.{HasStepped, MayStep};
ghost use Rattle.rc_pikevm.specs.Sparse.{Has as IsEntered};
ghost use Rattle.rc_pikevm.specs.Underway.{IsInLine};

use crate::cache::Cache;
use crate::closure::{close, drain};
use crate::entrance::is_shut;
use crate::growth::Growth;
use crate::pass::{is_done, next_position};
use crate::scratch::Scratch;
use crate::search::{bounds, starts_of};
use crate::spot::{Course, Spot};
use crate::threads::Threads;
use crate::window::{open, reach, spot_at};
use rc_needles::prefilter::Prefilter;
use rc_pattern_set::sets::PatternSet;
use rc_program::place::Place;
use rc_program::program::Program;
use rc_text::cursor::Cursor;
use rc_text::input::Input;
use rc_text::types::PatternID;

/// Inserts the pattern of this number into the set.
fn mark(set: &mut PatternSet, number: usize)
    requires { number ≤ greatest_pattern }
    ensures { set.new ≡ slice_set set.old number true }
{
    if let Some(pattern) = PatternID::new(number) {
        set.insert(pattern);
    }
}

/// Follows all ways from `root` that read nothing, appends a thread for each place that reads, and
/// marks the pattern of each walk that ends. Choices of which one branch is shut are skipped.
fn spread(spot: &Spot, root: usize, start: usize, set: &mut PatternSet, growth: &mut Growth)
    ghost text: { Searched }
    requires here { IsHere spot.now text }
    requires root_in { root < size spot.now.course }
    requires sound { HasRoom (seen_from spot.now text) (size spot.now.course) spot.now.course.hi
        spot.now.at
        growth.old.threads growth.old.entered }
    requires width { growth.old.threads.width ≡ 0 }
    ensures same { (below : List Pair) → AreSame (length set.old)
        (Owed (seen_from spot.now text) spot.now.at growth.old.threads.items
        growth.old.entered.items ((root, spot.now.at) ∷ below) set.old)
        (Owed (seen_from spot.now text) spot.now.at growth.new.threads.items
        growth.new.entered.items below set.new) }
    ensures long { length set.new ≡ length set.old }
    ensures more { KeepsMarks set.old set.new }
    ensures grown { Grows spot.now text start growth.old growth.new }
{
    let mut ended = close(spot, root, start, growth);
    'ends: while let Some(number) = ended {
        mark(set, number);
        ended = drain(spot, start, growth);
    }
}

/// Returns the two ways of the choice at this place. Returns None if there is no such choice, or if
/// it was entered at this position before.
#[inline(always)]
fn ways_at(spot: &Spot, place: usize, growth: &Growth) -> Option<(usize, usize)>
    requires place_in { place < size spot.now.course }
    requires capacity { growth.now.entered.capacity ≡ size spot.now.course }
    ensures inside { IfSome result (λ ways. (ways.0 < size spot.now.course)
        × (ways.1 < size spot.now.course)) }
    ensures fresh { IfSome result (λ _. ¬ IsEntered growth.now.entered.items place) }
    ensures choice { IfSome result (λ ways.
        place_at (places_of spot.now.course.program.now.places.items) place
        ≡ choice (ways.0 ∷ ways.1 ∷ [])) }
{
    if growth.entered.contains(place) {
        return None;
    }
    match &spot.course.program.places[place] {
        Place::Choice(first, second) => Some((*first, *second)),
        _ => None,
    }
}

/// Whether nothing is left to find on a way that leads to the pattern of this number alone: it is
/// marked, or the next byte shuts the way.
#[inline(always)]
fn is_idle(spot: &Spot, way: usize, number: usize, set: &PatternSet) -> bool
    ghost text: { Searched }
    requires here { IsHere spot.now text }
    requires place_in { way < size spot.now.course }
    ensures { IsTrue result → Has set.now number
        ⊎ IsShut (seen_from spot.now text) (way, spot.now.at) }
{
    match PatternID::new(number) {
        Some(pattern) => set.contains(pattern) || is_shut(spot, way),
        None => is_shut(spot, way),
    }
}

/// Follows the ways that read nothing from the entries of the patterns below `end` that aren't
/// marked. Returns the place at which all other walks enter.
fn enter_each(spot: &Spot, end: usize, set: &mut PatternSet, growth: &mut Growth) -> usize
    ghost text: { Searched }
    requires here { IsHere spot.now text }
    requires root { 0 < size spot.now.course }
    requires own { HasOwnWays (places_of spot.now.course.program.now.places.items) }
    requires sound { HasRoom (seen_from spot.now text) (size spot.now.course) spot.now.course.hi
        spot.now.at
        growth.old.threads growth.old.entered }
    requires width { growth.old.threads.width ≡ 0 }
    ensures inside { result < size spot.now.course }
    ensures set_out { IsSettingOut (seen_from spot.now text) (size spot.now.course)
        spot.now.course.hi spot.now.at result growth.old.threads growth.old.entered set.old
        growth.new.threads growth.new.entered set.new }
{
    let mut place = 0;
    if is_shut(spot, place) {
        return place;
    }
    'patterns: for number in 0..end {
        let Some((first, next)) = ways_at(spot, place, growth) else {
            return place;
        };
        if !is_idle(spot, first, number, set) {
            spread(spot, first, spot.at, set, growth);
        }
        place = next;
    }
    place
}

/// Sets out at the spot: follows all ways from place 0 that read nothing, and appends a thread for
/// each place that reads. Ways to patterns below `end` that are marked are left out.
fn set_out(spot: &Spot, end: usize, set: &mut PatternSet, growth: &mut Growth)
    ghost text: { Searched }
    requires here { IsHere spot.now text }
    requires root { 0 < size spot.now.course }
    requires own { HasOwnWays (places_of spot.now.course.program.now.places.items) }
    requires sound { HasRoom (seen_from spot.now text) (size spot.now.course) spot.now.course.hi
        spot.now.at
        growth.old.threads growth.old.entered }
    requires width { growth.old.threads.width ≡ 0 }
    ensures same { (below : List Pair) → AreSame (length set.old)
        (Owed (seen_from spot.now text) spot.now.at growth.old.threads.items
        growth.old.entered.items ((0, spot.now.at) ∷ below) set.old)
        (Owed (seen_from spot.now text) spot.now.at growth.new.threads.items
        growth.new.entered.items below set.new) }
    ensures long { length set.new ≡ length set.old }
    ensures more { KeepsMarks set.old set.new }
    ensures grown { Grows spot.now text spot.now.at growth.old growth.new }
{
    let rest = enter_each(spot, end, set, growth);
    spread(spot, rest, spot.at, set, growth);
}

/// Advances the threads of `curr` at the spot. Threads that wait for a later position are appended
/// to `growth` as they are. The pattern of each walk that ends is marked.
fn step(spot: &Spot, curr: &Threads, set: &mut PatternSet, growth: &mut Growth)
    ghost text: { Searched }
    requires here { IsHere spot.now text }
    requires ready { MayStep spot.now text curr.now.items growth.old }
    requires widths { (curr.now.width ≡ 0) × (growth.old.threads.width ≡ 0) }
    ensures same { (below : List Pair) → AreSame (length set.old)
        (Owed (seen_from spot.now text) spot.now.at [] []
        (map going curr.now.items ++ below) set.old)
        (Owed (seen_from spot.now text) spot.now.at growth.new.threads.items
        growth.new.entered.items below set.new) }
    ensures long { length set.new ≡ length set.old }
    ensures more { KeepsMarks set.old set.new }
    ensures stepped { HasStepped spot.now text curr.now.items growth.old growth.new }
{
    'threads: for index in 0..curr.len() {
        let (head, row) = curr.get(index);
        if head.at > spot.at {
            growth.threads.push(head, row);
            continue;
        }
        spread(spot, head.place, head.start, set, growth);
    }
}

/// Advances the threads of `curr` at the spot. Then, if a walk may begin there, and the spot isn't
/// past the last start, new threads set out for the patterns that aren't marked, as far as their
/// numbers are below `end`, and for all others. The pattern of each walk that ends is marked.
fn advance(
    spot: &Spot,
    may_begin: bool,
    end: usize,
    curr: &Threads,
    set: &mut PatternSet,
    growth: &mut Growth,
)
    ghost text: { Searched }
    requires here { IsHere spot.now text }
    requires ready { MayStep spot.now text curr.now.items growth.old }
    requires widths { (curr.now.width ≡ 0) × (growth.old.threads.width ≡ 0) }
    requires begins { MayBegin (seen_from spot.now text) spot.now.at may_begin }
    requires own { HasOwnWays (places_of spot.now.course.program.now.places.items) }
    ensures same { AreSame (length set.old)
        (Owed (seen_from spot.now text) spot.now.at [] []
        (map going curr.now.items ++ entering spot.now.at spot.now.course.last) set.old)
        (Owed (seen_from spot.now text) spot.now.at growth.new.threads.items
        growth.new.entered.items
        (entering (spot.now.at + 1) spot.now.course.last) set.new) }
    ensures long { length set.new ≡ length set.old }
    ensures more { KeepsMarks set.old set.new }
    ensures stepped { HasStepped spot.now text curr.now.items growth.old growth.new }
{
    step(spot, curr, set, growth);
    if !may_begin {
        return;
    }
    if spot.at <= spot.course.last {
        set_out(spot, end, set, growth);
    }
}

/// Handles one position of a pass: advances the threads, and counts the places entered.
/// `may_begin` says whether a walk may begin there. Of the patterns below `end`, none that is
/// marked sets out.
fn turn(spot: &Spot, may_begin: bool, end: usize, set: &mut PatternSet, scratch: &mut Scratch)
    ghost text: { Searched }
    requires here { IsHere spot.now text }
    requires made { scratch.old.next.entered.capacity ≡ size spot.now.course }
    requires lined { IsInLine spot.now.course text 0 spot.now.at scratch.old }
    requires small { scratch.old.insertions + size spot.now.course < 2 ^ 128 }
    requires begins { MayBegin (seen_from spot.now text) spot.now.at may_begin }
    requires own { HasOwnWays (places_of spot.now.course.program.now.places.items) }
    ensures same { AreSame (length set.old)
        (Owed (seen_from spot.now text) spot.now.at [] []
        (map going scratch.old.curr.items ++ entering spot.now.at spot.now.course.last) set.old)
        (Owed (seen_from spot.now text) (spot.now.at + 1) [] []
        (map going scratch.new.curr.items
        ++ entering (spot.now.at + 1) spot.now.course.last) set.new) }
    ensures long { length set.new ≡ length set.old }
    ensures more { KeepsMarks set.old set.new }
    ensures lined { IsInLine spot.now.course text 0 (spot.now.at + 1) scratch.new }
    ensures kept { IsSame scratch.old scratch.new }
    ensures few { scratch.new.insertions ≤ scratch.old.insertions + size spot.now.course }
{
    scratch.next.clear();
    advance(spot, may_begin, end, &scratch.curr, set, &mut scratch.next);
    scratch.finish();
}

/// Looks from `first` up to `last`, excluded, and returns the least number that isn't in the set,
/// or the greater of the two if each is.
fn first_absent(set: &PatternSet, first: usize, last: usize) -> usize
    ensures from { first ≤ result }
    ensures members { HasAll first result set.now }
{
    for number in first..last {
        let Some(pattern) = PatternID::new(number) else {
            return number;
        };
        if !set.contains(pattern) {
            return number;
        }
    }
    first.max(last)
}

/// Returns the range of pattern numbers, end excluded, whose walks count and which the set can
/// hold.
fn wanted(pattern: Option<usize>, patterns: usize, set: &PatternSet) -> (usize, usize)
    ensures { (p : ℕ) → p < patterns → p < length set.now
        → IsTrue (is_match_place pattern (accept p)) → (result.0 ≤ p) × (p < result.1) }
{
    let end = patterns.min(set.capacity());
    match pattern {
        None => (0, end),
        Some(only) => (only, end.min(only.saturating_add(1))),
    }
}

/// Returns the first position from `at` on at which a walk may begin: with a prefilter, the start
/// of the next needle, or one past the bound if none is left. `known` is the one that was returned
/// for an earlier position, or that position.
fn next_start<C: Cursor>(
    input: &mut Input<C>,
    course: Course,
    prefilter: Option<&Prefilter>,
    at: usize,
    known: usize,
) -> usize
    requires inside { (at ≤ course.hi) × (course.hi ≡ high input.old) }
    requires known { known ≤ course.hi + 1 }
    requires guarded { MatchOption prefilter ⊤
        (λ p. Guards (places_of course.program.now.places.items) course.program.now.terminator
        (needles_of p.now)) }
    requires none { HasNoneBefore (seen_by course input.old) at known }
    ensures keeps { Keeps input.old input.new }
    ensures within { (at ≤ result) × (result ≤ course.entry.hi + 1) }
    ensures none { HasNoneBefore (seen_by course.entry input.old) at result }
{
    if known >= at {
        return known;
    }
    match next_position(input, course, prefilter, at, true) {
        Some(start) => start,
        None => course.hi + 1,
    }
}

/// Whether the pass has come to the next start.
fn is_reached(at: usize, start: usize) -> bool
    ensures { result ≡ false → at < start }
{
    at >= start
}

/// Returns the position from which a pass goes on that has come to `at`: the next start, if no
/// thread is under way.
fn skip_to(curr: &Threads, at: usize, start: usize) -> usize
    requires { at ≤ start }
    ensures within { (at ≤ result) × (result ≤ start) }
    ensures idle { (result ≡ at) ⊎ ((length curr.now.items ≡ 0) × (result ≡ start)) }
{
    if curr.len() > 0 {
        return at;
    }
    start
}

/// Runs one pass over the positions from `from` on, and marks each pattern that walks from the
/// starts there spell. It ends early once each pattern from `wanted.0` to `wanted.1`, excluded, is
/// marked. With a prefilter, threads set out where a needle occurs alone, and positions are skipped
/// while none is under way.
fn pass<C: Cursor>(
    input: &mut Input<C>,
    course: Course,
    prefilter: Option<&Prefilter>,
    from: usize,
    wanted: (usize, usize),
    set: &mut PatternSet,
    scratch: &mut Scratch,
)
    ghost text: { Searched }
    requires same { Keeps text input.old }
    requires setting { IsSetting course text }
    requires bounds { (low text ≤ from) × (from ≤ course.last) }
    requires made { IsScratchFor course.program.now scratch.old }
    requires width { scratch.old.next.threads.width ≡ 0 }
    requires guarded { MatchOption prefilter ⊤
        (λ p. Guards (places_of course.program.now.places.items) course.program.now.terminator
        (needles_of p.now)) }
    requires own { HasOwnWays (places_of course.program.now.places.items) }
    ensures keeps { Keeps input.old input.new }
    ensures marks { MarksFrom (seen_by course.entry text) from course.entry.last wanted.0 wanted.1
        set.old set.new }
    ensures kept { IsSame scratch.old scratch.new }
{
    scratch.insertions = 0;
    scratch.curr.clear(0);
    let mut window = open(input, from);
    let mut absent = wanted.0;
    let mut start = from;
    let mut at = from;
    'positions: while at <= course.hi {
        absent = first_absent(set, absent, wanted.1);
        if absent >= wanted.1 {
            return;
        }
        start = next_start(input, course, prefilter, at, start);
        at = skip_to(&scratch.curr, at, start);
        if at > course.hi {
            return;
        }
        reach(&mut window, input, at);
        turn(
            &spot_at(course, &window, at),
            is_reached(at, start),
            wanted.1,
            set,
            scratch,
        );
        if is_done(&scratch.curr, None, at, course.last) {
            return;
        }
        at += 1;
    }
}

/// Marks each pattern that walks of a search spell.
fn choose<C: Cursor>(
    input: &mut Input<C>,
    program: &Program,
    prefilter: Option<&Prefilter>,
    patterns: usize,
    set: &mut PatternSet,
    scratch: &mut Scratch,
)
    requires first { AreOfFirst patterns (places_of program.now.places.items) }
    requires made { IsScratchFor program.now scratch.old }
    requires width { scratch.old.next.threads.width ≡ 0 }
    requires guarded { MatchOption prefilter ⊤
        (λ p. Guards (places_of program.now.places.items) program.now.terminator
        (needles_of p.now)) }
    requires own { HasOwnWays (places_of program.now.places.items) }
    ensures keeps { Keeps input.old input.new }
    ensures adds { AddsSpelled (seen program.now input.old) set.old set.new }
    ensures kept { IsSame scratch.old scratch.new }
{
    scratch.insertions = 0;
    let (lo, hi) = bounds(input);
    if lo > hi {
        return;
    }
    let (pattern, last) = starts_of(input.get_anchored(), lo, hi);
    let course = Course {
        program,
        hi,
        pattern,
        last,
    };
    let (first, end) = wanted(pattern, patterns, set);
    pass(input, course, prefilter, lo, (first, end), set, scratch);
}

/// Inserts each pattern that has a match within the bounds of the search, wherever other matches
/// end, if the set's capacity allows its number. The set keeps what it has. Neither the earliest
/// flag is read, nor are matches passed over that end off a boundary. The program is that of the
/// first `patterns` patterns.
///
/// The cache must be made for programs of as many places, and stays so. Nothing is allocated, and
/// the time is linear in the bytes between the search's bounds. With a prefilter, threads set out
/// at needles alone, and the pass goes from needle to needle while none is under way. It ends once
/// each pattern is found that the set can hold.
pub fn which_patterns<C: Cursor>(
    cache: &mut Cache,
    input: &mut Input<C>,
    program: &Program,
    prefilter: Option<&Prefilter>,
    patterns: usize,
    set: &mut PatternSet,
)
    requires first { AreOfFirst patterns (places_of program.now.places.items) }
    requires made { IsCacheFor (places_of program.now.places.items) 0 cache.old }
    requires guarded { MatchOption prefilter ⊤
        (λ p. Guards (places_of program.now.places.items) program.now.terminator
        (needles_of p.now)) }
    requires own { HasOwnWays (places_of program.now.places.items) }
    ensures keeps { Keeps input.old input.new }
    ensures adds { AddsSpelled (search_of program.now input.old) set.old set.new }
    ensures cache { cache.new ≡ record cache.old { insertions = cache.new.insertions } }
{
    cache.scratch.widen(0);
    choose(input, program, prefilter, patterns, set, &mut cache.scratch);
}
