//! Reach: a leftmost-first search that also tells how many bytes of the content settle its answer.
//!
//! A pass that has come to a position has seen at most four bytes after it. So if no thread is left
//! there, the bytes up to four further settle what the pass found. If threads are left at the upper
//! bound, so do the bytes up to four after that.
ghost use Rattle.std.specs.Prelude.{◌≡◌, ℕ, ◌+◌, ◌-◌, ◌<◌, ◌≤◌, ◌⊎◌, ◌^◌, ⊤, length, Option, None, Some, MatchOption, MatchBool, is_none, min, true, false};
ghost use Rattle.rc_text.specs.Bounds.{IsWithinBounds};
ghost use Rattle.rc_text.specs.Text.{Searched, Keeps, low, high, slice_end};
ghost use Rattle.rc_text.specs.declared.types.MatchKind.TheVariants.{LeftmostFirst};
ghost use Rattle.rc_program.specs.Answer.{chosen};
ghost use Rattle.rc_program.specs.Kinds.{answer_by};
ghost use Rattle.rc_program.specs.Programs.{search_of};
ghost use Rattle.rc_reach.specs.Reads.{ReadsBelow};
ghost use Rattle.rc_reach.specs.Settled.{IsSettled};
ghost use Rattle.rc_program.specs.Places.{places_of};
ghost use Rattle.rc_pikevm.specs.Caches.{IsCacheFor};
ghost use Rattle.rc_pikevm.specs.Found.{IsPickedBy, last_filled};
ghost use Rattle.rc_pikevm.specs.Moves.{IsSetting, seen_by};
ghost use Rattle.rc_pikevm.specs.Near.{size};
ghost use Rattle.rc_pikevm.specs.Passing.{GivesTraceTo, best_of};
ghost use Rattle.rc_pikevm.specs.Reach.{IsStillOn};
ghost use Rattle.rc_pikevm.specs.Scratches.{IsSame, IsScratchFor};
ghost use Rattle.rc_pikevm.specs.Sights.{IsUpTo};

use crate::cache::Cache;
use crate::kinds::find_by_kind;
use crate::pass::{Ending, turn};
use crate::scratch::Scratch;
use crate::search::{bounds, starts_of};
use crate::spot::Course;
use crate::threads::Threads;
use crate::window::{open, reach, spot_at};
use rc_program::program::Program;
use rc_text::cursor::Cursor;
use rc_text::input::{Input, content_fits, move_to, position};
use rc_text::types::{Match, MatchKind, PatternID, Span};

/// How many bytes after its position a thread looks at, at most.
const LOOKS_AHEAD: usize = 4;

/// A match, if there is one, and how many bytes of the content settle it.
#[derive(Clone, Copy)]
pub struct Reached {
    /// The match.
    pub found: Option<Match>,
    /// A count of bytes from the start of the content.
    pub reach: usize,
}

/// Whether a pass goes on after the position `at`: a thread is left, or another will set out.
fn goes_on(curr: &Threads, best: Option<Ending>, at: usize, last: usize) -> bool
    ensures { MatchBool result
        ((0 < length curr.now.items) ⊎ ((is_none best ≡ true) × (at + 1 ≤ last)))
        ((length curr.now.items ≡ 0) × ((is_none best ≡ false) ⊎ (last ≤ at))) }
{
    if curr.len() > 0 {
        return true;
    }
    best.is_none() && at < last
}

/// Runs one pass for the first walk over the positions from `from` on. Returns the walk of the
/// least start, with its slots in `found`, and the last position, in bytes, at which a thread was
/// under way or a start was tried. All threads go on together, also if there is only one.
fn pass_far<C: Cursor>(
    input: &mut Input<C>,
    course: Course,
    from: usize,
    scratch: &mut Scratch,
) -> (Option<Ending>, usize)
    ghost text: { Searched }
    requires same { Keeps text input.old }
    requires setting { IsSetting course text }
    requires bounds { (low text ≤ from) × (from ≤ course.last) }
    requires made { IsScratchFor course.program.now scratch.old }
    ensures keeps { Keeps input.old input.new }
    ensures gives { (limit : Option ℕ) → IsUpTo result.1 limit
        → GivesTraceTo limit (seen_by course.entry text) scratch.old.next.threads.width from
        course.entry.last (best_of result.0 scratch.new.found.items) }
    ensures ended { MatchOption result.0 ⊤ (λ r. r.end ≤ result.1) }
    ensures whole { is_none result.0 ≡ true → course.entry.last ≤ result.1 }
    ensures sharp { (result.1 ≡ 0) ⊎ IsStillOn (result.1 - 1) (seen_by course.entry text) from
        course.entry.last result.1 }
    ensures within { (from ≤ result.1) × (result.1 ≤ course.entry.hi) }
    ensures same { IsSame scratch.old scratch.new }
{
    let mut best: Option<Ending> = None;
    scratch.insertions = 0;
    scratch.curr.clear(scratch.next.slots.len());
    let mut window = open(input, from);
    let mut at = from;
    'positions: while at <= course.hi {
        reach(&mut window, input, at);
        best = turn(&spot_at(course, &window, at), 0, best, scratch);
        if !goes_on(&scratch.curr, best, at, course.last) {
            return (best, at);
        }
        at += 1;
    }
    (best, course.hi)
}

/// Returns this count of bytes, but at most one more than where the slice ends.
fn up_to_slice_end<C: Cursor>(input: &mut Input<C>, count: usize) -> usize
    ensures keeps { Keeps input.old input.new }
    ensures value { result ≡ min count (slice_end input.old + 1) }
    ensures fits { slice_end input.old + 1 < 2 ^ 64 }
{
    content_fits(input);
    let end = input.get_slice_span().end;
    let len = match input.content_len() {
        Some(len) => len,
        None => {
            move_to(input, end.min(count));
            position(input)
        }
    };
    count.min(end.min(len) + 1)
}

/// Returns the first walk of the least start that has one, with its slots in `found`, or None if no
/// start has one, and how many bytes of the content settle it. No match may be passed over.
fn choose_far<C: Cursor>(
    input: &mut Input<C>,
    program: &Program,
    scratch: &mut Scratch,
) -> (Option<Ending>, usize)
    requires none_passed { program.now.passes_over ≡ false }
    requires made { IsScratchFor program.now scratch.old }
    ensures keeps { Keeps input.old input.new }
    ensures chosen { IsPickedBy last_filled (search_of program.now input.old)
        (chosen (search_of program.now input.old)) result.0 scratch.new.found.items }
    ensures settled { IsSettled LeftmostFirst result.1 (search_of program.now input.old) }
    ensures sharp { low input.old ≤ high input.old
        → (r : ℕ) → ReadsBelow (search_of program.now input.old) r
        (chosen (search_of program.now input.old)) → result.1 ≤ r + 4 }
    ensures within { result.1 ≤ slice_end input.old + 1 }
    ensures same { IsSame scratch.old scratch.new }
{
    let (lo, hi) = bounds(input);
    if lo > hi {
        return (None, up_to_slice_end(input, usize::MAX));
    }
    let (pattern, last) = starts_of(input.get_anchored(), lo, hi);
    let course = Course {
        program,
        hi,
        pattern,
        last,
    };
    let (best, at) = pass_far(input, course, lo, scratch);
    let reach = up_to_slice_end(input, at.saturating_add(LOOKS_AHEAD));
    (best, reach)
}

/// Returns the leftmost-first match, and how many bytes of the content settle it. No match may be
/// passed over.
fn find_far<C: Cursor>(cache: &mut Cache, input: &mut Input<C>, program: &Program) -> Reached
    requires none_passed { program.now.passes_over ≡ false }
    requires made { IsCacheFor (places_of program.now.places.items) 0 cache.old }
    ensures keeps { Keeps input.old input.new }
    ensures found { result.found ≡ answer_by LeftmostFirst (search_of program.now input.old) }
    ensures bounds { MatchOption result.found ⊤ (IsWithinBounds input.old) }
    ensures settled { IsSettled LeftmostFirst result.reach (search_of program.now input.old) }
    ensures sharp { low input.old ≤ high input.old
        → (r : ℕ) → ReadsBelow (search_of program.now input.old) r
        (chosen (search_of program.now input.old)) → result.reach ≤ r + 4 }
    ensures within { result.reach ≤ slice_end input.old + 1 }
    ensures cache { cache.new ≡ record cache.old { insertions = cache.new.insertions } }
{
    cache.scratch.widen(0);
    let (end, reach) = choose_far(input, program, &mut cache.scratch);
    let Some(end) = end else {
        return Reached { found: None, reach };
    };
    let Some(pattern) = PatternID::new(end.pattern) else {
        return Reached { found: None, reach };
    };
    let span = Span {
        start: end.start,
        end: end.end,
    };
    let found = Some(Match::new(pattern, span));
    Reached { found, reach }
}

/// Returns the match of the given kind. All that the slice has, and its end, settle it.
fn find_whole<C: Cursor>(
    cache: &mut Cache,
    input: &mut Input<C>,
    program: &Program,
    kind: MatchKind,
) -> Reached
    requires made { IsCacheFor (places_of program.now.places.items) 0 cache.old }
    ensures keeps { Keeps input.old input.new }
    ensures found { result.found ≡ answer_by kind (search_of program.now input.old) }
    ensures bounds { MatchOption result.found ⊤ (IsWithinBounds input.old) }
    ensures settled { IsSettled kind result.reach (search_of program.now input.old) }
    ensures within { result.reach ≤ slice_end input.old + 1 }
    ensures cache { cache.new ≡ record cache.old { insertions = cache.new.insertions } }
{
    let found = find_by_kind(cache, input, program, None, kind);
    let reach = up_to_slice_end(input, usize::MAX);
    Reached { found, reach }
}

/// Returns the match of the given kind, and how many bytes of the content settle it: at most one
/// more than where the slice ends. It is that many, if the match isn't the leftmost-first one, or
/// if matches may be passed over. Otherwise it is at most four more than what the walks read. The
/// earliest flag is not read, and no prefilter is used.
///
/// The cache must be made for programs of as many places, and stays so. Nothing is allocated.
pub fn find_reach<C: Cursor>(
    cache: &mut Cache,
    input: &mut Input<C>,
    program: &Program,
    kind: MatchKind,
) -> Reached
    requires made { IsCacheFor (places_of program.now.places.items) 0 cache.old }
    ensures keeps { Keeps input.old input.new }
    ensures found { result.found ≡ answer_by kind (search_of program.now input.old) }
    ensures bounds { MatchOption result.found ⊤ (IsWithinBounds input.old) }
    ensures settled { IsSettled kind result.reach (search_of program.now input.old) }
    ensures sharp { kind ≡ LeftmostFirst → program.now.passes_over ≡ false
        → low input.old ≤ high input.old → (r : ℕ) → ReadsBelow (search_of program.now input.old) r
        (chosen (search_of program.now input.old)) → result.reach ≤ r + 4 }
    ensures within { result.reach ≤ slice_end input.old + 1 }
    ensures cache { cache.new ≡ record cache.old { insertions = cache.new.insertions } }
{
    match kind {
        MatchKind::LeftmostFirst => {
            if program.passes_over {
                return find_whole(cache, input, program, kind);
            }
            find_far(cache, input, program)
        }
        MatchKind::LeftmostLongest => find_whole(cache, input, program, kind),
        MatchKind::All => find_whole(cache, input, program, kind),
    }
}
