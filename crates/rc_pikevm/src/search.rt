//! Leftmost search: from an input's bounds to a match and its slots, by passes of the Pike VM. If a
//! match is passed over, another pass begins after its start.
ghost use Rattle.std.specs.Prelude.{if◌then◌else◌, ◌≡◌, is_some, ℕ, ◌+◌, ◌-◌, ◌*◌, ◌<◌, ◌≤◌, ◌^◌, length, Option, None, Some, MatchOption, slice_set, slice_index_or, min, IfNone, ⊤};
ghost use Rattle.std.specs.Option.{option_map};
ghost use Rattle.rc_text.specs.Found.{Found};
ghost use Rattle.rc_text.specs.Bounds.{IsWithinBounds};
ghost use Rattle.rc_text.specs.Text.{Keeps, low, high};
ghost use Rattle.rc_text.specs.Limits.{greatest_pattern};
ghost use Rattle.rc_program.specs.Answer.{only, is_anchored, last_visit};
ghost use Rattle.rc_program.specs.Greatest.{greatest};
ghost use Rattle.rc_program.specs.Kinds.{answer_by};
ghost use Rattle.rc_program.specs.Sought.{anchoring_of};
ghost use Rattle.rc_program.specs.Programs.{search_of};
ghost use Rattle.rc_program.specs.Columns.{IsAmong, range_of, row_width};
ghost use Rattle.rc_needles.specs.Guards.{Guards};
ghost use Rattle.rc_needles.specs.Prefilters.{needles_of};
ghost use Rattle.rc_program.specs.Places.{places_of};
ghost use Rattle.rc_pikevm.specs.Passing.{IsCounted};
ghost use Rattle.rc_pikevm.specs.Found.{IsPickedBy, last_filled};
ghost use Rattle.rc_pikevm.specs.Roots.{StandsIn};
ghost use Rattle.rc_pikevm.specs.Rules.{MayEnter, kind_of, picked_by};
ghost use Rattle.rc_pikevm.specs.KindSlots.{slots_by};
ghost use Rattle.rc_pikevm.specs.Caches.{IsCacheFor};
ghost use Rattle.rc_pikevm.specs.Scratches.{IsSame, IsScratchFor};

use crate::cache::Cache;
use crate::pass::{Ending, pass};
use crate::rule::Rule;
use crate::scratch::Scratch;
use crate::spot::Course;
use rc_needles::prefilter::Prefilter;
use rc_program::program::Program;
use rc_text::cursor::Cursor;
use rc_text::input::{Input, high, is_boundary_at, low, move_to};
use rc_text::types::{Anchored, Match, PatternID, Span};

/// Returns the bounds of a search in bytes, and moves the cursor to where the search begins.
pub(crate) fn bounds<C: Cursor>(input: &mut Input<C>) -> (usize, usize)
    ensures keeps { Keeps input.old input.new }
    ensures low { result.0 ≡ low input.old }
    ensures high { result.1 ≡ high input.old }
    ensures small { result.1 + 1 < 2 ^ 64 }
{
    let lo = low(input);
    let hi = high(input);
    move_to(input, lo);
    (lo, hi)
}

/// Returns the only pattern whose walks count, if there is one, and the last start, in bytes. The
/// search goes from `lo` to `hi`.
pub(crate) fn starts_of(anchored: Anchored, lo: usize, hi: usize) -> (Option<usize>, usize)
    ensures pattern { result.0 ≡ only (anchoring_of anchored) }
    ensures last { result.1 ≡ (if is_anchored (anchoring_of anchored) then lo else hi) }
{
    match anchored {
        Anchored::No => (None, hi),
        Anchored::Yes => (None, lo),
        Anchored::Pattern(id) => (Some(id.as_usize()), lo),
    }
}

/// Writes the whole match to its two slots, as far as these exist.
pub(crate) fn put_match(end: Ending, slots: &mut [Option<usize>])
    requires { end.pattern ≤ greatest_pattern }
    ensures { slots.new ≡ slice_set (slice_set slots.old (2 * end.pattern) (Some end.start))
        (2 * end.pattern + 1) (Some end.end) }
{
    let first = 2 * end.pattern;
    if first < slots.len() {
        slots[first] = Some(end.start);
    }
    if first + 1 < slots.len() {
        slots[first + 1] = Some(end.end);
    }
}

/// Returns the number after `last`, or `len` if that is less.
fn past_last(last: usize, len: usize) -> usize
    ensures { result ≡ min (last + 1) len }
{
    if last < len {
        return last + 1;
    }
    len
}

/// Writes the slots of a pattern's groups from its row, as far as `slots` has them, and None to all
/// others.
pub(crate) fn put_groups(
    program: &Program,
    pattern: usize,
    row: &[Option<usize>],
    slots: &mut [Option<usize>],
)
    requires { length row.now ≡ row_width (places_of program.now.places.items) (length slots.old) }
    ensures long { length slots.new ≡ length slots.old }
    ensures own { (k : ℕ) → k < length slots.new
        → IsAmong (range_of (places_of program.now.places.items) pattern) k
        → slice_index_or slots.new k None
        ≡ slice_index_or row.now (k - (range_of
        (places_of program.now.places.items) pattern).first) None }
    ensures others { (k : ℕ) → ¬ IsAmong (range_of (places_of program.now.places.items) pattern) k
        → slice_index_or slots.new k None ≡ None }
{
    slots.fill(None);
    let range = program.slots_of(pattern);
    let end = past_last(range.last, slots.len());
    for slot in range.first..end {
        slots[slot] = row[slot - range.first];
    }
}

/// Returns the walk that a search chooses, with its row of slots in `found`, or None if there is
/// none. As long as that match is passed over, another pass begins at the start after it.
fn choose<C: Cursor>(
    input: &mut Input<C>,
    program: &Program,
    rule: Rule,
    prefilter: Option<&Prefilter>,
    scratch: &mut Scratch,
) -> Option<Ending>
    requires guarded { MatchOption prefilter ⊤
        (λ p. Guards (places_of program.now.places.items) program.now.terminator
        (needles_of p.now)) }
    requires made { IsScratchFor program.now scratch.old }
    requires enters { MayEnter (length program.now.places.items)
        (StandsIn (search_of program.now input.old)) rule }
    ensures keeps { Keeps input.old input.new }
    ensures chosen { IsPickedBy last_filled (search_of program.now input.old)
        (picked_by rule (search_of program.now input.old)) result scratch.new.found.items }
    ensures counted { IsCounted scratch.new.insertions result }
    ensures few { scratch.new.insertions ≤ length program.now.places.items
        * (high input.old - low input.old + 2) }
    ensures none { high input.old < low input.old → scratch.new.insertions ≡ 0 }
    ensures same { IsSame scratch.old scratch.new }
{
    scratch.insertions = 0;
    let (lo, hi) = bounds(input);
    if lo > hi {
        return None;
    }
    let (pattern, last) = starts_of(input.get_anchored(), lo, hi);
    let course = Course {
        program,
        hi,
        pattern,
        last,
    };
    let mut from = lo;
    'starts: while from <= last {
        let Some(end) = pass(input, course, rule, prefilter, from, false, scratch) else {
            return None;
        };
        if !program.passes_over {
            return Some(end);
        }
        if is_boundary_at(input, end.end) {
            return Some(end);
        }
        from = end.start + 1;
    }
    None
}

/// Returns the walk that a search chooses, and writes its slots. Without a match the slots stay as
/// they are.
fn choose_in<C: Cursor>(
    cache: &mut Cache,
    input: &mut Input<C>,
    program: &Program,
    rule: Rule,
    prefilter: Option<&Prefilter>,
    slots: &mut [Option<usize>],
) -> Option<Ending>
    requires guarded { MatchOption prefilter ⊤
        (λ p. Guards (places_of program.now.places.items) program.now.terminator
        (needles_of p.now)) }
    requires made { IsCacheFor (places_of program.now.places.items)
        (row_width (places_of program.now.places.items) (length slots.old)) cache.old }
    requires enters { MayEnter (length program.now.places.items)
        (StandsIn (search_of program.now input.old)) rule }
    ensures keeps { Keeps input.old input.new }
    ensures chosen { IsPickedBy last_visit (search_of program.now input.old)
        (picked_by rule (search_of program.now input.old)) result slots.new }
    ensures stays { IfNone result (slots.new ≡ slots.old) }
    ensures cache { cache.new ≡ record cache.old { insertions = cache.new.insertions } }
    ensures counted { IsCounted cache.new.insertions result }
    ensures few { cache.new.insertions ≤ length program.now.places.items
        * (high input.old - low input.old + 2) }
    ensures none { high input.old < low input.old → cache.new.insertions ≡ 0 }
{
    cache.scratch.widen(program.width(slots.len()));
    if let Some(end) = choose(input, program, rule, prefilter, &mut cache.scratch) {
        put_groups(program, end.pattern, &cache.scratch.found, slots);
        return Some(end);
    }
    None
}

/// Returns the pattern of the match that the rule chooses, and writes the first of its slots, as
/// many as `slots` has. Without a match the slots stay as they are. The earliest flag is not read.
/// The program says whether matches that end off a boundary are passed over. With a prefilter, the
/// search goes from needle to needle while no thread is under way.
///
/// The cache must be made for programs of as many places, and for rows as wide as these slots need,
/// or wider. It stays so. Nothing is allocated.
pub fn search_slots<C: Cursor>(
    cache: &mut Cache,
    input: &mut Input<C>,
    program: &Program,
    rule: Rule,
    prefilter: Option<&Prefilter>,
    slots: &mut [Option<usize>],
) -> Option<PatternID>
    requires guarded { MatchOption prefilter ⊤
        (λ p. Guards (places_of program.now.places.items) program.now.terminator
        (needles_of p.now)) }
    requires made { IsCacheFor (places_of program.now.places.items)
        (row_width (places_of program.now.places.items) (length slots.old)) cache.old }
    requires enters { MayEnter (length program.now.places.items)
        (StandsIn (search_of program.now input.old)) rule }
    ensures keeps { Keeps input.old input.new }
    ensures pattern { result ≡ option_map (λ (m : Found). m.pattern)
        (answer_by (kind_of rule) (search_of program.now input.old)) }
    ensures long { length slots.new ≡ length slots.old }
    ensures slots { MatchOption result
        (slots.new ≡ slots.old)
        (λ _. Some slots.new
        ≡ slots_by (kind_of rule) (search_of program.now input.old) (length slots.old)) }
    ensures cache { cache.new ≡ record cache.old { insertions = cache.new.insertions } }
    ensures none { high input.old < low input.old → cache.new.insertions ≡ 0 }
    ensures few { cache.new.insertions ≤ length program.now.places.items
        * (high input.old - low input.old + 2) }
    ensures counted { (m : Found)
        → answer_by (kind_of rule) (search_of program.now input.old) ≡ Some m
        → m.end - m.start + 1 ≤ cache.new.insertions }
{
    let Some(end) = choose_in(cache, input, program, rule, prefilter, slots) else {
        return None;
    };
    put_match(end, slots);
    let Some(pattern) = PatternID::new(end.pattern) else {
        return None;
    };
    Some(pattern)
}

/// Returns the match that the rule chooses. The earliest flag is not read. The program says whether
/// matches that end off a boundary are passed over. With a prefilter, the search goes from needle
/// to needle while no thread is under way.
///
/// The cache must be made for programs of as many places, and stays so. Nothing is allocated.
pub fn find<C: Cursor>(
    cache: &mut Cache,
    input: &mut Input<C>,
    program: &Program,
    rule: Rule,
    prefilter: Option<&Prefilter>,
) -> Option<Match>
    requires guarded { MatchOption prefilter ⊤
        (λ p. Guards (places_of program.now.places.items) program.now.terminator
        (needles_of p.now)) }
    requires made { IsCacheFor (places_of program.now.places.items) 0 cache.old }
    requires enters { MayEnter (length program.now.places.items)
        (StandsIn (search_of program.now input.old)) rule }
    ensures keeps { Keeps input.old input.new }
    ensures found { result ≡ answer_by (kind_of rule) (search_of program.now input.old) }
    ensures bounds { MatchOption result ⊤ (IsWithinBounds input.old) }
    ensures cache { cache.new ≡ record cache.old { insertions = cache.new.insertions } }
    ensures none { high input.old < low input.old → cache.new.insertions ≡ 0 }
    ensures few { cache.new.insertions ≤ length program.now.places.items
        * (high input.old - low input.old + 2) }
    ensures counted { MatchOption result ⊤ (λ m. m.end - m.start + 1 ≤ cache.new.insertions) }
{
    let Some(end) = choose_in(cache, input, program, rule, prefilter, &mut []) else {
        return None;
    };
    let Some(pattern) = PatternID::new(end.pattern) else {
        return None;
    };
    let span = Span {
        start: end.start,
        end: end.end,
    };
    Some(Match::new(pattern, span))
}

/// Returns the first walk that is seen to end, whatever its start, or None if none does. The pass
/// ends where that walk does.
pub(crate) fn meets<C: Cursor>(
    input: &mut Input<C>,
    program: &Program,
    prefilter: Option<&Prefilter>,
    scratch: &mut Scratch,
) -> Option<Ending>
    requires guarded { MatchOption prefilter ⊤
        (λ p. Guards (places_of program.now.places.items) program.now.terminator
        (needles_of p.now)) }
    requires made { IsScratchFor program.now scratch.old }
    ensures keeps { Keeps input.old input.new }
    ensures found { is_some result ≡ is_some (greatest (search_of program.now input.old)) }
    ensures bounded { MatchOption result ⊤ (λ _. low input.old ≤ high input.old) }
    ensures same { IsSame scratch.old scratch.new }
{
    scratch.insertions = 0;
    let (lo, hi) = bounds(input);
    if lo > hi {
        return None;
    }
    let (pattern, last) = starts_of(input.get_anchored(), lo, hi);
    let course = Course {
        program,
        hi,
        pattern,
        last,
    };
    pass(input, course, Rule::First(0), prefilter, lo, true, scratch)
}

/// Whether any walk begins at one of the search's starts, wherever it ends. The pass ends at the
/// first position at which a walk does. The earliest flag is not read. With a prefilter, the search
/// goes from needle to needle while no thread is under way.
///
/// The cache must be made for programs of as many places, and stays so. Nothing is allocated.
pub fn meets_any<C: Cursor>(
    cache: &mut Cache,
    input: &mut Input<C>,
    program: &Program,
    prefilter: Option<&Prefilter>,
) -> bool
    requires guarded { MatchOption prefilter ⊤
        (λ p. Guards (places_of program.now.places.items) program.now.terminator
        (needles_of p.now)) }
    requires made { IsCacheFor (places_of program.now.places.items) 0 cache.old }
    ensures keeps { Keeps input.old input.new }
    ensures found { result ≡ is_some (greatest (search_of program.now input.old)) }
    ensures cache { cache.new ≡ record cache.old { insertions = cache.new.insertions } }
{
    cache.scratch.widen(0);
    let met = meets(input, program, prefilter, &mut cache.scratch);
    met.is_some()
}
