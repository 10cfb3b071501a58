//! Match kinds: Pike VM searches for the leftmost-first, the leftmost-longest or the greatest
//! match.
ghost use Rattle.std.specs.Prelude.{◌≡◌, is_some, ◌+◌, ◌-◌, ◌*◌, ◌<◌, ◌≤◌, ⊤, length, Option, None, Some, MatchOption, Bool};
ghost use Rattle.std.specs.Option.{option_map};
ghost use Rattle.rc_text.specs.Found.{Found};
ghost use Rattle.rc_text.specs.Bounds.{IsWithinBounds};
ghost use Rattle.rc_text.specs.Text.{Keeps, low, high};
ghost use Rattle.rc_program.specs.Greatest.{greatest};
ghost use Rattle.rc_program.specs.Kinds.{answer_by};
ghost use Rattle.rc_program.specs.Programs.{search_of};
ghost use Rattle.rc_program.specs.Columns.{row_width};
ghost use Rattle.rc_program.specs.Places.{places_of};
ghost use Rattle.rc_needles.specs.Guards.{Guards};
ghost use Rattle.rc_needles.specs.Prefilters.{needles_of};
ghost use Rattle.rc_pikevm.specs.Caches.{IsCacheFor};
ghost use Rattle.rc_pikevm.specs.KindSlots.{span_slots, slots_by};

use crate::cache::Cache;
use crate::greatest::find_greatest;
use crate::rule::Rule;
use crate::search::{find, meets_any, search_slots};
use rc_needles::prefilter::Prefilter;
use rc_program::program::Program;
use rc_text::cursor::Cursor;
use rc_text::input::Input;
use rc_text::types::{Match, MatchKind, PatternID};

/// Returns the match of the given kind. The earliest flag is not read. The program says whether
/// matches that end off a boundary are passed over. A search for the greatest match passes none
/// over, and doesn't use the prefilter.
///
/// The cache must be made for programs of as many places, and stays so. Nothing is allocated.
pub fn find_by_kind<C: Cursor>(
    cache: &mut Cache,
    input: &mut Input<C>,
    program: &Program,
    prefilter: Option<&Prefilter>,
    kind: MatchKind,
) -> Option<Match>
    requires guarded { MatchOption prefilter ⊤
        (λ p. Guards (places_of program.now.places.items) program.now.terminator
        (needles_of p.now)) }
    requires made { IsCacheFor (places_of program.now.places.items) 0 cache.old }
    ensures keeps { Keeps input.old input.new }
    ensures found { result ≡ answer_by kind (search_of program.now input.old) }
    ensures bounds { MatchOption result ⊤ (IsWithinBounds input.old) }
    ensures cache { cache.new ≡ record cache.old { insertions = cache.new.insertions } }
    ensures none { high input.old < low input.old → cache.new.insertions ≡ 0 }
    ensures few { cache.new.insertions ≤ length program.now.places.items
        * (high input.old - low input.old + 2) }
    ensures counted { MatchOption result ⊤ (λ m. m.end - m.start + 1 ≤ cache.new.insertions) }
{
    match kind {
        MatchKind::All => find_greatest(cache, input, program),
        MatchKind::LeftmostFirst => find(cache, input, program, Rule::First(0), prefilter),
        MatchKind::LeftmostLongest => find(cache, input, program, Rule::Longest, prefilter),
    }
}

/// Whether a search finds a match of the given kind. The earliest flag is not read. Unless matches
/// are passed over, the pass ends at the first position at which a match does. The program says
/// whether matches that end off a boundary are passed over; with `MatchKind::All` none is.
///
/// The cache must be made for programs of as many places, and stays so. Nothing is allocated.
pub fn is_match_by_kind<C: Cursor>(
    cache: &mut Cache,
    input: &mut Input<C>,
    program: &Program,
    prefilter: Option<&Prefilter>,
    kind: MatchKind,
) -> bool
    requires guarded { MatchOption prefilter ⊤
        (λ p. Guards (places_of program.now.places.items) program.now.terminator
        (needles_of p.now)) }
    requires made { IsCacheFor (places_of program.now.places.items) 0 cache.old }
    ensures keeps { Keeps input.old input.new }
    ensures found { result ≡ is_some (answer_by kind (search_of program.now input.old)) }
    ensures cache { cache.new ≡ record cache.old { insertions = cache.new.insertions } }
{
    match kind {
        MatchKind::All => meets_any(cache, input, program, prefilter),
        MatchKind::LeftmostFirst => {
            if program.passes_over {
                let found = find(cache, input, program, Rule::First(0), prefilter);
                return found.is_some();
            }
            meets_any(cache, input, program, prefilter)
        }
        MatchKind::LeftmostLongest => {
            if program.passes_over {
                let found = find(cache, input, program, Rule::Longest, prefilter);
                return found.is_some();
            }
            meets_any(cache, input, program, prefilter)
        }
    }
}

/// Writes the whole match to its two slots, as far as these exist, and None to all others.
fn put_span(found: Match, slots: &mut [Option<usize>])
    ensures { slots.new ≡ span_slots (length slots.old) found }
{
    slots.fill(None);
    let first = 2 * found.pattern().as_usize();
    if first < slots.len() {
        slots[first] = Some(found.start());
    }
    if first + 1 < slots.len() {
        slots[first + 1] = Some(found.end());
    }
}

/// Returns the greatest match of a search, and writes its slots: the two of the whole match, as far
/// as `slots` has them, and None to all others. Without a match the slots stay as they are.
fn search_span<C: Cursor>(
    cache: &mut Cache,
    input: &mut Input<C>,
    program: &Program,
    slots: &mut [Option<usize>],
) -> Option<Match>
    requires made { IsCacheFor (places_of program.now.places.items) 0 cache.old }
    ensures keeps { Keeps input.old input.new }
    ensures found { result ≡ greatest (search_of program.now input.old) }
    ensures slots { MatchOption result (slots.new ≡ slots.old)
        (λ m. slots.new ≡ span_slots (length slots.old) m) }
    ensures cache { cache.new ≡ record cache.old { insertions = cache.new.insertions } }
    ensures none { high input.old < low input.old → cache.new.insertions ≡ 0 }
    ensures few { cache.new.insertions ≤ length program.now.places.items
        * (high input.old - low input.old + 2) }
    ensures counted { MatchOption result ⊤ (λ m. m.end - m.start + 1 ≤ cache.new.insertions) }
{
    let found = find_greatest(cache, input, program)?;
    put_span(found, slots);
    Some(found)
}

/// Returns the pattern of the match of the given kind, and writes the first of its slots, as many
/// as `slots` has. Without a match the slots stay as they are. The earliest flag is not read. The
/// program says whether matches that end off a boundary are passed over. A search for the greatest
/// match passes none over. Of its slots only the two of the whole match are set; all others are
/// None.
///
/// The cache must be made for programs of as many places, and for rows as wide as these slots need,
/// or wider. It stays so. Nothing is allocated.
pub fn search_slots_by_kind<C: Cursor>(
    cache: &mut Cache,
    input: &mut Input<C>,
    program: &Program,
    prefilter: Option<&Prefilter>,
    kind: MatchKind,
    slots: &mut [Option<usize>],
) -> Option<PatternID>
    requires guarded { MatchOption prefilter ⊤
        (λ p. Guards (places_of program.now.places.items) program.now.terminator
        (needles_of p.now)) }
    requires made { IsCacheFor (places_of program.now.places.items)
        (row_width (places_of program.now.places.items) (length slots.old)) cache.old }
    ensures keeps { Keeps input.old input.new }
    ensures pattern { result ≡ option_map (λ (m : Found). m.pattern)
        (answer_by kind (search_of program.now input.old)) }
    ensures long { length slots.new ≡ length slots.old }
    ensures slots { MatchOption result
        (slots.new ≡ slots.old)
        (λ _. Some slots.new ≡ slots_by kind (search_of program.now input.old) (length slots.old)) }
    ensures cache { cache.new ≡ record cache.old { insertions = cache.new.insertions } }
    ensures none { high input.old < low input.old → cache.new.insertions ≡ 0 }
    ensures few { cache.new.insertions ≤ length program.now.places.items
        * (high input.old - low input.old + 2) }
    ensures counted { (m : Found) → answer_by kind (search_of program.now input.old) ≡ Some m
        → m.end - m.start + 1 ≤ cache.new.insertions }
{
    match kind {
        MatchKind::All => {
            let found = search_span(cache, input, program, slots)?;
            Some(found.pattern())
        }
        MatchKind::LeftmostFirst => {
            search_slots(cache, input, program, Rule::First(0), prefilter, slots)
        }
        MatchKind::LeftmostLongest => {
            search_slots(cache, input, program, Rule::Longest, prefilter, slots)
        }
    }
}
