//! Exact literals: searches of patterns that are lists of needles, which the needles alone decide.
ghost use Rattle.std.specs.Prelude.{◌≡◌, ◌<◌, ◌≤◌, IfSome, None, Some, length, option_map};
ghost use Rattle.rc_text.specs.Text.{Keeps, high, low};
ghost use Rattle.rc_needles.specs.Needles.{needle_at, prefix_needle, stands_within};
ghost use Rattle.rc_literals.specs.Answers.{found_for, literal_answer, needles_for, owned_of};

use crate::owned::OwnedNeedles;
use rc_needles::hit::Hit;
use rc_needles::literal::{find, prefix, stands_by_pieces};
use rc_text::cursor::Cursor;
use rc_text::input::{Input, byte_at, high, low};
use rc_text::types::{Anchored, Match, PatternID, Span};

/// Returns the match of patterns that are exactly these needles: the first needle at the least
/// start at which one occurs, with its owner. If only one pattern is searched for, the needles of
/// the others don't count.
///
/// It reads the uncut bytes, wherever the input was before. It allocates and copies nothing.
pub fn search<C: Cursor>(input: &mut Input<C>, needles: &OwnedNeedles) -> Option<Match>
    ensures keeps { Keeps input.old input.new }
    ensures value { result ≡ literal_answer (owned_of needles.now) input.old }
    ensures within { IfSome result (λ found. (low input.old ≤ found.start)
        × (found.start ≤ found.end)
        × (found.end ≤ high input.old)) }
{
    match input.get_anchored() {
        Anchored::No => owned_match(needles, find(input, &needles.prefilter)),
        Anchored::Yes => owned_match(needles, prefix(input, &needles.prefilter)),
        Anchored::Pattern(pattern) => search_pattern(input, needles, pattern),
    }
}

/// Returns the match that a needle is, of its owner.
#[inline(always)]
fn owned_match(needles: &OwnedNeedles, hit: Option<Hit>) -> Option<Match>
    requires there { IfSome hit (λ h. h.number < length (owned_of needles.now).owners) }
    requires ordered { IfSome hit (λ h. h.start ≤ h.end) }
    ensures { result ≡ option_map (found_for None (owned_of needles.now)) hit }
{
    let hit = hit?;
    let owner = needles.owners[hit.number];
    Some(match_of(owner, hit))
}

/// Returns the match that a needle of this pattern is.
#[inline(always)]
fn match_of(pattern: PatternID, hit: Hit) -> Match
    requires { hit.start ≤ hit.end }
    ensures { result ≡ record { pattern = pattern; start = hit.start; end = hit.end } }
{
    let span = Span {
        start: hit.start,
        end: hit.end,
    };
    Match::new(pattern, span)
}

/// Returns the match of one of the patterns where the bounds begin.
fn search_pattern<C: Cursor>(
    input: &mut Input<C>,
    needles: &OwnedNeedles,
    pattern: PatternID,
) -> Option<Match>
    ensures keeps { Keeps input.old input.new }
    ensures value { result ≡ option_map (found_for (Some pattern) (owned_of needles.now))
        (prefix_needle (needles_for (Some pattern) (owned_of needles.now)) input.old.content
        (low input.old) (high input.old)) }
    ensures within { IfSome result (λ found. (low input.old ≤ found.start)
        × (found.start ≤ found.end)
        × (found.end ≤ high input.old)) }
{
    let hit = prefix(input, &needles.prefilter)?;
    if needles.owners[hit.number] == pattern {
        return Some(match_of(pattern, hit));
    }
    let end = high(input);
    own_match(input, needles, pattern, hit.start, end)
}

/// Returns the match of one of the patterns that begins at `at` and ends at `end` or earlier.
fn own_match<C: Cursor>(
    input: &mut Input<C>,
    needles: &OwnedNeedles,
    pattern: PatternID,
    at: usize,
    end: usize,
) -> Option<Match>
    requires low { at < end }
    requires high { end ≤ length input.old.content }
    ensures keeps { Keeps input.old input.new }
    ensures value { result ≡ option_map (found_for (Some pattern) (owned_of needles.now))
        (needle_at (needles_for (Some pattern) (owned_of needles.now)) input.old.content end at) }
    ensures within { IfSome result (λ found. (found.start ≡ at) × (found.start ≤ found.end)
        × (found.end ≤ end)) }
{
    let table = &needles.prefilter.searcher.table;
    let byte = byte_at(input, at)?;
    let mut number = table.heads[byte as usize];
    while number < table.needles.len() {
        let needle = table.needles[number].as_slice();
        if needles.owners[number] == pattern && occurs(input, needle, at, end) {
            let span = Span {
                start: at,
                end: at + needle.len(),
            };
            return Some(Match::new(pattern, span));
        }
        number = table.nexts[number];
    }
    None
}

/// Whether the needle occurs at `at` and ends at `end` or earlier.
pub(crate) fn occurs<C: Cursor>(input: &mut Input<C>, needle: &[u8], at: usize, end: usize) -> bool
    requires low { at ≤ end }
    requires high { end ≤ length input.old.content }
    ensures keeps { Keeps input.old input.new }
    ensures value { result ≡ stands_within input.old.content end at needle.now }
{
    let len = needle.len();
    if len > end - at {
        return false;
    }
    stands_by_pieces(input, needle, at, at + len)
}
