//! Lazy DFA searches in a cache: one match, its end, its start, and iteration.

ghost use Rattle.std.specs.Prelude.{◌≡◌, ◌≤◌, ◌∷◌, [], IfErr, IfOk, IfSome, MatchOption, None, Option, Some, Result};
ghost use Rattle.rc_text.specs.Bounds.{IsWithinBounds};
ghost use Rattle.rc_text.specs.Text.{Keeps, low, high};
ghost use Rattle.rc_text.specs.declared.types.MatchKind.TheVariants.{LeftmostFirst};
ghost use Rattle.rc_program.specs.Kinds.{IsAnswerBy, answer_by_from};
ghost use Rattle.rc_program.specs.Matches.{begin_of, end_of, matches_left, next_match};
ghost use Rattle.rc_program.specs.Sought.{search_for};
ghost use Rattle.rc_pikevm_search.specs.Moved.{IsMoved};
ghost use Rattle.rc_dfa_search.specs.Halves.{IsForwardHalf};
ghost use Rattle.rc_dfa_search.specs.Reverse.{IsReverseHalf};
ghost use Rattle.api_hybrid.specs.Caches.{IsCacheFor};
ghost use Rattle.api_hybrid.specs.Faults.{ClearsWhereShort, ClearsWhereShortNext, GrowsWhereRoomy, IsFaultOf, IsNextFault};
ghost use Rattle.api_hybrid.specs.Left.{FindRuns, HasItsCache, find_cache, find_input, find_left, find_lender, find_regex, matches_in};
ghost use Rattle.api_hybrid.specs.Views.{regex_kind, sought};

use crate::cache::Cache;
use crate::finder::Finder;
use crate::iterators::FindMatches;
use crate::regex::Regex;
use rc_dfa_search::search as spans;
use rc_program::matches::is_again;
use rc_text::cursor::Cursor;
use rc_text::input::{Input, advance_start};
use rc_text::types::{HalfMatch, Match, MatchError};

/// Returns the match that a search of the input finds, in a cache that was made for this regex. The
/// cache stays so, also after an `Err`.
///
/// Under `MatchKind::LeftmostFirst` it is the preferred match of the least start. Under
/// `LeftmostLongest` it is the longest of the least start, and of these the preferred one. Under
/// `MatchKind::All` it is the one with the greatest end, then the least start, then the first
/// pattern, and no match is rejected. With the earliest flag of the input on it may be any match,
/// unless matches may be rejected.
///
/// An `Err` is `Quit` if an assertion of the patterns asks for Unicode words: the search doesn't go
/// past a byte above 127. It is `GaveUp` with `memory` if the search ran out of memory, and without
/// `memory` if it dropped the states of a direction three times and would have to drop them again.
/// It drops states only if two sizes together pass the capacity of the cache: what the cache held
/// before, and the minimum capacity for each of (n + 4)² states, where n is the number of bytes
/// between the input's bounds. The offset of a `GaveUp` is within these bounds.
pub fn find<C: Cursor>(
    re: &Regex,
    cache: &mut Cache,
    input: &mut Input<C>,
) -> Result<Option<Match>, MatchError>
    requires made { IsCacheFor re.now cache.old }
    ensures cache { IsCacheFor re.now cache.new }
    ensures keeps { Keeps input.old input.new }
    ensures found { IfOk result (IsAnswerBy (regex_kind re.now) input.old.earliest
        (search_for (sought re.now) input.old)) }
    ensures within { IfOk result (λ o. IfSome o (IsWithinBounds input.old)) }
    ensures fault { IfErr result (IsFaultOf re.now input.old cache.old cache.new) }
    ensures clears { ClearsWhereShort re.now input.old cache.old cache.new }
{
    let earliest = input.get_earliest();
    find_by(re, cache, input, earliest)
}

/// Returns the match that a search of the input finds, exactly as `find` does.
pub fn try_search<C: Cursor>(
    re: &Regex,
    cache: &mut Cache,
    input: &mut Input<C>,
) -> Result<Option<Match>, MatchError>
    requires made { IsCacheFor re.now cache.old }
    ensures cache { IsCacheFor re.now cache.new }
    ensures keeps { Keeps input.old input.new }
    ensures found { IfOk result (IsAnswerBy (regex_kind re.now) input.old.earliest
        (search_for (sought re.now) input.old)) }
    ensures within { IfOk result (λ o. IfSome o (IsWithinBounds input.old)) }
    ensures fault { IfErr result (IsFaultOf re.now input.old cache.old cache.new) }
    ensures clears { ClearsWhereShort re.now input.old cache.old cache.new }
{
    find(re, cache, input)
}

/// Returns where the match ends that a search of the input finds, in bytes of the whole content,
/// and its pattern.
///
/// Under `MatchKind::All` the pattern is some pattern of which a match ends there. The cache has to
/// be made for this regex, and stays so. The errors are those of `find`.
pub fn try_search_fwd<C: Cursor>(
    re: &Regex,
    cache: &mut Cache,
    input: &mut Input<C>,
) -> Result<Option<HalfMatch>, MatchError>
    requires made { IsCacheFor re.now cache.old }
    ensures cache { IsCacheFor re.now cache.new }
    ensures keeps { Keeps input.old input.new }
    ensures found { IfOk result (IsForwardHalf (regex_kind re.now) input.old.earliest
        (search_for (sought re.now) input.old)) }
    ensures within { IfOk result (λ o. IfSome o
        (λ h. (low input.old ≤ h.offset) × (h.offset ≤ high input.old))) }
    ensures fault { IfErr result (IsFaultOf re.now input.old cache.old cache.new) }
    ensures clears { ClearsWhereShort re.now input.old cache.old cache.new }
{
    let aim = re.aim(input.get_earliest());
    spans::find_end(&re.lazy, &mut cache.inner, input, aim)
}

/// Returns where the longest match begins that ends at the end of the input's bounds, in bytes of
/// the whole content, and the first pattern with such a match. With the earliest flag of the input
/// on it may be any such match, unless matches may be rejected.
///
/// The cache has to be made for this regex, and stays so. The errors are those of `find`.
pub fn try_search_rev<C: Cursor>(
    re: &Regex,
    cache: &mut Cache,
    input: &mut Input<C>,
) -> Result<Option<HalfMatch>, MatchError>
    requires made { IsCacheFor re.now cache.old }
    ensures cache { IsCacheFor re.now cache.new }
    ensures keeps { Keeps input.old input.new }
    ensures found { IfOk result (IsReverseHalf input.old.earliest
        (search_for (sought re.now) input.old)) }
    ensures within { IfOk result (λ o. IfSome o
        (λ h. (low input.old ≤ h.offset) × (h.offset ≤ high input.old))) }
    ensures fault { IfErr result (IsFaultOf re.now input.old cache.old cache.new) }
    ensures clears { ClearsWhereShort re.now input.old cache.old cache.new }
{
    let aim = re.aim(input.get_earliest());
    spans::find_start(&re.lazy, &mut cache.inner, input, aim)
}

/// Returns an iterator over the matches in the input, from left to right, whatever its earliest
/// flag. Nothing is searched ahead. An error is an item, and the last one. The cache has to be made
/// for this regex, and stays so, even if you drop the iterator before its end.
///
/// Each search starts where the last match ended, and finds the match that `find` finds with the
/// earliest flag off. If that match is empty and ends there again, the search begins a byte later.
/// So under `MatchKind::All` the first match is the one with the greatest end of all.
pub fn find_iter<'r, 'c, C: Cursor + Drop>(
    re: &'r Regex,
    cache: &'c mut Cache,
    input: Input<C>,
) -> FindMatches<'r, 'c, C>
    requires made { IsCacheFor re.now cache.old }
    ensures left { find_left result ≡ matches_in re.now input None }
    ensures leftmost { regex_kind re.now ≡ LeftmostFirst
        → find_left result ≡ matches_left (search_for (sought re.now) input) input.span.start None }
    ensures regex { find_regex result ≡ re.now }
    ensures input { find_input result ≡ input }
    ensures cache { find_cache result ≡ cache.old }
    ensures made { HasItsCache result }
    ensures same_reference { find_lender result ≡ cache.entry.ghost_name }
    ensures runs { FindRuns result }
{
    FindMatches {
        finder: Finder { regex: re, cache },
        input,
        last: None,
        is_done: false,
    }
}

/// Returns the match that a search of the input finds with this earliest flag, whatever the
/// input's.
fn find_by<C: Cursor>(
    re: &Regex,
    cache: &mut Cache,
    input: &mut Input<C>,
    earliest: bool,
) -> Result<Option<Match>, MatchError>
    requires made { IsCacheFor re.now cache.old }
    ensures cache { IsCacheFor re.now cache.new }
    ensures keeps { Keeps input.old input.new }
    ensures found { IfOk result (IsAnswerBy (regex_kind re.now) earliest
        (search_for (sought re.now) input.old)) }
    ensures within { IfOk result (λ o. IfSome o (IsWithinBounds input.old)) }
    ensures fault { IfErr result (IsFaultOf re.now input.old cache.old cache.new) }
    ensures clears { ClearsWhereShort re.now input.old cache.old cache.new }
    ensures grows { GrowsWhereRoomy re.now input.old cache.old cache.new }
{
    let aim = re.aim(earliest);
    spans::find(&re.lazy, &mut cache.inner, input, aim)
}

/// Returns the next match in the input; the last one ended at `last`. The span then starts where
/// the new match ends.
pub(crate) fn next_match<C: Cursor>(
    re: &Regex,
    cache: &mut Cache,
    input: &mut Input<C>,
    last: Option<usize>,
) -> Result<Option<Match>, MatchError>
    requires made { IsCacheFor re.now cache.old }
    ensures cache { IsCacheFor re.now cache.new }
    ensures left { IfOk result (λ o. MatchOption o
        (matches_in re.now input.old last ≡ [])
        (λ m. matches_in re.now input.old last ≡ m ∷ matches_in re.now input.new (Some m.end))) }
    ensures moves { IsMoved input.old input.new }
    ensures fault { IfErr result (IsNextFault re.now input.old cache.old cache.new) }
    ensures clears { ClearsWhereShortNext re.now input.old cache.old cache.new }
{
    match look_on(re, cache, input, last) {
        Ok(Some(found)) => {
            input.set_start(found.end());
            Ok(Some(found))
        }
        Ok(None) => Ok(None),
        Err(error) => Err(error),
    }
}

/// Returns the match from the start of the input's span, or from a byte later if that is an empty
/// one that ends at `last`. The span then starts where the search did.
fn look_on<C: Cursor>(
    re: &Regex,
    cache: &mut Cache,
    input: &mut Input<C>,
    last: Option<usize>,
) -> Result<Option<Match>, MatchError>
    requires made { IsCacheFor re.now cache.old }
    ensures cache { IsCacheFor re.now cache.new }
    ensures found { IfOk result (λ o. o
        ≡ next_match begin_of end_of (answer_by_from (regex_kind re.now)
        (search_for (sought re.now) input.old)) input.old.span.start last) }
    ensures within { IfOk result (λ o. IfSome o (λ m. m.end ≤ high input.new)) }
    ensures moves { IsMoved input.old input.new }
    ensures fault { IfErr result (IsNextFault re.now input.old cache.old cache.new) }
    ensures clears { ClearsWhereShortNext re.now input.old cache.old cache.new }
{
    match find_by(re, cache, input, false) {
        Ok(Some(found)) => {
            if !is_again(last, found) {
                return Ok(Some(found));
            }
            advance_start(input);
            find_by(re, cache, input, false)
        }
        Ok(None) => Ok(None),
        Err(error) => Err(error),
    }
}
