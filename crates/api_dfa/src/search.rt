//! DFA searches: one match, its end, its start, and iteration. They take no memory.

ghost use Rattle.std.specs.Prelude.{◌≡◌, ◌≤◌, ◌∷◌, [], IfErr, IfOk, IfSome, MatchOption, None, Option, Some, Result};
ghost use Rattle.rc_text.specs.Bounds.{IsWithinBounds};
ghost use Rattle.rc_text.specs.Text.{Keeps, low, high};
ghost use Rattle.rc_text.specs.declared.types.MatchKind.TheVariants.{LeftmostFirst};
ghost use Rattle.rc_program.specs.Kinds.{IsAnswerBy, answer_by_from};
ghost use Rattle.rc_program.specs.Matches.{begin_of, end_of, matches_left, next_match};
ghost use Rattle.rc_program.specs.Sought.{search_for};
ghost use Rattle.rc_pikevm_search.specs.Moved.{IsMoved};
ghost use Rattle.rc_dfa_search.specs.Halves.{IsForwardHalf};
ghost use Rattle.rc_dfa_search.specs.Reverse.{IsReverseHalf};
ghost use Rattle.api_dfa.specs.Faults.{IsFaultOf, IsNextFault};
ghost use Rattle.api_dfa.specs.Left.{FindRuns, find_input, find_left, find_regex, matches_in};
ghost use Rattle.api_dfa.specs.Views.{dfa_kind, dfa_of, sought};

use crate::dfa::DFA;
use crate::iterators::FindMatches;
use crate::regex::Regex;
use rc_dense_dfa::dense::NoCache;
use rc_dfa_search::search as spans;
use rc_program::matches::is_again;
use rc_text::cursor::Cursor;
use rc_text::input::{Input, advance_start};
use rc_text::types::{HalfMatch, Match, MatchError};

/// Returns the match that a search of the input finds.
///
/// Under `MatchKind::LeftmostFirst` it is the preferred match of the least start. Under
/// `LeftmostLongest` it is the longest of the least start, and of these the preferred one. Under
/// `MatchKind::All` it is the one with the greatest end, then the least start, then the first
/// pattern, and no match is rejected. With the earliest flag of the input on it may be any match,
/// unless matches may be rejected.
///
/// An `Err` is always `Quit`: if an assertion of the patterns asks for Unicode words, the search
/// doesn't go past a byte above 127.
pub fn find<C: Cursor>(re: &Regex, input: &mut Input<C>) -> Result<Option<Match>, MatchError>
    ensures keeps { Keeps input.old input.new }
    ensures found { IfOk result (IsAnswerBy (dfa_kind (dfa_of re.now)) input.old.earliest
        (search_for (sought (dfa_of re.now)) input.old)) }
    ensures within { IfOk result (λ o. IfSome o (IsWithinBounds input.old)) }
    ensures fault { IfErr result (IsFaultOf (sought (dfa_of re.now)) input.old) }
{
    let earliest = input.get_earliest();
    find_by(&re.dfa, input, earliest)
}

/// Returns the match that a search of the input finds, exactly as `find` does.
pub fn try_search<C: Cursor>(re: &Regex, input: &mut Input<C>) -> Result<Option<Match>, MatchError>
    ensures keeps { Keeps input.old input.new }
    ensures found { IfOk result (IsAnswerBy (dfa_kind (dfa_of re.now)) input.old.earliest
        (search_for (sought (dfa_of re.now)) input.old)) }
    ensures within { IfOk result (λ o. IfSome o (IsWithinBounds input.old)) }
    ensures fault { IfErr result (IsFaultOf (sought (dfa_of re.now)) input.old) }
{
    find(re, input)
}

/// Returns where the match ends that a search of the input finds, in bytes of the whole content,
/// and its pattern.
///
/// Under `MatchKind::All` the pattern is some pattern of which a match ends there. The errors are
/// those of `find`.
pub fn try_search_fwd<C: Cursor>(
    dfa: &DFA,
    input: &mut Input<C>,
) -> Result<Option<HalfMatch>, MatchError>
    ensures keeps { Keeps input.old input.new }
    ensures found { IfOk result (IsForwardHalf (dfa_kind dfa.now) input.old.earliest
        (search_for (sought dfa.now) input.old)) }
    ensures within { IfOk result (λ o. IfSome o
        (λ h. (low input.old ≤ h.offset) × (h.offset ≤ high input.old))) }
    ensures fault { IfErr result (IsFaultOf (sought dfa.now) input.old) }
{
    let aim = dfa.aim(input.get_earliest());
    let mut cache = NoCache;
    spans::find_end(&dfa.tables, &mut cache, input, aim)
}

/// Returns where the longest match begins that ends at the end of the input's bounds, in bytes of
/// the whole content, and the first pattern with such a match. With the earliest flag of the input
/// on it may be any such match, unless matches may be rejected.
///
/// The errors are those of `find`.
pub fn try_search_rev<C: Cursor>(
    dfa: &DFA,
    input: &mut Input<C>,
) -> Result<Option<HalfMatch>, MatchError>
    ensures keeps { Keeps input.old input.new }
    ensures found { IfOk result (IsReverseHalf input.old.earliest
        (search_for (sought dfa.now) input.old)) }
    ensures within { IfOk result (λ o. IfSome o
        (λ h. (low input.old ≤ h.offset) × (h.offset ≤ high input.old))) }
    ensures fault { IfErr result (IsFaultOf (sought dfa.now) input.old) }
{
    let aim = dfa.aim(input.get_earliest());
    let mut cache = NoCache;
    spans::find_start(&dfa.tables, &mut cache, input, aim)
}

/// Returns an iterator over the matches in the input, from left to right, whatever its earliest
/// flag. An error is an item, and the last one.
///
/// Each search starts where the last match ended, and finds the match that `find` finds with the
/// earliest flag off. If that match is empty and ends there again, the search begins a byte later.
/// So under `MatchKind::All` the first match is the one with the greatest end of all.
pub fn find_iter<'r, C: Cursor + Drop>(re: &'r Regex, input: Input<C>) -> FindMatches<'r, C>
    ensures left { find_left result ≡ matches_in (dfa_of re.now) input None }
    ensures leftmost { dfa_kind (dfa_of re.now) ≡ LeftmostFirst
        → find_left result ≡ matches_left
        (search_for (sought (dfa_of re.now)) input) input.span.start None }
    ensures regex { find_regex result ≡ re.now }
    ensures input { find_input result ≡ input }
    ensures runs { FindRuns result }
{
    FindMatches {
        regex: re,
        input,
        last: None,
        is_done: false,
    }
}

/// Returns the match that a search of the input finds with this earliest flag, whatever the
/// input's.
fn find_by<C: Cursor>(
    dfa: &DFA,
    input: &mut Input<C>,
    earliest: bool,
) -> Result<Option<Match>, MatchError>
    ensures keeps { Keeps input.old input.new }
    ensures found { IfOk result (IsAnswerBy (dfa_kind dfa.now) earliest
        (search_for (sought dfa.now) input.old)) }
    ensures within { IfOk result (λ o. IfSome o (IsWithinBounds input.old)) }
    ensures fault { IfErr result (IsFaultOf (sought dfa.now) input.old) }
{
    let aim = dfa.aim(earliest);
    let mut cache = NoCache;
    spans::find(&dfa.tables, &mut cache, input, aim)
}

/// Returns the next match in the input; the last one ended at `last`. The span then starts where
/// the new match ends.
pub(crate) fn next_match<C: Cursor>(
    dfa: &DFA,
    input: &mut Input<C>,
    last: Option<usize>,
) -> Result<Option<Match>, MatchError>
    ensures left { IfOk result (λ o. MatchOption o
        (matches_in dfa.now input.old last ≡ [])
        (λ m. matches_in dfa.now input.old last ≡ m ∷ matches_in dfa.now input.new (Some m.end))) }
    ensures moves { IsMoved input.old input.new }
    ensures fault { IfErr result (IsNextFault (sought dfa.now) input.old) }
{
    match look_on(dfa, input, last) {
        Ok(Some(found)) => {
            input.set_start(found.end());
            Ok(Some(found))
        }
        Ok(None) => Ok(None),
        Err(error) => Err(error),
    }
}

/// Returns the match from the start of the input's span, or from a byte later if that is an empty
/// one that ends at `last`. The span then starts where the search did.
fn look_on<C: Cursor>(
    dfa: &DFA,
    input: &mut Input<C>,
    last: Option<usize>,
) -> Result<Option<Match>, MatchError>
    ensures found { IfOk result (λ o. o
        ≡ next_match begin_of end_of (answer_by_from (dfa_kind dfa.now)
        (search_for (sought dfa.now) input.old)) input.old.span.start last) }
    ensures within { IfOk result (λ o. IfSome o (λ m. m.end ≤ high input.new)) }
    ensures moves { IsMoved input.old input.new }
    ensures fault { IfErr result (IsNextFault (sought dfa.now) input.old) }
{
    match find_by(dfa, input, false) {
        Ok(Some(found)) => {
            if !is_again(last, found) {
                return Ok(Some(found));
            }
            advance_start(input);
            find_by(dfa, input, false)
        }
        Ok(None) => Ok(None),
        Err(error) => Err(error),
    }
}
