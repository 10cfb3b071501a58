//! Editor searches: the next match, the previous one, and the matches on the screen.
ghost use Rattle.std.specs.Prelude.{◌≡◌, ◌≤◌, ℕ, IfOk, false, filter, length};
ghost use Rattle.api_meta.specs.Caches.{HasSameRoom};
ghost use Rattle.api_meta.specs.Left.{find_left};
ghost use Rattle.rc_program.specs.Matches.{AreInOrder, begin_of, end_of};
ghost use Rattle.gap_buffer.specs.Shown.{IsCacheOf, IsSearchedFrom, LeavesAll, found_from, last_before, matches_of, overlaps};

use crate::buffer::GapBuffer;
use crate::cursor::GapCursor;
use regex_cursor::Input;
use regex_cursor::engines::meta::{Cache, FindMatches, Regex};
use regex_cursor::types::{Match, Span};
use std::alloc::{AllocError, Global};

/// Returns the match that a search from the caret on finds, in a cache that was made for the regex.
/// Assertions see the whole text. It takes no memory.
pub fn next_match(text: &GapBuffer, regex: &Regex, cache: &mut Cache) -> Option<Match>
    requires made { IsCacheOf regex.now cache.old }
    ensures cache { IsCacheOf regex.now cache.new }
    ensures room { HasSameRoom cache.old cache.new }
    ensures found { result ≡ found_from regex.now text.now.content text.now.caret }
{
    let mut input = input_from(text, text.caret());
    regex.search_with(cache, &mut input)
}

/// Returns the last match that begins before the caret. The matches are those of `Regex::find_iter`
/// over the whole text; it goes through them from the start, up to the caret. An `Err` means out of
/// memory for the cache of the search.
pub fn previous_match(
    alloc: Global,
    text: &GapBuffer,
    regex: &Regex,
) -> Result<Option<Match>, AllocError>
    ensures { IfOk result (λ m. m ≡ last_before text.now.caret
        (matches_of regex.now text.now.content)) }
{
    let mut matches = all_matches(alloc, text, regex)?;
    let last = last_of(&mut matches, text.caret());
    drop(matches);
    Ok(last)
}

/// The last of the remaining matches, in order, that begin before the position.
fn last_of(matches: &mut FindMatches<'_, GapCursor<'_>>, at: usize) -> Option<Match>
    ensures { (hi : ℕ) → AreInOrder begin_of end_of hi (find_left matches.old)
        → result ≡ last_before at (find_left matches.old) }
{
    let mut last = None;
    for found in matches {
        if found.start() >= at {
            return last;
        }
        last = Some(found);
    }
    last
}

/// Returns the matches that the window shows: each begins before the window's end, and ends after
/// its start. So each has a byte in the window, also one that begins before it, or is empty and
/// lies between the window's ends. One that is empty at either end of the window isn't listed.
///
/// The matches are those of `Regex::find_iter` over the whole text, in order. An `Err` means out of
/// memory.
pub fn matches_on_screen(
    alloc: Global,
    text: &GapBuffer,
    regex: &Regex,
    window: Span,
) -> Result<Vec<Match>, AllocError>
    ensures { IfOk result (λ ms. ms.items
        ≡ filter (overlaps window) (matches_of regex.now text.now.content)) }
{
    let mut matches = all_matches(alloc, text, regex)?;
    let shown = shown_of(alloc, &mut matches, window);
    drop(matches);
    shown
}

/// The remaining matches, in order, with a byte in the window.
fn shown_of(
    alloc: Global,
    matches: &mut FindMatches<'_, GapCursor<'_>>,
    window: Span,
) -> Result<Vec<Match>, AllocError>
    ensures { (hi : ℕ) → AreInOrder begin_of end_of hi (find_left matches.old)
        → IfOk result (λ ms. ms.items ≡ filter (overlaps window) (find_left matches.old)) }
{
    let mut shown = Vec::new(alloc);
    for found in matches {
        if found.start() >= window.end {
            return Ok(shown);
        }
        if found.end() > window.start {
            shown.push(found)?;
        }
    }
    Ok(shown)
}

/// The text, as an input from a position on.
fn input_from(text: &GapBuffer, at: usize) -> Input<GapCursor<'_>>
    requires { at ≤ length text.now.content }
    ensures start { result.span.start ≡ at }
    ensures same { IsSearchedFrom text.now.content at result }
    ensures late { result.earliest ≡ false }
{
    let mut input = Input::new(text.cursor());
    input.set_start(at);
    input
}

/// All matches in the text.
fn all_matches<'t>(
    alloc: Global,
    text: &'t GapBuffer,
    regex: &'t Regex,
) -> Result<FindMatches<'t, GapCursor<'t>>, AllocError>
    ensures { IfOk result (LeavesAll regex.now text.now.content) }
{
    let matches = regex.find_iter(alloc, input_from(text, 0))?;
    Ok(matches)
}
