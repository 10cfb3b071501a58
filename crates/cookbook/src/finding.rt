//! Next, previous, in a selection, on screen.

use regex_cursor::Input;
use regex_cursor::cursor::ChunkCursor;
use regex_cursor::engines::meta::{Finder, Regex};
use regex_cursor::types::{Match, Span};
use std::alloc::{AllocError, Global};

/// The match that a search from the caret on finds.
pub fn next_match(finder: &mut Finder<'_>, text: ChunkCursor<'_>, caret: usize) -> Option<Match> {
    finder.find(&mut Input::new(text).range(caret, usize::MAX))
}

/// The match that a search within the selection finds.
pub fn match_in_selection(
    finder: &mut Finder<'_>,
    text: ChunkCursor<'_>,
    selection: Span,
) -> Option<Match> {
    let end = selection.start + selection.len();
    finder.find(&mut Input::new(text).range(selection.start, end))
}

/// The last match that begins before the caret.
pub fn previous_match(
    alloc: Global,
    regex: &Regex,
    text: ChunkCursor<'_>,
    caret: usize,
) -> Result<Option<Match>, AllocError> {
    let matches = regex.find_iter(alloc, Input::new(text))?;
    Ok(matches.take_while(|found| found.start() < caret).last())
}

/// The matches with a byte in the window.
pub fn matches_on_screen(
    alloc: Global,
    regex: &Regex,
    text: ChunkCursor<'_>,
    window: Span,
) -> Result<Vec<Match>, AllocError> {
    let matches = regex.find_iter(alloc, Input::new(text))?;
    matches
        .take_while(|found| found.start() < window.end)
        .filter(|found| found.end() > window.start)
        .collect(alloc)
}
