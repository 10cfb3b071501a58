//! Editor: a search that goes on between other things.

use regex_cursor::cursor::ChunkCursor;
use regex_cursor::types::Match;
use std::alloc::AllocError;
use stream_search::{ListStepper, Progress, Stepper};

/// How many bytes a slice takes.
const SLICE: usize = 65_536;

/// What a status line shows of a search.
#[derive(Clone, Copy, Debug)]
pub enum Status {
    /// It ended, with a match or with none.
    Found(Option<Match>),
    /// It came to this position.
    Searching(usize),
}

/// Searches a slice more of the text.
pub fn search_on(stepper: &mut Stepper<'_>, text: ChunkCursor<'_>) -> Status {
    match stepper.resume(text, SLICE) {
        Progress::Done(found) => Status::Found(found),
        Progress::NotYet => Status::Searching(stepper.position()),
    }
}

/// Adds the matches of a slice more of the text. Returns whether the text ended.
pub fn list_on(
    list: &mut ListStepper<'_>,
    text: ChunkCursor<'_>,
    matches: &mut Vec<Match>,
) -> Result<bool, AllocError> {
    list.resume(text, SLICE, matches)
}
