//! Lines and columns.

use regex_cursor::Input;
use regex_cursor::cursor::ChunkCursor;
use regex_cursor::engines::meta::Regex;
use std::alloc::{AllocError, Global};

/// The line of a place, from 1 on, and where that line begins. `newline` is a regex of the pattern `\n`.
pub fn line_of(
    alloc: Global,
    newline: &Regex,
    text: ChunkCursor<'_>,
    at: usize,
) -> Result<(usize, usize), AllocError> {
    let newlines = newline.find_iter(alloc, Input::new(text).range(0, at))?;
    let first: (usize, usize) = (1, 0);
    Ok(newlines.fold(
        first,
        |(line, _), found| (line.saturating_add(1), found.end()),
    ))
}
