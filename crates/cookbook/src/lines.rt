//! The lines with a match, and a group by its name.

use regex_cursor::Input;
use regex_cursor::cursor::ChunkCursor;
use regex_cursor::engines::meta::{Finder, Regex};
use regex_cursor::types::Span;
use std::alloc::{AllocError, Global};

/// The lines with a match, as if there was nothing around each. `newline` is a regex of the pattern `\n`.
pub fn lines_with_a_match(
    alloc: Global,
    newline: &Regex,
    finder: &mut Finder<'_>,
    text: ChunkCursor<'_>,
) -> Result<Vec<Span>, AllocError> {
    let mut input = Input::new(text);
    let lines = newline.split(alloc, Input::new(text))?;
    lines
        .filter(|line| has_match(finder, &mut input, *line))
        .collect(alloc)
}

/// Whether the line has a match.
fn has_match(finder: &mut Finder<'_>, input: &mut Input<ChunkCursor<'_>>, line: Span) -> bool {
    finder.is_match(input.slice(line.start, line.start + line.len()))
}

/// Where the group of this name stands in the first match.
pub fn group_named(
    alloc: Global,
    finder: &mut Finder<'_>,
    text: ChunkCursor<'_>,
    name: &str,
) -> Result<Option<Span>, AllocError> {
    let groups = finder.captures(alloc, &mut Input::new(text))?;
    let span = groups.get_group_by_name(name);
    drop(groups);
    Ok(span)
}
