//! Ranges of a text that are searched side by side, and one list of what they give.

use regex_cursor::Input;
use regex_cursor::cursor::ChunkCursor;
use regex_cursor::engines::meta::Regex;
use regex_cursor::types::{Match, Span};
use std::alloc::{AllocError, Global};

/// The matches of a range: as if one had ended at its start, up to one that ends at its end or
/// later.
pub fn matches_of_range(
    alloc: Global,
    regex: &Regex,
    text: ChunkCursor<'_>,
    range: Span,
) -> Result<Vec<Match>, AllocError> {
    let mut matches = Vec::new(alloc);
    let input = Input::new(text).range(range.start, usize::MAX);
    for found in regex.find_iter(alloc, input)? {
        if found.end() > range.start || range.start == 0 {
            matches.push(found)?;
        }
        if found.end() >= range.end {
            break;
        }
    }
    Ok(matches)
}

/// Adds the matches of the next range to those of the text before it.
pub fn add_range(
    alloc: Global,
    regex: &Regex,
    text: ChunkCursor<'_>,
    matches: &mut Vec<Match>,
    range: Span,
    next: &[Match],
) -> Result<(), AllocError> {
    let Some(last) = matches.last() else {
        return Ok(());
    };
    let mut end = last.end();
    let mut rest = rest_after(next, range.start, end);
    for found in regex.find_iter(alloc, Input::new(text).range(end, usize::MAX))? {
        if rest.is_some() || end >= range.end {
            break;
        }
        if found.end() > end {
            end = found.end();
            matches.push(found)?;
            rest = rest_after(next, range.start, end);
        }
    }
    matches.extend_from_slice(rest.unwrap_or(&[]))?;
    Ok(())
}

/// The matches of a range after a place at which its search came by: its start, or where one ends.
fn rest_after(matches: &[Match], start: usize, place: usize) -> Option<&[Match]> {
    if place == start {
        return Some(matches);
    }
    let index = matches.iter().position(|found| found.end() == place)?;
    Some(&matches[index + 1..])
}
