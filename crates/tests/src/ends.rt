//! Where matches and groups end.

use regex_cursor::types::{Match, Span};

/// Where a match ends.
pub fn end_of(found: Option<Match>) -> Option<usize> {
    Some(found?.end())
}

/// Where a group ends.
pub fn end_of_group(group: Option<Span>) -> Option<usize> {
    Some(group?.end)
}
