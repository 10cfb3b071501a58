//! Searches in files that are read a page at a time.

use crate::ends::end_of;
use paged_file::{MemoryPages, PagedCursor, ReadFault};
use paged_search::{FindError, find, find_whole};
use regex_cursor::engines::meta::Regex;
use regex_cursor::types::{Match, PatternID, Span};
use std::alloc::{AllocError, Global};
use std::test::Fail;

/// Where the match ends in the bytes that can be read, the fault that its search met, and what a search of the whole file tells; in two
/// pages of three bytes.
type Told = (
    Option<usize>,
    Option<ReadFault>,
    Result<Option<Match>, FindError>,
);

/// What searches of a file tell.
fn told(alloc: Global, regex: &Regex, file: MemoryPages<'_>) -> Result<Told, AllocError> {
    let mut cursor = PagedCursor::new(alloc, file, 3, 2)?;
    let found = find(alloc, &mut cursor, regex)?;
    let fault = cursor.failure();
    let mut cursor = PagedCursor::new(alloc, file, 3, 2)?;
    Ok((end_of(found), fault, find_whole(alloc, &mut cursor, regex)))
}

/// A match lies in three pages. A read that fails in the middle ends the text, and the fault is told.
#[test]
fn pages_of_a_file(rt: HostRuntime) -> Result<(), Fail> {
    let regex = Regex::new(rt.alloc(), "b.*[eh]$")?;
    let whole = told(rt.alloc(), &regex, MemoryPages::new(b"abcdefgh"));
    let broken = told(rt.alloc(), &regex, MemoryPages::failing(b"abcdefgh", 5));
    drop(regex);
    let found = Match::new(PatternID::ZERO, Span { start: 1, end: 8 });
    assert!(rt; whole == Ok((Some(8), None, Ok(Some(found)))));
    let fault = ReadFault { offset: 5 };
    assert!(rt; broken == Ok((Some(5), Some(fault), Err(FindError::Read(fault)))));
    Ok(())
}
