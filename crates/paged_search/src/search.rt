//! Paged search: the match of what can be read, and the match of a whole file.
ghost use Rattle.std.specs.Prelude.{◌≡◌, IfOk, MatchResult, false, true};
ghost use Rattle.paged_search.specs.Found.{IsFault, IsSearchedFrom, found_from};

use paged_file::{PagedCursor, Pages, ReadFault};
use regex_cursor::Input;
use regex_cursor::engines::meta::Regex;
use regex_cursor::types::Match;
use std::alloc::{AllocError, Global};

/// Why a search is undecided.
#[derive(Clone, Copy, Debug, PartialEq, Eq)]
pub enum FindError {
    /// A page of the file can't be read.
    Read(ReadFault),
    /// Out of memory for the cache of the search.
    Memory,
}

/// Returns the match that a search of the readable bytes finds, from the shown page on. Assertions
/// see all these bytes, so if a page can't be read, the text ends before it. Afterwards `failure`
/// of the cursor says whether the search came there.
///
/// An `Err` means out of memory for the cache of the search.
pub fn find<P: Pages>(
    alloc: Global,
    cursor: &mut PagedCursor<P>,
    regex: &Regex,
) -> Result<Option<Match>, AllocError>
    ensures { IfOk result (λ m. m ≡ found_from regex.now
        cursor.old.stored.bytes cursor.old.offset) }
{
    let found = regex.find(alloc, input_over(cursor))?;
    Ok(found) // and what it met, the cursor tells
}

/// Returns the match that a search of the whole file finds, from the shown page on. The file is
/// read to its end first, and is searched only if each page could be read.
pub fn find_whole<P: Pages>(
    alloc: Global,
    cursor: &mut PagedCursor<P>,
    regex: &Regex,
) -> Result<Option<Match>, FindError>
    ensures { MatchResult result
        (λ m. (cursor.old.stored.is_whole ≡ true)
        × (m ≡ found_from regex.now cursor.old.stored.bytes cursor.old.offset))
        (IsFault cursor.old.stored) }
{
    if let Some(fault) = cursor.check() {
        return Err(FindError::Read(fault));
    }
    match find(alloc, cursor, regex) {
        Ok(found) => Ok(found),
        Err(_) => Err(FindError::Memory),
    }
}

/// The readable bytes, as an input from the shown page on.
fn input_over<P: Pages>(cursor: &mut PagedCursor<P>) -> Input<&mut PagedCursor<P>>
    ensures same { IsSearchedFrom cursor.old.stored.bytes cursor.old.offset result }
    ensures late { result.earliest ≡ false }
{
    Input::new(cursor)
}
