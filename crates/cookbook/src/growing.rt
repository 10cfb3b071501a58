//! Editor: a match that stays while the text grows or is edited behind it.

use regex_cursor::Input;
use regex_cursor::cursor::ChunkCursor;
use regex_cursor::engines::meta::{Finder, Reached};
use regex_cursor::types::Match;

/// The match from a place on, unless bytes that are still to come may change it. The text has `len`
/// bytes so far.
pub fn final_match(
    finder: &mut Finder<'_>,
    text: ChunkCursor<'_>,
    from: usize,
    len: usize,
) -> Option<Match> {
    let reached = finder.find_reach(&mut Input::new(text).range(from, usize::MAX));
    if reached.reach > len {
        return None;
    }
    reached.found
}

/// Whether a search that came to this comes to it again after an edit that begins at this place.
pub fn is_kept(reached: &Reached, edited: usize) -> bool {
    reached.reach <= edited
}
