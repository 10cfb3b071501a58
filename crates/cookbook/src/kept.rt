//! A cache that is kept over many searches.

use regex_cursor::Input;
use regex_cursor::engines::meta::Finder;
use regex_cursor::types::Match;
use std::alloc::{AllocError, Global};

/// The first match in each of the documents that has one.
pub fn first_matches(
    alloc: Global,
    finder: &mut Finder<'_>,
    documents: &[&[u8]],
) -> Result<Vec<Match>, AllocError> {
    let mut firsts = Vec::new(alloc);
    for document in documents {
        if let Some(found) = finder.find(&mut Input::new(*document)) {
            firsts.push(found)?;
        }
    }
    Ok(firsts)
}
