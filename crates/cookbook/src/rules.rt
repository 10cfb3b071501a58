//! Many rules over one document.

use regex_cursor::Input;
use regex_cursor::cursor::ChunkCursor;
use regex_cursor::engines::meta::Finder;
use regex_cursor::types::PatternSet;
use std::alloc::{AllocError, Global};

/// The numbers of the rules that have a match in the text, in order.
pub fn rules_met(
    alloc: Global,
    rules: &mut Finder<'_>,
    text: ChunkCursor<'_>,
) -> Result<Vec<usize>, AllocError> {
    let mut set = PatternSet::new(alloc, rules.regex().pattern_len())?;
    rules.which_patterns(&mut Input::new(text), &mut set);
    set.iter().map(|rule| rule.as_usize()).collect(alloc)
}
