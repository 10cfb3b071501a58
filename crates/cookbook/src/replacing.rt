//! Replacing.

use chunk_replace::{ReplaceError, Template, replace_all};
use regex_cursor::engines::meta::Regex;
use regex_cursor::run::Written;
use std::alloc::Global;

/// The chunks' text with each match replaced.
pub fn replaced(
    alloc: Global,
    regex: &Regex,
    chunks: &[&[u8]],
    template: &Template<'_>,
) -> Result<Vec<u8>, ReplaceError> {
    let mut text = Vec::new(alloc);
    replace_all(alloc, regex, chunks, template, &mut Written::new(&mut text))?;
    Ok(text)
}
