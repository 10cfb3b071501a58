//! What is wrong with a pattern.

use regex_cursor::syntax::{Config, Explained, explain};
use std::alloc::{AllocError, Global};

/// What is wrong with a pattern, and where, as it is shown. It is None if the pattern is read.
pub fn fault_of(alloc: Global, pattern: &str) -> Result<Option<Explained<'_>>, AllocError> {
    let Some(fault) = explain(alloc, pattern, &Config::new())? else {
        return Ok(None);
    };
    Ok(Some(Explained {
        text: pattern,
        fault,
    }))
}
