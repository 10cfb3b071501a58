//! Escaping a text.

use std::alloc::{AllocError, Global};

/// The characters that mean something in a pattern.
const SPECIAL: &str = r"\.+*?()|[{^$";

/// A pattern that matches the text and nothing else.
pub fn escaped(alloc: Global, text: &str) -> Result<String, AllocError> {
    let mut pattern = String::new(alloc);
    for character in text.chars() {
        if SPECIAL.contains(character) {
            pattern.push('\\')?;
        }
        pattern.push(character)?;
    }
    Ok(pattern)
}
