//! Fixed texts: patterns that match a text alone.
ghost use Rattle.std.specs.Prelude.{◌≡◌, IfOk, chars, string_bytes};
ghost use Rattle.std.specs.List.{flat_map};
ghost use Rattle.grep_options.specs.Escaped.{escaped_letter, is_special};

use std::alloc::{AllocError, Global};

/// Whether a byte has a meaning of its own in a pattern.
fn is_special(letter: char) -> bool
    ensures { result ≡ is_special letter }
{
    matches!(
        letter,
        '\\' | '.' | '+' | '*' | '?' | '(' | ')' | '|' | '[' | ']' | '{' | '}' | '^' | '$'
    )
}

/// A pattern that matches this text alone: a backslash stands before each character that has a
/// meaning of its own.
pub fn escaped(alloc: Global, text: &str) -> Result<String, AllocError>
    ensures { IfOk result (λ s. string_bytes s ≡ flat_map escaped_letter (chars text.now)) }
{
    let mut pattern = String::new(alloc);
    for letter in text.chars() {
        if is_special(letter) {
            pattern.push('\\')?;
        }
        pattern.push(letter)?;
    }
    Ok(pattern)
}
