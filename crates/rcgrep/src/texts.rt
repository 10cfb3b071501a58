//! Pattern texts: those of the command line, and the lines of files.

use grep_options::escaped;
use std::alloc::{AllocError, Global};
use std::{fs, io};

/// A file of patterns that can't be read.
#[derive(Drop)]
pub struct TextFault<'w> {
    pub name: &'w str,
    pub fault: io::Error,
}

/// Reads the files of patterns; `-` is the standard input.
pub fn read_files<'w>(rt: &HostRuntime, names: &[&'w str]) -> Result<Vec<String>, TextFault<'w>> {
    let mut texts = Vec::new(rt.alloc());
    for name in names {
        let name: &'w str = *name;
        let read = if name == "-" {
            io::read_to_string(rt.alloc(), rt.stdin())
        } else {
            fs::read_to_string(rt, name)
        };
        let text = match read {
            Ok(text) => text,
            Err(fault) => return Err(TextFault { name, fault }),
        };
        if let Err(fault) = texts.push(text) {
            drop(fault);
            let fault = io::Error::from(io::ErrorKind::OutOfMemory);
            return Err(TextFault { name, fault });
        }
    }
    Ok(texts)
}

/// The texts of the command line, and then the lines of the files.
pub fn all_texts<'t, 'w: 't>(
    alloc: Global,
    given: &[&'w str],
    files: &'t [String],
) -> Result<Vec<&'t str>, AllocError> {
    let mut texts: Vec<&'t str> = Vec::new(alloc);
    for text in given {
        let text: &'w str = *text;
        texts.push(text)?;
    }
    for file in files {
        let text = file.as_str();
        if text.is_empty() {
            continue;
        }
        for line in text.strip_suffix('\n').unwrap_or(text).split('\n') {
            texts.push(line)?;
        }
    }
    Ok(texts)
}

/// Patterns that match these texts alone.
pub fn all_escaped(alloc: Global, texts: &[&str]) -> Result<Vec<String>, AllocError> {
    let mut patterns = Vec::new(alloc);
    for text in texts {
        patterns.push(escaped(alloc, text)?)?;
    }
    Ok(patterns)
}

/// Where a character of a pattern stands.
#[derive(Clone, Copy)]
enum Place {
    /// In no escape.
    Plain,
    /// Behind a backslash.
    Escaped,
    /// Behind `\p` or `\P`.
    Property,
    /// In the braces of a property.
    Name,
}

/// Where the next character stands.
fn place_behind(place: Place, letter: char) -> Place {
    match place {
        Place::Plain if letter == '\\' => Place::Escaped,
        Place::Escaped if letter == 'p' || letter == 'P' => Place::Property,
        Place::Property if letter == '{' => Place::Name,
        Place::Name if letter != '}' => Place::Name,
        _ => Place::Plain,
    }
}

/// Whether a pattern has a capital letter. A letter behind a backslash, or in the name of a
/// property, is none.
fn has_capital(text: &str) -> bool {
    let mut place = Place::Plain;
    for letter in text.chars() {
        if let (Place::Plain, true) = (place, letter.is_uppercase()) {
            return true;
        }
        place = place_behind(place, letter);
    }
    false
}

/// Whether one of the patterns has a capital letter.
pub fn have_capital(texts: &[&str]) -> bool {
    texts.iter().any(|text| has_capital(text))
}

/// Whether one of the patterns has a newline.
pub fn has_newline(texts: &[&str]) -> bool {
    texts.iter().any(|text| text.contains('\n'))
}
