//! Replacement templates: text, and references to groups of a match.

use crate::finder::MatchFinder;
use rc_text::types::Span;
use std::alloc::{AllocError, Global};
use std::io;
use std::io::Write;

/// A piece of a template.
#[derive(Clone, Copy)]
enum Piece<'t> {
    /// Literal text.
    Text(&'t str),
    /// The group with this number.
    Number(usize),
    /// The group with this name.
    Name(&'t str),
}

/// What is printed in the place of a match.
#[derive(Drop)]
pub struct Template<'t> {
    pieces: Vec<Piece<'t>>,
}

/// The group that a word refers to.
fn group_of(word: &str) -> Piece<'_> {
    match word.parse::<usize>() {
        Ok(number) => Piece::Number(number),
        Err(_) => Piece::Name(word),
    }
}

/// The number of bytes of letters, digits and underscores at the start of a text.
fn word_len(text: &str) -> usize {
    for (place, byte) in text.bytes().enumerate() {
        if !byte.is_ascii_alphanumeric() && byte != b'_' {
            return place;
        }
    }
    text.len()
}

/// The piece that a `$` before the text begins, and the text behind it. It is `None` if that `$`
/// stands for itself.
fn reference(text: &str) -> Option<(Piece<'_>, &str)> {
    if let Some(rest) = text.strip_prefix('$') {
        return Some((Piece::Text("$"), rest));
    }
    if let Some(inner) = text.strip_prefix('{') {
        let (word, rest) = inner.split_once('}')?;
        return Some((group_of(word), rest));
    }
    let end = word_len(text);
    if end == 0 {
        return None;
    }
    Some((group_of(text.get(..end)?), text.get(end..)?))
}

impl<'t> Template<'t> {
    /// Reads a template. `$1` or `${1}` is the group with that number, `$name` or `${name}` the one
    /// with that name, and `$$` a dollar sign. Any other `$` stands for itself. A name without braces
    /// is as long as it may be. An `Err` means out of memory.
    pub fn new(alloc: Global, text: &'t str) -> Result<Template<'t>, AllocError> {
        let mut pieces = Vec::new(alloc);
        let mut rest = text;
        for _ in 0..text.len() {
            let Some((before, behind)) = rest.split_once('$') else {
                break;
            };
            pieces.push(Piece::Text(before))?;
            let (piece, after) = reference(behind).unwrap_or((Piece::Text("$"), behind));
            pieces.push(piece)?;
            rest = after;
        }
        pieces.push(Piece::Text(rest))?;
        Ok(Template { pieces })
    }

    /// Writes the text that replaces the match in the line whose groups were found last. A group that
    /// took no part is empty.
    pub fn put<W: Write, F: MatchFinder>(
        &self,
        out: &mut W,
        line: &[u8],
        finder: &F,
    ) -> io::Result<()> {
        for piece in &self.pieces {
            out.write_all(match piece {
                Piece::Text(text) => text.as_bytes(),
                Piece::Number(number) => part_of(line, finder.group(*number)),
                Piece::Name(name) => part_of(line, finder.named_group(name)),
            })?;
        }
        Ok(())
    }
}

/// The bytes of a group.
fn part_of(line: &[u8], group: Option<Span>) -> &[u8] {
    match group {
        Some(span) => line.get(span.start..span.end).unwrap_or(&[]),
        None => &[],
    }
}
