//! The bytes of a match, out of chunks.

use regex_cursor::cursor::{Cursor, SpanPieces};
use regex_cursor::run::{RunError, Sink, put_span};
use regex_cursor::types::{Match, Span};
use std::alloc::{AllocError, Global};

/// The bytes of a span.
pub fn bytes_of<C: Cursor + Drop>(
    alloc: Global,
    text: C,
    span: Span,
) -> Result<Vec<u8>, AllocError> {
    let mut bytes = Vec::new(alloc);
    let mut pieces = SpanPieces::new(text, span);
    while pieces.advance() {
        bytes.extend_from_slice(pieces.piece())?;
    }
    Ok(bytes)
}

/// Puts the bytes of a match.
pub fn put_match<W: Sink, C: Cursor>(
    out: &mut W,
    text: &mut C,
    found: Match,
) -> Result<(), RunError> {
    put_span(out, text, found.span()).map_err(|_| RunError::Write)
}
