//! Span output: the bytes of a span, written to a sink.
ghost use Rattle.std.specs.Prelude.{◌≡◌, true, slice_range, OnOk, OnErr};
ghost use Rattle.regex_cursor.specs.Put.{Puts};

use crate::run::{Sink, put_all};
use rc_pieces::spans::{piece, seek};
use rc_text::cursor::Cursor;
use rc_text::types::Span;
use std::io;

/// Writes the bytes of a span of the cursor's content, a piece of a chunk at a time. A span that
/// ends past the content ends with it.
///
/// It takes no memory, and the cursor moves. After an error some first bytes of the span were
/// written.
pub fn put_span<W: Sink, C: Cursor>(out: &mut W, cursor: &mut C, span: Span) -> io::Result<()>
    ensures content { C.content cursor.new ≡ C.content cursor.old }
    ensures put { Puts result (W.taken out.old) (W.taken out.new)
        (slice_range (C.content cursor.old) span.start span.end) }
    ensures ok { OnOk result (W.has_failed out.new ≡ W.has_failed out.old) }
    ensures err { OnErr result (W.has_failed out.new ≡ true) }
{
    let mut from = span.start;
    while from < span.end {
        seek(cursor, from);
        let piece = piece(cursor, from, span.end);
        if piece.is_empty() {
            return Ok(());
        }
        put_all(out, piece)?;
        from += piece.len();
    }
    Ok(())
}
