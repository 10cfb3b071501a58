//! Output: bytes of a content and parts of a template, put into a sink.
ghost use Rattle.std.specs.Prelude.{◌≡◌, slice_range, IfErr, OnOk, true};
ghost use Rattle.chunk_replace.specs.declared.error.ReplaceError.TheVariants.{Write};
ghost use Rattle.regex_cursor.specs.Put.{Puts};
ghost use Rattle.chunk_replace.specs.Spans.{bytes_in};
ghost use Rattle.chunk_replace.specs.Told.{told_part, told_parts};

use crate::error::ReplaceError;
use crate::template::Part;
use regex_cursor::Cursor;
use regex_cursor::engines::meta::Captures;
use regex_cursor::run::{Sink, put_all, put_span};
use regex_cursor::types::Span;

/// Writes all bytes of a piece.
fn put_bytes<W: Sink>(out: &mut W, bytes: &[u8]) -> Result<(), ReplaceError>
    ensures put { Puts result (W.taken out.old) (W.taken out.new) bytes.now }
    ensures ok { OnOk result (W.has_failed out.new ≡ W.has_failed out.old) }
    ensures err { IfErr result (λ e. (e ≡ Write) × (W.has_failed out.new ≡ true)) }
{
    match put_all(out, bytes) {
        Ok(()) => Ok(()),
        Err(_) => Err(ReplaceError::Write),
    }
}

/// Writes the bytes of the content from `start` to `end`, or to the end of the content if that
/// comes first.
pub(crate) fn put_range<W: Sink, C: Cursor>(
    out: &mut W,
    cursor: &mut C,
    start: usize,
    end: usize,
) -> Result<(), ReplaceError>
    ensures content { C.content cursor.new ≡ C.content cursor.old }
    ensures put { Puts result (W.taken out.old) (W.taken out.new)
        (slice_range (C.content cursor.old) start end) }
    ensures ok { OnOk result (W.has_failed out.new ≡ W.has_failed out.old) }
    ensures err { IfErr result (λ e. (e ≡ Write) × (W.has_failed out.new ≡ true)) }
{
    match put_span(out, cursor, Span { start, end }) {
        Ok(()) => Ok(()),
        Err(_) => Err(ReplaceError::Write),
    }
}

/// Writes the bytes of the span of a group, or nothing if the group took no part.
fn put_group<W: Sink, C: Cursor>(
    out: &mut W,
    cursor: &mut C,
    group: Option<Span>,
) -> Result<(), ReplaceError>
    ensures content { C.content cursor.new ≡ C.content cursor.old }
    ensures put { Puts result (W.taken out.old) (W.taken out.new)
        (bytes_in (C.content cursor.old) group) }
    ensures ok { OnOk result (W.has_failed out.new ≡ W.has_failed out.old) }
    ensures err { IfErr result (λ e. (e ≡ Write) × (W.has_failed out.new ≡ true)) }
{
    match group {
        Some(span) => put_range(out, cursor, span.start, span.end),
        None => Ok(()),
    }
}

/// Writes a part of a template: its text, or the bytes of its group.
fn put_part<W: Sink, C: Cursor>(
    out: &mut W,
    cursor: &mut C,
    part: &Part<'_>,
    caps: &Captures,
) -> Result<(), ReplaceError>
    ensures content { C.content cursor.new ≡ C.content cursor.old }
    ensures put { Puts result (W.taken out.old) (W.taken out.new)
        (told_part (C.content cursor.old) caps.now part.now) }
    ensures ok { OnOk result (W.has_failed out.new ≡ W.has_failed out.old) }
    ensures err { IfErr result (λ e. (e ≡ Write) × (W.has_failed out.new ≡ true)) }
{
    match part {
        Part::Literal(text) => put_bytes(out, text.as_bytes()),
        Part::Group(number) => put_group(out, cursor, caps.get_group(*number)),
        Part::Name(name) => put_group(out, cursor, caps.get_group_by_name(name)),
    }
}

/// Writes some parts of a template, one after another.
pub(crate) fn put_parts<W: Sink, C: Cursor>(
    out: &mut W,
    cursor: &mut C,
    parts: &[Part<'_>],
    caps: &Captures,
) -> Result<(), ReplaceError>
    ensures content { C.content cursor.new ≡ C.content cursor.old }
    ensures put { Puts result (W.taken out.old) (W.taken out.new)
        (told_parts (C.content cursor.old) caps.now parts.now) }
    ensures ok { OnOk result (W.has_failed out.new ≡ W.has_failed out.old) }
    ensures err { IfErr result (λ e. (e ≡ Write) × (W.has_failed out.new ≡ true)) }
{
    for part in parts {
        put_part(out, cursor, part, caps)?;
    }
    Ok(())
}
