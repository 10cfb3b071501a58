//! Replace all: the replaced text of a list of chunks; and what replaces one match of it.
ghost use Rattle.std.specs.Prelude.{◌≡◌, ◌≢◌, ◌↔◌, false, length, true, Err, IfErr, IfOk, MatchResult, OnOk};
ghost use Rattle.std.specs.Io.KnownBytes.{Keeps};
ghost use Rattle.rc_text.specs.Joined.{IsTooLong, joined};
ghost use Rattle.rc_text.specs.declared.types.MatchKind.TheVariants.{All as greatest_matches};
ghost use Rattle.rc_captures.specs.Captures.{HasMatch};
ghost use Rattle.rc_captures.specs.Names.{Names};
ghost use Rattle.rc_program.specs.Answer.{Chosen, Search, pattern_of, slot_of};
ghost use Rattle.rc_pikevm_search.specs.Tells.{KeepsAll};
ghost use Rattle.api_meta.specs.Views.{regex_kind};
ghost use Rattle.regex_cursor.specs.Output.{IsWhole};
ghost use Rattle.chunk_replace.specs.declared.error.ReplaceError.TheVariants.{TooLong, Write};
ghost use Rattle.regex_cursor.specs.Put.{Puts};
ghost use Rattle.chunk_replace.specs.Replaced.{matches_of, replaced_by, replacement};
ghost use Rattle.chunk_replace.specs.Template.{template_items};

use crate::error::ReplaceError;
use crate::put::put_parts;
use crate::rewrite::put_replaced;
use crate::template::Template;
use regex_cursor::cursor::ChunkCursor;
use regex_cursor::engines::meta::{Captures, Regex};
use regex_cursor::run::Sink;
use regex_cursor::{Cursor, Input, cursor};
use std::alloc::Global;

/// The chunks, as an input to search and as a cursor to read from.
fn input_over<'a>(
    chunks: &'a [&'a [u8]],
) -> Result<(Input<ChunkCursor<'a>>, ChunkCursor<'a>), cursor::TooLong>
    ensures whole { MatchResult result (λ r. IsWhole (joined chunks.now) r.0)
        (λ _. IsTooLong chunks.now) }
    ensures text { IfOk result (λ r. ⟦<ChunkCursor<'static> as Cursor>⟧.content r.1
        ≡ joined chunks.now) }
    ensures short { OnOk result (¬ IsTooLong chunks.now) }
{
    let cursor = ChunkCursor::new(chunks)?;
    Ok((Input::new(cursor), cursor))
}

/// Writes the bytes of the chunks, with each match of the regex replaced by the template. It
/// returns the number of matches.
///
/// The matches are those of `Regex::captures_iter`: replaced text isn't searched again. The bytes
/// of a group come from the chunks; a group that took no part, or that the pattern of the match
/// doesn't have, is empty. The bytes are written a piece of a chunk at a time. It allocates the
/// cache of the search and the captures of one match at a time, however long the text is. The sink
/// must not have failed before.
///
/// It fails with `TooLong` if and only if the number of bytes reaches the greatest `usize`; nothing
/// was written then. It fails with `Write` only if the sink failed in this call. After `Memory` and
/// `Write` the replaced text was written in part, from its start on.
pub fn replace_all<W: Sink>(
    alloc: Global,
    regex: &Regex,
    chunks: &[&[u8]],
    template: &Template<'_>,
    out: &mut W,
) -> Result<usize, ReplaceError>
    requires { W.has_failed out.old ≡ false }
    ensures replaced { regex_kind regex.now ≢ greatest_matches
        → Puts result (W.taken out.old) (W.taken out.new)
        (replaced_by regex.now (template_items template.now) (joined chunks.now)) }
    ensures count { IfOk result (λ n. n ≡ length (matches_of regex.now (joined chunks.now))) }
    ensures too_long { (result ≡ Err TooLong) ↔ IsTooLong chunks.now }
    ensures nothing_put { result ≡ Err TooLong → Keeps (W.taken out.old) (W.taken out.new) }
    ensures ok { OnOk result (W.has_failed out.new ≡ false) }
    ensures unfailed { IfErr result (λ e. e ≢ Write → W.has_failed out.new ≡ false) }
    ensures write_failed { result ≡ Err Write → W.has_failed out.new ≡ true }
{
    let Ok((input, mut text)) = input_over(chunks) else {
        return Err(ReplaceError::TooLong);
    };
    let Ok(mut matches) = regex.captures_iter(alloc, input) else {
        return Err(ReplaceError::Memory);
    };
    put_replaced(out, &mut text, &mut matches, template)
}

/// Writes what the template puts in place of the match that the captures hold: its literal text, and
/// the bytes of its groups. The captures are those of a search of the chunks, and keep all groups. A
/// group that took no part, or that the pattern of the match doesn't have, is empty. It allocates
/// nothing.
///
/// It fails with `TooLong` if and only if the number of bytes in the chunks reaches the greatest
/// `usize`; nothing was written then. It fails with `Write` only if the sink failed in this call.
pub fn replace_match<W: Sink>(
    chunks: &[&[u8]],
    captures: &Captures,
    template: &Template<'_>,
    out: &mut W,
) -> Result<(), ReplaceError>
    ensures replaced { (names : Names) (s : Search) (walk : Chosen) → KeepsAll names captures.now
        → HasMatch captures.now (pattern_of s walk) (slot_of s walk)
        → Puts result (W.taken out.old) (W.taken out.new)
        (replacement (joined chunks.now) names s (template_items template.now) walk) }
    ensures too_long { (result ≡ Err TooLong) ↔ IsTooLong chunks.now }
    ensures nothing_put { result ≡ Err TooLong → Keeps (W.taken out.old) (W.taken out.new) }
    ensures ok { OnOk result (W.has_failed out.new ≡ W.has_failed out.old) }
    ensures write_failed { result ≡ Err Write → W.has_failed out.new ≡ true }
    ensures failed { IfErr result (λ e. e ≢ TooLong → e ≡ Write) }
{
    let Ok(mut text) = ChunkCursor::new(chunks) else {
        return Err(ReplaceError::TooLong);
    };
    put_parts(out, &mut text, template.parts.as_slice(), captures)
}
