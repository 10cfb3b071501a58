//! Replacement loop: match by match, put into a sink.
ghost use Rattle.std.specs.Prelude.{◌≡◌, ◌≢◌, ◌++◌, ◌<◌, ◌^◌, drop, false, length, slice_range, true, Err, IfErr, IfOk, OnOk};
ghost use Rattle.rc_text.specs.declared.types.MatchKind.TheVariants.{All as greatest_matches};
ghost use Rattle.api_meta.specs.Left.{captures_left, captures_regex, captures_walks};
ghost use Rattle.api_meta.specs.Views.{regex_kind, regex_names};
ghost use Rattle.chunk_replace.specs.declared.error.ReplaceError.TheVariants.{Memory, Write};
ghost use Rattle.regex_cursor.specs.Put.{Puts};
ghost use Rattle.chunk_replace.specs.Replaced.{replaced_from, replacement};
ghost use Rattle.chunk_replace.specs.Template.{template_items};
ghost use Rattle.chunk_replace.specs.Told.{searched, told_parts};

use crate::error::ReplaceError;
use crate::put::{put_parts, put_range};
use crate::template::{Part, Template};
use regex_cursor::Cursor;
use regex_cursor::engines::meta::{Captures, CapturesMatches};
use regex_cursor::run::Sink;
use regex_cursor::types::Match;

/// Writes the bytes of the content from `from` to a match, and the parts that replace it. It
/// returns where the match ends.
fn put_match<W: Sink, C: Cursor>(
    out: &mut W,
    text: &mut C,
    from: usize,
    found: Match,
    parts: &[Part<'_>],
    caps: &Captures,
) -> Result<usize, ReplaceError>
    ensures content { C.content text.new ≡ C.content text.old }
    ensures put { Puts result (W.taken out.old) (W.taken out.new)
        (slice_range (C.content text.old) from found.start
        ++ told_parts (C.content text.old) caps.now parts.now) }
    ensures end { IfOk result (λ n. n ≡ found.end) }
    ensures ok { OnOk result (W.has_failed out.new ≡ W.has_failed out.old) }
    ensures err { IfErr result (λ e. (e ≡ Write) × (W.has_failed out.new ≡ true)) }
{
    put_range(out, text, from, found.start())?;
    put_parts(out, text, parts, caps)?;
    Ok(found.end())
}

/// Writes the bytes of the content from `from` on.
fn put_rest<W: Sink, C: Cursor>(out: &mut W, text: &mut C, from: usize) -> Result<(), ReplaceError>
    ensures put { Puts result (W.taken out.old) (W.taken out.new) (drop from (C.content text.old)) }
    ensures ok { OnOk result (W.has_failed out.new ≡ W.has_failed out.old) }
    ensures err { IfErr result (λ e. (e ≡ Write) × (W.has_failed out.new ≡ true)) }
{
    // A call that tells the prover that the content has fewer bytes than `usize::MAX`.
    let _offset = text.offset();
    put_range(out, text, from, usize::MAX)
}

/// Writes the text with the matches replaced, and returns the number of matches.
pub(crate) fn put_replaced<W: Sink, C: Cursor + Drop, T: Cursor>(
    out: &mut W,
    text: &mut T,
    matches: &mut CapturesMatches<'_, C>,
    template: &Template<'_>,
) -> Result<usize, ReplaceError>
    requires sound { W.has_failed out.old ≡ false }
    requires short { length (captures_left matches.old) < 2 ^ 64 }
    ensures put { regex_kind (captures_regex matches.old) ≢ greatest_matches
        → Puts result (W.taken out.old) (W.taken out.new)
        (replaced_from (T.content text.old)
        (replacement (T.content text.old) (regex_names (captures_regex matches.old))
        (searched matches.old) (template_items template.now)) 0
        (captures_walks matches.old)) }
    ensures count { IfOk result (λ n. n ≡ length (captures_left matches.old)) }
    ensures ok { OnOk result (W.has_failed out.new ≡ false) }
    ensures unfailed { IfErr result (λ e. e ≢ Write → (e ≡ Memory)
        × (W.has_failed out.new ≡ false)) }
    ensures write_failed { result ≡ Err Write → W.has_failed out.new ≡ true }
{
    let parts = template.parts.as_slice();
    let mut from = 0;
    let mut count = 0;
    while let Some(item) = matches.next() {
        let Ok(caps) = item else {
            return Err(ReplaceError::Memory);
        };
        let found = caps.get_match().unwrap();
        from = put_match(out, text, from, found, parts, &caps)?;
        count += 1;
    }
    put_rest(out, text, from)?;
    Ok(count)
}
