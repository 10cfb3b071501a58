//! Typing: edits at the caret, and a list of matches that follows them.
ghost use Rattle.std.specs.Prelude.{◌≡◌, IfErr, IfOk, IfSome, MatchResult};
ghost use Rattle.gap_buffer.specs.Typed.{IsUntyped, edit_of, typed};
ghost use Rattle.live_matches.specs.Drawn.{IsDrawn};
ghost use Rattle.live_matches.specs.Lists.{IsChanged};
ghost use Rattle.live_matches.specs.Live.{IsCacheOf, IsEdited, IsLive, listed};
ghost use Rattle.live_matches.specs.Quiet.{IsLongest};

use crate::buffer::GapBuffer;
use live_matches::{Changed, Edit, LiveMatches, whole_input};
use regex_cursor::engines::meta::{Cache, Regex};
use regex_cursor::types::Span;
use std::alloc::AllocError;

/// Types over a text: bytes come in place of `deleted` bytes after the caret, or of all if there
/// are fewer. The caret is behind them then. Returns this as an edit for a live list. An `Err`
/// means out of memory, and leaves the text unchanged.
pub fn type_over(text: &mut GapBuffer, deleted: usize, bytes: &[u8]) -> Result<Edit, AllocError>
    ensures text { MatchResult result (λ _. text.new ≡ typed text.old deleted bytes.now)
        (λ _. text.new ≡ text.old) }
    ensures edit { IfOk result (λ e. e ≡ edit_of text.old deleted bytes.now) }
    ensures edited { IfOk result (λ e. IsEdited e text.old.content text.new.content) }
{
    let start = text.caret();
    let end = start.saturating_add(deleted).min(text.len());
    text.insert(bytes)?;
    text.delete_after(deleted);
    Ok(Edit {
        replaced: Span { start, end },
        inserted: bytes.len(),
    })
}

/// Types over a text as `type_over` does, and keeps the list of its matches. `longest` is the
/// greatest length of a match, if it is known. The matches on the screen are those of
/// `live.matches_in` then. An `Err` means out of memory: nothing changed, or the text did, and the
/// list is stale.
pub fn type_live(
    text: &mut GapBuffer,
    deleted: usize,
    bytes: &[u8],
    live: &mut LiveMatches,
    longest: Option<usize>,
    regex: &Regex,
    cache: &mut Cache,
) -> Result<Changed, AllocError>
    requires made { IsCacheOf regex.now cache.old }
    requires longest { IfSome longest (IsLongest regex.now) }
    requires live { IsLive regex.now text.old.content live.old }
    ensures cache { IsCacheOf regex.now cache.new }
    ensures text { IfOk result (λ _. text.new ≡ typed text.old deleted bytes.now) }
    ensures live { IfOk result (λ _. IsLive regex.now text.new.content live.new) }
    ensures changed { IfOk result (IsChanged (edit_of text.old deleted bytes.now)
        live.old.entries live.new.entries) }
    ensures drawn { IfOk result (λ c. IsDrawn (edit_of text.old deleted bytes.now)
        (listed live.old) (listed live.new) c.span) }
    ensures untyped { IfErr result (λ _. IsUntyped text.old deleted bytes.now text.new
        live.old live.new) }
{
    let edit = type_over(text, deleted, bytes)?;
    let mut input = whole_input(text.cursor());
    live.edit_within(regex, cache, edit, &mut input, longest)
}
