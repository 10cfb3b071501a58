//! Ranges: the entries of a part of a text, and where those of two parts meet.
ghost use Rattle.std.specs.Prelude.{◌≡◌, ◌<◌, ◌≤◌, ℕ, IfOk, IsTrue, Option, Some, length};
ghost use Rattle.api_meta.specs.Views.{regex_kind};
ghost use Rattle.live_matches.specs.Entries.{all_of, last_end};
ghost use Rattle.live_matches.specs.Lists.{AreFirst, place_of};
ghost use Rattle.live_matches.specs.Live.{Goes, IsCacheOf, IsOver, seeks};
ghost use Rattle.live_matches.specs.Ranges.{AreUpTo, MeetsUpTo, begin_of_range};

use crate::entries::{Entries, is_before, place_of};
use crate::search::{is_at, next_entry};
use rc_text::input::content_fits;
use regex_cursor::engines::meta::{Cache, Regex};
use regex_cursor::types::Span;
use regex_cursor::{Cursor, Input};
use std::alloc::AllocError;

/// Where a match would have ended before the range, if it doesn't begin with the text.
pub fn begin_of_range(range: Span) -> Option<usize>
    ensures { result ≡ begin_of_range range }
{
    if range.start == 0 {
        None
    } else {
        Some(range.start)
    }
}

/// Searches on from the last match before the gap, or from `start`, until a match ends at `stop` or
/// later, or where one of the entries after the gap does. These come next then. The mark says where
/// the one before them ends. An `Err` means out of memory.
pub fn search_to<C: Cursor>(
    entries: &mut Entries,
    start: Option<usize>,
    mark: Option<usize>,
    stop: usize,
    regex: &Regex,
    cache: &mut Cache,
    input: &mut Input<C>,
) -> Result<(), AllocError>
    requires made { IsCacheOf regex.now cache.old }
    requires over { IsOver input.old }
    requires len { entries.old.len ≡ length input.old.content }
    requires inside { place_of start ≤ length input.old.content }
    requires first { AreFirst (regex_kind regex.now) (seeks regex.now) input.old.content start
        entries.old.before }
    requires rest { MeetsUpTo (regex_kind regex.now) (seeks regex.now) input.old.content stop mark
        entries.old.after }
    ensures cache { IsCacheOf regex.now cache.new }
    ensures goes { Goes input.old input.new }
    ensures over { IsOver input.new }
    ensures len { IfOk result (λ _. entries.new.len ≡ length input.old.content) }
    ensures all { IfOk result (λ _. AreUpTo (regex_kind regex.now) (seeks regex.now)
        input.old.content stop start (all_of entries.new)) }
{
    let mut last = last_after(entries, start);
    let mut mark = entries.skip_to(mark, place_of(last), 0);
    'to: while is_before(last, stop, 0) {
        if is_met(mark, last) {
            return Ok(());
        }
        let Some(entry) = next_entry(regex, cache, input, last) else {
            entries.drop_after();
            return Ok(());
        };
        let end = entry.end();
        entries.push(entry)?;
        last = Some(end);
        mark = entries.skip_to(mark, end, 0);
    }
    entries.drop_after();
    Ok(())
}

/// Makes the entries of a range those of the text up to its end. They have to be those of the text
/// up to its start. `next` has those of the range. An `Err` means out of memory.
pub fn join<C: Cursor>(
    entries: &mut Entries,
    next: Entries,
    range: Span,
    regex: &Regex,
    cache: &mut Cache,
    input: &mut Input<C>,
) -> Result<(), AllocError>
    requires made { IsCacheOf regex.now cache.old }
    requires over { IsOver input.old }
    requires behind { 0 < range.start }
    requires len { entries.old.len ≡ length input.old.content }
    requires next_len { next.len ≡ length input.old.content }
    requires first { AreFirst (regex_kind regex.now) (seeks regex.now) input.old.content None
        (all_of entries.old) }
    requires next { AreUpTo (regex_kind regex.now) (seeks regex.now) input.old.content range.end
        (Some range.start) (all_of next) }
    ensures cache { IsCacheOf regex.now cache.new }
    ensures goes { Goes input.old input.new }
    ensures over { IsOver input.new }
    ensures len { IfOk result (λ _. entries.new.len ≡ length input.old.content) }
    ensures all { IfOk result (λ _. AreUpTo (regex_kind regex.now) (seeks regex.now)
        input.old.content range.end None (all_of entries.new)) }
{
    let mut next = next;
    entries.settle_to(usize::MAX - 1);
    next.settle_to(0);
    entries.take_after(next)?;
    let mark = Some(range.start);
    search_to(entries, None, mark, range.end, regex, cache, input)
}

/// Where the last match before the gap ends, and `start` if there is none.
fn last_after(entries: &Entries, start: Option<usize>) -> Option<usize>
    ensures { result ≡ last_end start entries.now.before }
{
    match entries.last_end() {
        Some(end) => Some(end),
        None => start,
    }
}

/// Whether the mark is there, and the last match ends there.
fn is_met(mark: Option<usize>, last: Option<usize>) -> bool
    ensures { IsTrue result → (p : ℕ) × (mark ≡ Some p) × (last ≡ Some p) }
{
    match last {
        Some(end) => is_at(mark, end),
        None => false,
    }
}
