//! Typing: changes of a text, and the list that is kept under them.
ghost use Rattle.std.specs.Prelude.{◌≡◌, IfOk, IfSome};
ghost use Rattle.live_matches.specs.Live.{IsCacheOf, IsEdited, IsLive, IsWhole};
ghost use Rattle.live_matches.specs.Quiet.{IsLongest};

use crate::live::{LiveError, Pattern};
use crate::random::Random;
use gap_buffer::{GapBuffer, GapCursor};
use live_matches::{Edit, LiveMatches};
use regex_cursor::Input;
use regex_cursor::engines::meta::{Cache, Regex};
use regex_cursor::types::Span;
use std::alloc::{AllocError, Global};
use std::time::{Duration, Instant};

/// How many bytes a change deletes, and how many it inserts, at most.
pub(crate) const MOST: usize = 40;

/// How many bytes the caret moves between two changes near it, at most.
const FAR: usize = 60;

/// A change of a text.
#[derive(Clone, Copy)]
pub(crate) struct Change<'b> {
    /// Where it is, in bytes of the text.
    place: usize,
    /// The number of bytes that it deletes.
    deleted: usize,
    /// The bytes that it inserts.
    inserted: &'b [u8],
}

/// A random change of the text, near its caret or anywhere. It deletes up to `most` bytes, and
/// inserts up to as many of the source.
pub(crate) fn change_of<'b>(
    random: &mut Random,
    text: &GapBuffer,
    is_near: bool,
    most: usize,
    source: &'b [u8],
) -> Change<'b> {
    let place = if is_near {
        let first = text.caret().saturating_sub(FAR);
        first.saturating_add(random.below(2 * FAR))
    } else {
        random.below(text.len())
    };
    let start = random.below(source.len());
    let end = start
        .saturating_add(random.below(most.saturating_add(1)))
        .min(source.len());
    Change {
        place,
        deleted: random.below(most.saturating_add(1)),
        inserted: &source[start..end],
    }
}

/// The text, as an input from its start on.
pub(crate) fn whole_of(text: &GapBuffer) -> Input<GapCursor<'_>>
    ensures whole { IsWhole result }
    ensures content { result.content ≡ text.now.content }
{
    Input::new(text.cursor())
}

/// Makes the change, and returns it as an edit. An `Err` means out of memory.
fn make(text: &mut GapBuffer, change: &Change<'_>) -> Result<Edit, AllocError>
    ensures { IfOk result (λ edit. IsEdited edit text.old.content text.new.content) }
{
    text.move_to(change.place);
    let start = text.caret();
    let end = start.saturating_add(change.deleted).min(text.len());
    text.delete_after(change.deleted);
    text.insert(change.inserted)?;
    Ok(Edit {
        replaced: Span { start, end },
        inserted: change.inserted.len(),
    })
}

/// Makes the change, and keeps the list. Returns the time that the list takes.
pub(crate) fn keep(
    rt: &HostRuntime,
    pattern: &Pattern,
    cache: &mut Cache,
    text: &mut GapBuffer,
    live: &mut LiveMatches,
    change: &Change<'_>,
) -> Result<Duration, LiveError>
    requires made { IsCacheOf pattern.now.regex cache.old }
    requires longest { IfSome pattern.now.longest (IsLongest pattern.now.regex) }
    requires live { IsLive pattern.now.regex text.old.content live.old }
    ensures made { IfOk result (λ _. IsCacheOf pattern.now.regex cache.new) }
    ensures live { IfOk result (λ _. IsLive pattern.now.regex text.new.content live.new) }
{
    let edit = make(text, change)?;
    let mut input = whole_of(text);
    let start = Instant::now(rt)?;
    let regex = &pattern.regex;
    live.edit_within(regex, cache, edit, &mut input, pattern.longest)?;
    Ok(start.elapsed(rt)?)
}

/// The number of matches of the text that the list doesn't have at their index, and one more if the
/// list goes on behind the last of them.
pub(crate) fn differences(
    alloc: Global,
    regex: &Regex,
    text: &GapBuffer,
    live: &LiveMatches,
) -> Result<usize, AllocError> {
    let mut kept = live.iter();
    let mut count: usize = 0;
    for found in regex.find_iter(alloc, whole_of(text))? {
        if kept.next() != Some(found) {
            count = count.saturating_add(1);
        }
    }
    if kept.next().is_some() {
        count = count.saturating_add(1);
    }
    Ok(count)
}
