//! Live lists: the matches of a text that a handle keeps, and edits of the text.
ghost use Rattle.std.specs.Prelude.{◌≡◌, ◌≢◌, IfSome, MatchOption, None, option_map};
ghost use Rattle.rc_text.specs.Joined.{joined};
ghost use Rattle.searcher.specs.Lives.{IsEditOf};
ghost use Rattle.searcher.specs.Places.{found_at};
ghost use Rattle.searcher.specs.Searching.{Searching};
ghost use Rattle.zorfelith_c.specs.Lives.{TellsEdit, TellsIndexed, TellsLen, TellsNew, TellsNext, TellsPrevious, TellsWindow, changed_by, edit_of};
ghost use Rattle.zorfelith_c.specs.Statuses.{done, empty};

use crate::handle::Handle;
use crate::status::{DONE, EMPTY, FOUND, MEMORY, MISFIT, NO_LIST, OUTSIDE, TOO_LONG};
use live_matches::{Changed, Edit};
use rc_text::types::{Match, Span};
use searcher::{ListFault, MatchAt, Searcher, fill_window};
use std::alloc::Global;

/// What an edit of its text changed in a list: of its matches, `dropped` went from the index `first`
/// on, and `added` came in their place. The bytes from `start` to `end` of the text as it is now are
/// to be drawn anew.
#[repr(C)]
#[derive(Clone, Copy)]
pub struct Change {
    /// The number of matches before those that changed.
    pub first: usize,
    /// The number of matches that went.
    pub dropped: usize,
    /// The number of matches that came.
    pub added: usize,
    /// Where the bytes to draw anew begin.
    pub start: usize,
    /// Where they end, exclusive.
    pub end: usize,
}

impl Change {
    ghost use Rattle.std.specs.Prelude.{◌≡◌};
    ghost use Rattle.zorfelith_c.specs.Lives.{changed_by};

    /// Returns the change as plain numbers.
    pub(crate) fn of(changed: Changed) -> Change
        ensures { changed_by result ≡ changed }
    {
        Change {
            first: changed.first,
            dropped: changed.dropped,
            added: changed.added,
            start: changed.span.start,
            end: changed.span.end,
        }
    }
}

/// Makes the list of all matches of the text, and keeps it in the handle in place of another one.
/// The status is `DONE`; `TOO_LONG`, and the list stays; or `MEMORY`, and there is none.
#[unsafe(no_mangle)]
pub extern "C" fn zf_live_new(alloc: Global, handle: &mut Handle, chunks: &[&[u8]]) -> u32
    ensures { MatchOption handle.old.held.value
        ((result ≡ empty) × (handle.new.held.value ≡ None))
        (λ s. TellsNew s chunks.now result handle.new.held.value) }
{
    if !handle.is_full() {
        return EMPTY;
    }
    let mut held = handle.take(alloc);
    let answer = held.live_new(alloc, chunks);
    *handle = Handle::of(held);
    match answer {
        Ok(()) => DONE,
        Err(ListFault::NoList) => NO_LIST,
        Err(ListFault::Outside) => OUTSIDE,
        Err(ListFault::TooLong) => TOO_LONG,
        Err(ListFault::Misfit) => MISFIT,
        Err(ListFault::Memory) => MEMORY,
    }
}

/// Keeps the list under an edit of its text: the bytes from `start` to `end` were replaced by
/// `inserted` others. The chunks are the text as it is now. If the lengths fit, this has to be so.
///
/// The status is `DONE`, and `change` is written; `NO_LIST`; `OUTSIDE`, if the edit isn't one of the
/// list's text; `TOO_LONG`; `MISFIT`, if the text doesn't have the length that the edit gives; or
/// `MEMORY`, and then there is no list any more.
#[unsafe(no_mangle)]
pub extern "C" fn zf_live_edit(
    alloc: Global,
    handle: &mut Handle,
    start: usize,
    end: usize,
    inserted: usize,
    chunks: &[&[u8]],
    change: &mut Change,
) -> u32
    requires { IfSome handle.old.held.value (λ s. IfSome s.live
        (IsEditOf s.regex (edit_of start end inserted) (joined chunks.now))) }
    ensures answered { MatchOption handle.old.held.value
        ((result ≡ empty) × (handle.new.held.value ≡ None))
        (λ s. TellsEdit s (edit_of start end inserted) chunks.now result change.new
        handle.new.held.value) }
    ensures unwritten { result ≢ done → change.new ≡ change.old }
{
    if !handle.is_full() {
        return EMPTY;
    }
    let mut held = handle.take(alloc);
    let edit = Edit {
        replaced: Span { start, end },
        inserted,
    };
    let answer = held.live_edit(edit, chunks);
    *handle = Handle::of(held);
    match answer {
        Ok(changed) => {
            *change = Change::of(changed);
            DONE
        }
        Err(ListFault::NoList) => NO_LIST,
        Err(ListFault::Outside) => OUTSIDE,
        Err(ListFault::TooLong) => TOO_LONG,
        Err(ListFault::Misfit) => MISFIT,
        Err(ListFault::Memory) => MEMORY,
    }
}

/// Drops the list, if there is one.
#[unsafe(no_mangle)]
pub extern "C" fn zf_live_free(alloc: Global, handle: &mut Handle) -> u32
    ensures answered { MatchOption handle.old.held.value (result ≡ empty) (λ _. result ≡ done) }
    ensures left { handle.new.held.value
        ≡ option_map (λ (s : Searching). record s { live = None }) handle.old.held.value }
{
    if !handle.is_full() {
        return EMPTY;
    }
    let mut held = handle.take(alloc);
    held.live_free();
    *handle = Handle::of(held);
    DONE
}

/// Writes the number of matches of the list: `DONE` or `NO_LIST`.
#[unsafe(no_mangle)]
pub extern "C" fn zf_live_len(alloc: Global, handle: &mut Handle, len: &mut usize) -> u32
    ensures answered { MatchOption handle.old.held.value (result ≡ empty)
        (λ s. TellsLen s result len.new) }
    ensures unwritten { result ≢ done → len.new ≡ len.old }
    ensures kept { handle.new.held.value ≡ handle.old.held.value }
{
    if !handle.is_full() {
        return EMPTY;
    }
    let held = handle.take(alloc);
    let status = match held.live() {
        Some(live) => {
            *len = live.len();
            DONE
        }
        None => NO_LIST,
    };
    *handle = Handle::of(held);
    status
}

/// Finds the match of the list with an index, from 0 on: `FOUND`, and the match is written; `DONE`,
/// if there are no more; or `NO_LIST`.
#[unsafe(no_mangle)]
pub extern "C" fn zf_live_get(
    alloc: Global,
    handle: &mut Handle,
    index: usize,
    found: &mut MatchAt,
) -> u32
    ensures answered { MatchOption handle.old.held.value (result ≡ empty)
        (λ s. TellsIndexed s index result found.new) }
    ensures unwritten { result ≢ 1 → found.new ≡ found.old }
    ensures kept { handle.new.held.value ≡ handle.old.held.value }
{
    if !handle.is_full() {
        return EMPTY;
    }
    let held = handle.take(alloc);
    let status = match held.live() {
        Some(live) => put_match(live.get(index), found),
        None => NO_LIST,
    };
    *handle = Handle::of(held);
    status
}

/// Finds the first match of the list that begins at a place or later. Statuses as `zf_live_get`.
#[unsafe(no_mangle)]
pub extern "C" fn zf_live_next(
    alloc: Global,
    handle: &mut Handle,
    place: usize,
    found: &mut MatchAt,
) -> u32
    ensures answered { MatchOption handle.old.held.value (result ≡ empty)
        (λ s. TellsNext s place result found.new) }
    ensures unwritten { result ≢ 1 → found.new ≡ found.old }
    ensures kept { handle.new.held.value ≡ handle.old.held.value }
{
    if !handle.is_full() {
        return EMPTY;
    }
    let held = handle.take(alloc);
    let status = put_next(&held, place, found);
    *handle = Handle::of(held);
    status
}

/// Finds the last match of the list that begins before a place. Statuses as `zf_live_get`.
#[unsafe(no_mangle)]
pub extern "C" fn zf_live_previous(
    alloc: Global,
    handle: &mut Handle,
    place: usize,
    found: &mut MatchAt,
) -> u32
    ensures answered { MatchOption handle.old.held.value (result ≡ empty)
        (λ s. TellsPrevious s place result found.new) }
    ensures unwritten { result ≢ 1 → found.new ≡ found.old }
    ensures kept { handle.new.held.value ≡ handle.old.held.value }
{
    if !handle.is_full() {
        return EMPTY;
    }
    let held = handle.take(alloc);
    let status = put_previous(&held, place, found);
    *handle = Handle::of(held);
    status
}

/// Fills the batch with the first matches of the list that touch the bytes from `start` to `end`,
/// and writes how many there are. If the batch isn't full, no more touch them.
#[unsafe(no_mangle)]
pub extern "C" fn zf_live_window(
    alloc: Global,
    handle: &mut Handle,
    start: usize,
    end: usize,
    batch: &mut [MatchAt],
    count: &mut usize,
) -> u32
    ensures answered { MatchOption handle.old.held.value (result ≡ empty)
        (λ s. TellsWindow s start end result batch.new count.new) }
    ensures unfilled { result ≢ done → batch.new ≡ batch.old }
    ensures unwritten { result ≢ done → count.new ≡ count.old }
    ensures kept { handle.new.held.value ≡ handle.old.held.value }
{
    if !handle.is_full() {
        return EMPTY;
    }
    let held = handle.take(alloc);
    let status = match held.live() {
        Some(live) => {
            *count = fill_window(live, Span { start, end }, batch);
            DONE
        }
        None => NO_LIST,
    };
    *handle = Handle::of(held);
    status
}

/// Writes the first match of the list that begins at a place or later, and returns the status.
fn put_next(searcher: &Searcher, place: usize, found: &mut MatchAt) -> u32
    ensures answered { TellsNext searcher.now place result found.new }
    ensures unwritten { result ≢ 1 → found.new ≡ found.old }
{
    let Some(live) = searcher.live() else {
        return NO_LIST;
    };
    put_match(live.next_from(place), found)
}

/// Writes the last match of the list that begins before a place, and returns the status.
fn put_previous(searcher: &Searcher, place: usize, found: &mut MatchAt) -> u32
    ensures answered { TellsPrevious searcher.now place result found.new }
    ensures unwritten { result ≢ 1 → found.new ≡ found.old }
{
    let Some(live) = searcher.live() else {
        return NO_LIST;
    };
    put_match(live.previous_from(place), found)
}

/// Writes the match, if there is one, and returns the status.
fn put_match(there: Option<Match>, found: &mut MatchAt) -> u32
    ensures found { MatchOption there (result ≡ 0) (λ m. (result ≡ 1) × (found_at found.new ≡ m)) }
    ensures unwritten { result ≢ 1 → found.new ≡ found.old }
{
    match there {
        Some(m) => {
            *found = MatchAt::of(m);
            FOUND
        }
        None => DONE,
    }
}
