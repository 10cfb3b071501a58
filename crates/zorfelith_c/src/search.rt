//! Search calls.
ghost use Rattle.std.specs.Prelude.{◌≡◌, ◌≢◌, MatchOption, None, Some, if◌then◌else◌, option_map};
ghost use Rattle.searcher.specs.Flags.{is_on};
ghost use Rattle.searcher.specs.Searching.{Searching};
ghost use Rattle.zorfelith_c.specs.Tells.{LeavesGroups, TellsBatch, TellsLast, TellsMarks, TellsMatch, TellsMatchAt, TellsPartial, TellsWhether};
ghost use Rattle.zorfelith_c.specs.Statuses.{done, empty};

use crate::handle::Handle;
use crate::status::{DONE, EMPTY, FOUND, OUTSIDE, TOO_LONG};
use api_meta::partial::Partial;
use searcher::{Fault, GroupAt, MatchAt, MemoryParts};
use std::alloc::Global;

/// How far an iteration has come.
#[repr(C)]
#[derive(Clone, Copy)]
pub struct Progress {
    /// The number of matches that the call wrote.
    pub count: usize,
    /// Where the next search begins, in bytes of the text.
    pub next: usize,
}

/// Tests whether there is a match in the text from `start` to `end`: `FOUND` or `DONE`.
#[unsafe(no_mangle)]
pub extern "C" fn zf_is_match(
    alloc: Global,
    handle: &mut Handle,
    chunks: &[&[u8]],
    start: usize,
    end: usize,
) -> u32
    ensures answered { MatchOption handle.old.held.value (result ≡ empty)
        (λ s. TellsWhether s.regex chunks.now start end result) }
    ensures kept { handle.new.held.value ≡ handle.old.held.value }
{
    if !handle.is_full() {
        return EMPTY;
    }
    let mut held = handle.take(alloc);
    let answer = held.is_match(chunks, start, end);
    *handle = Handle::of(held);
    match answer {
        Ok(true) => FOUND,
        Ok(false) => DONE,
        Err(Fault::TooLong) => TOO_LONG,
        Err(Fault::Outside) => OUTSIDE,
    }
}

/// Finds the match in the text from `start` to `end`: `FOUND`, and the match is written, or `DONE`.
#[unsafe(no_mangle)]
pub extern "C" fn zf_find(
    alloc: Global,
    handle: &mut Handle,
    chunks: &[&[u8]],
    start: usize,
    end: usize,
    found: &mut MatchAt,
) -> u32
    ensures answered { MatchOption handle.old.held.value (result ≡ empty)
        (λ s. TellsMatch s.regex chunks.now start end result found.new) }
    ensures unwritten { result ≢ 1 → found.new ≡ found.old }
    ensures kept { handle.new.held.value ≡ handle.old.held.value }
{
    if !handle.is_full() {
        return EMPTY;
    }
    let mut held = handle.take(alloc);
    let answer = held.find(chunks, start, end);
    *handle = Handle::of(held);
    match answer {
        Ok(Some(m)) => {
            *found = MatchAt::of(m);
            FOUND
        }
        Ok(None) => DONE,
        Err(Fault::TooLong) => TOO_LONG,
        Err(Fault::Outside) => OUTSIDE,
    }
}

/// Finds the match in the text that begins at `start` and ends at `end` or before: `FOUND`, and the
/// match is written, or `DONE`.
#[unsafe(no_mangle)]
pub extern "C" fn zf_match_at(
    alloc: Global,
    handle: &mut Handle,
    chunks: &[&[u8]],
    start: usize,
    end: usize,
    found: &mut MatchAt,
) -> u32
    ensures answered { MatchOption handle.old.held.value (result ≡ empty)
        (λ s. TellsMatchAt s.regex chunks.now start end result found.new) }
    ensures unwritten { result ≢ 1 → found.new ≡ found.old }
    ensures kept { handle.new.held.value ≡ handle.old.held.value }
{
    if !handle.is_full() {
        return EMPTY;
    }
    let mut held = handle.take(alloc);
    let answer = held.match_at(chunks, start, end);
    *handle = Handle::of(held);
    match answer {
        Ok(Some(m)) => {
            *found = MatchAt::of(m);
            FOUND
        }
        Ok(None) => DONE,
        Err(Fault::TooLong) => TOO_LONG,
        Err(Fault::Outside) => OUTSIDE,
    }
}

/// Finds the last match of the text from `start` to `end` that begins before `place`: `FOUND`, and
/// the match is written, or `DONE`. The matches are those of an iteration that begins at `start`.
#[unsafe(no_mangle)]
pub extern "C" fn zf_find_last(
    alloc: Global,
    handle: &mut Handle,
    chunks: &[&[u8]],
    start: usize,
    end: usize,
    place: usize,
    found: &mut MatchAt,
) -> u32
    ensures answered { MatchOption handle.old.held.value (result ≡ empty)
        (λ s. TellsLast s.regex chunks.now start end place result found.new) }
    ensures unwritten { result ≢ 1 → found.new ≡ found.old }
    ensures kept { handle.new.held.value ≡ handle.old.held.value }
{
    if !handle.is_full() {
        return EMPTY;
    }
    let mut held = handle.take(alloc);
    let answer = held.find_last(chunks, start, end, place);
    *handle = Handle::of(held);
    match answer {
        Ok(Some(m)) => {
            *found = MatchAt::of(m);
            FOUND
        }
        Ok(None) => DONE,
        Err(Fault::TooLong) => TOO_LONG,
        Err(Fault::Outside) => OUTSIDE,
    }
}

/// Tells what the text from `start` on says of a search, if more bytes may follow it: `FOUND`, and
/// the match that each text has that goes on from this one is written, or `DONE`, and the place is
/// written from which the search has to go on.
#[unsafe(no_mangle)]
pub extern "C" fn zf_find_partial(
    alloc: Global,
    handle: &mut Handle,
    chunks: &[&[u8]],
    start: usize,
    found: &mut MatchAt,
    from: &mut usize,
) -> u32
    ensures answered { MatchOption handle.old.held.value (result ≡ empty)
        (λ s. TellsPartial s.regex chunks.now start result found.new from.new) }
    ensures unwritten { result ≢ 1 → found.new ≡ found.old }
    ensures unplaced { result ≢ done → from.new ≡ from.old }
    ensures kept { handle.new.held.value ≡ handle.old.held.value }
{
    if !handle.is_full() {
        return EMPTY;
    }
    let mut held = handle.take(alloc);
    let answer = held.find_partial(chunks, start);
    *handle = Handle::of(held);
    match answer {
        Ok(partial) => match partial {
            Partial::Final(m) => {
                *found = MatchAt::of(m);
                FOUND
            }
            Partial::From(place) => {
                *from = place;
                DONE
            }
        },
        Err(Fault::TooLong) => TOO_LONG,
        Err(Fault::Outside) => OUTSIDE,
    }
}

/// Finds the match that `zf_find` finds, and writes as many of its groups as there is room for.
/// Without a match each group took no part.
#[unsafe(no_mangle)]
pub extern "C" fn zf_find_groups(
    alloc: Global,
    handle: &mut Handle,
    chunks: &[&[u8]],
    start: usize,
    end: usize,
    found: &mut MatchAt,
    groups: &mut [GroupAt],
) -> u32
    ensures answered { MatchOption handle.old.held.value (result ≡ empty)
        (λ s. TellsMatch s.regex chunks.now start end result found.new) }
    ensures unwritten { result ≢ 1 → found.new ≡ found.old }
    ensures groups { MatchOption handle.old.held.value
        ((handle.new.held.value ≡ None) × (groups.new ≡ groups.old))
        (λ s. LeavesGroups s chunks.now start end result groups.old
        groups.new handle.new.held.value) }
{
    if !handle.is_full() {
        return EMPTY;
    }
    let mut held = handle.take(alloc);
    let answer = held.find_groups(chunks, start, end);
    let status = match answer {
        Ok(Some(m)) => {
            GroupAt::write_all(held.captures(), groups);
            *found = MatchAt::of(m);
            FOUND
        }
        Ok(None) => {
            GroupAt::write_all(held.captures(), groups);
            DONE
        }
        Err(Fault::TooLong) => TOO_LONG,
        Err(Fault::Outside) => OUTSIDE,
    };
    *handle = Handle::of(held);
    status
}

/// Marks which patterns have a match in the text from `start` to `end`: the mark at the number of a
/// pattern is 1 if it has one, and each other mark is 0.
#[unsafe(no_mangle)]
pub extern "C" fn zf_which_patterns(
    alloc: Global,
    handle: &mut Handle,
    chunks: &[&[u8]],
    start: usize,
    end: usize,
    marks: &mut [u8],
) -> u32
    ensures answered { MatchOption handle.old.held.value (result ≡ empty)
        (λ s. TellsMarks s.regex chunks.now start end result marks.new) }
    ensures unwritten { result ≢ done → marks.new ≡ marks.old }
    ensures kept { handle.new.held.value ≡ handle.old.held.value }
{
    if !handle.is_full() {
        return EMPTY;
    }
    let mut held = handle.take(alloc);
    let answer = held.which_patterns(chunks, start, end, marks);
    *handle = Handle::of(held);
    match answer {
        Ok(()) => DONE,
        Err(Fault::TooLong) => TOO_LONG,
        Err(Fault::Outside) => OUTSIDE,
    }
}

/// Begins an iteration at a position. If `follows` isn't 0, a match ended there, so an empty match
/// there is skipped.
#[unsafe(no_mangle)]
pub extern "C" fn zf_restart(alloc: Global, handle: &mut Handle, from: usize, follows: u8) -> u32
    ensures answered { MatchOption handle.old.held.value (result ≡ empty) (λ _. result ≡ done) }
    ensures begun { handle.new.held.value
        ≡ option_map (λ (s : Searching).
        record s {
          from = from;
          last = if is_on follows then Some from
              else None;
        }) handle.old.held.value }
{
    if !handle.is_full() {
        return EMPTY;
    }
    let mut held = handle.take(alloc);
    let last = if follows != 0 { Some(from) } else { None };
    held.restart(from, last);
    *handle = Handle::of(held);
    DONE
}

/// Fills the batch with the next matches of the text, up to `end`. No more are left if the batch
/// isn't full.
#[unsafe(no_mangle)]
pub extern "C" fn zf_next(
    alloc: Global,
    handle: &mut Handle,
    chunks: &[&[u8]],
    end: usize,
    batch: &mut [MatchAt],
    progress: &mut Progress,
) -> u32
    ensures answered { MatchOption handle.old.held.value
        ((result ≡ empty) × (handle.new.held.value ≡ None))
        (λ s. TellsBatch s chunks.now end result batch.new progress.new handle.new.held.value) }
    ensures unwritten { result ≢ done → progress.new ≡ progress.old }
    ensures unfilled { result ≢ done → batch.new ≡ batch.old }
{
    if !handle.is_full() {
        return EMPTY;
    }
    let mut held = handle.take(alloc);
    let answer = held.fill(chunks, end, batch);
    let next = held.place();
    *handle = Handle::of(held);
    match answer {
        Ok(count) => {
            *progress = Progress { count, next };
            DONE
        }
        Err(Fault::TooLong) => TOO_LONG,
        Err(Fault::Outside) => OUTSIDE,
    }
}

/// Writes roughly the number of bytes that the regex and its cache take.
#[unsafe(no_mangle)]
pub extern "C" fn zf_memory(alloc: Global, handle: &mut Handle, bytes: &mut usize) -> u32
    ensures answered { MatchOption handle.old.held.value (result ≡ empty) (λ _. result ≡ done) }
    ensures unwritten { result ≢ done → bytes.new ≡ bytes.old }
    ensures kept { handle.new.held.value ≡ handle.old.held.value }
{
    if !handle.is_full() {
        return EMPTY;
    }
    let held = handle.take(alloc);
    *bytes = held.memory_usage();
    *handle = Handle::of(held);
    DONE
}

/// Writes roughly the number of bytes that the patterns take, and the number that the cache takes.
#[unsafe(no_mangle)]
pub extern "C" fn zf_memory_parts(
    alloc: Global,
    handle: &mut Handle,
    parts: &mut MemoryParts,
) -> u32
    ensures answered { MatchOption handle.old.held.value (result ≡ empty) (λ _. result ≡ done) }
    ensures unwritten { result ≢ done → parts.new ≡ parts.old }
    ensures kept { handle.new.held.value ≡ handle.old.held.value }
{
    if !handle.is_full() {
        return EMPTY;
    }
    let held = handle.take(alloc);
    *parts = held.memory_parts();
    *handle = Handle::of(held);
    DONE
}
