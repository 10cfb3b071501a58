//! Streams: the matches of a text that comes in by chunks, which a handle keeps.
ghost use Rattle.std.specs.Prelude.{◌≡◌, ◌≢◌, MatchOption, None, option_map};
ghost use Rattle.searcher.specs.Searching.{Searching};
ghost use Rattle.zorfelith_c.specs.Statuses.{done, empty, short};
ghost use Rattle.zorfelith_c.specs.Streams.{OfStream, TellsFed, TellsFinished, TellsKept, TellsLimited, TellsNew, TellsNext};

use crate::handle::Handle;
use crate::replace::put_bytes;
use crate::status::{DONE, EMPTY, FINISHED, FOUND, LIMIT, MEMORY, NO_STREAM, TOO_LONG};
use searcher::{MatchAt, OwnedStream, Searcher};
use std::alloc::Global;
use stream_search::{FeedError, StreamSearcherOf};

/// The bytes that a stream keeps: how many, and where the first of them stands in the stream.
#[repr(C)]
#[derive(Clone, Copy)]
pub struct Kept {
    /// How many bytes of the stream were let go.
    pub start: usize,
    /// How many are kept.
    pub len: usize,
}

/// Begins a search of a stream of which nothing has come yet, and keeps it in the handle in place of
/// another one. It has no limit to the bytes that it keeps. The status is `DONE`; or `MEMORY`, and
/// all is unchanged.
#[unsafe(no_mangle)]
pub extern "C" fn zf_stream_new(alloc: Global, handle: &mut Handle) -> u32
    ensures { MatchOption handle.old.held.value
        ((result ≡ empty) × (handle.new.held.value ≡ None))
        (λ s. MatchOption handle.new.held.value ⊥ (TellsNew s result)) }
{
    if !handle.is_full() {
        return EMPTY;
    }
    let mut held = handle.take(alloc);
    let status = begin(alloc, &mut held);
    *handle = Handle::of(held);
    status
}

/// Lets the stream keep at most so many bytes: `DONE` or `NO_STREAM`.
#[unsafe(no_mangle)]
pub extern "C" fn zf_stream_limit(alloc: Global, handle: &mut Handle, limit: usize) -> u32
    ensures { MatchOption handle.old.held.value
        ((result ≡ empty) × (handle.new.held.value ≡ None))
        (λ s. MatchOption handle.new.held.value ⊥
        (λ t. OfStream s result t (TellsLimited limit result))) }
{
    if !handle.is_full() {
        return EMPTY;
    }
    let mut held = handle.take(alloc);
    let status = match held.take_stream() {
        Some(mut stream) => {
            stream.set_limit(limit);
            held.keep_stream(Some(stream));
            DONE
        }
        None => NO_STREAM,
    };
    *handle = Handle::of(held);
    status
}

/// Feeds the next bytes of the stream. Before, those are let go that no search needs. If the status
/// isn't `DONE`, nothing of the chunk was taken, and it is the first of these that applies:
/// `FINISHED`; `TOO_LONG`, if the stream would have as many bytes as the greatest number; `LIMIT`,
/// if it would keep more bytes than its limit; `MEMORY`. It is `NO_STREAM` if there is none.
#[unsafe(no_mangle)]
pub extern "C" fn zf_stream_feed(alloc: Global, handle: &mut Handle, chunk: &[u8]) -> u32
    ensures { MatchOption handle.old.held.value
        ((result ≡ empty) × (handle.new.held.value ≡ None))
        (λ s. MatchOption handle.new.held.value ⊥
        (λ t. OfStream s result t (TellsFed chunk.now result))) }
{
    if !handle.is_full() {
        return EMPTY;
    }
    let mut held = handle.take(alloc);
    let status = match held.take_stream() {
        Some(mut stream) => {
            let status = feed(&mut stream, chunk);
            held.keep_stream(Some(stream));
            status
        }
        None => NO_STREAM,
    };
    *handle = Handle::of(held);
    status
}

/// Finds the next match of the stream that nothing that follows can change: `FOUND`, and it is
/// written; `DONE`, if more has to be fed first, or the stream is finished and no match is left; or
/// `NO_STREAM`.
#[unsafe(no_mangle)]
pub extern "C" fn zf_stream_next(alloc: Global, handle: &mut Handle, found: &mut MatchAt) -> u32
    ensures answered { MatchOption handle.old.held.value
        ((result ≡ empty) × (handle.new.held.value ≡ None))
        (λ s. MatchOption handle.new.held.value ⊥
        (λ t. OfStream s result t (TellsNext result found.new))) }
    ensures unwritten { result ≢ 1 → found.new ≡ found.old }
{
    if !handle.is_full() {
        return EMPTY;
    }
    let mut held = handle.take(alloc);
    let status = match held.take_stream() {
        Some(mut stream) => {
            let status = put_next(&mut stream, found);
            held.keep_stream(Some(stream));
            status
        }
        None => NO_STREAM,
    };
    *handle = Handle::of(held);
    status
}

/// Says that no more follows: `DONE` or `NO_STREAM`. From then on `zf_stream_next` finds all that is
/// left.
#[unsafe(no_mangle)]
pub extern "C" fn zf_stream_finish(alloc: Global, handle: &mut Handle) -> u32
    ensures { MatchOption handle.old.held.value
        ((result ≡ empty) × (handle.new.held.value ≡ None))
        (λ s. MatchOption handle.new.held.value ⊥
        (λ t. OfStream s result t (TellsFinished result))) }
{
    if !handle.is_full() {
        return EMPTY;
    }
    let mut held = handle.take(alloc);
    let status = match held.take_stream() {
        Some(mut stream) => {
            stream.finish();
            held.keep_stream(Some(stream));
            DONE
        }
        None => NO_STREAM,
    };
    *handle = Handle::of(held);
    status
}

/// Writes how many bytes the stream keeps, and where they begin; and the bytes, if there is room for
/// them. The status is `DONE`; `SHORT`, if there isn't; or `NO_STREAM`.
#[unsafe(no_mangle)]
pub extern "C" fn zf_stream_kept(
    alloc: Global,
    handle: &mut Handle,
    bytes: &mut [u8],
    kept: &mut Kept,
) -> u32
    ensures answered { MatchOption handle.old.held.value
        ((result ≡ empty) × (handle.new.held.value ≡ None))
        (λ s. MatchOption handle.new.held.value ⊥
        (λ t. OfStream s result t (TellsKept result bytes.new kept.new))) }
    ensures unwritten { result ≢ done → bytes.new ≡ bytes.old }
    ensures unmeasured { result ≢ done → result ≢ short → kept.new ≡ kept.old }
{
    if !handle.is_full() {
        return EMPTY;
    }
    let mut held = handle.take(alloc);
    let status = match held.take_stream() {
        Some(stream) => {
            let status = put_kept(&stream, bytes, kept);
            held.keep_stream(Some(stream));
            status
        }
        None => NO_STREAM,
    };
    *handle = Handle::of(held);
    status
}

/// Ends the search of the stream, if there is one, and frees what it keeps.
#[unsafe(no_mangle)]
pub extern "C" fn zf_stream_free(alloc: Global, handle: &mut Handle) -> u32
    ensures answered { MatchOption handle.old.held.value (result ≡ empty) (λ _. result ≡ done) }
    ensures left { handle.new.held.value
        ≡ option_map (λ (s : Searching). record s { stream = None }) handle.old.held.value }
{
    if !handle.is_full() {
        return EMPTY;
    }
    let mut held = handle.take(alloc);
    held.keep_stream(None);
    *handle = Handle::of(held);
    DONE
}

/// Begins a search of a stream, and returns the status.
fn begin(alloc: Global, searcher: &mut Searcher) -> u32
    ensures { TellsNew searcher.old result searcher.new }
{
    let Ok(finder) = searcher.finder(alloc) else {
        return MEMORY;
    };
    searcher.keep_stream(Some(StreamSearcherOf::over(alloc, finder)));
    DONE
}

/// Feeds the chunk, and returns the status.
fn feed(stream: &mut OwnedStream, chunk: &[u8]) -> u32
    ensures { TellsFed chunk.now result stream.old stream.new }
{
    match stream.feed(chunk) {
        Ok(()) => DONE,
        Err(FeedError::Finished) => FINISHED,
        Err(FeedError::TooLong) => TOO_LONG,
        Err(FeedError::Limit) => LIMIT,
        Err(FeedError::Memory) => MEMORY,
    }
}

/// Writes the next match of the stream, and returns the status.
fn put_next(stream: &mut OwnedStream, found: &mut MatchAt) -> u32
    ensures answered { TellsNext result found.new stream.old stream.new }
    ensures unwritten { result ≢ 1 → found.new ≡ found.old }
{
    match stream.next_match() {
        Some(m) => {
            *found = MatchAt::of(m);
            FOUND
        }
        None => DONE,
    }
}

/// Writes the bytes that the stream keeps, and where they begin, and returns the status.
fn put_kept(stream: &OwnedStream, bytes: &mut [u8], kept: &mut Kept) -> u32
    ensures answered { TellsKept result bytes.new kept.new stream.now stream.now }
    ensures unwritten { result ≢ done → bytes.new ≡ bytes.old }
{
    *kept = Kept {
        start: stream.kept_start(),
        len: stream.kept_len(),
    };
    put_bytes(stream.kept(), bytes)
}
