//! Steps: a search in slices, which a handle keeps between calls.
ghost use Rattle.std.specs.Prelude.{◌≡◌, ◌≢◌, MatchOption, None, option_map};
ghost use Rattle.searcher.specs.Searching.{Searching};
ghost use Rattle.zorfelith_c.specs.Statuses.{done, empty};
ghost use Rattle.zorfelith_c.specs.Steps.{OfStepper, TellsBegun, TellsNew, TellsPosition, TellsSlice};

use crate::handle::Handle;
use crate::status::{DONE, EMPTY, FOUND, MEMORY, MORE_AFTER, NO_STEPPER, TOO_LONG};
use rc_text::chunks::ChunkCursor;
use searcher::{MatchAt, OwnedStepper, Searcher};
use std::alloc::Global;
use stream_search::{Progress, StepperOf};

/// Makes a search in slices, from `start` on, and keeps it in the handle in place of another one.
/// Nothing is searched yet. The status is `DONE`; or `MEMORY`, and all is unchanged.
#[unsafe(no_mangle)]
pub extern "C" fn zf_step_new(alloc: Global, handle: &mut Handle, start: usize) -> u32
    ensures { MatchOption handle.old.held.value
        ((result ≡ empty) × (handle.new.held.value ≡ None))
        (λ s. MatchOption handle.new.held.value ⊥ (TellsNew start s result)) }
{
    if !handle.is_full() {
        return EMPTY;
    }
    let mut held = handle.take(alloc);
    let status = make(alloc, &mut held, start);
    *handle = Handle::of(held);
    status
}

/// Begins another search, from `start` on, in place of the one that is under way: `DONE` or
/// `NO_STEPPER`. It takes no memory.
#[unsafe(no_mangle)]
pub extern "C" fn zf_step_start(alloc: Global, handle: &mut Handle, start: usize) -> u32
    ensures { MatchOption handle.old.held.value
        ((result ≡ empty) × (handle.new.held.value ≡ None))
        (λ s. MatchOption handle.new.held.value ⊥
        (λ t. OfStepper s result t (TellsBegun start result))) }
{
    if !handle.is_full() {
        return EMPTY;
    }
    let mut held = handle.take(alloc);
    let status = match held.take_stepper() {
        Some(mut stepper) => {
            stepper.start(start);
            held.keep_stepper(Some(stepper));
            DONE
        }
        None => NO_STEPPER,
    };
    *handle = Handle::of(held);
    status
}

/// Searches `budget` bytes more of the text: `FOUND`, and the match is written; `DONE`, if there is
/// none from the start on; `MORE_AFTER`, if more bytes decide it; `TOO_LONG`; or `NO_STEPPER`.
#[unsafe(no_mangle)]
pub extern "C" fn zf_step_resume(
    alloc: Global,
    handle: &mut Handle,
    chunks: &[&[u8]],
    budget: usize,
    found: &mut MatchAt,
) -> u32
    ensures answered { MatchOption handle.old.held.value
        ((result ≡ empty) × (handle.new.held.value ≡ None))
        (λ s. MatchOption handle.new.held.value ⊥
        (λ t. OfStepper s result t (TellsSlice chunks.now budget result found.new))) }
    ensures unwritten { result ≢ 1 → found.new ≡ found.old }
{
    if !handle.is_full() {
        return EMPTY;
    }
    let mut held = handle.take(alloc);
    let status = match held.take_stepper() {
        Some(mut stepper) => {
            let status = resume(&mut stepper, chunks, budget, found);
            held.keep_stepper(Some(stepper));
            status
        }
        None => NO_STEPPER,
    };
    *handle = Handle::of(held);
    status
}

/// Writes how many bytes of the text were looked at, or where the search began: `DONE` or
/// `NO_STEPPER`.
#[unsafe(no_mangle)]
pub extern "C" fn zf_step_position(alloc: Global, handle: &mut Handle, position: &mut usize) -> u32
    ensures answered { MatchOption handle.old.held.value
        ((result ≡ empty) × (handle.new.held.value ≡ None))
        (λ s. MatchOption handle.new.held.value ⊥
        (λ t. OfStepper s result t (TellsPosition result position.new))) }
    ensures unwritten { result ≢ done → position.new ≡ position.old }
{
    if !handle.is_full() {
        return EMPTY;
    }
    let mut held = handle.take(alloc);
    let status = match held.take_stepper() {
        Some(stepper) => {
            *position = stepper.position();
            held.keep_stepper(Some(stepper));
            DONE
        }
        None => NO_STEPPER,
    };
    *handle = Handle::of(held);
    status
}

/// Ends the search in slices, if there is one, and frees its cache.
#[unsafe(no_mangle)]
pub extern "C" fn zf_step_free(alloc: Global, handle: &mut Handle) -> u32
    ensures answered { MatchOption handle.old.held.value (result ≡ empty) (λ _. result ≡ done) }
    ensures left { handle.new.held.value
        ≡ option_map (λ (s : Searching). record s { stepper = None }) handle.old.held.value }
{
    if !handle.is_full() {
        return EMPTY;
    }
    let mut held = handle.take(alloc);
    held.keep_stepper(None);
    *handle = Handle::of(held);
    DONE
}

/// Makes a search in slices, and returns the status.
fn make(alloc: Global, searcher: &mut Searcher, start: usize) -> u32
    ensures { TellsNew start searcher.old result searcher.new }
{
    let Ok(finder) = searcher.finder(alloc) else {
        return MEMORY;
    };
    searcher.keep_stepper(Some(StepperOf::over(finder, start)));
    DONE
}

/// Searches a slice more, and returns the status.
fn resume(stepper: &mut OwnedStepper, chunks: &[&[u8]], budget: usize, found: &mut MatchAt) -> u32
    ensures answered { TellsSlice chunks.now budget result found.new stepper.old stepper.new }
    ensures unwritten { result ≢ 1 → found.new ≡ found.old }
{
    let Ok(cursor) = ChunkCursor::new(chunks) else {
        return TOO_LONG;
    };
    match stepper.resume(cursor, budget) {
        Progress::Done(Some(m)) => {
            *found = MatchAt::of(m);
            FOUND
        }
        Progress::Done(None) => DONE,
        Progress::NotYet => MORE_AFTER,
    }
}
