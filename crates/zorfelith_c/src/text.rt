//! Prepared texts: chunks with their places, which C keeps, edits and searches.
ghost use Rattle.std.specs.Prelude.{◌≡◌, ◌≢◌, IfSome, MatchOption, None, Some, is_some};
ghost use Rattle.rc_text.specs.Joined.{joined};
ghost use Rattle.searcher.specs.Lives.{IsEditOf};
ghost use Rattle.zorfelith_c.specs.Lives.{TellsEdit, TellsNew, edit_of};
ghost use Rattle.zorfelith_c.specs.Statuses.{done, empty};
ghost use Rattle.zorfelith_c.specs.Tells.{LeavesGroups, TellsBatch, TellsMatch, TellsPartial};
ghost use Rattle.zorfelith_c.specs.Texts.{TellsEdited, TellsMade, TellsOver, status_of};

use crate::handle::Handle;
use crate::held_text::HeldText;
use crate::live::Change;
use crate::search::Progress;
use crate::status::{DONE, EMPTY, FOUND, MEMORY, MISFIT, NO_LIST, OUTSIDE, TOO_LONG};
use api_meta::partial::Partial;
use live_matches::Edit;
use rc_text::types::Span;
use searcher::{
    Bounds, Fault, GroupAt, KeptText, ListFault, MatchAt, box_of_text, free_text, parts_of_text,
};
use std::alloc::Global;
use std::mem::replace;
use text_chunks::EditFault;

/// A prepared text, or none. C makes an empty one of bytes that are 0, and writes nothing to a full
/// one.
///
/// Dropping a full one doesn't free the text, so each call takes it out first.
#[repr(C)]
#[derive(Drop)]
pub struct Text {
    full: bool,
    held: HeldText,
    ghost tied: { full ≡ is_some held.value },
}

impl Text {
    ghost use Rattle.std.specs.Prelude.{◌≡◌, None, Some, false, is_some, true};

    fn empty(alloc: Global) -> Text
        ensures { result.held.value ≡ None }
    {
        Text {
            full: false,
            held: HeldText::none(alloc),
        }
    }

    fn of(text: Box<KeptText>) -> Text
        ensures { result.held.value ≡ Some text.value }
    {
        Text {
            full: true,
            held: HeldText::of_parts(parts_of_text(text)),
        }
    }

    /// Whether it holds a text.
    fn is_full(&self) -> bool
        ensures full { result ≡ true → is_some self.now.held.value ≡ true }
        ensures empty { result ≡ false → self.now.held.value ≡ None }
    {
        self.full
    }

    /// Leaves it empty.
    fn take(&mut self, alloc: Global) -> Box<KeptText>
        requires { is_some self.old.held.value ≡ true }
        ensures left { self.new.held.value ≡ None }
        ensures taken { self.old.held.value ≡ Some result.value }
    {
        let Text { held, .. } = replace(self, Text::empty(alloc));
        box_of_text(held.into_parts())
    }
}

/// Makes the text of these chunks, and frees what was there: `DONE`; or `TOO_LONG` or `MEMORY`, and
/// then it is empty.
#[unsafe(no_mangle)]
pub extern "C" fn zf_text_new(alloc: Global, text: &mut Text, chunks: &[&'static [u8]]) -> u32
    ensures { TellsMade chunks.now result text.new.held.value }
{
    zf_text_free(alloc, text);
    match KeptText::boxed(alloc, chunks) {
        Ok(made) => {
            *text = Text::of(made);
            DONE
        }
        Err(fault) => status_of(fault),
    }
}

/// Frees the text, and leaves it empty.
#[unsafe(no_mangle)]
pub extern "C" fn zf_text_free(alloc: Global, text: &mut Text)
    ensures { text.new.held.value ≡ None }
{
    if text.is_full() {
        free_text(text.take(alloc));
    }
}

/// Replaces the chunks of the text from the index `start` on and before the index `end` by others:
/// `DONE`; or `OUTSIDE`, `TOO_LONG` or `MEMORY`, and the text is unchanged.
#[unsafe(no_mangle)]
pub extern "C" fn zf_text_edit(
    alloc: Global,
    text: &mut Text,
    start: usize,
    end: usize,
    chunks: &[&'static [u8]],
) -> u32
    ensures { MatchOption text.old.held.value
        ((result ≡ empty) × (text.new.held.value ≡ None))
        (λ t. TellsEdited t start end chunks.now result text.new.held.value) }
{
    if !text.is_full() {
        return EMPTY;
    }
    let mut kept = text.take(alloc);
    let answer = kept.edit(start, end, chunks);
    *text = Text::of(kept);
    match answer {
        Ok(()) => DONE,
        Err(fault) => status_of(fault),
    }
}

/// Finds the match in the text within the bounds: `FOUND`, and the match is written, or `DONE`.
#[unsafe(no_mangle)]
pub extern "C" fn zf_text_find(
    alloc: Global,
    handle: &mut Handle,
    text: &mut Text,
    bounds: &Bounds,
    found: &mut MatchAt,
) -> u32
    ensures answered { MatchOption handle.old.held.value (result ≡ empty)
        (λ s. MatchOption text.old.held.value (result ≡ empty)
        (λ t. TellsOver s.regex t bounds.now result found.new)) }
    ensures unwritten { result ≢ 1 → found.new ≡ found.old }
    ensures kept { handle.new.held.value ≡ handle.old.held.value }
    ensures text { text.new.held.value ≡ text.old.held.value }
{
    if !handle.is_full() || !text.is_full() {
        return EMPTY;
    }
    let mut held = handle.take(alloc);
    let kept = text.take(alloc);
    let answer = held.find_over(kept.text(), bounds);
    *text = Text::of(kept);
    *handle = Handle::of(held);
    match answer {
        Ok(Some(m)) => {
            *found = MatchAt::of(m);
            FOUND
        }
        Ok(None) => DONE,
        Err(Fault::TooLong) => TOO_LONG,
        Err(Fault::Outside) => OUTSIDE,
    }
}

/// Finds the match in the text from `start` to `end`, and writes as many of its groups as there is
/// room for. Without a match each group took no part.
#[unsafe(no_mangle)]
pub extern "C" fn zf_text_find_groups(
    alloc: Global,
    handle: &mut Handle,
    text: &mut Text,
    start: usize,
    end: usize,
    found: &mut MatchAt,
    groups: &mut [GroupAt],
) -> u32
    ensures answered { MatchOption handle.old.held.value (result ≡ empty)
        (λ s. MatchOption text.old.held.value (result ≡ empty)
        (λ t. TellsMatch s.regex t start end result found.new)) }
    ensures unwritten { result ≢ 1 → found.new ≡ found.old }
    ensures groups { MatchOption handle.old.held.value
        ((handle.new.held.value ≡ None) × (groups.new ≡ groups.old))
        (λ s. MatchOption text.old.held.value
        ((handle.new.held.value ≡ Some s) × (groups.new ≡ groups.old))
        (λ t. LeavesGroups s t start end result groups.old groups.new handle.new.held.value)) }
    ensures text { text.new.held.value ≡ text.old.held.value }
{
    if !handle.is_full() || !text.is_full() {
        return EMPTY;
    }
    let mut held = handle.take(alloc);
    let kept = text.take(alloc);
    let answer = held.find_groups_over(kept.text(), start, end);
    *text = Text::of(kept);
    let status = match answer {
        Ok(Some(m)) => {
            GroupAt::write_all(held.captures(), groups);
            *found = MatchAt::of(m);
            FOUND
        }
        Ok(None) => {
            GroupAt::write_all(held.captures(), groups);
            DONE
        }
        Err(Fault::TooLong) => TOO_LONG,
        Err(Fault::Outside) => OUTSIDE,
    };
    *handle = Handle::of(held);
    status
}

/// Fills the batch with the next matches of the text, up to `end`. No more are left if the batch
/// isn't full.
#[unsafe(no_mangle)]
pub extern "C" fn zf_text_next(
    alloc: Global,
    handle: &mut Handle,
    text: &mut Text,
    end: usize,
    batch: &mut [MatchAt],
    progress: &mut Progress,
) -> u32
    ensures answered { MatchOption handle.old.held.value
        ((result ≡ empty) × (handle.new.held.value ≡ None))
        (λ s. MatchOption text.old.held.value
        ((result ≡ empty) × (handle.new.held.value ≡ Some s))
        (λ t. TellsBatch s t end result batch.new progress.new handle.new.held.value)) }
    ensures unwritten { result ≢ done → progress.new ≡ progress.old }
    ensures unfilled { result ≢ done → batch.new ≡ batch.old }
    ensures text { text.new.held.value ≡ text.old.held.value }
{
    if !handle.is_full() || !text.is_full() {
        return EMPTY;
    }
    let mut held = handle.take(alloc);
    let kept = text.take(alloc);
    let answer = held.fill_over(kept.text(), end, batch);
    *text = Text::of(kept);
    let next = held.place();
    *handle = Handle::of(held);
    match answer {
        Ok(count) => {
            *progress = Progress { count, next };
            DONE
        }
        Err(Fault::TooLong) => TOO_LONG,
        Err(Fault::Outside) => OUTSIDE,
    }
}

/// Tests what the text from `start` on says of a search, if more bytes may follow it: `FOUND`, and
/// the match is written that each text has that goes on from this one, or `DONE`, and the place is
/// written from which the search has to go on.
#[unsafe(no_mangle)]
pub extern "C" fn zf_text_find_partial(
    alloc: Global,
    handle: &mut Handle,
    text: &mut Text,
    start: usize,
    found: &mut MatchAt,
    from: &mut usize,
) -> u32
    ensures answered { MatchOption handle.old.held.value (result ≡ empty)
        (λ s. MatchOption text.old.held.value (result ≡ empty)
        (λ t. TellsPartial s.regex t start result found.new from.new)) }
    ensures unwritten { result ≢ 1 → found.new ≡ found.old }
    ensures unplaced { result ≢ done → from.new ≡ from.old }
    ensures kept { handle.new.held.value ≡ handle.old.held.value }
    ensures text { text.new.held.value ≡ text.old.held.value }
{
    if !handle.is_full() || !text.is_full() {
        return EMPTY;
    }
    let mut held = handle.take(alloc);
    let kept = text.take(alloc);
    let answer = held.find_partial_over(kept.text(), start);
    *text = Text::of(kept);
    *handle = Handle::of(held);
    match answer {
        Ok(partial) => match partial {
            Partial::Final(m) => {
                *found = MatchAt::of(m);
                FOUND
            }
            Partial::From(place) => {
                *from = place;
                DONE
            }
        },
        Err(Fault::TooLong) => TOO_LONG,
        Err(Fault::Outside) => OUTSIDE,
    }
}

/// Makes the list of all matches of the text, and keeps it in the handle in place of another one:
/// `DONE`; or `MEMORY`, and there is none.
#[unsafe(no_mangle)]
pub extern "C" fn zf_text_live_new(alloc: Global, handle: &mut Handle, text: &mut Text) -> u32
    ensures answered { MatchOption handle.old.held.value
        ((result ≡ empty) × (handle.new.held.value ≡ None))
        (λ s. MatchOption text.old.held.value
        ((result ≡ empty) × (handle.new.held.value ≡ Some s))
        (λ t. TellsNew s t result handle.new.held.value)) }
    ensures text { text.new.held.value ≡ text.old.held.value }
{
    if !handle.is_full() || !text.is_full() {
        return EMPTY;
    }
    let mut held = handle.take(alloc);
    let kept = text.take(alloc);
    let answer = held.live_new_over(alloc, kept.text());
    *text = Text::of(kept);
    *handle = Handle::of(held);
    match answer {
        Ok(()) => DONE,
        Err(ListFault::NoList) => NO_LIST,
        Err(ListFault::Outside) => OUTSIDE,
        Err(ListFault::TooLong) => TOO_LONG,
        Err(ListFault::Misfit) => MISFIT,
        Err(ListFault::Memory) => MEMORY,
    }
}

/// Keeps the list under an edit of its text: the bytes from `start` to `end` were replaced by
/// `inserted` others, and the text was edited so. If the lengths fit, this has to be so. Statuses as
/// `zf_live_edit`.
#[unsafe(no_mangle)]
pub extern "C" fn zf_text_live_edit(
    alloc: Global,
    handle: &mut Handle,
    start: usize,
    end: usize,
    inserted: usize,
    text: &mut Text,
    change: &mut Change,
) -> u32
    requires { IfSome handle.old.held.value (λ s. IfSome text.old.held.value (λ t. IfSome s.live
        (IsEditOf s.regex (edit_of start end inserted) (joined t)))) }
    ensures answered { MatchOption handle.old.held.value
        ((result ≡ empty) × (handle.new.held.value ≡ None))
        (λ s. MatchOption text.old.held.value
        ((result ≡ empty) × (handle.new.held.value ≡ Some s))
        (λ t. TellsEdit s (edit_of start end inserted) t result change.new
        handle.new.held.value)) }
    ensures unwritten { result ≢ done → change.new ≡ change.old }
    ensures text { text.new.held.value ≡ text.old.held.value }
{
    if !handle.is_full() || !text.is_full() {
        return EMPTY;
    }
    let mut held = handle.take(alloc);
    let kept = text.take(alloc);
    let edit = Edit {
        replaced: Span { start, end },
        inserted,
    };
    let answer = held.live_edit_over(edit, kept.text());
    *text = Text::of(kept);
    *handle = Handle::of(held);
    match answer {
        Ok(changed) => {
            *change = Change::of(changed);
            DONE
        }
        Err(ListFault::NoList) => NO_LIST,
        Err(ListFault::Outside) => OUTSIDE,
        Err(ListFault::TooLong) => TOO_LONG,
        Err(ListFault::Misfit) => MISFIT,
        Err(ListFault::Memory) => MEMORY,
    }
}

/// The status that tells why there is no text, or no edit of it.
fn status_of(fault: EditFault) -> u32
    ensures { result ≡ status_of fault }
{
    match fault {
        EditFault::Outside => OUTSIDE,
        EditFault::TooLong => TOO_LONG,
        EditFault::Memory => MEMORY,
    }
}
