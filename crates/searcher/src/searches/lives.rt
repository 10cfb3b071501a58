//! Live lists: the matches of a text, kept under edits by a searcher.
ghost use Rattle.std.specs.Prelude.{◌≡◌, IfErr, IfOk, MatchOption, OnOk, filter, length};
ghost use Rattle.rc_text.specs.Joined.{IsTooLong, joined};
ghost use Rattle.rc_text.specs.Text.{high};
ghost use Rattle.live_matches.specs.Live.{IsWhole};
ghost use Rattle.searcher.specs.Lives.{IsWindow};
ghost use Rattle.searcher.specs.Searching.{IsInOrder};
ghost use Rattle.searcher.specs.declared.answers.ListFault.TheVariants.{TooLong};

use super::{Searcher, input_over};
use crate::answers::{ListFault, MatchAt};
use live_matches::{Changed, Edit, LiveMatches};
use rc_text::chunks::ChunkCursor;
use rc_text::input::{Input, high};
use rc_text::types::Span;
use std::alloc::Global;

impl Searcher {
    ghost use Rattle.std.specs.Prelude.{◌≡◌, IfErr, IfOk, IfSome, MatchOption, None, OnOk, Some, length};
    ghost use Rattle.rc_text.specs.Joined.{joined};
    ghost use Rattle.rc_text.specs.Text.{high};
    ghost use Rattle.live_matches.specs.Live.{IsLive, IsWhole};
    ghost use Rattle.searcher.specs.Lives.{IsAsLong, IsEditDone, IsEditFault, IsEditOf, IsListFault, IsWithin};
    ghost use Rattle.searcher.specs.Searching.{IsInOrder};

    /// The list that it keeps.
    pub fn live(&self) -> Option<&LiveMatches>
        ensures kept { MatchOption result (self.now.live ≡ None) (λ l. self.now.live ≡ Some l.now) }
        ensures order { IfSome result (λ l. IsInOrder l.now) }
    {
        match &self.live {
            Some(live) => Some(live),
            None => None,
        }
    }

    /// Keeps the list of all matches of the text, in place of the one that it kept. If the chunks
    /// are too long that one stays, and out of memory none is kept.
    pub fn live_new(&mut self, alloc: Global, chunks: &[&[u8]]) -> Result<(), ListFault>
        ensures live { OnOk result (MatchOption self.new.live ⊥
            (IsLive self.old.regex (joined chunks.now))) }
        ensures fault { IfErr result (IsListFault chunks.now self.old.live self.new.live) }
        ensures same { self.new ≡ record self.old { live = self.new.live } }
    {
        let mut input = whole_over(chunks)?;
        self.live = None; // until there is a new one
        let live = LiveMatches::new(alloc, &self.regex, &mut self.cache, &mut input)?;
        self.live = Some(live);
        Ok(())
    }

    /// Keeps the list under an edit of its text: the chunks are the text as it is now, whole. Out
    /// of memory the list is gone, and any other error leaves it.
    pub fn live_edit(&mut self, edit: Edit, chunks: &[&[u8]]) -> Result<Changed, ListFault>
        requires edit { IfSome self.old.live (IsEditOf self.old.regex edit (joined chunks.now)) }
        ensures live { IfOk result (IsEditDone self.old.regex edit (joined chunks.now)
            self.old.live self.new.live) }
        ensures fault { IfErr result (IsEditFault edit chunks.now self.old.live self.new.live) }
        ensures same { self.new ≡ record self.old { live = self.new.live } }
    {
        let mut input = self.input_after(edit, chunks)?;
        let Some(mut live) = self.live.take() else {
            return Err(ListFault::NoList);
        };
        let changed = live.edit(&self.regex, &mut self.cache, edit, &mut input)?;
        self.live = Some(live);
        Ok(changed)
    }

    /// The text of the chunks, if an edit of the list's text may have made it.
    fn input_after<'a>(
        &self,
        edit: Edit,
        chunks: &'a [&'a [u8]],
    ) -> Result<Input<ChunkCursor<'a>>, ListFault>
        ensures whole { IfOk result IsWhole }
        ensures content { IfOk result (λ i. i.content ≡ joined chunks.now) }
        ensures within { OnOk result (IfSome self.now.live (IsWithin edit)) }
        ensures long { OnOk result (IfSome self.now.live (IsAsLong edit (joined chunks.now))) }
        ensures fits { OnOk result (¬ IsTooLong chunks.now) }
        ensures fault { IfErr result
            (IsEditFault edit chunks.now self.now.live self.now.live) }
    {
        let Some(live) = &self.live else {
            return Err(ListFault::NoList);
        };
        let len = live.text_len();
        let Span { start, end } = edit.replaced;
        if start > end || end > len {
            return Err(ListFault::Outside);
        }
        let mut input = whole_over(chunks)?;
        let rest = len - (end - start);
        let now = high(&mut input);
        if now < rest || now - rest != edit.inserted {
            return Err(ListFault::Misfit);
        }
        Ok(input)
    }

    /// Keeps no list any more.
    pub fn live_free(&mut self)
        ensures { self.new ≡ record self.old { live = None } }
    {
        self.live = None; // and it is freed
    }
}

/// The whole text of the chunks, as an input.
fn whole_over<'a>(chunks: &'a [&'a [u8]]) -> Result<Input<ChunkCursor<'a>>, ListFault>
    ensures whole { IfOk result IsWhole }
    ensures content { IfOk result (λ i. i.content ≡ joined chunks.now) }
    ensures high { IfOk result (λ i. high i ≡ length (joined chunks.now)) }
    ensures fits { OnOk result (¬ IsTooLong chunks.now) }
    ensures fault { IfErr result (λ e. e ≡ TooLong) }
    ensures long { IfErr result (λ _. IsTooLong chunks.now) }
{
    match input_over(chunks, 0, usize::MAX) {
        Ok(input) => Ok(input),
        Err(_) => Err(ListFault::TooLong),
    }
}

/// Fills the batch with the first matches of the list that touch a window, and returns how many
/// there are. If the batch isn't full, no more touch it.
pub fn fill_window(live: &LiveMatches, window: Span, batch: &mut [MatchAt]) -> usize
    requires order { IsInOrder live.now }
    ensures { IsWindow live.now window batch.new result }
{
    let mut matches = live.matches_in(window);
    for count in 0..batch.len() {
        let Some(found) = matches.next() else {
            return count;
        };
        batch[count] = MatchAt::of(found);
    }
    batch.len()
}
