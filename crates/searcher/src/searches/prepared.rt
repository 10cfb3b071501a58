//! Searches of a prepared text, whose chunks needn't be counted.
ghost use Rattle.std.specs.Prelude.{◌≡◌, IfErr, IfOk, OnOk, length};
ghost use Rattle.rc_text.specs.Joined.{IsTooLong, joined};
ghost use Rattle.rc_text.specs.Text.{Keeps, high};
ghost use Rattle.live_matches.specs.Live.{IsWhole};
ghost use Rattle.searcher.specs.Ranges.{IsFault, IsServed, in_range};
ghost use Rattle.searcher.specs.declared.answers.ListFault.TheVariants.{TooLong};

use super::Searcher;
use crate::answers::{Bounds, Fault, ListFault, MatchAt};
use crate::batch;
use api_meta::partial::Partial;
use live_matches::{Changed, Edit, LiveMatches};
use rc_text::input::{Input, content_fits, high};
use rc_text::types::{Match, Span};
use std::alloc::Global;
use text_chunks::{TextChunks, TextCursor};

impl Searcher {
    ghost use Rattle.std.specs.Prelude.{◌≡◌, IfErr, IfOk, OnErr, OnOk};
    ghost use Rattle.rc_text.specs.Joined.{joined};
    ghost use Rattle.rc_pikevm_search.specs.Tells.{KeepsAll, TellsBy};
    ghost use Rattle.api_meta.specs.Views.{regex_kind, regex_names};
    ghost use Rattle.searcher.specs.Answers.{IsSame, answer_in, answer_over, left_in, search_in};
    ghost use Rattle.searcher.specs.Places.{GoesOn, IsFilled};
    ghost use Rattle.searcher.specs.Ranges.{IsFault, IsServed};

    /// Returns the match in the text that `find` returns, or `match_at` if the bounds are anchored.
    pub fn find_over(&mut self, text: &TextChunks, bounds: &Bounds) -> Result<Option<Match>, Fault>
        ensures found { IfOk result (λ m. m
            ≡ answer_over self.old.regex (joined text.now) bounds.now) }
        ensures served { OnOk result (IsServed text.now bounds.now.start bounds.now.end) }
        ensures fault { IfErr result (IsFault text.now bounds.now.start bounds.now.end) }
        ensures kept { self.new ≡ self.old }
    {
        let mut input = input_over_text(text, bounds.start, bounds.end)?;
        input.set_anchored(bounds.anchoring());
        Ok(batch::search(&self.regex, &mut self.cache, &mut input))
    }

    /// Returns the match in the text that `find` returns, and keeps its groups, or none if there is
    /// no match. After an `Err` the groups of the search before are still kept.
    pub fn find_groups_over(
        &mut self,
        text: &TextChunks,
        start: usize,
        end: usize,
    ) -> Result<Option<Match>, Fault>
        ensures told { OnOk result (TellsBy (regex_kind self.old.regex)
            (search_in self.old.regex (joined text.now) start end) self.new.captures) }
        ensures found { IfOk result (λ m. m
            ≡ answer_in self.old.regex (joined text.now) start end) }
        ensures served { OnOk result (IsServed text.now start end) }
        ensures fault { IfErr result (IsFault text.now start end) }
        ensures refused { OnErr result (self.new ≡ self.old) }
        ensures whole { OnOk result (KeepsAll (regex_names self.old.regex) self.new.captures) }
        ensures kept { IsSame self.old self.new }
    {
        let mut input = input_over_text(text, start, end)?;
        self.regex
            .search_captures_with(&mut self.cache, &mut input, &mut self.captures);
        Ok(self.captures.get_match())
    }

    /// Fills the batch as `fill` does with the next matches of the text.
    pub fn fill_over(
        &mut self,
        text: &TextChunks,
        end: usize,
        batch: &mut [MatchAt],
    ) -> Result<usize, Fault>
        ensures filled { IfOk result (IsFilled (left_in self.old (joined text.now) end)
            (left_in self.new (joined text.now) end) batch.new) }
        ensures goes_on { IfOk result (λ count. GoesOn batch.new count self.old.from self.old.last
            self.new.from self.new.last) }
        ensures served { OnOk result (IsServed text.now self.old.from end) }
        ensures fault { IfErr result (IsFault text.now self.old.from end) }
        ensures unfilled { OnErr result (batch.new ≡ batch.old) }
        ensures refused { OnErr result (self.new ≡ self.old) }
        ensures rest { self.new ≡ record self.old { from = self.new.from; last = self.new.last } }
    {
        let mut input = input_over_text(text, self.from, end)?;
        let filled = batch::fill(&self.regex, &mut self.cache, &mut input, self.last, batch);
        self.from = filled.from;
        self.last = filled.last;
        Ok(filled.count)
    }
}

impl Searcher {
    ghost use Rattle.std.specs.Prelude.{◌≡◌, IfErr, IfOk, IfSome, MatchOption, OnOk};
    ghost use Rattle.rc_text.specs.Joined.{joined};
    ghost use Rattle.live_matches.specs.Live.{IsLive, IsWhole};
    ghost use Rattle.searcher.specs.Answers.{IsPartialIn};
    ghost use Rattle.searcher.specs.Lives.{IsAsLong, IsEditDone, IsEditFault, IsEditOf, IsListFault, IsWithin};
    ghost use Rattle.searcher.specs.Ranges.{IsFault, IsServed};

    /// Returns what the text from `start` on tells of a search, as `find_partial` does.
    pub fn find_partial_over(&mut self, text: &TextChunks, start: usize) -> Result<Partial, Fault>
        ensures told { IfOk result (IsPartialIn self.old.regex (joined text.now) start) }
        ensures served { OnOk result (IsServed text.now start 18446744073709551615) }
        ensures fault { IfErr result (IsFault text.now start 18446744073709551615) }
        ensures kept { self.new ≡ self.old }
    {
        let mut input = input_over_text(text, start, usize::MAX)?;
        let answer = self.regex.search_partial_with(&mut self.cache, &mut input);
        Ok(answer)
    }

    /// Keeps the list of all matches of the text, as `live_new` does.
    pub fn live_new_over(&mut self, alloc: Global, text: &TextChunks) -> Result<(), ListFault>
        ensures live { OnOk result (MatchOption self.new.live ⊥
            (IsLive self.old.regex (joined text.now))) }
        ensures fault { IfErr result (IsListFault text.now self.old.live self.new.live) }
        ensures same { self.new ≡ record self.old { live = self.new.live } }
    {
        let mut input = whole_over_text(text)?;
        self.live = None; // until there is a new one
        let live = LiveMatches::new(alloc, &self.regex, &mut self.cache, &mut input)?;
        self.live = Some(live);
        Ok(())
    }

    /// Keeps the list under an edit of its text, as `live_edit` does: the text is as it is now.
    pub fn live_edit_over(&mut self, edit: Edit, text: &TextChunks) -> Result<Changed, ListFault>
        requires edit { IfSome self.old.live (IsEditOf self.old.regex edit (joined text.now)) }
        ensures live { IfOk result (IsEditDone self.old.regex edit (joined text.now)
            self.old.live self.new.live) }
        ensures fault { IfErr result (IsEditFault edit text.now self.old.live self.new.live) }
        ensures same { self.new ≡ record self.old { live = self.new.live } }
    {
        let mut input = self.input_after_edit(edit, text)?;
        let Some(mut live) = self.live.take() else {
            return Err(ListFault::NoList);
        };
        let changed = live.edit(&self.regex, &mut self.cache, edit, &mut input)?;
        self.live = Some(live);
        Ok(changed)
    }

    /// The text, if an edit of the list's text may have made it.
    fn input_after_edit<'t>(
        &self,
        edit: Edit,
        text: &'t TextChunks<'t>,
    ) -> Result<Input<TextCursor<'t>>, ListFault>
        ensures whole { IfOk result IsWhole }
        ensures content { IfOk result (λ i. i.content ≡ joined text.now) }
        ensures within { OnOk result (IfSome self.now.live (IsWithin edit)) }
        ensures long { OnOk result (IfSome self.now.live (IsAsLong edit (joined text.now))) }
        ensures fits { OnOk result (¬ IsTooLong text.now) }
        ensures fault { IfErr result
            (IsEditFault edit text.now self.now.live self.now.live) }
    {
        let Some(live) = &self.live else {
            return Err(ListFault::NoList);
        };
        let len = live.text_len();
        let Span { start, end } = edit.replaced;
        if start > end || end > len {
            return Err(ListFault::Outside);
        }
        let mut input = whole_over_text(text)?;
        let rest = len - (end - start);
        let now = high(&mut input);
        if now < rest || now - rest != edit.inserted {
            return Err(ListFault::Misfit);
        }
        Ok(input)
    }
}

/// The whole text, as an input.
fn whole_over_text<'t>(text: &'t TextChunks<'t>) -> Result<Input<TextCursor<'t>>, ListFault>
    ensures whole { IfOk result IsWhole }
    ensures content { IfOk result (λ i. i.content ≡ joined text.now) }
    ensures high { IfOk result (λ i. high i ≡ length (joined text.now)) }
    ensures fits { OnOk result (¬ IsTooLong text.now) }
    ensures fault { IfErr result (λ e. e ≡ TooLong) }
    ensures long { IfErr result (λ _. IsTooLong text.now) }
{
    match input_over_text(text, 0, usize::MAX) {
        Ok(input) => Ok(input),
        Err(_) => Err(ListFault::TooLong),
    }
}

/// The text, as an input from `start` to `end`, with the earliest flag off.
fn input_over_text<'t>(
    text: &'t TextChunks<'t>,
    start: usize,
    end: usize,
) -> Result<Input<TextCursor<'t>>, Fault>
    ensures in_range { IfOk result (Keeps (in_range (joined text.now) start end)) }
    ensures served { OnOk result (IsServed text.now start end) }
    ensures fault { IfErr result (IsFault text.now start end) }
{
    if start > end {
        return Err(Fault::Outside);
    }
    let Some(cursor) = TextCursor::at(text, start) else {
        return Err(Fault::Outside);
    };
    let mut input = Input::new(cursor);
    input.set_span(Span { start, end });
    content_fits(&input);
    Ok(input)
}
