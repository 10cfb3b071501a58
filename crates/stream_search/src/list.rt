//! List stepper: all matches of a text in slices, between which the caller does other things.
ghost use Rattle.std.specs.Prelude.{◌≡◌, ◌<◌, ◌≤◌, IsTrue, length};

use crate::finds::PartialFinder;
use crate::opening::Opening;
use crate::search::{input_from, is_again, settled_of};
use crate::step::has_byte;
use rc_pieces::spans::seek;
use rc_text::input::content_fits;
use regex_cursor::engines::meta::{Finder, ListMemo, Partial};
use regex_cursor::types::Match;
use regex_cursor::{Cursor, Input};
use std::alloc::AllocError;
use std::marker::Model;

/// All matches of a text in slices, by a regex that it borrows.
pub type ListStepper<'r> = ListStepperOf<Finder<'r>>;

/// All matches of a text in slices.
///
/// Each `resume` searches some bytes more, adds the matches that it finds to a list of yours, and
/// returns. Together they are those that `Regex::find_iter` gives. It holds the finder, and with it
/// the cache. Pass a cursor over the same text to each `resume`; it may cut the text anew each time.
#[derive(Drop)]
pub struct ListStepperOf<F: PartialFinder> {
    finder: F,
    from: usize,
    last: Option<usize>,
    position: usize,
    memo: ListMemo,
}

impl<F: PartialFinder> Model for ListStepperOf<F> {
    ghost use Rattle.std.specs.Coded.{codes};
    ghost use Rattle.api_meta.specs.contracts.regex.Regex as regexes;
    ghost use Rattle.rc_reach.specs.Live.{EndedBy};
    ghost use Rattle.stream_search.specs.Listing.{Listing};

    ghost Value = { Listing };

    ghost coded = { Prim.hlevel (codes, regexes.the_row.coded) };

    ghost view = { λ s. record {
      regex = F.searched_by s.finder;
      from = s.from;
      last = s.last;
      position = s.position;
    } };

    ghost invariant = { λ s. EndedBy s.last s.from };
}

impl<'r> ListStepperOf<Finder<'r>> {
    ghost use Rattle.std.specs.Prelude.{ℕ, List, []};
    ghost use Rattle.stream_search.specs.Listing.{HasTold, unbegun};

    /// Returns the list of a text of which nothing is searched yet.
    pub fn new(finder: Finder<'r>) -> ListStepper<'r>
        ensures unbegun { result ≡ unbegun finder.entry }
        ensures told { (content : List ℕ) → HasTold content [] result }
    {
        ListStepperOf::over(finder)
    }

    /// Returns the finder, for other searches.
    pub fn into_finder(self) -> Finder<'r>
        ensures { result ≡ self.entry.regex }
    {
        self.finder
    }
}

impl<F: PartialFinder> ListStepperOf<F> {
    ghost use Rattle.std.specs.Prelude.{◌↔◌, ◌+◌, ℕ, IfOk, IfSome, List, Some, [], false, max, min};
    ghost use Rattle.rc_program.specs.Matches.{begin_of, end_of, next_match};
    ghost use Rattle.rc_text.specs.Found.{Found};
    ghost use Rattle.rc_text.specs.Text.{Keeps};
    ghost use Rattle.api_meta.specs.Ahead.{AddsNext, ComesBehind};
    ghost use Rattle.stream_search.specs.Listing.{Adds, HasNone, HasTold, IsSliced, LiesFrom, slice_end, unbegun};
    ghost use Rattle.stream_search.specs.Searches.{IsOver, matches_of};
    ghost use Rattle.stream_search.specs.Searching.{IsAfter};
    ghost use Rattle.stream_search.specs.Stepping.{found_from};
    ghost use Rattle.stream_search.specs.Streams.{MayBecome};

    /// Returns a list as `new` does, by another finder.
    pub fn over(finder: F) -> ListStepperOf<F>
        ensures unbegun { result ≡ unbegun (F.searched_by finder) }
        ensures told { (content : List ℕ) → HasTold content [] result }
    {
        ListStepperOf {
            finder,
            from: 0,
            last: None,
            position: 0,
            memo: ListMemo::new(),
        }
    }

    /// Begins the list of another text, or of the same one anew.
    pub fn restart(&mut self)
        ensures unbegun { self.new ≡ unbegun self.old.regex }
        ensures told { (content : List ℕ) → HasTold content [] self.new }
    {
        self.from = 0;
        self.last = None;
        self.position = 0;
    }

    /// Searches some bytes more, and adds the matches that they tell to the list. Returns whether
    /// the text ended. The cursor has the same text as before, and may stand anywhere.
    ///
    /// It takes `budget` bytes more. It reads again those from a place on before which no match
    /// begins that is still to come. If these are more than `budget`, it takes as many more as
    /// these, and always one at least. A match comes in the first slice whose bytes settle it, as
    /// `Finder::find_partial` tells it, or in the last.
    ///
    /// An `Err` means that there was no memory for a match. The list has those before it, and the
    /// next `resume` goes on with it. Nothing else takes memory.
    pub fn resume<C: Cursor + Drop>(
        &mut self,
        cursor: C,
        budget: usize,
        matches: &mut Vec<Match>,
    ) -> Result<bool, AllocError>
        ensures regex { self.new.regex ≡ self.old.regex }
        ensures adds { Adds (C.content cursor)
            self.old matches.old.items self.new matches.new.items }
        ensures ends { IfOk result (λ ended. IsTrue ended
            ↔ length (C.content cursor) ≤ slice_end self.old budget) }
        ensures all { IfOk result (λ ended. IsTrue ended
            → (told : List Found) → HasTold (C.content cursor) told self.new
            → told ≡ matches_of self.old.regex (C.content cursor)) }
        ensures sliced { IfOk result (λ ended. ended ≡ false
            → IsSliced self.old budget (length (C.content cursor)) self.new) }
    {
        let mut cursor = cursor;
        let end = self.slice_end(budget);
        if !has_byte(&mut cursor, end) {
            self.add_rest(cursor, matches)?;
            return Ok(true);
        }
        seek(&mut cursor, self.from);
        let mut input = input_from(Opening::new(cursor, end), self.from);
        if self.add_settled(&mut input, matches)? {
            self.add(&mut input, matches)?;
        }
        self.position = end;
        Ok(false)
    }

    /// Adds the matches that are left.
    fn add_rest<C: Cursor + Drop>(
        &mut self,
        cursor: C,
        matches: &mut Vec<Match>,
    ) -> Result<(), AllocError>
        ensures regex { self.new.regex ≡ self.old.regex }
        ensures adds { Adds (C.content cursor)
            self.old matches.old.items self.new matches.new.items }
        ensures none { IfOk result (λ _. HasNone (C.content cursor) self.new) }
    {
        if let Some(total) = cursor.total_bytes() {
            if self.from > total {
                return Ok(());
            }
        }
        let mut input = input_from(cursor, self.from);
        content_fits(&input);
        self.push_before(&mut input, usize::MAX, matches)?;
        Ok(())
    }

    /// Adds the matches that begin before the position before which the content of the input tells
    /// all. Returns whether it may tell others.
    fn add_settled<C: Cursor>(
        &mut self,
        input: &mut Input<C>,
        matches: &mut Vec<Match>,
    ) -> Result<bool, AllocError>
        requires over { IsOver input.old }
        requires start { input.old.span.start ≡ self.old.from }
        ensures stays { self.new
            ≡ record self.old { from = self.new.from; last = self.new.last } }
        ensures over { IsOver input.new }
        ensures content { input.new.content ≡ input.old.content }
        ensures start { input.new.span.start ≡ self.new.from }
        ensures onward { self.old.from ≤ self.new.from }
        ensures within { self.new.from ≤ max self.old.from (length input.old.content) }
        ensures adds { (content : List ℕ) → MayBecome false input.old.content content
            → Adds content self.old matches.old.items self.new matches.new.items }
    {
        let settled = settled_of(&self.finder, input);
        if settled <= self.from {
            return Ok(true);
        }
        let may_tell = self.push_before(input, settled, matches)?;
        self.from = self.from.max(settled);
        input.set_start(self.from);
        Ok(may_tell)
    }

    /// Adds the next matches of the input's list that begin before the position. Returns whether
    /// another one comes.
    fn push_before<C: Cursor>(
        &mut self,
        input: &mut Input<C>,
        before: usize,
        matches: &mut Vec<Match>,
    ) -> Result<bool, AllocError>
        requires over { IsOver input.old }
        requires start { input.old.span.start ≡ self.old.from }
        ensures stays { self.new
            ≡ record self.old { from = self.new.from; last = self.new.last } }
        ensures over { IsOver input.new }
        ensures content { input.new.content ≡ input.old.content }
        ensures start { input.new.span.start ≡ self.new.from }
        ensures onward { self.old.from ≤ self.new.from }
        ensures within { self.new.from ≤ max self.old.from (length input.old.content) }
        ensures adds { AddsNext (found_from self.old.regex input.old.content) before
            self.old.from self.old.last matches.old.items
            self.new.from self.new.last matches.new.items }
        ensures behind { IfOk result (ComesBehind before
            (next_match begin_of end_of (found_from self.old.regex input.old.content)
            self.new.from self.new.last)) }
    {
        content_fits(input);
        let finder = &mut self.finder;
        let added = finder.push_before(input, &mut self.memo, &mut self.last, before, matches);
        self.from = input.start();
        added
    }

    /// Adds the matches that the content of the input tells.
    fn add<C: Cursor>(
        &mut self,
        input: &mut Input<C>,
        matches: &mut Vec<Match>,
    ) -> Result<(), AllocError>
        requires over { IsOver input.old }
        requires start { input.old.span.start ≡ self.old.from }
        ensures stays { self.new
            ≡ record self.old { from = self.new.from; last = self.new.last } }
        ensures onward { self.old.from ≤ self.new.from }
        ensures within { self.new.from ≤ max self.old.from (length input.old.content + 1) }
        ensures adds { (content : List ℕ) → MayBecome false input.old.content content
            → Adds content self.old matches.old.items self.new matches.new.items }
    {
        'told: while let Some(found) = self.seek(input) {
            matches.push(found)?;
            self.take(input, found);
        }
        Ok(())
    }

    /// Goes on behind the match.
    fn take<C: Cursor>(&mut self, input: &mut Input<C>, found: Match)
        requires over { IsOver input.old }
        requires inside { found.end ≤ length input.old.content }
        ensures taken { self.new ≡ record self.old { from = found.end; last = Some found.end } }
        ensures over { IsOver input.new }
        ensures content { input.new.content ≡ input.old.content }
        ensures start { input.new.span.start ≡ found.end }
    {
        self.from = found.end();
        self.last = Some(found.end());
        input.set_start(found.end());
    }

    /// Returns the next match, which is the last one no more. `None` means that the content of the
    /// input tells none.
    fn seek<C: Cursor>(&mut self, input: &mut Input<C>) -> Option<Match>
        requires over { IsOver input.old }
        requires start { input.old.span.start ≡ self.old.from }
        ensures stays { self.new ≡ record self.old { from = self.new.from } }
        ensures over { IsOver input.new }
        ensures content { input.new.content ≡ input.old.content }
        ensures onward { self.old.from ≤ self.new.from }
        ensures within { self.new.from ≤ max self.old.from (length input.old.content + 1) }
        ensures lies { IfSome result (LiesFrom self.new (length input.old.content)) }
        ensures after { IfSome result (IsAfter self.new.last) }
        ensures told { (content : List ℕ) → MayBecome false input.old.content content
            → (told : List Found) → HasTold content told self.old → HasTold content told self.new }
        ensures found { (content : List ℕ) → MayBecome false input.old.content content
            → IfSome result (λ m. found_from self.new.regex content self.new.from ≡ Some m) }
    {
        let found = self.search(input)?;
        if !is_again(self.last, found) {
            return Some(found);
        }
        content_fits(input);
        self.from += 1;
        input.set_start(self.from);
        self.search(input)
    }

    /// Returns the match of each text that the content of the input may become, from where the
    /// search goes on. `None` means that the content tells none; the search goes on from a later
    /// place then.
    fn search<C: Cursor>(&mut self, input: &mut Input<C>) -> Option<Match>
        requires over { IsOver input.old }
        requires start { input.old.span.start ≡ self.old.from }
        ensures stays { self.new ≡ record self.old { from = self.new.from } }
        ensures keeps { Keeps input.old input.new }
        ensures onward { self.old.from ≤ self.new.from }
        ensures within { self.new.from ≤ max self.old.from (length input.old.content) }
        ensures lies { IfSome result (LiesFrom self.new (length input.old.content)) }
        ensures told { (content : List ℕ) → MayBecome false input.old.content content
            → (told : List Found) → HasTold content told self.old → HasTold content told self.new }
        ensures found { (content : List ℕ) → MayBecome false input.old.content content
            → IfSome result (λ m. found_from self.new.regex content self.new.from ≡ Some m) }
    {
        content_fits(input);
        match self.finder.find_partial(input) {
            Partial::Final(found) => Some(found),
            Partial::From(place) => {
                self.from = place;
                None
            }
        }
    }

    /// Where the next slice ends.
    fn slice_end(&self, budget: usize) -> usize
        ensures { result ≡ min (slice_end self.now budget) usize.MAX }
    {
        let again = self.position.saturating_sub(self.from);
        let first = self.position.max(self.from);
        first.saturating_add(budget.max(again).max(1))
    }

    /// Where the last slice ended, in bytes. It is 0 before the first one.
    pub fn position(&self) -> usize
        ensures { result ≡ self.now.position }
    {
        self.position // of the whole text
    }
}
