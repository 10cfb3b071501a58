//! Stepper: a search of a text in slices, between which the caller does other things.
ghost use Rattle.std.specs.Prelude.{◌≡◌, ◌↔◌, ◌+◌, ◌^◌, ◌<◌, ◌≤◌, IsTrue, false, length, take};
ghost use Rattle.api_meta.specs.Views.{regex_kind};
ghost use Rattle.api_meta.specs.Partials.{partial_of};
ghost use Rattle.stream_search.specs.Searches.{seeks};
ghost use Rattle.stream_search.specs.Stepping.{GoesTo, found_from};
ghost use Rattle.stream_search.specs.Streams.{IsTold};

use crate::finds::PartialFinder;
use crate::opening::Opening;
use crate::search::input_from;
use rc_pieces::spans::seek;
use regex_cursor::Cursor;
use regex_cursor::engines::meta::{Finder, Partial};
use regex_cursor::types::Match;
use std::marker::Model;

/// How far a search in slices came.
#[derive(Clone, Copy, Debug, PartialEq, Eq)]
pub enum Progress {
    /// It ended with this answer.
    Done(Option<Match>),
    /// It hasn't ended: `resume` it.
    NotYet,
}

/// A search of a text in slices, by a regex that it borrows.
pub type Stepper<'r> = StepperOf<Finder<'r>>;

/// A search of a text in slices.
///
/// Each `resume` searches some bytes more, and returns. So an editor can search a long text and stay
/// responsive, and can stop at any slice. The answer is the one of a search of the whole text at
/// once. It holds the finder, and with it the cache, so that nothing else uses it meanwhile. Pass a
/// cursor over the same text to each `resume`; it may cut the text anew each time.
#[derive(Drop)]
pub struct StepperOf<F: PartialFinder> {
    finder: F,
    from: usize,
    position: usize,
}

impl<F: PartialFinder> Model for StepperOf<F> {
    ghost use Rattle.std.specs.Coded.{codes};
    ghost use Rattle.std.specs.Prelude.{◌≤◌};
    ghost use Rattle.api_meta.specs.contracts.regex.Regex as regexes;
    ghost use Rattle.stream_search.specs.Stepping.{Stepping};

    ghost Value = { Stepping };

    ghost coded = { Prim.hlevel (codes, regexes.the_row.coded) };

    ghost view = { λ s. record {
      regex = F.searched_by s.finder;
      from = s.from;
      position = s.position;
    } };

    ghost invariant = { λ s. s.from ≤ s.position };
}

impl<'r> StepperOf<Finder<'r>> {
    ghost use Rattle.std.specs.Prelude.{◌≡◌, ℕ, List};
    ghost use Rattle.stream_search.specs.Stepping.{IsUnderWay, begun};

    /// Returns a search that begins at this position of a text, in bytes. Nothing is searched yet.
    pub fn new(finder: Finder<'r>, start: usize) -> Stepper<'r>
        ensures begun { result ≡ begun finder.entry start }
        ensures way { (content : List ℕ) → IsUnderWay content start result }
    {
        StepperOf::over(finder, start)
    }

    /// Returns the finder, for other searches.
    pub fn into_finder(self) -> Finder<'r>
        ensures { result ≡ self.entry.regex }
    {
        self.finder
    }
}

impl<F: PartialFinder> StepperOf<F> {
    ghost use Rattle.std.specs.Prelude.{◌≡◌, ℕ, List, length, min};
    ghost use Rattle.stream_search.specs.Stepping.{IfDone, IfNotYet, IsOfSlice, IsSliced, IsUnderWay, begun, slice_end};

    /// Returns a search as `new` does, by another finder.
    pub fn over(finder: F, start: usize) -> StepperOf<F>
        ensures begun { result ≡ begun (F.searched_by finder) start }
        ensures way { (content : List ℕ) → IsUnderWay content start result }
    {
        StepperOf {
            finder,
            from: start,
            position: start,
        }
    }

    /// Begins another search, at this position of a text, in place of the one that is under way.
    pub fn start(&mut self, start: usize)
        ensures begun { self.new ≡ begun self.old.regex start }
        ensures way { (content : List ℕ) → IsUnderWay content start self.new }
    {
        self.from = start;
        self.position = start;
    }

    /// Searches some bytes more. The cursor has the same text as before, and may stand anywhere.
    ///
    /// It takes `budget` bytes more. It reads again those from a place on before which no match
    /// begins. If these are more than `budget`, it takes as many more as these, and always one at
    /// least. So at most half of what a slice reads was read before. `Done` is the match of the
    /// whole text from the start on, or none: the text ends in the slice, or no byte after it can
    /// change this answer. `NotYet` means that more bytes decide it. After `Done` the search is
    /// unchanged, and would end again. It takes no memory.
    pub fn resume<C: Cursor + Drop>(&mut self, cursor: C, budget: usize) -> Progress
        ensures regex { self.new.regex ≡ self.old.regex }
        ensures done { (start : ℕ) → IsUnderWay (C.content cursor) start self.old
            → IfDone result (λ m. m ≡ found_from self.old.regex (C.content cursor) start) }
        ensures goes_on { (start : ℕ) → IsUnderWay (C.content cursor) start self.old
            → IfNotYet result (IsUnderWay (C.content cursor) start self.new) }
        ensures stays { IfDone result (λ _. self.new ≡ self.old) }
        ensures settled { IfDone result (IsOfSlice self.old budget (C.content cursor)) }
        ensures sliced { IfNotYet result
            (IsSliced self.old budget (length (C.content cursor)) self.new) }
    {
        let mut cursor = cursor;
        let end = self.slice_end(budget);
        if !has_byte(&mut cursor, end) {
            return Progress::Done(search_rest(&mut self.finder, cursor, self.from));
        }
        match search_opening(&mut self.finder, cursor, self.from, end) {
            Partial::Final(found) => Progress::Done(Some(found)),
            Partial::From(place) => {
                self.from = place;
                self.position = end;
                Progress::NotYet
            }
        }
    }

    /// Where the next slice ends.
    fn slice_end(&self, budget: usize) -> usize
        ensures { result ≡ min (slice_end self.now budget) usize.MAX }
    {
        let again = self.position - self.from;
        self.position.saturating_add(budget.max(again).max(1))
    }

    /// How many bytes of the text were looked at, or where the search began.
    pub fn position(&self) -> usize
        ensures { result ≡ self.now.position }
    {
        self.position // of the whole text
    }
}

/// Whether the content has the byte at this position. If the cursor doesn't know the total, it goes
/// to the chunk with that byte, or to the last one.
pub(crate) fn has_byte<C: Cursor>(cursor: &mut C, at: usize) -> bool
    ensures content { C.content cursor.new ≡ C.content cursor.old }
    ensures has { IsTrue result ↔ at < length (C.content cursor.old) }
    ensures below { IsTrue result → at < usize.MAX }
{
    if let Some(total) = cursor.total_bytes() {
        return at < total;
    }
    seek(cursor, at);
    at - cursor.offset() < cursor.chunk().len()
}

/// Returns the match of the content from `at` on.
fn search_rest<F: PartialFinder, C: Cursor + Drop>(
    finder: &mut F,
    cursor: C,
    at: usize,
) -> Option<Match>
    ensures regex { F.searched_by finder.new ≡ F.searched_by finder.old }
    ensures found { result ≡ found_from (F.searched_by finder.old) (C.content cursor) at }
{
    if let Some(total) = cursor.total_bytes() {
        if at > total {
            return None;
        }
    }
    let mut input = input_from(cursor, at);
    finder.find(&mut input)
}

/// Returns what the first `end` bytes of the content tell of a search from `at` on.
fn search_opening<F: PartialFinder, C: Cursor + Drop>(
    finder: &mut F,
    mut cursor: C,
    at: usize,
    end: usize,
) -> Partial
    requires before { at < end }
    requires inside { end ≤ length (C.content cursor) }
    ensures regex { F.searched_by finder.new ≡ F.searched_by finder.old }
    ensures told { IsTold (regex_kind (F.searched_by finder.old))
        (seeks (F.searched_by finder.old)) false
        (take end (C.content cursor)) at (partial_of result) }
    ensures onward { GoesTo at end result }
{
    seek(&mut cursor, at);
    let mut input = input_from(Opening::new(cursor, end), at);
    finder.find_partial(&mut input)
}
