//! Searcher: an input, whose matches a finder returns one after another.
ghost use Rattle.std.specs.Prelude.{◌≡◌, ◌+◌, ◌≤◌, IfErr, IfOk, None, Option, option_map};
ghost use Rattle.rc_text.specs.Found.{Found, HalfFound, half_of};
ghost use Rattle.rc_program.specs.Matches.{begin_of, end_of};
ghost use Rattle.rc_iter.specs.Finders.{AnswersAs, IsLawfulFinder, Task, offset_of};
ghost use Rattle.rc_iter.specs.Searchers.{FindsAhead, GoesOn, IsPast, Leaves, Meets, Rises, StaysWithin, halves_of, next_by};

use crate::ask::{Ending, ask};
use crate::kept::KeptInput;
use rc_text::input::Input;
use rc_text::types::{HalfMatch, Match, MatchError};
use std::fmt;
use std::marker::Model;

/// A searcher over an `Input<C>`.
pub type Searcher<C> = SearcherOf<Input<C>>;

/// An input, and where the last match in it ended.
///
/// Each call of `advance`, `try_advance` or `try_advance_half` returns the next match that a finder
/// finds. A finder is called with the kept input. Each of its calls has to leave the span, the
/// slice, the anchoring and the earliest flag of the input. A match that it returns has to be
/// within the bounds of the input and in the content.
#[derive(Drop)]
pub struct SearcherOf<I: KeptInput> {
    input: I,
    last: Option<usize>,
}

impl<I: KeptInput> Model for SearcherOf<I> {
    ghost use Rattle.rc_iter.specs.Searchers.{Searching};

    ghost Value = { Searching };

    ghost view = { λ s. record { input = I.searched s.input; last = s.last } };
}

impl<I: KeptInput + Drop> SearcherOf<I> {
    ghost use Rattle.std.specs.Borrow.{Lends, sem};
    ghost use Rattle.rc_iter.specs.contracts.searcher.SearcherOf.{the_row};

    /// Returns a searcher of the input, with no last match.
    pub fn new(input: I) -> SearcherOf<I>
        ensures input { result.input ≡ I.searched input }
        ensures last { result.last ≡ None }
    {
        SearcherOf { input, last: None }
    }

    /// The kept input. You may change it: the next search goes on in the changed input, and the
    /// searcher is otherwise as before.
    pub fn input(&mut self) -> &mut I
        ensures* kept { sem 𝓛 (Lends (the_row I.row I.KeptInput) I.row self.entry result
            (λ i. record { input = I.searched i; last = self.old.last })) }
        ensures input { I.searched result.now ≡ self.old.input }
    {
        &mut self.input
    }

    /// Returns the next match, or an error of the finder, as `try_advance` does.
    pub fn advance<F: FnMut(&mut I) -> Result<Option<Match>, MatchError>>(
        &mut self,
        finder: F,
    ) -> Result<Option<Match>, MatchError>
        requires callable { F.IsAlwaysCallable finder }
        requires lawful { IsLawfulFinder begin_of end_of I.searched F.FnMut finder }
        ensures exact { (find : Task → Option Found) → AnswersAs I.searched F.FnMut find finder
            → IfOk result (λ o. o ≡ next_by begin_of end_of find self.old) }
        ensures failed { IfErr result (Meets begin_of end_of I.searched F.FnMut finder self.old) }
        ensures within { StaysWithin begin_of end_of self.old result }
        ensures rises { Rises begin_of end_of self.old result }
        ensures leaves { Leaves begin_of end_of self.old result self.new }
    {
        self.try_advance(finder)
    }

    /// Returns the next match: the one that the finder finds from where the last match ended. If
    /// that is an empty match that ends there too, it is the one that the finder finds from a byte
    /// later.
    ///
    /// An error is the finder's. After a match the span of the kept input begins where the match
    /// ends. After `None` and after an error everything is as before, except the position and the
    /// chunk of the input.
    pub fn try_advance<F: FnMut(&mut I) -> Result<Option<Match>, MatchError>>(
        &mut self,
        mut finder: F,
    ) -> Result<Option<Match>, MatchError>
        requires callable { F.IsAlwaysCallable finder }
        requires lawful { IsLawfulFinder begin_of end_of I.searched F.FnMut finder }
        ensures exact { (find : Task → Option Found) → AnswersAs I.searched F.FnMut find finder
            → IfOk result (λ o. o ≡ next_by begin_of end_of find self.old) }
        ensures failed { IfErr result (Meets begin_of end_of I.searched F.FnMut finder self.old) }
        ensures within { StaysWithin begin_of end_of self.old result }
        ensures rises { Rises begin_of end_of self.old result }
        ensures leaves { Leaves begin_of end_of self.old result self.new }
    {
        self.next_by(&mut finder)
    }

    /// Returns the pattern and the end of the next match: the half match that the finder finds from
    /// where the last match ended. If that ends there too, it is the one that the finder finds from
    /// a byte later.
    ///
    /// An error is the finder's. After a half match the span of the kept input begins where it
    /// ends. After `None` and after an error everything is as before, except the position and the
    /// chunk of the input.
    pub fn try_advance_half<F: FnMut(&mut I) -> Result<Option<HalfMatch>, MatchError>>(
        &mut self,
        mut finder: F,
    ) -> Result<Option<HalfMatch>, MatchError>
        requires callable { F.IsAlwaysCallable finder }
        requires lawful { IsLawfulFinder offset_of offset_of I.searched F.FnMut finder }
        ensures exact { (find : Task → Option HalfFound) → AnswersAs I.searched F.FnMut find finder
            → IfOk result (λ o. o ≡ next_by offset_of offset_of find self.old) }
        ensures halves { (find : Task → Option Found) → FindsAhead find
            → AnswersAs I.searched F.FnMut (halves_of find) finder → IsPast self.old
            → IfOk result (λ o. o ≡ option_map half_of (next_by begin_of end_of find self.old)) }
        ensures failed { IfErr result (Meets offset_of offset_of I.searched F.FnMut
            finder self.old) }
        ensures within { StaysWithin offset_of offset_of self.old result }
        ensures rises { Rises offset_of offset_of self.old result }
        ensures leaves { Leaves offset_of offset_of self.old result self.new }
    {
        self.next_by(&mut finder)
    }

    /// Returns the next match or half match, as `try_advance` does, by a borrowed finder.
    pub(crate) fn next_by<F: FnMut(&mut I) -> Result<Option<M>, MatchError>, M: Ending>(
        &mut self,
        finder: &mut F,
    ) -> Result<Option<M>, MatchError>
        requires callable { F.IsAlwaysCallable finder.old }
        requires lawful { IsLawfulFinder M.begin M.end I.searched F.FnMut finder.old }
        ensures callable { F.IsAlwaysCallable finder.new }
        ensures lawful { IsLawfulFinder M.begin M.end I.searched F.FnMut finder.new }
        ensures exact { (find : Task → Option M) → AnswersAs I.searched F.FnMut find finder.old
            → IfOk result (λ o. o ≡ next_by M.begin M.end find self.old) }
        ensures stays { (find : Task → Option M) → AnswersAs I.searched F.FnMut find finder.old
            → AnswersAs I.searched F.FnMut find finder.new }
        ensures failed { IfErr result (Meets M.begin M.end I.searched F.FnMut
            finder.old self.old) }
        ensures within { StaysWithin M.begin M.end self.old result }
        ensures rises { Rises M.begin M.end self.old result }
        ensures leaves { Leaves M.begin M.end self.old result self.new }
    {
        let start = self.input.span_start();
        let Some(found) = ask(finder, &mut self.input)? else {
            return Ok(None);
        };
        if !found.is_again(self.last) {
            self.go_on(found.ending());
            return Ok(Some(found));
        }
        self.input.restart(start + 1);
        let later = ask(finder, &mut self.input);
        self.input.restart(start);
        let Some(found) = later? else {
            return Ok(None);
        };
        self.go_on(found.ending());
        Ok(Some(found))
    }

    /// Goes on from where a match ends.
    fn go_on(&mut self, end: usize)
        requires { end ≤ self.old.input.span.end + 1 }
        ensures { GoesOn self.old end self.new }
    {
        self.input.restart(end);
        self.last = Some(end);
    }
}

impl<I: KeptInput + fmt::Debug> fmt::Debug for SearcherOf<I> {
    fn fmt<W: fmt::Write>(&self, f: &mut fmt::Formatter<W>) -> fmt::Result {
        f.debug_struct("Searcher")
            .field("input", &self.input)
            .field("last", &self.last)
            .finish()
    }
}
