//! Match iterators: the matches of a regex, with or without groups, and the pieces between them.
//!
//! Each iterator owns its input and a cache, and searches when you call `next`: nothing is found
//! ahead. The searches take no memory.

use crate::regex::Regex;
use crate::seeker::{GroupSeeker, Seeker};
use rc_captures::captures::Captures;
use rc_strategy::list::ListMemo;
use rc_text::cursor::Cursor;
use rc_text::input::{Input, content_fits, high};
use rc_text::types::{Match, Span};
use std::alloc::AllocError;
use std::iter::FusedIterator;
use std::marker::Model;

/// An iterator over the matches of a regex in an input, from left to right.
///
/// Each call of `next` searches, and takes no memory. It keeps the regex, and the input except for
/// the start of its span. After the last match it returns `None`, whatever the input becomes.
#[derive(Drop)]
pub struct FindMatches<'r, C: Cursor> {
    pub(crate) seeker: Seeker<'r>,
    pub(crate) input: Input<C>,
    /// What is kept of the runs over the input.
    pub(crate) memo: ListMemo,
}

impl<'r, C: Cursor> Model for FindMatches<'r, C> {
    ghost use Rattle.rc_strategy.specs.Lists.{IsListMemo};
    ghost use Rattle.api_meta.specs.Seeking.{Finding};
    ghost use Rattle.rc_strategy.specs.contracts.cache.Cache as caches;
    ghost use Rattle.api_meta.specs.contracts.regex.Regex as regexes;
    ghost use Rattle.std.specs.Coded.{codes};

    ghost Value = { Finding };

    ghost coded = { Prim.hlevel (codes, regexes.the_row.coded, caches.the_row.coded) };

    ghost view = { λ s. record { seeker = s.seeker; input = s.input } };

    ghost invariant = { λ s. IsListMemo s.seeker.regex.engines s.input s.memo };
}

/// An iterator over the matches of a regex in an input, from left to right, each with its groups.
///
/// Each call of `next` searches. It allocates the captures of one match and nothing else: it
/// returns them with the match, or frees them if no match is left. It keeps the regex, and the
/// input except for the start of its span. If a match is left and there is no memory for its
/// captures, an `Err` is the last item. After it, and after the last match, `next` returns `None`,
/// whatever the input becomes.
#[derive(Drop)]
pub struct CapturesMatches<'r, C: Cursor> {
    pub(crate) seeker: GroupSeeker<'r>,
    pub(crate) input: Input<C>,
}

/// An iterator over the pieces of a content between the matches of a regex, from left to right.
///
/// Each call of `next` searches, and takes no memory. It keeps the regex, and the input except for
/// the start of its span. After the last piece it returns `None`, whatever the input becomes.
#[derive(Drop)]
pub struct Split<'r, C: Cursor> {
    pub(crate) pieces: Pieces<'r>,
    pub(crate) input: Input<C>,
}

/// An iterator over the pieces of a content between the matches of a regex, up to a limit. Each
/// call of `next` lowers the limit by one.
#[derive(Drop)]
pub struct SplitN<'r, C: Cursor> {
    pub(crate) pieces: Pieces<'r>,
    pub(crate) input: Input<C>,
    /// The number of calls of `next` that may still return a piece.
    pub(crate) limit: usize,
}

/// The state of a split: it returns the pieces between the matches one after another, in a borrowed
/// input.
#[derive(Drop)]
pub(crate) struct Pieces<'r> {
    pub(crate) seeker: Seeker<'r>,
    /// Where the next piece begins.
    pub(crate) start: usize,
    pub(crate) is_done: bool,
}

impl<'r, C: Cursor> FindMatches<'r, C> {
    ghost use Rattle.std.specs.Prelude.{◌≡◌, []};
    ghost use Rattle.std.specs.Borrow.{Lends, sem};
    ghost use mir.Syntax.{named};
    ghost use Rattle.rc_text.specs.contracts.input.Input.{the_row as input_row};
    ghost use Rattle.api_meta.specs.contracts.iterators.FindMatches.{the_row};
    ghost use Rattle.api_meta.specs.Left.{find_input, find_regex, with_find_input};

    /// The regex.
    pub fn regex(&self) -> &'r Regex
        ensures { result.now ≡ find_regex self.now }
    {
        self.seeker.regex
    }

    /// The input. You may change it: `next` then goes on in the changed input, and the iterator is
    /// otherwise unchanged.
    pub fn input(&mut self) -> &mut Input<C>
        ensures* kept { sem 𝓛 (Lends (the_row (record { mir = named 1; lft = [] }) C.row C.Cursor)
            (input_row C.row C.Cursor) self.entry result (with_find_input self.old)) }
        ensures input { result.now ≡ find_input self.old }
    {
        self.memo.clear();
        let FindMatches { input, .. } = self;
        input
    }
}

impl<'r, C: Cursor + Drop> FindMatches<'r, C> {
    ghost use Rattle.std.specs.Prelude.{◌≡◌, length};
    ghost use Rattle.api_meta.specs.Left.{find_left};

    /// The number of matches that are left. It takes no memory.
    pub fn count(self) -> usize
        ensures { result ≡ length (find_left self.entry) }
    {
        content_fits(&self.input);
        Iterator::count(self)
    }
}

impl<'r, C: Cursor + Drop> Iterator for FindMatches<'r, C> {
    ghost use Rattle.std.specs.Iterator.{item_count};
    ghost use Rattle.api_meta.specs.Left.{FindNext, find_left};

    type Item = Match;

    ghost next_gives = { FindNext };

    ghost remaining = { item_count find_left };

    fn next(&mut self) -> Option<Match> {
        self.seeker.next_along(&mut self.input, &mut self.memo)
    }
}

impl<'r, C: Cursor + Drop> FusedIterator for FindMatches<'r, C> {}

impl<'r, C: Cursor> CapturesMatches<'r, C> {
    ghost use Rattle.std.specs.Prelude.{◌≡◌, []};
    ghost use Rattle.std.specs.Borrow.{Lends, sem};
    ghost use mir.Syntax.{named};
    ghost use Rattle.rc_text.specs.contracts.input.Input.{the_row as input_row};
    ghost use Rattle.api_meta.specs.contracts.iterators.CapturesMatches.{the_row};
    ghost use Rattle.api_meta.specs.Left.{captures_input, captures_regex, with_captures_input};

    /// The regex.
    pub fn regex(&self) -> &'r Regex
        ensures { result.now ≡ captures_regex self.now }
    {
        self.seeker.seeker.regex
    }

    /// The input. You may change it: `next` then goes on in the changed input, and the iterator is
    /// otherwise unchanged.
    pub fn input(&mut self) -> &mut Input<C>
        ensures* kept { sem 𝓛 (Lends (the_row (record { mir = named 1; lft = [] }) C.row C.Cursor)
            (input_row C.row C.Cursor) self.entry result (with_captures_input self.old)) }
        ensures input { result.now ≡ captures_input self.old }
    {
        let CapturesMatches { input, .. } = self;
        input
    }
}

impl<'r, C: Cursor + Drop> CapturesMatches<'r, C> {
    ghost use Rattle.std.specs.Prelude.{◌≡◌, length};
    ghost use Rattle.api_meta.specs.Left.{captures_left};

    /// The number of matches that are left: as many as `next` would return with enough memory. It
    /// makes no captures, and takes no memory.
    pub fn count(self) -> usize
        ensures { result ≡ length (captures_left self.entry) }
    {
        let matches = FindMatches {
            seeker: self.seeker.seeker,
            input: self.input,
            memo: ListMemo::new(),
        };
        matches.count()
    }
}

impl<'r, C: Cursor + Drop> Iterator for CapturesMatches<'r, C> {
    ghost use Rattle.std.specs.Iterator.{item_count};
    ghost use Rattle.api_meta.specs.Left.{captures_left, CapturesNext};

    type Item = Result<Captures, AllocError>;

    ghost next_gives = { CapturesNext };

    ghost remaining = { item_count captures_left };

    /// Returns the next match, with its groups. An `Err` means out of memory for them; no item
    /// comes after it.
    fn next(&mut self) -> Option<Result<Captures, AllocError>> {
        self.seeker.next(&mut self.input)
    }
}

impl<'r, C: Cursor + Drop> FusedIterator for CapturesMatches<'r, C> {}

impl<'r> Pieces<'r> {
    ghost use Rattle.std.specs.Prelude.{◌≡◌, ◌∷◌, ℕ, suc, [], IfNone, IsTrue, MatchOption, true};
    ghost use Rattle.rc_text.specs.Text.{high};
    ghost use Rattle.api_meta.specs.Left.{Goes, few_in, pieces_in};

    /// Returns the next piece.
    pub(crate) fn next_piece<C: Cursor>(&mut self, input: &mut Input<C>) -> Option<Span>
        ensures steps { MatchOption result
            ((pieces_in self.old input.old ≡ []) × (pieces_in self.new input.new ≡ []))
            (λ piece. pieces_in self.old input.old ≡ piece ∷ pieces_in self.new input.new) }
        ensures limited { (n : ℕ) → MatchOption result
            ((few_in n self.old input.old ≡ []) × (few_in n self.new input.new ≡ []))
            (λ piece. few_in (suc (suc n)) self.old input.old ≡ piece
            ∷ few_in (suc n) self.new input.new) }
        ensures goes { Goes self.old.seeker input.old self.new.seeker input.new }
        ensures over { IfNone result (IsTrue self.new.is_done) }
    {
        if self.is_done {
            return None;
        }
        let start = self.start;
        let Some(found) = self.seeker.next_match(input) else {
            return Some(self.rest(input));
        };
        self.start = found.end();
        Some(Span {
            start,
            end: found.start(),
        })
    }

    /// Returns everything from the start of the next piece on, as the last piece.
    pub(crate) fn rest<C: Cursor>(&mut self, input: &mut Input<C>) -> Span
        ensures value { result ≡ record { start = self.old.start; end = high input.old } }
        ensures done { self.new.is_done ≡ true }
        ensures goes { Goes self.old.seeker input.old self.new.seeker input.new }
    {
        self.is_done = true;
        Span {
            start: self.start,
            end: high(input),
        }
    }
}

impl<'r, C: Cursor> Split<'r, C> {
    ghost use Rattle.std.specs.Prelude.{◌≡◌, []};
    ghost use Rattle.std.specs.Borrow.{Lends, sem};
    ghost use mir.Syntax.{named};
    ghost use Rattle.rc_text.specs.contracts.input.Input.{the_row as input_row};
    ghost use Rattle.api_meta.specs.contracts.iterators.Split.{the_row};
    ghost use Rattle.api_meta.specs.Left.{split_input, with_split_input};

    /// The input. You may change it: `next` then goes on in the changed input, and the iterator is
    /// otherwise unchanged.
    pub fn input(&mut self) -> &mut Input<C>
        ensures* kept { sem 𝓛 (Lends (the_row (record { mir = named 1; lft = [] }) C.row C.Cursor)
            (input_row C.row C.Cursor) self.entry result (with_split_input self.old)) }
        ensures input { result.now ≡ split_input self.old }
    {
        let Split { input, .. } = self;
        input
    }
}

impl<'r, C: Cursor + Drop> Iterator for Split<'r, C> {
    ghost use Rattle.std.specs.Iterator.{item_count};
    ghost use Rattle.api_meta.specs.Left.{SplitNext, split_left};

    type Item = Span;

    ghost next_gives = { SplitNext };

    ghost remaining = { item_count split_left };

    fn next(&mut self) -> Option<Span> {
        self.pieces.next_piece(&mut self.input)
    }
}

impl<'r, C: Cursor + Drop> FusedIterator for Split<'r, C> {}

impl<'r, C: Cursor> SplitN<'r, C> {
    ghost use Rattle.std.specs.Prelude.{◌≡◌, ◌-◌, []};
    ghost use Rattle.std.specs.Iterator.{YieldsFirst};
    ghost use Rattle.std.specs.Borrow.{Lends, sem};
    ghost use mir.Syntax.{named};
    ghost use Rattle.rc_text.specs.contracts.input.Input.{the_row as input_row};
    ghost use Rattle.api_meta.specs.contracts.iterators.SplitN.{the_row};
    ghost use Rattle.api_meta.specs.Left.{SplitnKeeps, splitn_input, splitn_left, splitn_limit, with_splitn_input};

    /// The input. You may change it: `next` then goes on in the changed input, and the iterator is
    /// otherwise unchanged.
    pub fn input(&mut self) -> &mut Input<C>
        ensures* kept { sem 𝓛 (Lends (the_row (record { mir = named 1; lft = [] }) C.row C.Cursor)
            (input_row C.row C.Cursor) self.entry result (with_splitn_input self.old)) }
        ensures input { result.now ≡ splitn_input self.old }
    {
        let SplitN { input, .. } = self;
        input
    }

    /// Returns the next piece. Each call lowers the limit.
    pub fn next(&mut self) -> Option<Span>
        ensures steps { YieldsFirst splitn_left self.old result self.new }
        ensures limit { splitn_limit self.new ≡ splitn_limit self.old - 1 }
        ensures keeps { SplitnKeeps self.old self.new }
    {
        let limit = self.limit;
        self.limit = limit.saturating_sub(1);
        if limit == 0 || self.pieces.is_done {
            return None;
        }
        let input = &mut self.input;
        if limit == 1 {
            return Some(self.pieces.rest(input));
        }
        self.pieces.next_piece(input)
    }
}

impl<'r, C: Cursor + Drop> Iterator for SplitN<'r, C> {
    ghost use Rattle.std.specs.Prelude.{◌≡◌, Some, IfSome};
    ghost use Rattle.std.specs.Iterator.{UpTo, at_most};
    ghost use Rattle.std.specs.Iterator.SizeHint.{IsWithinCount};
    ghost use Rattle.api_meta.specs.Left.{SplitnNext, splitn_limit};

    type Item = Span;

    ghost next_gives = { SplitnNext };

    ghost remaining = { λ s. at_most (splitn_limit s) };

    fn next(&mut self) -> Option<Span> {
        SplitN::next(self)
    }

    /// From 0 to the limit, less the calls of `next` so far.
    fn size_hint(&self) -> (usize, Option<usize>)
        ensures lower { IsWithinCount result.0 (at_most (splitn_limit self.now)) }
        ensures upper { IfSome result.1 (UpTo (at_most (splitn_limit self.now))) }
        ensures value { result ≡ (0, Some (splitn_limit self.now)) }
    {
        (0, Some(self.limit))
    }
}

impl<'r, C: Cursor + Drop> FusedIterator for SplitN<'r, C> {}
