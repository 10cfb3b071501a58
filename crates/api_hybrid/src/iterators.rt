//! Match iterators over a lazy DFA.

use crate::finder::Finder;
use crate::regex::Regex;
use rc_text::cursor::Cursor;
use rc_text::input::Input;
use rc_text::types::{Match, MatchError};
use std::fmt;
use std::iter::FusedIterator;

/// An iterator over the matches in an input, from left to right. Each call of `next` searches, in a
/// borrowed cache.
///
/// A call keeps the `Regex`, and the input except for the start of its span. An error of a search
/// is an item. After an error, and after the last match, it returns `None`, whatever the input
/// becomes. The cache is always one that was made for the `Regex`.
#[derive(Drop)]
pub struct FindMatches<'r, 'c, C: Cursor> {
    pub(crate) finder: Finder<'r, 'c>,
    pub(crate) input: Input<C>,
    pub(crate) last: Option<usize>,
    pub(crate) is_done: bool,
}

impl<'r, 'c, C: Cursor> FindMatches<'r, 'c, C> {
    ghost use Rattle.std.specs.Prelude.{◌≡◌, []};
    ghost use Rattle.std.specs.Borrow.{Lends, sem};
    ghost use mir.Syntax.{named};
    ghost use Rattle.rc_text.specs.contracts.input.Input.{the_row as input_row};
    ghost use Rattle.api_hybrid.specs.contracts.iterators.FindMatches.{the_row};
    ghost use Rattle.api_hybrid.specs.Left.{find_input, find_regex, with_input};

    /// The regex that searches.
    pub fn regex(&self) -> &'r Regex
        ensures { result.now ≡ find_regex self.now }
    {
        self.finder.regex()
    }

    /// The input. You may change it: the next search goes on in the changed input, and the iterator
    /// is otherwise unchanged.
    pub fn input(&mut self) -> &mut Input<C>
        ensures* kept { sem 𝓛 (Lends
            (the_row (record { mir = named 0; lft = [] })
            (record { mir = named 1; lft = [] }) C.row C.Cursor)
            (input_row C.row C.Cursor) self.entry result (with_input self.old)) }
        ensures input { result.now ≡ find_input self.old }
    {
        &mut self.input
    }
}

impl<'r, 'c, C: Cursor + Drop> Iterator for FindMatches<'r, 'c, C> {
    ghost use Rattle.api_hybrid.specs.Left.{FindSteps, items_left};

    type Item = Result<Match, MatchError>;

    ghost next_gives = { FindSteps };

    ghost remaining = { items_left };

    fn next(&mut self) -> Option<Result<Match, MatchError>> {
        if self.is_done {
            return None;
        }
        match self.finder.next_match(&mut self.input, self.last) {
            Ok(Some(found)) => {
                self.last = Some(found.end());
                Some(Ok(found))
            }
            Ok(None) => {
                self.is_done = true;
                None
            }
            Err(error) => {
                self.is_done = true;
                Some(Err(error))
            }
        }
    }
}

impl<'r, 'c, C: Cursor + Drop> FusedIterator for FindMatches<'r, 'c, C> {}

impl<'r, 'c, C: Cursor> fmt::Debug for FindMatches<'r, 'c, C> {
    fn fmt<W: fmt::Write>(&self, f: &mut fmt::Formatter<W>) -> fmt::Result {
        f.debug_struct("FindMatches")
            .field("span", &self.input.get_span())
            .field("last", &self.last)
            .field("is_done", &self.is_done)
            .finish_non_exhaustive()
    }
}
