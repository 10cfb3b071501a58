//! Match iterators over a Pike VM.

ghost use Rattle.api_pikevm.specs.Caches.{IsCacheFor};
ghost use Rattle.api_pikevm.specs.Views.{sought};

use crate::cache::Cache;
use crate::search::next_match;
use crate::vm::PikeVM;
use rc_text::cursor::Cursor;
use rc_text::input::Input;
use rc_text::types::Match;
use std::fmt;
use std::iter::FusedIterator;

/// An iterator over the matches in an input, from left to right. Each call of `next` searches, in a
/// borrowed cache.
///
/// A call keeps the `PikeVM`, and the input except for the start of its span. After the last match
/// it returns `None`, whatever the input becomes. The cache is always one that was made for the
/// `PikeVM`.
#[derive(Drop)]
pub struct FindMatches<'v, 'c, C: Cursor> {
    pub(crate) vm: &'v PikeVM,
    pub(crate) cache: &'c mut Cache,
    pub(crate) input: Input<C>,
    pub(crate) last: Option<usize>,
    pub(crate) is_done: bool,
    ghost made: { IsCacheFor (sought vm.now) cache.now },
}

impl<'v, 'c, C: Cursor> FindMatches<'v, 'c, C> {
    ghost use Rattle.std.specs.Prelude.{◌≡◌, []};
    ghost use Rattle.std.specs.Borrow.{Lends, sem};
    ghost use mir.Syntax.{named};
    ghost use Rattle.rc_text.specs.contracts.input.Input.{the_row as input_row};
    ghost use Rattle.api_pikevm.specs.contracts.iterators.FindMatches.{the_row};
    ghost use Rattle.api_pikevm.specs.Left.{find_input, find_vm, with_input};

    /// The `PikeVM` that searches.
    pub fn vm(&self) -> &'v PikeVM
        ensures { result.now ≡ find_vm self.now }
    {
        self.vm
    }

    /// The input. You may change it: the next search goes on in the changed input, and the iterator
    /// is otherwise unchanged.
    pub fn input(&mut self) -> &mut Input<C>
        ensures* kept { sem 𝓛 (Lends
            (the_row (record { mir = named 0; lft = [] })
            (record { mir = named 1; lft = [] }) C.row C.Cursor)
            (input_row C.row C.Cursor) self.entry result (with_input self.old)) }
        ensures input { result.now ≡ find_input self.old }
    {
        &mut self.input
    }
}

impl<'v, 'c, C: Cursor + Drop> Iterator for FindMatches<'v, 'c, C> {
    ghost use Rattle.std.specs.Iterator.{item_count};
    ghost use Rattle.api_pikevm.specs.Left.{FindSteps, find_left};

    type Item = Match;

    ghost next_gives = { FindSteps };

    ghost remaining = { item_count find_left };

    fn next(&mut self) -> Option<Match> {
        if self.is_done {
            return None;
        }
        let Some(found) = next_match(self.vm, self.cache, &mut self.input, self.last) else {
            self.is_done = true;
            return None;
        };
        self.last = Some(found.end());
        Some(found)
    }
}

impl<'v, 'c, C: Cursor + Drop> FusedIterator for FindMatches<'v, 'c, C> {}

impl<'v, 'c, C: Cursor> fmt::Debug for FindMatches<'v, 'c, C> {
    fn fmt<W: fmt::Write>(&self, f: &mut fmt::Formatter<W>) -> fmt::Result {
        f.debug_struct("FindMatches")
            .field("span", &self.input.get_span())
            .field("last", &self.last)
            .field("is_done", &self.is_done)
            .finish_non_exhaustive()
    }
}
