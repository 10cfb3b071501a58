//! Half-match iterator over a finder.
ghost use Rattle.std.specs.Prelude.{◌≡◌};
ghost use Rattle.rc_iter.specs.Finders.{IsLawfulFinder, offset_of};

use crate::kept::KeptInput;
use crate::searcher::SearcherOf;
use rc_text::input::Input;
use rc_text::types::{HalfMatch, MatchError};
use std::fmt;
use std::marker::Model;

/// An iterator over the half matches that a finder finds in an `Input<C>`.
pub type TryHalfMatchesIter<F, C> = TryHalfMatchesOf<F, Input<C>>;

/// An iterator over the half matches that a finder finds, one after another, as
/// `SearcherOf::try_advance_half` does.
///
/// An error of the finder is an item, and the last one.
#[derive(Drop)]
pub struct TryHalfMatchesOf<F, I: KeptInput> {
    searcher: SearcherOf<I>,
    finder: F,
    is_done: bool,
}

impl<F, I: KeptInput> Model for TryHalfMatchesOf<F, I> {
    ghost use Rattle.rc_iter.specs.Halves.{HalvesLeft};

    ghost Value = { HalvesLeft F };

    ghost view = { λ h. record { searcher = h.searcher; finder = h.finder; is_done = h.is_done } };
}

impl<I: KeptInput + Drop> SearcherOf<I> {
    ghost use Rattle.rc_iter.specs.Halves.{HalvesLaw, going};

    /// Returns an iterator over the half matches from here on.
    pub fn into_half_matches_iter<F: FnMut(&mut I) -> Result<Option<HalfMatch>, MatchError>>(
        self,
        finder: F,
    ) -> TryHalfMatchesOf<F, I>
        requires callable { F.IsAlwaysCallable finder }
        requires lawful { IsLawfulFinder offset_of offset_of I.searched F.FnMut finder }
        ensures left { result ≡ going self finder }
        ensures callable { F.IsAlwaysCallable result.finder }
        ensures lawful { IsLawfulFinder offset_of offset_of I.searched F.FnMut result.finder }
        ensures law { HalvesLaw I.searched F.FnMut self finder }
    {
        TryHalfMatchesOf {
            searcher: self,
            finder,
            is_done: false,
        }
    }
}

impl<F: FnMut(&mut I) -> Result<Option<HalfMatch>, MatchError> + Drop, I: KeptInput + Drop> Iterator
    for TryHalfMatchesOf<F, I> {
    ghost use Rattle.std.specs.Iterator.{at_most};
    ghost use Rattle.rc_iter.specs.Halves.{GivesNext, items_at_most};

    type Item = Result<HalfMatch, MatchError>;

    ghost can_next = { λ s. F.IsAlwaysCallable s.finder
        × IsLawfulFinder offset_of offset_of I.searched F.FnMut s.finder };

    ghost next_gives = { GivesNext I.searched F.FnMut };

    ghost remaining = { λ s. at_most (items_at_most s) };

    fn next(&mut self) -> Option<Result<HalfMatch, MatchError>> {
        if self.is_done {
            return None;
        }
        match self.searcher.next_by(&mut self.finder) {
            Ok(Some(found)) => Some(Ok(found)),
            Ok(None) => {
                self.is_done = true;
                None
            }
            Err(e) => {
                self.is_done = true;
                Some(Err(e))
            }
        }
    }
}

impl<F, I: KeptInput + fmt::Debug> fmt::Debug for TryHalfMatchesOf<F, I> {
    fn fmt<W: fmt::Write>(&self, f: &mut fmt::Formatter<W>) -> fmt::Result {
        f.debug_struct("TryHalfMatchesIter")
            .field("searcher", &self.searcher)
            .field("is_done", &self.is_done)
            .finish_non_exhaustive()
    }
}
