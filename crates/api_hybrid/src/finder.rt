//! Match finder of the iterators: a lazy DFA with a borrowed cache to it.

ghost use Rattle.std.specs.Prelude.{◌≡◌, ◌∷◌, [], IfErr, IfOk, MatchOption, Some};
ghost use Rattle.rc_pikevm_search.specs.Moved.{IsMoved};
ghost use Rattle.api_hybrid.specs.Caches.{IsCacheFor};
ghost use Rattle.api_hybrid.specs.Faults.{ClearsWhereShortNext, IsNextFault};
ghost use Rattle.api_hybrid.specs.Left.{matches_in};

use crate::cache::Cache;
use crate::regex::Regex;
use crate::search;
use rc_text::cursor::Cursor;
use rc_text::input::Input;
use rc_text::types::{Match, MatchError};
use std::marker::Model;

/// A regex, with a borrowed cache that was made for it.
#[derive(Drop)]
pub(crate) struct Finder<'r, 'c> {
    pub(crate) regex: &'r Regex,
    pub(crate) cache: &'c mut Cache,
}

impl<'r, 'c> Model for Finder<'r, 'c> {
    ghost use Rattle.api_hybrid.specs.Caches.{IsCacheFor};
    ghost use Rattle.api_hybrid.specs.Finding.{Finding};
    ghost use Rattle.api_hybrid.specs.contracts.cache.Cache as caches;
    ghost use Rattle.api_hybrid.specs.contracts.regex.Regex as regexes;
    ghost use Rattle.std.specs.Coded.{codes};

    ghost Value = { Finding };

    ghost coded = { Prim.hlevel (codes, regexes.the_row.coded, caches.the_row.coded) };

    ghost view = { λ f. record {
      regex = f.regex.now;
      cache = f.cache.now;
      lender = f.cache.ghost_name;
    } };

    ghost invariant = { λ f. IsCacheFor f.regex.now f.cache.now };
}

impl<'r, 'c> Finder<'r, 'c> {
    /// The regex.
    pub(crate) fn regex(&self) -> &'r Regex
        ensures { result.now ≡ self.now.regex }
    {
        self.regex
    }

    /// Returns the next match in the input; the last one ended at `last`. The span then starts
    /// where the new match ends.
    pub(crate) fn next_match<C: Cursor>(
        &mut self,
        input: &mut Input<C>,
        last: Option<usize>,
    ) -> Result<Option<Match>, MatchError>
        ensures made { IsCacheFor self.new.regex self.new.cache }
        ensures left { IfOk result (λ o. MatchOption o
            (matches_in self.old.regex input.old last ≡ [])
            (λ m. matches_in self.old.regex input.old last ≡ m
            ∷ matches_in self.old.regex input.new (Some m.end))) }
        ensures regex { self.new.regex ≡ self.old.regex }
        ensures same_reference { self.new.lender ≡ self.old.lender }
        ensures moves { IsMoved input.old input.new }
        ensures fault { IfErr result (IsNextFault self.old.regex input.old
            self.old.cache self.new.cache) }
        ensures clears { ClearsWhereShortNext self.old.regex input.old self.old.cache
            self.new.cache }
    {
        search::next_match(self.regex, self.cache, input, last)
    }
}
