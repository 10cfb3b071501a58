//! Match iterators in a borrowed cache and a borrowed input.
//!
//! They search when you call `next`: nothing is found ahead. Once an iterator is dropped, cache and
//! input are yours again.

use crate::cache::Cache;
use crate::regex::Regex;
use crate::seeker::Standing;
use rc_captures::captures::Captures;
use rc_text::cursor::Cursor;
use rc_text::input::{Input, content_fits};
use rc_text::types::Match;
use std::alloc::{AllocError, Global};
use std::iter::FusedIterator;

/// An iterator over the matches of a regex in an input, from left to right. It borrows the input
/// and a cache.
///
/// Each call of `next` searches, and takes no memory. It keeps the regex, and the cache stays one
/// that was made for it. It keeps the input except for the start of its span, which becomes the end
/// of the match. After the last match it returns `None`.
#[derive(Drop)]
pub struct FindMatchesWith<'r, 'c, 'i, C: Cursor> {
    pub(crate) regex: &'r Regex,
    pub(crate) cache: &'c mut Cache,
    pub(crate) input: &'i mut Input<C>,
    pub(crate) standing: Standing,
}

/// An iterator over the matches of a regex in an input, from left to right, each with its groups.
/// It borrows the input and a cache.
///
/// Each call of `next` searches. It allocates the captures of one match and nothing else: it
/// returns them with the match, or frees them if no match is left. It keeps what a call of
/// `FindMatchesWith::next` keeps. If a match is left and there is no memory for its captures, an
/// `Err` is the last item. After it, and after the last match, `next` returns `None`.
#[derive(Drop)]
pub struct CapturesMatchesWith<'r, 'c, 'i, C: Cursor> {
    pub(crate) regex: &'r Regex,
    pub(crate) cache: &'c mut Cache,
    pub(crate) input: &'i mut Input<C>,
    pub(crate) standing: Standing,
    pub(crate) alloc: Global,
}

impl Regex {
    ghost use Rattle.std.specs.Prelude.{◌≡◌, ◌≢◌, ◌<◌, ◌^◌, All, None, length};
    ghost use Rattle.rc_pikevm_search.specs.Walks.{walks_left};
    ghost use Rattle.api_meta.specs.Caches.{IsCacheFor};
    ghost use Rattle.api_meta.specs.Left.{CapturesLaw, MatchedLaw, captures_walks};
    ghost use Rattle.api_meta.specs.Lent.{CapturesKeepAlong, CapturesRunAlike, FindKeepsAlong, FindRunsWith, HasItsCache, KeepsItsCache, captures_by, captures_with_input, captures_with_lenders, captures_with_left, captures_with_regex, find_with_input, find_with_left, find_with_lenders, find_with_regex};
    ghost use Rattle.api_meta.specs.Views.{regex_kind, regex_names, regex_patterns, regex_settings, sought};
    ghost use Rattle.rc_program.specs.Kinds.{matches_by_kind};
    ghost use Rattle.rc_program.specs.Matches.{matches_left};
    ghost use Rattle.rc_program.specs.Sought.{search_for};
    ghost use Rattle.rc_settings.specs.Settings.{match_kind_of};
    ghost use Rattle.rc_text.specs.Bounds.{IsWithinBounds};
    ghost use Rattle.rc_text.specs.declared.types.MatchKind.TheVariants.{All as greatest_matches, LeftmostFirst};

    /// Returns an iterator over the matches that `find_iter` finds, in a cache that was made for
    /// this regex. Neither this call nor an item takes memory.
    ///
    /// The cache stays one that was made for this regex, even if you drop the iterator before the
    /// last match.
    pub fn find_iter_with<'r, 'c, 'i, C: Cursor>(
        &'r self,
        cache: &'c mut Cache,
        input: &'i mut Input<C>,
    ) -> FindMatchesWith<'r, 'c, 'i, C>
        requires made { IsCacheFor (regex_patterns self.now) (regex_settings self.now) cache.old }
        ensures left { match_kind_of (regex_settings self.now) ≡ LeftmostFirst
            → find_with_left result ≡ matches_left
            (search_for (sought self.now) input.old) input.old.span.start None }
        ensures left_by { find_with_left result
            ≡ matches_by_kind (regex_kind self.now)
            (search_for (sought self.now) input.old) input.old.span.start None }
        ensures within { All (IsWithinBounds input.old) (find_with_left result) }
        ensures short { length (find_with_left result) < 2 ^ 64 }
        ensures regex { find_with_regex result ≡ self.now }
        ensures input { find_with_input result ≡ input.old }
        ensures same_references { find_with_lenders result
            ≡ (cache.entry.ghost_name, input.entry.ghost_name) }
        ensures made { HasItsCache result }
        ensures runs { FindRunsWith result }
        ensures stays { FindKeepsAlong result }
    {
        content_fits(input);
        let standing = Standing {
            last: None,
            is_done: false,
        };
        FindMatchesWith {
            regex: self,
            cache,
            input,
            standing,
        }
    }

    /// Returns an iterator over the matches that `captures_iter` finds, each with its groups, in a
    /// cache that was made for this regex. This call takes no memory. An item takes only the memory
    /// of its captures, and is an `Err` if there is none.
    ///
    /// The cache stays one that was made for this regex, even if you drop the iterator before the
    /// last match.
    pub fn captures_iter_with<'r, 'c, 'i, C: Cursor>(
        &'r self,
        alloc: Global,
        cache: &'c mut Cache,
        input: &'i mut Input<C>,
    ) -> CapturesMatchesWith<'r, 'c, 'i, C>
        requires made { IsCacheFor (regex_patterns self.now) (regex_settings self.now) cache.old }
        ensures left { match_kind_of (regex_settings self.now) ≡ LeftmostFirst
            → captures_with_left result ≡ matches_left
            (search_for (sought self.now) input.old) input.old.span.start None }
        ensures left_by { captures_with_left result
            ≡ matches_by_kind (regex_kind self.now)
            (search_for (sought self.now) input.old) input.old.span.start None }
        ensures walks { captures_walks (captures_by result)
            ≡ walks_left (regex_kind self.now)
            (search_for (sought self.now) input.old) input.old.span.start None }
        ensures law { regex_kind self.now ≢ greatest_matches
            → CapturesLaw (regex_kind self.now) (regex_names self.now)
            (search_for (sought self.now) input.old) input.old.span.start (captures_by result) }
        ensures law_by { MatchedLaw (regex_kind self.now) (regex_names self.now)
            (search_for (sought self.now) input.old) input.old.span.start (captures_by result) }
        ensures made { KeepsItsCache result }
        ensures runs { CapturesRunAlike result }
        ensures short { length (captures_with_left result) < 2 ^ 64 }
        ensures regex { captures_with_regex result ≡ self.now }
        ensures input { captures_with_input result ≡ input.old }
        ensures same_references { captures_with_lenders result
            ≡ (cache.entry.ghost_name, input.entry.ghost_name) }
        ensures stays { CapturesKeepAlong result }
    {
        content_fits(input);
        let standing = Standing {
            last: None,
            is_done: false,
        };
        CapturesMatchesWith {
            regex: self,
            cache,
            input,
            standing,
            alloc,
        }
    }
}

impl<'r, 'c, 'i, C: Cursor> FindMatchesWith<'r, 'c, 'i, C> {
    ghost use Rattle.std.specs.Prelude.{◌≡◌};
    ghost use Rattle.api_meta.specs.Lent.{find_with_regex};

    /// The regex.
    pub fn regex(&self) -> &'r Regex
        ensures { result.now ≡ find_with_regex self.now }
    {
        self.regex
    }
}

impl<'r, 'c, 'i, C: Cursor> Iterator for FindMatchesWith<'r, 'c, 'i, C> {
    ghost use Rattle.std.specs.Iterator.{item_count};
    ghost use Rattle.api_meta.specs.Lent.{FindNextWith, HasItsCache, find_with_left};

    type Item = Match;

    ghost can_next = { HasItsCache };

    ghost next_gives = { FindNextWith };

    ghost remaining = { item_count find_with_left };

    fn next(&mut self) -> Option<Match> {
        let cache = &mut self.cache.inner;
        let input = &mut *self.input;
        self.standing.next_match(self.regex, cache, input)
    }
}

impl<'r, 'c, 'i, C: Cursor> FusedIterator for FindMatchesWith<'r, 'c, 'i, C> {}

impl<'r, 'c, 'i, C: Cursor> CapturesMatchesWith<'r, 'c, 'i, C> {
    ghost use Rattle.std.specs.Prelude.{◌≡◌};
    ghost use Rattle.api_meta.specs.Lent.{captures_with_regex};

    /// The regex.
    pub fn regex(&self) -> &'r Regex
        ensures { result.now ≡ captures_with_regex self.now }
    {
        self.regex
    }
}

impl<'r, 'c, 'i, C: Cursor> Iterator for CapturesMatchesWith<'r, 'c, 'i, C> {
    ghost use Rattle.std.specs.Iterator.{item_count};
    ghost use Rattle.api_meta.specs.Lent.{CapturesNextWith, KeepsItsCache, captures_with_left};

    type Item = Result<Captures, AllocError>;

    ghost can_next = { KeepsItsCache };

    ghost next_gives = { CapturesNextWith };

    ghost remaining = { item_count captures_with_left };

    /// Returns the next match, with its groups. An `Err` means out of memory for them; no item
    /// comes after it.
    fn next(&mut self) -> Option<Result<Captures, AllocError>> {
        let cache = &mut self.cache.inner;
        let input = &mut *self.input;
        self.standing
            .next_captures(self.regex, cache, self.alloc, input)
    }
}

impl<'r, 'c, 'i, C: Cursor> FusedIterator for CapturesMatchesWith<'r, 'c, 'i, C> {}
