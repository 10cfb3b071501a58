//! Finder: a regex together with a cache of its own.

ghost use Rattle.api_meta.specs.Caches.{IsCacheFor};
ghost use Rattle.api_meta.specs.Views.{regex_patterns, regex_settings};

use crate::ahead::ListMemo;
use crate::cache::Cache;
use crate::partial::Partial;
use crate::reach::{Reached, ReachedCaptures};
use crate::regex::Regex;
use rc_captures::captures::Captures;
use rc_pattern_set::sets::PatternSet;
use rc_text::cursor::Cursor;
use rc_text::input::Input;
use rc_text::types::{HalfMatch, Match};
use std::alloc::{AllocError, Global};
use std::marker::Model;

/// A borrowed regex and a cache that was made for it, so that its searches need nothing else.
/// Contracts see it as the regex.
pub struct Finder<'r> {
    regex: &'r Regex,
    cache: Cache,
}

// Crates above call this, and drop no part by themselves.
impl Drop for Finder<'_> {
    fn drop(self) {
        let Finder { regex: _, cache: _ } = self;
    }
}

impl<'r> Model for Finder<'r> {
    ghost use Rattle.api_meta.specs.Caches.{IsCacheFor};
    ghost use Rattle.api_meta.specs.Views.{regex_patterns, regex_settings};
    ghost use Rattle.api_meta.specs.contracts.regex.Regex as regexes;
    ghost use Rattle.api_meta.specs.declared.regex.Regex.{Regex};

    ghost Value = { Regex };

    ghost coded = { regexes.the_row.coded };

    ghost view = { λ f. f.regex.now };

    ghost invariant = { λ f. IsCacheFor (regex_patterns f.regex.now)
        (regex_settings f.regex.now) f.cache };
}

impl<'r> Finder<'r> {
    ghost use Rattle.std.specs.Prelude.{◌≡◌, ◌+◌, ◌↔◌, ◌≤◌, IfOk, IfSome, IsSome, IsTrue, OnErr, false, option_map};
    ghost use Rattle.rc_captures.specs.Captures.{IsCapturesFor, match_of};
    ghost use Rattle.rc_pikevm_search.specs.Tells.{KeepsAll, Tells, TellsBy};
    ghost use Rattle.rc_strategy.specs.Early.{IsHalfBy};
    ghost use Rattle.api_meta.specs.Preferred.{HoldsPreferred};
    ghost use Rattle.api_meta.specs.Views.{regex_kind, regex_names, regex_patterns, regex_settings, sought};
    ghost use Rattle.rc_parses.specs.Preference.{ArePlain, IsPreferredMatch};
    ghost use Rattle.rc_pikevm.specs.PatternSpans.{AddsSpelled};
    ghost use Rattle.rc_program.specs.Answer.{answer};
    ghost use Rattle.rc_pikevm_search.specs.Moved.{IsMoved};
    ghost use Rattle.rc_program.specs.Kinds.{IsAnswerBy, answer_by, answer_by_from, is_early};
    ghost use Rattle.rc_program.specs.Matches.{begin_of, end_of, next_match};
    ghost use Rattle.api_meta.specs.Ahead.{AddsNext, ComesBehind};
    ghost use Rattle.rc_program.specs.Sought.{search_for};
    ghost use Rattle.rc_settings.specs.Settings.{match_kind_of};
    ghost use Rattle.rc_text.specs.Found.{half_of};
    ghost use Rattle.rc_text.specs.Bounds.{IsWithinBounds};
    ghost use Rattle.rc_text.specs.Text.{Keeps, high, low, slice_end};
    ghost use Rattle.rc_reach.specs.Partial.{IsPartial};
    ghost use Rattle.rc_reach.specs.Settled.{IsSettled};
    ghost use Rattle.api_meta.specs.Partials.{IsFarOn, IsOnward, partial_of};
    ghost use Rattle.api_meta.specs.Reached.{IsNear, IsNearStart, IsSharp, TellsBelow};
    ghost use Rattle.rc_text.specs.declared.types.MatchKind.TheVariants.{LeftmostFirst};

    /// Returns a finder for this regex, with a cache of its own. An `Err` means out of memory.
    pub fn new(alloc: Global, regex: &'r Regex) -> Result<Finder<'r>, AllocError>
        ensures { IfOk result (λ f. f ≡ regex.now) }
    {
        let cache = regex.create_cache(alloc)?;
        Ok(Finder { regex, cache })
    }

    /// The regex.
    pub fn regex(&self) -> &'r Regex
        ensures { result.now ≡ self.now }
    {
        self.regex
    }

    /// Returns the match that a search of the input finds, as `Regex::find` does. It takes no
    /// memory.
    pub fn find<C: Cursor>(&mut self, input: &mut Input<C>) -> Option<Match>
        ensures regex { self.new ≡ self.old }
        ensures keeps { Keeps input.old input.new }
        ensures found { match_kind_of (regex_settings self.old) ≡ LeftmostFirst
            → is_early input.old.earliest (search_for (sought self.old) input.old) ≡ false
            → result ≡ answer (search_for (sought self.old) input.old) }
        ensures preferred { match_kind_of (regex_settings self.old) ≡ LeftmostFirst
            → ArePlain (regex_patterns self.old)
            → is_early input.old.earliest (search_for (sought self.old) input.old) ≡ false
            → IsPreferredMatch (sought self.old) input.old result }
        ensures found_by { is_early input.old.earliest (search_for (sought self.old) input.old)
            ≡ false
            → result ≡ answer_by (regex_kind self.old) (search_for (sought self.old) input.old) }
        ensures may { IsAnswerBy (regex_kind self.old) input.old.earliest
            (search_for (sought self.old) input.old) result }
        ensures within { IfSome result (IsWithinBounds input.old) }
    {
        self.regex.search_with(&mut self.cache, input)
    }

    /// Returns the match that `find` finds with the earliest flag off, and how many bytes settle
    /// it, as `Regex::search_reach_with` does. It takes no memory.
    pub fn find_reach<C: Cursor>(&mut self, input: &mut Input<C>) -> Reached
        ensures regex { self.new ≡ self.old }
        ensures keeps { Keeps input.old input.new }
        ensures found { result.found
            ≡ answer_by (regex_kind self.old) (search_for (sought self.old) input.old) }
        ensures settled { IsSettled (regex_kind self.old) result.reach
            (search_for (sought self.old) input.old) }
        ensures within { (IfSome result.found (λ m. m.end ≤ result.reach))
            × (result.reach ≤ slice_end input.old + 1) }
        ensures near { IsNear (regex_kind self.old) (regex_patterns self.old)
            result.found result.reach }
        ensures sharp { IsSharp (regex_kind self.old) (sought self.old)
            result.found result.reach }
        ensures anchored { IsNearStart (regex_patterns self.old) input.old
            result.found result.reach }
    {
        self.regex.search_reach_with(&mut self.cache, input)
    }

    /// Returns what the content that is here tells of a search, if more bytes may follow it, as
    /// `Regex::search_partial_with` does. It takes no memory.
    #[inline(always)]
    pub fn find_partial<C: Cursor>(&mut self, input: &mut Input<C>) -> Partial
        ensures regex { self.new ≡ self.old }
        ensures keeps { Keeps input.old input.new }
        ensures told { IsPartial (regex_kind self.old) (search_for (sought self.old) input.old)
            (partial_of result) }
        ensures onward { IsOnward input.old result }
        ensures far { IsFarOn (regex_kind self.old) (regex_patterns self.old) input.old
            (answer_by (regex_kind self.old) (search_for (sought self.old) input.old)) result }
    {
        self.regex.search_partial_with(&mut self.cache, input)
    }

    /// Returns the pattern and the end of the match that `find` finds. It takes no memory.
    pub fn find_end<C: Cursor>(&mut self, input: &mut Input<C>) -> Option<HalfMatch>
        ensures regex { self.new ≡ self.old }
        ensures keeps { Keeps input.old input.new }
        ensures found_by { is_early input.old.earliest (search_for (sought self.old) input.old)
            ≡ false
            → result ≡ option_map half_of
            (answer_by (regex_kind self.old) (search_for (sought self.old) input.old)) }
        ensures may { IsHalfBy (regex_kind self.old) input.old.earliest
            (search_for (sought self.old) input.old) result }
        ensures within { IfSome result (λ m. (low input.old ≤ m.offset)
            × (m.offset ≤ high input.old)) }
    {
        self.regex.search_half_with(&mut self.cache, input)
    }

    /// Returns whether a search of the input finds a match. It takes no memory.
    pub fn is_match<C: Cursor>(&mut self, input: &mut Input<C>) -> bool
        ensures regex { self.new ≡ self.old }
        ensures keeps { Keeps input.old input.new }
        ensures found_by { IsTrue result
            ↔ IsSome (answer_by (regex_kind self.old) (search_for (sought self.old) input.old)) }
    {
        self.regex.is_match_with(&mut self.cache, input)
    }

    /// Returns the match that `find` finds with the earliest flag off, with its groups, in captures
    /// that are made for it. Without a match the captures are empty. An `Err` means out of memory
    /// for the captures, and leaves the input unchanged.
    pub fn captures<C: Cursor>(
        &mut self,
        alloc: Global,
        input: &mut Input<C>,
    ) -> Result<Captures, AllocError>
        ensures regex { self.new ≡ self.old }
        ensures keeps { Keeps input.old input.new }
        ensures refused { OnErr result (input.new ≡ input.old) }
        ensures made { IfOk result (IsCapturesFor (regex_names self.old)) }
        ensures whole { IfOk result (KeepsAll (regex_names self.old)) }
        ensures found { match_kind_of (regex_settings self.old) ≡ LeftmostFirst
            → IfOk result (Tells (search_for (sought self.old) input.old)) }
        ensures preferred { match_kind_of (regex_settings self.old) ≡ LeftmostFirst
            → ArePlain (regex_patterns self.old)
            → IfOk result (HoldsPreferred (sought self.old) input.old) }
        ensures told_by { IfOk result (TellsBy (regex_kind self.old)
            (search_for (sought self.old) input.old)) }
        ensures matched_by { IfOk result
            (λ c. match_of c ≡ answer_by (regex_kind self.old)
            (search_for (sought self.old) input.old)) }
    {
        let mut caps = self.regex.create_captures(alloc)?;
        self.regex
            .search_captures_with(&mut self.cache, input, &mut caps);
        Ok(caps)
    }

    /// Returns the match that `captures` finds, with its groups, in captures that are made for it,
    /// and how many bytes settle them, as `Regex::search_captures_reach_with` does. An `Err` means
    /// out of memory for the captures, and leaves the input unchanged.
    pub fn captures_reach<C: Cursor>(
        &mut self,
        alloc: Global,
        input: &mut Input<C>,
    ) -> Result<ReachedCaptures, AllocError>
        ensures regex { self.new ≡ self.old }
        ensures keeps { Keeps input.old input.new }
        ensures refused { OnErr result (input.new ≡ input.old) }
        ensures made { IfOk result (λ v. IsCapturesFor (regex_names self.old) v.captures) }
        ensures whole { IfOk result (λ v. KeepsAll (regex_names self.old) v.captures) }
        ensures told_by { IfOk result (λ v. TellsBy (regex_kind self.old)
            (search_for (sought self.old) input.old) v.captures) }
        ensures matched_by { IfOk result (λ v. match_of v.captures
            ≡ answer_by (regex_kind self.old) (search_for (sought self.old) input.old)) }
        ensures settled { IfOk result (λ v. TellsBelow (regex_kind self.old) v.reach
            (search_for (sought self.old) input.old) v.captures) }
        ensures within { IfOk result (λ v. (IfSome (match_of v.captures) (λ m. m.end ≤ v.reach))
            × (v.reach ≤ slice_end input.old + 1)) }
        ensures near { IfOk result (λ v. IsNear (regex_kind self.old) (regex_patterns self.old)
            (match_of v.captures) v.reach) }
        ensures sharp { IfOk result (λ v. IsSharp (regex_kind self.old) (sought self.old)
            (match_of v.captures) v.reach) }
    {
        let mut captures = self.regex.create_captures(alloc)?;
        let reach = self
            .regex
            .search_captures_reach_with(&mut self.cache, input, &mut captures);
        Ok(ReachedCaptures { captures, reach })
    }

    /// Inserts into the set each pattern that has a match within the bounds of a search of the
    /// input, as `Regex::which_patterns_with` does. It takes no memory.
    pub fn which_patterns<C: Cursor>(&mut self, input: &mut Input<C>, set: &mut PatternSet)
        ensures regex { self.new ≡ self.old }
        ensures keeps { Keeps input.old input.new }
        ensures adds { AddsSpelled (search_for (sought self.old) input.old) set.old set.new }
    {
        self.regex.which_patterns_with(&mut self.cache, input, set);
    }

    /// Adds the next matches of a list to yours, as long as they begin before the position `before`,
    /// as `Regex::push_before` does. Nothing but the list takes memory.
    pub fn push_before<C: Cursor>(
        &mut self,
        input: &mut Input<C>,
        memo: &mut ListMemo,
        last: &mut Option<usize>,
        before: usize,
        matches: &mut Vec<Match>,
    ) -> Result<bool, AllocError>
        ensures regex { self.new ≡ self.old }
        ensures moves { IsMoved input.old input.new }
        ensures adds { AddsNext (answer_by_from (regex_kind self.old)
            (search_for (sought self.old) input.old)) before
            input.old.span.start last.old matches.old.items
            input.new.span.start last.new matches.new.items }
        ensures behind { IfOk result (ComesBehind before (next_match begin_of end_of
            (answer_by_from (regex_kind self.old) (search_for (sought self.old) input.old))
            input.new.span.start last.new)) }
    {
        self.regex
            .push_before(&mut self.cache, input, memo, last, before, matches)
    }
}
