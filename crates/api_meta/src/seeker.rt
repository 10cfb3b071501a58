//! Iteration state: if the next match of a list is searched for, in a borrowed input.

ghost use Rattle.std.specs.Prelude.{◌≡◌, IfSome};
ghost use Rattle.rc_text.specs.Bounds.{IsWithinBounds};
ghost use Rattle.rc_text.specs.Text.{Keeps};
ghost use Rattle.rc_program.specs.Kinds.{answer_by, answer_by_from};
ghost use Rattle.rc_program.specs.Matches.{begin_of, end_of, next_match};
ghost use Rattle.rc_captures.specs.Groups.{names_of};
ghost use Rattle.rc_captures.specs.Names.{slot_len};
ghost use Rattle.rc_pikevm_search.specs.Engine.{engine_search};
ghost use Rattle.rc_pikevm_search.specs.Moved.{IsMoved};
ghost use Rattle.rc_pikevm_search.specs.Tells.{KeepsAll, TellsBy};
ghost use Rattle.rc_pikevm_search.specs.Walks.{next_start};
ghost use Rattle.rc_strategy.specs.Caches.{IsSameCacheIn};
ghost use Rattle.rc_strategy.specs.Lists.{IsListMemo};
ghost use Rattle.api_meta.specs.Caches.{IsCacheIn};
ghost use Rattle.api_meta.specs.Views.{regex_names};

use crate::regex::Regex;
use rc_captures::captures::Captures;
use rc_program::matches::is_again;
use rc_strategy::cache::Cache;
use rc_strategy::list::ListMemo;
use rc_text::cursor::Cursor;
use rc_text::input::{Input, advance_start};
use rc_text::types::Match;
use std::alloc::{AllocError, Global};
use std::marker::Model;

/// The state of an iteration: where the last match ended, and whether the iteration is over.
#[derive(Drop)]
pub(crate) struct Standing {
    pub(crate) last: Option<usize>,
    pub(crate) is_done: bool,
}

/// A regex with a cache for its searches, and the state of an iteration over its matches.
pub(crate) struct Seeker<'r> {
    pub(crate) regex: &'r Regex,
    pub(crate) cache: Cache,
    pub(crate) standing: Standing,
}

// Crates above call this, and drop no part by themselves.
impl Drop for Seeker<'_> {
    fn drop(self) {
        let Seeker {
            regex: _,
            cache: _,
            standing: _,
        } = self;
    }
}

impl<'r> Model for Seeker<'r> {
    ghost use Rattle.api_meta.specs.Caches.{IsCacheIn};
    ghost use Rattle.api_meta.specs.Seeking.{Seeking, seeking};
    ghost use Rattle.rc_strategy.specs.contracts.cache.Cache as caches;
    ghost use Rattle.api_meta.specs.contracts.regex.Regex as regexes;
    ghost use Rattle.std.specs.Coded.{codes};

    ghost Value = { Seeking };

    ghost coded = { Prim.hlevel (codes, regexes.the_row.coded, caches.the_row.coded) };

    ghost view = { λ s. seeking s.regex.now s.cache s.standing };

    ghost invariant = { λ s. IsCacheIn s.regex.now 0 s.cache };
}

/// A regex with a cache for searches with all groups, the state of an iteration over its matches,
/// and an allocator for their captures.
#[derive(Drop)]
pub(crate) struct GroupSeeker<'r> {
    pub(crate) seeker: Seeker<'r>,
    pub(crate) alloc: Global,
}

impl<'r> Model for GroupSeeker<'r> {
    ghost use Rattle.rc_captures.specs.Groups.{names_of};
    ghost use Rattle.rc_captures.specs.Names.{slot_len};
    ghost use Rattle.api_meta.specs.Caches.{IsCacheIn};
    ghost use Rattle.api_meta.specs.Seeking.{GroupSeeking};
    ghost use Rattle.rc_strategy.specs.contracts.cache.Cache as caches;
    ghost use Rattle.api_meta.specs.contracts.regex.Regex as regexes;
    ghost use Rattle.std.specs.Coded.{codes};

    ghost Value = { GroupSeeking };

    ghost coded = { Prim.hlevel (codes, regexes.the_row.coded, caches.the_row.coded) };

    ghost view = { λ s. record { seeker = s.seeker } };

    ghost invariant = { λ s. IsCacheIn s.seeker.regex
        (slot_len (names_of s.seeker.regex.info)) s.seeker.cache };
}

/// Finds a match, and writes its groups to the captures.
fn find_groups<C: Cursor>(
    regex: &Regex,
    cache: &mut Cache,
    input: &mut Input<C>,
    caps: &mut Captures,
) -> Option<Match>
    requires made { IsCacheIn regex.now (slot_len (names_of regex.now.info)) cache.old }
    requires whole { KeepsAll (regex_names regex.now) caps.old }
    ensures made { IsCacheIn regex.now (slot_len (names_of regex.now.info)) cache.new }
    ensures same { IsSameCacheIn regex.now.engines cache.old cache.new }
    ensures keeps { Keeps input.old input.new }
    ensures whole { KeepsAll (regex_names regex.now) caps.new }
    ensures told { TellsBy regex.now.engines.engine.kind
        (engine_search regex.now.engines.engine input.old) caps.new }
    ensures found { result ≡ answer_by regex.now.engines.engine.kind
        (engine_search regex.now.engines.engine input.old) }
    ensures within { IfSome result (IsWithinBounds input.old) }
{
    regex.engines.find_captures(cache, input, caps);
    caps.get_match()
}

/// Finds the next match of an iteration, and writes its groups to the captures. It is the match
/// from the start of the span. If that is empty and ends at `last`, it is the match from a byte
/// later. The span then starts where the search did.
fn next_groups<C: Cursor>(
    regex: &Regex,
    cache: &mut Cache,
    input: &mut Input<C>,
    last: Option<usize>,
    caps: &mut Captures,
) -> Option<Match>
    requires made { IsCacheIn regex.now (slot_len (names_of regex.now.info)) cache.old }
    requires whole { KeepsAll (regex_names regex.now) caps.old }
    ensures made { IsCacheIn regex.now (slot_len (names_of regex.now.info)) cache.new }
    ensures same { IsSameCacheIn regex.now.engines cache.old cache.new }
    ensures moves { IsMoved input.old input.new }
    ensures whole { KeepsAll (regex_names regex.now) caps.new }
    ensures found { result
        ≡ next_match begin_of end_of (answer_by_from regex.now.engines.engine.kind
        (engine_search regex.now.engines.engine input.old)) input.old.span.start last }
    ensures start { input.new.span.start
        ≡ next_start regex.now.engines.engine.kind
        (engine_search regex.now.engines.engine input.old) input.old.span.start last }
    ensures told { TellsBy regex.now.engines.engine.kind
        (engine_search regex.now.engines.engine input.new) caps.new }
    ensures there { result ≡ answer_by regex.now.engines.engine.kind
        (engine_search regex.now.engines.engine input.new) }
    ensures within { IfSome result (IsWithinBounds input.new) }
{
    let found = find_groups(regex, cache, input, caps)?;
    if !is_again(last, found) {
        return Some(found);
    }
    advance_start(input);
    find_groups(regex, cache, input, caps)
}

impl Standing {
    ghost use Rattle.std.specs.Prelude.{IfErr, IfNone, IsTrue, MatchOption, false};
    ghost use Rattle.api_meta.specs.Left.{GivesNext, GivesCaptures};
    ghost use Rattle.api_meta.specs.Lent.{StartsBehind};
    ghost use Rattle.api_meta.specs.Seeking.{seeking};

    /// Returns the next match of the iteration in the input. The span then starts at its end. It
    /// takes no memory.
    pub(crate) fn next_match<C: Cursor>(
        &mut self,
        regex: &Regex,
        cache: &mut Cache,
        input: &mut Input<C>,
    ) -> Option<Match>
        requires made { IsCacheIn regex.now 0 cache.old }
        ensures cache { IsCacheIn regex.now 0 cache.new }
        ensures same { IsSameCacheIn regex.now.engines cache.old cache.new }
        ensures steps { GivesNext (seeking regex.now cache.old self.old) input.old result
            (seeking regex.now cache.new self.new) input.new }
        ensures moves { IsMoved input.old input.new }
        ensures start { IfSome result (λ m. input.new.span.start ≡ m.end) }
        ensures over { IfNone result (IsTrue self.new.is_done) }
    {
        if self.is_done {
            return None;
        }
        let Some(found) = regex.engines.next_match(cache, input, self.last) else {
            self.is_done = true;
            return None;
        };
        input.set_start(found.end());
        self.last = Some(found.end());
        Some(found)
    }

    /// Returns what `next_match` does. The memo is one of the input's text.
    pub(crate) fn next_along<C: Cursor>(
        &mut self,
        regex: &Regex,
        cache: &mut Cache,
        input: &mut Input<C>,
        memo: &mut ListMemo,
    ) -> Option<Match>
        requires made { IsCacheIn regex.now 0 cache.old }
        requires memo { IsListMemo regex.now.engines input.old memo.old }
        ensures cache { IsCacheIn regex.now 0 cache.new }
        ensures steps { GivesNext (seeking regex.now cache.old self.old) input.old result
            (seeking regex.now cache.new self.new) input.new }
        ensures moves { IsMoved input.old input.new }
        ensures over { IfNone result (IsTrue self.new.is_done) }
        ensures memo { IsListMemo regex.now.engines input.new memo.new }
    {
        if self.is_done {
            return None;
        }
        let Some(found) = regex.engines.next_along(cache, input, self.last, memo) else {
            self.is_done = true;
            return None;
        };
        input.set_start(found.end());
        self.last = Some(found.end());
        Some(found)
    }

    /// Returns the last item if there is no memory for captures: an error if a match is left,
    /// otherwise `None`. The iteration is over.
    fn lacks_memory<C: Cursor>(
        &mut self,
        regex: &Regex,
        cache: &mut Cache,
        input: &mut Input<C>,
    ) -> Option<Result<Captures, AllocError>>
        requires made { IsCacheIn regex.now (slot_len (names_of regex.now.info)) cache.old }
        requires going { self.old.is_done ≡ false }
        ensures cache { IsCacheIn regex.now (slot_len (names_of regex.now.info)) cache.new }
        ensures same { IsSameCacheIn regex.now.engines cache.old cache.new }
        ensures steps { GivesCaptures (seeking regex.now cache.old self.old) input.old result
            (seeking regex.now cache.new self.new) input.new }
        ensures moves { IsMoved input.old input.new }
        ensures start { IfSome result (StartsBehind input.new) }
        ensures over { MatchOption result (IsTrue self.new.is_done)
            (λ item. IfErr item (λ _. IsTrue self.new.is_done)) }
    {
        self.is_done = true;
        if let Some(_) = regex.engines.next_match(cache, input, self.last) {
            return Some(Err(AllocError));
        }
        None
    }

    /// Returns the captures of the next match of the iteration in the input. It allocates only
    /// these, frees them if no match is left, and ends the iteration if there is no memory for
    /// them.
    pub(crate) fn next_captures<C: Cursor>(
        &mut self,
        regex: &Regex,
        cache: &mut Cache,
        alloc: Global,
        input: &mut Input<C>,
    ) -> Option<Result<Captures, AllocError>>
        requires made { IsCacheIn regex.now (slot_len (names_of regex.now.info)) cache.old }
        ensures cache { IsCacheIn regex.now (slot_len (names_of regex.now.info)) cache.new }
        ensures same { IsSameCacheIn regex.now.engines cache.old cache.new }
        ensures steps { GivesCaptures (seeking regex.now cache.old self.old) input.old result
            (seeking regex.now cache.new self.new) input.new }
        ensures moves { IsMoved input.old input.new }
        ensures start { IfSome result (StartsBehind input.new) }
        ensures over { MatchOption result (IsTrue self.new.is_done)
            (λ item. IfErr item (λ _. IsTrue self.new.is_done)) }
    {
        if self.is_done {
            return None;
        }
        let Ok(mut caps) = regex.create_captures(alloc) else {
            return self.lacks_memory(regex, cache, input);
        };
        let Some(found) = next_groups(regex, cache, input, self.last, &mut caps) else {
            self.is_done = true;
            return None;
        };
        input.set_start(found.end());
        self.last = Some(found.end());
        Some(Ok(caps))
    }
}

impl<'r> Seeker<'r> {
    ghost use Rattle.std.specs.Prelude.{◌≡◌, IfErr, IfNone, IsTrue, MatchOption};
    ghost use Rattle.rc_pikevm_search.specs.Moved.{IsMoved};
    ghost use Rattle.api_meta.specs.Left.{GivesNext, GivesCaptures};

    /// Returns the next match in the input. The span then starts at its end. It takes no memory.
    pub(crate) fn next_match<C: Cursor>(&mut self, input: &mut Input<C>) -> Option<Match>
        ensures steps { GivesNext self.old input.old result self.new input.new }
        ensures moves { IsMoved input.old input.new }
        ensures regex { self.new.regex ≡ self.old.regex }
        ensures over { IfNone result (IsTrue self.new.is_done) }
    {
        self.standing.next_match(self.regex, &mut self.cache, input)
    }

    /// Returns what `next_match` does. The memo is one of the input's text.
    pub(crate) fn next_along<C: Cursor>(
        &mut self,
        input: &mut Input<C>,
        memo: &mut ListMemo,
    ) -> Option<Match>
        requires memo { IsListMemo self.old.regex.engines input.old memo.old }
        ensures steps { GivesNext self.old input.old result self.new input.new }
        ensures moves { IsMoved input.old input.new }
        ensures regex { self.new.regex ≡ self.old.regex }
        ensures over { IfNone result (IsTrue self.new.is_done) }
        ensures memo { IsListMemo self.new.regex.engines input.new memo.new }
    {
        let cache = &mut self.cache;
        self.standing.next_along(self.regex, cache, input, memo)
    }

    /// Returns the captures of the next match in the input. It allocates only these, and ends the
    /// iteration if there is no memory for them.
    pub(crate) fn next_captures<C: Cursor>(
        &mut self,
        alloc: Global,
        input: &mut Input<C>,
    ) -> Option<Result<Captures, AllocError>>
        requires made { IsCacheIn self.old.regex
            (slot_len (names_of self.old.regex.info)) self.old.cache }
        ensures still_made { IsCacheIn self.new.regex
            (slot_len (names_of self.new.regex.info)) self.new.cache }
        ensures steps { GivesCaptures self.old input.old result self.new input.new }
        ensures moves { IsMoved input.old input.new }
        ensures regex { self.new.regex ≡ self.old.regex }
        ensures over { MatchOption result (IsTrue self.new.is_done)
            (λ item. IfErr item (λ _. IsTrue self.new.is_done)) }
    {
        self.standing
            .next_captures(self.regex, &mut self.cache, alloc, input)
    }
}

impl<'r> GroupSeeker<'r> {
    ghost use Rattle.std.specs.Prelude.{◌≡◌, IfErr, IsTrue, MatchOption};
    ghost use Rattle.rc_pikevm_search.specs.Moved.{IsMoved};
    ghost use Rattle.api_meta.specs.Left.{GivesCaptures};

    /// Returns the captures of the next match in the input.
    pub(crate) fn next<C: Cursor>(
        &mut self,
        input: &mut Input<C>,
    ) -> Option<Result<Captures, AllocError>>
        ensures steps { GivesCaptures self.old.seeker input.old result self.new.seeker input.new }
        ensures moves { IsMoved input.old input.new }
        ensures regex { self.new.seeker.regex ≡ self.old.seeker.regex }
        ensures over { MatchOption result (IsTrue self.new.seeker.is_done)
            (λ item. IfErr item (λ _. IsTrue self.new.seeker.is_done)) }
    {
        self.seeker.next_captures(self.alloc, input)
    }
}
