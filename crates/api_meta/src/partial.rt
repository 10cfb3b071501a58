//! Partial answers: what the beginning of a content tells of a search, whatever follows.

ghost use Rattle.std.specs.Prelude.{◌≡◌, ◌≤◌, IsTrue, length};
ghost use Rattle.rc_text.specs.Text.{Keeps};

use crate::cache::Cache;
use crate::reach::LOOKS_AHEAD;
use crate::regex::Regex;
use rc_dfa_search::reach::Settled;
use rc_literals::guard::behind_stop;
use rc_text::cursor::Cursor;
use rc_text::input::{Input, high, low, move_to, position};
use rc_text::types::{Match, MatchKind};

/// If the lengths of the patterns, or their stop bytes, rule out matches that begin in the first so
/// many bytes, or in half of them if those are more, nothing else is asked.
const FAR: usize = 256;

/// How many bytes are looked through for a stop byte, at most.
const NEAR: usize = 1024;

/// If the lengths of the patterns settle all but fewer bytes than this, no stop byte is looked for.
const CLOSE: usize = 64;

/// What the content that is here tells of a search, if more may follow it.
#[derive(Clone, Copy, Debug, PartialEq, Eq)]
pub enum Partial {
    /// The match. Each content that goes on from this one has it.
    Final(Match),
    /// No match begins before this position, in bytes of the whole content, whatever follows.
    From(usize),
}

impl Regex {
    ghost use Rattle.rc_program.specs.Sought.{search_for};
    ghost use Rattle.std.specs.Prelude.{◌≡◌, ◌≢◌, ◌≤◌, IfSome, Some, max};
    ghost use Rattle.rc_program.specs.Kinds.{answer_by};
    ghost use Rattle.rc_reach.specs.Partial.{IsPartial, from_place};
    ghost use Rattle.rc_text.specs.Bounds.{IsWithinBounds};
    ghost use Rattle.rc_text.specs.Text.{Keeps, Searched, high, low};
    ghost use Rattle.rc_text.specs.declared.types.MatchKind.TheVariants.{All};
    ghost use Rattle.api_meta.specs.Caches.{HasSameRoom, IsCacheFor};
    ghost use Rattle.api_meta.specs.Partials.{IsFarOn, IsOnward, IsSettledBefore, partial_of};
    ghost use Rattle.api_meta.specs.declared.partial.Partial.TheVariants.{From};
    ghost use Rattle.api_meta.specs.Views.{regex_kind, regex_patterns, regex_settings, sought};

    /// Returns what the content that is here tells of a search, if more bytes may follow it, in a
    /// cache that was made for this regex. The earliest flag is ignored. It takes no memory.
    ///
    /// The content may go on at its end alone. If the span and the slice go up to its end or beyond,
    /// they go on with it; if one of them ends before, it ends there too. The match is final if its
    /// reach, as the search tells it, ends in the content; no clause says how early that is.
    /// Otherwise a search of a content that goes on may begin at the position that is returned.
    ///
    /// If no pattern matches more than n bytes, and the kind isn't `MatchKind::All`, that is at most
    /// n + 3 bytes before the end of the bounds, or where the match that was found begins. It may be
    /// later: behind a byte that no match contains, or, if a DFA searches for a leftmost-first match
    /// and none is passed over, about the last position at which nothing is under way. Otherwise it
    /// is where this search begins.
    #[inline(always)]
    pub fn search_partial_with<C: Cursor>(&self, cache: &mut Cache, input: &mut Input<C>) -> Partial
        requires made { IsCacheFor (regex_patterns self.now) (regex_settings self.now) cache.old }
        ensures cache { IsCacheFor (regex_patterns self.now) (regex_settings self.now) cache.new }
        ensures room { HasSameRoom cache.old cache.new }
        ensures keeps { Keeps input.old input.new }
        ensures told { IsPartial (regex_kind self.now) (search_for (sought self.now) input.old)
            (partial_of result) }
        ensures onward { IsOnward input.old result }
        ensures far { IsFarOn (regex_kind self.now) (regex_patterns self.now) input.old
            (answer_by (regex_kind self.now) (search_for (sought self.now) input.old)) result }
    {
        match self.partial_by_needles(cache, input) {
            Some(partial) => partial,
            None => self.partial_by_reach(cache, input),
        }
    }

    /// Returns what the content tells of a search, by its reach, or else as `partial_by_lengths` or
    /// `undecided_from` does.
    #[inline(always)]
    fn partial_by_reach<C: Cursor>(&self, cache: &mut Cache, input: &mut Input<C>) -> Partial
        requires made { IsCacheFor (regex_patterns self.now) (regex_settings self.now) cache.old }
        ensures cache { IsCacheFor (regex_patterns self.now) (regex_settings self.now) cache.new }
        ensures room { HasSameRoom cache.old cache.new }
        ensures keeps { Keeps input.old input.new }
        ensures told { IsPartial (regex_kind self.now) (search_for (sought self.now) input.old)
            (partial_of result) }
        ensures onward { IsOnward input.old result }
        ensures far { IsFarOn (regex_kind self.now) (regex_patterns self.now) input.old
            (answer_by (regex_kind self.now) (search_for (sought self.now) input.old)) result }
    {
        let reached = self.engines.find_settled(&mut cache.inner, input);
        let Some(found) = reached.found else {
            return Partial::From(self.undecided_from(cache, input, reached));
        };
        if has_bytes(input, reached.reach) {
            return Partial::Final(found);
        }
        self.partial_by_lengths(cache, input, reached)
    }

    /// Returns what the content tells of a search that found this match, by the lengths of the
    /// patterns, or else by what is undecided.
    #[inline(never)]
    fn partial_by_lengths<C: Cursor>(
        &self,
        cache: &mut Cache,
        input: &mut Input<C>,
        settled: Settled,
    ) -> Partial
        requires made { IsCacheFor (regex_patterns self.now) (regex_settings self.now) cache.old }
        requires answer { settled.found
            ≡ answer_by (regex_kind self.now) (search_for (sought self.now) input.old) }
        requires bounds { IfSome settled.found (IsWithinBounds input.old) }
        ensures cache { IsCacheFor (regex_patterns self.now) (regex_settings self.now) cache.new }
        ensures room { HasSameRoom cache.old cache.new }
        ensures keeps { Keeps input.old input.new }
        ensures told { IsPartial (regex_kind self.now) (search_for (sought self.now) input.old)
            (partial_of result) }
        ensures onward { IsOnward input.old result }
        ensures far { IsFarOn (regex_kind self.now) (regex_patterns self.now) input.old
            (answer_by (regex_kind self.now) (search_for (sought self.now) input.old)) result }
    {
        let reach = self.reach_of(settled.found, input);
        let are_here = has_bytes(input, reach);
        if let (Some(found), true) = (settled.found, are_here) {
            return Partial::Final(found);
        }
        Partial::From(self.undecided_from(cache, input, settled))
    }

    /// Returns a position before which no match begins, of a search that found this: as the lengths
    /// of the patterns tell it, or else as `undecided_by_bytes` does.
    #[inline(always)]
    fn undecided_from<C: Cursor>(
        &self,
        cache: &mut Cache,
        input: &mut Input<C>,
        settled: Settled,
    ) -> usize
        requires made { IsCacheFor (regex_patterns self.now) (regex_settings self.now) cache.old }
        requires answer { settled.found
            ≡ answer_by (regex_kind self.now) (search_for (sought self.now) input.old) }
        ensures cache { IsCacheFor (regex_patterns self.now) (regex_settings self.now) cache.new }
        ensures room { HasSameRoom cache.old cache.new }
        ensures keeps { Keeps input.old input.new }
        ensures told { IsPartial (regex_kind self.now) (search_for (sought self.now) input.old)
            (from_place result) }
        ensures within { (low input.old ≤ result) × (result ≤ max (low input.old) (high input.old)) }
        ensures far { IsFarOn (regex_kind self.now) (regex_patterns self.now) input.old settled.found
            (From result) }
    {
        let by_length = self.undecided_by_length(settled.found, input);
        if is_far(input, by_length) {
            return by_length;
        }
        let by_bytes = self.undecided_by_bytes(cache, input, settled);
        by_length.max(by_bytes)
    }

    /// Returns a position before which no match begins, of a search that found this: as the bytes
    /// tell it that no match contains, or else what is under way.
    #[inline(never)]
    fn undecided_by_bytes<C: Cursor>(
        &self,
        cache: &mut Cache,
        input: &mut Input<C>,
        settled: Settled,
    ) -> usize
        requires made { IsCacheFor (regex_patterns self.now) (regex_settings self.now) cache.old }
        requires answer { settled.found
            ≡ answer_by (regex_kind self.now) (search_for (sought self.now) input.old) }
        ensures cache { IsCacheFor (regex_patterns self.now) (regex_settings self.now) cache.new }
        ensures room { HasSameRoom cache.old cache.new }
        ensures keeps { Keeps input.old input.new }
        ensures told { IsPartial (regex_kind self.now) (search_for (sought self.now) input.old)
            (from_place result) }
        ensures within { (low input.old ≤ result) × (result ≤ max (low input.old) (high input.old)) }
    {
        let by_stop = self.undecided_by_stop(settled.found, input);
        if is_far(input, by_stop) {
            return by_stop;
        }
        let idle = self.engines.undecided_from(&mut cache.inner, input);
        idle.max(by_stop)
    }

    /// Returns what the content tells of a search that goes from needle to needle. Returns None if it
    /// doesn't go so.
    #[inline(always)]
    fn partial_by_needles<C: Cursor>(
        &self,
        cache: &mut Cache,
        input: &mut Input<C>,
    ) -> Option<Partial>
        requires made { IsCacheFor (regex_patterns self.now) (regex_settings self.now) cache.old }
        ensures cache { IsCacheFor (regex_patterns self.now) (regex_settings self.now) cache.new }
        ensures room { HasSameRoom cache.old cache.new }
        ensures keeps { Keeps input.old input.new }
        ensures told { IfSome result (λ o. IsPartial (regex_kind self.now)
            (search_for (sought self.now) input.old) (partial_of o)) }
        ensures onward { IfSome result (IsOnward input.old) }
        ensures far { IfSome result (IsFarOn (regex_kind self.now) (regex_patterns self.now) input.old
            (answer_by (regex_kind self.now) (search_for (sought self.now) input.old))) }
    {
        let told = self.engines.tell_partly(&mut cache.inner, input)?;
        let settled = told.settled;
        let are_here = has_bytes(input, settled.reach);
        if let (Some(found), true) = (settled.found, are_here) {
            return Some(Partial::Final(found));
        }
        let by_length = self.undecided_by_length(settled.found, input);
        Some(Partial::From(told.from.max(by_length)))
    }

    /// Returns a position before which no match begins, as far as the lengths of the patterns tell:
    /// one that begins there would end in the content, and a search would have found it.
    fn undecided_by_length<C: Cursor>(&self, found: Option<Match>, input: &mut Input<C>) -> usize
        requires answer { found
            ≡ answer_by (regex_kind self.now) (search_for (sought self.now) input.old) }
        ensures keeps { Keeps input.old input.new }
        ensures told { IsPartial (regex_kind self.now) (search_for (sought self.now) input.old)
            (from_place result) }
        ensures within { (low input.old ≤ result) × (result ≤ max (low input.old) (high input.old)) }
        ensures far { IsFarOn (regex_kind self.now) (regex_patterns self.now) input.old found
            (From result) }
    {
        let from = low(input);
        let end = high(input);
        if let MatchKind::All = self.get_config().get_match_kind() {
            return from;
        }
        let Some(longest) = self.longest else {
            return from;
        };
        let far = end.saturating_sub(longest.saturating_add(LOOKS_AHEAD - 1));
        match found {
            Some(found) => from.max(far.min(found.start())),
            None => from.max(far),
        }
    }

    /// Returns a position before which no match begins, as far as the last stop byte tells: a match
    /// that begins before that byte ends before it too, and a search would have found it.
    fn undecided_by_stop<C: Cursor>(&self, found: Option<Match>, input: &mut Input<C>) -> usize
        requires answer { found
            ≡ answer_by (regex_kind self.now) (search_for (sought self.now) input.old) }
        ensures keeps { Keeps input.old input.new }
        ensures told { IsPartial (regex_kind self.now) (search_for (sought self.now) input.old)
            (from_place result) }
        ensures within { (low input.old ≤ result) × (result ≤ max (low input.old) (high input.old)) }
    {
        let from = low(input);
        let behind = self.settled_before(input);
        match found {
            Some(found) => from.max(behind.min(found.start())),
            None => from.max(behind),
        }
    }

    /// Returns a position, in bytes, before which the content tells all, or 0. However the content
    /// goes on at its end, a search of it finds the match that one finds here, if that begins before
    /// the position; if none does, no match begins before it. The position is 0 under
    /// `MatchKind::All`. Otherwise it is n + 3 bytes before the end of the bounds if no pattern
    /// matches more than n bytes. If that isn't behind the first byte, n is more than 60, or there is
    /// no such n, it may be later: behind the last byte that no match contains, if one lies in the
    /// last kilobyte with three bytes behind it. It takes no memory.
    pub fn settled_before<C: Cursor>(&self, input: &mut Input<C>) -> usize
        ensures keeps { Keeps input.old input.new }
        ensures settled { IsSettledBefore (regex_kind self.now)
            (search_for (sought self.now) input.old) result }
        ensures within { result ≤ high input.old }
    {
        let kind = self.get_config().get_match_kind();
        if let MatchKind::All = kind {
            return 0;
        }
        let by_length = self.settled_by_length(input);
        if by_length > high(input).saturating_sub(CLOSE) {
            return by_length;
        }
        by_length.max(self.settled_by_stop(input))
    }

    /// Returns a position before which the lengths of the patterns settle all, or 0.
    fn settled_by_length<C: Cursor>(&self, input: &mut Input<C>) -> usize
        requires other { regex_kind self.now ≢ All }
        ensures keeps { Keeps input.old input.new }
        ensures settled { IsSettledBefore (regex_kind self.now)
            (search_for (sought self.now) input.old) result }
        ensures within { result ≤ high input.old }
    {
        let Some(longest) = self.longest else {
            return 0;
        };
        high(input).saturating_sub(longest.saturating_add(LOOKS_AHEAD - 1))
    }

    /// Returns the position behind the last stop byte, if one lies in the last kilobyte with three
    /// bytes behind it, or 0.
    fn settled_by_stop<C: Cursor>(&self, input: &mut Input<C>) -> usize
        requires other { regex_kind self.now ≢ All }
        ensures keeps { Keeps input.old input.new }
        ensures settled { IsSettledBefore (regex_kind self.now)
            (search_for (sought self.now) input.old) result }
        ensures within { result ≤ high input.old }
    {
        let from = low(input);
        let known = high(input).saturating_sub(LOOKS_AHEAD - 1);
        let first = from.max(known.saturating_sub(NEAR));
        if known <= first {
            return 0;
        }
        let behind = behind_stop(input, &self.stops, first, known);
        if behind == first { 0 } else { behind }
    }
}

/// Whether a position is far from where the search begins, and nearer to its end. No DFA is to read
/// all bytes before it then.
fn is_far<C: Cursor>(input: &mut Input<C>, at: usize) -> bool
    ensures keeps { Keeps input.old input.new }
{
    let passed = at.saturating_sub(low(input));
    passed >= FAR && passed >= high(input).saturating_sub(at)
}

/// Whether the content has so many bytes.
fn has_bytes<C: Cursor>(input: &mut Input<C>, count: usize) -> bool
    ensures keeps { Keeps input.old input.new }
    ensures has { IsTrue result → count ≤ length input.old.content }
{
    match input.content_len() {
        Some(len) => count <= len,
        None => {
            move_to(input, count);
            position(input) == count
        }
    }
}
