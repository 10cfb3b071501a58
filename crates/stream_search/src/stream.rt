//! Stream searcher: a search of a text that comes in by chunks.

use crate::error::FeedError;
use crate::finds::PartialFinder;
use crate::search::{input_from, is_again, moved, remove_front, search_kept};
use regex_cursor::engines::meta::{Cache, Captures, Finder, Partial};
use regex_cursor::types::Match;
use std::alloc::Global;
use std::marker::Model;

/// How many bytes before a position an assertion looks at, at most.
const LOOKS_BEHIND: usize = 4;

/// A search of a text that comes in by chunks, by a regex that it borrows.
pub type StreamSearcher<'r> = StreamSearcherOf<Finder<'r>>;

/// A search of a text that comes in by chunks.
///
/// It gives the matches of `Regex::find_iter` over the whole text, however the text was cut: each
/// once it is known that nothing that follows can change it. It keeps only the bytes that it may
/// have to read again. Contracts see it with its history: the bytes that it was fed, and the
/// matches that it gave.
#[derive(Drop)]
pub struct StreamSearcherOf<F: PartialFinder> {
    finder: F,
    kept: Vec<u8>,
    gone: usize,
    from: usize,
    last: Option<usize>,
    limit: usize,
    is_finished: bool,
}

impl<F: PartialFinder> Model for StreamSearcherOf<F> {
    ghost use Rattle.std.specs.Coded.{codes};
    ghost use Rattle.std.specs.Prelude.{length};
    ghost use Rattle.api_meta.specs.contracts.regex.Regex as regexes;
    ghost use Rattle.stream_search.specs.Searching.{IsPlaced, Streaming};

    ghost Value = { Streaming };

    ghost coded = { Prim.hlevel (codes, regexes.the_row.coded) };

    ghost view = { λ s. record {
      regex = F.searched_by s.finder;
      kept = s.kept.items;
      gone = s.gone;
      from = s.from;
      last = s.last;
      limit = s.limit;
      is_finished = s.is_finished;
    } };

    ghost invariant = { λ s. IsPlaced s.gone (length s.kept.items) s.from s.last };
}

impl<'r> StreamSearcherOf<Finder<'r>> {
    ghost use Rattle.std.specs.Prelude.{◌≡◌, []};
    ghost use Rattle.stream_search.specs.Searching.{WasFed, fresh};

    /// Returns a search of a stream of which nothing has come yet, with no limit to the bytes that
    /// it keeps. It takes no memory yet.
    pub fn new(alloc: Global, finder: Finder<'r>) -> StreamSearcher<'r>
        ensures fresh { result ≡ fresh finder.entry }
        ensures fed { WasFed [] [] result }
    {
        StreamSearcherOf::over(alloc, finder)
    }

    /// Lets the search keep at most so many bytes.
    pub fn with_limit(mut self, limit: usize) -> StreamSearcher<'r>
        ensures { result ≡ record self.entry { limit = limit } }
    {
        self.set_limit(limit);
        self
    }

    /// Returns the finder, for other searches.
    pub fn into_finder(self) -> Finder<'r>
        ensures { result ≡ self.entry.regex }
    {
        self.finder
    }
}

impl<F: PartialFinder> StreamSearcherOf<F> {
    ghost use Rattle.std.specs.Prelude.{◌≡◌, ◌+◌, ◌-◌, ◌++◌, ◌∷◌, ◌<◌, ◌≤◌, ℕ, [], IfErr, IfOk, IfSome, IsTrue, List, MatchOption, None, Some, length, true};
    ghost use Rattle.rc_text.specs.Found.{Found};
    ghost use Rattle.rc_captures.specs.Captures.{IsCapturesFor, captures_slots, match_of};
    ghost use Rattle.rc_reach.specs.Live.{found_by};
    ghost use Rattle.api_meta.specs.Caches.{HasSameRoom, IsCacheFor};
    ghost use Rattle.api_meta.specs.Views.{regex_kind, regex_names, regex_patterns, regex_settings};
    ghost use Rattle.stream_search.specs.Groups.{AreOf, IsNext, TellsFrom, TellsKept, TellsNext};
    ghost use Rattle.stream_search.specs.Searches.{matches_of, seeks};
    ghost use Rattle.stream_search.specs.Searching.{Finds, HoldsRest, IsAfter, IsRefusal, Stands, Takes, WasFed, fresh, left, let_go};

    /// Returns a search as `new` does, by another finder.
    pub fn over(alloc: Global, finder: F) -> StreamSearcherOf<F>
        ensures fresh { result ≡ fresh (F.searched_by finder) }
        ensures fed { WasFed [] [] result }
    {
        StreamSearcherOf {
            finder,
            kept: Vec::new(alloc),
            gone: 0,
            from: 0,
            last: None,
            limit: usize::MAX,
            is_finished: false,
        }
    }

    /// Lets the search keep at most so many bytes.
    pub fn set_limit(&mut self, limit: usize)
        ensures { self.new ≡ record self.old { limit = limit } }
    {
        self.limit = limit;
    }

    /// Takes the next bytes of the stream. Before, it drops the bytes that no search needs.
    ///
    /// The error is the first of these that applies: the stream was finished; it would be too long;
    /// it would have to keep more bytes than the limit; out of memory. Nothing of the chunk is
    /// taken then, and the stream is unchanged.
    pub fn feed(&mut self, chunk: &[u8]) -> Result<(), FeedError>
        ensures fed { IfOk result (λ _. (fed : List ℕ) (told : List Found) →
            WasFed fed told self.old → WasFed (fed ++ chunk.now) told self.new) }
        ensures takes { IfOk result (λ _. Takes chunk.now self.old self.new) }
        ensures refused { IfErr result (IsRefusal self.old chunk.now) }
        ensures stands { IfErr result (λ _. Stands self.old self.new) }
    {
        if self.is_finished {
            return Err(FeedError::Finished);
        }
        if chunk.len() >= usize::MAX - self.stream_len() {
            return Err(FeedError::TooLong);
        }
        self.let_go();
        if self.kept.len() + chunk.len() > self.limit {
            return Err(FeedError::Limit);
        }
        self.kept.extend_from_slice(chunk)?;
        Ok(())
    }

    /// Drops the bytes that no search needs.
    fn let_go(&mut self)
        ensures { self.new ≡ let_go self.old }
    {
        let start = self.from.saturating_sub(LOOKS_BEHIND);
        remove_front(&mut self.kept, start - self.gone);
        self.gone = start;
    }

    /// Returns the next match that nothing that follows can change, with its place in the whole
    /// stream. `None` means that more has to be fed; once the stream is finished, that no match is
    /// left. It takes no memory.
    ///
    /// No clause says how early a match comes before the end. It comes once `Finder::find_partial`
    /// answers `Final` from where the search goes on.
    pub fn next_match(&mut self) -> Option<Match>
        ensures stays { self.new
            ≡ record self.old { from = self.new.from; last = self.new.last } }
        ensures onward { self.old.from ≤ self.new.from }
        ensures lies { IfSome result (λ m. (self.old.from ≤ m.start) × (m.start ≤ m.end)
            × (m.end ≤ self.old.gone + length self.old.kept)) }
        ensures falls { IfSome result (λ _. left self.new < left self.old) }
        ensures goes_on { IfSome result (λ m. self.new.from ≡ m.end) }
        ensures told { (fed : List ℕ) (told : List Found) → WasFed fed told self.old
            → MatchOption result (WasFed fed told self.new)
            (λ m. WasFed fed (told ++ m ∷ []) self.new) }
        ensures all { (fed : List ℕ) (told : List Found) → WasFed fed told self.old
            → self.old.is_finished ≡ true → result ≡ None
            → told ≡ matches_of self.old.regex fed }
    {
        let found = self.seek()?;
        self.last = Some(found.end());
        self.from = found.end();
        Some(found)
    }

    /// Returns the next match as `next_match` does, and writes its groups to captures that were made
    /// for the regex, in a cache that was made for it. The match comes once nothing that follows can
    /// change it or its groups: with `next_match`, or up to four bytes later. It takes no memory.
    ///
    /// The positions in the captures count from the first byte that is kept, which is the byte
    /// `kept_start` of the stream. So a group's bytes are those of its span in `kept`, until the
    /// next `feed`. Without a match it isn't said what the captures hold.
    pub fn next_captures_with(&mut self, cache: &mut Cache, caps: &mut Captures) -> Option<Match>
        requires made { IsCacheFor (regex_patterns self.old.regex)
            (regex_settings self.old.regex) cache.old }
        requires for_regex { IsCapturesFor (regex_names self.old.regex) caps.old }
        ensures cache { IsCacheFor (regex_patterns self.old.regex)
            (regex_settings self.old.regex) cache.new }
        ensures room { HasSameRoom cache.old cache.new }
        ensures still_made { IsCapturesFor (regex_names self.old.regex) caps.new }
        ensures long { length (captures_slots caps.new) ≡ length (captures_slots caps.old) }
        ensures stays { self.new
            ≡ record self.old { from = self.new.from; last = self.new.last } }
        ensures onward { self.old.from ≤ self.new.from }
        ensures lies { IfSome result (λ m. (self.old.from ≤ m.start) × (m.start ≤ m.end)
            × (m.end ≤ self.old.gone + length self.old.kept)) }
        ensures falls { IfSome result (λ _. left self.new < left self.old) }
        ensures goes_on { IfSome result (λ m. self.new.from ≡ m.end) }
        ensures told { (fed : List ℕ) (told : List Found) → WasFed fed told self.old
            → MatchOption result (WasFed fed told self.new)
            (λ m. WasFed fed (told ++ m ∷ []) self.new) }
        ensures groups { (fed : List ℕ) (told : List Found) → WasFed fed told self.old
            → IfSome result (λ m. TellsNext self.old fed caps.new × AreOf self.old caps.new m) }
        ensures here { IfSome result (λ _. TellsKept self.old caps.new) }
        ensures all { (fed : List ℕ) (told : List Found) → WasFed fed told self.old
            → self.old.is_finished ≡ true → result ≡ None
            → told ≡ matches_of self.old.regex fed }
    {
        let before = self.from;
        let found = self.seek()?;
        if self.write_groups(cache, caps) {
            self.last = Some(found.end());
            self.from = found.end();
            return Some(found);
        }
        self.from = before;
        None
    }

    /// Writes the groups of the match that the kept bytes have from where the search goes on.
    /// Returns whether nothing that follows can change them.
    fn write_groups(&self, cache: &mut Cache, caps: &mut Captures) -> bool
        requires made { IsCacheFor (regex_patterns self.now.regex)
            (regex_settings self.now.regex) cache.old }
        requires for_regex { IsCapturesFor (regex_names self.now.regex) caps.old }
        ensures cache { IsCacheFor (regex_patterns self.now.regex)
            (regex_settings self.now.regex) cache.new }
        ensures room { HasSameRoom cache.old cache.new }
        ensures still_made { IsCapturesFor (regex_names self.now.regex) caps.new }
        ensures long { length (captures_slots caps.new) ≡ length (captures_slots caps.old) }
        ensures groups { (fed : List ℕ) → HoldsRest fed self.now → IsTrue result
            → TellsFrom self.now fed caps.new (λ _. self.now.from) }
        ensures matched { (fed : List ℕ) → HoldsRest fed self.now
            → (m : Found) → Finds self.now fed (Some m) → AreOf self.now caps.new m }
        ensures here { TellsKept self.now caps.new }
        ensures all { self.now.is_finished ≡ true → IsTrue result }
    {
        let mut input = input_from(self.kept.as_slice(), self.from - self.gone);
        let regex = self.finder.its_regex();
        let reach = regex.search_captures_reach_with(cache, &mut input, caps);
        self.is_finished || reach <= self.kept.len()
    }

    /// Returns the next match, which is the last one no more. `None` means that the bytes tell none.
    fn seek(&mut self) -> Option<Match>
        ensures stays { self.new ≡ record self.old { from = self.new.from } }
        ensures onward { self.old.from ≤ self.new.from }
        ensures lies { IfSome result (λ m. (self.new.from ≤ m.start) × (m.start ≤ m.end)
            × (m.end ≤ self.new.gone + length self.new.kept)) }
        ensures after { IfSome result (IsAfter self.old.last) }
        ensures told { (fed : List ℕ) (told : List Found) → WasFed fed told self.old
            → MatchOption result (WasFed fed told self.new)
            (λ m. WasFed fed (told ++ m ∷ [])
            (record self.new { from = m.end; last = Some m.end })) }
        ensures next { (fed : List ℕ) (told : List Found) → WasFed fed told self.old
            → IfSome result (λ m. IsNext self.old fed self.new.from × HoldsRest fed self.new
            × Finds self.new fed (Some m)) }
        ensures all { (fed : List ℕ) (told : List Found) → WasFed fed told self.old
            → self.old.is_finished ≡ true → result ≡ None
            → told ≡ matches_of self.old.regex fed }
    {
        let found = self.search_on()?;
        if !is_again(self.last, found) {
            return Some(found);
        }
        self.from += 1;
        self.search_past()
    }

    /// Returns what `search_on` does, where the last match was found again.
    #[inline(never)]
    fn search_past(&mut self) -> Option<Match>
        ensures stays { self.new ≡ record self.old { from = self.new.from } }
        ensures onward { self.old.from ≤ self.new.from }
        ensures lies { IfSome result (λ m. (self.new.from ≡ self.old.from)
            × (self.old.from ≤ m.start) × (m.start ≤ m.end)
            × (m.end ≤ self.old.gone + length self.old.kept)) }
        ensures told { (fed : List ℕ) (told : List Found) → WasFed fed told self.old
            → MatchOption result (WasFed fed told self.new) (λ m. Finds self.old fed (Some m)) }
        ensures none { (fed : List ℕ) (told : List Found) → WasFed fed told self.old
            → self.old.is_finished ≡ true → result ≡ None → Finds self.old fed None }
    {
        self.search_on()
    }

    /// Returns the match that each content that the stream may become has from where the search
    /// goes on. `None` means that the bytes tell none; the search goes on from a later place then.
    #[inline(always)]
    fn search_on(&mut self) -> Option<Match>
        ensures stays { self.new ≡ record self.old { from = self.new.from } }
        ensures onward { self.old.from ≤ self.new.from }
        ensures lies { IfSome result (λ m. (self.new.from ≡ self.old.from)
            × (self.old.from ≤ m.start) × (m.start ≤ m.end)
            × (m.end ≤ self.old.gone + length self.old.kept)) }
        ensures told { (fed : List ℕ) (told : List Found) → WasFed fed told self.old
            → MatchOption result (WasFed fed told self.new) (λ m. Finds self.old fed (Some m)) }
        ensures none { (fed : List ℕ) (told : List Found) → WasFed fed told self.old
            → self.old.is_finished ≡ true → result ≡ None → Finds self.old fed None }
    {
        let at = self.from - self.gone;
        match search_kept(&mut self.finder, &self.kept, at, self.is_finished) {
            Partial::Final(found) => Some(moved(found, self.gone)),
            Partial::From(place) => {
                self.from = self.gone + place;
                None
            }
        }
    }

    /// Says that no more follows. From then on `next_match` gives all that is left.
    pub fn finish(&mut self)
        ensures finished { self.new ≡ record self.old { is_finished = true } }
        ensures fed { (fed : List ℕ) (told : List Found) → WasFed fed told self.old
            → WasFed fed told self.new }
    {
        self.is_finished = true;
    }

    /// Whether the stream was finished.
    pub fn is_finished(&self) -> bool
        ensures { result ≡ self.now.is_finished }
    {
        self.is_finished // since `finish` was called
    }

    /// The bytes that it keeps. The first is the byte `kept_start` of the stream.
    pub fn kept(&self) -> &[u8]
        ensures { result.now ≡ self.now.kept }
    {
        &self.kept
    }

    /// The number of bytes that it let go: those before the first that it keeps.
    pub fn kept_start(&self) -> usize
        ensures { result ≡ self.now.gone }
    {
        self.gone // in the whole stream
    }

    /// The number of bytes that it keeps.
    pub fn kept_len(&self) -> usize
        ensures { result ≡ length self.now.kept }
    {
        self.kept.len()
    }

    /// Where the search goes on, in the whole stream: no match that is still to come begins before.
    /// It may be the place after the end.
    pub fn position(&self) -> usize
        ensures value { result ≡ self.now.from }
        ensures within { result ≤ self.now.gone + length self.now.kept + 1 }
    {
        self.from // in the whole stream
    }

    /// The number of bytes that it was fed.
    pub fn stream_len(&self) -> usize
        ensures value { result ≡ self.now.gone + length self.now.kept }
        ensures fed { (fed : List ℕ) (told : List Found) → WasFed fed told self.now
            → result ≡ length fed }
    {
        self.gone + self.kept.len()
    }
}
