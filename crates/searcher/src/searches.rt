//! Searcher: a regex with its cache, the groups of a match, and the state of an iteration.
ghost use Rattle.std.specs.Arc.{arc_value};
ghost use Rattle.std.specs.Prelude.{◌≡◌, ◌≤◌, IfErr, IfOk, None, OnOk, Some, length};
ghost use Rattle.rc_text.specs.Limits.{most_patterns};
ghost use Rattle.rc_build.specs.Refusals.{IsBuildable, limit_by};
ghost use Rattle.rc_build.specs.TextRefusals.{AllRead, IsTextRefusal, texts_of};
ghost use Rattle.api_meta.specs.Views.{regex_patterns, regex_settings};
ghost use Rattle.rc_text.specs.Joined.{joined};
ghost use Rattle.searcher.specs.Flags.{search_settings, size_limit_in, syntax_settings};
ghost use Rattle.rc_text.specs.Text.{Keeps};
ghost use Rattle.searcher.specs.Ranges.{AreTexts, IsFault, IsNotText, IsServed, in_range};

use crate::answers::{Fault, MatchAt, MemoryParts, Refusal, write_marks};
use crate::batch;
use crate::parts::Parts;
use crate::settings::Settings;
use api_meta::cache::Cache;
use api_meta::partial::Partial;
use api_meta::regex::Regex;
use live_matches::LiveMatches;
use rc_captures::captures::Captures;
use rc_pattern_set::sets::PatternSet;
use rc_settings::error::BuildError;
use rc_text::chunks::{AtError, ChunkCursor};
use rc_text::input::{Input, content_fits};
use rc_text::types::{Anchored, Match, MatchKind, Span};
use std::alloc::{AllocError, Global};
use std::marker::Model;
use std::sync::Arc;

mod lives;
mod prepared;
mod streams;
mod windows;

pub use lives::fill_window;
pub use streams::{OwnedStepper, OwnedStream};

/// How many patterns are searched for at most, so that each has a number.
const MAX_PATTERNS: usize = 2_147_483_647;

/// A regex with everything that its searches need: a cache, captures, a set of its patterns, and
/// the state of an iteration. It may also keep the list of the matches of a text, a search of a
/// stream, and a search in slices.
///
/// It doesn't keep the text. You pass the chunks to each search, which says what the text is. No
/// search fails for lack of memory: its cache may grow up to a limit, and if it can't grow, the
/// result is the same. Several searchers may share one regex, each in a thread of its own.
#[derive(Drop)]
pub struct Searcher {
    regex: Arc<Regex>,
    cache: Cache,
    captures: Captures,
    set: PatternSet,
    from: usize,
    last: Option<usize>,
    live: Option<LiveMatches>,
    stream: Option<OwnedStream>,
    stepper: Option<OwnedStepper>,
}

impl Model for Searcher {
    ghost use Rattle.std.specs.Arc.{arc_value};
    ghost use Rattle.std.specs.Coded.{codes};
    ghost use Rattle.std.specs.Prelude.{◌≡◌, ◌≤◌, IfSome, length};
    ghost use Rattle.rc_text.specs.Limits.{most_patterns};
    ghost use Rattle.rc_captures.specs.contracts.captures.Captures as captured;
    ghost use Rattle.rc_pikevm_search.specs.Tells.{KeepsAll};
    ghost use Rattle.api_meta.specs.Caches.{IsCacheFor};
    ghost use Rattle.api_meta.specs.Views.{regex_names, regex_patterns, regex_settings};
    ghost use Rattle.api_meta.specs.contracts.regex.Regex as regexes;
    ghost use Rattle.live_matches.specs.contracts.live.LiveMatches as lists;
    ghost use Rattle.searcher.specs.Searching.{IsInOrder, Searching};

    ghost Value = { Searching };

    ghost coded = { Prim.hlevel (
      codes,
      regexes.the_row.coded,
      captured.the_row.coded,
      lists.the_row.coded,
    ) };

    ghost view = { λ s. record {
      regex = arc_value s.regex;
      captures = s.captures;
      from = s.from;
      last = s.last;
      live = s.live;
      stream = s.stream;
      stepper = s.stepper;
    } };

    ghost invariant = { λ s. IsCacheFor (regex_patterns (arc_value s.regex))
        (regex_settings (arc_value s.regex)) s.cache
        × KeepsAll (regex_names (arc_value s.regex)) s.captures
        × (length s.set ≡ length (regex_patterns (arc_value s.regex)))
        × (length s.set ≤ most_patterns)
        × IfSome s.live IsInOrder };
}

impl Searcher {
    ghost use Rattle.std.specs.Prelude.{◌≡◌, IfErr, IfOk, OnErr, OnOk, is_some};
    ghost use Rattle.rc_pikevm_search.specs.Tells.{KeepsAll, TellsBy};
    ghost use Rattle.api_meta.specs.Views.{regex_kind, regex_names};
    ghost use Rattle.rc_text.specs.Joined.{joined};
    ghost use Rattle.searcher.specs.Answers.{IsBuilt, IsPartialIn, IsRefused, IsSame, IsShare, answer_at, answer_in, left_in, matches_in, search_in};
    ghost use Rattle.searcher.specs.Last.{last_before};
    ghost use Rattle.searcher.specs.Places.{AreMarks, GoesOn, IsFilled};
    ghost use Rattle.searcher.specs.Ranges.{IsFault, IsServed};

    /// Returns a searcher for the patterns with these texts, each in UTF-8. Its iteration is before
    /// the first byte of the text.
    ///
    /// The error is the first of these that applies: no kind of match has the number; there are too
    /// many texts; a text isn't UTF-8; an error of the build. `Memory` may come at any time.
    pub fn new(alloc: Global, patterns: &[&[u8]], settings: &Settings) -> Result<Searcher, Refusal>
        ensures built { IfOk result (IsBuilt settings.now patterns.now) }
        ensures refused { IfErr result (IsRefused settings.now patterns.now) }
    {
        let Some(kind) = settings.kind() else {
            return Err(Refusal::NoKind);
        };
        if patterns.len() > MAX_PATTERNS {
            return Err(Refusal::TooMany);
        }
        let texts = texts_of(alloc, patterns)?;
        let regex = build(alloc, &texts, settings, kind)?;
        let searcher = with_cache(alloc, Arc::new(alloc, regex)?)?;
        Ok(searcher)
    }

    /// Returns the searcher that `new` returns, on the heap.
    pub fn boxed(
        alloc: Global,
        patterns: &[&[u8]],
        settings: &Settings,
    ) -> Result<Box<Searcher>, Refusal>
        ensures built { IfOk result (λ b. IsBuilt settings.now patterns.now b.value) }
        ensures refused { IfErr result (IsRefused settings.now patterns.now) }
    {
        let searcher = Searcher::new(alloc, patterns, settings)?;
        Ok(Box::new(alloc, searcher)?)
    }

    /// Returns another searcher of the same regex, on the heap. Its iteration is before the first byte
    /// of the text, and it keeps no list. Nothing is compiled again: what is compiled is shared, and
    /// freed with the last of the searchers.
    pub fn share(&self, alloc: Global) -> Result<Box<Searcher>, AllocError>
        ensures { IfOk result (λ b. IsShare self.now b.value) }
    {
        let regex = Arc::try_clone(&self.regex)?;
        let searcher = with_cache(alloc, regex)?;
        Ok(Box::new(alloc, searcher)?)
    }

    /// The regex.
    pub fn regex(&self) -> &Regex
        ensures { result.now ≡ self.now.regex }
    {
        &self.regex
    }

    /// The groups of the last search for groups.
    pub fn captures(&self) -> &Captures
        ensures { result.now ≡ self.now.captures }
    {
        &self.captures
    }

    /// Roughly the number of bytes that the regex and the cache take.
    pub fn memory_usage(&self) -> usize {
        self.regex
            .memory_usage()
            .saturating_add(self.cache.memory_usage())
    }

    /// Roughly the number of bytes that the regex takes, and the number that the cache takes.
    pub fn memory_parts(&self) -> MemoryParts {
        MemoryParts {
            patterns: self.regex.memory_usage(),
            cache: self.cache.memory_usage(),
        }
    }

    /// Whether there is a match in the text from `start` to `end`.
    pub fn is_match(&mut self, chunks: &[&[u8]], start: usize, end: usize) -> Result<bool, Fault>
        ensures found { IfOk result (λ b. b
            ≡ is_some (answer_in self.old.regex (joined chunks.now) start end)) }
        ensures served { OnOk result (IsServed chunks.now start end) }
        ensures fault { IfErr result (IsFault chunks.now start end) }
        ensures kept { self.new ≡ self.old }
    {
        let mut input = input_over(chunks, start, end)?;
        Ok(self.regex.is_match_with(&mut self.cache, &mut input))
    }

    /// Returns the match in the text from `start` to `end`, or to the end of the text if that comes
    /// first. Assertions see the whole text.
    pub fn find(
        &mut self,
        chunks: &[&[u8]],
        start: usize,
        end: usize,
    ) -> Result<Option<Match>, Fault>
        ensures found { IfOk result (λ m. m
            ≡ answer_in self.old.regex (joined chunks.now) start end) }
        ensures served { OnOk result (IsServed chunks.now start end) }
        ensures fault { IfErr result (IsFault chunks.now start end) }
        ensures kept { self.new ≡ self.old }
    {
        let mut input = input_over(chunks, start, end)?;
        Ok(batch::search(&self.regex, &mut self.cache, &mut input))
    }

    /// Returns the match in the text that begins at `start`: of the matches that do, and end at
    /// `end` or before, the one that `find` prefers. Assertions see the whole text.
    pub fn match_at(
        &mut self,
        chunks: &[&[u8]],
        start: usize,
        end: usize,
    ) -> Result<Option<Match>, Fault>
        ensures found { IfOk result (λ m. m
            ≡ answer_at self.old.regex (joined chunks.now) start end) }
        ensures served { OnOk result (IsServed chunks.now start end) }
        ensures fault { IfErr result (IsFault chunks.now start end) }
        ensures kept { self.new ≡ self.old }
    {
        let mut input = input_over(chunks, start, end)?;
        input.set_anchored(Anchored::Yes);
        let found = batch::search(&self.regex, &mut self.cache, &mut input);
        Ok(found)
    }

    /// Returns the last match of the text from `start` to `end` that begins before `place`.
    /// The matches are those of an iteration that begins at `start`. It goes over all of them up to
    /// the place.
    pub fn find_last(
        &mut self,
        chunks: &[&[u8]],
        start: usize,
        end: usize,
        place: usize,
    ) -> Result<Option<Match>, Fault>
        ensures found { IfOk result (λ m. m ≡ last_before place
            (matches_in self.old.regex (joined chunks.now) start end)) }
        ensures served { OnOk result (IsServed chunks.now start end) }
        ensures fault { IfErr result (IsFault chunks.now start end) }
        ensures kept { self.new ≡ self.old }
    {
        let mut input = input_over(chunks, start, end)?;
        Ok(batch::last_before(&self.regex, &mut self.cache, &mut input, place))
    }

    /// Returns what the text from `start` on tells of a search, if more bytes may follow it. A final
    /// match is the one of each text that goes on from this one. Else no match of such a text begins
    /// before the place that is returned, and its search may go on from there. The place is `start`
    /// or behind it, and not behind the end of the text.
    pub fn find_partial(&mut self, chunks: &[&[u8]], start: usize) -> Result<Partial, Fault>
        ensures told { IfOk result (IsPartialIn self.old.regex (joined chunks.now) start) }
        ensures served { OnOk result (IsServed chunks.now start 18446744073709551615) }
        ensures fault { IfErr result (IsFault chunks.now start 18446744073709551615) }
        ensures kept { self.new ≡ self.old }
    {
        let mut input = input_over(chunks, start, usize::MAX)?;
        let answer = self.regex.search_partial_with(&mut self.cache, &mut input);
        Ok(answer)
    }

    /// Marks which patterns have a match in the text from `start` to `end`: the mark at the number
    /// of a pattern is 1 if it has one, and each other mark is 0. A pattern has a match if it
    /// matches some span there, even if no search finds that one because another is preferred. An
    /// `Err` leaves the marks unchanged.
    pub fn which_patterns(
        &mut self,
        chunks: &[&[u8]],
        start: usize,
        end: usize,
        marks: &mut [u8],
    ) -> Result<(), Fault>
        ensures marked { OnOk result (AreMarks (length (regex_patterns self.old.regex))
            (search_in self.old.regex (joined chunks.now) start end) marks.new) }
        ensures served { OnOk result (IsServed chunks.now start end) }
        ensures fault { IfErr result (IsFault chunks.now start end) }
        ensures refused { OnErr result (marks.new ≡ marks.old) }
        ensures kept { self.new ≡ self.old }
    {
        let mut input = input_over(chunks, start, end)?;
        self.set.clear();
        self.regex
            .which_patterns_with(&mut self.cache, &mut input, &mut self.set);
        write_marks(&self.set, marks);
        Ok(())
    }

    /// Returns the match that `find` finds, and keeps its groups, or none if there is no match.
    /// After an `Err` the groups of the search before are still kept.
    pub fn find_groups(
        &mut self,
        chunks: &[&[u8]],
        start: usize,
        end: usize,
    ) -> Result<Option<Match>, Fault>
        ensures told { OnOk result (TellsBy (regex_kind self.old.regex)
            (search_in self.old.regex (joined chunks.now) start end) self.new.captures) }
        ensures found { IfOk result (λ m. m
            ≡ answer_in self.old.regex (joined chunks.now) start end) }
        ensures served { OnOk result (IsServed chunks.now start end) }
        ensures fault { IfErr result (IsFault chunks.now start end) }
        ensures refused { OnErr result (self.new ≡ self.old) }
        ensures whole { OnOk result (KeepsAll (regex_names self.old.regex) self.new.captures) }
        ensures kept { IsSame self.old self.new }
    {
        let mut input = input_over(chunks, start, end)?;
        self.regex
            .search_captures_with(&mut self.cache, &mut input, &mut self.captures);
        Ok(self.captures.get_match())
    }

    /// Begins an iteration at a position. If `last` is given, a match ended there, so an empty
    /// match there is skipped.
    pub fn restart(&mut self, from: usize, last: Option<usize>)
        ensures { self.new ≡ record self.old { from = from; last = last } }
    {
        self.from = from;
        self.last = last;
    }

    /// Where the next search of the iteration begins.
    pub fn place(&self) -> usize
        ensures { result ≡ self.now.from }
    {
        let Searcher { from, .. } = self;
        *from
    }

    /// Fills the batch with the next matches of the text, up to `end`, and returns how many there
    /// are. If the batch isn't full, no more are left. Each search starts where the last match
    /// ended. If it finds an empty match that ends there again, the search begins a byte later.
    ///
    /// The matches are those of the text that you pass. If that is another one than in the last
    /// call, the iteration goes on from the same position in the new text. An `Err` leaves
    /// everything unchanged.
    pub fn fill(
        &mut self,
        chunks: &[&[u8]],
        end: usize,
        batch: &mut [MatchAt],
    ) -> Result<usize, Fault>
        ensures filled { IfOk result (IsFilled (left_in self.old (joined chunks.now) end)
            (left_in self.new (joined chunks.now) end) batch.new) }
        ensures goes_on { IfOk result (λ count. GoesOn batch.new count self.old.from self.old.last
            self.new.from self.new.last) }
        ensures served { OnOk result (IsServed chunks.now self.old.from end) }
        ensures fault { IfErr result (IsFault chunks.now self.old.from end) }
        ensures unfilled { OnErr result (batch.new ≡ batch.old) }
        ensures refused { OnErr result (self.new ≡ self.old) }
        ensures rest { self.new ≡ record self.old { from = self.new.from; last = self.new.last } }
    {
        let mut input = input_over(chunks, self.from, end)?;
        let filled = batch::fill(&self.regex, &mut self.cache, &mut input, self.last, batch);
        self.from = filled.from;
        self.last = filled.last;
        Ok(filled.count)
    }
}

/// Frees a searcher, so that its owner needn't be able to drop each of its parts.
pub fn free(searcher: Box<Searcher>) {
    drop(searcher);
}

/// Takes apart the box of a searcher.
pub fn parts_of(searcher: Box<Searcher>) -> Parts<Searcher, Global>
    ensures { result.value ≡ searcher.value }
{
    Parts::of(searcher)
}

/// Puts the box of a searcher together again.
pub fn box_of(parts: Parts<Searcher, Global>) -> Box<Searcher>
    ensures { result.value ≡ parts.value }
{
    parts.into_box()
}

/// The texts of these bytes.
fn texts_of<'p>(alloc: Global, patterns: &[&'p [u8]]) -> Result<Vec<&'p str>, Refusal>
    ensures same { IfOk result (λ v. texts_of v.items ≡ texts_of patterns.now) }
    ensures texts { OnOk result (AreTexts patterns.now) }
    ensures refused { IfErr result (IsNotText patterns.now) }
{
    let mut texts = Vec::new(alloc);
    for i in 0..patterns.len() {
        let bytes: &'p [u8] = patterns[i];
        match str::from_utf8(bytes) {
            Ok(text) => texts.push(text)?,
            Err(_) => return Err(Refusal::NotUtf8(i)),
        }
    }
    Ok(texts)
}

/// Builds a regex from the texts of patterns.
fn build(
    alloc: Global,
    texts: &[&str],
    settings: &Settings,
    kind: MatchKind,
) -> Result<Regex, BuildError>
    requires { length texts.now ≤ most_patterns }
    ensures read { IfOk result (λ r. AllRead (syntax_settings settings.now) (texts_of texts.now)
        (regex_patterns r)) }
    ensures set { IfOk result (λ r. regex_settings r ≡ search_settings settings.now kind) }
    ensures buildable { IfOk result (λ r. IsBuildable
        (limit_by (Some (size_limit_in settings.now)) (syntax_settings settings.now))
        (regex_patterns r)) }
    ensures refused { IfErr result (λ e. IsTextRefusal (Some (size_limit_in settings.now))
        (syntax_settings settings.now) (texts_of texts.now) e) }
{
    let mut builder = Regex::builder();
    builder
        .configure(settings.search(kind))
        .syntax(settings.syntax())
        .build_many(alloc, texts)
}

/// Returns the searcher of a regex.
fn with_cache(alloc: Global, regex: Arc<Regex>) -> Result<Searcher, AllocError>
    requires { length (regex_patterns (arc_value regex)) ≤ most_patterns }
    ensures regex { IfOk result (λ s. s.regex ≡ arc_value regex) }
    ensures from { IfOk result (λ s. s.from ≡ 0) }
    ensures last { IfOk result (λ s. s.last ≡ None) }
    ensures live { IfOk result (λ s. s.live ≡ None) }
    ensures stream { IfOk result (λ s. s.stream ≡ None) }
    ensures stepper { IfOk result (λ s. s.stepper ≡ None) }
{
    let Ok(cache) = regex.create_cache(alloc) else {
        drop(regex);
        return Err(AllocError);
    };
    let Ok(captures) = regex.create_captures(alloc) else {
        drop(regex);
        drop(cache);
        return Err(AllocError);
    };
    let Ok(set) = PatternSet::new(alloc, regex.pattern_len()) else {
        drop(regex);
        drop(cache);
        drop(captures);
        return Err(AllocError);
    };
    Ok(Searcher {
        regex,
        cache,
        captures,
        set,
        from: 0,
        last: None,
        live: None,
        stream: None,
        stepper: None,
    })
}

/// The text of the chunks, as an input from `start` to `end`, with the earliest flag off.
fn input_over<'a>(
    chunks: &'a [&'a [u8]],
    start: usize,
    end: usize,
) -> Result<Input<ChunkCursor<'a>>, Fault>
    ensures in_range { IfOk result (Keeps (in_range (joined chunks.now) start end)) }
    ensures served { OnOk result (IsServed chunks.now start end) }
    ensures fault { IfErr result (IsFault chunks.now start end) }
{
    if start > end {
        return Err(Fault::Outside);
    }
    match ChunkCursor::at(chunks, start) {
        Ok(cursor) => {
            let mut input = Input::new(cursor);
            input.set_span(Span { start, end });
            content_fits(&input);
            Ok(input)
        }
        Err(AtError::TooLong) => Err(Fault::TooLong),
        Err(AtError::PastEnd) => Err(Fault::Outside),
    }
}
