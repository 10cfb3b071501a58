//! Regex: a list of patterns, built, and its searches.

ghost use Rattle.std.specs.Prelude.{◌≡◌, All, IfSome, None, Some, false, map};
ghost use Rattle.rc_pattern.specs.WellFormed.{IsWellFormed};
ghost use Rattle.rc_build.specs.Fits.{Fits};
ghost use Rattle.rc_reach.specs.Laws.{greatest_len};
ghost use Rattle.rc_pikevm_search.specs.Choices.{guarding};
ghost use Rattle.rc_dfa.specs.Machine.{symbols};
ghost use Rattle.rc_strategy.specs.Plans.{IsLazyFor, IsLazyOver};
ghost use Rattle.api_meta.specs.Plans.{plan_by};
ghost use Rattle.api_meta.specs.Reaching.{longest_after};
ghost use Rattle.rc_pattern.specs.Meaning.{meaning};
ghost use Rattle.rc_program.specs.Text.{Text};
ghost use Rattle.rc_literals.specs.Needs.{LeavesOut};
ghost use Rattle.rc_settings.specs.Settings.{settings_of, program_settings, auto_prefilter_of, prefilter_of, match_kind_of};

use crate::builder::{Builder, build};
use crate::cache::Cache;
use crate::counts::{explicit_groups, static_groups};
use crate::iterators::{CapturesMatches, FindMatches, Pieces, Split, SplitN};
use crate::seeker::{GroupSeeker, Seeker, Standing};
use rc_captures::captures;
use rc_captures::captures::Captures;
use rc_captures::groups::GroupInfo;
use rc_literals::stops::Stops;
use rc_parser::Grammar;
use rc_pattern::check::properties_of;
use rc_pattern::hir::Hir;
use rc_settings::error::BuildError;
use rc_settings::meta::Config;
use rc_strategy::cache;
use rc_strategy::engines::Engines;
use rc_strategy::list::ListMemo;
use rc_text::cursor::Cursor;
use rc_text::input::{Input, content_fits};
use rc_text::types::{HalfMatch, Match, PatternID};
use std::alloc::{AllocError, Global};
use std::mem::size_of;

/// A regex: a list of patterns, built for searches.
pub struct Regex {
    pub(crate) config: Config,
    pub(crate) hirs: Vec<Hir>,
    pub(crate) engines: Engines,
    pub(crate) info: GroupInfo,
    /// The greatest length of the patterns in bytes, or `None` if one of them has none.
    pub(crate) longest: Option<usize>,
    /// The bytes that no match contains.
    pub(crate) stops: Stops,
    ghost fits: { Fits (program_settings (settings_of config)) (match_kind_of (settings_of config))
        (map meaning hirs.items) engines.engine info },
    ghost planned: { ∥ IfSome engines.lazy
        (IsLazyFor (plan_by (map meaning hirs.items) (settings_of config))) ∥₁ },
    ghost symbols: { ∥ IfSome engines.symbols
        (IsLazyOver symbols (plan_by (map meaning hirs.items) (settings_of config))) ∥₁ },
    ghost measured: { longest ≡ longest_after (Some 0) (map meaning hirs.items) },
    ghost stopped: { (t : Text) → LeavesOut t (map meaning hirs.items) stops.table },
    ghost bounded: { engines.spans.greatest ≡ greatest_len (map meaning hirs.items) },
    ghost well_formed: { ∥ All IsWellFormed (map meaning hirs.items) ∥₁ },
    // No needles, if none are asked for.
    ghost unguarded: { auto_prefilter_of (settings_of config) ≡ false
        → prefilter_of (settings_of config) ≡ None → guarding engines.engine.literals ≡ None },
}

// Crates above call this, and drop no part by themselves.
impl Drop for Regex {
    fn drop(self) {
        let Regex {
            config: _,
            hirs: _,
            engines: _,
            info: _,
            longest: _,
            stops: _,
        } = self;
    }
}

impl Regex {
    ghost use Rattle.std.specs.Prelude.{◌≡◌, ◌≢◌, is_some, ◌≤◌, ◌<◌, ◌+◌, ◌^◌, ◌↔◌, ◌∷◌, [], All, IfErr, IfOk, IfSome, OnOk, OnErr, IsSome, IsTrue, MatchOption, Some, None, false, length, map, option_map};
    ghost use Rattle.rc_text.specs.Limits.{most_patterns};
    ghost use Rattle.rc_captures.specs.Captures.{IsCapturesFor, captures_pattern, captures_slots, match_of};
    ghost use Rattle.rc_captures.specs.Groups.{names_of};
    ghost use Rattle.rc_captures.specs.Names.{slot_len};
    ghost use Rattle.rc_pikevm_search.specs.Tells.{Tells, TellsBy, KeepsAll};
    ghost use Rattle.rc_pikevm_search.specs.Walks.{walks_left};
    ghost use Rattle.rc_program.specs.Matches.{matches_left, pieces_of, pieces_at_most};
    ghost use Rattle.api_meta.specs.Left.{FindRuns, SplitRuns, SplitnRuns, captures_input, captures_left, captures_regex, captures_walks, CapturesLaw, MatchedLaw, find_input, find_left, find_regex, split_input, split_left, splitn_input, splitn_left, splitn_limit};
    ghost use Rattle.rc_text.specs.Found.{Found, half_of};
    ghost use Rattle.rc_program.specs.Laws.{all_groups};
    ghost use Rattle.api_meta.specs.Counts.{static_captures_len};
    ghost use Rattle.rc_text.specs.Bounds.{IsWithinBounds};
    ghost use Rattle.rc_text.specs.Text.{Keeps, low, high};
    ghost use Rattle.rc_text.specs.declared.types.MatchKind.TheVariants.{All as greatest_matches, LeftmostFirst};
    ghost use Rattle.rc_program.specs.Answer.{answer, groups};
    ghost use Rattle.rc_program.specs.Kinds.{IsAnswerBy, answer_by, is_early, matches_by_kind};
    ghost use Rattle.rc_pikevm.specs.KindSlots.{slots_by};
    ghost use Rattle.rc_program.specs.Sought.{search_for};
    ghost use Rattle.rc_settings.specs.Settings.{unset, auto_prefilter_of, prefilter_of, match_kind_of, nfa_size_limit_of};
    ghost use Rattle.rc_build.specs.Refusals.{IsBuildable, limit_by};
    ghost use Rattle.rc_build.specs.TextRefusals.{AllRead, IsTextRefusal, texts_of};
    ghost use Rattle.rc_parser.specs.Settings.{default_settings};
    ghost use Rattle.rc_parses.specs.Preference.{ArePlain, IsPreferredMatch};
    ghost use Rattle.rc_strategy.specs.Caches.{IsCacheIn};
    ghost use Rattle.rc_strategy.specs.Early.{IsHalfBy};
    ghost use Rattle.api_meta.specs.Caches.{HasSameRoom, IsCacheFor};
    ghost use Rattle.api_meta.specs.Preferred.{HoldsPreferred};
    ghost use Rattle.api_meta.specs.Views.{builder_settings, builder_syntax, regex_kind, regex_patterns, regex_settings, regex_names, sought};

    /// Builds a regex from the text of one pattern, with the default settings. The errors are those
    /// of `new_many`.
    pub fn new(alloc: Global, pattern: &str) -> Result<Regex, BuildError>
        ensures read { IfOk result (λ r. AllRead default_settings (pattern.now ∷ [])
            (regex_patterns r)) }
        ensures settings { IfOk result (λ r. regex_settings r ≡ unset) }
        ensures buildable { IfOk result (λ r. IsBuildable
            (limit_by (nfa_size_limit_of unset) default_settings) (regex_patterns r)) }
        ensures refused { IfErr result (λ e. IsTextRefusal
            (nfa_size_limit_of unset) default_settings (pattern.now ∷ []) e) }
    {
        Regex::builder().build(alloc, pattern)
    }

    /// Builds a regex from the texts of several patterns, at most 2,147,483,647, with the default
    /// settings.
    ///
    /// The error is the first of these that applies: `Syntax`, with the first text that doesn't
    /// parse and a byte of it; `IllFormed`, with the first pattern that isn't well-formed;
    /// `SizeLimit`, if 32 times the weight of the patterns is above 10,485,760; `PlaceLimit`, if
    /// the weight is above 2,147,483,646. `Memory` means out of memory.
    pub fn new_many(alloc: Global, patterns: &[&str]) -> Result<Regex, BuildError>
        requires { length patterns.now ≤ most_patterns }
        ensures read { IfOk result (λ r. AllRead default_settings (texts_of patterns.now)
            (regex_patterns r)) }
        ensures settings { IfOk result (λ r. regex_settings r ≡ unset) }
        ensures buildable { IfOk result (λ r. IsBuildable
            (limit_by (nfa_size_limit_of unset) default_settings) (regex_patterns r)) }
        ensures refused { IfErr result (λ e. IsTextRefusal
            (nfa_size_limit_of unset) default_settings (texts_of patterns.now) e) }
    {
        Regex::builder().build_many(alloc, patterns)
    }

    /// Returns a builder with no setting set. It parses text by the default syntax settings.
    pub fn builder() -> Builder
        ensures settings { builder_settings result ≡ unset }
        ensures syntax { builder_syntax result ≡ default_settings }
    {
        Builder::new()
    }

    /// Returns settings with nothing set.
    pub fn config() -> Config
        ensures { settings_of result ≡ unset }
    {
        Config::new()
    }

    /// Returns the match that a search of the input finds. An `Err` means out of memory.
    ///
    /// Under `MatchKind::All` it is the match with the greatest end, of these the one with the
    /// least start, and of these the one of the first pattern. Under `MatchKind::LeftmostLongest`
    /// it is the longest of the matches with the least start.
    ///
    /// If `utf8_empty` is on and some pattern may be empty, each match that ends inside a character
    /// is rejected, whether it is empty or not. `a*` on `aa` followed by the byte 80 gives 3..3,
    /// since a byte from 80 to BF isn't where a character begins. Under `MatchKind::All` no match
    /// is rejected.
    ///
    /// With the earliest flag of the input on, unless matches may be rejected, any span that a
    /// pattern matches may be the result, and there is one if there is one with the flag off. The
    /// search then stops at the first position at which some match ends.
    ///
    /// The match depends only on the uncut bytes of the content, however the cursor cuts them. If
    /// `is_plain` is true, the preferred match is the least parse of the least start that has one.
    pub fn find<C: Cursor + Drop>(
        &self,
        alloc: Global,
        mut input: Input<C>,
    ) -> Result<Option<Match>, AllocError>
        ensures found { match_kind_of (regex_settings self.now) ≡ LeftmostFirst
            → is_early input.earliest (search_for (sought self.now) input) ≡ false
            → IfOk result (λ m. m ≡ answer (search_for (sought self.now) input)) }
        ensures preferred { match_kind_of (regex_settings self.now) ≡ LeftmostFirst
            → ArePlain (regex_patterns self.now)
            → is_early input.earliest (search_for (sought self.now) input) ≡ false
            → IfOk result (IsPreferredMatch (sought self.now) input) }
        ensures found_by { is_early input.earliest (search_for (sought self.now) input) ≡ false
            → IfOk result (λ m. m ≡ answer_by (regex_kind self.now)
            (search_for (sought self.now) input)) }
        ensures may { IfOk result (IsAnswerBy (regex_kind self.now) input.earliest
            (search_for (sought self.now) input)) }
        ensures within { IfOk result (λ o. IfSome o (IsWithinBounds input)) }
    {
        self.engines.search_once(alloc, &mut input)
    }

    /// Returns the match that a search of the input finds, exactly as `find` does.
    pub fn search<C: Cursor + Drop>(
        &self,
        alloc: Global,
        input: Input<C>,
    ) -> Result<Option<Match>, AllocError>
        ensures found_by { is_early input.earliest (search_for (sought self.now) input) ≡ false
            → IfOk result (λ m. m ≡ answer_by (regex_kind self.now)
            (search_for (sought self.now) input)) }
        ensures may { IfOk result (IsAnswerBy (regex_kind self.now) input.earliest
            (search_for (sought self.now) input)) }
        ensures within { IfOk result (λ o. IfSome o (IsWithinBounds input)) }
    {
        let found = self.find(alloc, input)?;
        Ok(found)
    }

    /// Returns the match that `find` finds, in a cache that was made for this regex. It takes no
    /// memory.
    pub fn search_with<C: Cursor>(&self, cache: &mut Cache, input: &mut Input<C>) -> Option<Match>
        requires made { IsCacheFor (regex_patterns self.now) (regex_settings self.now) cache.old }
        ensures cache { IsCacheFor (regex_patterns self.now) (regex_settings self.now) cache.new }
        ensures room { HasSameRoom cache.old cache.new }
        ensures keeps { Keeps input.old input.new }
        ensures found { match_kind_of (regex_settings self.now) ≡ LeftmostFirst
            → is_early input.old.earliest (search_for (sought self.now) input.old) ≡ false
            → result ≡ answer (search_for (sought self.now) input.old) }
        ensures preferred { match_kind_of (regex_settings self.now) ≡ LeftmostFirst
            → ArePlain (regex_patterns self.now)
            → is_early input.old.earliest (search_for (sought self.now) input.old) ≡ false
            → IsPreferredMatch (sought self.now) input.old result }
        ensures found_by { is_early input.old.earliest (search_for (sought self.now) input.old)
            ≡ false
            → result ≡ answer_by (regex_kind self.now) (search_for (sought self.now) input.old) }
        ensures may { IsAnswerBy (regex_kind self.now) input.old.earliest
            (search_for (sought self.now) input.old) result }
        ensures within { IfSome result (IsWithinBounds input.old) }
    {
        self.engines.search(&mut cache.inner, input)
    }

    /// Returns the pattern and the end of the match that `find` finds. An `Err` means out of
    /// memory.
    pub fn search_half<C: Cursor + Drop>(
        &self,
        alloc: Global,
        mut input: Input<C>,
    ) -> Result<Option<HalfMatch>, AllocError>
        ensures found_by { is_early input.earliest (search_for (sought self.now) input) ≡ false
            → IfOk result (λ m. m ≡ option_map half_of
            (answer_by (regex_kind self.now) (search_for (sought self.now) input))) }
        ensures may { IfOk result (IsHalfBy (regex_kind self.now) input.earliest
            (search_for (sought self.now) input)) }
        ensures within { IfOk result (λ o. IfSome o
            (λ m. (low input ≤ m.offset) × (m.offset ≤ high input))) }
    {
        self.engines.search_end_once(alloc, &mut input)
    }

    /// Returns the pattern and the end of the match that `find` finds, in a cache that was made for
    /// this regex. It takes no memory.
    pub fn search_half_with<C: Cursor>(
        &self,
        cache: &mut Cache,
        input: &mut Input<C>,
    ) -> Option<HalfMatch>
        requires made { IsCacheFor (regex_patterns self.now) (regex_settings self.now) cache.old }
        ensures cache { IsCacheFor (regex_patterns self.now) (regex_settings self.now) cache.new }
        ensures room { HasSameRoom cache.old cache.new }
        ensures keeps { Keeps input.old input.new }
        ensures found_by { is_early input.old.earliest (search_for (sought self.now) input.old)
            ≡ false
            → result ≡ option_map half_of
            (answer_by (regex_kind self.now) (search_for (sought self.now) input.old)) }
        ensures may { IsHalfBy (regex_kind self.now) input.old.earliest
            (search_for (sought self.now) input.old) result }
        ensures within { IfSome result (λ m. (low input.old ≤ m.offset)
            × (m.offset ≤ high input.old)) }
    {
        self.engines.search_end(&mut cache.inner, input)
    }

    /// Returns whether a search of the input finds a match. An `Err` means out of memory.
    ///
    /// It rejects matches as `find` does: `^a*` has none on `aa` followed by the byte 80. Under
    /// `MatchKind::All` no match is rejected.
    pub fn is_match<C: Cursor + Drop>(
        &self,
        alloc: Global,
        mut input: Input<C>,
    ) -> Result<bool, AllocError>
        ensures found_by { IfOk result (λ b. IsTrue b
            ↔ IsSome (answer_by (regex_kind self.now) (search_for (sought self.now) input))) }
    {
        self.engines.is_match_once(alloc, &mut input)
    }

    /// The number of patterns.
    pub fn pattern_len(&self) -> usize
        ensures { result ≡ length (regex_patterns self.now) }
    {
        self.hirs.len()
    }

    /// The number of groups of all patterns: group 0 of each, and the explicit ones, whether they
    /// are kept or not.
    pub fn captures_len(&self) -> usize
        ensures { result ≡ length (regex_patterns self.now) + all_groups (regex_patterns self.now) }
    {
        self.pattern_len() + explicit_groups(&self.hirs)
    }

    /// The number of groups that take part in each match, group 0 among them, if that is known to
    /// be one number for all patterns. `None` if there is no pattern.
    pub fn static_captures_len(&self) -> Option<usize>
        ensures { result ≡ static_captures_len (regex_patterns self.now) }
    {
        let explicit = static_groups(&self.hirs)?;
        Some(explicit.saturating_add(1))
    }

    /// Whether no pattern repeats something that may be empty. If so, the patterns alone decide
    /// which match is preferred, and its groups. It takes no memory.
    pub fn is_plain(&self) -> bool
        ensures { IsTrue result ↔ ArePlain (regex_patterns self.now) }
    {
        for hir in &self.hirs {
            if !properties_of(hir).is_plain() {
                return false;
            }
        }
        true
    }

    /// The groups that are kept.
    pub fn group_info(&self) -> &GroupInfo
        ensures { names_of result.now ≡ regex_names self.now }
    {
        &self.info
    }

    /// The settings.
    pub fn get_config(&self) -> &Config
        ensures { settings_of result.now ≡ regex_settings self.now }
    {
        &self.config
    }

    /// Returns a regex of the same patterns under the same settings. An `Err` means out of memory.
    pub fn try_clone(&self, alloc: Global) -> Result<Regex, AllocError>
        ensures patterns { IfOk result (λ r. regex_patterns r ≡ regex_patterns self.now) }
        ensures settings { IfOk result (λ r. regex_settings r ≡ regex_settings self.now) }
    {
        // Whichever grammar weighed them before, they are no heavier by the full one.
        match build(alloc, &self.config, Grammar::Full, &self.hirs) {
            Ok(regex) => Ok(regex),
            // The patterns were built before, so there is no other error.
            Err(_) => Err(AllocError),
        }
    }

    /// Whether searches use literals, and find candidates by one needle or by at most three bytes.
    pub fn is_accelerated(&self) -> bool
        ensures { auto_prefilter_of (regex_settings self.now) ≡ false
            → prefilter_of (regex_settings self.now) ≡ None
            → result ≡ false }
    {
        self.engines.engine.literals.is_fast()
    }

    /// Roughly the number of bytes that the program, the groups, the needles and the DFAs take. The
    /// program counts with the ranges of its classes, its first-byte sets and its columns of slots.
    pub fn memory_usage(&self) -> usize {
        let engine = &self.engines.engine;
        let slots = self
            .info
            .slot_len()
            .saturating_mul(size_of::<Option<usize>>());
        engine
            .program
            .memory_usage()
            .saturating_add(slots)
            .saturating_add(engine.literals.memory_usage())
            .saturating_add(self.engines.words_usage())
            .saturating_add(self.engines.memory_usage())
    }

    /// Returns a cache for searches by this regex. An `Err` means out of memory.
    pub fn create_cache(&self, alloc: Global) -> Result<Cache, AllocError>
        ensures { IfOk result (IsCacheFor (regex_patterns self.now) (regex_settings self.now)) }
    {
        Cache::new(alloc, self)
    }

    /// A cache for searches by the engines, with all slots.
    pub(crate) fn engine_cache(&self, alloc: Global) -> Result<cache::Cache, AllocError>
        ensures made { IfOk result (IsCacheIn self.now.engines
            (slot_len (names_of self.now.info))) }
        ensures both { IfOk result (λ c. is_some c.lazy ≡ is_some self.now.engines.lazy) }
        ensures symbols { IfOk result (λ c. is_some c.symbols ≡ is_some self.now.engines.symbols) }
    {
        self.engines.create_cache(alloc, self.info.slot_len())
    }

    /// Returns captures that keep the groups of the patterns, and hold no match yet. An `Err` means
    /// out of memory.
    pub fn create_captures(&self, alloc: Global) -> Result<Captures, AllocError>
        ensures made { IfOk result (IsCapturesFor (regex_names self.now)) }
        ensures whole { IfOk result (KeepsAll (regex_names self.now)) }
        ensures pattern { IfOk result (λ c. captures_pattern c ≡ None) }
    {
        Captures::all(alloc, &self.info)
    }

    /// Returns the match that `find` finds, with its groups. Without a match the captures are
    /// empty. An `Err` means out of memory.
    ///
    /// Under `MatchKind::All` explicit groups are empty. Under `MatchKind::LeftmostLongest` the
    /// groups are those of the preferred walk of that length. Otherwise, if `is_plain` is true, the
    /// groups are those of the least parse.
    pub fn captures<C: Cursor + Drop>(
        &self,
        alloc: Global,
        input: Input<C>,
    ) -> Result<Captures, AllocError>
        ensures made { IfOk result (IsCapturesFor (regex_names self.now)) }
        ensures whole { IfOk result (KeepsAll (regex_names self.now)) }
        ensures found { match_kind_of (regex_settings self.now) ≡ LeftmostFirst
            → IfOk result (Tells (search_for (sought self.now) input)) }
        ensures matched { match_kind_of (regex_settings self.now) ≡ LeftmostFirst
            → IfOk result (λ c. match_of c ≡ answer (search_for (sought self.now) input)) }
        ensures preferred { match_kind_of (regex_settings self.now) ≡ LeftmostFirst
            → ArePlain (regex_patterns self.now)
            → IfOk result (HoldsPreferred (sought self.now) input) }
        ensures told_by { IfOk result (TellsBy (regex_kind self.now)
            (search_for (sought self.now) input)) }
        ensures matched_by { IfOk result
            (λ c. match_of c ≡ answer_by (regex_kind self.now)
            (search_for (sought self.now) input)) }
        ensures within { IfOk result (λ c. IfSome (match_of c) (IsWithinBounds input)) }
    {
        let mut caps = self.create_captures(alloc)?;
        self.search_captures(alloc, input, &mut caps)?;
        Ok(caps)
    }

    /// Finds the match that `captures` finds, and writes it to captures that were made for this
    /// regex: by `create_captures`, or of its `group_info`. After an `Err` they hold no match.
    pub fn search_captures<C: Cursor + Drop>(
        &self,
        alloc: Global,
        mut input: Input<C>,
        caps: &mut Captures,
    ) -> Result<(), AllocError>
        requires made { IsCapturesFor (regex_names self.now) caps.old }
        ensures still_made { IsCapturesFor (regex_names self.now) caps.new }
        ensures long { length (captures_slots caps.new) ≡ length (captures_slots caps.old) }
        ensures refused { OnErr result (captures_pattern caps.new ≡ None) }
        ensures told_by { OnOk result (TellsBy (regex_kind self.now)
            (search_for (sought self.now) input) caps.new) }
        ensures matched_by { OnOk result
            (match_of caps.new ≡ answer_by (regex_kind self.now)
            (search_for (sought self.now) input)) }
        ensures within { OnOk result (IfSome (match_of caps.new)
            (IsWithinBounds input)) }
    {
        captures::clear(caps);
        let mut cache = self.create_cache(alloc)?;
        self.search_captures_with(&mut cache, &mut input, caps);
        Ok(())
    }

    /// Finds the match that `captures` finds, and writes it to captures that were made for this
    /// regex, in a cache that was made for it. It takes no memory.
    pub fn search_captures_with<C: Cursor>(
        &self,
        cache: &mut Cache,
        input: &mut Input<C>,
        caps: &mut Captures,
    )
        requires made { IsCacheFor (regex_patterns self.now) (regex_settings self.now) cache.old }
        requires for_regex { IsCapturesFor (regex_names self.now) caps.old }
        ensures cache { IsCacheFor (regex_patterns self.now) (regex_settings self.now) cache.new }
        ensures room { HasSameRoom cache.old cache.new }
        ensures keeps { Keeps input.old input.new }
        ensures still_made { IsCapturesFor (regex_names self.now) caps.new }
        ensures long { length (captures_slots caps.new) ≡ length (captures_slots caps.old) }
        ensures found { match_kind_of (regex_settings self.now) ≡ LeftmostFirst
            → Tells (search_for (sought self.now) input.old) caps.new }
        ensures matched { match_kind_of (regex_settings self.now) ≡ LeftmostFirst
            → match_of caps.new ≡ answer (search_for (sought self.now) input.old) }
        ensures preferred { match_kind_of (regex_settings self.now) ≡ LeftmostFirst
            → ArePlain (regex_patterns self.now)
            → HoldsPreferred (sought self.now) input.old caps.new }
        ensures told_by { TellsBy (regex_kind self.now)
            (search_for (sought self.now) input.old) caps.new }
        ensures matched_by { match_of caps.new
            ≡ answer_by (regex_kind self.now) (search_for (sought self.now) input.old) }
        ensures within { IfSome (match_of caps.new)
            (IsWithinBounds input.old) }
    {
        self.engines.find_captures(&mut cache.inner, input, caps);
    }

    /// Returns the pattern of the match that `find` finds, and writes its slots to `slots`, which
    /// may be fewer than the regex has. Without a match the slots stay. An `Err` means out of
    /// memory, and the slots stay then too.
    ///
    /// Under `MatchKind::All` the slots of explicit groups are empty.
    pub fn search_slots<C: Cursor + Drop>(
        &self,
        alloc: Global,
        mut input: Input<C>,
        slots: &mut [Option<usize>],
    ) -> Result<Option<PatternID>, AllocError>
        requires few { length slots.old ≤ slot_len (regex_names self.now) }
        ensures refused { OnErr result (slots.new ≡ slots.old) }
        ensures pattern_by { IfOk result
            (λ p. p ≡ option_map (λ (m : Found). m.pattern)
            (answer_by (regex_kind self.now) (search_for (sought self.now) input))) }
        ensures slots_by { IfOk result (λ p. MatchOption p
            (slots.new ≡ slots.old)
            (λ _. Some slots.new ≡ slots_by (regex_kind self.now)
            (search_for (sought self.now) input) (length slots.old))) }
    {
        let mut cache = self.engines.create_cache(alloc, slots.len())?;
        Ok(self.engines.find_slots(&mut cache, &mut input, slots))
    }

    /// Returns the pattern of the match that `find` finds, and writes its slots to `slots`, in a
    /// cache that was made for this regex. Without a match the slots stay. It takes no memory.
    pub fn search_slots_with<C: Cursor>(
        &self,
        cache: &mut Cache,
        input: &mut Input<C>,
        slots: &mut [Option<usize>],
    ) -> Option<PatternID>
        requires made { IsCacheFor (regex_patterns self.now) (regex_settings self.now) cache.old }
        requires few { length slots.old ≤ slot_len (regex_names self.now) }
        ensures cache { IsCacheFor (regex_patterns self.now) (regex_settings self.now) cache.new }
        ensures room { HasSameRoom cache.old cache.new }
        ensures keeps { Keeps input.old input.new }
        ensures pattern_by { result ≡ option_map (λ (m : Found). m.pattern)
            (answer_by (regex_kind self.now) (search_for (sought self.now) input.old)) }
        ensures slots_by { MatchOption result
            (slots.new ≡ slots.old)
            (λ _. Some slots.new ≡ slots_by (regex_kind self.now)
            (search_for (sought self.now) input.old) (length slots.old)) }
    {
        self.engines.find_slots(&mut cache.inner, input, slots)
    }

    /// Returns an iterator over all matches in the input, from left to right.
    ///
    /// Each search starts where the last match ended, and finds the match that `find` finds. If
    /// that match is empty and ends there again, the search begins a byte later. An `Err` means out
    /// of memory for the cache; the items take no memory.
    pub fn find_iter<'r, C: Cursor + Drop>(
        &'r self,
        alloc: Global,
        input: Input<C>,
    ) -> Result<FindMatches<'r, C>, AllocError>
        ensures left { match_kind_of (regex_settings self.now) ≡ LeftmostFirst
            → IfOk result (λ s. find_left s
            ≡ matches_left (search_for (sought self.now) input) input.span.start None) }
        ensures left_by { IfOk result (λ s. find_left s
            ≡ matches_by_kind (regex_kind self.now)
            (search_for (sought self.now) input) input.span.start None) }
        ensures within { IfOk result (λ s. All (IsWithinBounds input) (find_left s)) }
        ensures short { IfOk result (λ s. length (find_left s) < 2 ^ 64) }
        ensures regex { IfOk result (λ s. find_regex s ≡ self.now) }
        ensures input { IfOk result (λ s. find_input s ≡ input) }
        ensures runs { IfOk result FindRuns }
    {
        content_fits(&input);
        let cache = self.engines.create_cache(alloc, 0)?;
        let seeker = Seeker {
            regex: self,
            cache,
            standing: Standing {
                last: None,
                is_done: false,
            },
        };
        let memo = ListMemo::new();
        Ok(FindMatches {
            seeker,
            input,
            memo,
        })
    }

    /// Returns an iterator over the matches of `find_iter`, each with its groups. An `Err` means
    /// out of memory for the cache. An item takes only the memory of its captures, and is an `Err`
    /// if there is none.
    ///
    /// Under `MatchKind::All` explicit groups are empty.
    pub fn captures_iter<'r, C: Cursor + Drop>(
        &'r self,
        alloc: Global,
        input: Input<C>,
    ) -> Result<CapturesMatches<'r, C>, AllocError>
        ensures left { match_kind_of (regex_settings self.now) ≡ LeftmostFirst
            → IfOk result (λ s. captures_left s
            ≡ matches_left (search_for (sought self.now) input) input.span.start None) }
        ensures left_by { IfOk result (λ s. captures_left s
            ≡ matches_by_kind (regex_kind self.now)
            (search_for (sought self.now) input) input.span.start None) }
        ensures walks { IfOk result (λ s. captures_walks s
            ≡ walks_left (regex_kind self.now)
            (search_for (sought self.now) input) input.span.start None) }
        ensures law { regex_kind self.now ≢ greatest_matches
            → IfOk result (CapturesLaw (regex_kind self.now) (regex_names self.now)
            (search_for (sought self.now) input) input.span.start) }
        ensures law_by { IfOk result (MatchedLaw (regex_kind self.now) (regex_names self.now)
            (search_for (sought self.now) input) input.span.start) }
        ensures short { IfOk result (λ s. length (captures_left s) < 2 ^ 64) }
        ensures regex { IfOk result (λ s. captures_regex s ≡ self.now) }
        ensures input { IfOk result (λ s. captures_input s ≡ input) }
    {
        content_fits(&input);
        let cache = self.engine_cache(alloc)?;
        let seeker = Seeker {
            regex: self,
            cache,
            standing: Standing {
                last: None,
                is_done: false,
            },
        };
        let seeker = GroupSeeker { seeker, alloc };
        Ok(CapturesMatches { seeker, input })
    }

    /// Returns an iterator over the pieces of the content between the matches of `find_iter`, from
    /// left to right. The first piece begins at 0, and the last one ends where the search does. An
    /// `Err` means out of memory for the cache; the items take no memory.
    pub fn split<'r, C: Cursor + Drop>(
        &'r self,
        alloc: Global,
        input: Input<C>,
    ) -> Result<Split<'r, C>, AllocError>
        ensures left_by { IfOk result (λ s. split_left s
            ≡ pieces_of (high input) (matches_by_kind (regex_kind self.now)
            (search_for (sought self.now) input) input.span.start None)) }
        ensures input { IfOk result (λ s. split_input s ≡ input) }
        ensures runs { IfOk result SplitRuns }
        ensures few { IfOk result (λ s. length (split_left s) ≤ high input + 2) }
        ensures short { high input + 2 < 2 ^ 64
            → IfOk result (λ s. length (split_left s) < 2 ^ 64) }
    {
        let matches = self.find_iter(alloc, input)?;
        let pieces = Pieces {
            seeker: matches.seeker,
            start: 0,
            is_done: false,
        };
        let input = matches.input;
        Ok(Split { pieces, input })
    }

    /// Returns an iterator over the pieces of `split`, at most `limit` of them: the last one then
    /// goes on to where the search ends. An `Err` means out of memory for the cache; the items take
    /// no memory.
    pub fn splitn<'r, C: Cursor + Drop>(
        &'r self,
        alloc: Global,
        input: Input<C>,
        limit: usize,
    ) -> Result<SplitN<'r, C>, AllocError>
        ensures left_by { IfOk result (λ s. splitn_left s
            ≡ pieces_at_most limit (high input)
            (matches_by_kind (regex_kind self.now)
            (search_for (sought self.now) input) input.span.start None)) }
        ensures limit { IfOk result (λ s. splitn_limit s ≡ limit) }
        ensures input { IfOk result (λ s. splitn_input s ≡ input) }
        ensures runs { IfOk result SplitnRuns }
    {
        let matches = self.find_iter(alloc, input)?;
        let pieces = Pieces {
            seeker: matches.seeker,
            start: 0,
            is_done: false,
        };
        let input = matches.input;
        Ok(SplitN {
            pieces,
            input,
            limit,
        })
    }
}
