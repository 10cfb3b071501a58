//! Lazy DFA regex: a regex that searches by a lazy DFA alone.

ghost use Rattle.std.specs.Prelude.{◌≡◌, map};
ghost use Rattle.rc_pattern.specs.Meaning.{meaning};
ghost use Rattle.rc_program.specs.Sought.{passes_over as is_passing};
ghost use Rattle.rc_settings.specs.SearchSettings.{match_kind_of, search_settings_of};
ghost use Rattle.rc_settings.specs.Thompson.{settings_of};
ghost use Rattle.rc_build.specs.Fits.{sought_by};
ghost use Rattle.api_hybrid.specs.Halves.{IsLazyFor};

use crate::builder::Builder;
use crate::cache::Cache;
use rc_dfa_search::search::Aim;
use rc_lazy_dfa::lazy::Lazy;
use rc_pattern::hir::Hir;
use rc_settings::error::BuildError;
use rc_settings::pikevm::Config;
use rc_settings::thompson;
use std::alloc::{AllocError, Global};
use std::fmt;

/// A list of patterns, built for searches by a lazy DFA: forwards to the end of a match, and
/// backwards to its start. The states are in a `Cache`.
pub struct Regex {
    pub(crate) hirs: Vec<Hir>,
    pub(crate) config: Config,
    pub(crate) thompson: thompson::Config,
    pub(crate) lazy: Lazy,
    pub(crate) passes_over: bool,
    ghost passing: { passes_over
        ≡ is_passing (sought_by (settings_of thompson) (map meaning hirs.items)) },
    ghost made: { ∥ IsLazyFor (sought_by (settings_of thompson) (map meaning hirs.items))
        (match_kind_of (search_settings_of config)) lazy ∥₁ },
}

// Crates above call this, and drop no part by themselves.
impl Drop for Regex {
    fn drop(self) {
        let Regex {
            hirs: _,
            config: _,
            thompson: _,
            lazy: _,
            passes_over: _,
        } = self;
    }
}

impl Regex {
    ghost use Rattle.std.specs.Prelude.{◌≡◌, ◌≤◌, ◌∷◌, [], IfErr, IfOk, length, None};
    ghost use Rattle.rc_text.specs.Limits.{most_patterns};
    ghost use Rattle.rc_build.specs.Refusals.{IsBuildable, limit_by};
    ghost use Rattle.rc_build.specs.TextRefusals.{AllRead, texts_of};
    ghost use Rattle.rc_parser.specs.Settings.{default_settings};
    ghost use Rattle.rc_settings.specs.SearchSettings.{none_set};
    ghost use Rattle.rc_settings.specs.Thompson.{unset};
    ghost use Rattle.api_dfa.specs.Aims.{aim_for};
    ghost use Rattle.api_hybrid.specs.Caches.{IsCacheFor, IsFresh};
    ghost use Rattle.api_hybrid.specs.Refusals.{IsHybridTextRefusal, IsWithinCapacity, no_capacity_set};
    ghost use Rattle.api_hybrid.specs.Views.{builder_settings, builder_program, builder_syntax, least_of, regex_kind, regex_patterns, regex_program, regex_settings, sought};

    /// Builds a `Regex` from the text of one pattern, with the default settings: the states of each
    /// direction may take 2,097,152 bytes. The errors are those of `new_many`.
    pub fn new(alloc: Global, pattern: &str) -> Result<Regex, BuildError>
        ensures read { IfOk result (λ re. AllRead default_settings (pattern.now ∷ [])
            (regex_patterns re)) }
        ensures settings { IfOk result (λ re. regex_settings re ≡ none_set) }
        ensures program { IfOk result (λ re. regex_program re ≡ unset) }
        ensures buildable { IfOk result (λ re. IsBuildable (limit_by None default_settings)
            (regex_patterns re)) }
        ensures within { IfOk result (IsWithinCapacity no_capacity_set) }
        ensures refused { IfErr result (λ e. IsHybridTextRefusal unset no_capacity_set
            default_settings (pattern.now ∷ []) e) }
    {
        Regex::builder().build(alloc, pattern)
    }

    /// Builds a `Regex` from the texts of several patterns, at most 2,147,483,647, with the default
    /// settings: the states of each direction may take 2,097,152 bytes.
    ///
    /// The error is the first of these that applies: `Syntax`, with the first text that doesn't
    /// parse and a byte of it; `IllFormed`, with the first pattern that isn't well-formed;
    /// `PlaceLimit`, if the weight of the patterns is above 2,147,483,646; `CacheTooSmall`, if the
    /// minimum capacity is more than 2,097,152. `Memory` means out of memory, or that the minimum
    /// overflows.
    pub fn new_many(alloc: Global, patterns: &[&str]) -> Result<Regex, BuildError>
        requires { length patterns.now ≤ most_patterns }
        ensures read { IfOk result (λ re. AllRead default_settings (texts_of patterns.now)
            (regex_patterns re)) }
        ensures settings { IfOk result (λ re. regex_settings re ≡ none_set) }
        ensures program { IfOk result (λ re. regex_program re ≡ unset) }
        ensures buildable { IfOk result (λ re. IsBuildable (limit_by None default_settings)
            (regex_patterns re)) }
        ensures within { IfOk result (IsWithinCapacity no_capacity_set) }
        ensures refused { IfErr result (λ e. IsHybridTextRefusal unset no_capacity_set
            default_settings (texts_of patterns.now) e) }
    {
        Regex::builder().build_many(alloc, patterns)
    }

    /// Returns a builder with no setting set. It parses text by the default syntax settings.
    pub fn builder() -> Builder
        ensures settings { builder_settings result ≡ no_capacity_set }
        ensures program { builder_program result ≡ unset }
        ensures syntax { builder_syntax result ≡ default_settings }
    {
        Builder::new()
    }

    /// The number of patterns that it was built of.
    pub fn pattern_len(&self) -> usize
        ensures { result ≡ length (regex_patterns self.now) }
    {
        self.hirs.len()
    }

    /// The minimum capacity, in bytes for each direction: the size of five states with the longest
    /// list that a state may have. Such a list has as many entries as the program has states. In a
    /// search for the longest match it has twice as many, because marks separate the states of
    /// different starts.
    pub fn minimum_cache_capacity(&self) -> usize
        ensures { result ≡ least_of self.now }
    {
        self.lazy.minimum_capacity()
    }

    /// Returns a cache for searches by this regex, with no states yet. An `Err` means out of
    /// memory.
    pub fn create_cache(&self, alloc: Global) -> Result<Cache, AllocError>
        ensures made { IfOk result (IsCacheFor self.now) }
        ensures fresh { IfOk result IsFresh }
    {
        Cache::new(alloc, self)
    }

    /// The kind of match that its searches find, with the earliest flag on or off.
    pub(crate) fn aim(&self, earliest: bool) -> Aim
        ensures { result ≡ aim_for (sought self.now) (regex_kind self.now) earliest }
    {
        Aim {
            kind: self.config.get_match_kind(),
            patterns: self.pattern_len(),
            passes_over: self.passes_over,
            earliest,
        }
    }
}

impl fmt::Debug for Regex {
    fn fmt<W: fmt::Write>(&self, f: &mut fmt::Formatter<W>) -> fmt::Result {
        f.debug_struct("Regex")
            .field("pattern_len", &self.pattern_len())
            .field("config", &self.config)
            .field("thompson", &self.thompson)
            .finish_non_exhaustive()
    }
}
