//! Pike VM: the program of a list of patterns, and the groups that it keeps.

ghost use Rattle.std.specs.Prelude.{◌≡◌, None, map};
ghost use Rattle.rc_pattern.specs.Meaning.{meaning};
ghost use Rattle.rc_pikevm_search.specs.Choices.{answering};
ghost use Rattle.rc_settings.specs.SearchSettings.{match_kind_of, search_settings_of};
ghost use Rattle.rc_settings.specs.Thompson.{settings_of};
ghost use Rattle.rc_build.specs.Fits.{Fits};

use crate::builder::Builder;
use crate::cache::Cache;
use rc_build::build::Built;
use rc_captures::captures::Captures;
use rc_captures::groups::GroupInfo;
use rc_pikevm::cache;
use rc_settings::error::BuildError;
use rc_settings::pikevm::Config;
use rc_settings::thompson;
use std::alloc::{AllocError, Global};
use std::fmt;

/// A list of patterns, built for searches by a Pike VM. Literals alone never decide its results, so
/// each search makes a pass.
pub struct PikeVM {
    pub(crate) config: Config,
    pub(crate) thompson: thompson::Config,
    pub(crate) built: Built,
    ghost fits: { Fits (settings_of thompson) (match_kind_of (search_settings_of config))
        (map meaning built.hirs.items) built.engine built.info },
    ghost unanswered: { answering built.engine.literals ≡ None },
}

// Crates above call this, and drop no part by themselves.
impl Drop for PikeVM {
    fn drop(self) {
        let PikeVM {
            config: _,
            thompson: _,
            built: _,
        } = self;
    }
}

impl PikeVM {
    ghost use Rattle.std.specs.Prelude.{◌≡◌, ◌≤◌, ◌∷◌, [], IfErr, IfOk, length, None};
    ghost use Rattle.rc_text.specs.Limits.{most_patterns};
    ghost use Rattle.rc_pattern.specs.Weight.{list_weight};
    ghost use Rattle.rc_captures.specs.Captures.{IsCapturesFor, captures_pattern};
    ghost use Rattle.rc_captures.specs.Groups.{names_of};
    ghost use Rattle.rc_pikevm_search.specs.Tells.{KeepsAll};
    ghost use Rattle.rc_pikevm.specs.Caches as pikevm;
    ghost use Rattle.rc_build.specs.Refusals.{IsBuildable, limit_by};
    ghost use Rattle.rc_build.specs.TextRefusals.{AllRead, IsTextRefusal, texts_of};
    ghost use Rattle.rc_parser.specs.Settings.{default_settings};
    ghost use Rattle.api_pikevm.specs.Caches.{IsCacheFor, columns_of, insertions_of, program_of};
    ghost use Rattle.rc_settings.specs.SearchSettings.{none_set};
    ghost use Rattle.rc_settings.specs.Thompson.{unset};
    ghost use Rattle.api_pikevm.specs.Views.{builder_settings, builder_program, builder_syntax, sought, states_of, vm_names, vm_patterns, vm_program, vm_settings};

    /// Builds a `PikeVM` from the text of one pattern, with the default settings. The errors are
    /// those of `new_many`.
    pub fn new(alloc: Global, pattern: &str) -> Result<PikeVM, BuildError>
        ensures read { IfOk result (λ vm. AllRead default_settings (pattern.now ∷ [])
            (vm_patterns vm)) }
        ensures settings { IfOk result (λ vm. vm_settings vm ≡ none_set) }
        ensures program { IfOk result (λ vm. vm_program vm ≡ unset) }
        ensures buildable { IfOk result (λ vm. IsBuildable (limit_by None default_settings)
            (vm_patterns vm)) }
        ensures refused { IfErr result (λ e. IsTextRefusal None default_settings
            (pattern.now ∷ []) e) }
    {
        PikeVM::builder().build(alloc, pattern)
    }

    /// Builds a `PikeVM` from the texts of several patterns, at most 2,147,483,647, with the
    /// default settings.
    ///
    /// The error is the first of these that applies: `Syntax`, with the first text that doesn't
    /// parse and a byte of it; `IllFormed`, with the first pattern that isn't well-formed;
    /// `PlaceLimit`, if the weight of the patterns is above 2,147,483,646. `Memory` means out of
    /// memory.
    pub fn new_many(alloc: Global, patterns: &[&str]) -> Result<PikeVM, BuildError>
        requires { length patterns.now ≤ most_patterns }
        ensures read { IfOk result (λ vm. AllRead default_settings (texts_of patterns.now)
            (vm_patterns vm)) }
        ensures settings { IfOk result (λ vm. vm_settings vm ≡ none_set) }
        ensures program { IfOk result (λ vm. vm_program vm ≡ unset) }
        ensures buildable { IfOk result (λ vm. IsBuildable (limit_by None default_settings)
            (vm_patterns vm)) }
        ensures refused { IfErr result (λ e. IsTextRefusal None default_settings
            (texts_of patterns.now) e) }
    {
        PikeVM::builder().build_many(alloc, patterns)
    }

    /// Returns a builder with no setting set. It parses text by the default syntax settings.
    pub fn builder() -> Builder
        ensures settings { builder_settings result ≡ none_set }
        ensures program { builder_program result ≡ unset }
        ensures syntax { builder_syntax result ≡ default_settings }
    {
        Builder::new()
    }

    /// The number of states of the program: at most the weight of the patterns.
    pub fn states_len(&self) -> usize
        ensures value { result ≡ states_of (sought self.now) }
        ensures small { result ≤ list_weight (vm_patterns self.now) }
    {
        self.built.engine.program.places.len()
    }

    /// The groups that are kept.
    pub fn get_group_info(&self) -> &GroupInfo
        ensures { names_of result.now ≡ vm_names self.now }
    {
        &self.built.info
    }

    /// Returns captures that keep the groups of the patterns, and hold no match yet. An `Err` means
    /// out of memory.
    pub fn create_captures(&self, alloc: Global) -> Result<Captures, AllocError>
        ensures made { IfOk result (IsCapturesFor (vm_names self.now)) }
        ensures whole { IfOk result (KeepsAll (vm_names self.now)) }
        ensures pattern { IfOk result (λ c. captures_pattern c ≡ None) }
    {
        Captures::all(alloc, &self.built.info)
    }

    /// Returns a cache for searches. An `Err` means out of memory.
    pub fn create_cache(&self, alloc: Global) -> Result<Cache, AllocError>
        ensures made { IfOk result (IsCacheFor (sought self.now)) }
        ensures unused { IfOk result (λ c. insertions_of c ≡ 0) }
    {
        Cache::new(alloc, self)
    }

    /// A cache for searches over the program, with all slots.
    pub(crate) fn inner_cache(&self, alloc: Global) -> Result<cache::Cache, AllocError>
        ensures made { IfOk result (pikevm.IsCacheFor (program_of (sought self.now))
            (columns_of (sought self.now))) }
        ensures unused { IfOk result (λ c. c.insertions ≡ 0) }
    {
        let slots = self.built.info.slot_len();
        cache::Cache::new(alloc, &self.built.engine.program, slots)
    }
}

impl fmt::Debug for PikeVM {
    fn fmt<W: fmt::Write>(&self, f: &mut fmt::Formatter<W>) -> fmt::Result {
        f.debug_struct("PikeVM")
            .field("pattern_len", &self.built.hirs.len())
            .field("config", &self.config)
            .field("thompson", &self.thompson)
            .finish_non_exhaustive()
    }
}
