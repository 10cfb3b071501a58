//! DFA regex: a regex that searches by a fully built DFA alone.

use crate::builder::Builder;
use crate::dfa::DFA;
use rc_settings::error::BuildError;
use std::alloc::Global;

/// A list of patterns, built for searches by a DFA: forwards to the end of a match, and backwards
/// to its start.
#[derive(Debug, Drop)]
pub struct Regex {
    pub(crate) dfa: DFA,
}

impl Regex {
    ghost use Rattle.std.specs.Prelude.{◌≡◌, ◌≤◌, ◌∷◌, [], IfErr, IfOk, length, None};
    ghost use Rattle.rc_text.specs.Limits.{most_patterns};
    ghost use Rattle.rc_build.specs.Refusals.{IsBuildable, limit_by};
    ghost use Rattle.rc_build.specs.TextRefusals.{AllRead, texts_of};
    ghost use Rattle.rc_parser.specs.Settings.{default_settings};
    ghost use Rattle.rc_settings.specs.SearchSettings.{none_set};
    ghost use Rattle.rc_settings.specs.StateSettings.{no_state_setting};
    ghost use Rattle.rc_settings.specs.Thompson.{unset};
    ghost use Rattle.api_dfa.specs.Refusals.{IsDfaTextRefusal, no_limit_set};
    ghost use Rattle.api_dfa.specs.Views.{builder_settings, builder_program, builder_syntax, dfa_of, dfa_patterns, dfa_program, dfa_settings};

    /// Builds a `Regex` from the text of one pattern, with the default settings: no limit is on the
    /// tables. The errors are those of `new_many`.
    pub fn new(alloc: Global, pattern: &str) -> Result<Regex, BuildError>
        ensures read { IfOk result (λ re. AllRead default_settings (pattern.now ∷ [])
            (dfa_patterns (dfa_of re))) }
        ensures settings { IfOk result (λ re. dfa_settings (dfa_of re) ≡ none_set) }
        ensures program { IfOk result (λ re. dfa_program (dfa_of re) ≡ unset) }
        ensures buildable { IfOk result (λ re. IsBuildable (limit_by None default_settings)
            (dfa_patterns (dfa_of re))) }
        ensures refused { IfErr result (λ e. IsDfaTextRefusal unset no_limit_set default_settings
            (pattern.now ∷ []) e) }
    {
        Regex::builder().build(alloc, pattern)
    }

    /// Builds a `Regex` from the texts of several patterns, at most 2,147,483,647, with the default
    /// settings: no limit is on the tables.
    ///
    /// The error is the first of these that applies: `Syntax`, with the first text that doesn't
    /// parse and a byte of it; `IllFormed`, with the first pattern that isn't well-formed;
    /// `PlaceLimit`, if the weight of the patterns is above 2,147,483,646. `Memory` means out of
    /// memory, or that no memory could hold the tables.
    pub fn new_many(alloc: Global, patterns: &[&str]) -> Result<Regex, BuildError>
        requires { length patterns.now ≤ most_patterns }
        ensures read { IfOk result (λ re. AllRead default_settings (texts_of patterns.now)
            (dfa_patterns (dfa_of re))) }
        ensures settings { IfOk result (λ re. dfa_settings (dfa_of re) ≡ none_set) }
        ensures program { IfOk result (λ re. dfa_program (dfa_of re) ≡ unset) }
        ensures buildable { IfOk result (λ re. IsBuildable (limit_by None default_settings)
            (dfa_patterns (dfa_of re))) }
        ensures refused { IfErr result (λ e. IsDfaTextRefusal unset no_limit_set default_settings
            (texts_of patterns.now) e) }
    {
        Regex::builder().build_many(alloc, patterns)
    }

    /// Returns a builder with no setting set. It parses text by the default syntax settings.
    pub fn builder() -> Builder
        ensures settings { builder_settings result ≡ no_limit_set }
        ensures program { builder_program result ≡ unset }
        ensures syntax { builder_syntax result ≡ default_settings }
    {
        Builder::new()
    }

    /// The number of patterns that it was built of.
    pub fn pattern_len(&self) -> usize
        ensures { result ≡ length (dfa_patterns (dfa_of self.now)) }
    {
        self.dfa.pattern_len()
    }

    /// The DFA that finds where matches end.
    pub fn forward(&self) -> &DFA
        ensures { result.now ≡ dfa_of self.now }
    {
        &self.dfa
    }

    /// The DFA that finds where matches begin: the same value that `forward` returns.
    pub fn reverse(&self) -> &DFA
        ensures { result.now ≡ dfa_of self.now }
    {
        &self.dfa
    }
}
