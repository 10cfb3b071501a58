//! DFA builder: settings, and patterns built under them.

ghost use Rattle.std.specs.Prelude.{◌≡◌, ◌≤◌, ◌∷◌, [], IfOk, IfErr, length, map};
ghost use Rattle.rc_text.specs.Limits.{most_patterns};
ghost use Rattle.rc_pattern.specs.Meaning.{meaning};
ghost use Rattle.rc_build.specs.Refusals.{IsBuildable, limit_by};
ghost use Rattle.rc_build.specs.TextRefusals.{AllRead, texts_of};
ghost use Rattle.rc_parser.specs.Settings.{default_settings, settings_of as syntax_of};
ghost use Rattle.rc_settings.specs.StateSettings.{state_settings_of, state_settings_over};
ghost use Rattle.rc_settings.specs.Thompson.{settings_of, unset, overwritten, nfa_size_limit_of};
ghost use Rattle.api_dfa.specs.Refusals.{IsDfaRefusal, IsDfaTextRefusal, IsWithinLimit, no_limit_set};
ghost use Rattle.api_dfa.specs.Views.{builder_settings, builder_program, builder_syntax, dfa_of, dfa_patterns, dfa_program, dfa_settings};

use crate::dfa::{DFA, tables_of};
use crate::regex::Regex;
use rc_build::build::build_all;
use rc_build::texts::parse_all;
use rc_pattern::hir::Hir;
use rc_settings::error::BuildError;
use rc_settings::{states, thompson};
use std::alloc::Global;

/// The settings of a DFA, with a limit on the bytes that the states of each direction may take.
pub type Config = states::Config<Option<usize>>;

/// A builder of DFA regexes. It has the settings of the DFA, of the program, and of the pattern
/// syntax.
#[derive(Debug)]
pub struct Builder {
    config: Config,
    thompson: thompson::Config,
    syntax: rc_parser::Config,
}

// Crates above call this, and drop no part by themselves.
impl Drop for Builder {
    fn drop(self) {
        let Builder {
            config: _,
            thompson: _,
            syntax: _,
        } = self;
    }
}

impl Builder {
    /// Returns a builder with no setting set. It parses text by the default syntax settings.
    pub fn new() -> Builder
        ensures settings { builder_settings result ≡ no_limit_set }
        ensures program { builder_program result ≡ unset }
        ensures syntax { builder_syntax result ≡ default_settings }
    {
        Builder {
            config: Config::new(),
            thompson: thompson::Config::new(),
            syntax: rc_parser::Config::new(),
        }
    }

    /// Takes each setting that `config` sets for the DFA and its searches, keeps the others, and
    /// returns the builder.
    pub fn dense(&mut self, config: Config) -> &mut Builder
        ensures same_reference { result.ghost_name ≡ self.entry.ghost_name }
        ensures value { builder_settings result.now
            ≡ state_settings_over (builder_settings self.entry.now) (state_settings_of config) }
        ensures program_kept { builder_program result.now ≡ builder_program self.entry.now }
        ensures syntax_kept { builder_syntax result.now ≡ builder_syntax self.entry.now }
    {
        states::overwrite(&mut self.config, config);
        self
    }

    /// Takes each setting that `config` sets for the program, keeps the others, and returns the
    /// builder.
    pub fn thompson(&mut self, config: thompson::Config) -> &mut Builder
        ensures same_reference { result.ghost_name ≡ self.entry.ghost_name }
        ensures value { builder_program result.now
            ≡ overwritten (builder_program self.entry.now) (settings_of config) }
        ensures settings_kept { builder_settings result.now ≡ builder_settings self.entry.now }
        ensures syntax_kept { builder_syntax result.now ≡ builder_syntax self.entry.now }
    {
        thompson::overwrite(&mut self.thompson, &config);
        self
    }

    /// Sets the syntax settings by which text is parsed from now on, and returns the builder.
    pub fn syntax(&mut self, config: rc_parser::Config) -> &mut Builder
        ensures same_reference { result.ghost_name ≡ self.entry.ghost_name }
        ensures value { builder_syntax result.now ≡ syntax_of config }
        ensures settings_kept { builder_settings result.now ≡ builder_settings self.entry.now }
        ensures program_kept { builder_program result.now ≡ builder_program self.entry.now }
    {
        self.syntax = config;
        self
    }

    /// Builds a `Regex` from the text of one pattern. The errors are those of `build_many`.
    pub fn build(&self, alloc: Global, pattern: &str) -> Result<Regex, BuildError>
        ensures read { IfOk result (λ re. AllRead (builder_syntax self.now) (pattern.now ∷ [])
            (dfa_patterns (dfa_of re))) }
        ensures settings { IfOk result (λ re. dfa_settings (dfa_of re)
            ≡ (builder_settings self.now).search) }
        ensures program { IfOk result (λ re. dfa_program (dfa_of re) ≡ builder_program self.now) }
        ensures buildable { IfOk result (λ re. IsBuildable
            (limit_by (nfa_size_limit_of (builder_program self.now)) (builder_syntax self.now))
            (dfa_patterns (dfa_of re))) }
        ensures within { IfOk result (IsWithinLimit (builder_settings self.now)) }
        ensures refused { IfErr result (λ e. IsDfaTextRefusal (builder_program self.now)
            (builder_settings self.now) (builder_syntax self.now) (pattern.now ∷ []) e) }
    {
        self.build_many(alloc, std::slice::from_ref(&pattern))
    }

    /// Builds a `Regex` from the texts of several patterns, at most 2,147,483,647.
    ///
    /// The error is the first of these that applies: `Syntax`, with the first text that doesn't
    /// parse and a byte of it; then those of `build_many_from_hir`. All texts are parsed before any
    /// pattern is built. The builder is unchanged.
    pub fn build_many(&self, alloc: Global, patterns: &[&str]) -> Result<Regex, BuildError>
        requires { length patterns.now ≤ most_patterns }
        ensures read { IfOk result (λ re. AllRead (builder_syntax self.now) (texts_of patterns.now)
            (dfa_patterns (dfa_of re))) }
        ensures settings { IfOk result (λ re. dfa_settings (dfa_of re)
            ≡ (builder_settings self.now).search) }
        ensures program { IfOk result (λ re. dfa_program (dfa_of re) ≡ builder_program self.now) }
        ensures buildable { IfOk result (λ re. IsBuildable
            (limit_by (nfa_size_limit_of (builder_program self.now)) (builder_syntax self.now))
            (dfa_patterns (dfa_of re))) }
        ensures within { IfOk result (IsWithinLimit (builder_settings self.now)) }
        ensures refused { IfErr result (λ e. IsDfaTextRefusal (builder_program self.now)
            (builder_settings self.now) (builder_syntax self.now) (texts_of patterns.now) e) }
    {
        let hirs = parse_all(alloc, patterns, &self.syntax)?;
        self.build_many_from_hir(alloc, &hirs)
    }

    /// Builds a `Regex` from these patterns, at most 2,147,483,647.
    ///
    /// The error is the first of these that applies: `IllFormed`, with the first pattern that isn't
    /// well-formed; `SizeLimit`, if 32 times the weight of the patterns by the grammar that is set
    /// is above the size limit; `PlaceLimit`, if the weight by the stated grammar is above
    /// 2,147,483,646; `DfaSizeLimit`, if the reachable states of one direction take more than their
    /// limit. `Memory` means out of memory, or that no memory could hold the tables. The builder
    /// is unchanged.
    pub fn build_many_from_hir(&self, alloc: Global, hirs: &[Hir]) -> Result<Regex, BuildError>
        requires { length hirs.now ≤ most_patterns }
        ensures patterns { IfOk result (λ re. dfa_patterns (dfa_of re) ≡ map meaning hirs.now) }
        ensures settings { IfOk result (λ re. dfa_settings (dfa_of re)
            ≡ (builder_settings self.now).search) }
        ensures program { IfOk result (λ re. dfa_program (dfa_of re) ≡ builder_program self.now) }
        ensures buildable { IfOk result (λ _. IsBuildable
            (limit_by (nfa_size_limit_of (builder_program self.now)) (builder_syntax self.now))
            (map meaning hirs.now)) }
        ensures within { IfOk result (IsWithinLimit (builder_settings self.now)) }
        ensures refused { IfErr result (λ e. IsDfaRefusal (builder_program self.now)
            (builder_settings self.now) (builder_syntax self.now) (map meaning hirs.now) e) }
    {
        let search = states::search_settings(&self.config);
        let config = search.try_clone(alloc)?;
        let built = build_all(
            alloc,
            hirs,
            self.syntax.get_grammar(),
            self.thompson,
            search.get_match_kind(),
            search.get_prefilter(),
            false,
        )?;
        let made = tables_of(
            alloc,
            &built.hirs,
            self.thompson,
            &built.engine.program.places,
            built.engine.kind,
            self.config.get_byte_classes(),
            states::limit_of(&self.config).unwrap_or(None),
        );
        let passes_over = built.engine.program.passes_over;
        let hirs = built.into_hirs();
        let tables = made?;
        let dfa = DFA {
            hirs,
            config,
            thompson: self.thompson,
            tables,
            passes_over,
        };
        Ok(Regex { dfa })
    }
}
