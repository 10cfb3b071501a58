//! Pike VM builder: settings, and patterns built under them.

ghost use Rattle.std.specs.Prelude.{◌≡◌, ◌≤◌, ◌∷◌, [], IfOk, IfErr, false, length, map};
ghost use Rattle.rc_text.specs.Limits.{most_patterns};
ghost use Rattle.rc_pattern.specs.Meaning.{meaning};
ghost use Rattle.rc_build.specs.Refusals.{IsBuildable, IsRefusal, limit_by};
ghost use Rattle.rc_build.specs.TextRefusals.{AllRead, IsTextRefusal, texts_of};
ghost use Rattle.rc_pikevm_search.specs.Choices.{IsGuard};
ghost use Rattle.rc_parser.specs.Settings.{default_settings, settings_of as syntax_of};
ghost use Rattle.rc_settings.specs.SearchSettings.{search_settings_of, none_set, prefilter_of, set_over};
ghost use Rattle.rc_settings.specs.Thompson.{settings_of, unset, overwritten, nfa_size_limit_of};
ghost use Rattle.api_pikevm.specs.Views.{builder_settings, builder_program, builder_syntax, vm_needles, vm_patterns, vm_program, vm_settings};

use crate::vm::PikeVM;
use rc_build::build::build_all;
use rc_build::texts::parse_all;
use rc_pattern::hir::Hir;
use rc_settings::error::BuildError;
use rc_settings::pikevm::Config;
use rc_settings::{pikevm, thompson};
use std::alloc::Global;

/// A builder of Pike VMs. It has the settings of searches, of the program, and of the pattern
/// syntax.
#[derive(Debug)]
pub struct Builder {
    config: Config,
    thompson: thompson::Config,
    syntax: rc_parser::Config,
}

// Crates above call this, and drop no part by themselves.
impl Drop for Builder {
    fn drop(self) {
        let Builder {
            config: _,
            thompson: _,
            syntax: _,
        } = self;
    }
}

impl Builder {
    /// Returns a builder with no setting set. It parses text by the default syntax settings.
    pub fn new() -> Builder
        ensures settings { builder_settings result ≡ none_set }
        ensures program { builder_program result ≡ unset }
        ensures syntax { builder_syntax result ≡ default_settings }
    {
        Builder {
            config: Config::new(),
            thompson: thompson::Config::new(),
            syntax: rc_parser::Config::new(),
        }
    }

    /// Takes each setting that `config` sets, keeps the others, and returns the builder.
    pub fn configure(&mut self, config: Config) -> &mut Builder
        ensures same_reference { result.ghost_name ≡ self.entry.ghost_name }
        ensures value { builder_settings result.now
            ≡ set_over (builder_settings self.entry.now) (search_settings_of config) }
        ensures program_kept { builder_program result.now ≡ builder_program self.entry.now }
        ensures syntax_kept { builder_syntax result.now ≡ builder_syntax self.entry.now }
    {
        pikevm::overwrite(&mut self.config, config);
        self
    }

    /// Takes each setting that `config` sets for the program, keeps the others, and returns the
    /// builder.
    pub fn thompson(&mut self, config: thompson::Config) -> &mut Builder
        ensures same_reference { result.ghost_name ≡ self.entry.ghost_name }
        ensures value { builder_program result.now
            ≡ overwritten (builder_program self.entry.now) (settings_of config) }
        ensures settings_kept { builder_settings result.now ≡ builder_settings self.entry.now }
        ensures syntax_kept { builder_syntax result.now ≡ builder_syntax self.entry.now }
    {
        thompson::overwrite(&mut self.thompson, &config);
        self
    }

    /// Sets the syntax settings by which text is parsed from now on, and returns the builder.
    pub fn syntax(&mut self, config: rc_parser::Config) -> &mut Builder
        ensures same_reference { result.ghost_name ≡ self.entry.ghost_name }
        ensures value { builder_syntax result.now ≡ syntax_of config }
        ensures settings_kept { builder_settings result.now ≡ builder_settings self.entry.now }
        ensures program_kept { builder_program result.now ≡ builder_program self.entry.now }
    {
        self.syntax = config;
        self
    }

    /// Builds a `PikeVM` from the text of one pattern. The errors are those of `build_many`.
    pub fn build(&self, alloc: Global, pattern: &str) -> Result<PikeVM, BuildError>
        ensures read { IfOk result (λ vm. AllRead (builder_syntax self.now) (pattern.now ∷ [])
            (vm_patterns vm)) }
        ensures settings { IfOk result (λ vm. vm_settings vm ≡ builder_settings self.now) }
        ensures program { IfOk result (λ vm. vm_program vm ≡ builder_program self.now) }
        ensures needles { IfOk result (λ vm. IsGuard (vm_patterns vm)
            (prefilter_of (builder_settings self.now)) false (vm_needles vm)) }
        ensures buildable { IfOk result (λ vm. IsBuildable
            (limit_by (nfa_size_limit_of (builder_program self.now)) (builder_syntax self.now))
            (vm_patterns vm)) }
        ensures refused { IfErr result (λ e. IsTextRefusal
            (nfa_size_limit_of (builder_program self.now)) (builder_syntax self.now)
            (pattern.now ∷ []) e) }
    {
        self.build_many(alloc, std::slice::from_ref(&pattern))
    }

    /// Builds a `PikeVM` from the texts of several patterns, at most 2,147,483,647.
    ///
    /// The error is the first of these that applies: `Syntax`, with the first text that doesn't
    /// parse and a byte of it; then those of `build_many_from_hir`. All texts are parsed before any
    /// pattern is built. The builder is unchanged.
    pub fn build_many(&self, alloc: Global, patterns: &[&str]) -> Result<PikeVM, BuildError>
        requires { length patterns.now ≤ most_patterns }
        ensures read { IfOk result (λ vm. AllRead (builder_syntax self.now) (texts_of patterns.now)
            (vm_patterns vm)) }
        ensures settings { IfOk result (λ vm. vm_settings vm ≡ builder_settings self.now) }
        ensures program { IfOk result (λ vm. vm_program vm ≡ builder_program self.now) }
        ensures needles { IfOk result (λ vm. IsGuard (vm_patterns vm)
            (prefilter_of (builder_settings self.now)) false (vm_needles vm)) }
        ensures buildable { IfOk result (λ vm. IsBuildable
            (limit_by (nfa_size_limit_of (builder_program self.now)) (builder_syntax self.now))
            (vm_patterns vm)) }
        ensures refused { IfErr result (λ e. IsTextRefusal
            (nfa_size_limit_of (builder_program self.now)) (builder_syntax self.now)
            (texts_of patterns.now) e) }
    {
        let hirs = parse_all(alloc, patterns, &self.syntax)?;
        self.build_many_from_hir(alloc, &hirs)
    }

    /// Builds a `PikeVM` from these patterns, at most 2,147,483,647.
    ///
    /// Its searches look for the needles of the prefilter that is set, if prefixes of the patterns
    /// are known and each begins with one of them, and for no others.
    ///
    /// The error is the first of these that applies: `IllFormed`, with the first pattern that isn't
    /// well-formed; `SizeLimit`, if 32 times the weight of the patterns by the grammar that is set
    /// is above the size limit; `PlaceLimit`, if the weight by the stated grammar is above
    /// 2,147,483,646. `Memory` means out of memory. The builder is unchanged.
    pub fn build_many_from_hir(&self, alloc: Global, hirs: &[Hir]) -> Result<PikeVM, BuildError>
        requires { length hirs.now ≤ most_patterns }
        ensures patterns { IfOk result (λ vm. vm_patterns vm ≡ map meaning hirs.now) }
        ensures settings { IfOk result (λ vm. vm_settings vm ≡ builder_settings self.now) }
        ensures program { IfOk result (λ vm. vm_program vm ≡ builder_program self.now) }
        ensures needles { IfOk result (λ vm. IsGuard (vm_patterns vm)
            (prefilter_of (builder_settings self.now)) false (vm_needles vm)) }
        ensures buildable { IfOk result (λ _. IsBuildable
            (limit_by (nfa_size_limit_of (builder_program self.now)) (builder_syntax self.now))
            (map meaning hirs.now)) }
        ensures refused { IfErr result (λ e. IsRefusal
            (limit_by (nfa_size_limit_of (builder_program self.now)) (builder_syntax self.now))
            (map meaning hirs.now) e) }
    {
        let built = build_all(
            alloc,
            hirs,
            self.syntax.get_grammar(),
            self.thompson,
            self.config.get_match_kind(),
            self.config.get_prefilter(),
            false,
        )?;
        let config = self.config.try_clone(alloc)?;
        Ok(PikeVM {
            config,
            thompson: self.thompson,
            built,
        })
    }
}
