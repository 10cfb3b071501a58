//! Regex builder: settings, and regexes built under them.

ghost use Rattle.std.specs.Prelude.{◌≡◌, ◌⊎◌, ◌≤◌, ◌/◌, ◌∷◌, [], All, None, false, option_map, IfOk, IfErr, IfSome, List, length, map};
ghost use Rattle.rc_pattern.specs.Limits.{greatest_weight};
ghost use Rattle.rc_text.specs.Limits.{most_patterns};
ghost use Rattle.rc_pattern.specs.Re.{Re};
ghost use Rattle.rc_pattern.specs.Meaning.{meaning};
ghost use Rattle.rc_pattern.specs.WellFormed.{HasBounds};
ghost use Rattle.rc_program.specs.Laws.{heaviness};
ghost use Rattle.rc_program.specs.Places.{places_of};
ghost use Rattle.rc_program.specs.Text.{Text};
ghost use Rattle.rc_needles.specs.Prefilters.{needles_of};
ghost use Rattle.rc_literals.specs.Needs.{Holds, LeavesOut};
ghost use Rattle.rc_words.specs.Words.{AreBetween, between_in};
ghost use Rattle.rc_program.specs.Program.{program, shown};
ghost use Rattle.rc_build.specs.Refusals.{IsBuildable, IsRefusal, limit_by, limit_of};
ghost use Rattle.rc_settings.specs.Thompson.{which_captures_of};
ghost use Rattle.rc_settings.specs.Which.{is_grouped};
ghost use Rattle.rc_settings.specs.Settings.{settings_of, unset, overwritten, auto_prefilter_of, nfa_size_limit_of, program_settings, line_terminator_of, match_kind_of, dfa_of, hybrid_of, hybrid_cache_capacity_of, byte_classes_of, unicode_words_of, dfa_size_limit_of, dfa_state_limit_of};
ghost use Rattle.rc_reach.specs.Laws.{greatest_len};
ghost use Rattle.rc_dfa.specs.Machine.{symbols};
ghost use Rattle.rc_strategy.specs.Plans.{IsLazyFor, IsLazyOver};
ghost use Rattle.api_meta.specs.Plans.{plan_by};
ghost use Rattle.api_meta.specs.Switched.{HasNoneSwitchedOff};
ghost use Rattle.rc_build.specs.TextRefusals.{AllRead, IsTextRefusal, texts_of};
ghost use Rattle.api_meta.specs.Views.{builder_settings, builder_syntax, regex_patterns, regex_settings};
ghost use Rattle.rc_parser.specs.Settings.{default_settings, settings_of as syntax_of};

use crate::reach::greatest_length;
use crate::regex::Regex;
use rc_build::build::build_all;
use rc_build::texts::parse_all;
use rc_literals::guard::Needs;
use rc_literals::needs;
use rc_literals::stops::stops_of;
use rc_parser::Grammar;
use rc_pattern::hir::Hir;
use rc_pikevm_search::engine::Engine;
use rc_settings::error::BuildError;
use rc_settings::meta;
use rc_settings::meta::{Config, program_config};
use rc_strategy::engines::{Engines, Limits};
use rc_strategy::lengths::Lengths;
use rc_words::words;
use rc_words::words::Words;
use std::alloc::{AllocError, Global};

/// A builder of regexes. It has the settings of the regex, and the settings of the pattern syntax.
#[derive(Debug)]
pub struct Builder {
    config: Config,
    syntax: rc_parser::Config,
}

// Crates above call this, and drop no part by themselves.
impl Drop for Builder {
    fn drop(self) {
        let Builder {
            config: _,
            syntax: _,
        } = self;
    }
}

impl Builder {
    /// Returns a builder with no setting set. It parses text by the default syntax settings.
    pub fn new() -> Builder
        ensures settings { builder_settings result ≡ unset }
        ensures syntax { builder_syntax result ≡ default_settings }
    {
        Builder {
            config: Config::new(),
            syntax: rc_parser::Config::new(),
        }
    }

    /// Takes each setting that `config` sets, keeps the others, and returns the builder.
    pub fn configure(&mut self, config: Config) -> &mut Builder
        ensures same_reference { result.ghost_name ≡ self.entry.ghost_name }
        ensures value { builder_settings result.now
            ≡ overwritten (builder_settings self.entry.now) (settings_of config) }
        ensures syntax_kept { builder_syntax result.now ≡ builder_syntax self.entry.now }
    {
        meta::overwrite(&mut self.config, config);
        self
    }

    /// Sets the syntax settings by which text is parsed from now on, and returns the builder.
    pub fn syntax(&mut self, config: rc_parser::Config) -> &mut Builder
        ensures same_reference { result.ghost_name ≡ self.entry.ghost_name }
        ensures value { builder_syntax result.now ≡ syntax_of config }
        ensures settings_kept { builder_settings result.now ≡ builder_settings self.entry.now }
    {
        self.syntax = config;
        self
    }

    /// Builds a regex from the text of one pattern. The errors are those of `build_many`.
    pub fn build(&self, alloc: Global, pattern: &str) -> Result<Regex, BuildError>
        ensures read { IfOk result (λ r. AllRead (builder_syntax self.now) (pattern.now ∷ [])
            (regex_patterns r)) }
        ensures settings { IfOk result (λ r. regex_settings r ≡ builder_settings self.now) }
        ensures engines { IfOk result HasNoneSwitchedOff }
        ensures buildable { IfOk result (λ r. IsBuildable
            (limit_by (nfa_size_limit_of (builder_settings self.now)) (builder_syntax self.now))
            (regex_patterns r)) }
        ensures refused { IfErr result (λ e. IsTextRefusal
            (nfa_size_limit_of (builder_settings self.now)) (builder_syntax self.now)
            (pattern.now ∷ []) e) }
    {
        self.build_many(alloc, std::slice::from_ref(&pattern))
    }

    /// Builds a regex from the texts of several patterns, at most 2,147,483,647.
    ///
    /// The error is the first of these that applies: `Syntax`, with the first text that doesn't
    /// parse and a byte of it; then those of `build_many_from_hir`. All texts are parsed before any
    /// pattern is built. The builder is unchanged.
    pub fn build_many(&self, alloc: Global, patterns: &[&str]) -> Result<Regex, BuildError>
        requires { length patterns.now ≤ most_patterns }
        ensures read { IfOk result (λ r. AllRead (builder_syntax self.now) (texts_of patterns.now)
            (regex_patterns r)) }
        ensures settings { IfOk result (λ r. regex_settings r ≡ builder_settings self.now) }
        ensures engines { IfOk result HasNoneSwitchedOff }
        ensures buildable { IfOk result (λ r. IsBuildable
            (limit_by (nfa_size_limit_of (builder_settings self.now)) (builder_syntax self.now))
            (regex_patterns r)) }
        ensures refused { IfErr result (λ e. IsTextRefusal
            (nfa_size_limit_of (builder_settings self.now)) (builder_syntax self.now)
            (texts_of patterns.now) e) }
    {
        let hirs = parse_all(alloc, patterns, &self.syntax)?;
        self.build_many_from_hir(alloc, &hirs)
    }

    /// Builds a regex from one pattern. The errors are those of `build_many_from_hir`.
    pub fn build_from_hir(&self, alloc: Global, hir: &Hir) -> Result<Regex, BuildError>
        ensures patterns { IfOk result (λ r. regex_patterns r ≡ meaning hir.now ∷ []) }
        ensures settings { IfOk result (λ r. regex_settings r ≡ builder_settings self.now) }
        ensures engines { IfOk result HasNoneSwitchedOff }
        ensures buildable { IfOk result (λ _. IsBuildable
            (limit_by (nfa_size_limit_of (builder_settings self.now)) (builder_syntax self.now))
            (meaning hir.now ∷ [])) }
        ensures refused { IfErr result (λ e. IsRefusal
            (limit_by (nfa_size_limit_of (builder_settings self.now)) (builder_syntax self.now))
            (meaning hir.now ∷ []) e) }
    {
        self.build_many_from_hir(alloc, std::slice::from_ref(hir))
    }

    /// Builds a regex from these patterns, at most 2,147,483,647.
    ///
    /// The error is the first of these that applies: `IllFormed`, with the first pattern that isn't
    /// well-formed; `SizeLimit`, if 32 times the weight of the patterns by the grammar that is set
    /// is above the size limit; `PlaceLimit`, if the weight by the stated grammar is above
    /// 2,147,483,646. `Memory` means out of memory. The builder is unchanged.
    pub fn build_many_from_hir(&self, alloc: Global, hirs: &[Hir]) -> Result<Regex, BuildError>
        requires { length hirs.now ≤ most_patterns }
        ensures patterns { IfOk result (λ r. regex_patterns r ≡ map meaning hirs.now) }
        ensures settings { IfOk result (λ r. regex_settings r ≡ builder_settings self.now) }
        ensures engines { IfOk result HasNoneSwitchedOff }
        ensures buildable { IfOk result (λ _. IsBuildable
            (limit_by (nfa_size_limit_of (builder_settings self.now)) (builder_syntax self.now))
            (map meaning hirs.now)) }
        ensures refused { IfErr result (λ e. IsRefusal
            (limit_by (nfa_size_limit_of (builder_settings self.now)) (builder_syntax self.now))
            (map meaning hirs.now) e) }
    {
        build(alloc, &self.config, self.syntax.get_grammar(), hirs)
    }
}

/// Builds a regex from these patterns under these settings. The grammar weighs them.
pub(crate) fn build(
    alloc: Global,
    config: &Config,
    grammar: Grammar,
    hirs: &[Hir],
) -> Result<Regex, BuildError>
    requires { length hirs.now ≤ most_patterns }
    ensures patterns { IfOk result (λ r. regex_patterns r ≡ map meaning hirs.now) }
    ensures settings { IfOk result (λ r. regex_settings r ≡ settings_of config.now) }
    ensures engines { IfOk result HasNoneSwitchedOff }
    ensures buildable { IfOk result (λ _. IsBuildable
        (limit_of (nfa_size_limit_of (settings_of config.now)) grammar) (map meaning hirs.now)) }
    ensures refused { IfErr result (λ e. IsRefusal
        (limit_of (nfa_size_limit_of (settings_of config.now)) grammar) (map meaning hirs.now) e) }
{
    let built = build_all(
        alloc,
        hirs,
        grammar,
        program_config(config),
        config.get_match_kind(),
        config.get_prefilter(),
        config.get_auto_prefilter(),
    )?;
    let hirs = built.hirs;
    let engines = engines_of(alloc, config, &hirs, built.engine)?;
    let longest = greatest_length(&hirs);
    let stops = stops_of(&hirs);
    let config = config.try_clone(alloc)?;
    Ok(Regex {
        config,
        hirs,
        engines,
        info: built.info,
        longest,
        stops,
    })
}

/// The engines of these patterns under these settings. `engine` searches their program.
fn engines_of(
    alloc: Global,
    config: &Config,
    hirs: &[Hir],
    engine: Engine,
) -> Result<Engines, AllocError>
    ghost shown_hirs: { List Re }
    requires shown { shown_hirs ≡ shown (is_grouped
        (which_captures_of (program_settings (settings_of config.now)))) (map meaning hirs.now) }
    requires program { places_of engine.program.places.items ≡ program shown_hirs }
    requires light { heaviness (places_of engine.program.places.items) ≤ greatest_weight }
    requires bounded { All HasBounds shown_hirs }
    requires terminator { engine.program.terminator ≡ line_terminator_of (settings_of config.now) }
    requires kind { engine.kind ≡ match_kind_of (settings_of config.now) }
    ensures engine { IfOk result (λ engines. engines.engine ≡ engine) }
    ensures bounded { IfOk result (λ engines. engines.spans.greatest
        ≡ greatest_len (map meaning hirs.now)) }
    ensures planned { IfOk result (λ engines. IfSome engines.lazy
        (IsLazyFor (plan_by (map meaning hirs.now) (settings_of config.now)))) }
    ensures symbols { IfOk result (λ engines. IfSome engines.symbols
        (IsLazyOver symbols (plan_by (map meaning hirs.now) (settings_of config.now)))) }
    ensures no_tables { IfOk result (λ engines. dfa_of (settings_of config.now) ≡ false
        → engines.tables ≡ None) }
    ensures no_lazy { IfOk result (λ engines. hybrid_of (settings_of config.now) ≡ false
        → engines.lazy ≡ None) }
    ensures no_symbols { IfOk result (λ engines. (hybrid_of (settings_of config.now) ≡ false)
        ⊎ (unicode_words_of (settings_of config.now) ≡ false) → engines.symbols ≡ None) }
    ensures no_needs { IfOk result (λ engines. auto_prefilter_of (settings_of config.now) ≡ false
        → engines.needs ≡ None) }
    ensures no_words { IfOk result (λ engines. auto_prefilter_of (settings_of config.now) ≡ false
        → engines.words ≡ None) }
{
    let needs = needs_of(alloc, config, hirs)?;
    let words = words_of(alloc, config, hirs)?;
    Engines::new(
        alloc,
        engine,
        hirs.len(),
        Lengths::of(hirs),
        needs,
        words,
        limits_of(config),
    )
}

/// The literals that each match contains, if searches use them. They are extracted from the
/// patterns only if the settings say so.
fn needs_of(alloc: Global, config: &Config, hirs: &[Hir]) -> Result<Option<Needs>, AllocError>
    ensures holds { IfOk result (λ found. IfSome found
        (λ n. (t : Text) → Holds t (map meaning hirs.now) (needles_of n.needles))) }
    ensures leaves { IfOk result (λ found. IfSome found
        (λ n. (t : Text) → LeavesOut t (map meaning hirs.now) n.stops.table)) }
    ensures off { IfOk result (λ found. auto_prefilter_of (settings_of config.now) ≡ false
        → found ≡ None) }
{
    if !config.get_auto_prefilter() {
        return Ok(None);
    }
    needs::needs_of(alloc, hirs)
}

/// The literals between two assertions, if the pattern is a list of them and searches use literals.
fn words_of(alloc: Global, config: &Config, hirs: &[Hir]) -> Result<Option<Words>, AllocError>
    ensures between { IfOk result (λ found. IfSome found
        (λ w. AreBetween (map meaning hirs.now) (between_in w))) }
    ensures off { IfOk result (λ found. auto_prefilter_of (settings_of config.now) ≡ false
        → found ≡ None) }
{
    if !config.get_auto_prefilter() {
        return Ok(None);
    }
    words::words_of(alloc, hirs)
}

/// The limits on DFAs that the settings give. Each direction of the full DFA may take a quarter of
/// the size limit.
fn limits_of(config: &Config) -> Limits
    ensures dfa { result.dfa ≡ dfa_of (settings_of config.now) }
    ensures hybrid { result.hybrid ≡ hybrid_of (settings_of config.now) }
    ensures capacity { result.capacity ≡ hybrid_cache_capacity_of (settings_of config.now) }
    ensures classes { result.byte_classes ≡ byte_classes_of (settings_of config.now) }
    ensures words { result.unicode_words ≡ unicode_words_of (settings_of config.now) }
    ensures states { result.state_limit ≡ dfa_state_limit_of (settings_of config.now) }
    ensures size { result.size_limit ≡ option_map (λ size. size / 4)
        (dfa_size_limit_of (settings_of config.now)) }
{
    Limits {
        dfa: config.get_dfa(),
        state_limit: config.get_dfa_state_limit(),
        size_limit: config.get_dfa_size_limit().map(|size| size / 4),
        byte_classes: config.get_byte_classes(),
        hybrid: config.get_hybrid(),
        capacity: config.get_hybrid_cache_capacity(),
        unicode_words: config.get_unicode_words(),
    }
}
