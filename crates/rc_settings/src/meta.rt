//! Regex settings.
ghost use Rattle.std.specs.Prelude.{◌≡◌, IfOk, IsOk, None, Some, option_map};
ghost use Rattle.rc_settings.specs.Settings.{settings_of, unset, overwritten, match_kind_of, utf8_empty_of, auto_prefilter_of, prefilter_of, which_captures_of, nfa_size_limit_of, hybrid_cache_capacity_of, hybrid_of, dfa_of, dfa_size_limit_of, dfa_state_limit_of, byte_classes_of, unicode_words_of, line_terminator_of, program_settings};
ghost use Rattle.rc_settings.specs.Thompson.{settings_of as program_settings_of};
ghost use Rattle.rc_needles.specs.Prefilters.{needles_of};

use crate::thompson;
use crate::which::WhichCaptures;
use rc_needles::prefilter::{Prefilter, copy_of};
use rc_text::types::MatchKind;
use std::alloc::{AllocError, Global};

/// The settings of a regex. A setting that isn't set has its default.
#[derive(Debug, Drop)]
pub struct Config {
    match_kind: Option<MatchKind>,
    utf8_empty: Option<bool>,
    auto_prefilter: Option<bool>,
    prefilter: Option<Option<Prefilter>>,
    which_captures: Option<WhichCaptures>,
    nfa_size_limit: Option<Option<usize>>,
    onepass_size_limit: Option<Option<usize>>,
    hybrid_cache_capacity: Option<usize>,
    hybrid: Option<bool>,
    dfa: Option<bool>,
    dfa_size_limit: Option<Option<usize>>,
    dfa_state_limit: Option<Option<usize>>,
    byte_classes: Option<bool>,
    unicode_words: Option<bool>,
    backtrack: Option<bool>,
    line_terminator: Option<u8>,
}

impl Config {
    /// Returns settings with nothing set.
    pub fn new() -> Config
        ensures { settings_of result ≡ unset }
    {
        Config {
            match_kind: None,
            utf8_empty: None,
            auto_prefilter: None,
            prefilter: None,
            which_captures: None,
            nfa_size_limit: None,
            onepass_size_limit: None,
            hybrid_cache_capacity: None,
            hybrid: None,
            dfa: None,
            dfa_size_limit: None,
            dfa_state_limit: None,
            byte_classes: None,
            unicode_words: None,
            backtrack: None,
            line_terminator: None,
        }
    }

    /// Sets which match a search finds.
    pub fn match_kind(mut self, value: MatchKind) -> Config
        ensures { settings_of result ≡ record (settings_of self) { match_kind = Some value } }
    {
        self.match_kind = Some(value);
        self
    }

    /// Sets whether empty matches occur only on character boundaries.
    pub fn utf8_empty(mut self, yes: bool) -> Config
        ensures { settings_of result ≡ record (settings_of self) { utf8_empty = Some yes } }
    {
        self.utf8_empty = Some(yes);
        self
    }

    /// Sets whether a search may look for literals of the patterns first. No search result depends
    /// on it.
    pub fn auto_prefilter(mut self, yes: bool) -> Config
        ensures { settings_of result ≡ record (settings_of self) { auto_prefilter = Some yes } }
    {
        self.auto_prefilter = Some(yes);
        self
    }

    /// Sets the needles that a search may look for first, or `None` for none of yours. No search
    /// result depends on it: they are used only if each prefix of the patterns begins with one of
    /// them.
    pub fn prefilter(mut self, value: Option<Prefilter>) -> Config
        ensures { settings_of result ≡ record
            (settings_of self) { prefilter = Some (option_map needles_of value) } }
    {
        self.prefilter = Some(value);
        self
    }

    /// Sets which groups the regex keeps.
    pub fn which_captures(mut self, value: WhichCaptures) -> Config
        ensures { settings_of result ≡ record (settings_of self) { which_captures = Some value } }
    {
        self.which_captures = Some(value);
        self
    }

    /// Sets the limit on 32 times the weight of the patterns, or `None` for no limit.
    pub fn nfa_size_limit(mut self, value: Option<usize>) -> Config
        ensures { settings_of result ≡ record (settings_of self) { nfa_size_limit = Some value } }
    {
        self.nfa_size_limit = Some(value);
        self
    }

    /// This setting is kept, and has no effect.
    pub fn onepass_size_limit(mut self, value: Option<usize>) -> Config
        ensures { settings_of result ≡ record
            (settings_of self) { onepass_size_limit = Some value } }
    {
        self.onepass_size_limit = Some(value);
        self
    }

    /// Sets the capacity of the cache of the lazy DFA, in bytes. No search result depends on it.
    pub fn hybrid_cache_capacity(mut self, value: usize) -> Config
        ensures { settings_of result ≡ record
            (settings_of self) { hybrid_cache_capacity = Some value } }
    {
        self.hybrid_cache_capacity = Some(value);
        self
    }

    /// Sets whether a search may use a lazy DFA. No search result depends on it.
    pub fn hybrid(mut self, yes: bool) -> Config
        ensures { settings_of result ≡ record (settings_of self) { hybrid = Some yes } }
    {
        self.hybrid = Some(yes);
        self
    }

    /// Sets whether a search may use a full DFA. No search result depends on it.
    pub fn dfa(mut self, yes: bool) -> Config
        ensures { settings_of result ≡ record (settings_of self) { dfa = Some yes } }
    {
        self.dfa = Some(yes);
        self
    }

    /// Sets the limit on the size of the full DFA, in bytes, or `None` for no limit. Each direction
    /// may take a quarter of it. No search result depends on it.
    pub fn dfa_size_limit(mut self, value: Option<usize>) -> Config
        ensures { settings_of result ≡ record (settings_of self) { dfa_size_limit = Some value } }
    {
        self.dfa_size_limit = Some(value);
        self
    }

    /// Sets the number of NFA states up to which a full DFA is tried, or `None` for no limit. No
    /// search result depends on it.
    pub fn dfa_state_limit(mut self, value: Option<usize>) -> Config
        ensures { settings_of result ≡ record (settings_of self) { dfa_state_limit = Some value } }
    {
        self.dfa_state_limit = Some(value);
        self
    }

    /// Sets whether DFAs put bytes that no pattern distinguishes into one class. No search result
    /// depends on it.
    pub fn byte_classes(mut self, yes: bool) -> Config
        ensures { settings_of result ≡ record (settings_of self) { byte_classes = Some yes } }
    {
        self.byte_classes = Some(yes);
        self
    }

    /// Sets whether a search may use a lazy DFA that knows the characters around bytes past ASCII,
    /// where assertions depend on Unicode words. Its states have the capacity that is set for a lazy
    /// DFA. No search result depends on it.
    pub fn unicode_words(mut self, yes: bool) -> Config
        ensures { settings_of result ≡ record (settings_of self) { unicode_words = Some yes } }
    {
        self.unicode_words = Some(yes);
        self
    }

    /// This setting is kept, and has no effect.
    pub fn backtrack(mut self, yes: bool) -> Config
        ensures { settings_of result ≡ record (settings_of self) { backtrack = Some yes } }
    {
        self.backtrack = Some(yes);
        self
    }

    /// Sets the byte that ends a line for `^` and `$`.
    pub fn line_terminator(mut self, value: u8) -> Config
        ensures { settings_of result ≡ record (settings_of self) { line_terminator = Some value } }
    {
        self.line_terminator = Some(value);
        self
    }

    /// Which match a search finds. The default is `LeftmostFirst`.
    pub fn get_match_kind(&self) -> MatchKind
        ensures { result ≡ match_kind_of (settings_of self.now) }
    {
        self.match_kind.unwrap_or(MatchKind::LeftmostFirst)
    }

    /// Whether empty matches occur only on character boundaries. The default is true.
    pub fn get_utf8_empty(&self) -> bool
        ensures { result ≡ utf8_empty_of (settings_of self.now) }
    {
        self.utf8_empty.unwrap_or(true)
    }

    /// Whether a search may look for literals of the patterns first. The default is true.
    pub fn get_auto_prefilter(&self) -> bool
        ensures { result ≡ auto_prefilter_of (settings_of self.now) }
    {
        self.auto_prefilter.unwrap_or(true)
    }

    /// The needles that a search may look for first. The default is `None`.
    pub fn get_prefilter(&self) -> Option<&Prefilter>
        ensures { option_map (λ p. needles_of p.now) result ≡ prefilter_of (settings_of self.now) }
    {
        match &self.prefilter {
            Some(Some(prefilter)) => Some(prefilter),
            Some(None) | None => None,
        }
    }

    /// Which groups the regex keeps. The default is `All`.
    pub fn get_which_captures(&self) -> WhichCaptures
        ensures { result ≡ which_captures_of (settings_of self.now) }
    {
        self.which_captures.unwrap_or(WhichCaptures::All)
    }

    /// The limit on 32 times the weight of the patterns, or `None` for no limit. The default is
    /// 10,485,760.
    pub fn get_nfa_size_limit(&self) -> Option<usize>
        ensures { result ≡ nfa_size_limit_of (settings_of self.now) }
    {
        self.nfa_size_limit.unwrap_or(Some(10_485_760))
    }

    /// The capacity of the cache of the lazy DFA, in bytes. The default is 2,097,152.
    pub fn get_hybrid_cache_capacity(&self) -> usize
        ensures { result ≡ hybrid_cache_capacity_of (settings_of self.now) }
    {
        self.hybrid_cache_capacity.unwrap_or(2_097_152)
    }

    /// Whether a search may use a lazy DFA. The default is true.
    pub fn get_hybrid(&self) -> bool
        ensures { result ≡ hybrid_of (settings_of self.now) }
    {
        self.hybrid.unwrap_or(true)
    }

    /// Whether a search may use a full DFA. The default is true.
    pub fn get_dfa(&self) -> bool
        ensures { result ≡ dfa_of (settings_of self.now) }
    {
        self.dfa.unwrap_or(true)
    }

    /// The limit on the size of the full DFA, in bytes, or `None` for no limit. The default is
    /// 40,960.
    pub fn get_dfa_size_limit(&self) -> Option<usize>
        ensures { result ≡ dfa_size_limit_of (settings_of self.now) }
    {
        self.dfa_size_limit.unwrap_or(Some(40_960))
    }

    /// The number of NFA states up to which a full DFA is tried, or `None` for no limit. The
    /// default is 30.
    pub fn get_dfa_state_limit(&self) -> Option<usize>
        ensures { result ≡ dfa_state_limit_of (settings_of self.now) }
    {
        self.dfa_state_limit.unwrap_or(Some(30))
    }

    /// Whether DFAs put bytes that no pattern distinguishes into one class. The default is true.
    pub fn get_byte_classes(&self) -> bool
        ensures { result ≡ byte_classes_of (settings_of self.now) }
    {
        self.byte_classes.unwrap_or(true)
    }

    /// Whether a search may use a lazy DFA that knows the characters around bytes past ASCII. The
    /// default is true.
    pub fn get_unicode_words(&self) -> bool
        ensures { result ≡ unicode_words_of (settings_of self.now) }
    {
        self.unicode_words.unwrap_or(true)
    }

    /// The byte that ends a line for `^` and `$`. The default is 10.
    pub fn get_line_terminator(&self) -> u8
        ensures { result ≡ line_terminator_of (settings_of self.now) }
    {
        self.line_terminator.unwrap_or(b'\n')
    }

    /// Returns a copy of the settings. An `Err` means out of memory for the prefilter, so there is
    /// none without one.
    pub fn try_clone(&self, alloc: Global) -> Result<Config, AllocError>
        ensures same { IfOk result (λ c. settings_of c ≡ settings_of self.now) }
        ensures sure { prefilter_of (settings_of self.now) ≡ None → IsOk result }
    {
        let prefilter = match &self.prefilter {
            Some(Some(prefilter)) => Some(Some(copy_of(alloc, prefilter)?)),
            Some(None) => Some(None),
            None => None,
        };
        Ok(Config {
            match_kind: self.match_kind,
            utf8_empty: self.utf8_empty,
            auto_prefilter: self.auto_prefilter,
            prefilter,
            which_captures: self.which_captures,
            nfa_size_limit: self.nfa_size_limit,
            onepass_size_limit: self.onepass_size_limit,
            hybrid_cache_capacity: self.hybrid_cache_capacity,
            hybrid: self.hybrid,
            dfa: self.dfa,
            dfa_size_limit: self.dfa_size_limit,
            dfa_state_limit: self.dfa_state_limit,
            byte_classes: self.byte_classes,
            unicode_words: self.unicode_words,
            backtrack: self.backtrack,
            line_terminator: self.line_terminator,
        })
    }
}

/// The settings of the program of the regex. All four are set: to the values set here, or to the
/// defaults.
pub fn program_config(config: &Config) -> thompson::Config
    ensures { program_settings_of result ≡ program_settings (settings_of config.now) }
{
    thompson::Config::new()
        .utf8(config.get_utf8_empty())
        .nfa_size_limit(config.get_nfa_size_limit())
        .which_captures(config.get_which_captures())
        .line_terminator(config.get_line_terminator())
}

/// Takes each setting that `new` sets, and keeps the others.
pub fn overwrite(config: &mut Config, new: Config)
    ensures { settings_of config.new ≡ overwritten (settings_of config.old) (settings_of new) }
{
    config.match_kind = new.match_kind.or(config.match_kind);
    config.utf8_empty = new.utf8_empty.or(config.utf8_empty);
    config.auto_prefilter = new.auto_prefilter.or(config.auto_prefilter);
    config.which_captures = new.which_captures.or(config.which_captures);
    config.nfa_size_limit = new.nfa_size_limit.or(config.nfa_size_limit);
    config.onepass_size_limit = new.onepass_size_limit.or(config.onepass_size_limit);
    config.hybrid_cache_capacity = new.hybrid_cache_capacity.or(config.hybrid_cache_capacity);
    config.hybrid = new.hybrid.or(config.hybrid);
    config.dfa = new.dfa.or(config.dfa);
    config.dfa_size_limit = new.dfa_size_limit.or(config.dfa_size_limit);
    config.dfa_state_limit = new.dfa_state_limit.or(config.dfa_state_limit);
    config.byte_classes = new.byte_classes.or(config.byte_classes);
    config.unicode_words = new.unicode_words.or(config.unicode_words);
    config.backtrack = new.backtrack.or(config.backtrack);
    config.line_terminator = new.line_terminator.or(config.line_terminator);
    if let Some(prefilter) = new.prefilter {
        config.prefilter = Some(prefilter);
    }
}
