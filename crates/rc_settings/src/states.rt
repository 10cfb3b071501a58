//! DFA settings, of the full DFA and of the lazy DFA.
ghost use Rattle.std.specs.Prelude.{◌≡◌, Some, option_map};
ghost use Rattle.rc_needles.specs.Prefilters.{needles_of};
ghost use Rattle.rc_settings.specs.SearchSettings.{search_settings_of};
ghost use Rattle.rc_settings.specs.StateSettings.{byte_classes_of, no_state_setting, state_settings_of, state_settings_over};

use crate::pikevm;
use rc_needles::prefilter::Prefilter;
use rc_text::types::MatchKind;

/// The settings of DFAs, with a limit `L` on the size of their states. A setting that isn't set has
/// its default.
#[derive(Debug, Drop)]
pub struct Config<L> {
    search: pikevm::Config,
    byte_classes: Option<bool>,
    limit: Option<L>,
}

impl<L: Drop> Config<L> {
    /// Returns settings with nothing set.
    pub fn new() -> Config<L>
        ensures { state_settings_of result ≡ no_state_setting L }
    {
        Config {
            search: pikevm::Config::new(),
            byte_classes: None,
            limit: None,
        }
    }

    /// Sets which match a search finds, as `pikevm::Config::match_kind` does.
    pub fn match_kind(mut self, value: MatchKind) -> Config<L>
        ensures { let s = (state_settings_of self).search in state_settings_of result
            ≡ record (state_settings_of self) { search = record s { match_kind = Some value } } }
    {
        self.search = self.search.match_kind(value);
        self
    }

    /// Sets the needles that a search may look for first, as `pikevm::Config::prefilter` does. No
    /// search result depends on it.
    pub fn prefilter(mut self, value: Option<Prefilter>) -> Config<L>
        ensures { let s = (state_settings_of self).search in state_settings_of result
            ≡ record (state_settings_of self) {
              search = record s {
                prefilter = Some
                    (option_map needles_of value);
              };
            } }
    {
        self.search = self.search.prefilter(value);
        self
    }

    /// Sets whether bytes that no pattern distinguishes share a column of a table. The default is
    /// true. No search result depends on it.
    pub fn byte_classes(mut self, yes: bool) -> Config<L>
        ensures { state_settings_of result
            ≡ record (state_settings_of self) { byte_classes = Some yes } }
    {
        self.byte_classes = Some(yes);
        self
    }

    /// Whether bytes that no pattern distinguishes share a column of a table.
    pub fn get_byte_classes(&self) -> bool
        ensures { result ≡ byte_classes_of (state_settings_of self.now) }
    {
        self.byte_classes.unwrap_or(true)
    }
}

impl Config<Option<usize>> {
    /// Sets the limit on the bytes that the states of each direction of a full DFA may take. The
    /// default is `None`, for no limit.
    pub fn dfa_size_limit(mut self, value: Option<usize>) -> Config<Option<usize>>
        ensures { state_settings_of result
            ≡ record (state_settings_of self) { limit = Some value } }
    {
        self.limit = Some(value);
        self
    }
}

impl Config<usize> {
    /// Sets the number of bytes that the states of each direction of a lazy DFA may take in its
    /// cache. The default is 2,097,152.
    pub fn cache_capacity(mut self, bytes: usize) -> Config<usize>
        ensures { state_settings_of result
            ≡ record (state_settings_of self) { limit = Some bytes } }
    {
        self.limit = Some(bytes);
        self
    }
}

/// Takes each setting that `new` sets, and keeps the others.
pub fn overwrite<L: Drop>(config: &mut Config<L>, new: Config<L>)
    ensures { state_settings_of config.new
        ≡ state_settings_over (state_settings_of config.old) (state_settings_of new) }
{
    pikevm::overwrite(&mut config.search, new.search);
    config.byte_classes = new.byte_classes.or(config.byte_classes);
    if let Some(limit) = new.limit {
        config.limit = Some(limit);
    }
}

/// The settings that DFAs share with the Pike VM.
pub fn search_settings<L>(config: &Config<L>) -> &pikevm::Config
    ensures { search_settings_of result.now ≡ (state_settings_of config.now).search }
{
    &config.search
}

/// The limit that was set.
pub fn limit_of<L: Copy>(config: &Config<L>) -> Option<L>
    ensures { result ≡ (state_settings_of config.now).limit }
{
    let Config { limit, .. } = config;
    *limit
}
