//! Pike VM settings.
ghost use Rattle.std.specs.Prelude.{◌≡◌, IfOk, IsOk, None, Some, option_map};
ghost use Rattle.rc_needles.specs.Prefilters.{needles_of};
ghost use Rattle.rc_settings.specs.SearchSettings.{search_settings_of, none_set, set_over, match_kind_of, prefilter_of};

use rc_needles::prefilter::{Prefilter, copy_of};
use rc_text::types::MatchKind;
use std::alloc::{AllocError, Global};

/// The settings of searches. A setting that isn't set has its default.
#[derive(Debug)]
pub struct Config {
    match_kind: Option<MatchKind>,
    prefilter: Option<Option<Prefilter>>,
}

// Crates above call this, and drop no part by themselves.
impl Drop for Config {
    fn drop(self) {
        let Config {
            match_kind: _,
            prefilter: _,
        } = self;
    }
}

impl Config {
    /// Returns settings with nothing set.
    pub fn new() -> Config
        ensures { search_settings_of result ≡ none_set }
    {
        Config {
            match_kind: None,
            prefilter: None,
        }
    }

    /// Sets which match a search finds. The default is the first walk of the least start. Under
    /// `MatchKind::All` it is the match with the greatest end, then the least start, then the first
    /// pattern; such a search rejects no match, and finds no groups but the whole match.
    pub fn match_kind(mut self, value: MatchKind) -> Config
        ensures { search_settings_of result
            ≡ record (search_settings_of self) { match_kind = Some value } }
    {
        self.match_kind = Some(value);
        self
    }

    /// Sets the needles that a search may look for first. The default is `None`. No search result
    /// depends on it: they are used only if prefixes of the patterns were extracted and each begins
    /// with one of them.
    pub fn prefilter(mut self, value: Option<Prefilter>) -> Config
        ensures { search_settings_of result
            ≡ record (search_settings_of self) { prefilter = Some (option_map needles_of value) } }
    {
        self.prefilter = Some(value);
        self
    }

    /// Which match a search finds.
    pub fn get_match_kind(&self) -> MatchKind
        ensures { result ≡ match_kind_of (search_settings_of self.now) }
    {
        self.match_kind.unwrap_or(MatchKind::LeftmostFirst)
    }

    /// The needles that a search may look for first. The default is `None`.
    pub fn get_prefilter(&self) -> Option<&Prefilter>
        ensures { option_map (λ p. needles_of p.now) result
            ≡ prefilter_of (search_settings_of self.now) }
    {
        match &self.prefilter {
            Some(Some(prefilter)) => Some(prefilter),
            Some(None) | None => None,
        }
    }

    /// Returns a copy of the settings. An `Err` means out of memory for the prefilter, so there is
    /// none without one.
    pub fn try_clone(&self, alloc: Global) -> Result<Config, AllocError>
        ensures same { IfOk result (λ c. search_settings_of c ≡ search_settings_of self.now) }
        ensures sure { prefilter_of (search_settings_of self.now) ≡ None → IsOk result }
    {
        let prefilter = match &self.prefilter {
            Some(Some(prefilter)) => Some(Some(copy_of(alloc, prefilter)?)),
            Some(None) => Some(None),
            None => None,
        };
        Ok(Config {
            match_kind: self.match_kind,
            prefilter,
        })
    }
}

/// Takes each setting that `new` sets, and keeps the others.
pub fn overwrite(config: &mut Config, mut new: Config)
    ensures { search_settings_of config.new
        ≡ set_over (search_settings_of config.old) (search_settings_of new) }
{
    config.match_kind = new.match_kind.or(config.match_kind);
    if let Some(prefilter) = new.prefilter.take() {
        config.prefilter = Some(prefilter);
    }
}
