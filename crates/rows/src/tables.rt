//! The engines that search by tables of states: tables that are made at the build, and tables of
//! states that are made as they are met.

ghost use Rattle.std.specs.Prelude.{ℕ};
ghost use Rattle.api_hybrid.specs.Caches.{IsCacheFor, capacity_of};

use crate::calls::{Spans, put_all};
use crate::told::Told;
use api_dfa::search as dfa;
use api_hybrid::cache::Cache;
use api_hybrid::regex::Regex;
use api_hybrid::search as hybrid;
use rc_settings::error::BuildError;
use rc_text::cursor::Cursor;
use rc_text::input::Input;
use rc_text::types::{HalfMatch, Match, MatchError};
use std::alloc::Global;
use std::marker::Model;

/// What a search by tables seeks.
#[derive(Clone, Copy)]
pub enum Seek {
    /// The match.
    Match,
    /// Where it ends.
    End,
    /// Where the longest match begins that ends where the input does.
    Start,
}

/// Which engine searches by tables.
#[derive(Clone, Copy)]
pub enum Kind {
    /// A DFA.
    Dfa,
    /// A hybrid.
    Hybrid,
    /// A hybrid whose cache may be too small for a search.
    SmallHybrid,
}

impl Kind {
    /// How it is called.
    pub fn name(self) -> &'static str {
        match self {
            Kind::Dfa => "DFA",
            Kind::Hybrid => "hybrid",
            Kind::SmallHybrid => "small hybrid",
        }
    }
}

/// An engine that searches by tables of states.
pub trait Tables {
    /// Which one it is.
    fn kind(&self) -> Kind;

    /// It has let no states go, unless its cache is small.
    fn keeps_states(&self) -> bool {
        true
    }

    /// What a search tells.
    fn told<C: Cursor>(&mut self, seek: Seek, input: &mut Input<C>) -> Result<Told, MatchError>;

    /// Adds the matches one after another.
    fn list<C: Cursor + Drop>(&self, alloc: Global, input: Input<C>, spans: &mut Spans);
}

/// A regex whose states are made as they are met, and one cache for all its searches.
#[derive(Drop)]
pub struct Hybrid {
    regex: Regex,
    cache: Cache,
    is_small: bool,
}

impl Model for Hybrid {
    ghost Value = { ℕ };

    ghost view = { λ h. capacity_of h.cache };

    ghost invariant = { λ h. IsCacheFor h.regex h.cache };
}

impl Hybrid {
    /// The regex with a cache; a small one may be too small for a search.
    pub fn new(alloc: Global, regex: Regex, is_small: bool) -> Result<Hybrid, BuildError> {
        match regex.create_cache(alloc) {
            Ok(cache) => Ok(Hybrid {
                regex,
                cache,
                is_small,
            }),
            Err(_) => {
                drop(regex);
                Err(BuildError::Memory)
            }
        }
    }

    /// The least capacity of a cache.
    pub fn least(&self) -> usize {
        self.regex.minimum_cache_capacity()
    }
}

/// What a search tells that finds a match.
fn of_match(found: Result<Option<Match>, MatchError>) -> Result<Told, MatchError> {
    match found {
        Ok(found) => Ok(Told::Match(found)),
        Err(error) => Err(error),
    }
}

/// What a search tells that finds one end of a match.
fn of_half(found: Result<Option<HalfMatch>, MatchError>) -> Result<Told, MatchError> {
    match found {
        Ok(half) => Ok(Told::Half(half)),
        Err(error) => Err(error),
    }
}

impl Tables for api_dfa::regex::Regex {
    fn kind(&self) -> Kind {
        Kind::Dfa
    }

    fn told<C: Cursor>(&mut self, seek: Seek, input: &mut Input<C>) -> Result<Told, MatchError> {
        match seek {
            Seek::Match => of_match(dfa::find(self, input)),
            Seek::End => of_half(dfa::try_search_fwd(self.forward(), input)),
            Seek::Start => of_half(dfa::try_search_rev(self.reverse(), input)),
        }
    }

    fn list<C: Cursor + Drop>(&self, _: Global, input: Input<C>, spans: &mut Spans) {
        put_all(dfa::find_iter(self, input), spans);
    }
}

impl Tables for Hybrid {
    fn kind(&self) -> Kind {
        if self.is_small {
            Kind::SmallHybrid
        } else {
            Kind::Hybrid
        }
    }

    fn keeps_states(&self) -> bool {
        self.is_small || self.cache.clear_count() == 0
    }

    fn told<C: Cursor>(&mut self, seek: Seek, input: &mut Input<C>) -> Result<Told, MatchError> {
        match seek {
            Seek::Match => of_match(hybrid::find(&self.regex, &mut self.cache, input)),
            Seek::End => of_half(hybrid::try_search_fwd(&self.regex, &mut self.cache, input)),
            Seek::Start => of_half(hybrid::try_search_rev(&self.regex, &mut self.cache, input)),
        }
    }

    fn list<C: Cursor + Drop>(&self, alloc: Global, input: Input<C>, spans: &mut Spans) {
        match self.regex.create_cache(alloc) {
            Ok(mut cache) => {
                list_in(&self.regex, &mut cache, input, spans);
                drop(cache);
            }
            Err(_) => spans.is_whole = false,
        }
    }
}

/// Adds the matches that the iterator of a hybrid's regex gives in this cache.
fn list_in<C: Cursor + Drop>(regex: &Regex, cache: &mut Cache, input: Input<C>, spans: &mut Spans)
    requires { IsCacheFor regex.now cache.old }
{
    put_all(hybrid::find_iter(regex, cache, input), spans);
}
