//! Shared finder: a regex that several owners hold, with a cache for its searches.
ghost use Rattle.std.specs.Arc.{arc_value};
ghost use Rattle.std.specs.Prelude.{◌≡◌};

use api_meta::ahead::ListMemo;
use api_meta::cache::Cache;
use api_meta::partial::Partial;
use api_meta::regex::Regex;
use rc_text::cursor::Cursor;
use rc_text::input::Input;
use rc_text::types::Match;
use std::alloc::{AllocError, Global};
use std::marker::Model;
use std::sync::Arc;
use stream_search::PartialFinder;

/// A regex that it holds with others, and a cache that was made for it. It borrows nothing, so it
/// may be kept for as long as you like. Contracts see it as the regex.
#[derive(Drop)]
pub struct SharedFinder {
    regex: Arc<Regex>,
    cache: Cache,
}

impl Model for SharedFinder {
    ghost use Rattle.std.specs.Arc.{arc_value};
    ghost use Rattle.api_meta.specs.Caches.{IsCacheFor};
    ghost use Rattle.api_meta.specs.Views.{regex_patterns, regex_settings};
    ghost use Rattle.api_meta.specs.contracts.regex.Regex as regexes;
    ghost use Rattle.api_meta.specs.declared.regex.Regex.{Regex};

    ghost Value = { Regex };

    ghost coded = { regexes.the_row.coded };

    ghost view = { λ f. arc_value f.regex };

    ghost invariant = { λ f. IsCacheFor (regex_patterns (arc_value f.regex))
        (regex_settings (arc_value f.regex)) f.cache };
}

impl SharedFinder {
    ghost use Rattle.std.specs.Arc.{arc_value};
    ghost use Rattle.std.specs.Prelude.{◌≡◌, IfOk};

    /// Returns a finder for this regex, with a cache of its own. An `Err` means out of memory.
    pub(crate) fn new(alloc: Global, regex: &Arc<Regex>) -> Result<SharedFinder, AllocError>
        ensures { IfOk result (λ f. f ≡ arc_value regex.now) }
    {
        let regex = Arc::try_clone(regex)?;
        let Ok(cache) = regex.create_cache(alloc) else {
            drop(regex);
            return Err(AllocError);
        };
        Ok(SharedFinder { regex, cache })
    }
}

impl PartialFinder for SharedFinder {
    ghost searched_by = { λ f. f };

    fn its_regex(&self) -> &Regex {
        &self.regex
    }

    fn find<C: Cursor>(&mut self, input: &mut Input<C>) -> Option<Match> {
        self.regex.search_with(&mut self.cache, input)
    }

    fn find_partial<C: Cursor>(&mut self, input: &mut Input<C>) -> Partial {
        self.regex.search_partial_with(&mut self.cache, input)
    }

    fn push_before<C: Cursor>(
        &mut self,
        input: &mut Input<C>,
        memo: &mut ListMemo,
        last: &mut Option<usize>,
        before: usize,
        matches: &mut Vec<Match>,
    ) -> Result<bool, AllocError> {
        let cache = &mut self.cache;
        self.regex
            .push_before(cache, input, memo, last, before, matches)
    }
}
