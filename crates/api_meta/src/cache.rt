//! Regex cache: the scratch memory of searches, made once.

use crate::regex::Regex;
use rc_strategy::cache;
use std::alloc::{AllocError, Global};
use std::fmt;

/// The scratch memory of searches by a regex. Its lists are allocated once.
///
/// If the regex has a lazy DFA, a state of it takes memory when a search first reaches it, up to
/// the capacity that is set. If that is refused, another engine searches. Where a search is said to
/// take no memory, it takes none but this.
pub struct Cache {
    alloc: Global,
    pub(crate) inner: cache::Cache,
}

// Crates above call this, and drop no part by themselves.
impl Drop for Cache {
    fn drop(self) {
        let Cache { alloc: _, inner: _ } = self;
    }
}

impl Cache {
    ghost use Rattle.std.specs.Prelude.{◌≡◌, IfOk, OnErr, OnOk};
    ghost use Rattle.api_meta.specs.Caches.{IsCacheFor};
    ghost use Rattle.api_meta.specs.Views.{regex_patterns, regex_settings};

    /// Returns a cache for searches by this regex, and by any regex of the same patterns under the
    /// same settings. An `Err` means out of memory.
    pub fn new(alloc: Global, regex: &Regex) -> Result<Cache, AllocError>
        ensures { IfOk result (IsCacheFor (regex_patterns regex.now) (regex_settings regex.now)) }
    {
        let inner = regex.engine_cache(alloc)?;
        Ok(Cache { alloc, inner })
    }

    /// Makes this a cache for searches by another regex. An `Err` means out of memory, and leaves
    /// the cache unchanged.
    pub fn reset(&mut self, regex: &Regex) -> Result<(), AllocError>
        ensures made { OnOk result (IsCacheFor (regex_patterns regex.now)
            (regex_settings regex.now) self.new) }
        ensures refused { OnErr result (self.new ≡ self.old) }
    {
        self.inner = regex.engine_cache(self.alloc)?;
        Ok(())
    }

    /// Roughly the number of bytes that the cache has allocated, for its lists and for the states
    /// of the lazy DFA.
    pub fn memory_usage(&self) -> usize {
        self.inner.memory_usage()
    }
}

impl fmt::Debug for Cache {
    fn fmt<W: fmt::Write>(&self, f: &mut fmt::Formatter<W>) -> fmt::Result {
        f.debug_struct("Cache")
            .field("memory_usage", &self.memory_usage())
            .finish_non_exhaustive()
    }
}
