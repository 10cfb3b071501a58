//! Lazy DFA cache: the states that searches have built so far.

use crate::regex::Regex;
use rc_lazy_dfa::lazy;
use std::alloc::{AllocError, Global};
use std::fmt;

/// The states that searches by a `Regex` have built so far, with what is known of their
/// transitions: a table for each direction.
pub struct Cache {
    pub(crate) inner: lazy::Cache,
}

// Crates above call this, and drop no part by themselves.
impl Drop for Cache {
    fn drop(self) {
        let Cache { inner: _ } = self;
    }
}

impl Cache {
    ghost use Rattle.std.specs.Prelude.{◌≡◌, IfErr, IfOk, min};
    ghost use Rattle.api_hybrid.specs.Caches.{IsCacheFor, IsFresh, capacity_of, clears_of, usage_of};

    /// Returns a cache for searches by this regex, with no states yet. An `Err` means out of
    /// memory.
    pub fn new(alloc: Global, re: &Regex) -> Result<Cache, AllocError>
        ensures made { IfOk result (IsCacheFor re.now) }
        ensures fresh { IfOk result IsFresh }
    {
        let inner = re.lazy.create_cache(alloc)?;
        Ok(Cache { inner })
    }

    /// Makes this a cache for searches by another regex, with no states yet. An `Err` means out of
    /// memory, and leaves the cache unchanged.
    pub fn reset(&mut self, re: &Regex) -> Result<(), AllocError>
        ensures made { IfOk result (λ _. IsCacheFor re.now self.new) }
        ensures fresh { IfOk result (λ _. IsFresh self.new) }
        ensures refused { IfErr result (λ _. self.new ≡ self.old) }
    {
        self.inner.reset(&re.lazy)
    }

    /// The number of bytes that hold the states of both directions, or the greatest `usize` if it
    /// is more.
    ///
    /// For each direction that is 8 for each cell of a row and each start. Each state takes 32, and
    /// 8 for each entry of its list. An entry is an NFA state, or, in a search for the longest
    /// match, a mark between the states of different starts. The number is at most twice the
    /// capacity.
    pub fn memory_usage(&self) -> usize
        ensures { result ≡ min (usage_of self.now) usize.MAX }
    {
        self.inner.memory_usage()
    }

    /// The number of bytes that the states of each direction may take.
    pub fn capacity(&self) -> usize
        ensures { result ≡ capacity_of self.now }
    {
        self.inner.capacity()
    }

    /// How often all states of a direction were dropped since the cache was made or reset: the
    /// greater of the two counts. A count stays at the greatest `usize` once there.
    pub fn clear_count(&self) -> usize
        ensures { result ≡ clears_of self.now }
    {
        self.inner.clear_count()
    }
}

impl fmt::Debug for Cache {
    fn fmt<W: fmt::Write>(&self, f: &mut fmt::Formatter<W>) -> fmt::Result {
        f.debug_struct("Cache")
            .field("memory_usage", &self.memory_usage())
            .field("capacity", &self.capacity())
            .field("clear_count", &self.clear_count())
            .finish_non_exhaustive()
    }
}
