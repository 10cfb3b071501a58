//! Pike VM cache: the scratch memory of searches.

use crate::vm::PikeVM;
use rc_pikevm::cache;
use std::alloc::{AllocError, Global};
use std::fmt;

/// The scratch memory of searches by a `PikeVM`, allocated once.
pub struct Cache {
    alloc: Global,
    pub(crate) inner: cache::Cache,
}

// Crates above call this, and drop no part by themselves.
impl Drop for Cache {
    fn drop(self) {
        let Cache { alloc: _, inner: _ } = self;
    }
}

impl Cache {
    ghost use Rattle.std.specs.Prelude.{◌≡◌, IfOk, OnErr, OnOk};
    ghost use Rattle.api_pikevm.specs.Caches.{IsCacheFor, insertions_of};
    ghost use Rattle.api_pikevm.specs.Views.{sought};

    /// Returns a cache for searches by this `PikeVM`, and by any with the same program and
    /// settings. An `Err` means out of memory.
    pub fn new(alloc: Global, vm: &PikeVM) -> Result<Cache, AllocError>
        ensures made { IfOk result (IsCacheFor (sought vm.now)) }
        ensures unused { IfOk result (λ c. insertions_of c ≡ 0) }
    {
        let inner = vm.inner_cache(alloc)?;
        Ok(Cache { alloc, inner })
    }

    /// Makes this a cache for searches by another `PikeVM`. An `Err` means out of memory, and
    /// leaves the cache unchanged.
    pub fn reset(&mut self, vm: &PikeVM) -> Result<(), AllocError>
        ensures made { OnOk result (IsCacheFor (sought vm.now) self.new) }
        ensures unused { OnOk result (insertions_of self.new ≡ 0) }
        ensures refused { OnErr result (self.new ≡ self.old) }
    {
        self.inner = vm.inner_cache(self.alloc)?;
        Ok(())
    }

    /// The number of states that the last pass of the last search entered, over all positions; 0 if
    /// that search made no pass.
    pub fn insertions(&self) -> u128
        ensures { result ≡ insertions_of self.now }
    {
        self.inner.insertions()
    }

    /// Roughly the number of bytes that the cache has allocated for its lists.
    pub fn memory_usage(&self) -> usize {
        self.inner.memory_usage()
    }
}

impl fmt::Debug for Cache {
    fn fmt<W: fmt::Write>(&self, f: &mut fmt::Formatter<W>) -> fmt::Result {
        f.debug_struct("Cache")
            .field("memory_usage", &self.memory_usage())
            .field("insertions", &self.insertions())
            .finish_non_exhaustive()
    }
}
