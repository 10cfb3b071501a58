//! Cache: the memory of a search, for the Pike VM and for lazy DFAs.
ghost use Rattle.std.specs.Prelude.{◌≤◌, min};
ghost use Rattle.rc_strategy.specs.Caches.{states_taken};

use rc_lazy_dfa::lazy;
use rc_pikevm::cache;

/// The memory of a search: the Pike VM's lists, and the states that searches by lazy DFAs reached
/// so far.
pub struct Cache {
    /// The Pike VM's cache.
    pub pass: cache::Cache,
    /// The lazy DFA's cache. With None, no search uses the lazy DFA.
    pub(crate) lazy: Option<lazy::Cache>,
    /// The cache of the lazy DFA over symbols. With None, no search uses that.
    pub(crate) symbols: Option<lazy::Cache>,
    /// How many of the next searches ask the lazy DFA over symbols first. The last of them does so only
    /// where the others would quit at once.
    pub(crate) symbols_turns: u8,
}

// Crates above call this, and drop no part by themselves.
impl Drop for Cache {
    fn drop(self) {
        let Cache {
            pass: _,
            lazy: _,
            symbols: _,
            symbols_turns: _,
        } = self;
    }
}

/// Returns about how many bytes of memory the states of a lazy DFA take, or `usize::MAX` if that is
/// more.
fn states_usage(states: &Option<lazy::Cache>) -> usize
    ensures { min (states_taken states.now) usize.MAX ≤ result }
{
    match states {
        Some(states) => states
            .memory_usage()
            .saturating_add(states.overlapping_usage()),
        None => 0,
    }
}

impl Cache {
    ghost use Rattle.std.specs.Prelude.{◌≤◌, min};
    ghost use Rattle.rc_strategy.specs.Caches.{states_taken};

    /// Returns about how many bytes of memory the cache takes, or `usize::MAX` if that is more: the
    /// Pike VM's lists, and the states of lazy DFAs.
    pub fn memory_usage(&self) -> usize
        ensures states { min (states_taken self.now.lazy) usize.MAX ≤ result }
        ensures symbols { min (states_taken self.now.symbols) usize.MAX ≤ result }
    {
        let pass = self.pass.memory_usage();
        pass.saturating_add(states_usage(&self.lazy))
            .saturating_add(states_usage(&self.symbols))
    }
}
