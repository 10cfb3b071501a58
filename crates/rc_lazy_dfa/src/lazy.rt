//! Lazy DFA: the engine, and the cache of its states.
ghost use Rattle.std.specs.Prelude.{◌≡◌, ◌≤◌, ◌<◌, ◌↔◌, IsTrue, MatchOption};
ghost use Rattle.rc_dfa.specs.declared.automaton.Direction.TheVariants as direction;
ghost use Rattle.rc_dfa.specs.Automata.{machine_of};
ghost use Rattle.rc_dfa.specs.Machine.{IsAsked};
ghost use Rattle.rc_lazy_dfa.specs.Stores.{frame_of, minimum_of};

use crate::error::LazyError;
use crate::half::{Half, starts_in};
use crate::which::Ends;
use rc_dfa::automaton::{Automaton, Direction};
use rc_dfa::ended::{Ended, Reading};
use rc_dfa::halves::{Halves, Run};
use rc_dfa::memo::Memo;
use rc_pattern_set::sets::PatternSet;
use rc_table_search::again::search_again;
use rc_table_search::inside::search_inside;
use rc_table_search::run::Extent;
use rc_table_search::search::{Request, search};
use rc_table_search::way::{Backwards, Forwards};
use rc_text::cursor::Cursor;
use rc_text::input::Input;
use rc_text::types::Anchored;
use std::alloc::{AllocError, Global};

/// A lazy DFA: the determinizer, and the capacity of a cache. The states are in a `Cache`.
pub struct Lazy {
    pub(crate) automaton: Automaton,
    capacity: usize,
    minimum: usize,
    ghost least: { minimum ≡ minimum_of (frame_of automaton direction.Forwards) },
    ghost roomy: { minimum ≤ capacity },
}

// Crates above call this, and drop no part by themselves.
impl Drop for Lazy {
    fn drop(self) {
        let Lazy {
            automaton: _,
            capacity: _,
            minimum: _,
        } = self;
    }
}

/// The states that searches reached so far, and the steps between them that are known, for each
/// direction.
pub struct Cache {
    forward: Half,
    reverse: Half,
    /// What overlapping searches keep, if the cache is for these too.
    overlapping: Option<Ends>,
    alloc: Global,
}

// Crates above call this, and drop no part by themselves.
impl Drop for Cache {
    fn drop(self) {
        let Cache {
            forward: _,
            reverse: _,
            overlapping: _,
            alloc: _,
        } = self;
    }
}

/// Returns the least capacity that suffices, in bytes, or None if that is more than `usize::MAX`.
fn minimum(automaton: &Automaton) -> Option<usize>
    ensures { MatchOption result (usize.MAX
        < minimum_of (frame_of automaton.now direction.Forwards))
        (λ n. n ≡ minimum_of (frame_of automaton.now direction.Forwards)) }
{
    let width = automaton.columns() + 1;
    let starts = starts_in(automaton, Direction::Forwards, width)?;
    let rows = 40 * width as u128 + 8 * starts as u128;
    let bytes = rows + 160 + 40 * automaton.longest_list(Direction::Forwards) as u128;
    if bytes > usize::MAX as u128 {
        return None;
    }
    Some(bytes as usize)
}

/// Whether a search may be anchored so: the pattern that is asked for, if any, exists.
pub(crate) fn is_asked(automaton: &Automaton, anchored: &Anchored) -> bool
    ensures { (d : direction.the_data) → IsTrue result
        ↔ IsAsked (machine_of automaton.now d) anchored.now }
{
    match anchored {
        Anchored::Pattern(pattern) => pattern.as_usize() < automaton.pattern_len(),
        _ => true,
    }
}

impl Lazy {
    ghost use Rattle.std.specs.Prelude.{◌≡◌, ◌≤◌, IfOk, IfErr, IsTrue};
    ghost use Rattle.rc_text.specs.Text.{Keeps, high, low};
    ghost use Rattle.rc_program.specs.Sought.{text_of};
    ghost use Rattle.rc_dfa.specs.Automata.{machine_of};
    ghost use Rattle.rc_dfa.specs.Machine.{IsAsked};
    ghost use Rattle.rc_dfa.specs.declared.automaton.Direction.TheVariants.{Overlapping};
    ghost use Rattle.rc_lazy_dfa.specs.Caches.{IsCacheOf, IsFreshCache, IsLazyOf, IsNone, least_of};
    ghost use Rattle.rc_lazy_dfa.specs.Overlaps.{AddsOnly, HasEach, IsMet};

    /// A lazy DFA for this automaton, with `capacity` bytes for the states of each direction. The
    /// error is `TooSmall` if that is less than the least that suffices, and `Memory` if the least
    /// is more than `usize::MAX`.
    pub fn new(automaton: Automaton, capacity: usize) -> Result<Lazy, LazyError>
        ensures made { IfOk result (IsLazyOf automaton capacity) }
        ensures refused { IfErr result (IsNone automaton capacity) }
    {
        let Some(minimum) = minimum(&automaton) else {
            return Err(LazyError::Memory);
        };
        if capacity < minimum {
            return Err(LazyError::TooSmall {
                minimum,
                given: capacity,
            });
        }
        Ok(Lazy {
            automaton,
            capacity,
            minimum,
        })
    }

    /// Returns the least capacity that suffices, in bytes.
    pub fn minimum_capacity(&self) -> usize
        ensures { result ≡ least_of self.now.automaton }
    {
        self.minimum
    }

    /// A cache for searches, with no states yet. `Err` means out of memory.
    pub fn create_cache(&self, alloc: Global) -> Result<Cache, AllocError>
        ensures made { IfOk result (IsCacheOf self.now) }
        ensures fresh { IfOk result IsFreshCache }
    {
        let forward = Half::new(alloc, &self.automaton, Direction::Forwards, self.capacity)?;
        let reverse = Half::new(alloc, &self.automaton, Direction::Backwards, self.capacity)?;
        Ok(Cache {
            forward,
            reverse,
            overlapping: None,
            alloc,
        })
    }

    /// A cache for searches that is for overlapping ones too, with no states yet. `Err` means out
    /// of memory.
    pub fn create_overlapping_cache(&self, alloc: Global) -> Result<Cache, AllocError>
        ensures made { IfOk result (IsCacheOf self.now) }
        ensures fresh { IfOk result IsFreshCache }
    {
        let mut cache = self.create_cache(alloc)?;
        let ends = Ends::new(alloc, &self.automaton, self.capacity)?;
        cache.overlapping = Some(ends);
        Ok(cache)
    }

    /// Inserts into the set each pattern that has a match from the position `from` on, up to the
    /// end of the input's bounds, as far as the set can hold it. Returns false if some may be
    /// missing: the cache isn't for overlapping searches, its capacity or memory doesn't suffice,
    /// a byte may not be read, or symbols are read.
    pub fn which_patterns<C: Cursor>(
        &self,
        cache: &mut Cache,
        input: &mut Input<C>,
        from: usize,
        set: &mut PatternSet,
    ) -> bool
        requires cache { IsCacheOf self.now cache.old }
        requires asked { IsAsked (machine_of self.now.automaton Overlapping) input.old.anchored }
        requires low { low input.old ≤ from }
        requires high { from ≤ high input.old }
        ensures cache { IsCacheOf self.now cache.new }
        ensures keeps { Keeps input.old input.new }
        ensures adds { AddsOnly (IsMet (machine_of self.now.automaton Overlapping)
            (text_of (machine_of self.now.automaton Overlapping).setting.terminator input.old)
            (high input.old) from input.old.anchored) set.old set.new }
        ensures all { IsTrue result → HasEach (IsMet (machine_of self.now.automaton Overlapping)
            (text_of (machine_of self.now.automaton Overlapping).setting.terminator input.old)
            (high input.old) from input.old.anchored) set.new }
    {
        let Some(ends) = &mut cache.overlapping else {
            return false;
        };
        let anchored = input.get_anchored();
        ends.search(&self.automaton, input, &anchored, from, set)
    }
}

impl Cache {
    ghost use Rattle.std.specs.Prelude.{◌≡◌, IfOk, IfErr, min};
    ghost use Rattle.rc_lazy_dfa.specs.Caches.{IsCacheOf, IsFreshCache, capacity_of, clears_of, usage_of};

    /// Makes this a cache for searches by another lazy DFA, with no states yet. `Err` means out of
    /// memory; then the cache stays as it was.
    pub fn reset(&mut self, lazy: &Lazy) -> Result<(), AllocError>
        ensures made { IfOk result (λ _. IsCacheOf lazy.now self.new) }
        ensures fresh { IfOk result (λ _. IsFreshCache self.new) }
        ensures refused { IfErr result (λ _. self.new ≡ self.old) }
    {
        let fresh = lazy.create_cache(self.alloc)?;
        *self = fresh;
        Ok(())
    }

    /// Returns how many bytes the states of both directions take, or `usize::MAX` if that is more.
    pub fn memory_usage(&self) -> usize
        ensures { result ≡ min (usage_of self.now) usize.MAX }
    {
        self.forward
            .store
            .used
            .saturating_add(self.reverse.store.used)
    }

    /// Returns how many bytes overlapping searches take beside, or `usize::MAX` if that is more.
    pub fn overlapping_usage(&self) -> usize {
        match &self.overlapping {
            Some(ends) => ends.memory_usage(),
            None => 0,
        }
    }

    /// Returns how many bytes the states of each direction may take.
    pub fn capacity(&self) -> usize
        ensures { result ≡ capacity_of self.now }
    {
        self.forward.store.capacity
    }

    /// Returns how many times a direction was cleared since the cache was made or reset: the
    /// greater of the two counts. A count stays at `usize::MAX` once there.
    pub fn clear_count(&self) -> usize
        ensures { result ≡ clears_of self.now }
    {
        self.forward.store.clears.max(self.reverse.store.clears)
    }
}

impl Halves for Lazy {
    ghost use Rattle.rc_lazy_dfa.specs.Caches.{AreHalves, IsCacheOf, MayGiveUpEither, SpendsBoth};
    ghost use Rattle.std.specs.Prelude.{false};
    ghost use Rattle.rc_table_search.specs.MemoLaws.{bare_memo, memo_kept};
    ghost use Rattle.rc_table_search.specs.Memos.{IsMemo};
    ghost use Rattle.rc_lazy_dfa.specs.Courses.{view_of};
    ghost use Rattle.rc_lazy_dfa.specs.CacheLaws.{nothing_spent, both_spent, given_up_later, given_up_within, spent_within};

    type Cache = Cache;

    ghost AreOf = { AreHalves };

    ghost IsCache = { IsCacheOf };

    ghost Spends = { SpendsBoth };

    ghost GivesUp = { MayGiveUpEither };

    ghost IsMemo = { λ l c. IsMemo (view_of l false) c.forward };

    #[inline(always)]
    fn run_forwards<C: Cursor>(
        &self,
        cache: &mut Cache,
        input: &mut Input<C>,
        run: Run,
        rest_from: Option<usize>,
    ) -> Reading {
        let request = Request {
            anchored: run.anchored,
            from: run.low,
            end: run.high,
            extent: Extent {
                earliest: run.earliest,
                may_rest: rest_from.is_some(),
                rest_from: rest_from.unwrap_or(0),
            },
        };
        search::<Forwards, Lazy, C>(self, &mut cache.forward, input, &request)
    }

    #[inline(always)]
    fn run_inside(
        &self,
        cache: &mut Cache,
        piece: &[u8],
        start: usize,
        run: Run,
    ) -> Option<Reading> {
        let request = Request {
            anchored: run.anchored,
            from: run.low,
            end: run.high,
            extent: Extent {
                earliest: run.earliest,
                may_rest: false,
                rest_from: 0,
            },
        };
        search_inside::<Lazy>(self, &mut cache.forward, piece, start, &request)
    }

    fn run_again<C: Cursor>(
        &self,
        cache: &mut Cache,
        input: &mut Input<C>,
        run: Run,
        memo: &mut Memo,
    ) -> Reading {
        let extent = Extent {
            earliest: run.earliest,
            may_rest: false,
            rest_from: 0,
        };
        let request = Request {
            anchored: run.anchored,
            from: run.low,
            end: run.high,
            extent,
        };
        search_again::<Lazy, C>(self, &mut cache.forward, input, &request, memo)
    }

    #[inline(always)]
    fn run_backwards<C: Cursor>(&self, cache: &mut Cache, input: &mut Input<C>, run: Run) -> Ended {
        let request = Request {
            anchored: run.anchored,
            from: run.high,
            end: run.low,
            extent: Extent {
                earliest: run.earliest,
                may_rest: false,
                rest_from: 0,
            },
        };
        search::<Backwards, Lazy, C>(self, &mut cache.reverse, input, &request).ended
    }

    ghost spends_nothing = { nothing_spent };

    ghost spends_both = { both_spent };

    ghost gives_up_later = { given_up_later };

    ghost gives_up_within = { given_up_within };

    ghost spends_within = { spent_within };

    ghost bare_memo = { λ l c. bare_memo (view_of l false) c.forward };

    ghost memo_kept = { λ l c. memo_kept (view_of l false) c.forward };
}
