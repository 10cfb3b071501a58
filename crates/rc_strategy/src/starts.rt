//! Overlapping search from start to start: where a DFA tells that the next match begins, the Pike
//! VM follows the walks from there alone. Positions are in bytes of the whole content.
ghost use Rattle.std.specs.Prelude.{◌≡◌, ◌+◌, Some};
ghost use Rattle.rc_text.specs.Text.{Keeps};
ghost use Rattle.rc_text.specs.declared.types.Anchored.TheVariants.{No};
ghost use Rattle.rc_program.specs.Places.{places_of};
ghost use Rattle.rc_pikevm.specs.PatternSpans.{AreOfFirst};
ghost use Rattle.rc_pikevm_search.specs.Engine.{engine_search, IsEngineCache, IsSameCache};
ghost use Rattle.rc_strategy.specs.Starts.{AddsBefore, IsFirstStart};

use crate::cache::Cache;
use crate::engines::Engines;
use crate::which::{has_all, mark};
use rc_pattern_set::sets::PatternSet;
use rc_pikevm::cache;
use rc_pikevm::which::which_patterns;
use rc_text::cursor::Cursor;
use rc_text::input::{Input, content_fits, high, low};
use rc_text::types::{Anchored, MatchKind};

/// What a search for one start costs, beside the bytes that it reads and the places that the pass
/// from there enters.
const START_COST: u128 = 64;

/// So many bytes that a DFA reads count as much as one place that the Pike VM enters.
const BYTES_A_PLACE: usize = 64;

/// How many bytes ahead of the text passes from single starts may be.
const LEAD: u128 = 64;

/// Whether passes from single starts did less so far than one pass over these bytes does, which
/// enters a place of each pattern at each of them.
fn is_cheaper(patterns: usize, bytes: usize, spent: u128) -> bool {
    spent
        <= LEAD
            .saturating_add(bytes as u128)
            .saturating_mul(patterns as u128)
}

/// What a search for one start costs at most if so many bytes are left: it may read them all. So
/// these searches are linear in the text, as one pass is.
fn start_cost(left: usize) -> u128 {
    START_COST.saturating_add((left / BYTES_A_PLACE) as u128)
}

/// Inserts each pattern of which a walk begins at `start`, as far as the set can hold it. No walk
/// begins earlier. The input's span stays as it is.
fn mark_at<C: Cursor>(
    engines: &Engines,
    cache: &mut cache::Cache,
    input: &mut Input<C>,
    patterns: usize,
    start: usize,
    set: &mut PatternSet,
)
    requires first { AreOfFirst patterns (places_of engines.now.engine.program.places.items) }
    requires made { IsEngineCache engines.now.engine 0 cache.old }
    requires free { input.old.anchored ≡ No }
    requires start { IsFirstStart (engine_search engines.now.engine input.old) (Some start) }
    ensures keeps { Keeps input.old input.new }
    ensures adds { AddsBefore (engine_search engines.now.engine input.old) (start + 1)
        set.old set.new }
    ensures cache { IsSameCache cache.old cache.new }
{
    let span = input.get_span();
    input.set_start(start);
    input.set_anchored(Anchored::Yes);
    which_patterns(cache, input, &engines.engine.program, None, patterns, set);
    input.set_anchored(Anchored::No);
    input.set_span(span);
}

impl Engines {
    ghost use Rattle.std.specs.Prelude.{◌≡◌, ◌<◌, ◌≤◌, IfSome, IsTrue, false, true};
    ghost use Rattle.rc_text.specs.Text.{Keeps, high, low};
    ghost use Rattle.rc_text.specs.declared.types.Anchored.TheVariants.{No};
    ghost use Rattle.rc_program.specs.Places.{places_of};
    ghost use Rattle.rc_pikevm.specs.PatternSpans.{AddsSpelled, AreOfFirst};
    ghost use Rattle.rc_pikevm_search.specs.Engine.{engine_search};
    ghost use Rattle.rc_strategy.specs.Caches.{IsCacheIn, IsSameCacheIn};
    ghost use Rattle.rc_strategy.specs.Lengths.{is_leftmost};
    ghost use Rattle.rc_strategy.specs.Starts.{AddsTo};

    /// Whether matches tell where walks begin, one start after another: the kind is leftmost, and
    /// the search isn't anchored.
    pub(crate) fn seeks_starts<C: Cursor>(&self, input: &Input<C>) -> bool
        ensures { IsTrue result → (is_leftmost self.now.engine.kind ≡ true)
            × (input.now.anchored ≡ No) }
    {
        match (self.engine.kind, input.get_anchored()) {
            (MatchKind::LeftmostFirst | MatchKind::LeftmostLongest, Anchored::No) => true,
            _ => false,
        }
    }

    /// Inserts each pattern of which a walk begins at the first start that has one, as far as the
    /// set can hold it. Returns the position after that start. Returns None if no walk is left, or
    /// if all are done: unless `alone` is set and a DFA tells the start, one pass does all.
    fn mark_first<C: Cursor>(
        &self,
        cache: &mut Cache,
        input: &mut Input<C>,
        patterns: usize,
        alone: bool,
        set: &mut PatternSet,
    ) -> Option<usize>
        requires made { IsCacheIn self.now 0 cache.old }
        requires first { AreOfFirst patterns (places_of self.now.engine.program.places.items) }
        requires leftmost { is_leftmost self.now.engine.kind ≡ true }
        requires free { input.old.anchored ≡ No }
        ensures keeps { Keeps input.old input.new }
        ensures adds { AddsTo (engine_search self.now.engine input.old) result set.old set.new }
        ensures ahead { IfSome result (λ next. low input.old < next) }
        ensures cache { IsSameCacheIn self.now cache.old cache.new }
    {
        if !alone {
            mark(self, &mut cache.pass, input, patterns, set);
            return None;
        }
        match self.find_told(cache, input) {
            Some(Some(found)) => {
                let start = found.start();
                content_fits(input);
                mark_at(self, &mut cache.pass, input, patterns, start, set);
                Some(start + 1)
            }
            Some(None) => None,
            None => {
                mark(self, &mut cache.pass, input, patterns, set);
                None
            }
        }
    }

    /// Does what `mark_first` does for the walks from `at` on. The input's span stays as it is.
    fn mark_next<C: Cursor>(
        &self,
        cache: &mut Cache,
        input: &mut Input<C>,
        patterns: usize,
        alone: bool,
        at: usize,
        set: &mut PatternSet,
    ) -> Option<usize>
        requires made { IsCacheIn self.now 0 cache.old }
        requires first { AreOfFirst patterns (places_of self.now.engine.program.places.items) }
        requires leftmost { is_leftmost self.now.engine.kind ≡ true }
        requires free { input.old.anchored ≡ No }
        requires from { low input.old ≤ at }
        requires to { at ≤ high input.old }
        ensures keeps { Keeps input.old input.new }
        ensures adds { AddsTo (record (engine_search self.now.engine input.old) { lo = at })
            result set.old set.new }
        ensures ahead { IfSome result (λ next. at < next) }
        ensures cache { IsSameCacheIn self.now cache.old cache.new }
    {
        let span = input.get_span();
        input.set_start(at);
        let next = self.mark_first(cache, input, patterns, alone, set);
        input.set_span(span);
        next
    }

    /// Inserts each pattern that has a match, as far as the set can hold it, from start to start of
    /// a match. Once these passes did more than one pass does, one pass does the rest.
    pub(crate) fn mark_by_starts<C: Cursor>(
        &self,
        cache: &mut Cache,
        input: &mut Input<C>,
        patterns: usize,
        set: &mut PatternSet,
    )
        requires made { IsCacheIn self.now 0 cache.old }
        requires first { AreOfFirst patterns (places_of self.now.engine.program.places.items) }
        requires leftmost { is_leftmost self.now.engine.kind ≡ true }
        requires free { input.old.anchored ≡ No }
        ensures keeps { Keeps input.old input.new }
        ensures adds { AddsSpelled (engine_search self.now.engine input.old) set.old set.new }
        ensures cache { IsSameCacheIn self.now cache.old cache.new }
    {
        let lo = low(input);
        let hi = high(input);
        let mut spent: u128 = 0;
        let mut at = lo;
        'starts: while at <= hi {
            if has_all(set, patterns) {
                return;
            }
            let alone = is_cheaper(patterns, at - lo, spent);
            let Some(next) = self.mark_next(cache, input, patterns, alone, at, set) else {
                return;
            };
            spent = spent
                .saturating_add(cache.pass.insertions())
                .saturating_add(start_cost(hi.saturating_sub(at)));
            at = next;
        }
    }
}
