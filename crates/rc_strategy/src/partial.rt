//! Partial answers: from which position on a match may begin, whatever follows the content.
ghost use Rattle.std.specs.Prelude.{◌≡◌, ◌≤◌, max};
ghost use Rattle.rc_text.specs.Text.{Keeps, low, high};
ghost use Rattle.rc_text.specs.declared.types.MatchKind.TheVariants.{LeftmostFirst};

use crate::cache::Cache;
use crate::engines::Engines;
use crate::route::{Route, TableChoice};
use rc_dense_dfa::dense::NoCache;
use rc_dfa::halves::Halves;
use rc_dfa_search::idle::last_idle;
use rc_dfa_search::reach::{Settled, tells_reach};
use rc_dfa_search::search::{Bounds, bounds_of};
use rc_dfa_search::undecided::{Told, tell_by_needles};
use rc_lazy_dfa::lazy;
use rc_literals::guard::Guard;
use rc_needles::prefilter::Prefilter;
use rc_text::cursor::Cursor;
use rc_text::input::{Input, low};
use rc_text::types::{Anchored, MatchError, MatchKind};

impl Engines {
    ghost use Rattle.std.specs.Prelude.{◌≡◌, ◌≤◌, IfOk, IfSome, IsTrue, max};
    ghost use Rattle.rc_text.specs.Text.{Keeps, low, high};
    ghost use Rattle.rc_text.specs.declared.types.MatchKind.TheVariants.{LeftmostFirst};
    ghost use Rattle.rc_reach.specs.Partial.{IsPartial, from_place};
    ghost use Rattle.rc_pikevm_search.specs.Engine.{engine_search};
    ghost use Rattle.rc_dfa_search.specs.Aims.{AreBounds};
    ghost use Rattle.rc_dfa_search.specs.Legs.{GoesByNeedles};
    ghost use Rattle.rc_strategy.specs.Caches.{IsCacheIn, IsCacheOfBoth, IsSameCacheIn, KeepsStates};
    ghost use Rattle.rc_dfa.specs.Machine.{bytes};
    ghost use Rattle.rc_needles.specs.Guards.{Guards};
    ghost use Rattle.rc_needles.specs.Needles.{longest};
    ghost use Rattle.rc_needles.specs.Prefilters.{needles_of};
    ghost use Rattle.rc_program.specs.Places.{places_of};
    ghost use Rattle.rc_dfa_search.specs.Reaches.{IsAnswerBelow};
    ghost use Rattle.rc_strategy.specs.Tables.{AreHalvesOver, aim_of};

    /// Whether a DFA tells where nothing is under way in a search of this input: it isn't anchored,
    /// is for the preferred match, and passes none over.
    fn tells_idle<C: Cursor>(&self, input: &Input<C>) -> bool
        ensures { IsTrue result
            → GoesByNeedles (aim_of self.now.engine self.now.patterns) input.now.anchored
            × (self.now.engine.kind ≡ LeftmostFirst) }
    {
        match (self.engine.kind, input.get_anchored()) {
            (MatchKind::LeftmostFirst, Anchored::No) => tells_reach(self.aim()),
            _ => false,
        }
    }

    /// Whether a DFA search of this input goes along the text, forwards and then backwards.
    fn goes_along<C: Cursor>(&self, input: &Input<C>) -> bool {
        match self.route(input) {
            Route::Along => true,
            _ => false,
        }
    }

    /// Returns a position before which no match begins, by a DFA. An `Err` says why it has no answer.
    fn idle_in<H: Halves, C: Cursor>(
        &self,
        halves: &H,
        cache: &mut H::Cache,
        input: &mut Input<C>,
        bounds: Bounds,
    ) -> Result<usize, MatchError>
        requires own { ∥ AreHalvesOver bytes self.now.engine self.now.patterns (H.AreOf halves.now) ∥₁ }
        requires cache { H.IsCache halves.now cache.old }
        requires goes { GoesByNeedles (aim_of self.now.engine self.now.patterns) input.old.anchored }
        requires preferred { self.now.engine.kind ≡ LeftmostFirst }
        requires bounds { AreBounds input.old bounds }
        ensures cache { H.IsCache halves.now cache.new }
        ensures keeps { Keeps input.old input.new }
        ensures told { IfOk result (λ k. IsPartial self.now.engine.kind
            (engine_search self.now.engine input.old) (from_place k)) }
        ensures within { IfOk result (λ k. (low input.old ≤ k) × (k ≤ high input.old)) }
    {
        last_idle(halves, cache, input, self.aim(), bounds)
    }

    /// Returns a position before which no match begins, by the DFA, or else by the lazy DFA if the
    /// cache has its states. Returns None if there is neither, or it has no answer.
    fn idle_by_tables<C: Cursor>(
        &self,
        cache: &mut Option<lazy::Cache>,
        input: &mut Input<C>,
        bounds: Bounds,
    ) -> Option<usize>
        requires made { IsCacheOfBoth self.now.lazy cache.old }
        requires goes { GoesByNeedles (aim_of self.now.engine self.now.patterns) input.old.anchored }
        requires preferred { self.now.engine.kind ≡ LeftmostFirst }
        requires bounds { AreBounds input.old bounds }
        ensures keeps { Keeps input.old input.new }
        ensures told { IfSome result (λ k. IsPartial self.now.engine.kind
            (engine_search self.now.engine input.old) (from_place k)) }
        ensures within { IfSome result (λ k. (low input.old ≤ k) × (k ≤ high input.old)) }
        ensures cache { KeepsStates self.now.lazy cache.old cache.new }
    {
        match self.table_choice(cache.is_some()) {
            TableChoice::AllStates(tables) => self
                .idle_in(tables, &mut NoCache, input, bounds)
                .ok(),
            TableChoice::MetStates(tables) => {
                let Some(states) = cache else {
                    return None;
                };
                self.idle_in(tables, states, input, bounds).ok()
            }
            TableChoice::NoTables => None,
        }
    }

    /// Returns a position before which no match begins, whatever follows the content. It is the
    /// last one at which a DFA has nothing under way, or else where the search begins. It allocates
    /// nothing but states that the lazy DFA reaches for the first time, within the cache's capacity.
    pub fn undecided_from<C: Cursor>(&self, cache: &mut Cache, input: &mut Input<C>) -> usize
        requires made { IsCacheIn self.now 0 cache.old }
        ensures keeps { Keeps input.old input.new }
        ensures told { IsPartial self.now.engine.kind
            (engine_search self.now.engine input.old) (from_place result) }
        ensures within { (low input.old ≤ result) × (result ≤ max (low input.old) (high input.old)) }
        ensures cache { IsSameCacheIn self.now cache.old cache.new }
    {
        let from = low(input);
        let Some(bounds) = bounds_of(input) else {
            return from;
        };
        if !self.tells_idle(input) {
            return from;
        }
        match self.idle_by_tables(&mut cache.lazy, input, bounds) {
            Some(idle) => idle,
            None => from,
        }
    }

    /// Returns the match and a position before which none begins, whatever follows, by a DFA that
    /// goes from needle to needle. An `Err` says why it has no answer.
    fn tell_in<H: Halves, C: Cursor>(
        &self,
        halves: &H,
        cache: &mut H::Cache,
        input: &mut Input<C>,
        needles: &Prefilter,
        bounds: Bounds,
    ) -> Result<Told, MatchError>
        requires own { ∥ AreHalvesOver bytes self.now.engine self.now.patterns (H.AreOf halves.now) ∥₁ }
        requires cache { H.IsCache halves.now cache.old }
        requires goes { GoesByNeedles (aim_of self.now.engine self.now.patterns) input.old.anchored }
        requires preferred { self.now.engine.kind ≡ LeftmostFirst }
        requires bounds { AreBounds input.old bounds }
        requires guards { Guards (places_of self.now.engine.program.places.items)
            self.now.engine.program.terminator (needles_of needles.now) }
        requires longest { self.now.longest.prefix ≡ longest (needles_of needles.now) }
        ensures cache { H.IsCache halves.now cache.new }
        ensures keeps { Keeps input.old input.new }
        ensures settled { IfOk result (λ o. IsAnswerBelow self.now.engine.kind
            (engine_search self.now.engine input.old) o.settled.reach o.settled.found) }
        ensures told { IfOk result (λ o. IsPartial self.now.engine.kind
            (engine_search self.now.engine input.old) (from_place o.from)) }
        ensures within { IfOk result (λ o. (low input.old ≤ o.from) × (o.from ≤ high input.old)) }
    {
        tell_by_needles(
            halves,
            cache,
            input,
            self.aim(),
            needles,
            self.longest.prefix,
            bounds,
        )
    }

    /// Returns the match and a position before which none begins, whatever follows, by the DFA, or
    /// else by the lazy DFA if the cache has its states. Returns None if there is neither, or it has
    /// no answer.
    #[inline(never)]
    fn tell_by_tables<C: Cursor>(
        &self,
        cache: &mut Option<lazy::Cache>,
        input: &mut Input<C>,
        needles: &Prefilter,
        bounds: Bounds,
    ) -> Option<Told>
        requires made { IsCacheOfBoth self.now.lazy cache.old }
        requires goes { GoesByNeedles (aim_of self.now.engine self.now.patterns) input.old.anchored }
        requires preferred { self.now.engine.kind ≡ LeftmostFirst }
        requires bounds { AreBounds input.old bounds }
        requires guards { Guards (places_of self.now.engine.program.places.items)
            self.now.engine.program.terminator (needles_of needles.now) }
        requires longest { self.now.longest.prefix ≡ longest (needles_of needles.now) }
        ensures keeps { Keeps input.old input.new }
        ensures settled { IfSome result (λ o. IsAnswerBelow self.now.engine.kind
            (engine_search self.now.engine input.old) o.settled.reach o.settled.found) }
        ensures told { IfSome result (λ o. IsPartial self.now.engine.kind
            (engine_search self.now.engine input.old) (from_place o.from)) }
        ensures within { IfSome result (λ o. (low input.old ≤ o.from) × (o.from ≤ high input.old)) }
        ensures cache { KeepsStates self.now.lazy cache.old cache.new }
    {
        match self.table_choice(cache.is_some()) {
            TableChoice::AllStates(tables) => self
                .tell_in(tables, &mut NoCache, input, needles, bounds)
                .ok(),
            TableChoice::MetStates(tables) => {
                let Some(states) = cache else {
                    return None;
                };
                self.tell_in(tables, states, input, needles, bounds).ok()
            }
            TableChoice::NoTables => None,
        }
    }

    /// Returns what a search of the input told, with a match settled by the greatest length of the
    /// matches, if that is fewer bytes.
    #[inline(always)]
    fn settle_sooner<C: Cursor>(&self, input: &Input<C>, told: Told) -> Told
        requires settled { IsAnswerBelow self.now.engine.kind
            (engine_search self.now.engine input.now) told.settled.reach told.settled.found }
        ensures settled { IsAnswerBelow self.now.engine.kind
            (engine_search self.now.engine input.now) result.settled.reach result.settled.found }
        ensures from { result.from ≡ told.from }
    {
        let Told { settled, from } = told;
        let found = settled.found;
        let reach = self.least_reach(input, settled);
        Told {
            settled: Settled { found, reach },
            from,
        }
    }

    /// Returns the match that `find` returns, how many bytes settle it, and a position as
    /// `undecided_from` does, in one search. A match may be settled where the bounds end, or by the
    /// greatest length of matches before. Returns None if searches of this input don't go along the
    /// text from prefix literal to prefix literal, or no DFA has an answer. It allocates only what
    /// `undecided_from` does.
    #[inline(always)]
    pub fn tell_partly<C: Cursor>(&self, cache: &mut Cache, input: &mut Input<C>) -> Option<Told>
        requires made { IsCacheIn self.now 0 cache.old }
        ensures keeps { Keeps input.old input.new }
        ensures settled { IfSome result (λ o. IsAnswerBelow self.now.engine.kind
            (engine_search self.now.engine input.old) o.settled.reach o.settled.found) }
        ensures told { IfSome result (λ o. IsPartial self.now.engine.kind
            (engine_search self.now.engine input.old) (from_place o.from)) }
        ensures within { IfSome result (λ o. (low input.old ≤ o.from) × (o.from ≤ high input.old)) }
        ensures cache { IsSameCacheIn self.now cache.old cache.new }
    {
        let Some(Guard::Begins(needles)) = self.guard() else {
            return None;
        };
        if !self.goes_along(input) || !self.tells_idle(input) {
            return None;
        }
        let Some(bounds) = bounds_of(input) else {
            return None;
        };
        let told = self.tell_by_tables(&mut cache.lazy, input, needles, bounds)?;
        Some(self.settle_sooner(input, told))
    }
}
