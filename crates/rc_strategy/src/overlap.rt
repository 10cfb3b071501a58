//! Overlapping search by states of the lazy DFA, which tell each pattern that ends at a position.

use crate::engines::Engines;
use rc_lazy_dfa::lazy;
use rc_pattern_set::sets::PatternSet;
use rc_text::cursor::Cursor;
use rc_text::input::{Input, low};
use rc_text::types::Anchored;

impl Engines {
    ghost use Rattle.std.specs.Prelude.{◌≤◌, IsTrue};
    ghost use Rattle.rc_text.specs.Text.{Keeps, high, low};
    ghost use Rattle.rc_pikevm.specs.PatternSpans.{AddsSpelled};
    ghost use Rattle.rc_pikevm_search.specs.Engine.{engine_search};
    ghost use Rattle.rc_strategy.specs.Caches.{IsCacheOfBoth, KeepsStates};
    ghost use Rattle.rc_strategy.specs.Starts.{AddsSome};

    /// Whether overlapping searches go by states: there is a lazy DFA of several patterns, and no
    /// literals by which searches go on.
    pub(crate) fn goes_overlapping(&self) -> bool {
        self.lazy.is_some() && self.patterns > 1 && self.guard().is_none()
    }

    /// Inserts each pattern that has a match, as far as the set can hold it. Returns false if some
    /// may be missing: there are no states for that, or they don't tell.
    pub(crate) fn mark_overlapping<C: Cursor>(
        &self,
        cache: &mut Option<lazy::Cache>,
        input: &mut Input<C>,
        set: &mut PatternSet,
    ) -> bool
        requires made { IsCacheOfBoth self.now.lazy cache.old }
        requires ordered { low input.old ≤ high input.old }
        ensures keeps { Keeps input.old input.new }
        ensures adds { AddsSome (engine_search self.now.engine input.old) set.old set.new }
        ensures all { IsTrue result
            → AddsSpelled (engine_search self.now.engine input.old) set.old set.new }
        ensures cache { KeepsStates self.now.lazy cache.old cache.new }
    {
        if !self.goes_overlapping() {
            return false;
        }
        let Some(tables) = &self.lazy else {
            return false;
        };
        let Some(states) = cache else {
            return false;
        };
        let anchored = input.get_anchored();
        if let Anchored::Pattern(_) = anchored {
            return false;
        }
        self.hold(input);
        let from = low(input);
        let all = tables.which_patterns(states, input, from, set);
        input.set_anchored(anchored);
        all
    }
}
