//! Overlapping search: which patterns have a match. If a DFA or literals alone can tell where the
//! next match begins, the Pike VM begins there. Positions are in bytes of the whole content.
ghost use Rattle.std.specs.Prelude.{◌<◌, ℕ, IsTrue, Some, length};
ghost use Rattle.rc_text.specs.Text.{Keeps};
ghost use Rattle.rc_pattern_set.specs.Sets.{Has};
ghost use Rattle.rc_program.specs.Places.{places_of};
ghost use Rattle.rc_pikevm.specs.PatternSpans.{AddsSpelled, AreOfFirst};
ghost use Rattle.rc_pikevm_search.specs.Engine.{engine_search, IsEngineCache, IsSameCache};
ghost use Rattle.rc_strategy.specs.Starts.{IsFirstStart};

use crate::cache::Cache;
use crate::engines::Engines;
use crate::question::Question;
use rc_dfa_search::search::Bounds;
use rc_literals::marks::mark_owners;
use rc_pattern_set::sets::PatternSet;
use rc_pikevm::cache;
use rc_pikevm::which::which_patterns;
use rc_pikevm_search::literals::{guards_of, literals_of};
use rc_text::cursor::Cursor;
use rc_text::input::Input;
use rc_text::types::{Match, MatchKind, PatternID};

/// Inserts each of `patterns` patterns that has a match, as far as the set can hold it, by a pass.
/// It goes from prefix literal to prefix literal, and is anchored if each match begins where the
/// search does.
pub(crate) fn mark<C: Cursor>(
    engines: &Engines,
    cache: &mut cache::Cache,
    input: &mut Input<C>,
    patterns: usize,
    set: &mut PatternSet,
)
    requires first { AreOfFirst patterns (places_of engines.now.engine.program.places.items) }
    requires made { IsEngineCache engines.now.engine 0 cache.old }
    ensures keeps { Keeps input.old input.new }
    ensures adds { AddsSpelled (engine_search engines.now.engine input.old) set.old set.new }
    ensures cache { IsSameCache cache.old cache.new }
{
    let engine = &engines.engine;
    let needles = guards_of(&engine.literals);
    let anchored = input.get_anchored();
    engines.hold(input);
    which_patterns(cache, input, &engine.program, needles, patterns, set);
    input.set_anchored(anchored);
}

/// Inserts what `mark` does, by a pass from `start` on: no walk begins earlier. The input's span
/// stays as it is.
fn mark_from<C: Cursor>(
    engines: &Engines,
    cache: &mut cache::Cache,
    input: &mut Input<C>,
    patterns: usize,
    start: usize,
    set: &mut PatternSet,
)
    requires first { AreOfFirst patterns (places_of engines.now.engine.program.places.items) }
    requires made { IsEngineCache engines.now.engine 0 cache.old }
    requires start { IsFirstStart (engine_search engines.now.engine input.old) (Some start) }
    ensures keeps { Keeps input.old input.new }
    ensures adds { AddsSpelled (engine_search engines.now.engine input.old) set.old set.new }
    ensures cache { IsSameCache cache.old cache.new }
{
    let span = input.get_span();
    input.set_start(start);
    mark(engines, cache, input, patterns, set);
    input.set_span(span);
}

/// Whether the set has each of this many patterns that it can hold.
pub(crate) fn has_all(set: &PatternSet, patterns: usize) -> bool
    ensures { IsTrue result → (p : ℕ) → p < patterns → p < length set.now → Has set.now p }
{
    for number in 0..patterns.min(set.capacity()) {
        let Some(pattern) = PatternID::new(number) else {
            return false;
        };
        if !set.contains(pattern) {
            return false;
        }
    }
    true
}

impl Engines {
    ghost use Rattle.std.specs.Prelude.{◌≡◌, ◌≤◌, false, IfSome, IsTrue};
    ghost use Rattle.rc_text.specs.Text.{Keeps};
    ghost use Rattle.rc_dfa_search.specs.Aims.{AreBounds};
    ghost use Rattle.rc_program.specs.Kinds.{answer_by};
    ghost use Rattle.rc_program.specs.Places.{places_of};
    ghost use Rattle.rc_pikevm_search.specs.Engine.{engine_search};
    ghost use Rattle.rc_strategy.specs.Caches.{IsCacheIn, IsSameCacheIn};
    ghost use Rattle.rc_strategy.specs.Limits.{NoneServe};
    ghost use Rattle.rc_strategy.specs.Starts.{IsFirstStart, unpassed};
    ghost use Rattle.rc_pikevm.specs.PatternSpans.{AddsSpelled, AreOfFirst};

    /// Returns the match by literals alone, or by a DFA, as if no match were passed over. Returns
    /// None if there is neither, or it has no answer.
    pub(crate) fn find_told<C: Cursor>(
        &self,
        cache: &mut Cache,
        input: &mut Input<C>,
    ) -> Option<Option<Match>>
        requires made { IsCacheIn self.now 0 cache.old }
        ensures keeps { Keeps input.old input.new }
        ensures found { IfSome result (λ found. found ≡ answer_by self.now.engine.kind
            (unpassed (engine_search self.now.engine input.old))) }
        ensures cache { IsSameCacheIn self.now cache.old cache.new }
    {
        if self.engine.program.passes_over {
            return self.find_unpassed(cache, input);
        }
        if literals_of(&self.engine.literals, self.engine.kind).is_some() {
            return Some(self.engine.find(&mut cache.pass, input));
        }
        let Some(bounds) = self.spans.bounds(input) else {
            return Some(None);
        };
        self.ask_dfas(cache, input, Question::Match, bounds)
    }

    /// Returns from where on a pass finds each walk: none begins earlier. Returns None if there is
    /// no walk.
    ///
    /// The leftmost-first match begins at the least start of all walks, and so does the
    /// leftmost-longest. With `MatchKind::All`, a DFA only finds out whether there is a match.
    fn least_start<C: Cursor>(
        &self,
        cache: &mut Cache,
        input: &mut Input<C>,
        bounds: Bounds,
    ) -> Option<usize>
        requires made { IsCacheIn self.now 0 cache.old }
        requires bounds { AreBounds input.old bounds }
        ensures keeps { Keeps input.old input.new }
        ensures first { IsFirstStart (engine_search self.now.engine input.old) result }
        ensures cache { IsSameCacheIn self.now cache.old cache.new }
    {
        match self.engine.kind {
            MatchKind::LeftmostFirst | MatchKind::LeftmostLongest => match self.find_told(
                cache, input,
            ) {
                Some(Some(found)) => Some(found.start()),
                Some(None) => None,
                None => Some(bounds.low),
            },
            MatchKind::All => match self.ask_dfas(cache, input, Question::Any, bounds) {
                Some(None) => None,
                _ => Some(bounds.low),
            },
        }
    }

    /// Inserts each pattern that has a match, as far as the set can hold it, by literals that alone
    /// decide each answer.
    fn mark_by_literals<C: Cursor>(&self, input: &mut Input<C>, set: &mut PatternSet)
        requires literals { NoneServe self.now.engine }
        requires all { self.now.engine.program.passes_over ≡ false }
        ensures keeps { Keeps input.old input.new }
        ensures adds { AddsSpelled (engine_search self.now.engine input.old) set.old set.new }
    {
        if let Some(needles) = literals_of(&self.engine.literals, self.engine.kind) {
            mark_owners(input, needles, set);
        }
    }

    /// Whether literals alone decide each answer, and none is passed over.
    fn goes_by_literals(&self) -> bool
        ensures { IsTrue result → NoneServe self.now.engine
            × (self.now.engine.program.passes_over ≡ false) }
    {
        if self.engine.program.passes_over {
            return false;
        }
        literals_of(&self.engine.literals, self.engine.kind).is_some()
    }

    /// Inserts the only pattern that there is, if it has a match and the set can hold it.
    fn mark_only<C: Cursor>(&self, cache: &mut Cache, input: &mut Input<C>, set: &mut PatternSet)
        requires made { IsCacheIn self.now 0 cache.old }
        requires first { AreOfFirst 1 (places_of self.now.engine.program.places.items) }
        ensures keeps { Keeps input.old input.new }
        ensures adds { AddsSpelled (engine_search self.now.engine input.old) set.old set.new }
        ensures cache { IsSameCacheIn self.now cache.old cache.new }
    {
        if !self.engine.program.passes_over {
            if self.is_match(cache, input) {
                set.insert(PatternID::ZERO);
            }
            return;
        }
        match self.find_told(cache, input) {
            Some(Some(_)) => {
                set.insert(PatternID::ZERO);
            }
            Some(None) => {}
            None => mark(self, &mut cache.pass, input, 1, set),
        }
    }

    /// Inserts each pattern, of `patterns` that there are, that has a match within the bounds, as
    /// far as the set can hold it. The set keeps what it has. Memory grows only in the cache of the
    /// lazy DFA, within its capacity; if it can't, a pass answers.
    ///
    /// If the set has each pattern that it can hold, or the lengths and anchors of the patterns
    /// rule a match out between the bounds, nothing is searched. If literals alone decide each
    /// answer, they are searched for. With one pattern, a search decides. If no literals guard the
    /// patterns, the lazy DFA's states tell all that end at a position. Else a search finds where
    /// the first match begins, if there is one, and a pass from there on finds all patterns with a
    /// match; for a leftmost kind, passes go from start to start while matches are few. Matches
    /// that other searches pass over count here.
    pub fn which_patterns<C: Cursor>(
        &self,
        cache: &mut Cache,
        input: &mut Input<C>,
        patterns: usize,
        set: &mut PatternSet,
    )
        requires made { IsCacheIn self.now 0 cache.old }
        requires first { AreOfFirst patterns (places_of self.now.engine.program.places.items) }
        ensures keeps { Keeps input.old input.new }
        ensures adds { AddsSpelled (engine_search self.now.engine input.old) set.old set.new }
        ensures cache { IsSameCacheIn self.now cache.old cache.new }
    {
        if has_all(set, patterns) {
            return;
        }
        let Some(bounds) = self.spans.bounds(input) else {
            return;
        };
        if self.goes_by_literals() {
            self.mark_by_literals(input, set);
            return;
        }
        if patterns == 1 {
            self.mark_only(cache, input, set);
            return;
        }
        if self.mark_overlapping(&mut cache.lazy, input, set) {
            return;
        }
        self.mark_by_passes(cache, input, patterns, bounds, set);
    }

    /// Inserts each pattern that has a match, as far as the set can hold it, by passes: from start
    /// to start for a leftmost kind, else one from where the first match may begin.
    fn mark_by_passes<C: Cursor>(
        &self,
        cache: &mut Cache,
        input: &mut Input<C>,
        patterns: usize,
        bounds: Bounds,
        set: &mut PatternSet,
    )
        requires made { IsCacheIn self.now 0 cache.old }
        requires first { AreOfFirst patterns (places_of self.now.engine.program.places.items) }
        requires bounds { AreBounds input.old bounds }
        ensures keeps { Keeps input.old input.new }
        ensures adds { AddsSpelled (engine_search self.now.engine input.old) set.old set.new }
        ensures cache { IsSameCacheIn self.now cache.old cache.new }
    {
        if self.seeks_starts(input) {
            self.mark_by_starts(cache, input, patterns, set);
            return;
        }
        if let Some(start) = self.least_start(cache, input, bounds) {
            mark_from(self, &mut cache.pass, input, patterns, start, set);
        }
    }
}
