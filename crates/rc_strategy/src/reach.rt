//! Reaches: searches that tell how many bytes settle what they find.
ghost use Rattle.std.specs.Prelude.{◌≡◌, ◌+◌, ◌≤◌};
ghost use Rattle.std.specs.Option.{option_map};
ghost use Rattle.rc_text.specs.Found.{Found};
ghost use Rattle.rc_text.specs.Text.{slice_end};

use crate::cache::Cache;
use crate::engines::Engines;
use crate::pass::settle_by_pass;
use crate::question::Question;
use crate::route::{Route, TableChoice};
use rc_captures::captures;
use rc_captures::captures::Captures;
use rc_dense_dfa::dense::NoCache;
use rc_dfa::halves::Halves;
use rc_dfa_search::guarded::find_settled_guarded;
use rc_dfa_search::heads::find_settled_first;
use rc_dfa_search::reach::{Settled, find_settled, tells_reach};
use rc_dfa_search::search::Bounds;
use rc_lazy_dfa::lazy;
use rc_literals::guard::Guard;
use rc_needles::prefilter::Prefilter;
use rc_pikevm_search::literals::{guards_of, literals_of};
use rc_text::cursor::Cursor;
use rc_text::input::{Input, content_fits};
use rc_text::types::{Anchored, Match, MatchError, MatchKind, PatternID};

/// How many bytes after its own a symbol depends on, at most.
const SYMBOL_TAIL: usize = 3;

/// A search that may have looked at the end of the slice and the byte there.
#[inline(always)]
pub(crate) fn settled_at_end<C: Cursor>(input: &Input<C>, found: Option<Match>) -> Settled
    ensures found { result.found ≡ found }
    ensures far { slice_end input.now + 1 ≤ result.reach }
{
    content_fits(input);
    Settled {
        found,
        reach: usize::MAX,
    }
}

/// Returns the pattern of a match, if there is one.
fn pattern_of(found: Option<Match>) -> Option<PatternID>
    ensures { result ≡ option_map (λ (m : Found). m.pattern) found }
{
    match found {
        Some(found) => Some(found.pattern()),
        None => None,
    }
}

impl Engines {
    ghost use Rattle.std.specs.Prelude.{◌≡◌, ◌+◌, ◌≤◌, IfOk, IfSome, IsTrue, MatchOption, Some, length, true};
    ghost use Rattle.rc_text.specs.Bounds.{IsWithinBounds};
    ghost use Rattle.rc_text.specs.Text.{Keeps};
    ghost use Rattle.rc_text.specs.declared.types.Anchored.TheVariants.{No};
    ghost use Rattle.rc_captures.specs.Captures.{captures_names, captures_slots};
    ghost use Rattle.rc_program.specs.Kinds.{answer_by};
    ghost use Rattle.rc_program.specs.Places.{places_of};
    ghost use Rattle.rc_reach.specs.Settled.{IsWalkSettled};
    ghost use Rattle.rc_pikevm.specs.KindSlots.{slots_by};
    ghost use Rattle.rc_pikevm_search.specs.Tells.{TellsBy};
    ghost use Rattle.rc_needles.specs.Guards.{Guards};
    ghost use Rattle.rc_needles.specs.Needles.{longest};
    ghost use Rattle.rc_needles.specs.Prefilters.{needles_of};
    ghost use Rattle.rc_pikevm_search.specs.Engine.{engine_search};
    ghost use Rattle.rc_dfa_search.specs.Aims.{AreBounds};
    ghost use Rattle.rc_dfa_search.specs.Reaches.{IsAnswerBelow, TellsReach};
    ghost use Rattle.rc_strategy.specs.Caches.{IsCacheIn, IsCacheOfBoth, IsSameCacheIn, KeepsStates};
    ghost use Rattle.rc_strategy.specs.Lengths.{is_leftmost};
    ghost use Rattle.rc_strategy.specs.Lookahead.{IsNearBy};
    ghost use Rattle.rc_dfa.specs.Machine.{Alphabet};
    ghost use Rattle.rc_dfa_reach.specs.RunReach.{seen_to};
    ghost use Rattle.rc_strategy.specs.Tables.{AreHalvesFor, AreHalvesOver, aim_of};

    /// Whether a DFA search of this input tells its reach: it goes forwards, and the match is
    /// leftmost.
    #[inline(always)]
    pub(crate) fn tells_reach<C: Cursor>(&self, input: &Input<C>) -> bool
        ensures { IsTrue result → TellsReach (aim_of self.now.engine self.now.patterns) }
    {
        if !tells_reach(self.aim()) {
            return false;
        }
        match self.route(input) {
            Route::Along | Route::Unguarded | Route::FromStart => true,
            Route::FromEnd | Route::OfLength(_) => false,
        }
    }

    /// Returns the match by a DFA search that is anchored where it starts, if each match begins
    /// there, and how many bytes settle it. An `Err` says why the DFA has no answer.
    fn settle_from_start<H: Halves, C: Cursor>(
        &self,
        halves: &H,
        cache: &mut H::Cache,
        input: &mut Input<C>,
        bounds: Bounds,
    ) -> Result<Settled, MatchError>
        requires own { ∥ AreHalvesFor self.now.engine self.now.patterns (H.AreOf halves.now) ∥₁ }
        requires cache { H.IsCache halves.now cache.old }
        requires bounds { AreBounds input.old bounds }
        requires tells { TellsReach (aim_of self.now.engine self.now.patterns) }
        requires free { input.old.anchored ≡ No }
        requires begins { self.now.spans.begins ≡ true }
        ensures cache { H.IsCache halves.now cache.new }
        ensures keeps { Keeps input.old input.new }
        ensures settled { (alphabet : Alphabet)
            → ∥ AreHalvesOver alphabet self.now.engine self.now.patterns (H.AreOf halves.now) ∥₁
            → IfOk result (λ o. IsAnswerBelow self.now.engine.kind
            (engine_search self.now.engine input.old) (seen_to alphabet o.reach) o.found) }
        ensures within { IfOk result (λ o. IfSome o.found (IsWithinBounds input.old)) }
    {
        let aim = self.aim();
        let anchored = input.get_anchored();
        input.set_anchored(Anchored::Yes);
        let settled = find_settled(halves, cache, input, aim, bounds);
        input.set_anchored(anchored);
        settled
    }

    /// Returns the match by a DFA search from needle to needle, if each match begins with one, and how
    /// many bytes settle it. An `Err` says why the DFA has no answer.
    #[inline(never)]
    fn settle_by_needles<H: Halves, C: Cursor>(
        &self,
        halves: &H,
        cache: &mut H::Cache,
        input: &mut Input<C>,
        needles: &Prefilter,
        bounds: Bounds,
    ) -> Result<Settled, MatchError>
        requires own { ∥ AreHalvesFor self.now.engine self.now.patterns (H.AreOf halves.now) ∥₁ }
        requires cache { H.IsCache halves.now cache.old }
        requires bounds { AreBounds input.old bounds }
        requires tells { TellsReach (aim_of self.now.engine self.now.patterns) }
        requires guards { Guards (places_of self.now.engine.program.places.items)
            self.now.engine.program.terminator (needles_of needles.now) }
        requires longest { self.now.longest.prefix ≡ longest (needles_of needles.now) }
        ensures cache { H.IsCache halves.now cache.new }
        ensures keeps { Keeps input.old input.new }
        ensures settled { (alphabet : Alphabet)
            → ∥ AreHalvesOver alphabet self.now.engine self.now.patterns (H.AreOf halves.now) ∥₁
            → IfOk result (λ o. IsAnswerBelow self.now.engine.kind
            (engine_search self.now.engine input.old) (seen_to alphabet o.reach) o.found) }
        ensures within { IfOk result (λ o. IfSome o.found (IsWithinBounds input.old)) }
    {
        let guard = Guard::Begins(needles);
        let longest_len = self.longest.prefix;
        find_settled_guarded(halves, cache, input, self.aim(), guard, longest_len, bounds)
    }

    /// Returns the match by a DFA search along the text, from literal to literal if there are some,
    /// and how many bytes settle it. If the DFA quits where the search for the literals is slow, it
    /// searches once more, from one to the next. An `Err` says why the DFA has no answer.
    #[inline(always)]
    pub(crate) fn settle_forwards<H: Halves, C: Cursor>(
        &self,
        halves: &H,
        cache: &mut H::Cache,
        input: &mut Input<C>,
        bounds: Bounds,
    ) -> Result<Settled, MatchError>
        requires own { ∥ AreHalvesFor self.now.engine self.now.patterns (H.AreOf halves.now) ∥₁ }
        requires cache { H.IsCache halves.now cache.old }
        requires bounds { AreBounds input.old bounds }
        requires tells { TellsReach (aim_of self.now.engine self.now.patterns) }
        ensures cache { H.IsCache halves.now cache.new }
        ensures keeps { Keeps input.old input.new }
        ensures settled { (alphabet : Alphabet)
            → ∥ AreHalvesOver alphabet self.now.engine self.now.patterns (H.AreOf halves.now) ∥₁
            → IfOk result (λ o. IsAnswerBelow self.now.engine.kind
            (engine_search self.now.engine input.old) (seen_to alphabet o.reach) o.found) }
        ensures within { IfOk result (λ o. IfSome o.found (IsWithinBounds input.old)) }
    {
        let aim = self.aim();
        if let Some(guard) = self.guard() {
            let longest_len = self.longest.of_guard(guard);
            return find_settled_guarded(halves, cache, input, aim, guard, longest_len, bounds);
        }
        let settled = find_settled_first(halves, cache, input, aim, &self.tries, bounds);
        if let Err(MatchError::Quit { .. }) = settled {
            if let Some(needles) = guards_of(&self.engine.literals) {
                return self.settle_by_needles(halves, cache, input, needles, bounds);
            }
        }
        settled
    }

    /// Returns the match by a DFA search, by its route, and how many bytes settle it. An `Err` says
    /// why the DFA has no answer.
    #[inline(always)]
    fn settle<H: Halves, C: Cursor>(
        &self,
        halves: &H,
        cache: &mut H::Cache,
        input: &mut Input<C>,
        bounds: Bounds,
    ) -> Result<Settled, MatchError>
        requires own { ∥ AreHalvesFor self.now.engine self.now.patterns (H.AreOf halves.now) ∥₁ }
        requires cache { H.IsCache halves.now cache.old }
        requires bounds { AreBounds input.old bounds }
        requires tells { TellsReach (aim_of self.now.engine self.now.patterns) }
        ensures cache { H.IsCache halves.now cache.new }
        ensures keeps { Keeps input.old input.new }
        ensures settled { (alphabet : Alphabet)
            → ∥ AreHalvesOver alphabet self.now.engine self.now.patterns (H.AreOf halves.now) ∥₁
            → IfOk result (λ o. IsAnswerBelow self.now.engine.kind
            (engine_search self.now.engine input.old) (seen_to alphabet o.reach) o.found) }
        ensures within { IfOk result (λ o. IfSome o.found (IsWithinBounds input.old)) }
    {
        match self.route(input) {
            Route::FromStart => self.settle_from_start(halves, cache, input, bounds),
            _ => self.settle_forwards(halves, cache, input, bounds),
        }
    }

    /// Returns the match by the DFA, or else by the lazy DFA if the cache has its states, and how
    /// many bytes settle it. Returns None if there is neither, or it has no answer.
    #[inline(never)]
    pub(crate) fn settle_along<C: Cursor>(
        &self,
        cache: &mut Option<lazy::Cache>,
        input: &mut Input<C>,
        bounds: Bounds,
    ) -> Option<Settled>
        requires made { IsCacheOfBoth self.now.lazy cache.old }
        requires bounds { AreBounds input.old bounds }
        requires tells { TellsReach (aim_of self.now.engine self.now.patterns) }
        ensures keeps { Keeps input.old input.new }
        ensures settled { IfSome result (λ o. IsAnswerBelow self.now.engine.kind
            (engine_search self.now.engine input.old) o.reach o.found) }
        ensures within { IfSome result (λ o. IfSome o.found (IsWithinBounds input.old)) }
        ensures cache { KeepsStates self.now.lazy cache.old cache.new }
    {
        match self.table_choice(cache.is_some()) {
            TableChoice::AllStates(tables) => self.settle(tables, &mut NoCache, input, bounds).ok(),
            TableChoice::MetStates(tables) => {
                let Some(states) = cache else {
                    return None;
                };
                self.settle(tables, states, input, bounds).ok()
            }
            TableChoice::NoTables => None,
        }
    }

    /// Returns the match by the lazy DFA over symbols, if the cache has its states, and how many
    /// bytes settle it. Returns None if there is none, or it has no answer.
    #[inline(never)]
    fn settle_symbols<C: Cursor>(
        &self,
        cache: &mut Option<lazy::Cache>,
        input: &mut Input<C>,
        bounds: Bounds,
    ) -> Option<Settled>
        requires made { IsCacheOfBoth self.now.symbols cache.old }
        requires bounds { AreBounds input.old bounds }
        requires tells { TellsReach (aim_of self.now.engine self.now.patterns) }
        ensures keeps { Keeps input.old input.new }
        ensures settled { IfSome result (λ o. IsAnswerBelow self.now.engine.kind
            (engine_search self.now.engine input.old) o.reach o.found) }
        ensures within { IfSome result (λ o. IfSome o.found (IsWithinBounds input.old)) }
        ensures cache { KeepsStates self.now.symbols cache.old cache.new }
    {
        content_fits(input);
        let Some(tables) = &self.symbols else {
            return None;
        };
        let Some(states) = cache else {
            return None;
        };
        let settled = self.settle(tables, states, input, bounds).ok()?;
        Some(Settled {
            found: settled.found,
            reach: settled.reach.saturating_add(SYMBOL_TAIL),
        })
    }

    /// Returns the match by a DFA whose search doesn't tell how far it looked. Returns None if there is
    /// no DFA, or it has no answer.
    #[inline(never)]
    fn settle_at_end<C: Cursor>(
        &self,
        cache: &mut Cache,
        input: &mut Input<C>,
        bounds: Bounds,
    ) -> Option<Settled>
        requires made { IsCacheIn self.now 0 cache.old }
        requires bounds { AreBounds input.old bounds }
        ensures keeps { Keeps input.old input.new }
        ensures settled { IfSome result (λ o. IsAnswerBelow self.now.engine.kind
            (engine_search self.now.engine input.old) o.reach o.found) }
        ensures within { IfSome result (λ o. IfSome o.found (IsWithinBounds input.old)) }
        ensures cache { IsSameCacheIn self.now cache.old cache.new }
    {
        let found = self.ask_dfas(cache, input, Question::Match, bounds)?;
        Some(settled_at_end(input, found))
    }

    /// Returns the match by a DFA, and how many bytes settle it: those at which a search forwards
    /// looked, if the match is leftmost. Returns None if there is no DFA, or it has no answer.
    #[inline(always)]
    fn settle_by_tables<C: Cursor>(
        &self,
        cache: &mut Cache,
        input: &mut Input<C>,
        bounds: Bounds,
    ) -> Option<Settled>
        requires made { IsCacheIn self.now 0 cache.old }
        requires bounds { AreBounds input.old bounds }
        ensures keeps { Keeps input.old input.new }
        ensures settled { IfSome result (λ o. IsAnswerBelow self.now.engine.kind
            (engine_search self.now.engine input.old) o.reach o.found) }
        ensures within { IfSome result (λ o. IfSome o.found (IsWithinBounds input.old)) }
        ensures cache { IsSameCacheIn self.now cache.old cache.new }
    {
        if self.tells_reach(input) {
            if let Some(settled) = self.settle_along(&mut cache.lazy, input, bounds) {
                return Some(settled);
            }
            return self.settle_symbols(&mut cache.symbols, input, bounds);
        }
        self.settle_at_end(cache, input, bounds)
    }

    /// Returns the match by the Pike VM, and how many bytes settle it.
    #[inline(never)]
    fn settle_past_tables<C: Cursor>(&self, cache: &mut Cache, input: &mut Input<C>) -> Settled
        requires made { IsCacheIn self.now 0 cache.old }
        ensures keeps { Keeps input.old input.new }
        ensures settled { IsAnswerBelow self.now.engine.kind
            (engine_search self.now.engine input.old) result.reach result.found }
        ensures within { IfSome result.found (IsWithinBounds input.old) }
        ensures cache { IsSameCacheIn self.now cache.old cache.new }
    {
        settle_by_pass(&self.engine, &mut cache.pass, input)
    }

    /// Returns the match by an engine, and how many bytes settle it as far as that engine tells. It
    /// allocates nothing but states that the lazy DFA reaches for the first time, within the
    /// cache's capacity.
    #[inline(always)]
    fn settle_by_engine<C: Cursor>(&self, cache: &mut Cache, input: &mut Input<C>) -> Settled
        requires made { IsCacheIn self.now 0 cache.old }
        ensures keeps { Keeps input.old input.new }
        ensures settled { IsAnswerBelow self.now.engine.kind
            (engine_search self.now.engine input.old) result.reach result.found }
        ensures within { IfSome result.found (IsWithinBounds input.old) }
        ensures cache { IsSameCacheIn self.now cache.old cache.new }
    {
        if literals_of(&self.engine.literals, self.engine.kind).is_some() {
            return settle_by_pass(&self.engine, &mut cache.pass, input);
        }
        let Some(bounds) = self.spans.bounds(input) else {
            return settled_at_end(input, None);
        };
        if let Some(settled) = self.settle_by_tables(cache, input, bounds) {
            return settled;
        }
        self.settle_past_tables(cache, input)
    }

    /// Returns how many bytes settle a leftmost match, if no match has more than `longest` bytes:
    /// as many as the longest match from its start has, and those after them at which assertions
    /// look.
    #[inline(always)]
    fn reach_of_length<C: Cursor>(&self, input: &Input<C>, found: Match, longest: usize) -> usize
        requires answer { Some found
            ≡ answer_by self.now.engine.kind (engine_search self.now.engine input.now) }
        requires leftmost { is_leftmost self.now.engine.kind ≡ true }
        requires longest { self.now.spans.greatest ≡ Some longest }
        ensures settled { IsAnswerBelow self.now.engine.kind
            (engine_search self.now.engine input.now) result (Some found) }
        ensures near { result ≤ found.start + longest + self.now.lookahead }
    {
        content_fits(input);
        let end = found.start().saturating_add(longest);
        end.saturating_add(self.lookahead)
    }

    /// Returns how many bytes settle what a search of the input found, by the greatest length of
    /// the matches, if that is fewer bytes.
    #[inline(always)]
    pub(crate) fn least_reach<C: Cursor>(&self, input: &Input<C>, settled: Settled) -> usize
        requires settled { IsAnswerBelow self.now.engine.kind
            (engine_search self.now.engine input.now) settled.reach settled.found }
        ensures settled { IsAnswerBelow self.now.engine.kind
            (engine_search self.now.engine input.now) result settled.found }
        ensures near { IsNearBy self.now.engine.kind self.now.spans.greatest self.now.lookahead
            settled.found result }
    {
        let (Some(found), Some(longest)) = (settled.found, self.spans.greatest_length()) else {
            return settled.reach;
        };
        match self.engine.kind {
            MatchKind::All => settled.reach,
            MatchKind::LeftmostFirst | MatchKind::LeftmostLongest => self
                .reach_of_length(input, found, longest)
                .min(settled.reach),
        }
    }

    /// Returns the match that `find` returns, and how many bytes settle it. It allocates nothing
    /// but states that the lazy DFA reaches for the first time, within the cache's capacity.
    #[inline(always)]
    pub fn find_settled<C: Cursor>(&self, cache: &mut Cache, input: &mut Input<C>) -> Settled
        requires made { IsCacheIn self.now 0 cache.old }
        ensures keeps { Keeps input.old input.new }
        ensures settled { IsAnswerBelow self.now.engine.kind
            (engine_search self.now.engine input.old) result.reach result.found }
        ensures past { IfSome result.found (λ m. m.end ≤ result.reach) }
        ensures near { IsNearBy self.now.engine.kind self.now.spans.greatest self.now.lookahead
            result.found result.reach }
        ensures within { IfSome result.found (IsWithinBounds input.old) }
        ensures cache { IsSameCacheIn self.now cache.old cache.new }
    {
        let settled = self.settle_by_engine(cache, input);
        Settled {
            found: settled.found,
            reach: self.least_reach(input, settled),
        }
    }

    /// Returns the match that `find` returns, and writes the first of its slots. Without a match
    /// the slots stay as they are. Returns also how many bytes settle the match and its groups:
    /// those that settle the match, and those after its end at which assertions look. It allocates
    /// only what `find` does.
    fn settle_slots<C: Cursor>(
        &self,
        cache: &mut Cache,
        input: &mut Input<C>,
        slots: &mut [Option<usize>],
    ) -> Settled
        requires made { IsCacheIn self.now (length slots.old) cache.old }
        ensures keeps { Keeps input.old input.new }
        ensures answer { result.found
            ≡ answer_by self.now.engine.kind (engine_search self.now.engine input.old) }
        ensures settled { IsWalkSettled self.now.engine.kind result.reach
            (engine_search self.now.engine input.old) }
        ensures past { IfSome result.found (λ m. m.end ≤ result.reach) }
        ensures near { IsNearBy self.now.engine.kind self.now.spans.greatest self.now.lookahead
            result.found result.reach }
        ensures within { IfSome result.found (IsWithinBounds input.old) }
        ensures long { length slots.new ≡ length slots.old }
        ensures slots { MatchOption result.found
            (slots.new ≡ slots.old)
            (λ _. Some slots.new ≡ slots_by self.now.engine.kind
            (engine_search self.now.engine input.old) (length slots.old)) }
        ensures cache { IsSameCacheIn self.now cache.old cache.new }
    {
        let settled = self.find_settled(cache, input);
        let Some(found) = settled.found else {
            return settled;
        };
        content_fits(input);
        self.fill_slots(&mut cache.pass, input, found, slots);
        let groups = found.end().saturating_add(self.lookahead);
        Settled {
            found: settled.found,
            reach: settled.reach.max(groups),
        }
    }

    /// Writes the match that a search finds, with its groups, into captures of the program's
    /// patterns, as `find_captures` does. Returns the match, and how many bytes settle it and its
    /// groups. It allocates only what `find` does.
    pub fn settle_captures<C: Cursor>(
        &self,
        cache: &mut Cache,
        input: &mut Input<C>,
        caps: &mut Captures,
    ) -> Settled
        requires made { IsCacheIn self.now (length (captures_slots caps.old)) cache.old }
        ensures keeps { Keeps input.old input.new }
        ensures names { captures_names caps.new ≡ captures_names caps.old }
        ensures long { length (captures_slots caps.new) ≡ length (captures_slots caps.old) }
        ensures told { TellsBy self.now.engine.kind
            (engine_search self.now.engine input.old) caps.new }
        ensures answer { result.found
            ≡ answer_by self.now.engine.kind (engine_search self.now.engine input.old) }
        ensures settled { IsWalkSettled self.now.engine.kind result.reach
            (engine_search self.now.engine input.old) }
        ensures past { IfSome result.found (λ m. m.end ≤ result.reach) }
        ensures near { IsNearBy self.now.engine.kind self.now.spans.greatest self.now.lookahead
            result.found result.reach }
        ensures within { IfSome result.found (IsWithinBounds input.old) }
        ensures cache { IsSameCacheIn self.now cache.old cache.new }
    {
        captures::clear(caps);
        let settled = self.settle_slots(cache, input, caps.slots_mut());
        let pattern = pattern_of(settled.found);
        captures::set_pattern(caps, pattern);
        settled
    }
}
