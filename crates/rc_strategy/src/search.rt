//! The search: from the engines down to a DFA or the Pike VM, for each question.

use crate::cache::Cache;
use crate::engines::Engines;
use crate::pass::ask_pass;
use crate::question::{Question, at_end};
use crate::route::{Route, TableChoice};
use rc_dense_dfa::dense::NoCache;
use rc_dfa::halves::Halves;
use rc_dfa_search::guarded::find_end_guarded;
use rc_dfa_search::here::find_here_first;
use rc_dfa_search::literals::find_by_guard;
use rc_dfa_search::search::{Aim, Bounds, find_between, find_end_between, find_to_end};
use rc_lazy_dfa::lazy;
use rc_literals::guard::Guard;
use rc_text::cursor::Cursor;
use rc_text::input::Input;
use rc_text::types::{Anchored, Match, MatchError, MatchKind, Span};
use std::alloc::{AllocError, Global};

/// If a lazy DFA's cache would have to be made, the Pike VM searches instead if the bounds are
/// fewer bytes apart: building states takes longer than a pass over so few bytes.
pub(crate) const SHORT: usize = 1024;

impl Engines {
    ghost use Rattle.std.specs.Prelude.{◌≡◌, true, IfOk, IfSome, IsTrue};
    ghost use Rattle.rc_text.specs.Bounds.{IsWithinBounds};
    ghost use Rattle.rc_text.specs.Text.{Keeps};
    ghost use Rattle.rc_text.specs.declared.types.Anchored.TheVariants.{No};
    ghost use Rattle.rc_program.specs.Kinds.{answer_by};
    ghost use Rattle.rc_pikevm_search.specs.Engine.{engine_search};
    ghost use Rattle.rc_dfa_search.specs.Aims.{AreBounds};
    ghost use Rattle.rc_strategy.specs.Caches.{IsCacheIn, IsCacheOfBoth, IsSameCacheIn, KeepsStates};
    ghost use Rattle.rc_strategy.specs.Lengths.{IsOneLength, is_leftmost};
    ghost use Rattle.rc_strategy.specs.Questions.{IsForwards, IsReply, may_stop};
    ghost use Rattle.rc_strategy.specs.Routes.{MayGuard};
    ghost use Rattle.rc_strategy.specs.Tables.{AreHalvesFor, aim_of};

    /// Returns what a DFA search is for that serves a question.
    #[inline(always)]
    fn aim_for(&self, question: Question) -> Aim
        ensures { result ≡ record (aim_of self.now.engine self.now.patterns)
            { earliest = may_stop question } }
    {
        Aim {
            earliest: question.may_stop(),
            ..self.aim()
        }
    }

    /// Replies by a DFA search that is anchored where it starts, if each match begins there. An
    /// `Err` says why the DFA has no answer.
    fn ask_from_start<H: Halves, C: Cursor>(
        &self,
        halves: &H,
        cache: &mut H::Cache,
        input: &mut Input<C>,
        question: Question,
        bounds: Bounds,
    ) -> Result<Option<Match>, MatchError>
        requires own { ∥ AreHalvesFor self.now.engine self.now.patterns (H.AreOf halves.now) ∥₁ }
        requires cache { H.IsCache halves.now cache.old }
        requires bounds { AreBounds input.old bounds }
        requires free { input.old.anchored ≡ No }
        requires begins { self.now.spans.begins ≡ true }
        ensures cache { H.IsCache halves.now cache.new }
        ensures keeps { Keeps input.old input.new }
        ensures reply { IfOk result (IsReply question self.now.engine.kind
            (engine_search self.now.engine input.old)) }
        ensures within { IfOk result (λ found. IfSome found (IsWithinBounds input.old)) }
    {
        let aim = self.aim_for(question);
        let anchored = input.get_anchored();
        input.set_anchored(Anchored::Yes);
        let found = find_between(halves, cache, input, aim, bounds);
        input.set_anchored(anchored);
        found
    }

    /// Returns the match by a DFA search backwards from the end, if each match ends there: it has
    /// the least start that leads there. An `Err` says why the DFA has no answer.
    fn find_from_end<H: Halves, C: Cursor>(
        &self,
        halves: &H,
        cache: &mut H::Cache,
        input: &mut Input<C>,
        bounds: Bounds,
    ) -> Result<Option<Match>, MatchError>
        requires own { ∥ AreHalvesFor self.now.engine self.now.patterns (H.AreOf halves.now) ∥₁ }
        requires cache { H.IsCache halves.now cache.old }
        requires bounds { AreBounds input.old bounds }
        requires free { input.old.anchored ≡ No }
        requires ends { self.now.spans.ends ≡ true }
        ensures cache { H.IsCache halves.now cache.new }
        ensures keeps { Keeps input.old input.new }
        ensures found { IfOk result (λ found. found
            ≡ answer_by self.now.engine.kind (engine_search self.now.engine input.old)) }
        ensures within { IfOk result (λ found. IfSome found (IsWithinBounds input.old)) }
    {
        let aim = self.aim();
        match aim.kind {
            MatchKind::LeftmostFirst | MatchKind::LeftmostLongest => {
                find_to_end(halves, cache, input, aim, bounds)
            }
            MatchKind::All => {
                let all = Aim {
                    passes_over: false,
                    ..aim
                };
                find_to_end(halves, cache, input, all, bounds)
            }
        }
    }

    /// Whether a DFA search forwards alone replies: to the end of a leftmost match, or, without a
    /// guard, whether there is a match.
    #[inline(always)]
    fn is_forwards(&self, question: Question, guard: Option<Guard>) -> bool
        ensures { IsTrue result → IsForwards question self.now.engine.kind }
    {
        match (question, self.engine.kind) {
            (Question::Any, _) => guard.is_none(),
            (Question::End, MatchKind::LeftmostFirst | MatchKind::LeftmostLongest) => true,
            _ => false,
        }
    }

    /// Replies by a DFA search forwards alone, from literal to literal if there is a guard. An
    /// `Err` says why the DFA has no answer.
    #[inline(always)]
    fn ask_forwards<H: Halves, C: Cursor>(
        &self,
        halves: &H,
        cache: &mut H::Cache,
        input: &mut Input<C>,
        question: Question,
        guard: Option<Guard>,
        bounds: Bounds,
    ) -> Result<Option<Match>, MatchError>
        requires own { ∥ AreHalvesFor self.now.engine self.now.patterns (H.AreOf halves.now) ∥₁ }
        requires cache { H.IsCache halves.now cache.old }
        requires bounds { AreBounds input.old bounds }
        requires guards { MayGuard self.now.engine guard }
        requires forwards { IsForwards question self.now.engine.kind }
        ensures cache { H.IsCache halves.now cache.new }
        ensures keeps { Keeps input.old input.new }
        ensures reply { IfOk result (IsReply question self.now.engine.kind
            (engine_search self.now.engine input.old)) }
        ensures within { IfOk result (λ found. IfSome found (IsWithinBounds input.old)) }
    {
        let aim = self.aim_for(question);
        if let Some(guard) = guard {
            let guarded = find_end_guarded(halves, cache, input, aim, guard, bounds)?;
            return Ok(at_end(guarded));
        }
        let half = find_end_between(halves, cache, input, aim, bounds)?;
        Ok(at_end(half))
    }

    /// Returns the leftmost match, if each match has this length in bytes: its start is its end
    /// less the length, so nothing is searched backwards. An `Err` says why the DFA has no answer.
    fn find_of_length<H: Halves, C: Cursor>(
        &self,
        halves: &H,
        cache: &mut H::Cache,
        input: &mut Input<C>,
        length: usize,
        bounds: Bounds,
    ) -> Result<Option<Match>, MatchError>
        requires own { ∥ AreHalvesFor self.now.engine self.now.patterns (H.AreOf halves.now) ∥₁ }
        requires cache { H.IsCache halves.now cache.old }
        requires bounds { AreBounds input.old bounds }
        requires kind { is_leftmost self.now.engine.kind ≡ true }
        requires length { IsOneLength self.now.spans length }
        ensures cache { H.IsCache halves.now cache.new }
        ensures keeps { Keeps input.old input.new }
        ensures found { IfOk result (λ found. found
            ≡ answer_by self.now.engine.kind (engine_search self.now.engine input.old)) }
        ensures within { IfOk result (λ found. IfSome found (IsWithinBounds input.old)) }
    {
        let guard = self.guard();
        let Some(found) = self.ask_forwards(halves, cache, input, Question::End, guard, bounds)?
        else {
            return Ok(None);
        };
        let end = found.end();
        let start = end.saturating_sub(length);
        Ok(Some(Match::new(found.pattern(), Span { start, end })))
    }

    /// Returns the match by a DFA search along the text, without a guard. If each search finds a
    /// match where it begins, but some are passed over, an anchored run is tried first. An `Err`
    /// says why the DFA has no answer.
    #[inline(always)]
    pub(crate) fn find_unguarded<H: Halves, C: Cursor>(
        &self,
        halves: &H,
        cache: &mut H::Cache,
        input: &mut Input<C>,
        bounds: Bounds,
    ) -> Result<Option<Match>, MatchError>
        requires own { ∥ AreHalvesFor self.now.engine self.now.patterns (H.AreOf halves.now) ∥₁ }
        requires cache { H.IsCache halves.now cache.old }
        requires bounds { AreBounds input.old bounds }
        ensures cache { H.IsCache halves.now cache.new }
        ensures keeps { Keeps input.old input.new }
        ensures found { IfOk result (λ found. found
            ≡ answer_by self.now.engine.kind (engine_search self.now.engine input.old)) }
        ensures within { IfOk result (λ found. IfSome found (IsWithinBounds input.old)) }
    {
        if !self.tells_reach(input) {
            let aim = self.aim();
            if self.begins_at_once {
                return find_here_first(halves, cache, input, aim, bounds);
            }
            return find_between(halves, cache, input, aim, bounds);
        }
        let settled = self.settle_forwards(halves, cache, input, bounds)?;
        Ok(settled.found)
    }

    /// Replies by a DFA, by the route of the search. Along the text it goes from literal to literal
    /// if there is a guard, and the match may be near a slow prefix literal. Returns
    /// None if the DFA has no answer.
    #[inline(never)]
    pub(crate) fn ask_by_route<H: Halves, C: Cursor>(
        &self,
        halves: &H,
        cache: &mut H::Cache,
        input: &mut Input<C>,
        question: Question,
        bounds: Bounds,
    ) -> Option<Option<Match>>
        requires own { ∥ AreHalvesFor self.now.engine self.now.patterns (H.AreOf halves.now) ∥₁ }
        requires cache { H.IsCache halves.now cache.old }
        requires bounds { AreBounds input.old bounds }
        ensures cache { H.IsCache halves.now cache.new }
        ensures keeps { Keeps input.old input.new }
        ensures reply { IfSome result (IsReply question self.now.engine.kind
            (engine_search self.now.engine input.old)) }
        ensures within { IfSome result (λ found. IfSome found (IsWithinBounds input.old)) }
    {
        match (self.route(input), question) {
            (Route::Unguarded, Question::Match) => {
                return self.find_unguarded(halves, cache, input, bounds).ok();
            }
            (Route::FromStart, _) => {
                return self
                    .ask_from_start(halves, cache, input, question, bounds)
                    .ok();
            }
            (Route::FromEnd, _) => {
                return self.find_from_end(halves, cache, input, bounds).ok();
            }
            (Route::OfLength(length), Question::Match | Question::End) => {
                return self
                    .find_of_length(halves, cache, input, length, bounds)
                    .ok();
            }
            _ => {}
        }
        let guard = self.guard();
        if self.is_forwards(question, guard) {
            return self
                .ask_forwards(halves, cache, input, question, guard, bounds)
                .ok();
        }
        let aim = self.aim_for(question);
        if let Some(guard) = guard {
            return find_by_guard(halves, cache, input, aim, guard, bounds).ok();
        }
        find_between(halves, cache, input, aim, bounds).ok()
    }

    /// Replies by words if these decide, else by the DFA, or else by the lazy DFA if the cache has
    /// its states. Returns None if there is neither, or it has no answer.
    #[inline(always)]
    pub(crate) fn ask_tables<C: Cursor>(
        &self,
        cache: &mut Option<lazy::Cache>,
        input: &mut Input<C>,
        question: Question,
        bounds: Bounds,
    ) -> Option<Option<Match>>
        requires made { IsCacheOfBoth self.now.lazy cache.old }
        requires bounds { AreBounds input.old bounds }
        ensures keeps { Keeps input.old input.new }
        ensures reply { IfSome result (IsReply question self.now.engine.kind
            (engine_search self.now.engine input.old)) }
        ensures within { IfSome result (λ found. IfSome found (IsWithinBounds input.old)) }
        ensures cache { KeepsStates self.now.lazy cache.old cache.new }
    {
        if let Some(found) = self.ask_words(input, question) {
            return Some(found);
        }
        match self.table_choice(cache.is_some()) {
            TableChoice::AllStates(tables) => {
                self.ask_by_route(tables, &mut NoCache, input, question, bounds)
            }
            TableChoice::MetStates(tables) => {
                let Some(states) = cache else {
                    return None;
                };
                self.ask_by_route(tables, states, input, question, bounds)
            }
            TableChoice::NoTables => None,
        }
    }

    /// Replies to a question. If the lengths and anchors of the patterns rule a match out between
    /// the bounds, nothing is searched. Else literals decide if they alone can, else a DFA. If
    /// there is no DFA, or it quits, the lazy DFA over symbols searches, and else the Pike VM. It
    /// allocates nothing but states that a lazy DFA reaches for the first time, within the cache's
    /// capacity. If that is refused, the Pike VM searches.
    pub(crate) fn ask<C: Cursor>(
        &self,
        cache: &mut Cache,
        input: &mut Input<C>,
        question: Question,
    ) -> Option<Match>
        requires made { IsCacheIn self.now 0 cache.old }
        ensures keeps { Keeps input.old input.new }
        ensures reply { IsReply question self.now.engine.kind
            (engine_search self.now.engine input.old) result }
        ensures within { IfSome result (IsWithinBounds input.old) }
        ensures cache { IsSameCacheIn self.now cache.old cache.new }
    {
        let Some(bounds) = self.spans.bounds(input) else {
            return None;
        };
        if let Some(found) = self.ask_dfas(cache, input, question, bounds) {
            return found;
        }
        ask_pass(&self.engine, &mut cache.pass, input, question)
    }

    /// A cache for the lazy DFA, if a search is to use it: there is no DFA, and the bounds are at
    /// least `SHORT` bytes apart. `Err` means out of memory.
    fn states_for(&self, alloc: Global, bounds: Bounds) -> Result<Option<lazy::Cache>, AllocError>
        ensures made { IfOk result (IsCacheOfBoth self.now.lazy) }
    {
        let TableChoice::MetStates(tables) = self.table_choice(true) else {
            return Ok(None);
        };
        if bounds.high.saturating_sub(bounds.low) < SHORT {
            return Ok(None);
        }
        let states = tables.create_cache(alloc)?;
        Ok(Some(states))
    }

    /// Replies as `ask` does, with a cache that is made for this search. Only what the search needs
    /// is made: nothing for the DFA, and the Pike VM's lists only if no DFA has an answer. `Err`
    /// means out of memory.
    pub(crate) fn ask_once<C: Cursor>(
        &self,
        alloc: Global,
        input: &mut Input<C>,
        question: Question,
    ) -> Result<Option<Match>, AllocError>
        ensures keeps { Keeps input.old input.new }
        ensures reply { IfOk result (IsReply question self.now.engine.kind
            (engine_search self.now.engine input.old)) }
        ensures within { IfOk result (λ found. IfSome found (IsWithinBounds input.old)) }
    {
        let Some(bounds) = self.spans.bounds(input) else {
            return Ok(None);
        };
        let mut states = self.states_for(alloc, bounds)?;
        let told = self.ask_tables(&mut states, input, question, bounds);
        drop(states);
        if let Some(found) = told {
            return Ok(found);
        }
        let mut symbols = self.symbols_for(alloc, bounds)?;
        let told = self.ask_symbols(&mut symbols, input, question, bounds);
        drop(symbols);
        if let Some(found) = told {
            return Ok(found);
        }
        let mut cache = self.engine.create_cache(alloc, 0)?;
        let found = ask_pass(&self.engine, &mut cache, input, question);
        drop(cache);
        Ok(found)
    }
}
