//! Search over symbols: bytes past ASCII, each with what is known of its character. Where some byte
//! may not be read alone, as at assertions that depend on Unicode words, the DFA and the lazy DFA
//! quit. The lazy DFA over symbols reads on.

ghost use Rattle.rc_text.specs.Text.{Keeps};

use crate::cache::Cache;
use crate::engines::Engines;
use crate::question::Question;
use crate::route::Route;
use crate::search::SHORT;
use rc_dfa_search::literals::find_by_guard;
use rc_dfa_search::search::Bounds;
use rc_lazy_dfa::lazy;
use rc_literals::guard::Guard;
use rc_pikevm_search::literals::guards_of;
use rc_text::cursor::Cursor;
use rc_text::input::{Input, byte_at};
use rc_text::types::Match;
use std::alloc::{AllocError, Global};

/// How many searches ask the lazy DFA over symbols first, once the others quit.
const TURNS: u8 = 8;

/// So many bytes from the start of its search on a match is near.
const NEAR: usize = 256;

/// Whether this byte of the content is past ASCII.
fn is_past_ascii<C: Cursor>(input: &mut Input<C>, at: usize) -> bool
    ensures { Keeps input.old input.new }
{
    match byte_at(input, at) {
        Some(byte) => byte > 127,
        None => false,
    }
}

impl Engines {
    ghost use Rattle.std.specs.Prelude.{◌≡◌, IfOk, IfSome, is_some};
    ghost use Rattle.rc_text.specs.Bounds.{IsWithinBounds};
    ghost use Rattle.rc_pikevm_search.specs.Engine.{engine_search};
    ghost use Rattle.rc_dfa_search.specs.Aims.{AreBounds};
    ghost use Rattle.rc_strategy.specs.Caches.{IsCacheOfBoth, IsSameCacheIn, KeepsStates};
    ghost use Rattle.rc_strategy.specs.Questions.{IsReply};

    /// A cache for the lazy DFA over symbols, if there is one. `Err` means out of memory.
    pub(crate) fn symbols_cache(&self, alloc: Global) -> Result<Option<lazy::Cache>, AllocError>
        ensures made { IfOk result (IsCacheOfBoth self.now.symbols) }
        ensures both { IfOk result (λ cache. is_some cache ≡ is_some self.now.symbols) }
    {
        let Some(tables) = &self.symbols else {
            return Ok(None);
        };
        let states = tables.create_cache(alloc)?;
        Ok(Some(states))
    }

    /// A cache for the lazy DFA over symbols, if a search is to use it: the bounds are at least
    /// `SHORT` bytes apart. `Err` means out of memory.
    pub(crate) fn symbols_for(
        &self,
        alloc: Global,
        bounds: Bounds,
    ) -> Result<Option<lazy::Cache>, AllocError>
        ensures made { IfOk result (IsCacheOfBoth self.now.symbols) }
    {
        if bounds.high.saturating_sub(bounds.low) < SHORT {
            return Ok(None);
        }
        self.symbols_cache(alloc)
    }

    /// Replies by the lazy DFA over symbols, if the cache has its states. For the match it goes from
    /// one prefix literal to the next, however slow the search for them is: to read on over symbols
    /// would take longer. Returns None if there is no such DFA, or it has no answer.
    #[inline(always)]
    pub(crate) fn ask_symbols<C: Cursor>(
        &self,
        cache: &mut Option<lazy::Cache>,
        input: &mut Input<C>,
        question: Question,
        bounds: Bounds,
    ) -> Option<Option<Match>>
        requires made { IsCacheOfBoth self.now.symbols cache.old }
        requires bounds { AreBounds input.old bounds }
        ensures keeps { Keeps input.old input.new }
        ensures reply { IfSome result (IsReply question self.now.engine.kind
            (engine_search self.now.engine input.old)) }
        ensures within { IfSome result (λ found. IfSome found (IsWithinBounds input.old)) }
        ensures cache { KeepsStates self.now.symbols cache.old cache.new }
    {
        let Some(tables) = &self.symbols else {
            return None;
        };
        let Some(states) = cache else {
            return None;
        };
        let needles = guards_of(&self.engine.literals);
        match (self.route(input), question, needles) {
            (Route::Unguarded, Question::Match, Some(needles)) => {
                let guard = Guard::Begins(needles);
                find_by_guard(tables, states, input, self.aim(), guard, bounds).ok()
            }
            (Route::Unguarded, Question::Match, None) => {
                self.find_unguarded(tables, states, input, bounds).ok()
            }
            _ => self.ask_by_route(tables, states, input, question, bounds),
        }
    }

    /// Whether literals lead the DFA and the lazy DFA on.
    #[inline(always)]
    pub(crate) fn has_literals(&self) -> bool {
        self.words.is_some() || self.needs.is_some() || guards_of(&self.engine.literals).is_some()
    }

    /// Whether the DFA and the lazy DFA quit where the search begins: the byte there or the one before
    /// it is past ASCII, which they may not read if there is a lazy DFA over symbols, and no literals
    /// lead them on.
    fn quits_at_once<C: Cursor>(&self, input: &mut Input<C>, bounds: Bounds) -> bool
        ensures { Keeps input.old input.new }
    {
        if self.has_literals() {
            return false;
        }
        if bounds.low > 0 && is_past_ascii(input, bounds.low - 1) {
            return true;
        }
        is_past_ascii(input, bounds.low)
    }

    /// Whether the lazy DFA over symbols is asked first: so many turns are left, or this is the last
    /// and the others quit at once.
    #[inline(always)]
    fn goes_by_symbols<C: Cursor>(&self, turns: u8, input: &mut Input<C>, bounds: Bounds) -> bool
        ensures { Keeps input.old input.new }
    {
        match turns {
            0 => false,
            1 => self.quits_at_once(input, bounds),
            _ => true,
        }
    }

    /// Returns how many of the next searches ask the lazy DFA over symbols first, once it was asked and
    /// told this. They are several while its matches are near, and no literals lead the others on.
    #[inline(always)]
    fn turns_after(&self, turns: u8, told: &Option<Option<Match>>, bounds: Bounds) -> u8 {
        let Some(found) = told else {
            return 0;
        };
        let Some(found) = found else {
            return 1;
        };
        if turns > 1 {
            return turns - 1;
        }
        if found.end().saturating_sub(bounds.low) > NEAR || self.has_literals() {
            return 1;
        }
        TURNS
    }

    /// Replies as `ask_tables` does, or else by the lazy DFA over symbols. If that replied to some of
    /// the last searches, it alone is asked: the others would quit soon. Returns None if there is no
    /// DFA, or none has an answer.
    #[inline(always)]
    pub(crate) fn ask_dfas<C: Cursor>(
        &self,
        cache: &mut Cache,
        input: &mut Input<C>,
        question: Question,
        bounds: Bounds,
    ) -> Option<Option<Match>>
        requires made { IsCacheOfBoth self.now.lazy cache.old.lazy }
        requires symbols { IsCacheOfBoth self.now.symbols cache.old.symbols }
        requires bounds { AreBounds input.old bounds }
        ensures keeps { Keeps input.old input.new }
        ensures reply { IfSome result (IsReply question self.now.engine.kind
            (engine_search self.now.engine input.old)) }
        ensures within { IfSome result (λ found. IfSome found (IsWithinBounds input.old)) }
        ensures cache { IsSameCacheIn self.now cache.old cache.new }
    {
        let turns = cache.symbols_turns;
        if !self.goes_by_symbols(turns, input, bounds) {
            if let Some(found) = self.ask_tables(&mut cache.lazy, input, question, bounds) {
                cache.symbols_turns = 0;
                return Some(found);
            }
        }
        let told = self.ask_symbols(&mut cache.symbols, input, question, bounds);
        cache.symbols_turns = self.turns_after(turns, &told, bounds);
        told
    }
}
