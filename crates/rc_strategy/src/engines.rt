//! Meta strategy: the engines of some patterns, and the searches that choose among them.
ghost use Rattle.rc_text.specs.declared.types.Anchored.TheVariants.{No};
ghost use Rattle.rc_program.specs.Places.{places_of};
ghost use Rattle.rc_dfa.specs.Machine.{bytes, symbols as read_symbols};
ghost use Rattle.rc_dfa_search.specs.Firsts.{TellsOthers};
ghost use Rattle.rc_strategy.specs.Needed.{NeedsConfine};
ghost use Rattle.rc_strategy.specs.Routes.{AreLongest, Serves, ServesAll};
ghost use Rattle.rc_strategy.specs.Slots.{IsOfPatterns, MayBeOnePass, NamesGroups};
ghost use Rattle.rc_strategy.specs.Lengths.{BoundsWalks};
ghost use Rattle.rc_strategy.specs.Lookahead.{IsLookahead};
ghost use Rattle.rc_strategy.specs.Tables.{MayBeLazyFor, MayBeLazyOver, MayBeTablesFor, MayBeTablesOver};
ghost use Rattle.rc_strategy.specs.Worded.{AreSpelled};

use crate::at_once::begins_at_once;
use crate::cache::Cache;
use crate::lengths::Lengths;
use crate::lookahead::lookahead_of;
use crate::question::{Question, half_of};
use crate::route::{LongestLiterals, Route, anchored_route, free_route, tries_of};
use crate::tables::{are_fast, machines_of};
use crate::words::words_beside;
use rc_captures::captures;
use rc_captures::captures::Captures;
use rc_dense_dfa::dense::Dense;
use rc_dfa_search::heads::Tries;
use rc_dfa_search::search::Aim;
use rc_lazy_dfa::lazy::Lazy;
use rc_literals::guard::Needs;
use rc_onepass::onepass::OnePass;
use rc_pikevm_search::engine::Engine;
use rc_pikevm_search::literals::literals_of;
use rc_program::matches::is_again;
use rc_text::cursor::Cursor;
use rc_text::input::{Input, advance_start};
use rc_text::types::{Anchored, HalfMatch, Match, PatternID};
use rc_words::words::Words;
use std::alloc::{AllocError, Global};

/// Up to this many patterns, the Pike VM searches for a match together with its groups.
const FEW_PATTERNS: usize = 8;

/// Up to this many slots of groups, the Pike VM searches for a match together with its groups, if
/// walks begin at each position.
const FEW_SLOTS: usize = 16;

/// Which DFAs may be built.
#[derive(Clone, Copy, Debug, PartialEq, Eq)]
pub struct Limits {
    /// Whether the DFA may be built.
    pub dfa: bool,
    /// How many places the byte program may have for the DFA. None sets no limit.
    pub state_limit: Option<usize>,
    /// How many bytes the DFA's states may weigh in each direction. None sets no limit.
    pub size_limit: Option<usize>,
    /// Whether the lazy DFA may be built.
    pub hybrid: bool,
    /// How many bytes the lazy DFA's states may take in each direction, before all are dropped.
    pub capacity: usize,
    /// Whether bytes that no step distinguishes are one class.
    pub byte_classes: bool,
    /// Whether a lazy DFA over symbols may be built, for assertions that depend on Unicode words.
    pub unicode_words: bool,
}

/// The engines of some patterns: the DFA or the lazy DFA, if there is one, and the Pike VM.
pub struct Engines {
    /// The Pike VM, with its literals.
    pub engine: Engine,
    pub(crate) tables: Option<Dense>,
    pub(crate) lazy: Option<Lazy>,
    /// The lazy DFA over symbols, if some byte may not be read alone. It is asked where these quit.
    pub(crate) symbols: Option<Lazy>,
    /// The one-pass DFA, if there are groups whose slots it can set.
    pub(crate) onepass: Option<OnePass>,
    pub(crate) patterns: usize,
    pub(crate) spans: Lengths,
    /// Literals of which each match contains one, if searches go by them.
    pub(crate) needs: Option<Needs>,
    /// Literals between two assertions, if they decide searches.
    pub(crate) words: Option<Words>,
    /// Whether the search for the prefix literals is fast.
    pub(crate) sought_fast: bool,
    /// Whether each search finds a match where it begins, unless that is passed over, and is likely
    /// to find one that isn't empty.
    pub(crate) begins_at_once: bool,
    /// How many bytes the longest literals have.
    pub(crate) longest: LongestLiterals,
    /// How many bytes after their position the assertions look at, at most.
    pub(crate) lookahead: usize,
    /// How DFA searches go that aren't anchored.
    pub(crate) free_route: Route,
    /// How anchored DFA searches go.
    pub(crate) anchored_route: Route,
    /// Where DFA searches without a guard try anchored runs.
    pub(crate) tries: Tries,
    ghost fit: { ∥ MayBeTablesFor engine patterns tables ∥₁ },
    ghost lazy_fit: { ∥ MayBeLazyFor engine patterns lazy ∥₁ },
    ghost symbols_fit: { ∥ MayBeLazyFor engine patterns symbols ∥₁ },
    ghost read: { ∥ MayBeTablesOver bytes engine patterns tables ∥₁ },
    ghost lazy_read: { ∥ MayBeLazyOver bytes engine patterns lazy ∥₁ },
    ghost symbols_read: { ∥ MayBeLazyOver read_symbols engine patterns symbols ∥₁ },
    ghost single: { ∥ MayBeOnePass (places_of engine.program.places.items) onepass ∥₁ },
    ghost numbered: { NamesGroups patterns (places_of engine.program.places.items) },
    ghost programmed: { IsOfPatterns (places_of engine.program.places.items) },
    ghost bound: { BoundsWalks spans (places_of engine.program.places.items) },
    ghost needed: { NeedsConfine needs
        (places_of engine.program.places.items) engine.program.terminator },
    ghost worded: { ∥ AreSpelled words
        (places_of engine.program.places.items) engine.program.terminator ∥₁ },
    ghost measured: { AreLongest engine.literals needs longest },
    ghost looking: { IsLookahead engine.program.passes_over
        (places_of engine.program.places.items) lookahead },
    ghost free: { Serves engine.kind spans No free_route },
    ghost anchored: { ServesAll engine.kind spans anchored_route },
    ghost tried: { TellsOthers (places_of engine.program.places.items) 0 tries.others.flags },
}

// Crates above call this, and drop no part by themselves.
impl Drop for Engines {
    fn drop(self) {
        let Engines {
            engine: _,
            tables: _,
            lazy: _,
            symbols: _,
            onepass: _,
            patterns: _,
            spans: _,
            needs: _,
            words: _,
            sought_fast: _,
            begins_at_once: _,
            longest: _,
            lookahead: _,
            free_route: _,
            anchored_route: _,
            tries: _,
        } = self;
    }
}

impl Engines {
    ghost use Rattle.std.specs.Prelude.{◌≡◌, ◌⊎◌, ◌≤◌, true, IfOk, IfSome, MatchOption, Option, Some, None, List, length, is_some};
    ghost use Rattle.rc_pattern.specs.Limits.{greatest_weight};
    ghost use Rattle.std.specs.Option.{option_map};
    ghost use Rattle.rc_text.specs.Found.{Found};
    ghost use Rattle.rc_pattern.specs.Re.{Re};
    ghost use Rattle.rc_pikevm_search.specs.Walks.{next_start};
    ghost use Rattle.rc_captures.specs.Captures.{captures_names, captures_pattern, captures_slots};
    ghost use Rattle.rc_pikevm_search.specs.Tells.{TellsBy};
    ghost use Rattle.rc_pikevm.specs.KindSlots.{slots_by};
    ghost use Rattle.rc_program.specs.Kinds.{IsAnswerBy, answer_by, answer_by_from, is_early};
    ghost use Rattle.rc_program.specs.Laws.{heaviness};
    ghost use Rattle.rc_program.specs.Places.{places_of};
    ghost use Rattle.rc_program.specs.Program.{program};
    ghost use Rattle.rc_text.specs.Bounds.{IsWithinBounds};
    ghost use Rattle.rc_text.specs.Text.{Keeps, low, high};
    ghost use Rattle.rc_program.specs.Matches.{begin_of, end_of, next_match};
    ghost use Rattle.rc_pikevm_search.specs.Engine.{engine_search};
    ghost use Rattle.rc_pikevm_search.specs.Moved.{IsMoved};
    ghost use Rattle.rc_strategy.specs.Caches.{IsCacheIn, IsSameCacheIn};
    ghost use Rattle.rc_strategy.specs.Early.{IsHalfBy};
    ghost use Rattle.rc_strategy.specs.Needed.{NeedsConfine};
    ghost use Rattle.rc_strategy.specs.Limits.{AreBarred, AreSymbolsOff, AreTooHeavy, IsLazyBarred};
    ghost use Rattle.rc_dfa.specs.Machine.{symbols as read_symbols};
    ghost use Rattle.rc_strategy.specs.Plans.{IsLazyFor, IsLazyOver, IsShortFor, plan_of};
    ghost use Rattle.rc_strategy.specs.Lengths.{BoundsWalks};
    ghost use Rattle.rc_strategy.specs.Questions.{question_by};
    ghost use Rattle.rc_strategy.specs.Tables.{aim_of, bytes_taken};
    ghost use Rattle.rc_strategy.specs.Worded.{AreSpelled};

    /// The engines of `patterns` patterns, whose program is that of `engine`. `Err` means out of
    /// memory.
    ///
    /// The DFA is built if `dfa` is set, the byte program has at most `state_limit` places, and its
    /// states weigh at most `size_limit` bytes in each direction. Without it, the lazy DFA is built
    /// if `hybrid` is set and `capacity` suffices. If some byte may not be read alone, and
    /// `unicode_words` is set too, so is a lazy DFA over symbols. None is built if literals alone
    /// decide each answer. The one-pass DFA is built if there are groups and the program is one-pass, and its
    /// rows aren't large. `spans` has the lengths and anchors of the patterns' matches. `needs` has
    /// their required literals, by which searches go unless fast prefix literals guard them. `words`
    /// has the literals between two assertions, if the pattern is a list of them; they decide
    /// searches if there is no DFA.
    pub fn new(
        alloc: Global,
        engine: Engine,
        patterns: usize,
        spans: Lengths,
        needs: Option<Needs>,
        words: Option<Words>,
        limits: Limits,
    ) -> Result<Engines, AllocError>
        ghost hs: { List Re }
        requires spans { BoundsWalks spans (places_of engine.program.places.items) }
        requires needs { NeedsConfine needs
            (places_of engine.program.places.items) engine.program.terminator }
        requires words { AreSpelled words
            (places_of engine.program.places.items) engine.program.terminator }
        requires program { places_of engine.program.places.items ≡ program hs }
        requires patterns { patterns ≡ length hs }
        requires light { heaviness (places_of engine.program.places.items) ≤ greatest_weight }
        ensures engine { IfOk result (λ engines. engines.engine ≡ engine) }
        ensures spans { IfOk result (λ engines. engines.spans ≡ spans) }
        ensures barred { AreBarred engine hs limits
            → IfOk result (λ engines. engines.tables ≡ None) }
        ensures none { IfOk result (λ engines. engines.tables ≡ None → AreBarred engine hs limits
            ⊎ AreTooHeavy engine hs limits) }
        ensures planned { IfOk result (λ engines. IfSome engines.lazy
            (IsLazyFor (plan_of engine hs limits))) }
        ensures symbols { IfOk result (λ engines. IfSome engines.symbols
            (IsLazyOver read_symbols (plan_of engine hs limits))) }
        ensures lazy_barred { IfOk result
            (λ engines. IsLazyBarred engine limits engines.tables → engines.lazy ≡ None) }
        ensures lazy_none { IfOk result (λ engines. engines.lazy ≡ None
            → IsLazyBarred engine limits engines.tables ⊎ IsShortFor (plan_of engine hs limits)) }
        ensures symbols_off { IfOk result
            (λ engines. AreSymbolsOff limits → engines.symbols ≡ None) }
        ensures needs { IfOk result (λ engines. engines.needs ≡ needs) }
        ensures words { IfOk result (λ engines. words ≡ None → engines.words ≡ None) }
    {
        let made = machines_of(alloc, &engine, needs.is_some(), patterns, limits)?;
        let words = words_beside(words, &made.tables.dense);
        let sought_fast = are_fast(&engine.literals);
        let begins_at_once = begins_at_once(&engine.program, &spans);
        let longest = LongestLiterals::new(&engine.literals, &needs);
        let lookahead = lookahead_of(&engine.program);
        let free_route = free_route(&engine, &spans, needs.is_some());
        let anchored_route = anchored_route(engine.kind, &spans);
        let tries = tries_of(&engine, &spans);
        Ok(Engines {
            engine,
            tables: made.tables.dense,
            lazy: made.tables.lazy,
            symbols: made.tables.symbols,
            onepass: made.onepass,
            patterns,
            spans,
            needs,
            words,
            sought_fast,
            begins_at_once,
            longest,
            lookahead,
            free_route,
            anchored_route,
            tries,
        })
    }

    /// Returns how many bytes the DFA and the one-pass DFA take, or `usize::MAX` if that is more; 0
    /// if there are none.
    pub fn memory_usage(&self) -> usize
        ensures { result ≡ bytes_taken self.now.tables self.now.onepass }
    {
        let tables = match &self.tables {
            Some(tables) => tables.memory_usage(),
            None => 0,
        };
        match &self.onepass {
            Some(dfa) => tables.saturating_add(dfa.memory_usage()),
            None => tables,
        }
    }

    /// A cache for searches by these engines, with at most `slots` slots: for the Pike VM, and for
    /// lazy DFAs if there are some. `Err` means out of memory.
    pub fn create_cache(&self, alloc: Global, slots: usize) -> Result<Cache, AllocError>
        ensures made { IfOk result (IsCacheIn self.now slots) }
        ensures both { IfOk result (λ cache. is_some cache.lazy ≡ is_some self.now.lazy) }
        ensures symbols { IfOk result (λ cache. is_some cache.symbols ≡ is_some self.now.symbols) }
    {
        let pass = self.engine.create_cache(alloc, slots)?;
        let symbols = self.symbols_cache(alloc)?;
        let Some(tables) = &self.lazy else {
            let lazy = None;
            return Ok(Cache {
                pass,
                lazy,
                symbols,
                symbols_turns: 0,
            });
        };
        let states = if self.goes_overlapping() {
            tables.create_overlapping_cache(alloc)?
        } else {
            tables.create_cache(alloc)?
        };
        Ok(Cache {
            pass,
            lazy: Some(states),
            symbols,
            symbols_turns: 0,
        })
    }

    /// Returns what a DFA search is for.
    #[inline(always)]
    pub(crate) fn aim(&self) -> Aim
        ensures { result ≡ aim_of self.now.engine self.now.patterns }
    {
        Aim {
            kind: self.engine.kind,
            patterns: self.patterns,
            passes_over: self.engine.program.passes_over,
            earliest: false,
        }
    }

    /// Whether a search finds a match. It allocates nothing but states of the lazy DFA. Unless
    /// matches are passed over, the search ends at the first position at which some match does.
    pub fn is_match<C: Cursor>(&self, cache: &mut Cache, input: &mut Input<C>) -> bool
        requires made { IsCacheIn self.now 0 cache.old }
        ensures keeps { Keeps input.old input.new }
        ensures found { result ≡ is_some
            (answer_by self.now.engine.kind (engine_search self.now.engine input.old)) }
        ensures cache { IsSameCacheIn self.now cache.old cache.new }
    {
        self.ask(cache, input, Question::Any).is_some()
    }

    /// Whether a search finds a match, with a cache that is made for this search. `Err` means out
    /// of memory.
    pub fn is_match_once<C: Cursor>(
        &self,
        alloc: Global,
        input: &mut Input<C>,
    ) -> Result<bool, AllocError>
        ensures keeps { Keeps input.old input.new }
        ensures found { IfOk result (λ b. b
            ≡ is_some (answer_by self.now.engine.kind (engine_search self.now.engine input.old))) }
    {
        let found = self.ask_once(alloc, input, Question::Any)?;
        Ok(found.is_some())
    }

    /// Returns the match of a search. The earliest flag is not read. It allocates nothing but
    /// states that the lazy DFA reaches for the first time, within the cache's capacity.
    pub fn find<C: Cursor>(&self, cache: &mut Cache, input: &mut Input<C>) -> Option<Match>
        requires made { IsCacheIn self.now 0 cache.old }
        ensures keeps { Keeps input.old input.new }
        ensures found { result ≡ answer_by self.now.engine.kind
            (engine_search self.now.engine input.old) }
        ensures within { IfSome result (IsWithinBounds input.old) }
        ensures cache { IsSameCacheIn self.now cache.old cache.new }
    {
        self.ask(cache, input, Question::Match)
    }

    /// Returns the question of a search: `Earliest` if the input's earliest flag is on and no match
    /// is passed over, else the one that is given.
    #[inline(always)]
    fn question_for<C: Cursor>(&self, input: &Input<C>, question: Question) -> Question
        ensures { result ≡ question_by (is_early input.now.earliest
            (engine_search self.now.engine input.now)) question }
    {
        if input.get_earliest() && !self.engine.program.passes_over {
            return Question::Earliest;
        }
        question
    }

    /// Returns the match of a search, under the input's earliest flag. If the flag is off, or
    /// matches are passed over, that is the one of `find`. Else it is some match, and nothing is
    /// read beyond the first position at which a match ends, unless each match ends where the slice
    /// does, or literals alone decide. Up to there the text is read once more, and by a DFA
    /// backwards. It allocates only what `find` does.
    pub fn search<C: Cursor>(&self, cache: &mut Cache, input: &mut Input<C>) -> Option<Match>
        requires made { IsCacheIn self.now 0 cache.old }
        ensures keeps { Keeps input.old input.new }
        ensures may { IsAnswerBy self.now.engine.kind input.old.earliest
            (engine_search self.now.engine input.old) result }
        ensures within { IfSome result (IsWithinBounds input.old) }
        ensures cache { IsSameCacheIn self.now cache.old cache.new }
    {
        let question = self.question_for(input, Question::Match);
        self.ask(cache, input, question)
    }

    /// Returns the end of the match that `search` returns, and its pattern. For a leftmost match
    /// that a DFA finds, nothing is searched backwards, unless the earliest flag is on.
    pub fn search_end<C: Cursor>(
        &self,
        cache: &mut Cache,
        input: &mut Input<C>,
    ) -> Option<HalfMatch>
        requires made { IsCacheIn self.now 0 cache.old }
        ensures keeps { Keeps input.old input.new }
        ensures may { IsHalfBy self.now.engine.kind input.old.earliest
            (engine_search self.now.engine input.old) result }
        ensures within { IfSome result (λ half. (low input.old ≤ half.offset)
            × (half.offset ≤ high input.old)) }
        ensures cache { IsSameCacheIn self.now cache.old cache.new }
    {
        let question = self.question_for(input, Question::End);
        half_of(self.ask(cache, input, question))
    }

    /// Returns the match that `search` returns, with a cache that is made for this search. Only
    /// what the search needs is made: nothing for the DFA, and the Pike VM's lists only if no DFA
    /// has an answer. `Err` means out of memory.
    pub fn search_once<C: Cursor>(
        &self,
        alloc: Global,
        input: &mut Input<C>,
    ) -> Result<Option<Match>, AllocError>
        ensures keeps { Keeps input.old input.new }
        ensures may { IfOk result (IsAnswerBy self.now.engine.kind input.old.earliest
            (engine_search self.now.engine input.old)) }
        ensures within { IfOk result (λ found. IfSome found (IsWithinBounds input.old)) }
    {
        let question = self.question_for(input, Question::Match);
        self.ask_once(alloc, input, question)
    }

    /// Returns the end of the match that `search_once` returns, and its pattern. `Err` means out of
    /// memory.
    pub fn search_end_once<C: Cursor>(
        &self,
        alloc: Global,
        input: &mut Input<C>,
    ) -> Result<Option<HalfMatch>, AllocError>
        ensures keeps { Keeps input.old input.new }
        ensures may { IfOk result (IsHalfBy self.now.engine.kind input.old.earliest
            (engine_search self.now.engine input.old)) }
        ensures within { IfOk result (λ found. IfSome found
            (λ half. (low input.old ≤ half.offset) × (half.offset ≤ high input.old))) }
    {
        let question = self.question_for(input, Question::End);
        let found = self.ask_once(alloc, input, question)?;
        Ok(half_of(found))
    }

    /// Whether a search without a DFA finds the match alone before its groups: if literals decide
    /// it, if there are many patterns, or if walks begin at each position and many slots are asked
    /// for. Else the slots of many threads would be copied at each byte.
    fn finds_first(&self, anchored: Anchored, slots: usize) -> bool {
        if self.patterns > FEW_PATTERNS
            || literals_of(&self.engine.literals, self.engine.kind).is_some()
        {
            return true;
        }
        match anchored {
            Anchored::No => self.engine.program.width(slots) > FEW_SLOTS,
            Anchored::Yes | Anchored::Pattern(_) => false,
        }
    }

    /// Returns the pattern that a search finds, and writes the first of its slots. Without a match
    /// the slots stay as they are. It allocates only what `find` does.
    ///
    /// If a DFA finds the match and its groups are asked for, the one-pass DFA finds them, or else a
    /// pass of the Pike VM over its span. So do searches without a DFA if literals decide the match,
    /// if there are many patterns, or if walks begin at each position and many slots are asked for.
    pub fn find_slots<C: Cursor>(
        &self,
        cache: &mut Cache,
        input: &mut Input<C>,
        slots: &mut [Option<usize>],
    ) -> Option<PatternID>
        requires made { IsCacheIn self.now (length slots.old) cache.old }
        ensures keeps { Keeps input.old input.new }
        ensures pattern { result ≡ option_map (λ (m : Found). m.pattern)
            (answer_by self.now.engine.kind (engine_search self.now.engine input.old)) }
        ensures long { length slots.new ≡ length slots.old }
        ensures slots { MatchOption result
            (slots.new ≡ slots.old)
            (λ _. Some slots.new ≡ slots_by self.now.engine.kind
            (engine_search self.now.engine input.old) (length slots.old)) }
        ensures cache { IsSameCacheIn self.now cache.old cache.new }
    {
        let Some(bounds) = self.spans.bounds(input) else {
            return None;
        };
        let question = Question::Match;
        if let Some(found) = self.ask_dfas(cache, input, question, bounds) {
            let found = found?;
            let pass = &mut cache.pass;
            self.fill_slots(pass, input, found, slots);
            return Some(found.pattern());
        }
        if self.finds_first(input.get_anchored(), slots.len()) {
            let pass = &mut cache.pass;
            let found = self.engine.find(pass, input)?;
            let pattern = found.pattern();
            self.fill_slots(pass, input, found, slots);
            return Some(pattern);
        }
        self.engine.find_slots(&mut cache.pass, input, slots)
    }

    /// Returns the next match of a list: the match from the span's start on. If that is empty and
    /// ends at `last`, it gives way to the match from one byte later. Then the span starts where
    /// the match was looked for. It allocates only what `find` does.
    pub fn next_match<C: Cursor>(
        &self,
        cache: &mut Cache,
        input: &mut Input<C>,
        last: Option<usize>,
    ) -> Option<Match>
        requires made { IsCacheIn self.now 0 cache.old }
        ensures moves { IsMoved input.old input.new }
        ensures found { result
            ≡ next_match begin_of end_of
            (answer_by_from self.now.engine.kind
            (engine_search self.now.engine input.old)) input.old.span.start last }
        ensures start { input.new.span.start
            ≡ next_start self.now.engine.kind
            (engine_search self.now.engine input.old) input.old.span.start last }
        ensures there { result ≡ answer_by self.now.engine.kind
            (engine_search self.now.engine input.new) }
        ensures within { IfSome result (IsWithinBounds input.new) }
        ensures cache { IsSameCacheIn self.now cache.old cache.new }
    {
        let found = self.find(cache, input)?;
        if !is_again(last, found) {
            return Some(found);
        }
        advance_start(input);
        self.find(cache, input)
    }

    /// Writes the match that a search finds, with its groups, into captures of the program's
    /// patterns. Without a match they hold none. It allocates only what `find` does.
    pub fn find_captures<C: Cursor>(
        &self,
        cache: &mut Cache,
        input: &mut Input<C>,
        caps: &mut Captures,
    )
        requires made { IsCacheIn self.now (length (captures_slots caps.old)) cache.old }
        ensures keeps { Keeps input.old input.new }
        ensures names { captures_names caps.new ≡ captures_names caps.old }
        ensures long { length (captures_slots caps.new) ≡ length (captures_slots caps.old) }
        ensures found { TellsBy self.now.engine.kind
            (engine_search self.now.engine input.old) caps.new }
        ensures cache { IsSameCacheIn self.now cache.old cache.new }
    {
        captures::clear(caps);
        let pattern = self.find_slots(cache, input, caps.slots_mut());
        captures::set_pattern(caps, pattern);
    }
}
