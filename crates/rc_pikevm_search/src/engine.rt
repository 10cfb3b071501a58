//! The Pike VM as an engine: a program with its match kind and its literals.

ghost use Rattle.std.specs.Prelude.{◌≡◌};
ghost use Rattle.rc_program.specs.Places.{places_of};
ghost use Rattle.rc_pikevm_search.specs.Literals.{MayGoBy, MayGoBy-is_fact};

use crate::lists::gives_way;
use crate::literals::{Literals, guards_of, literals_of};
use rc_literals::search;
use rc_pikevm::cache::Cache;
use rc_pikevm::kinds::{find_by_kind, is_match_by_kind, search_slots_by_kind};
use rc_pikevm::reach::{Reached, find_reach};
use rc_program::program::Program;
use rc_text::cursor::Cursor;
use rc_text::input::Input;
use rc_text::types::{Match, MatchKind, PatternID};
use std::alloc::{AllocError, Global};

/// A program, with its kind of match and the literals by which its searches go.
pub struct Engine {
    pub program: Program,
    pub kind: MatchKind,
    pub literals: Literals,
    ghost sound: { MayGoBy
        (places_of program.places.items) program.terminator program.passes_over literals } by { MayGoBy-is_fact
            (places_of program.places.items) program.terminator program.passes_over literals },
}

// Crates above call this, and drop no part by themselves.
impl Drop for Engine {
    fn drop(self) {
        let Engine {
            program: _,
            kind: _,
            literals: _,
        } = self;
    }
}

impl Engine {
    ghost use Rattle.std.specs.Prelude.{◌≡◌, ℕ, ◌+◌, ◌≤◌, false, is_some, IfOk, IfSome, MatchOption, Option, Some, None, length};
    ghost use Rattle.std.specs.Option.{option_map};
    ghost use Rattle.rc_text.specs.Found.{Found};
    ghost use Rattle.rc_pikevm_search.specs.Walks.{next_start};
    ghost use Rattle.rc_pikevm.specs.KindSlots.{slots_by};
    ghost use Rattle.rc_program.specs.Kinds.{answer_by, answer_by_from};
    ghost use Rattle.rc_text.specs.Bounds.{IsWithinBounds};
    ghost use Rattle.rc_text.specs.Text.{Keeps, high, low, slice_end};
    ghost use Rattle.rc_text.specs.declared.types.MatchKind.TheVariants.{LeftmostFirst};
    ghost use Rattle.rc_program.specs.Answer.{chosen};
    ghost use Rattle.rc_reach.specs.Reads.{ReadsBelow};
    ghost use Rattle.rc_reach.specs.Settled.{IsSettled};
    ghost use Rattle.rc_program.specs.Matches.{begin_of, end_of, next_match};
    ghost use Rattle.rc_pikevm_search.specs.Engine.{engine_search, Counts, IsEngineCache, IsSameCache};
    ghost use Rattle.rc_pikevm_search.specs.Moved.{IsMoved};

    /// A cache for searches by this engine, with at most `slots` slots. `Err` means out of memory.
    pub fn create_cache(&self, alloc: Global, slots: usize) -> Result<Cache, AllocError>
        ensures { IfOk result (IsEngineCache self.now slots) }
    {
        Cache::new(alloc, &self.program, slots)
    }

    /// Returns the match that a search finds. It allocates nothing. The cache counts the places
    /// that the pass enters; if literals alone decide the match, no pass is made and the count
    /// stays.
    pub fn find<C: Cursor>(&self, cache: &mut Cache, input: &mut Input<C>) -> Option<Match>
        requires made { IsEngineCache self.now 0 cache.old }
        ensures keeps { Keeps input.old input.new }
        ensures found { result ≡ answer_by self.now.kind (engine_search self.now input.old) }
        ensures within { IfSome result (IsWithinBounds input.old) }
        ensures cache { IsSameCache cache.old cache.new }
        ensures counts { Counts self.now input.new result cache.old cache.new }
    {
        if let Some(needles) = literals_of(&self.literals, self.kind) {
            return search::search(input, needles);
        }
        find_by_kind(
            cache,
            input,
            &self.program,
            guards_of(&self.literals),
            self.kind,
        )
    }

    /// Returns the match that a search finds, and how many bytes of the content settle it: at most
    /// one more than where the slice ends. If the match is the leftmost-first one, and none may be
    /// passed over, it is at most four more than what the walks read. It allocates nothing, and
    /// doesn't go by literals.
    pub fn find_reach<C: Cursor>(&self, cache: &mut Cache, input: &mut Input<C>) -> Reached
        requires made { IsEngineCache self.now 0 cache.old }
        ensures keeps { Keeps input.old input.new }
        ensures found { result.found
            ≡ answer_by self.now.kind (engine_search self.now input.old) }
        ensures bounds { IfSome result.found (IsWithinBounds input.old) }
        ensures settled { IsSettled self.now.kind result.reach (engine_search self.now input.old) }
        ensures sharp { self.now.kind ≡ LeftmostFirst → self.now.program.passes_over ≡ false
            → low input.old ≤ high input.old → (r : ℕ)
            → ReadsBelow (engine_search self.now input.old) r
            (chosen (engine_search self.now input.old)) → result.reach ≤ r + 4 }
        ensures within { result.reach ≤ slice_end input.old + 1 }
        ensures cache { IsSameCache cache.old cache.new }
    {
        find_reach(cache, input, &self.program, self.kind)
    }

    /// Whether a search finds a match. It allocates nothing. Unless matches are passed over, the
    /// pass ends at the first position at which a match does.
    pub fn is_match<C: Cursor>(&self, cache: &mut Cache, input: &mut Input<C>) -> bool
        requires made { IsEngineCache self.now 0 cache.old }
        ensures keeps { Keeps input.old input.new }
        ensures found { result ≡ is_some
            (answer_by self.now.kind (engine_search self.now input.old)) }
        ensures cache { IsSameCache cache.old cache.new }
    {
        if let Some(needles) = literals_of(&self.literals, self.kind) {
            let found = search::search(input, needles);
            return found.is_some();
        }
        is_match_by_kind(
            cache,
            input,
            &self.program,
            guards_of(&self.literals),
            self.kind,
        )
    }

    /// Returns the pattern that a search finds, and writes the first of its slots. Without a match
    /// the slots stay as they are. It allocates nothing.
    pub fn find_slots<C: Cursor>(
        &self,
        cache: &mut Cache,
        input: &mut Input<C>,
        slots: &mut [Option<usize>],
    ) -> Option<PatternID>
        requires made { IsEngineCache self.now (length slots.old) cache.old }
        ensures keeps { Keeps input.old input.new }
        ensures pattern { result ≡ option_map (λ (m : Found). m.pattern)
            (answer_by self.now.kind (engine_search self.now input.old)) }
        ensures long { length slots.new ≡ length slots.old }
        ensures slots { MatchOption result
            (slots.new ≡ slots.old)
            (λ _. Some slots.new ≡ slots_by self.now.kind (engine_search self.now input.old)
            (length slots.old)) }
        ensures cache { IsSameCache cache.old cache.new }
    {
        search_slots_by_kind(
            cache,
            input,
            &self.program,
            guards_of(&self.literals),
            self.kind,
            slots,
        )
    }

    /// Returns the next match of a list: the match from the span's start on. If that is empty and
    /// ends at `last`, it gives way to the match from one byte later. Then the span starts where
    /// the match was looked for. It allocates nothing.
    pub fn next_match<C: Cursor>(
        &self,
        cache: &mut Cache,
        input: &mut Input<C>,
        last: Option<usize>,
    ) -> Option<Match>
        requires made { IsEngineCache self.now 0 cache.old }
        ensures moves { IsMoved input.old input.new }
        ensures found { result
            ≡ next_match begin_of end_of
            (answer_by_from self.now.kind
            (engine_search self.now input.old)) input.old.span.start last }
        ensures start { input.new.span.start
            ≡ next_start self.now.kind (engine_search self.now input.old) input.old.span.start
            last }
        ensures there { result ≡ answer_by self.now.kind (engine_search self.now input.new) }
        ensures within { IfSome result (IsWithinBounds input.new) }
        ensures cache { IsSameCache cache.old cache.new }
        ensures counts { Counts self.now input.new result cache.old cache.new }
    {
        let found = self.find(cache, input)?;
        if gives_way(input, last, found) {
            return self.find(cache, input);
        }
        Some(found)
    }
}
