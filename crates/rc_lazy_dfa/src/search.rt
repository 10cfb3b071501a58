//! Search: what a search by the lazy DFA asks of its cache.
ghost use Rattle.std.specs.Prelude.{◌≡◌};
ghost use Rattle.rc_lazy_dfa.specs.Courses.{direction_of};

use crate::cells::stop_by;
use crate::half::Half;
use crate::lazy::{Lazy, is_asked};
use crate::letters::Letter;
use crate::store::Store;
use rc_dfa::automaton::Direction;
use rc_dfa::symbols::{Alphabet, Symbol};
use rc_table_search::cells::DEAD;
use rc_table_search::refusal::Refusal;
use rc_table_search::run::{Extent, Stand, run, stops_of};
use rc_table_search::transitions::Transitions;
use rc_table_search::way::{Way, first, left};
use rc_text::types::Anchored;

/// The number of bytes that a search that may rest reads before it checks whether it rests.
const REACH: usize = 128;

/// Returns the direction in which the automaton steps.
#[inline(always)]
fn direction<W: Way>() -> Direction
    ensures { result ≡ direction_of W.BACKWARDS }
{
    if W::BACKWARDS {
        return Direction::Backwards;
    }
    Direction::Forwards
}

impl Lazy {
    ghost use Rattle.std.specs.Prelude.{◌≡◌};
    ghost use Rattle.rc_dfa.specs.Automata.{alphabet_in};
    ghost use Rattle.rc_dfa.specs.Machine.{symbols};
    ghost use Rattle.rc_dfa.specs.Symbols.{IsPast};
    ghost use Rattle.rc_lazy_dfa.specs.Stores.{IsLetter};
    ghost use Rattle.rc_lazy_dfa.specs.declared.letters.Letter.TheVariants.{Tagged};

    /// Returns the symbol as a letter, or its byte alone if bytes are read.
    #[inline(always)]
    fn letter_of(&self, symbol: Symbol) -> Letter
        requires past { IsPast symbol }
        ensures read { IsLetter (alphabet_in self.now.automaton) result }
        ensures symbol { alphabet_in self.now.automaton ≡ symbols → result ≡ Tagged symbol }
    {
        match self.automaton.alphabet() {
            Alphabet::Symbols => Letter::Tagged(symbol),
            Alphabet::Bytes => Letter::Alone(Some(symbol.byte)),
        }
    }
}

impl Transitions for Lazy {
    ghost use Rattle.std.specs.Prelude.{◌≡◌};
    ghost use Rattle.rc_dfa.specs.Automata.{alphabet_in};
    ghost use Rattle.rc_dfa.specs.Machine.{symbols};
    ghost use Rattle.rc_lazy_dfa.specs.Courses.{view_of};
    ghost use Rattle.rc_lazy_dfa.specs.SpendLaws.{lawful};

    type Cache = Half;

    ghost view = { view_of };

    ghost has_symbols = { λ l. alphabet_in l.automaton ≡ symbols };

    #[inline(always)]
    fn reads_symbols<W: Way>(&self) -> bool {
        match self.automaton.alphabet() {
            Alphabet::Bytes => false,
            Alphabet::Symbols => true,
        }
    }

    // If the pattern that is asked for doesn't exist, nothing goes on.
    #[inline(always)]
    fn start<W: Way>(
        &self,
        cache: &mut Half,
        anchored: Anchored,
        beside: Option<u8>,
    ) -> Result<usize, Refusal> {
        if !is_asked(&self.automaton, &anchored) {
            return Ok(DEAD);
        }
        cache.begin(
            &self.automaton,
            direction::<W>(),
            &anchored,
            Letter::Alone(beside),
        )
    }

    #[inline(always)]
    fn start_beside<W: Way>(
        &self,
        cache: &mut Half,
        anchored: Anchored,
        symbol: Symbol,
    ) -> Result<usize, Refusal> {
        if !is_asked(&self.automaton, &anchored) {
            return Ok(DEAD);
        }
        let letter = self.letter_of(symbol);
        cache.begin(&self.automaton, direction::<W>(), &anchored, letter)
    }

    #[inline(always)]
    fn next<W: Way>(&self, cache: &mut Half, row: usize, byte: u8) -> Result<usize, Refusal> {
        cache.next(
            &self.automaton,
            direction::<W>(),
            row,
            Letter::Alone(Some(byte)),
        )
    }

    #[inline(always)]
    fn next_over<W: Way>(
        &self,
        cache: &mut Half,
        row: usize,
        symbol: Symbol,
    ) -> Result<usize, Refusal> {
        let letter = self.letter_of(symbol);
        cache.next(&self.automaton, direction::<W>(), row, letter)
    }

    #[inline(always)]
    fn known<W: Way>(&self, cache: &Half, row: usize, byte: u8) -> usize {
        let letter = Letter::Alone(Some(byte));
        cache.known(&self.automaton, direction::<W>(), row, letter)
    }

    #[inline(always)]
    fn known_over<W: Way>(&self, cache: &Half, row: usize, symbol: Symbol) -> usize {
        let letter = Letter::Tagged(symbol);
        cache.known(&self.automaton, direction::<W>(), row, letter)
    }

    #[inline(always)]
    fn serve<W: Way>(&self, cache: &mut Half, bytes: usize) {
        cache.serve(bytes);
    }

    #[inline(always)]
    fn at_end<W: Way>(&self, cache: &mut Half, row: usize) -> Result<Option<usize>, Refusal> {
        let cell = cache.next(&self.automaton, direction::<W>(), row, Letter::Alone(None))?;
        Ok(stop_by(&cache.store, cell))
    }

    // The byte at which the run stops is read next, so it counts too.
    #[inline(always)]
    fn run<W: Way>(
        &self,
        cache: &mut Half,
        piece: &[u8],
        start: usize,
        row: usize,
        extent: Extent,
    ) -> (usize, Stand) {
        let classes = self.automaton.classes();
        let from = first::<W>(piece);
        let stand = Stand { row, noted: None };
        let stops = stops_of(extent);
        let (place, there) = run::<W, Store>(
            &cache.store,
            classes,
            piece,
            from,
            start,
            stand,
            stops,
        );
        let read = piece.len() - left::<W>(piece, place);
        cache.serve(read.saturating_add(1).min(piece.len()));
        (place, there)
    }

    // A row may be dropped, so what was found on the way to it stands for itself.
    #[inline(always)]
    fn note<W: Way>(&self, cache: &Half, row: usize) -> usize {
        cache.store.stop_at(row).unwrap_or(0)
    }

    #[inline(always)]
    fn find<W: Way>(&self, note: usize) -> usize {
        note
    }

    #[inline(always)]
    fn pattern<W: Way>(&self, found: usize) -> usize {
        if W::BACKWARDS {
            return found;
        }
        if found < self.automaton.places_len() {
            return self.automaton.pattern_at(found);
        }
        0
    }

    #[inline(always)]
    fn is_idle<W: Way>(&self, cache: &Half, row: usize) -> bool {
        cache.store.idles_at(row)
    }

    #[inline(always)]
    fn next_look(&self, at: usize, rest_from: usize) -> usize {
        at.max(rest_from).saturating_add(REACH)
    }

    #[inline(always)]
    fn era<W: Way>(&self, cache: &Half) -> usize {
        cache.store.clears
    }

    ghost lawful = { lawful };

    ghost with_symbols = { λ l b e. e };
}
