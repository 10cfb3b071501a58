//! Transitions: what a search asks of the table of a DFA or a lazy DFA.
ghost use Rattle.std.specs.Prelude.{◌≡◌, ◌≢◌, ◌+◌, ◌≤◌, ℕ, Bool, Some, true, IfOk, IfErr, IsTrue, length};
ghost use Rattle.rc_determinize.specs.States.{State};
ghost use Rattle.rc_dfa.specs.Machine.{Machine, is_idle, symbols};
ghost use Rattle.rc_dfa.specs.Runs.{IsByte};
ghost use Rattle.rc_dfa.specs.Symbols.{IsPast};
ghost use Rattle.rc_table_search.specs.Refusals.{is_memory};
ghost use Rattle.rc_table_search.specs.Views.{IsEnd, IsLawful, IsPatternOf, IsRun, IsSame, IsStart, IsStartBeside, IsStep, IsStepOver, View, reads_symbols};

use crate::cells::SKIP;
use crate::refusal::Refusal;
use crate::run::{Extent, Stand};
use crate::way::Way;
use rc_dfa::symbols::Symbol;
use rc_text::types::Anchored;

/// The transitions of a DFA in both directions, by tables. The DFA has a row for each state before
/// its first search. The lazy DFA adds states to a cache while it searches, and may be refused one.
pub trait Transitions {
    /// The cache of a direction: all that a search changes.
    type Cache;

    // What the table of a direction says.
    ghost view: { Self → Bool → View Self.Cache };
    // Cells over symbols may be asked for.
    ghost has_symbols: { Self → Type 0 };

    /// Whether it reads symbols: of a byte past ASCII, also what is known of the scalar that begins
    /// or ends with it.
    fn reads_symbols<W: Way>(&self) -> bool
        ensures { result ≡ reads_symbols (view self.now W.BACKWARDS).alphabet };

    /// Returns the start cell for a kind of anchoring and the byte beside, or an end.
    fn start<W: Way>(
        &self,
        cache: &mut Self::Cache,
        anchored: Anchored,
        beside: Option<u8>,
    ) -> Result<usize, Refusal>
        requires cache { (view self.now W.BACKWARDS).IsCache cache.old }
        requires byte { IsByte beside }
        ensures cache { (view self.now W.BACKWARDS).IsCache cache.new }
        ensures spends { (view self.now W.BACKWARDS).Spends cache.old cache.new 1 }
        ensures cell { IfOk result (IsStart (view self.now W.BACKWARDS) cache.new anchored beside) }
        ensures refused { IfErr result (λ e. (view self.now W.BACKWARDS).GivesUp cache.old
            cache.new 1 (is_memory e)) };

    /// Returns the start cell for a kind of anchoring and the symbol beside, if it reads symbols.
    fn start_beside<W: Way>(
        &self,
        cache: &mut Self::Cache,
        anchored: Anchored,
        symbol: Symbol,
    ) -> Result<usize, Refusal>
        requires cache { (view self.now W.BACKWARDS).IsCache cache.old }
        requires past { IsPast symbol }
        ensures cache { (view self.now W.BACKWARDS).IsCache cache.new }
        ensures spends { (view self.now W.BACKWARDS).Spends cache.old cache.new 1 }
        ensures cell { (view self.now W.BACKWARDS).alphabet ≡ symbols
            → IfOk result (IsStartBeside (view self.now W.BACKWARDS) W.BACKWARDS cache.new anchored
            symbol) }
        ensures refused { IfErr result (λ e. (view self.now W.BACKWARDS).GivesUp cache.old
            cache.new 1 (is_memory e)) };

    /// Returns the cell of a row and a byte.
    fn next<W: Way>(&self, cache: &mut Self::Cache, row: usize, byte: u8) -> Result<usize, Refusal>
        requires cache { (view self.now W.BACKWARDS).IsCache cache.old }
        requires row { (view self.now W.BACKWARDS).IsRow cache.old row }
        ensures cache { (view self.now W.BACKWARDS).IsCache cache.new }
        ensures spends { (view self.now W.BACKWARDS).Spends cache.old cache.new 1 }
        ensures cell { IfOk result (IsStep (view self.now W.BACKWARDS) cache.old cache.new row
            byte) }
        ensures refused { IfErr result (λ e. (view self.now W.BACKWARDS).GivesUp cache.old
            cache.new 1 (is_memory e)) };

    /// Returns the cell of a row and a symbol, if it reads symbols.
    fn next_over<W: Way>(
        &self,
        cache: &mut Self::Cache,
        row: usize,
        symbol: Symbol,
    ) -> Result<usize, Refusal>
        requires cache { (view self.now W.BACKWARDS).IsCache cache.old }
        requires row { (view self.now W.BACKWARDS).IsRow cache.old row }
        requires past { IsPast symbol }
        ensures cache { (view self.now W.BACKWARDS).IsCache cache.new }
        ensures spends { (view self.now W.BACKWARDS).Spends cache.old cache.new 1 }
        ensures cell { (view self.now W.BACKWARDS).alphabet ≡ symbols
            → IfOk result (IsStepOver (view self.now W.BACKWARDS) W.BACKWARDS cache.old cache.new
            row symbol) }
        ensures refused { IfErr result (λ e. (view self.now W.BACKWARDS).GivesUp cache.old
            cache.new 1 (is_memory e)) };

    /// Returns the cell of a row and a byte if it is known, or else `SKIP`.
    fn known<W: Way>(&self, cache: &Self::Cache, row: usize, byte: u8) -> usize
        requires cache { (view self.now W.BACKWARDS).IsCache cache.now }
        requires row { (view self.now W.BACKWARDS).IsRow cache.now row }
        ensures { result ≢ SKIP → IsStep (view self.now W.BACKWARDS) cache.now cache.now row
            byte result };

    /// Returns the cell of a row and a symbol: `SKIP` if that isn't known.
    fn known_over<W: Way>(&self, cache: &Self::Cache, row: usize, symbol: Symbol) -> usize
        requires cache { (view self.now W.BACKWARDS).IsCache cache.now }
        requires row { (view self.now W.BACKWARDS).IsRow cache.now row }
        requires reads { has_symbols self.now }
        requires past { IsPast symbol }
        ensures { (view self.now W.BACKWARDS).alphabet ≡ symbols → result ≢ SKIP
            → IsStepOver (view self.now W.BACKWARDS) W.BACKWARDS cache.now cache.now row symbol
            result };

    /// Counts bytes that were read by cells that were known.
    fn serve<W: Way>(&self, cache: &mut Self::Cache, bytes: usize)
        ensures { IsSame (view self.now W.BACKWARDS) cache.old cache.new };

    /// Returns what is found at the end of what the search sees, from a row on.
    fn at_end<W: Way>(&self, cache: &mut Self::Cache, row: usize) -> Result<Option<usize>, Refusal>
        requires cache { (view self.now W.BACKWARDS).IsCache cache.old }
        requires row { (view self.now W.BACKWARDS).IsRow cache.old row }
        ensures cache { (view self.now W.BACKWARDS).IsCache cache.new }
        ensures spends { (view self.now W.BACKWARDS).Spends cache.old cache.new 1 }
        ensures found { IfOk result (IsEnd (view self.now W.BACKWARDS) cache.old row) }
        ensures refused { IfErr result (λ e. (view self.now W.BACKWARDS).GivesUp cache.old
            cache.new 1 (is_memory e)) };

    /// Runs over a piece, from the row on, up to a byte whose cell needs a look. The piece begins at
    /// the position `start`. Returns the place of that byte, and how the run stands there.
    fn run<W: Way>(
        &self,
        cache: &mut Self::Cache,
        piece: &[u8],
        start: usize,
        row: usize,
        extent: Extent,
    ) -> (usize, Stand)
        requires cache { (view self.now W.BACKWARDS).IsCache cache.old }
        requires row { (view self.now W.BACKWARDS).IsRow cache.old row }
        requires fits { start + length piece.now ≤ usize.MAX }
        ensures same { IsSame (view self.now W.BACKWARDS) cache.old cache.new }
        ensures within { result.0 ≤ length piece.now }
        ensures row { (view self.now W.BACKWARDS).IsRow cache.new result.1.row }
        ensures run { IsRun (view self.now W.BACKWARDS) W.BACKWARDS cache.old piece.now start row
            result.0 result.1.row result.1.noted };

    /// Returns the note that stands for what was found on the way to a row.
    fn note<W: Way>(&self, cache: &Self::Cache, row: usize) -> usize
        requires cache { (view self.now W.BACKWARDS).IsCache cache.now }
        ensures { (m : Machine) (s : State) (k : ℕ)
            → (view self.now W.BACKWARDS).HasState cache.now m row s → s.matched ≡ Some k
            → (view self.now W.BACKWARDS).IsNote m result k };

    /// Returns the find for which a note stands: forwards a match place, backwards the number of an
    /// entry.
    fn find<W: Way>(&self, note: usize) -> usize
        ensures { (m : Machine) (k : ℕ) → (view self.now W.BACKWARDS).IsNote m note k
            → result ≡ k };

    /// Returns the pattern of a find.
    fn pattern<W: Way>(&self, found: usize) -> usize
        ensures { (m : Machine) → (view self.now W.BACKWARDS).IsOf m
            → IsPatternOf W.BACKWARDS m found result };

    /// Whether nothing is under way at a row but walks that begin there or later.
    fn is_idle<W: Way>(&self, cache: &Self::Cache, row: usize) -> bool
        requires cache { (view self.now W.BACKWARDS).IsCache cache.now }
        ensures { IsTrue result → (m : Machine) (s : State)
            → (view self.now W.BACKWARDS).HasState cache.now m row s → is_idle s ≡ true };

    /// Returns the position at which a search that may rest from `rest_from` on looks next whether
    /// it rests.
    fn next_look(&self, at: usize, rest_from: usize) -> usize;

    /// Returns how many times all rows of a direction were dropped. While that stays the same, and
    /// is less than `usize::MAX`, each row stays that of its state.
    fn era<W: Way>(&self, cache: &Self::Cache) -> usize
        ensures { result ≡ (view self.now W.BACKWARDS).era cache.now };

    ghost lawful: { (x : Self) (backwards : Bool) → IsLawful (view x backwards) };

    ghost with_symbols: { (x : Self) (backwards : Bool) → (view x backwards).alphabet ≡ symbols
        → has_symbols x };
}
