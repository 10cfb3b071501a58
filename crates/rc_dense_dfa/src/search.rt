//! Search: what a search by the tables asks of them.
ghost use Rattle.std.specs.Prelude.{◌≡◌, ◌*◌, ◌/◌, ◌≤◌, ℕ, None, true, length};
ghost use Rattle.rc_table_search.specs.Walks.{Reaches, first_of};
ghost use Rattle.rc_dense_dfa.specs.Searches.{InRow, table_by};

use crate::dense::{Dense, NoCache};
use crate::exits::first_exit;
use crate::look::{cell_of, exits_at, find_in, is_idle};
use crate::start::start as start_cell;
use crate::table::Table;
use rc_dfa::symbols::Symbol;
use rc_table_search::cells::SKIP;
use rc_table_search::refusal::Refusal;
use rc_table_search::run::{Extent, Stand, run, stops_of};
use rc_table_search::transitions::Transitions;
use rc_table_search::way::{Way, first};
use rc_text::types::Anchored;

/// Returns the table of a direction.
#[inline(always)]
fn table_in<W: Way>(dense: &Dense) -> &Table
    ensures { result.now ≡ table_by W.BACKWARDS dense.now }
{
    if W::BACKWARDS {
        return &dense.reverse;
    }
    &dense.forward
}

/// Returns the place of a piece from which on a run reads it. Forwards it is that of the first exit
/// of the row, unless the search is to rest or no row has few exits.
#[inline(always)]
fn pass<W: Way>(table: &Table, piece: &[u8], row: usize, may_rest: bool) -> usize
    requires { InRow table.now row }
    ensures within { result ≤ length piece.now }
    ensures reaches { (start : ℕ) → row / table.now.width * table.now.width ≡ row
        → Reaches (record {
          backwards = W.BACKWARDS;
          leaps = true;
          cells = table.now.cells.items;
          classes = table.now.classes.items;
          piece = piece.now;
          start = start;
          from = first_of W.BACKWARDS (length piece.now);
          first = row;
          before = None;
        }) result row None }
{
    let place = first::<W>(piece);
    if W::BACKWARDS || !table.skips || may_rest && is_idle(table, row) {
        return place;
    }
    first_exit(exits_at(table, row), piece)
}

impl Transitions for Dense {
    ghost use Rattle.rc_dense_dfa.specs.SearchLaws.{lawful};
    ghost use Rattle.rc_dense_dfa.specs.Searches.{view_of};

    type Cache = NoCache;

    ghost view = { view_of };

    ghost has_symbols = { λ d. Unit {0} };

    // It reads bytes, each known alone.
    #[inline(always)]
    fn reads_symbols<W: Way>(&self) -> bool {
        false
    }

    #[inline(always)]
    fn start<W: Way>(
        &self,
        _cache: &mut NoCache,
        anchored: Anchored,
        beside: Option<u8>,
    ) -> Result<usize, Refusal> {
        Ok(start_cell(table_in::<W>(self), anchored, beside))
    }

    #[inline(always)]
    fn start_beside<W: Way>(
        &self,
        cache: &mut NoCache,
        anchored: Anchored,
        symbol: Symbol,
    ) -> Result<usize, Refusal> {
        self.start::<W>(cache, anchored, Some(symbol.byte))
    }

    #[inline(always)]
    fn next<W: Way>(&self, _cache: &mut NoCache, row: usize, byte: u8) -> Result<usize, Refusal> {
        Ok(cell_of(table_in::<W>(self), row, byte))
    }

    #[inline(always)]
    fn next_over<W: Way>(
        &self,
        cache: &mut NoCache,
        row: usize,
        symbol: Symbol,
    ) -> Result<usize, Refusal> {
        self.next::<W>(cache, row, symbol.byte)
    }

    // It knows no symbols, so no run over them asks.
    #[inline(always)]
    fn known<W: Way>(&self, _cache: &NoCache, _row: usize, _byte: u8) -> usize {
        SKIP
    }

    #[inline(always)]
    fn known_over<W: Way>(&self, _cache: &NoCache, _row: usize, _symbol: Symbol) -> usize {
        SKIP
    }

    #[inline(always)]
    fn serve<W: Way>(&self, _cache: &mut NoCache, _bytes: usize) {}

    #[inline(always)]
    fn at_end<W: Way>(&self, _cache: &mut NoCache, row: usize) -> Result<Option<usize>, Refusal> {
        let table = table_in::<W>(self);
        Ok(find_in(table.ends.as_slice(), row, table.width))
    }

    #[inline(always)]
    fn run<W: Way>(
        &self,
        _cache: &mut NoCache,
        piece: &[u8],
        start: usize,
        row: usize,
        extent: Extent,
    ) -> (usize, Stand) {
        let table = table_in::<W>(self);
        let classes = table.classes.as_slice();
        let from = pass::<W>(table, piece, row, extent.may_rest);
        let stand = Stand { row, noted: None };
        run::<W, Table>(table, classes, piece, from, start, stand, stops_of(extent))
    }

    #[inline(always)]
    fn note<W: Way>(&self, _cache: &NoCache, row: usize) -> usize {
        row
    }

    #[inline(always)]
    fn find<W: Way>(&self, note: usize) -> usize {
        let table = table_in::<W>(self);
        if let Some(found) = table.only {
            return found;
        }
        find_in(table.tells.as_slice(), note, table.width).unwrap_or(0)
    }

    #[inline(always)]
    fn pattern<W: Way>(&self, found: usize) -> usize {
        if W::BACKWARDS {
            return found;
        }
        match self.patterns.get(found) {
            Some(pattern) => *pattern,
            None => 0,
        }
    }

    #[inline(always)]
    fn is_idle<W: Way>(&self, _cache: &NoCache, row: usize) -> bool {
        is_idle(table_in::<W>(self), row)
    }

    // If the rows at which a search may rest have a mark, it needs no look. Else it looks where it
    // may rest, and 1, 2, 4, .. bytes after that.
    #[inline(always)]
    fn next_look(&self, at: usize, rest_from: usize) -> usize {
        if self.forward.rests {
            return usize::MAX;
        }
        let gap = at.saturating_sub(rest_from);
        at.saturating_add(gap).max(rest_from)
    }

    // No row is ever dropped.
    #[inline(always)]
    fn era<W: Way>(&self, _cache: &NoCache) -> usize {
        0
    }

    ghost lawful = { lawful };

    ghost with_symbols = { λ d b e. tt };
}
