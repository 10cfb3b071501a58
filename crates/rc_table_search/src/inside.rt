//! Search in a piece: runs a DFA forwards by its table over one piece of the text alone.
ghost use Rattle.std.specs.Prelude.{◌≡◌, ◌+◌, ◌-◌, ◌≤◌, ◌<◌, None, false, true, IfSome, length, slice_index_or};
ghost use Rattle.rc_text.specs.Text.{Searched, slice_end};
ghost use Rattle.rc_dfa.specs.Inside.{IsPieceOf};
ghost use Rattle.rc_dfa.specs.Machine.{symbols};
ghost use Rattle.rc_table_search.specs.Searches.{BeginsInside, HasRun, IsAt, IsOver, IsRowOf, Outset};

use crate::cells::{QUIT, has_died, row_of};
use crate::run::Stand;
use crate::scalars::scalar_here;
use crate::search::{Request, needs_symbol, note_of, noted_by, read_symbols, told};
use crate::transitions::Transitions;
use crate::way::Forwards;
use rc_dfa::ended::{Ended, Reading};
use rc_dfa::symbols::Symbol;
use rc_text::types::Anchored;

/// In fewer bytes than this a run over symbols hardly ends, so in a short rest of a piece it isn't begun.
const SHORT: usize = 24;

/// Runs over the rest of a piece from the row of the search's first state on, up to a byte whose cell
/// needs a look, and reads that. Returns None if the search doesn't die there.
#[inline(always)]
fn run_inside<T: Transitions>(
    table: &T,
    cache: &mut T::Cache,
    rest: &[u8],
    row: usize,
    request: &Request,
) -> Option<Reading>
    requires cache { (T.view table.now false).IsCache cache.old }
    requires row { (T.view table.now false).IsRow cache.old row }
    requires fits { request.now.from + length rest.now ≤ usize.MAX }
    ensures cache { (T.view table.now false).IsCache cache.new }
    ensures spends { (T.view table.now false).Spends cache.old cache.new 1 }
    ensures over { (o : Outset T.Cache)
        → IsAt (T.view table.now false) false o request.now cache.old request.now.from
        (record { row = row; noted = None })
        → IsPieceOf o.seen request.now.end request.now.from rest.now
        → request.now.end ≤ slice_end o.seen
        → IfSome result (λ reading. HasRun (T.view table.now false) false o request.now
        cache.new reading.read reading.ended) }
{
    let (on, there) = table.run::<Forwards>(cache, rest, request.from, row, request.extent);
    let noted = note_of::<Forwards, T>(table, cache, there.noted, None);
    if on == rest.len() {
        return None;
    }
    let byte = rest[on];
    if needs_symbol::<Forwards, T>(table, byte) {
        return None;
    }
    let Ok(cell) = table.next::<Forwards>(cache, there.row, byte) else {
        return None;
    };
    if cell == QUIT {
        return None;
    }
    if has_died(cell) {
        let at = request.from + on;
        let noted = noted_by::<Forwards, T>(table, cache, cell, at, noted);
        let ended = told::<Forwards, T>(table, noted);
        let read = at + 1;
        return Some(Reading { ended, read });
    }
    None
}

/// Returns the cell in which a search forwards begins at the place, by the symbol before. Returns None
/// if the piece doesn't have its scalar whole, or the state was refused.
#[inline(never)]
fn start_by_symbol<T: Transitions>(
    table: &T,
    cache: &mut T::Cache,
    anchored: Anchored,
    piece: &[u8],
    place: usize,
) -> Option<usize>
    requires cache { (T.view table.now false).IsCache cache.old }
    requires reads { (T.view table.now false).alphabet ≡ symbols }
    requires place { (0 < place) × (place ≤ length piece.now) }
    requires past { 128 ≤ slice_index_or piece.now (place - 1) 0 }
    ensures cache { (T.view table.now false).IsCache cache.new }
    ensures spends { (T.view table.now false).Spends cache.old cache.new 1 }
    ensures row { IfSome result (IsRowOf (T.view table.now false) cache.new) }
    ensures cell { IfSome result (BeginsInside (T.view table.now false) cache.new anchored piece.now
        place) }
{
    let byte = piece[place - 1];
    let scalar = scalar_here(piece, place - 1)?;
    let tagged = scalar.tag(place - 1);
    let symbol = Symbol { byte, tagged };
    let Ok(cell) = table.start_beside::<Forwards>(cache, anchored, symbol) else {
        return None;
    };
    Some(cell)
}

/// Returns the cell in which a search forwards begins at the place, by the byte before or its symbol.
/// Returns None if the piece doesn't tell that, or the state was refused.
#[inline(always)]
fn start_inside<T: Transitions>(
    table: &T,
    cache: &mut T::Cache,
    anchored: Anchored,
    piece: &[u8],
    place: usize,
) -> Option<usize>
    requires cache { (T.view table.now false).IsCache cache.old }
    requires place { (0 < place) × (place ≤ length piece.now) }
    ensures cache { (T.view table.now false).IsCache cache.new }
    ensures spends { (T.view table.now false).Spends cache.old cache.new 1 }
    ensures row { IfSome result (IsRowOf (T.view table.now false) cache.new) }
    ensures cell { IfSome result (BeginsInside (T.view table.now false) cache.new anchored piece.now
        place) }
{
    let before = piece[place - 1];
    if needs_symbol::<Forwards, T>(table, before) {
        return start_by_symbol::<T>(table, cache, anchored, piece, place);
    }
    let Ok(cell) = table.start::<Forwards>(cache, anchored, Some(before)) else {
        return None;
    };
    Some(cell)
}

/// Searches as `search` does, forwards in a piece of the text that begins at the position `start`,
/// before the search does. Returns None if the search doesn't die in the piece, or the piece doesn't
/// have a scalar whole of which it would have to read a symbol, or is too short for symbols.
#[inline(always)]
pub fn search_inside<T: Transitions>(
    table: &T,
    cache: &mut T::Cache,
    piece: &[u8],
    start: usize,
    request: &Request,
) -> Option<Reading>
    requires cache { (T.view table.now false).IsCache cache.old }
    requires begins { (start < request.now.from) × (request.now.from ≤ start + length piece.now) }
    requires fits { start + length piece.now ≤ usize.MAX }
    ensures cache { (T.view table.now false).IsCache cache.new }
    ensures spends { (T.view table.now false).Spends cache.old cache.new
        (start + length piece.now - request.now.from + 2) }
    ensures over { (seen : Searched)
        → IsPieceOf seen request.now.end start piece.now
        → request.now.end ≤ slice_end seen
        → IfSome result (λ reading. IsOver (T.view table.now false) false
        (record { seen = seen; begun = cache.old }) request.now
        cache.new reading.read reading.ended) }
{
    let place = request.from - start;
    let cell = start_inside::<T>(table, cache, request.anchored, piece, place)?;
    if cell == QUIT {
        return None;
    }
    if has_died(cell) {
        let ended = Ended::Found(None);
        return Some(Reading {
            ended,
            read: request.from,
        });
    }
    let row = row_of(cell);
    if place < piece.len() && needs_symbol::<Forwards, T>(table, piece[place]) {
        if piece.len() - place < SHORT {
            return None;
        }
        let stand = Stand { row, noted: None };
        let read = read_symbols::<Forwards, T>(table, cache, request, piece, start, place, stand);
        let Err(reading) = read else {
            return None;
        };
        return Some(reading);
    }
    run_inside::<T>(table, cache, &piece[place..], row, request)
}
