//! Search: runs a DFA by its table over a text, forwards to the end of a match or backwards to its
//! start.
ghost use Rattle.std.specs.Prelude.{◌≡◌, ◌+◌, ◌≤◌, ◌<◌, ◌^◌, ℕ, Option, Some, true, false, not, IfErr, IfOk, IfSome, length, slice_range};
ghost use Rattle.rc_text.specs.Text.{Keeps, Searched, slice_end};
ghost use Rattle.rc_program.specs.Sought.{text_of};
ghost use Rattle.rc_determinize.specs.States.{State, best_at};
ghost use Rattle.rc_symbols.specs.Symbols.{IsSymbolAt};
ghost use Rattle.rc_dfa.specs.Machine.{Machine, symbols};
ghost use Rattle.rc_dfa.specs.Runs.{IsByte};
ghost use Rattle.rc_dfa.specs.Symbols.{IsPast, symbol_of};
ghost use Rattle.rc_table_search.specs.Refusals.{is_memory};
ghost use Rattle.rc_table_search.specs.Walks.{first_of, left_of, next_of};
ghost use Rattle.rc_table_search.specs.Ways.{IsBeside, IsBounded, IsInSlice, IsNext, IsOn, LiesWithin, beside_at, offset_of, span};
ghost use Rattle.rc_table_search.specs.Views.{IsFound, IsNoted, IsStepOver, LeadsTo, needs_symbol};
ghost use Rattle.rc_table_search.specs.Searches.{BeginsAt, EndsOn, GoesOnIn, HasBegun, HasLed, HasRun, IsAt, IsBegun, IsLeg, IsOver, IsRowOf, LeadsAt, Origin, Outset, ReadsOn, Says};

use crate::cells::{MET, QUIT, SKIP, has_died, row_of};
use crate::over::run_over;
use crate::refusal::Refusal;
use crate::run::{Extent, Stand};
use crate::scalars::scalar_here;
use crate::sides::{byte_beside, offset, piece_on};
use crate::symbols::symbol_at;
use crate::transitions::Transitions;
use crate::way::{Way, byte, first, left, next, start, step_on};
use rc_dfa::ended::{Ended, Met, Reading};
use rc_dfa::symbols::Symbol;
use rc_text::cursor::Cursor;
use rc_text::input::{Input, content_fits};
use rc_text::types::Anchored;

/// What is asked of a search.
#[derive(Clone, Copy)]
pub struct Request {
    pub anchored: Anchored,
    /// The position at which it begins.
    pub from: usize,
    /// The position up to which it reads, or down to which.
    pub end: usize,
    pub extent: Extent,
}

/// The outcome of a search over some bytes.
#[derive(Clone, Copy)]
pub enum Progress {
    /// It goes on after them.
    Through(Stand),
    /// It ended among them.
    Over(Reading),
}

/// Returns the result of a search that found this, at this position, last.
#[inline(always)]
fn met_at<W: Way, T: Transitions>(table: &T, found: usize, at: usize) -> Ended
    ensures { Says (T.view table.now W.BACKWARDS) W.BACKWARDS (λ m last. last ≡ Some (found, at))
        result }
{
    let pattern = table.pattern::<W>(found);
    Ended::Found(Some(Met { pattern, at }))
}

/// Returns the result of a search, by the note of what it found last.
#[inline(always)]
pub(crate) fn told<W: Way, T: Transitions>(table: &T, noted: Option<(usize, usize)>) -> Ended
    ensures { Says (T.view table.now W.BACKWARDS) W.BACKWARDS
        (λ m last. IsNoted (T.view table.now W.BACKWARDS) m noted last) result }
{
    match noted {
        Some((note, at)) => met_at::<W, T>(table, table.find::<W>(note), at),
        None => Ended::Found(None),
    }
}

/// Returns the note of a run after a cell that was read at the position.
#[inline(always)]
pub(crate) fn noted_by<W: Way, T: Transitions>(
    table: &T,
    cache: &T::Cache,
    cell: usize,
    at: usize,
    noted: Option<(usize, usize)>,
) -> Option<(usize, usize)>
    requires cache { (T.view table.now W.BACKWARDS).IsCache cache.now }
    ensures { (m : Machine) (t : State) (found : Option (ℕ × ℕ))
        → LeadsTo ((T.view table.now W.BACKWARDS).HasState cache.now m)
        (T.view table.now W.BACKWARDS).leaps cell t
        → IsNoted (T.view table.now W.BACKWARDS) m noted found
        → IsNoted (T.view table.now W.BACKWARDS) m result (best_at at t.matched found) }
{
    if cell >= MET {
        return Some((table.note::<W>(cache, row_of(cell)), at));
    }
    noted
}

/// Returns the note of a run over a piece: by the row that it noted last, or else the earlier note.
#[inline(always)]
pub(crate) fn note_of<W: Way, T: Transitions>(
    table: &T,
    cache: &T::Cache,
    last: Option<(usize, usize)>,
    noted: Option<(usize, usize)>,
) -> Option<(usize, usize)>
    requires cache { (T.view table.now W.BACKWARDS).IsCache cache.now }
    ensures { (m : Machine) (before found : Option (ℕ × ℕ))
        → IsFound (T.view table.now W.BACKWARDS) cache.now m last before found
        → IsNoted (T.view table.now W.BACKWARDS) m noted before
        → IsNoted (T.view table.now W.BACKWARDS) m result found }
{
    match last {
        Some((row, at)) => Some((table.note::<W>(cache, row), at)),
        None => noted,
    }
}

/// Returns the position up to which a search reads before it looks whether it rests, at most the
/// position `until`.
#[inline(always)]
fn reach<W: Way, T: Transitions>(table: &T, at: usize, until: usize, request: &Request) -> usize
    requires left { 0 < span W.BACKWARDS at until }
    requires rests { request.now.extent.may_rest ≡ true → W.BACKWARDS ≡ false }
    ensures left { 0 < span W.BACKWARDS at result }
    ensures on { IsOn W.BACKWARDS result until }
{
    if !request.extent.may_rest {
        return until;
    }
    let look = table.next_look(at, request.extent.rest_from);
    look.max(at.saturating_add(1)).min(until)
}

/// Whether the table reads the byte's symbol, and not the byte alone.
#[inline(always)]
pub(crate) fn needs_symbol<W: Way, T: Transitions>(table: &T, byte: u8) -> bool
    ensures { result ≡ needs_symbol (T.view table.now W.BACKWARDS).alphabet byte }
{
    byte >= 128 && table.reads_symbols::<W>()
}

/// Returns the cell to which the byte leads from the row that is read next at the position, or its
/// symbol.
#[inline(always)]
fn cell_on<W: Way, T: Transitions, C: Cursor>(
    table: &T,
    cache: &mut T::Cache,
    input: &mut Input<C>,
    row: usize,
    byte: u8,
    at: usize,
) -> Result<usize, Refusal>
    ghost seen: { Searched }
    requires cache { (T.view table.now W.BACKWARDS).IsCache cache.old }
    requires row { (T.view table.now W.BACKWARDS).IsRow cache.old row }
    requires seen { Keeps seen input.old }
    requires there { IsBeside W.BACKWARDS seen.content at byte }
    requires inside { IsInSlice W.BACKWARDS seen at }
    ensures keeps { Keeps input.old input.new }
    ensures cache { (T.view table.now W.BACKWARDS).IsCache cache.new }
    ensures spends { (T.view table.now W.BACKWARDS).Spends cache.old cache.new 1 }
    ensures cell { IfOk result (LeadsAt (T.view table.now W.BACKWARDS) W.BACKWARDS seen cache.old
        cache.new at row) }
    ensures refused { IfErr result (λ e. (T.view table.now W.BACKWARDS).GivesUp cache.old
        cache.new 1 (is_memory e)) }
{
    if needs_symbol::<W, T>(table, byte) {
        let symbol = symbol_at(input, offset(at, W::BACKWARDS), byte);
        return table.next_over::<W>(cache, row, symbol);
    }
    table.next::<W>(cache, row, byte)
}

/// Goes on by the cell to which the byte leads that is read next at the position. If it may rest,
/// the search does so after that byte.
#[inline(always)]
fn follow<W: Way, T: Transitions>(
    table: &T,
    cache: &T::Cache,
    request: &Request,
    byte: u8,
    at: usize,
    stand: Stand,
    cell: Result<usize, Refusal>,
) -> Progress
    requires cache { (T.view table.now W.BACKWARDS).IsCache cache.now }
    requires row { IfOk cell (IsRowOf (T.view table.now W.BACKWARDS) cache.now) }
    requires rests { request.now.extent.may_rest ≡ true → W.BACKWARDS ≡ false }
    requires low { W.BACKWARDS ≡ true → 0 < at }
    requires fits { W.BACKWARDS ≡ false → at < usize.MAX }
    ensures row { GoesOnIn (T.view table.now W.BACKWARDS) cache.now result }
    ensures leg { (o : Outset T.Cache)
        → HasLed (T.view table.now W.BACKWARDS) W.BACKWARDS o request.now cache.now at stand cell
        → IsNext W.BACKWARDS o.seen request.now.end at byte
        → IsLeg (T.view table.now W.BACKWARDS) W.BACKWARDS o request.now cache.now
        (next_of W.BACKWARDS at) result }
{
    let read = step_on::<W>(at);
    let cell = match cell {
        Ok(cell) => cell,
        Err(refusal) => {
            let ended = Ended::GaveUp(at, refusal.is_memory());
            return Progress::Over(Reading { ended, read: at });
        }
    };
    if cell == QUIT {
        let ended = Ended::Quit(byte, offset(at, W::BACKWARDS));
        return Progress::Over(Reading { ended, read });
    }
    let noted = noted_by::<W, T>(table, cache, cell, at, stand.noted);
    if has_died(cell) {
        let ended = told::<W, T>(table, noted);
        return Progress::Over(Reading { ended, read });
    }
    let extent = request.extent;
    if extent.earliest && noted.is_some() {
        let ended = told::<W, T>(table, noted);
        return Progress::Over(Reading { ended, read });
    }
    let row = row_of(cell);
    if extent.may_rest
        && at >= extent.rest_from
        && noted.is_none()
        && table.is_idle::<W>(cache, row)
    {
        let ended = Ended::Idle(read);
        return Progress::Over(Reading { ended, read });
    }
    Progress::Through(Stand { row, noted })
}

/// Reads the byte next to the position, whatever its cell.
#[inline(always)]
fn step<W: Way, T: Transitions, C: Cursor>(
    table: &T,
    cache: &mut T::Cache,
    input: &mut Input<C>,
    request: &Request,
    byte: u8,
    at: usize,
    stand: Stand,
) -> Progress
    ghost outset: { Outset T.Cache }
    requires at { IsAt (T.view table.now W.BACKWARDS) W.BACKWARDS outset request.now cache.old at stand }
    requires seen { Keeps outset.seen input.old }
    requires inside { IsInSlice W.BACKWARDS outset.seen at }
    requires next { IsNext W.BACKWARDS outset.seen request.now.end at byte }
    requires rests { request.now.extent.may_rest ≡ true → W.BACKWARDS ≡ false }
    requires fits { W.BACKWARDS ≡ false → at < usize.MAX }
    ensures keeps { Keeps input.old input.new }
    ensures leg { IsLeg (T.view table.now W.BACKWARDS) W.BACKWARDS outset request.now cache.new
        (next_of W.BACKWARDS at) result }
{
    let cell = cell_on::<W, T, C>(table, cache, input, stand.row, byte, at);
    follow::<W, T>(table, cache, request, byte, at, stand, cell)
}

/// Returns the cell to which the symbol leads from the row, whether it is known or not.
#[inline(always)]
fn cell_over<W: Way, T: Transitions>(
    table: &T,
    cache: &mut T::Cache,
    row: usize,
    symbol: Symbol,
) -> Result<usize, Refusal>
    requires cache { (T.view table.now W.BACKWARDS).IsCache cache.old }
    requires row { (T.view table.now W.BACKWARDS).IsRow cache.old row }
    requires reads { (T.view table.now W.BACKWARDS).alphabet ≡ symbols }
    requires past { IsPast symbol }
    ensures cache { (T.view table.now W.BACKWARDS).IsCache cache.new }
    ensures spends { (T.view table.now W.BACKWARDS).Spends cache.old cache.new 1 }
    ensures cell { IfOk result (IsStepOver (T.view table.now W.BACKWARDS) W.BACKWARDS cache.old
        cache.new row symbol) }
    ensures refused { IfErr result (λ e. (T.view table.now W.BACKWARDS).GivesUp cache.old
        cache.new 1 (is_memory e)) }
{
    let known = table.known_over::<W>(cache, row, symbol);
    if known != SKIP {
        return Ok(known);
    }
    table.next_over::<W>(cache, row, symbol)
}

/// Reads the symbol next to the position.
#[inline(always)]
fn step_over<W: Way, T: Transitions>(
    table: &T,
    cache: &mut T::Cache,
    request: &Request,
    symbol: Symbol,
    at: usize,
    stand: Stand,
) -> Progress
    requires cache { (T.view table.now W.BACKWARDS).IsCache cache.old }
    requires row { (T.view table.now W.BACKWARDS).IsRow cache.old stand.row }
    requires reads { (T.view table.now W.BACKWARDS).alphabet ≡ symbols }
    requires past { IsPast symbol }
    requires rests { request.now.extent.may_rest ≡ true → W.BACKWARDS ≡ false }
    requires low { W.BACKWARDS ≡ true → 0 < at }
    requires fits { W.BACKWARDS ≡ false → at < usize.MAX }
    ensures cache { (T.view table.now W.BACKWARDS).IsCache cache.new }
    ensures spends { (T.view table.now W.BACKWARDS).Spends cache.old cache.new 1 }
    ensures row { GoesOnIn (T.view table.now W.BACKWARDS) cache.new result }
    ensures leg { (o : Outset T.Cache)
        → IsAt (T.view table.now W.BACKWARDS) W.BACKWARDS o request.now cache.old at stand
        → ((terminator : ℕ) → IsSymbolAt (text_of terminator o.seen) (offset_of W.BACKWARDS at)
        (symbol_of symbol))
        → IsNext W.BACKWARDS o.seen request.now.end at symbol.byte
        → IsLeg (T.view table.now W.BACKWARDS) W.BACKWARDS o request.now cache.new
        (next_of W.BACKWARDS at) result }
{
    let cell = cell_over::<W, T>(table, cache, stand.row, symbol);
    follow::<W, T>(table, cache, request, symbol.byte, at, stand, cell)
}

/// Reads the ASCII byte next to the position.
#[inline(always)]
fn step_alone<W: Way, T: Transitions>(
    table: &T,
    cache: &mut T::Cache,
    request: &Request,
    byte: u8,
    at: usize,
    stand: Stand,
) -> Progress
    requires cache { (T.view table.now W.BACKWARDS).IsCache cache.old }
    requires row { (T.view table.now W.BACKWARDS).IsRow cache.old stand.row }
    requires small { byte < 128 }
    requires rests { request.now.extent.may_rest ≡ true → W.BACKWARDS ≡ false }
    requires low { W.BACKWARDS ≡ true → 0 < at }
    requires fits { W.BACKWARDS ≡ false → at < usize.MAX }
    ensures cache { (T.view table.now W.BACKWARDS).IsCache cache.new }
    ensures spends { (T.view table.now W.BACKWARDS).Spends cache.old cache.new 1 }
    ensures row { GoesOnIn (T.view table.now W.BACKWARDS) cache.new result }
    ensures leg { (o : Outset T.Cache)
        → IsAt (T.view table.now W.BACKWARDS) W.BACKWARDS o request.now cache.old at stand
        → IsInSlice W.BACKWARDS o.seen at
        → IsNext W.BACKWARDS o.seen request.now.end at byte
        → IsLeg (T.view table.now W.BACKWARDS) W.BACKWARDS o request.now cache.new
        (next_of W.BACKWARDS at) result }
{
    let cell = table.next::<W>(cache, stand.row, byte);
    follow::<W, T>(table, cache, request, byte, at, stand, cell)
}

/// Reads the symbols that come next at the place, as far as the piece has their scalars whole, and
/// the ASCII byte after them. The piece begins at the position `start`. Returns the place after
/// them, and how the search stands there. `Err` says how the search ended among them.
#[inline(never)]
pub(crate) fn read_symbols<W: Way, T: Transitions>(
    table: &T,
    cache: &mut T::Cache,
    request: &Request,
    piece: &[u8],
    start: usize,
    from: usize,
    begin: Stand,
) -> Result<(usize, Stand), Reading>
    requires cache { (T.view table.now W.BACKWARDS).IsCache cache.old }
    requires row { (T.view table.now W.BACKWARDS).IsRow cache.old begin.row }
    requires reads { (T.view table.now W.BACKWARDS).alphabet ≡ symbols }
    requires from { from ≤ length piece.now }
    requires rests { request.now.extent.may_rest ≡ true → W.BACKWARDS ≡ false }
    requires fits { start + length piece.now ≤ usize.MAX }
    ensures cache { (T.view table.now W.BACKWARDS).IsCache cache.new }
    ensures spends { (T.view table.now W.BACKWARDS).Spends cache.old cache.new
        (left_of W.BACKWARDS (length piece.now) from) }
    ensures read { IfOk result (λ there. there.0 ≤ length piece.now) }
    ensures at { IfOk result (λ there. ReadsOn (T.view table.now W.BACKWARDS) W.BACKWARDS request.now
        piece.now start cache.old from begin cache.new there.0 there.1) }
    ensures over { IfErr result (EndsOn (T.view table.now W.BACKWARDS) W.BACKWARDS request.now
        piece.now start cache.old from begin cache.new) }
{
    let may_rest = request.extent.may_rest;
    let mut stand = begin;
    let mut place = from;
    while left::<W>(piece, place) > 0 {
        let (on, there) = run_over::<W, T>(table, cache, may_rest, piece, place, stand);
        let rest = left::<W>(piece, on);
        let read = left::<W>(piece, place).saturating_sub(rest);
        table.serve::<W>(cache, read.saturating_add(1));
        if rest == 0 {
            return Ok((on, there));
        }
        let byte = byte::<W>(piece, on);
        if byte < 128 {
            let at = start + on;
            return match step_alone::<W, T>(table, cache, request, byte, at, there) {
                Progress::Through(stand) => Ok((next::<W>(piece, on), stand)),
                Progress::Over(reading) => Err(reading),
            };
        }
        let here = offset(on, W::BACKWARDS);
        let Some(scalar) = scalar_here(piece, here) else {
            return Ok((on, there));
        };
        let tagged = scalar.tag(here);
        let symbol = Symbol { byte, tagged };
        stand = match step_over::<W, T>(table, cache, request, symbol, start + on, there) {
            Progress::Through(next) => next,
            Progress::Over(reading) => return Err(reading),
        };
        place = next::<W>(piece, on);
    }
    Ok((place, stand))
}

/// Runs over a piece up to a byte whose cell needs a look, and reads the symbols that come next. If
/// the piece begins with a symbol, it reads these alone. The piece begins at the position `start`.
/// Returns the place after them, and how the search stands there. `Err` says how the search ended
/// among them.
#[inline(always)]
fn read<W: Way, T: Transitions>(
    table: &T,
    cache: &mut T::Cache,
    request: &Request,
    piece: &[u8],
    start: usize,
    stand: Stand,
) -> Result<(usize, Stand), Reading>
    ghost outset: { Outset T.Cache }
    requires at { IsAt (T.view table.now W.BACKWARDS) W.BACKWARDS outset request.now cache.old
        (start + first_of W.BACKWARDS (length piece.now)) stand }
    requires begins { IsBounded (not W.BACKWARDS) outset.seen request.now.from }
    requires bound { IsBounded W.BACKWARDS outset.seen request.now.end }
    requires piece { piece.now ≡ slice_range outset.seen.content start (start + length piece.now) }
    requires within { LiesWithin W.BACKWARDS start (length piece.now) request.now.end }
    requires rests { request.now.extent.may_rest ≡ true → W.BACKWARDS ≡ false }
    requires fits { start + length piece.now ≤ usize.MAX }
    requires some { 0 < length piece.now }
    ensures read { IfOk result (λ there. there.0 ≤ length piece.now) }
    ensures at { IfOk result (λ there. IsAt (T.view table.now W.BACKWARDS) W.BACKWARDS outset
        request.now cache.new (start + there.0) there.1) }
    ensures over { IfErr result (λ reading. HasRun (T.view table.now W.BACKWARDS) W.BACKWARDS outset
        request.now cache.new reading.read reading.ended) }
{
    let from = first::<W>(piece);
    if needs_symbol::<W, T>(table, byte::<W>(piece, from)) {
        return read_symbols::<W, T>(table, cache, request, piece, start, from, stand);
    }
    let (place, there) = table.run::<W>(cache, piece, start, stand.row, request.extent);
    let row = there.row;
    let noted = note_of::<W, T>(table, cache, there.noted, stand.noted);
    let stand = Stand { row, noted };
    if left::<W>(piece, place) > 0 && needs_symbol::<W, T>(table, byte::<W>(piece, place)) {
        return read_symbols::<W, T>(table, cache, request, piece, start, place, stand);
    }
    Ok((place, stand))
}

/// Runs over the chunks from where the search begins up to the position `until`.
#[inline(always)]
pub(crate) fn cross<W: Way, T: Transitions, C: Cursor>(
    table: &T,
    cache: &mut T::Cache,
    input: &mut Input<C>,
    request: &Request,
    until: usize,
    begin: Stand,
) -> Progress
    ghost outset: { Outset T.Cache }
    requires at { IsAt (T.view table.now W.BACKWARDS) W.BACKWARDS outset request.now cache.old
        request.now.from begin }
    requires seen { Keeps outset.seen input.old }
    requires begins { IsBounded (not W.BACKWARDS) outset.seen request.now.from }
    requires bound { IsBounded W.BACKWARDS outset.seen request.now.end }
    requires ordered { IsOn W.BACKWARDS request.now.from until }
    requires until { IsOn W.BACKWARDS until request.now.end }
    requires within { (request.now.from ≤ length outset.seen.content)
        × (request.now.end ≤ length outset.seen.content) }
    requires fits { length outset.seen.content ≤ usize.MAX }
    requires rests { request.now.extent.may_rest ≡ true → W.BACKWARDS ≡ false }
    ensures keeps { Keeps input.old input.new }
    ensures leg { IsLeg (T.view table.now W.BACKWARDS) W.BACKWARDS outset request.now cache.new
        until result }
{
    let mut stand = begin;
    let mut at = request.from;
    while at != until {
        let stop = reach::<W, T>(table, at, until, request);
        let piece = piece_on::<W, C>(input, at, stop);
        let start = start::<W>(piece, at);
        let (place, next) = match read::<W, T>(table, cache, request, piece, start, stand) {
            Ok(there) => there,
            Err(reading) => return Progress::Over(reading),
        };
        stand = next;
        at = start + place;
        if left::<W>(piece, place) > 0 {
            let byte = byte::<W>(piece, place);
            match step::<W, T, C>(table, cache, input, request, byte, at, stand) {
                Progress::Through(next) => {
                    stand = next;
                    at = step_on::<W>(at);
                }
                Progress::Over(reading) => return Progress::Over(reading),
            }
        } else if request.extent.may_rest
            && at >= request.extent.rest_from
            && stand.noted.is_none()
            && table.is_idle::<W>(cache, stand.row)
        {
            let ended = Ended::Idle(at);
            return Progress::Over(Reading { ended, read: at });
        }
    }
    Progress::Through(stand)
}

/// Returns the cell in which a search begins, by the byte beside or its symbol, or by an end.
#[inline(always)]
fn start_by<W: Way, T: Transitions, C: Cursor>(
    table: &T,
    cache: &mut T::Cache,
    input: &mut Input<C>,
    request: &Request,
    beside: Option<u8>,
) -> Result<usize, Refusal>
    ghost seen: { Searched }
    requires cache { (T.view table.now W.BACKWARDS).IsCache cache.old }
    requires seen { Keeps seen input.old }
    requires beside { beside ≡ beside_at (not W.BACKWARDS) (text_of 0 seen) request.now.from }
    requires small { IsByte beside }
    requires there { IfSome beside (IsBeside (not W.BACKWARDS) seen.content request.now.from) }
    requires inside { IfSome beside (λ _. IsInSlice (not W.BACKWARDS) seen request.now.from) }
    ensures keeps { Keeps input.old input.new }
    ensures cache { (T.view table.now W.BACKWARDS).IsCache cache.new }
    ensures spends { (T.view table.now W.BACKWARDS).Spends cache.old cache.new 1 }
    ensures cell { IfOk result (BeginsAt (T.view table.now W.BACKWARDS) W.BACKWARDS seen cache.new
        request.now.anchored request.now.from) }
    ensures refused { IfErr result (λ e. (T.view table.now W.BACKWARDS).GivesUp cache.old
        cache.new 1 (is_memory e)) }
{
    let Some(byte) = beside else {
        return table.start::<W>(cache, request.anchored, None);
    };
    if needs_symbol::<W, T>(table, byte) {
        let symbol = symbol_at(input, offset(request.from, !W::BACKWARDS), byte);
        return table.start_beside::<W>(cache, request.anchored, symbol);
    }
    table.start::<W>(cache, request.anchored, Some(byte))
}

/// Begins a search: what stands on the side that it does not read decides the start state.
#[inline(always)]
pub(crate) fn begin<W: Way, T: Transitions, C: Cursor>(
    table: &T,
    cache: &mut T::Cache,
    input: &mut Input<C>,
    request: &Request,
    beside: Option<u8>,
) -> Progress
    ghost origin: { Origin T.Cache }
    requires cache { (T.view table.now W.BACKWARDS).IsCache cache.old }
    requires begun { origin.begun ≡ cache.old }
    requires seen { Keeps origin.seen input.old }
    requires ordered { IsOn W.BACKWARDS request.now.from request.now.end }
    requires beside { beside ≡ beside_at (not W.BACKWARDS) (text_of 0 origin.seen) request.now.from }
    requires small { IsByte beside }
    requires there { IfSome beside (IsBeside (not W.BACKWARDS) origin.seen.content request.now.from) }
    requires inside { IfSome beside (λ _. IsInSlice (not W.BACKWARDS) origin.seen request.now.from) }
    ensures keeps { Keeps input.old input.new }
    ensures begun { IsBegun (T.view table.now W.BACKWARDS) W.BACKWARDS origin request.now cache.new
        result }
{
    let read = request.from;
    let cell = match start_by::<W, T, C>(table, cache, input, request, beside) {
        Ok(cell) => cell,
        Err(refusal) => {
            let ended = Ended::GaveUp(read, refusal.is_memory());
            return Progress::Over(Reading { ended, read });
        }
    };
    if cell == QUIT {
        let ended = match beside {
            Some(byte) => Ended::Quit(byte, offset(read, !W::BACKWARDS)),
            None => Ended::Found(None),
        };
        return Progress::Over(Reading { ended, read });
    }
    if has_died(cell) {
        let ended = Ended::Found(None);
        return Progress::Over(Reading { ended, read });
    }
    let row = row_of(cell);
    Progress::Through(Stand { row, noted: None })
}

/// Ends a search that came to its bound. The byte beyond, or the end of what the search sees,
/// decides whether something is found there.
#[inline(never)]
pub(crate) fn finish<W: Way, T: Transitions, C: Cursor>(
    table: &T,
    cache: &mut T::Cache,
    input: &mut Input<C>,
    request: &Request,
    stand: Stand,
) -> Ended
    ghost outset: { Outset T.Cache }
    requires at { IsAt (T.view table.now W.BACKWARDS) W.BACKWARDS outset request.now cache.old
        request.now.end stand }
    requires seen { Keeps outset.seen input.old }
    requires low { outset.seen.slice.start ≤ request.now.end }
    requires high { request.now.end ≤ slice_end outset.seen }
    ensures keeps { Keeps input.old input.new }
    ensures over { HasRun (T.view table.now W.BACKWARDS) W.BACKWARDS outset request.now cache.new
        (request.now.end + 1) result }
{
    let end = request.end;
    let Some(byte) = byte_beside(input, end, W::BACKWARDS) else {
        return match table.at_end::<W>(cache, stand.row) {
            Ok(Some(found)) => met_at::<W, T>(table, found, end),
            Ok(None) => told::<W, T>(table, stand.noted),
            Err(refusal) => Ended::GaveUp(end, refusal.is_memory()),
        };
    };
    let cell = match cell_on::<W, T, C>(table, cache, input, stand.row, byte, end) {
        Ok(cell) => cell,
        Err(refusal) => return Ended::GaveUp(end, refusal.is_memory()),
    };
    if cell == QUIT {
        return Ended::Quit(byte, offset(end, W::BACKWARDS));
    }
    told::<W, T>(
        table,
        noted_by::<W, T>(table, cache, cell, end, stand.noted),
    )
}

/// Runs from where the search begins to where it ends. Returns what was found last, and how far it
/// looked.
#[inline(always)]
fn go_on<W: Way, T: Transitions, C: Cursor>(
    table: &T,
    cache: &mut T::Cache,
    input: &mut Input<C>,
    request: &Request,
    begin: Stand,
) -> Reading
    ghost outset: { Outset T.Cache }
    requires at { IsAt (T.view table.now W.BACKWARDS) W.BACKWARDS outset request.now cache.old
        request.now.from begin }
    requires seen { Keeps outset.seen input.old }
    requires low { (outset.seen.slice.start ≤ request.now.from)
        × (outset.seen.slice.start ≤ request.now.end) }
    requires ordered { IsOn W.BACKWARDS request.now.from request.now.end }
    requires high { (request.now.from ≤ slice_end outset.seen)
        × (request.now.end ≤ slice_end outset.seen) }
    requires fits { length outset.seen.content + 1 < 2 ^ 64 }
    requires rests { request.now.extent.may_rest ≡ true → W.BACKWARDS ≡ false }
    ensures keeps { Keeps input.old input.new }
    ensures over { HasRun (T.view table.now W.BACKWARDS) W.BACKWARDS outset request.now cache.new
        result.read result.ended }
{
    match cross::<W, T, C>(table, cache, input, request, request.end, begin) {
        Progress::Through(last) => {
            let ended = finish::<W, T, C>(table, cache, input, request, last);
            let read = request.end + 1;
            Reading { ended, read }
        }
        Progress::Over(reading) => reading,
    }
}

/// Searches in bytes of the whole content, wherever chunks are cut. Returns what was found last,
/// and how far the search looked. If a search forwards comes to its bound, it looks at the byte
/// there, or sees that none is.
#[inline(never)]
pub fn search<W: Way, T: Transitions, C: Cursor>(
    table: &T,
    cache: &mut T::Cache,
    input: &mut Input<C>,
    request: &Request,
) -> Reading
    ghost origin: { Origin T.Cache }
    requires origin { origin ≡ record { seen = input.old; begun = cache.old } }
    requires cache { (T.view table.now W.BACKWARDS).IsCache cache.old }
    requires low { (input.old.slice.start ≤ request.now.from) × (input.old.slice.start ≤ request.now.end) }
    requires ordered { IsOn W.BACKWARDS request.now.from request.now.end }
    requires high { (request.now.from ≤ slice_end input.old) × (request.now.end ≤ slice_end input.old) }
    requires rests { request.now.extent.may_rest ≡ true → W.BACKWARDS ≡ false }
    ensures keeps { Keeps input.old input.new }
    ensures over { IsOver (T.view table.now W.BACKWARDS) W.BACKWARDS origin request.now cache.new
        result.read result.ended }
{
    content_fits(input);
    let beside = byte_beside(input, request.from, !W::BACKWARDS);
    let stand = match begin::<W, T, C>(table, cache, input, request, beside) {
        Progress::Through(stand) => stand,
        Progress::Over(reading) => return reading,
    };
    go_on::<W, T, C>(table, cache, input, request, stand)
}
