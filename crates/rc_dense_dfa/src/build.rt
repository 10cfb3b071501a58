//! DFA construction: determinizes until no new state comes up, and builds the table.
ghost use Rattle.std.specs.Prelude.{◌≡◌, ◌+◌, ◌*◌, ◌<◌, ◌≤◌, length, IfOk, IfErr, IfSome, Some, ℕ, slice_get, []};
ghost use Rattle.rc_determinize.specs.Places.{state_of};
ghost use Rattle.rc_determinize.specs.States as states;
ghost use Rattle.rc_dfa.specs.Machine.{Machine, IsMachine, bytes, is_idle};
ghost use Rattle.rc_dfa.specs.Automata.{machine_of, alphabet_in, samples_of};
ghost use Rattle.rc_dense_dfa.specs.Cells.{TellsOnly, met};
ghost use Rattle.rc_dense_dfa.specs.Tables.{code_of, mode_of, dead_state};
ghost use Rattle.rc_dense_dfa.specs.Makes.{IsMade, IsRefused};
ghost use Rattle.rc_dense_dfa.specs.Rows.{IsMaker, Grows, AreEnds, AreRows, AreStarts, IsEndOf, AreTells, AreIdles, AreParts};
ghost use Rattle.rc_dense_dfa.specs.declared.error.TableError.TheVariants.{Memory};

use crate::error::TableError;
use crate::exits::{Exits, are_few, exits_of};
use crate::leaps::{Leap, is_told, leaps_of};
use crate::maker::Maker;
use crate::marks::mark;
use crate::names::{Names, dead};
use crate::table::Table;
use rc_determinize::scratch::Scratch;
use rc_determinize::state::State;
use rc_dfa::automaton::{Automaton, Direction};
use rc_dfa::states::States;
use rc_text::types::{Anchored, PatternID};
use std::alloc::{AllocError, Global};

/// Encodes what was found as a number: 0 for nothing, else one more. Returns None if that
/// overflows.
fn code_of(met: Option<usize>) -> Option<usize>
    ensures { IfSome result (λ code. code ≡ code_of met) }
{
    match met {
        None => Some(0),
        Some(number) => number.checked_add(1),
    }
}

/// Returns the kind of anchoring with this number: 0 is unanchored, 1 anchored, and p + 2 anchored
/// for pattern p. Returns None if there is no such pattern.
fn anchoring(mode: usize) -> Option<Anchored>
    ensures { IfSome result (λ anchored. mode_of anchored ≡ mode) }
{
    match mode {
        0 => Some(Anchored::No),
        1 => Some(Anchored::Yes),
        _ => match PatternID::new(mode - 2) {
            Some(pattern) => Some(Anchored::Pattern(pattern)),
            None => None,
        },
    }
}

/// Returns the start cells: for each kind of anchoring one for each class of the byte beside, and
/// one for an end.
fn starts_of(
    alloc: Global,
    maker: &mut Maker,
    automaton: &Automaton,
    direction: Direction,
    modes: usize,
) -> Result<Vec<usize>, TableError>
    ghost m: { Machine }
    requires same { machine_of automaton.now direction ≡ m }
    requires maker { IsMaker m maker.old }
    requires width { maker.old.names.width ≡ length (samples_of automaton.now) }
    requires modes { modes ≡ length m.entries + 2 }
    ensures maker { IfOk result (λ _. IsMaker m maker.new) }
    ensures grows { IfOk result (λ _. Grows maker.old.names maker.new.names) }
    ensures starts { IfOk result (λ starts. AreStarts m
        (samples_of automaton.now) maker.new.names.states modes 0 starts.items) }
    ensures refused { IfErr result (IsRefused m maker.old.names.width maker.old.names.limit) }
{
    let mut starts = Vec::new(alloc);
    for mode in 0..modes {
        let Some(anchored) = anchoring(mode) else {
            return Err(TableError::Memory);
        };
        maker.starts_by(automaton, direction, &anchored, &mut starts)?;
        maker.start_at_end(automaton, direction, &anchored, &mut starts)?;
    }
    Ok(starts)
}

/// Returns the code of what is found at the end of what the search sees, from the state of the
/// number.
fn end_of(
    maker: &mut Maker,
    automaton: &Automaton,
    direction: Direction,
    number: usize,
) -> Result<usize, TableError>
    ghost m: { Machine }
    requires same { machine_of automaton.now direction ≡ m }
    requires maker { IsMaker m maker.old }
    requires number { number < length maker.old.names.states }
    ensures maker { IfOk result (λ _. IsMaker m maker.new) }
    ensures names { maker.new.names ≡ maker.old.names }
    ensures end { IfOk result (λ code. IsEndOf m maker.old.names.states number code) }
    ensures refused { IfErr result (λ e. e ≡ Memory) }
{
    maker.lead(automaton, direction, number, None)?;
    let Some(code) = code_of(maker.to.matched) else {
        return Err(TableError::Memory);
    };
    Ok(code)
}

/// Returns for each row the code of what was found on the way to it.
fn tells_of(alloc: Global, states: &States) -> Result<Vec<usize>, TableError>
    ensures tells { IfOk result (λ tells. (length tells.items ≡ length states.now)
        × AreTells states.now tells.items) }
    ensures refused { IfErr result (λ e. e ≡ Memory) }
{
    let mut tells = Vec::new(alloc);
    for number in 0..states.len() {
        let Some(code) = code_of(states.get(number).matched) else {
            return Err(TableError::Memory);
        };
        tells.push(code)?;
    }
    Ok(tells)
}

/// Whether the only walks in the state are those that begin there or later.
fn is_idle(state: &State) -> bool
    ensures { result ≡ is_idle (state_of state.now) }
{
    state.goes_on && state.list.len() == 1 && state.list[0] == 0
}

/// Returns for each row whether nothing is under way in its state but walks that begin there or
/// later.
fn idles_of(alloc: Global, states: &States) -> Result<Vec<bool>, TableError>
    ensures idles { IfOk result (λ idles. (length idles.items ≡ length states.now)
        × AreIdles states.now idles.items) }
    ensures refused { IfErr result (λ e. e ≡ Memory) }
{
    let mut idles = Vec::new(alloc);
    for number in 0..states.len() {
        idles.push(is_idle(states.get(number)))?;
    }
    Ok(idles)
}

/// The rows of a table, and for each the code of what is found at the end.
#[derive(Drop)]
struct Rows {
    cells: Vec<usize>,
    ends: Vec<usize>,
}

/// Builds the rows of all states, also of those that come up on the way.
fn rows_of(
    alloc: Global,
    maker: &mut Maker,
    automaton: &Automaton,
    direction: Direction,
) -> Result<Rows, TableError>
    ghost m: { Machine }
    requires same { machine_of automaton.now direction ≡ m }
    requires maker { IsMaker m maker.old }
    requires width { maker.old.names.width ≡ length (samples_of automaton.now) }
    ensures maker { IfOk result (λ _. IsMaker m maker.new) }
    ensures grows { IfOk result (λ _. Grows maker.old.names maker.new.names) }
    ensures rows { IfOk result (λ rows. AreRows m (samples_of automaton.now) maker.new.names.states
        (length maker.new.names.states) 0 rows.cells.items) }
    ensures ends { IfOk result (λ rows. AreEnds m maker.new.names.states rows.ends.items
        × (length rows.ends.items ≡ length maker.new.names.states)) }
    ensures refused { IfErr result (IsRefused m maker.old.names.width maker.old.names.limit) }
{
    let mut cells = Vec::new(alloc);
    let mut ends = Vec::new(alloc);
    let mut number = 0;
    while number < maker.names.states.len() {
        maker.row(automaton, direction, number, &mut cells)?;
        let end = end_of(maker, automaton, direction, number)?;
        ends.push(end)?;
        number += 1;
    }
    Ok(Rows { cells, ends })
}

/// Prepares to build a table. The first state is the dead one.
fn maker_of(
    alloc: Global,
    scratch: Scratch,
    width: usize,
    starts: usize,
    limit: Option<usize>,
) -> Result<Maker, TableError>
    ghost m: { Machine }
    requires machine { IsMachine m }
    requires scratch { scratch ≡ length m.setting.places }
    requires wide { (0 < width) × (width < met) }
    requires starts { starts ≡ (length m.entries + 2) * (width + 1) }
    ensures maker { IfOk result (IsMaker m) }
    ensures width { IfOk result (λ k. k.names.width ≡ width) }
    ensures limit { IfOk result (λ k. k.names.limit ≡ limit) }
    ensures first { IfOk result (λ k. slice_get k.names.states 0 ≡ Some dead_state) }
    ensures refused { IfErr result (IsRefused m width limit) }
{
    let to = dead(alloc);
    let mut names = Names::new(alloc, width, starts, limit)?;
    names.name(&to)?;
    Ok(Maker { names, scratch, to })
}

/// Returns how many start cells a table has, or None if that overflows.
fn start_count(modes: usize, width: usize) -> Option<usize>
    ensures { IfSome result (λ count. count ≡ modes * (width + 1)) }
{
    modes.checked_mul(width.checked_add(1)?)
}

/// Prepares to build the automaton's table.
fn begun(
    alloc: Global,
    automaton: &Automaton,
    direction: Direction,
    modes: usize,
    limit: Option<usize>,
) -> Result<Maker, TableError>
    ghost m: { Machine }
    requires same { machine_of automaton.now direction ≡ m }
    requires machine { IsMachine m }
    requires wide { 0 < length (samples_of automaton.now) }
    requires modes { modes ≡ length m.entries + 2 }
    ensures maker { IfOk result (IsMaker m) }
    ensures width { IfOk result (λ k. k.names.width ≡ length (samples_of automaton.now)) }
    ensures limit { IfOk result (λ k. k.names.limit ≡ limit) }
    ensures first { IfOk result (λ k. slice_get k.names.states 0 ≡ Some dead_state) }
    ensures refused { IfErr result (IsRefused m (length (samples_of automaton.now)) limit) }
{
    let width = automaton.samples().len();
    let Some(starts) = start_count(modes, width) else {
        return Err(TableError::Memory);
    };
    let scratch = automaton.create_scratch(alloc)?;
    maker_of(alloc, scratch, width, starts, limit)
}

/// The parts of a table.
#[derive(Drop)]
struct Parts {
    maker: Maker,
    starts: Vec<usize>,
    rows: Rows,
    tells: Vec<usize>,
    idles: Vec<bool>,
}

/// Builds the parts of the automaton's table.
fn parts_of(
    alloc: Global,
    automaton: &Automaton,
    direction: Direction,
    limit: Option<usize>,
) -> Result<Parts, TableError>
    ghost m: { Machine }
    requires same { machine_of automaton.now direction ≡ m }
    requires machine { IsMachine m }
    requires wide { 0 < length (samples_of automaton.now) }
    ensures parts { IfOk result (λ p. AreParts m
        (samples_of automaton.now) limit p.maker.names p.starts.items p.rows.cells.items
        p.rows.ends.items p.tells.items p.idles.items) }
    ensures refused { IfErr result (IsRefused m (length (samples_of automaton.now)) limit) }
{
    let Some(modes) = automaton.pattern_len().checked_add(2) else {
        return Err(TableError::Memory);
    };
    let mut maker = begun(alloc, automaton, direction, modes, limit)?;
    let starts = starts_of(alloc, &mut maker, automaton, direction, modes)?;
    let rows = rows_of(alloc, &mut maker, automaton, direction)?;
    let tells = tells_of(alloc, &maker.names.states)?;
    let idles = idles_of(alloc, &maker.names.states)?;
    Ok(Parts {
        maker,
        starts,
        rows,
        tells,
        idles,
    })
}

/// Whether some row has few exits.
fn have_few(exits: &[Exits]) -> bool {
    for row in exits {
        if are_few(*row) {
            return true;
        }
    }
    false
}

/// Returns which rows get the mark `SKIP`: those with few exits or a leap, and with `rests` those
/// at which searches may rest.
fn hints_of(
    alloc: Global,
    exits: &[Exits],
    leaps: &[Leap],
    width: usize,
    idles: &[bool],
    rests: bool,
) -> Result<Vec<bool>, AllocError>
    requires { 0 < width }
{
    let mut hints = Vec::new(alloc);
    for number in 0..idles.len() {
        let few = match exits.get(number) {
            Some(exits) => are_few(*exits),
            None => false,
        };
        let leaps = is_told(leaps, number, width);
        hints.push(few || leaps || rests && idles[number])?;
    }
    Ok(hints)
}

/// Returns the greatest of the codes, or 0 if there are none.
fn greatest_code(codes: &[usize]) -> usize {
    let mut greatest = 0;
    for code in codes {
        greatest = greatest.max(*code);
    }
    greatest
}

/// Returns what is found on the way to each row to which something is found, if that is the same
/// for all of them.
fn only_told(tells: &[usize]) -> Option<usize>
    ensures { (found : ℕ) → result ≡ Some found → TellsOnly tells.now found }
{
    let greatest = greatest_code(tells);
    for number in 0..tells.len() {
        let code = tells[number];
        if code != 0 && code != greatest {
            return None;
        }
    }
    if greatest == 0 {
        return None;
    }
    Some(greatest - 1)
}

/// Builds the table of all states that searches by the automaton can reach in this direction. The
/// automaton reads bytes. The error is `TooBig` if the states weigh more than `limit` bytes, and
/// `Memory` if out of memory.
/// With `rests`, searches that may rest look at each row at which they may.
pub(crate) fn table_of(
    alloc: Global,
    automaton: &Automaton,
    direction: Direction,
    limit: Option<usize>,
    rests: bool,
) -> Result<Table, TableError>
    requires { alphabet_in automaton.now ≡ bytes }
    ensures made { IfOk result (IsMade (machine_of automaton.now direction)
        (length (samples_of automaton.now)) limit) }
    ensures refused { IfErr result (IsRefused (machine_of automaton.now direction)
        (length (samples_of automaton.now)) limit) }
{
    let shown = automaton.classes();
    let classes = Vec::from_slice(alloc, shown)?;
    let width = automaton.samples().len();
    let mut parts = parts_of(alloc, automaton, direction, limit)?;
    let exits = exits_of(alloc, &classes, &parts.rows.cells, width, direction)?;
    let leaps = leaps_of(
        alloc,
        &classes,
        &parts.rows.cells,
        &exits,
        &parts.idles,
        width,
    )?;
    let hints = hints_of(alloc, &exits, &leaps, width, &parts.idles, rests)?;
    let skips = have_few(&exits);
    mark(&mut parts.rows.cells, width, &hints);
    let only = only_told(&parts.tells);
    Ok(Table {
        classes,
        width,
        cells: parts.rows.cells,
        ends: parts.rows.ends,
        tells: parts.tells,
        only,
        idles: parts.idles,
        rests,
        exits,
        skips,
        leaps,
        starts: parts.starts,
    })
}
