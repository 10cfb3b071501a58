//! Cache: the states of one direction with their rows. If a state doesn't fit into the capacity,
//! all others are dropped.
ghost use Rattle.std.specs.Prelude.{◌≡◌, ◌+◌, ◌*◌, ◌<◌, ◌≤◌, ◌↔◌, length, IfOk, IfErr, IsTrue, MatchResult, Some, true, false, ℕ, Option, IfSome, slice_get};
ghost use Rattle.rc_determinize.specs.Places.{state_of};
ghost use Rattle.rc_determinize.specs.States as states;
ghost use Rattle.rc_dfa.specs.Keys.{IsAbsent};
ghost use Rattle.rc_dfa.specs.Machine.{is_idle, longest_in};
ghost use Rattle.rc_dfa.specs.Laws.{IsWithin};
ghost use Rattle.rc_lazy_dfa.specs.Stores.{Frame, Held, IsFutile, Spends, IsRefused, IsRow, weight_of};
ghost use Rattle.rc_table_search.specs.declared.refusal.Refusal.TheVariants.{Short};
ghost use Rattle.rc_lazy_dfa.specs.Moves.{IsReset, HasRoom, Adds, IsNamed, HasCell, HasStart, Writes};

use crate::cells::{UNKNOWN, marks};
use rc_determinize::state::State;
use rc_dfa::states::States;
use rc_table_search::cells::DEAD;
use rc_table_search::refusal::Refusal;
use std::alloc::{AllocError, Global};

/// States, each with a row of cells.
#[derive(Drop)]
pub(crate) struct Store {
    pub states: States,
    /// The rows, one after another.
    pub cells: Vec<usize>,
    /// The start cells: for each kind of anchoring, one for each column of what stands beside.
    pub starts: Vec<usize>,
    /// How many cells a row has: one for each column of the automaton, and one for the end.
    pub width: usize,
    /// How many bytes it may take.
    pub capacity: usize,
    /// How many bytes it takes.
    pub used: usize,
    /// How many times it was cleared, at most `usize::MAX`.
    pub clears: usize,
}

/// The name of a state: the cell that leads to it, and whether all earlier rows were kept.
#[derive(Clone, Copy)]
pub(crate) struct Named {
    pub cell: usize,
    pub kept: bool,
}

/// Returns how many bytes a state takes, with its row.
fn weight(width: usize, state: &State) -> usize
    requires { weight_of width (state_of state.now) ≤ usize.MAX }
    ensures { result ≡ weight_of width (state_of state.now) }
{
    8 * width + 32 + 8 * state.list.len()
}

/// Whether the only walks in the state are those that begin there or later.
fn is_idle(state: &State) -> bool
    ensures { result ≡ is_idle (state_of state.now) }
{
    state.goes_on && state.list.len() == 1 && state.list[0] == 0
}

impl Store {
    /// Drops all states, and counts that.
    fn clear(&mut self)
        ghost f: { Frame }
        requires held { Held f self.old }
        ensures held { Held f self.new }
        ensures reset { IsReset self.old self.new }
    {
        self.states.clear();
        self.cells.clear();
        self.starts.fill(UNKNOWN);
        self.used = 24 * self.width + 8 * self.starts.len() + 96;
        self.clears = self.clears.saturating_add(1);
    }

    /// Whether clearing is futile: it was done three times, and since the last time each state
    /// served fewer than ten bytes on average.
    fn is_futile(&self, served: usize) -> bool
        ensures { IsTrue result ↔ IsFutile self.now served }
    {
        self.clears >= 3 && served / 10 < self.states.len()
    }

    /// Makes room for `weight` bytes, and drops all states if there is none. Returns whether they
    /// were kept.
    fn make_room(&mut self, weight: usize, served: usize) -> Result<bool, Refusal>
        ghost f: { Frame }
        requires held { Held f self.old }
        requires light { weight ≤ 8 * f.width + 32 + 8
            * longest_in f.machine.direction (length f.machine.setting.places) }
        ensures held { Held f self.new }
        ensures room { IfOk result (HasRoom self.old self.new weight) }
        ensures refused { IfErr result (λ e. (self.new ≡ self.old)
            × IsRefused f self.old self.new e) }
        ensures futile { MatchResult result
            (λ kept. kept ≡ false → ¬ IsFutile self.old served)
            (λ e. (e ≡ Short) × IsFutile self.old served) }
    {
        if weight <= self.capacity - self.used {
            return Ok(true);
        }
        if self.is_futile(served) {
            return Err(Refusal::Short);
        }
        self.clear();
        Ok(false)
    }

    /// Adds a state for which there is room, and returns its row. `Err` means out of memory; then
    /// it isn't added.
    fn add(&mut self, state: &State) -> Result<usize, AllocError>
        ghost f: { Frame }
        requires held { Held f self.old }
        requires within { IsWithin f.machine (state_of state.now) }
        requires room { self.old.used + weight_of f.width (state_of state.now) ≤ self.old.capacity }
        requires absent { IsAbsent self.old.states (state_of state.now) }
        ensures held { Held f self.new }
        ensures added { IfOk result (λ row. Adds f self.old self.new (state_of state.now) row) }
        ensures kept { IfErr result (λ _. Writes self.old self.new) }
    {
        let row = self.cells.len();
        self.cells.try_reserve(self.width)?;
        self.states.add(state)?;
        self.cells.resize(row + self.width, UNKNOWN)?;
        self.used += weight(self.width, state);
        Ok(row)
    }

    /// Returns the cell that leads to the state, and adds the state if it is new. If there is no
    /// room for it, all others are dropped. `served` is how many bytes were read since that was
    /// done last.
    pub(crate) fn name(&mut self, state: &State, served: usize) -> Result<Named, Refusal>
        ghost f: { Frame }
        requires held { Held f self.old }
        requires within { IsWithin f.machine (state_of state.now) }
        ensures held { Held f self.new }
        ensures spends { Spends f self.old self.new 1 }
        ensures named { IfOk result (IsNamed f self.old self.new (state_of state.now)) }
        ensures refused { IfErr result (IsRefused f self.old self.new) }
    {
        let marks = marks(state);
        if marks == DEAD {
            return Ok(Named {
                cell: DEAD,
                kept: true,
            });
        }
        if let Some(number) = self.states.find(state)? {
            return Ok(Named {
                cell: number * self.width + marks,
                kept: true,
            });
        }
        let kept = self.make_room(weight(self.width, state), served)?;
        let row = self.add(state)?;
        Ok(Named {
            cell: row + marks,
            kept,
        })
    }

    /// Writes a cell of a row.
    pub(crate) fn write(&mut self, row: usize, column: usize, cell: usize)
        ghost f: { Frame }
        requires held { Held f self.old }
        requires cell { HasCell f self.old.states row column cell }
        ensures held { Held f self.new }
        ensures writes { Writes self.old self.new }
    {
        self.cells[row + column] = cell;
    }

    /// Writes a start cell, by the number of its kind of anchoring.
    pub(crate) fn write_start(&mut self, mode: usize, column: usize, cell: usize)
        ghost f: { Frame }
        requires held { Held f self.old }
        requires cell { HasStart f self.old.states mode column cell }
        ensures held { Held f self.new }
        ensures writes { Writes self.old self.new }
    {
        self.starts[mode * self.width + column] = cell;
    }

    /// Returns what was found on the way to the row.
    #[inline(always)]
    pub(crate) fn stop_at(&self, row: usize) -> Option<usize>
        requires { 0 < self.now.width }
        ensures { (f : Frame) → Held f self.now → (s : states.State)
            → IsRow f.width self.now.states row s → result ≡ s.matched }
    {
        let number = row / self.width;
        if number < self.states.len() {
            return self.states.get(number).matched;
        }
        None
    }

    /// Whether the only walks in the state of the row are those that begin there or later.
    #[inline(always)]
    pub(crate) fn idles_at(&self, row: usize) -> bool
        requires { 0 < self.now.width }
        ensures { (f : Frame) → Held f self.now → (s : states.State)
            → IsRow f.width self.now.states row s → result ≡ is_idle s }
    {
        let number = row / self.width;
        if number < self.states.len() {
            return is_idle(self.states.get(number));
        }
        false
    }
}
