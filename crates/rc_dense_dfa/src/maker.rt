//! DFA construction: the cells of rows and of start states, by steps of the determinizer.
ghost use Rattle.std.specs.Prelude.{◌≡◌, ◌+◌, ◌<◌, length, IfOk, IfErr, Some, slice_get};
ghost use Rattle.rc_determinize.specs.Places.{state_of};
ghost use Rattle.rc_determinize.specs.States as states;
ghost use Rattle.rc_dfa.specs.Machine.{Machine, IsAsked, Leads, Begins};
ghost use Rattle.rc_dfa.specs.Automata.{machine_of, samples_of};
ghost use Rattle.rc_dfa.specs.Runs.{IsByte};
ghost use Rattle.rc_dense_dfa.specs.Tables.{mode_of};
ghost use Rattle.rc_dense_dfa.specs.Makes.{IsRefused};
ghost use Rattle.rc_dense_dfa.specs.Rows.{IsMaker, Grows, IsCell, AreRows, AreStarts};

use crate::error::TableError;
use crate::names::Names;
use rc_determinize::scratch::Scratch;
use rc_determinize::state::State;
use rc_dfa::automaton::{Automaton, Direction};
use rc_table_search::cells::QUIT;
use rc_text::types::Anchored;
use std::alloc::AllocError;

/// The state of a construction.
#[derive(Drop)]
pub(crate) struct Maker {
    pub names: Names,
    pub scratch: Scratch,
    /// The state that was built last.
    pub to: State,
}

impl Maker {
    /// Makes the state to which a byte leads from the state of the number; None is the end.
    pub(crate) fn lead(
        &mut self,
        automaton: &Automaton,
        direction: Direction,
        number: usize,
        beside: Option<u8>,
    ) -> Result<(), AllocError>
        requires maker { IsMaker (machine_of automaton.now direction) self.old }
        requires number { number < length self.old.names.states }
        ensures names { self.new.names ≡ self.old.names }
        ensures scratch { self.new.scratch ≡ self.old.scratch }
        ensures leads { IfOk result (λ _. (s : states.State)
            → slice_get self.old.names.states number ≡ Some s
            → Leads (machine_of automaton.now direction) s beside (state_of self.new.to)) }
    {
        let from = self.names.states.get(number);
        automaton.step(direction, &mut self.scratch, from, beside, &mut self.to)
    }

    /// Returns the cell of a state, by its number, and a byte.
    pub(crate) fn cell(
        &mut self,
        automaton: &Automaton,
        direction: Direction,
        number: usize,
        byte: u8,
    ) -> Result<usize, TableError>
        ghost m: { Machine }
        requires same { machine_of automaton.now direction ≡ m }
        requires maker { IsMaker m self.old }
        requires number { number < length self.old.names.states }
        ensures maker { IfOk result (λ _. IsMaker m self.new) }
        ensures grows { IfOk result (λ _. Grows self.old.names self.new.names) }
        ensures cell { IfOk result (λ cell. (s : states.State)
            → slice_get self.old.names.states number ≡ Some s →
            IsCell m self.new.names.width self.new.names.states (Some byte)
            (Leads m s (Some byte)) cell) }
        ensures refused { IfErr result (IsRefused m self.old.names.width self.old.names.limit) }
    {
        if !automaton.may_read(Some(byte)) {
            return Ok(QUIT);
        }
        self.lead(automaton, direction, number, Some(byte))?;
        let name = self.names.name(&self.to)?;
        Ok(name)
    }

    /// Returns the start cell for a kind of anchoring and the byte beside, or an end.
    pub(crate) fn start(
        &mut self,
        automaton: &Automaton,
        direction: Direction,
        anchored: Anchored,
        beside: Option<u8>,
    ) -> Result<usize, TableError>
        ghost m: { Machine }
        requires same { machine_of automaton.now direction ≡ m }
        requires maker { IsMaker m self.old }
        requires asked { IsAsked m anchored }
        requires byte { IsByte beside }
        ensures maker { IfOk result (λ _. IsMaker m self.new) }
        ensures grows { IfOk result (λ _. Grows self.old.names self.new.names) }
        ensures cell { IfOk result (IsCell m self.new.names.width self.new.names.states beside
            (Begins m anchored beside)) }
        ensures refused { IfErr result (IsRefused m self.old.names.width self.old.names.limit) }
    {
        if !automaton.may_read(beside) {
            return Ok(QUIT);
        }
        automaton.begin(direction, anchored, beside, &mut self.to)?;
        let name = self.names.name(&self.to)?;
        Ok(name)
    }

    /// Appends the cells of the row of the number, one for each class.
    pub(crate) fn row(
        &mut self,
        automaton: &Automaton,
        direction: Direction,
        number: usize,
        cells: &mut Vec<usize>,
    ) -> Result<(), TableError>
        ghost m: { Machine }
        requires same { machine_of automaton.now direction ≡ m }
        requires maker { IsMaker m self.old }
        requires number { number < length self.old.names.states }
        requires width { self.old.names.width ≡ length (samples_of automaton.now) }
        requires rows { AreRows m (samples_of automaton.now) self.old.names.states number 0
            cells.old.items }
        ensures maker { IfOk result (λ _. IsMaker m self.new) }
        ensures grows { IfOk result (λ _. Grows self.old.names self.new.names) }
        ensures rows { IfOk result (λ _. AreRows m (samples_of automaton.now) self.new.names.states
            (number + 1) 0 cells.new.items) }
        ensures refused { IfErr result (IsRefused m self.old.names.width self.old.names.limit) }
    {
        for byte in automaton.samples() {
            let cell = self.cell(automaton, direction, number, *byte)?;
            cells.push(cell)?;
        }
        Ok(())
    }

    /// Appends the start cells for a kind of anchoring, one for each class of the byte beside.
    pub(crate) fn starts_by(
        &mut self,
        automaton: &Automaton,
        direction: Direction,
        anchored: &Anchored,
        starts: &mut Vec<usize>,
    ) -> Result<(), TableError>
        ghost m: { Machine }
        requires same { machine_of automaton.now direction ≡ m }
        requires maker { IsMaker m self.old }
        requires asked { IsAsked m anchored.now }
        requires width { self.old.names.width ≡ length (samples_of automaton.now) }
        requires starts { AreStarts m (samples_of automaton.now) self.old.names.states
            (mode_of anchored.now) 0 starts.old.items }
        ensures maker { IfOk result (λ _. IsMaker m self.new) }
        ensures grows { IfOk result (λ _. Grows self.old.names self.new.names) }
        ensures starts { IfOk result (λ _. AreStarts m
            (samples_of automaton.now) self.new.names.states (mode_of anchored.now)
            (length (samples_of automaton.now)) starts.new.items) }
        ensures refused { IfErr result (IsRefused m self.old.names.width self.old.names.limit) }
    {
        for byte in automaton.samples() {
            let cell = self.start(automaton, direction, *anchored, Some(*byte))?;
            starts.push(cell)?;
        }
        Ok(())
    }

    /// Appends the start cell for a kind of anchoring with no byte beside.
    pub(crate) fn start_at_end(
        &mut self,
        automaton: &Automaton,
        direction: Direction,
        anchored: &Anchored,
        starts: &mut Vec<usize>,
    ) -> Result<(), TableError>
        ghost m: { Machine }
        requires same { machine_of automaton.now direction ≡ m }
        requires maker { IsMaker m self.old }
        requires asked { IsAsked m anchored.now }
        requires width { self.old.names.width ≡ length (samples_of automaton.now) }
        requires starts { AreStarts m (samples_of automaton.now) self.old.names.states
            (mode_of anchored.now) (length (samples_of automaton.now)) starts.old.items }
        ensures maker { IfOk result (λ _. IsMaker m self.new) }
        ensures grows { IfOk result (λ _. Grows self.old.names self.new.names) }
        ensures starts { IfOk result (λ _. AreStarts m
            (samples_of automaton.now) self.new.names.states
            (mode_of anchored.now + 1) 0 starts.new.items) }
        ensures refused { IfErr result (IsRefused m self.old.names.width self.old.names.limit) }
    {
        let cell = self.start(automaton, direction, *anchored, None)?;
        starts.push(cell)?;
        Ok(())
    }
}
