//! Lazy determinization: the states of one direction, and the steps that add to them.
ghost use Rattle.std.specs.Prelude.{◌≡◌, ◌≢◌, ◌<◌, ◌≤◌, length, IfOk, IfErr, MatchOption, [], true};
ghost use Rattle.rc_determinize.specs.Places.{state_of};
ghost use Rattle.rc_determinize.specs.States as states;
ghost use Rattle.rc_dfa.specs.Machine.{IsAsked};
ghost use Rattle.rc_lazy_dfa.specs.Stores.{BeginsByLetter, Frame, Grows, LeadsByLetter, frame_of, Spends, IsLetter, IsRefused, IsRow, IsKnownBy, minimum_of, starts_in};
ghost use Rattle.rc_lazy_dfa.specs.Halves.{IsHalf, IsFresh, IsPlace};
ghost use Rattle.rc_dfa.specs.Laws.{IsWithin};
ghost use Rattle.rc_lazy_dfa.specs.Moves.{IsNamed};

use crate::cells::{UNKNOWN, mode};
use crate::letters::{Letter, begin, column, may_read, step};
use crate::store::{Named, Store};
use rc_determinize::scratch::Scratch;
use rc_determinize::sides::Seen;
use rc_determinize::state::State;
use rc_dfa::automaton::{Automaton, Direction};
use rc_dfa::states::States;
use rc_table_search::cells::QUIT;
use rc_table_search::refusal::Refusal;
use rc_text::types::Anchored;
use std::alloc::{AllocError, Global};

/// One direction of a cache: its states, and what the steps need.
#[derive(Drop)]
pub struct Half {
    pub(crate) store: Store,
    pub(crate) scratch: Scratch,
    /// The state that was built last.
    pub(crate) to: State,
    /// How many bytes were read since the cache was cleared last.
    pub(crate) served: usize,
}

/// A state with no places.
fn no_places(alloc: Global) -> State {
    State {
        list: Vec::new(alloc),
        beside: Seen {
            edge: false,
            terminator: false,
            line_feed: false,
            carriage_return: false,
            word: false,
            letter: false,
            broken: false,
        },
        goes_on: false,
        matched: None,
    }
}

/// Returns how many start cells there are: for each kind of anchoring, one for each column of what
/// stands beside. Returns None if that overflows.
pub(crate) fn starts_in(automaton: &Automaton, direction: Direction, width: usize) -> Option<usize>
    requires { width ≡ (frame_of automaton.now direction).width }
    ensures { MatchOption result (usize.MAX < starts_in (frame_of automaton.now direction))
        (λ n. n ≡ starts_in (frame_of automaton.now direction)) }
{
    let Some(ways) = automaton.pattern_len().checked_add(2) else {
        return None;
    };
    ways.checked_mul(width)
}

impl Half {
    /// No states yet, with this capacity in bytes. `Err` means out of memory.
    pub(crate) fn new(
        alloc: Global,
        automaton: &Automaton,
        direction: Direction,
        capacity: usize,
    ) -> Result<Half, AllocError>
        requires { minimum_of (frame_of automaton.now direction) ≤ capacity }
        ensures made { IfOk result (IsHalf (frame_of automaton.now direction)) }
        ensures fresh { IfOk result (IsFresh capacity) }
    {
        let _classes = automaton.classes();
        let width = automaton.columns() + 1;
        let Some(len) = starts_in(automaton, direction, width) else {
            return Err(AllocError);
        };
        let starts = vec![in alloc; UNKNOWN; len]?;
        let scratch = automaton.create_scratch(alloc)?;
        let store = Store {
            states: States::new(alloc),
            cells: Vec::new(alloc),
            starts,
            width,
            capacity,
            used: 24 * width + 8 * len + 96,
            clears: 0,
        };
        Ok(Half {
            store,
            scratch,
            to: no_places(alloc),
            served: 0,
        })
    }

    /// Counts bytes that were read.
    #[inline(always)]
    pub(crate) fn serve(&mut self, bytes: usize)
        ensures store { self.new.store ≡ self.old.store }
        ensures scratch { self.new.scratch ≡ self.old.scratch }
    {
        self.served = self.served.saturating_add(bytes);
    }

    /// Makes the state to which a letter leads from the state of the row.
    fn lead(
        &mut self,
        automaton: &Automaton,
        direction: Direction,
        row: usize,
        letter: Letter,
    ) -> Result<(), AllocError>
        ghost f: { Frame }
        requires same { frame_of automaton.now direction ≡ f }
        requires half { IsHalf f self.old }
        requires row { IsPlace f self.old.store row }
        ensures half { IsHalf f self.new }
        ensures store { self.new.store ≡ self.old.store }
        ensures leads { IfOk result (λ _. (s : states.State)
            → IsRow f.width self.old.store.states row s
            → LeadsByLetter f s letter (state_of self.new.to)) }
    {
        let from = self.store.states.get(row / self.store.width);
        step(
            automaton,
            direction,
            &mut self.scratch,
            from,
            letter,
            &mut self.to,
        )?;
        Ok(())
    }

    /// Returns the cell that leads to the state that was made last, and adds that state if it is
    /// new.
    fn name(&mut self) -> Result<Named, Refusal>
        ghost f: { Frame }
        requires half { IsHalf f self.old }
        requires within { IsWithin f.machine (state_of self.old.to) }
        ensures half { IsHalf f self.new }
        ensures spends { Spends f self.old.store self.new.store 1 }
        ensures named { IfOk result (IsNamed f self.old.store self.new.store
            (state_of self.old.to)) }
        ensures refused { IfErr result (IsRefused f self.old.store self.new.store) }
    {
        let named = self.store.name(&self.to, self.served)?;
        if !named.kept {
            self.served = 0;
        }
        Ok(named)
    }

    /// Returns the cell of a row and a letter if it is known, or else `UNKNOWN`.
    #[inline(always)]
    pub(crate) fn known(
        &self,
        automaton: &Automaton,
        direction: Direction,
        row: usize,
        letter: Letter,
    ) -> usize
        ghost f: { Frame }
        requires same { frame_of automaton.now direction ≡ f }
        requires half { IsHalf f self.now }
        requires row { IsPlace f self.now.store row }
        requires letter { IsLetter f.machine.alphabet letter }
        ensures { result ≢ UNKNOWN → (s : states.State) → IsRow f.width self.now.store.states row s
            → IsKnownBy f self.now.store.states letter (LeadsByLetter f s letter) result }
    {
        let column = column(automaton, self.store.width, letter);
        self.store.cells[row + column]
    }

    /// Returns the cell of a row and a letter. If it isn't known, the step is made, and the cell is
    /// known from then on. Also returns whether all earlier rows were kept.
    #[inline(always)]
    pub(crate) fn follow(
        &mut self,
        automaton: &Automaton,
        direction: Direction,
        row: usize,
        letter: Letter,
    ) -> Result<Named, Refusal>
        ghost f: { Frame }
        requires same { frame_of automaton.now direction ≡ f }
        requires half { IsHalf f self.old }
        requires row { IsPlace f self.old.store row }
        requires letter { IsLetter f.machine.alphabet letter }
        ensures half { IsHalf f self.new }
        ensures spends { Spends f self.old.store self.new.store 1 }
        ensures leads { IfOk result (λ named. (s : states.State)
            → IsRow f.width self.old.store.states row s
            → IsKnownBy f self.new.store.states letter (LeadsByLetter f s letter) named.cell) }
        ensures grows { IfOk result (λ named. named.kept ≡ true
            → Grows self.old.store.states self.new.store.states) }
        ensures refused { IfErr result (IsRefused f self.old.store self.new.store) }
    {
        let column = column(automaton, self.store.width, letter);
        let known = self.store.cells[row + column];
        if known != UNKNOWN {
            return Ok(Named {
                cell: known,
                kept: true,
            });
        }
        if !may_read(automaton, letter) {
            self.store.write(row, column, QUIT);
            return Ok(Named {
                cell: QUIT,
                kept: true,
            });
        }
        self.lead(automaton, direction, row, letter)?;
        let named = self.name()?;
        if named.kept {
            self.store.write(row, column, named.cell);
        }
        Ok(named)
    }

    /// Returns the cell of a row and a letter, as `follow` does.
    #[inline(always)]
    pub(crate) fn next(
        &mut self,
        automaton: &Automaton,
        direction: Direction,
        row: usize,
        letter: Letter,
    ) -> Result<usize, Refusal>
        ghost f: { Frame }
        requires same { frame_of automaton.now direction ≡ f }
        requires half { IsHalf f self.old }
        requires row { IsPlace f self.old.store row }
        requires letter { IsLetter f.machine.alphabet letter }
        ensures half { IsHalf f self.new }
        ensures spends { Spends f self.old.store self.new.store 1 }
        ensures leads { IfOk result (λ cell. (s : states.State)
            → IsRow f.width self.old.store.states row s
            → IsKnownBy f self.new.store.states letter (LeadsByLetter f s letter) cell) }
        ensures refused { IfErr result (IsRefused f self.old.store self.new.store) }
    {
        let named = self.follow(automaton, direction, row, letter)?;
        Ok(named.cell)
    }

    /// Returns the start cell for a kind of anchoring and the letter beside. If it isn't known, the
    /// state is made, and the cell is known from then on.
    #[inline(always)]
    pub(crate) fn begin(
        &mut self,
        automaton: &Automaton,
        direction: Direction,
        anchored: &Anchored,
        letter: Letter,
    ) -> Result<usize, Refusal>
        ghost f: { Frame }
        requires same { frame_of automaton.now direction ≡ f }
        requires half { IsHalf f self.old }
        requires asked { IsAsked f.machine anchored.now }
        requires letter { IsLetter f.machine.alphabet letter }
        ensures half { IsHalf f self.new }
        ensures spends { Spends f self.old.store self.new.store 1 }
        ensures begins { IfOk result (IsKnownBy f self.new.store.states letter
            (BeginsByLetter f anchored.now letter)) }
        ensures refused { IfErr result (IsRefused f self.old.store self.new.store) }
    {
        let column = column(automaton, self.store.width, letter);
        let mode = mode(*anchored);
        let known = self.store.starts[mode * self.store.width + column];
        if known != UNKNOWN {
            return Ok(known);
        }
        if !may_read(automaton, letter) {
            self.store.write_start(mode, column, QUIT);
            return Ok(QUIT);
        }
        begin(automaton, direction, *anchored, letter, &mut self.to)?;
        let named = self.name()?;
        if named.kept {
            self.store.write_start(mode, column, named.cell);
        }
        Ok(named.cell)
    }
}
