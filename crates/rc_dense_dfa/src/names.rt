//! State IDs: states are numbered as they come up, and named by the index of their row's first
//! cell.
ghost use Rattle.std.specs.Prelude.{◌≡◌, ◌+◌, ◌*◌, ◌<◌, ◌≤◌, length, IfOk, IfErr, MatchOption, Some, ℕ, IfSome, slice_get, []};
ghost use Rattle.rc_determinize.specs.Places.{state_of};
ghost use Rattle.rc_dfa.specs.Machine.{Machine, IsMachine};
ghost use Rattle.rc_dense_dfa.specs.Tables.{IsReached, marks, dead_state};
ghost use Rattle.rc_dense_dfa.specs.Makes.{IsRefused, weight_by};
ghost use Rattle.rc_dense_dfa.specs.Rows.{AreNamed, Grows, NamesBy};

use crate::error::TableError;
use rc_determinize::sides::Seen;
use rc_determinize::state::State;
use rc_dfa::states::States;
use rc_table_search::cells::{DEAD, MET, SKIP};
use std::alloc::{AllocError, Global};

/// The states of a table that is being built. Each has a row, and rows come one after another.
#[derive(Drop)]
pub(crate) struct Names {
    pub states: States,
    /// The number of cells of a row.
    pub width: usize,
    /// How many bytes the states may weigh.
    pub limit: Option<usize>,
    /// How many bytes they weigh. This is counted only if there is a limit.
    pub weight: u128,
}

/// Returns the weight in bytes with what comes to it, or None if that is more than the limit.
/// Without a limit the weight stays.
fn weigh(weight: u128, more: u128, limit: Option<usize>) -> Option<u128>
    requires weight { weight ≤ 18446744073709551616 }
    requires more { more < 2361183241434822606848 }
    ensures light { IfSome result (λ w. w ≤ 18446744073709551616) }
    ensures weight { MatchOption result ((l : ℕ) × (limit ≡ Some l) × (l < weight + more))
        (λ w. IfSome limit (λ l. (w ≡ weight + more) × (w ≤ l))) }
{
    if let Some(limit) = limit {
        if weight + more > limit as u128 {
            return None;
        }
        return Some(weight + more);
    }
    Some(weight)
}

/// The state from which nothing goes on.
pub(crate) fn dead(alloc: Global) -> State
    ensures { state_of result ≡ dead_state }
{
    State {
        list: Vec::new(alloc),
        beside: Seen {
            edge: false,
            terminator: false,
            line_feed: false,
            carriage_return: false,
            word: false,
            letter: false,
            broken: false,
        },
        goes_on: false,
        matched: None,
    }
}

/// Returns the marks of a state's name.
fn marks(state: &State) -> usize
    ensures { result ≡ marks (state_of state.now) }
{
    let met = if state.matched.is_some() { MET } else { 0 };
    let dead = if state.list.is_empty() && !state.goes_on {
        DEAD
    } else {
        0
    };
    met + dead
}

impl Names {
    /// Returns the number of the state, and adds it if it is new. The error is `TooBig` if a new
    /// state makes all weigh more than the limit, and `Memory` if out of memory.
    fn number(&mut self, state: &State) -> Result<usize, TableError>
        ghost m: { Machine }
        requires named { AreNamed m self.old }
        requires reached { IsReached m (state_of state.now) }
        ensures named { IfOk result (λ _. AreNamed m self.new) }
        ensures grows { IfOk result (λ _. Grows self.old self.new) }
        ensures few { IfOk result (λ _. length self.new.states ≤ length self.old.states + 1) }
        ensures number { IfOk result (λ number. slice_get self.new.states number
            ≡ Some (state_of state.now)) }
        ensures refused { IfErr result (IsRefused m self.old.width self.old.limit) }
    {
        if let Some(number) = self.states.find(state)? {
            return Ok(number);
        }
        let number = self.states.len();
        let cells = 8 * (self.width as u128 + 1);
        let more = cells + 32 + 8 * state.list.len() as u128;
        let Some(weight) = weigh(self.weight, more, self.limit) else {
            return Err(TableError::TooBig);
        };
        if self.width >= SKIP - number * self.width {
            return Err(TableError::Memory);
        }
        self.weight = weight;
        self.states.add(state)?;
        Ok(number)
    }

    /// Returns the name of the state's row with its marks, and adds the state if it is new. The
    /// error is `TooBig` if a new state makes all weigh more than the limit, and `Memory` if out of
    /// memory.
    pub(crate) fn name(&mut self, state: &State) -> Result<usize, TableError>
        ghost m: { Machine }
        requires named { AreNamed m self.old }
        requires reached { IsReached m (state_of state.now) }
        ensures named { IfOk result (λ _. AreNamed m self.new) }
        ensures grows { IfOk result (λ _. Grows self.old self.new) }
        ensures few { IfOk result (λ _. length self.new.states ≤ length self.old.states + 1) }
        ensures name { IfOk result (λ cell. NamesBy self.new.width self.new.states cell
            (state_of state.now)) }
        ensures refused { IfErr result (IsRefused m self.old.width self.old.limit) }
    {
        let number = self.number(state)?;
        Ok(number * self.width + marks(state))
    }

    /// No states yet, for rows of `width` cells and a table of `starts` start cells. The error is
    /// `TooBig` if these alone weigh more than the limit.
    pub(crate) fn new(
        alloc: Global,
        width: usize,
        starts: usize,
        limit: Option<usize>,
    ) -> Result<Names, TableError>
        ghost m: { Machine }
        requires machine { IsMachine m }
        requires wide { (0 < width) × (width < MET) }
        requires starts { starts ≡ (length m.entries + 2) * (width + 1) }
        ensures named { IfOk result (AreNamed m) }
        ensures width { IfOk result (λ n. n.width ≡ width) }
        ensures limit { IfOk result (λ n. n.limit ≡ limit) }
        ensures none { IfOk result (λ n. n.states ≡ []) }
        ensures refused { IfErr result (IsRefused m width limit) }
    {
        let rows = 8 * (width as u128 + 1) * 2;
        let Some(weight) = weigh(0, rows + 8 * starts as u128 + 64, limit) else {
            return Err(TableError::TooBig);
        };
        Ok(Names {
            states: States::new(alloc),
            width,
            limit,
            weight,
        })
    }
}
