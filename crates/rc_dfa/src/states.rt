//! State interning: DFA states, each stored once and numbered.
ghost use Rattle.std.specs.Prelude.{◌≡◌, ◌+◌, ◌*◌, ◌<◌, ◌≤◌, ◌++◌, ◌∷◌, [], length, slice_get, IfOk, IfErr, Some};
ghost use Rattle.rc_determinize.specs.Places.{state_of};
ghost use Rattle.rc_dfa.specs.Keys.{with_bit, facts_of, key_of, IsAbsent, IsFound};

use rc_determinize::state::State;
use std::alloc::{AllocError, Global};
use std::collections::BTreeMap;
use std::marker::Model;

/// Returns the number with one more binary digit, the lowest.
fn with_bit(bit: bool, rest: usize) -> usize
    requires { rest < 1024 }
    ensures value { result ≡ with_bit bit rest }
    ensures small { result ≤ 2 * rest + 1 }
{
    if bit { 2 * rest + 1 } else { 2 * rest }
}

/// Returns all booleans of a state, as the digits of a number.
fn facts_of(state: &State) -> usize
    ensures { result ≡ facts_of (state_of state.now) }
{
    let beside = state.beside;
    let ends = with_bit(state.goes_on, with_bit(state.matched.is_some(), 0));
    let scalars = with_bit(beside.letter, with_bit(beside.broken, ends));
    let lines = with_bit(beside.line_feed, with_bit(beside.carriage_return, scalars));
    with_bit(
        beside.edge,
        with_bit(beside.terminator, with_bit(beside.word, lines)),
    )
}

/// Replaces the key by that of the state. `Err` means out of memory.
fn write_key(key: &mut Vec<usize>, state: &State) -> Result<(), AllocError>
    ensures { IfOk result (λ _. key.new.items ≡ key_of (state_of state.now)) }
{
    key.clear();
    key.push(facts_of(state))?;
    key.push(state.matched.unwrap_or(0))?;
    key.extend_from_slice(&state.list)
}

/// States, none of them twice. The number of a state is its index in the list.
#[derive(Drop)]
pub struct States {
    list: Vec<State>,
    /// The number of the state of each key.
    numbers: BTreeMap<Vec<usize>, usize>,
    /// The key of the state that is looked up.
    key: Vec<usize>,
}

impl Model for States {
    ghost use Rattle.std.specs.Prelude.{List, map};
    ghost use Rattle.rc_determinize.specs.States as states;
    ghost use Rattle.rc_determinize.specs.Places.{state_of};
    ghost use Rattle.rc_dfa.specs.Keys.{AreNumbered};

    ghost Value = { List states.State };

    ghost view = { λ a. map state_of a.list.items };

    ghost invariant = { λ a. AreNumbered (map state_of a.list.items) a.numbers };
}

impl States {
    /// No states yet.
    pub fn new(alloc: Global) -> States
        ensures { result ≡ [] }
    {
        States {
            list: Vec::new(alloc),
            numbers: BTreeMap::new(alloc),
            key: Vec::new(alloc),
        }
    }

    /// Returns how many states there are.
    pub fn len(&self) -> usize
        ensures { result ≡ length self.now }
    {
        self.list.len()
    }

    /// Returns the state of the number.
    pub fn get(&self, number: usize) -> &State
        requires { number < length self.now }
        ensures { slice_get self.now number ≡ Some (state_of result.now) }
    {
        &self.list[number]
    }

    /// Returns the number of the state, or None if it isn't there. `Err` means out of memory.
    pub fn find(&mut self, state: &State) -> Result<Option<usize>, AllocError>
        ensures kept { self.new ≡ self.old }
        ensures found { IfOk result (IsFound self.old (state_of state.now)) }
    {
        write_key(&mut self.key, state)?;
        Ok(self.numbers.get(&self.key).copied())
    }

    /// Drops all states, and keeps their lists' capacity.
    pub fn clear(&mut self)
        ensures { self.new ≡ [] }
    {
        self.list.clear();
        self.numbers.clear();
    }

    /// Adds a copy of the state, under the next number. `Err` means out of memory; then it isn't
    /// added.
    pub fn add(&mut self, state: &State) -> Result<(), AllocError>
        requires { IsAbsent self.old (state_of state.now) }
        ensures added { IfOk result (λ _. self.new ≡ self.old ++ state_of state.now ∷ []) }
        ensures kept { IfErr result (λ _. self.new ≡ self.old) }
    {
        write_key(&mut self.key, state)?;
        let key = self.key.clone()?;
        let list = state.list.clone()?;
        self.list.try_reserve(1)?;
        self.numbers.insert(key, self.list.len())?;
        self.list.push_reserved(State {
            list,
            beside: state.beside,
            goes_on: state.goes_on,
            matched: state.matched,
        });
        Ok(())
    }
}
