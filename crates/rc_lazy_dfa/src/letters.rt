//! Letters: what a search reads. A row of the cache has a cell for each column of them.
ghost use Rattle.std.specs.Prelude.{◌≡◌, ◌<◌, ◌↔◌, IfOk, IsTrue, length};
ghost use Rattle.rc_determinize.specs.Places.{state_of};
ghost use Rattle.rc_determinize.specs.Steps.{AreBelow};
ghost use Rattle.rc_dfa.specs.Automata.{machine_of, alphabet_in, classes_of};
ghost use Rattle.rc_dfa.specs.Machine.{IsAsked, entry_bound};
ghost use Rattle.rc_dfa.specs.declared.automaton.Direction.TheVariants as direction;
ghost use Rattle.rc_lazy_dfa.specs.Cells.{column_of};
ghost use Rattle.rc_lazy_dfa.specs.Stores.{BeginsByLetter, IsLetter, LeadsByLetter, MayReadLetter, frame_of};

use rc_determinize::scratch::Scratch;
use rc_determinize::state::State;
use rc_dfa::automaton::{Automaton, Direction};
use rc_dfa::symbols::Symbol;
use rc_text::types::Anchored;
use std::alloc::AllocError;

/// What a search reads at a step, or what stands beside where it begins.
#[derive(Clone, Copy)]
pub(crate) enum Letter {
    /// A byte that is known alone, or an end.
    Alone(Option<u8>),
    /// A symbol, which some automata read.
    Tagged(Symbol),
}

/// Returns the column of a letter, in rows of this width. That of an end is the last.
#[inline(always)]
pub(crate) fn column(automaton: &Automaton, width: usize, letter: Letter) -> usize
    requires letter { IsLetter (alphabet_in automaton.now) letter }
    requires wide { 0 < width }
    ensures { result ≡ column_of (classes_of automaton.now) width letter }
{
    match letter {
        Letter::Alone(Some(byte)) => automaton.classes()[byte as usize] as usize,
        Letter::Alone(None) => width - 1,
        Letter::Tagged(symbol) => automaton.column_over(symbol),
    }
}

/// Whether a search may read the letter.
#[inline(always)]
pub(crate) fn may_read(automaton: &Automaton, letter: Letter) -> bool
    ensures { (d : direction.the_data) → IsTrue result
        ↔ MayReadLetter (machine_of automaton.now d) letter }
{
    match letter {
        Letter::Alone(beside) => automaton.may_read(beside),
        Letter::Tagged(_) => true,
    }
}

/// Makes `to` the state to which a letter leads from a state. `Err` means out of memory; then `to`
/// is some state.
pub(crate) fn step(
    automaton: &Automaton,
    direction: Direction,
    scratch: &mut Scratch,
    from: &State,
    letter: Letter,
    to: &mut State,
) -> Result<(), AllocError>
    requires below { AreBelow (entry_bound (machine_of automaton.now direction).direction
        (length (machine_of automaton.now direction).setting.places)) from.now.list.items }
    requires scratch { scratch.old ≡ length (machine_of automaton.now direction).setting.places }
    ensures scratch { scratch.new ≡ scratch.old }
    ensures leads { IfOk result (λ _. LeadsByLetter (frame_of automaton.now direction)
        (state_of from.now) letter (state_of to.new)) }
{
    match letter {
        Letter::Alone(beside) => automaton.step(direction, scratch, from, beside, to),
        Letter::Tagged(symbol) => automaton.step_over(direction, scratch, from, symbol, to),
    }
}

/// Makes `to` the state in which a search begins beside a letter. `Err` means out of memory; then
/// `to` is some state.
pub(crate) fn begin(
    automaton: &Automaton,
    direction: Direction,
    anchored: Anchored,
    letter: Letter,
    to: &mut State,
) -> Result<(), AllocError>
    requires { IsAsked (machine_of automaton.now direction) anchored }
    ensures { IfOk result (λ _. BeginsByLetter (frame_of automaton.now direction) anchored letter
        (state_of to.new)) }
{
    match letter {
        Letter::Alone(beside) => automaton.begin(direction, anchored, beside, to),
        Letter::Tagged(symbol) => automaton.begin_beside(direction, anchored, symbol, to),
    }
}
