//! Determinizers: from the program of some patterns to their automaton.
ghost use Rattle.std.specs.Prelude.{◌≡◌, ◌≤◌, List, length, IfOk};
ghost use Rattle.rc_pattern.specs.Limits.{greatest_weight};
ghost use Rattle.rc_pattern.specs.Re.{Re};
ghost use Rattle.rc_program.specs.Laws.{heaviness};
ghost use Rattle.rc_program.specs.Places.{places_of};
ghost use Rattle.rc_program.specs.Program.{program as program_by};
ghost use Rattle.rc_dfa.specs.Automata.{classes_of, machine_of};
ghost use Rattle.rc_dfa.specs.declared.automaton.Direction.TheVariants.{Backwards, Forwards};
ghost use Rattle.rc_dfa_search.specs.Classes.{AreClassesOf};
ghost use Rattle.rc_dfa_search.specs.Machines.{AreMachines, entries_of};

use rc_dfa::automaton::Automaton;
use rc_program::place::Place;
use rc_text::types::MatchKind;
use rc_utf8::program::byte_program;
use std::alloc::{AllocError, Global};

/// Returns the entry of each pattern of a program, in their order: each choice, from place 0 on,
/// leads to a pattern or on to the next choice. `Err` means out of memory.
fn entries_of(alloc: Global, program: &[Place], patterns: usize) -> Result<Vec<usize>, AllocError>
    ghost hs: { List Re }
    requires program { places_of program.now ≡ program_by hs }
    requires patterns { patterns ≡ length hs }
    ensures { IfOk result (λ entries. entries.items ≡ entries_of hs) }
{
    let mut entries = Vec::new(alloc);
    let mut choice = 0;
    'choices: for _pattern in 0..patterns {
        let Place::Choice(entry, next) = &program[choice] else {
            return Ok(entries);
        };
        entries.push(*entry)?;
        choice = *next;
    }
    Ok(entries)
}

/// Builds the determinizer of some patterns from their program. Lines end at the byte `terminator`.
/// Forwards it finds matches of this kind. Unless `byte_classes` is set, each byte is a class of
/// its own. `Err` means out of memory.
pub fn automaton_of(
    alloc: Global,
    program: &[Place],
    patterns: usize,
    terminator: u8,
    kind: MatchKind,
    byte_classes: bool,
) -> Result<Automaton, AllocError>
    ghost hs: { List Re }
    requires program { places_of program.now ≡ program_by hs }
    requires patterns { patterns ≡ length hs }
    requires light { heaviness (places_of program.now) ≤ greatest_weight }
    ensures machines { IfOk result (λ automaton. AreMachines hs terminator kind
        (machine_of automaton Forwards) (machine_of automaton Backwards)) }
    ensures classes { IfOk result (λ automaton. AreClassesOf byte_classes hs terminator
        (classes_of automaton)) }
{
    let entries = entries_of(alloc, program, patterns)?;
    let places = byte_program(alloc, program)?;
    Automaton::new(alloc, places, entries, terminator, kind, byte_classes)
}
