//! One-pass DFA: the groups of a match whose span is known, if one way leads through the program.
ghost use Rattle.std.specs.Prelude.{◌≡◌, IfOk, length, true};
ghost use Rattle.rc_text.specs.Text.{Keeps};
ghost use Rattle.rc_program.specs.Answer.{Chosen, Search, slots_of};
ghost use Rattle.rc_program.specs.Places.{places_of};
ghost use Rattle.rc_onepass.specs.Walked.{IsWalkOver};
ghost use Rattle.rc_strategy.specs.Slots.{IsOfPatterns, MayBeOnePass};

use crate::slots::put_span;
use rc_onepass::onepass::OnePass;
use rc_pikevm_search::engine::Engine;
use rc_program::place::Place;
use rc_text::cursor::Cursor;
use rc_text::input::Input;
use rc_text::types::{Match, MatchKind};
use std::alloc::{AllocError, Global};

/// The most bytes that the rows of a one-pass DFA may take.
const SIZE_LIMIT: usize = 1 << 18;

/// Whether there are groups: some place names a slot.
fn have_groups(places: &[Place]) -> bool {
    for place in places {
        if let Place::Slot(_, _) = place {
            return true;
        }
    }
    false
}

/// Builds the one-pass DFA of an engine's program, if there are groups and the program is one-pass.
/// It is left out if its rows would take more than `SIZE_LIMIT` bytes. `Err` means out of memory.
pub(crate) fn onepass_of(alloc: Global, engine: &Engine) -> Result<Option<OnePass>, AllocError>
    ensures { IfOk result (λ onepass.
        ∥ MayBeOnePass (places_of engine.now.program.places.items) onepass ∥₁) }
{
    if engine.kind == MatchKind::All || !have_groups(&engine.program.places) {
        return Ok(None);
    }
    OnePass::new(alloc, &engine.program.places, Some(SIZE_LIMIT))
}

/// Writes the slots of a leftmost match by the one-pass DFA. Returns false if there is none, or if
/// the match contains a byte past ASCII; then some slots may be written.
pub(crate) fn tell_slots<C: Cursor>(
    onepass: &Option<OnePass>,
    input: &mut Input<C>,
    found: Match,
    slots: &mut [Option<usize>],
) -> bool
    ensures keeps { Keeps input.old input.new }
    ensures long { length slots.new ≡ length slots.old }
    ensures slots { result ≡ true → (s : Search) (c : Chosen) → IsOfPatterns s.places
        → ∥ MayBeOnePass s.places onepass.now ∥₁ → s.text.content ≡ input.old.content
        → IsWalkOver s c found → slots.new ≡ slots_of s (length slots.old) c }
{
    let Some(dfa) = onepass else {
        return false;
    };
    put_span(found, slots);
    dfa.set_groups(input, found, slots)
}
