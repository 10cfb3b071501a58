//! Match places: those of one pattern, where a reverse search for it begins.
ghost use Rattle.std.specs.Prelude.{◌≡◌, IfOk, Some};
ghost use Rattle.rc_program.specs.Program.{is_match_place};
ghost use Rattle.rc_program.specs.Answer.{pattern_at};
ghost use Rattle.rc_utf8.specs.Places.{place_of, places_of};
ghost use Rattle.rc_determinize.specs.Places.{state_of};
ghost use Rattle.rc_dfa.specs.Machine.{IsLastOfBeside};

use rc_determinize::sides::Seen;
use rc_determinize::state::State;
use rc_utf8::place::BytePlace;
use std::alloc::AllocError;

/// Whether the place is the match place of the pattern.
fn is_match_of(place: &BytePlace, pattern: usize) -> bool
    ensures { result ≡ is_match_place (Some pattern) (place_of place.now) }
{
    match place {
        BytePlace::Accept(own) => *own == pattern,
        BytePlace::Choice(_, _)
        | BytePlace::Pass(_)
        | BytePlace::Dead
        | BytePlace::Byte(_, _)
        | BytePlace::Bytes(_, _)
        | BytePlace::Branch(_)
        | BytePlace::Guard(_, _)
        | BytePlace::Slot(_, _) => false,
    }
}

/// Returns the pattern of a match place, or 0 for any other place.
pub fn pattern_of(place: &BytePlace) -> usize
    ensures { result ≡ pattern_at (place_of place.now) }
{
    match place {
        BytePlace::Accept(pattern) => *pattern,
        BytePlace::Choice(_, _)
        | BytePlace::Pass(_)
        | BytePlace::Dead
        | BytePlace::Byte(_, _)
        | BytePlace::Bytes(_, _)
        | BytePlace::Branch(_)
        | BytePlace::Guard(_, _)
        | BytePlace::Slot(_, _) => 0,
    }
}

/// Makes `to` the state at the end of a match of the pattern: the pattern's match places. `beside`
/// has the facts about the side after that position. `Err` means out of memory; then `to` is some
/// state.
pub fn last_of(
    places: &[BytePlace],
    pattern: usize,
    beside: Seen,
    to: &mut State,
) -> Result<(), AllocError>
    ensures { IfOk result (λ _. IsLastOfBeside pattern (places_of places.now) beside
        (state_of to.new)) }
{
    to.list.clear();
    for i in 0..places.len() {
        if is_match_of(&places[i], pattern) {
            to.list.push(i)?;
        }
    }
    to.beside = beside;
    to.goes_on = false;
    to.matched = None;
    Ok(())
}
