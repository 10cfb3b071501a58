//! Start states: the place at which a program is entered for one of its patterns alone.
ghost use Rattle.std.specs.Prelude.{◌≡◌, ◌∷◌, ◌<◌, [], List, Some, length, ℕ};
ghost use Rattle.rc_pattern.specs.Re.{Re};
ghost use Rattle.rc_program.specs.Places.{places_of};
ghost use Rattle.rc_program.specs.Program.{choice, entry, place_at, program as program_by};

use rc_program::place::Place;

/// Returns the two branches of the choice at a place, or None if there is no choice.
fn choice_at(program: &[Place], at: usize) -> Option<(usize, usize)>
    ensures { (first next : ℕ) → place_at (places_of program.now) at ≡ choice (first ∷ next ∷ [])
        → result ≡ Some (first, next) }
{
    match program.get(at) {
        Some(Place::Choice(first, next)) => Some((*first, *next)),
        _ => None,
    }
}

/// Returns the place at which the pattern of this number is entered, in the program of some
/// patterns: each choice, from place 0 on, leads to a pattern or on to the next choice.
pub(crate) fn entry_of(program: &[Place], pattern: usize) -> usize
    ensures { (hs : List Re) → places_of program.now ≡ program_by hs → pattern < length hs
        → result ≡ entry hs pattern }
{
    let mut choice = 0;
    'choices: for _before in 0..pattern {
        let Some((_, next)) = choice_at(program, choice) else {
            return 0;
        };
        choice = next;
    }
    match choice_at(program, choice) {
        Some((first, _)) => first,
        None => 0,
    }
}
