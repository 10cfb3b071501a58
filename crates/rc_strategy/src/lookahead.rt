//! Look-ahead: how many bytes after their position the assertions of a program look at.
ghost use Rattle.std.specs.Prelude.{◌≡◌, ◌≤◌, ℕ};
ghost use Rattle.rc_pattern.specs.declared.hir.Look.{Look as Assertion};
ghost use Rattle.rc_program.specs.Places.{place_of, places_of};
ghost use Rattle.rc_program.specs.Program.{guard};
ghost use Rattle.rc_reach.specs.Reads.{looks_ahead};
ghost use Rattle.rc_strategy.specs.Lookahead.{IsLookahead, LookAhead};

use rc_pattern::hir::Look;
use rc_program::place::Place;
use rc_program::program::Program;

/// Returns how many bytes after its position an assertion looks at, at most.
fn looks_ahead(look: Look) -> usize
    ensures { result ≡ looks_ahead look }
{
    match look {
        Look::Start | Look::StartLF | Look::WordStartHalfAscii | Look::WordStartHalfUnicode => 0,
        Look::WordUnicode
        | Look::WordUnicodeNegate
        | Look::WordStartUnicode
        | Look::WordEndUnicode
        | Look::WordEndHalfUnicode => 4,
        Look::End
        | Look::EndLF
        | Look::StartCRLF
        | Look::EndCRLF
        | Look::WordAscii
        | Look::WordAsciiNegate
        | Look::WordStartAscii
        | Look::WordEndAscii
        | Look::WordEndHalfAscii => 1,
    }
}

/// Returns how many bytes after its position the assertion of a place looks at, at most. It is 0 if
/// the place has none.
fn place_looks_ahead(place: &Place) -> usize
    ensures most { (look : Assertion) (next : ℕ) → place_of place.now ≡ guard look next
        → looks_ahead look ≤ result }
    ensures least { (b : ℕ)
        → ((look : Assertion) (next : ℕ) → place_of place.now ≡ guard look next
        → looks_ahead look ≤ b) → result ≤ b }
{
    match place {
        Place::Guard(look, _) => looks_ahead(*look),
        _ => 0,
    }
}

/// Returns how many bytes after their position the assertions of these places look at, at most. It
/// is 0 if the places have none.
fn most_looked_at(places: &[Place]) -> usize
    ensures most { LookAhead result (places_of places.now) }
    ensures least { (b : ℕ) → LookAhead b (places_of places.now) → result ≤ b }
{
    let mut most = 0;
    for place in places {
        most = place_looks_ahead(place).max(most);
    }
    most
}

/// Returns how many bytes after their position the assertions of the program look at, at most. It
/// is at least 1 if matches that end off a boundary are passed over: the byte there tells that.
pub(crate) fn lookahead_of(program: &Program) -> usize
    ensures { IsLookahead program.now.passes_over
        (places_of program.now.places.items) result }
{
    let most = most_looked_at(&program.places);
    if program.passes_over {
        most.max(1)
    } else {
        most
    }
}
