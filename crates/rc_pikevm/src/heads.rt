//! First-byte sets: rule out places and starts from which the next byte lets no walk go on,
//! whatever assertions say.
ghost use Rattle.std.specs.Prelude.{◌≡◌, ◌≢◌, ◌<◌, ◌≤◌, IsTrue, List, false, ℕ, length, slice_index, slice_index_or};
ghost use Rattle.rc_text.specs.Text.{Searched};
ghost use Rattle.rc_walks.specs.Walks.{Pair};
ghost use Rattle.rc_program.specs.Heads.{MayGoOn};
ghost use Rattle.rc_program.specs.Places.{places_of};
ghost use Rattle.rc_pikevm.specs.Alone.{IsDead};
ghost use Rattle.rc_pikevm.specs.Entrances.{IsShut};
ghost use Rattle.rc_pikevm.specs.Moves.{IsSetting, seen_by};
ghost use Rattle.rc_pikevm.specs.Near.{IsHere, seen_from, size};
ghost use Rattle.rc_pikevm.specs.Windows.{IsAround, IsBegun, IsWindow};

use crate::spot::{Course, Spot};
use crate::window::Window;
use rc_program::place::Place;
use rc_program::program::Program;

/// Whether the next byte lets no walk lead on from the place. Returns false if there is no next
/// byte within the bounds, or if the place has no first-byte set.
#[inline(always)]
pub(crate) fn is_dead(spot: &Spot, place: usize) -> bool
    ghost text: { Searched }
    requires here { IsHere spot.now text }
    requires place_in { place < size spot.now.course }
    ensures { IsTrue result → IsShut (seen_from spot.now text) (place, spot.now.at) }
{
    if spot.at >= spot.course.hi || spot.after.is_empty() {
        return false;
    }
    match spot.course.program.may_go_on(place, spot.after[0]) {
        Some(goes) => !goes,
        None => false,
    }
}

/// Returns how many bytes come before the first one whose flag is set.
fn unset_before(bytes: &[u8], flags: &[bool]) -> usize
    requires { length flags.now ≡ 256 }
    ensures within { result ≤ length bytes.now }
    ensures small { (k : ℕ) → k < length bytes.now → slice_index bytes.now k < 256 }
    ensures unset { (k : ℕ) → k < result
        → slice_index_or flags.now (slice_index bytes.now k) false ≡ false }
{
    for (i, byte) in bytes.iter().enumerate() {
        if flags[*byte as usize] {
            return i;
        }
    }
    bytes.len()
}

/// Returns how many bytes come before the first one that is `byte`.
fn others_before(bytes: &[u8], byte: u8) -> usize
    ensures within { result ≤ length bytes.now }
    ensures others { (k : ℕ) → k < result → slice_index bytes.now k ≢ byte }
{
    for (i, found) in bytes.iter().enumerate() {
        if *found == byte {
            return i;
        }
    }
    bytes.len()
}

/// Returns how many bytes come before the first one over which a walk may go on from the place.
/// Returns 0 if the place has no first-byte set and doesn't read a single byte.
#[inline(always)]
fn barred_before(program: &Program, place: usize, bytes: &[u8]) -> usize
    requires place_in { place < length program.now.places.items }
    ensures within { result ≤ length bytes.now }
    ensures barred { (k : ℕ) → k < result
        → ¬ MayGoOn (places_of program.now.places.items) place (slice_index bytes.now k) }
{
    if let Some(flags) = program.head_table(place) {
        return unset_before(bytes, flags);
    }
    match &program.places[place] {
        Place::Byte(byte, _) => others_before(bytes, *byte),
        _ => 0,
    }
}

/// Skips positions from `at` on at which the next byte lets no walk lead on from the place. Returns
/// the first position that is left, in bytes, and at most `end`. Nothing is skipped if the place
/// has no first-byte set and doesn't read a single byte.
#[inline(always)]
pub(crate) fn pass_over(
    course: Course,
    window: &Window,
    place: usize,
    at: usize,
    end: usize,
) -> usize
    ghost text: { Searched }
    requires setting { IsSetting course text }
    requires window { IsWindow text window.now }
    requires begun { IsBegun text at window.now }
    requires around { (y : ℕ) → y ≤ end → IsAround text y window.now }
    requires ordered { at ≤ end }
    requires within { end ≤ course.hi }
    requires place_in { place < size course }
    ensures later { at ≤ result }
    ensures within { result ≤ end }
    ensures dead { (y : ℕ) → at ≤ y → y < result → (passed : List Pair)
        → IsDead (seen_by course.entry text) passed (place, y) }
{
    let first = at - window.start;
    at + barred_before(
        course.program,
        place,
        &window.bytes[first..end - window.start],
    )
}
