//! NFA compiler: one part for each pattern, after a choice among them.

ghost use Rattle.std.specs.Prelude.{◌≡◌, ◌+◌, ◌-◌, ◌<◌, ◌≤◌, ◌^◌, [], ◌∷◌, ◌++◌, All, IfOk, map, min, vec_len};
ghost use Rattle.rc_pattern.specs.Limits.{greatest_weight};
ghost use Rattle.rc_pattern.specs.Meaning.{meaning};
ghost use Rattle.rc_pattern.specs.Weight.{list_weight};
ghost use Rattle.rc_pattern.specs.WellFormed.{IsWellFormed, group_count};
ghost use Rattle.rc_program.specs.Program.{choice, pattern_part, program, shown};
ghost use Rattle.rc_program.specs.Places.{places_of};
ghost use Rattle.rc_compile.specs.Shown.{laid, shown_one};

mod emit;
mod sizes;

use emit::{append, emit};
use rc_pattern::check::group_count;
use rc_pattern::hir::Hir;
use rc_program::place::Place;
use sizes::size;
use std::alloc::{AllocError, Global};

/// Returns how many groups the pattern's part names, or `usize::MAX` if there are more.
fn shown_groups(hir: &Hir, groups: bool) -> usize
    ensures { result ≡ min (group_count (shown_one groups (meaning hir.now))) (2 ^ 64 - 1) }
{
    if groups {
        return group_count(hir);
    }
    0
}

/// Appends the choice of this pattern or the later ones, and the pattern with its match place.
/// `Err` means out of memory.
fn emit_pattern(
    places: &mut Vec<Place>,
    hir: &Hir,
    groups: bool,
    slots: usize,
    pattern: usize,
) -> Result<(), AllocError>
    requires fits { vec_len places.old + (laid groups (meaning hir.now)).size + 2 < 2 ^ 62 }
    requires slots_fit { slots < 2 ^ 62 }
    ensures long { IfOk result (λ _. vec_len places.new ≡ vec_len places.old + 1
        + (pattern_part pattern slots (shown_one groups (meaning hir.now))).size) }
    ensures more { IfOk result (λ _. places_of places.new.items
        ≡ places_of places.old.items
        ++ choice ((vec_len places.old + 1)
        ∷ (vec_len places.old + 1 + (pattern_part pattern slots
        (shown_one groups (meaning hir.now))).size) ∷ [])
        ∷ (pattern_part pattern slots (shown_one groups (meaning hir.now))).places 0
        (vec_len places.old + 1) 0) }
{
    let body = places.len() + 1;
    let accept = body + size(hir, groups);
    append(places, Place::Choice(body, accept + 1))?;
    emit(places, hir, groups, slots, accept)?;
    append(places, Place::Accept(pattern))
}

/// Returns the program of the patterns: with their groups, or with each group as its body. `Err`
/// means out of memory.
pub fn compile(alloc: Global, hirs: &[Hir], groups: bool) -> Result<Vec<Place>, AllocError>
    requires well_formed { All IsWellFormed (map meaning hirs.now) }
    requires light { list_weight (map meaning hirs.now) ≤ greatest_weight }
    ensures { IfOk result (λ places. places_of places.items
        ≡ program (shown groups (map meaning hirs.now))) }
{
    let mut places = Vec::new(alloc);
    let mut slots = 2 * hirs.len();
    for i in 0..hirs.len() {
        let hir = &hirs[i];
        emit_pattern(&mut places, hir, groups, slots, i)?;
        slots += 2 * shown_groups(hir, groups);
    }
    append(&mut places, Place::Dead)?;
    Ok(places)
}
