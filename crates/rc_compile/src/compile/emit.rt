//! Thompson's construction: appends the places of a pattern to those before it.

ghost use Rattle.std.specs.Prelude.{◌≡◌, ◌+◌, ◌<◌, ◌^◌, [], ◌∷◌, ◌++◌, IfOk, map, vec_len};
ghost use Rattle.rc_pattern.specs.Meaning.{meaning, cat_all, alt_all, class_meaning, capture_meaning, repetition_meaning};
ghost use Rattle.rc_program.specs.Program.{part, literal_part, body_or_out};
ghost use Rattle.rc_program.specs.Places.{place_of, places_of};
ghost use Rattle.rc_compile.specs.Shown.{laid};

use super::sizes::size;
use rc_pattern::hir::{Capture, Class, Hir, HirKind, Repetition};
use rc_program::place::Place;
use std::alloc::AllocError;

/// The greatest group number. Patterns that are light enough for a program have none above it.
const GREATEST_GROUP: usize = 2147483647;

/// Appends one place.
#[inline(always)]
pub(super) fn append(places: &mut Vec<Place>, place: Place) -> Result<(), AllocError>
    ensures long { IfOk result (λ _. vec_len places.new ≡ vec_len places.old + 1) }
    ensures more { IfOk result (λ _. places_of places.new.items ≡ places_of places.old.items
        ++ place_of place ∷ []) }
{
    places.push(place)?;
    Ok(())
}

/// Appends the choice of a body and the way out: the body comes first if greedy.
///
/// It isn't inlined, so that a level of nesting takes little stack.
#[inline(never)]
fn append_choice(
    places: &mut Vec<Place>,
    greedy: bool,
    body: usize,
    out: usize,
) -> Result<(), AllocError>
    ensures long { IfOk result (λ _. vec_len places.new ≡ vec_len places.old + 1) }
    ensures more { IfOk result (λ _. places_of places.new.items ≡ places_of places.old.items
        ++ body_or_out greedy body out ∷ []) }
{
    if greedy {
        return append(places, Place::Choice(body, out));
    }
    append(places, Place::Choice(out, body))
}

/// Appends the places of a literal, which leads to `next`.
#[inline(never)]
fn emit_literal(places: &mut Vec<Place>, bytes: &Vec<u8>, next: usize) -> Result<(), AllocError>
    requires { vec_len places.old + vec_len bytes.now < 2 ^ 62 }
    ensures long { IfOk result (λ _. vec_len places.new ≡ vec_len places.old
        + (literal_part bytes.now.items).size) }
    ensures more { IfOk result (λ _. places_of places.new.items
        ≡ places_of places.old.items ++ (literal_part bytes.now.items).places 0
        (vec_len places.old) next) }
{
    if bytes.is_empty() {
        return append(places, Place::Pass(next));
    }
    let last = bytes.len() - 1;
    for i in 0..last {
        let here = places.len();
        append(places, Place::Byte(bytes[i], here + 1))?;
    }
    append(places, Place::Byte(bytes[last], next))
}

/// Appends the place of a class, which leads to `next`.
#[inline(never)]
fn emit_class(places: &mut Vec<Place>, class: &Class, next: usize) -> Result<(), AllocError>
    ensures long { IfOk result (λ _. vec_len places.new ≡ vec_len places.old
        + (part (class_meaning class.now)).size) }
    ensures more { IfOk result (λ _. places_of places.new.items
        ≡ places_of places.old.items ++ (part (class_meaning class.now)).places 0 0 next) }
{
    match class {
        Class::Bytes(ranges) => {
            let ranges = ranges.clone()?;
            append(places, Place::Bytes(ranges, next))
        }
        Class::Unicode(ranges) => {
            let ranges = ranges.clone()?;
            append(places, Place::Scalar(ranges, next))
        }
    }
}

/// Appends the places of the pattern, which leads to `next`. Groups are emitted with their slots,
/// of which group 1 has the slot `slots`; or, without `groups`, each group as its body. `Err` means
/// out of memory.
#[cycle(emit)]
pub(super) fn emit(
    places: &mut Vec<Place>,
    hir: &Hir,
    groups: bool,
    slots: usize,
    next: usize,
) -> Result<(), AllocError>
    requires fits { vec_len places.old + (laid groups (meaning hir.now)).size < 2 ^ 62 }
    requires slots_fit { slots < 2 ^ 62 }
    ensures long { IfOk result (λ _. vec_len places.new ≡ vec_len places.old
        + (laid groups (meaning hir.now)).size) }
    ensures more { IfOk result (λ _. places_of places.new.items
        ≡ places_of places.old.items ++ (laid groups (meaning hir.now)).places slots
        (vec_len places.old) next) }
{
    match hir.kind() {
        HirKind::Empty => append(places, Place::Pass(next)),
        HirKind::Literal(bytes) => emit_literal(places, bytes, next),
        HirKind::Class(class) => emit_class(places, class, next),
        HirKind::Look(look) => append(places, Place::Guard(*look, next)),
        HirKind::Repetition(repetition) => {
            emit_repetition(places, repetition, groups, slots, next)
        }
        HirKind::Capture(capture) => emit_capture(places, capture, groups, slots, next),
        HirKind::Concat(subs) => emit_concat(places, subs, groups, slots, next),
        HirKind::Alternation(subs) => emit_alternation(places, subs, groups, slots, next),
    }
}

/// Appends the places of a group: a slot for its start, the body, and a slot for its end. Without
/// `groups`, only the body is emitted.
#[cycle(emit)]
#[inline(never)]
fn emit_capture(
    places: &mut Vec<Place>,
    capture: &Capture,
    groups: bool,
    slots: usize,
    next: usize,
) -> Result<(), AllocError>
    requires fits { vec_len places.old + (laid groups (capture_meaning capture.now)).size < 2 ^ 62 }
    requires slots_fit { slots < 2 ^ 62 }
    ensures long { IfOk result (λ _. vec_len places.new ≡ vec_len places.old
        + (laid groups (capture_meaning capture.now)).size) }
    ensures more { IfOk result (λ _. places_of places.new.items
        ≡ places_of places.old.items ++ (laid groups (capture_meaning capture.now)).places slots
        (vec_len places.old) next) }
{
    if !groups {
        return emit(places, &capture.sub, groups, slots, next);
    }
    let number = capture.index.min(GREATEST_GROUP);
    let slot = slots + 2 * number.saturating_sub(1);
    let body = places.len() + 1;
    let after = body + size(&capture.sub, groups);
    append(places, Place::Slot(slot, body))?;
    emit(places, &capture.sub, groups, slots, after)?;
    append(places, Place::Slot(slot + 1, next))
}

/// Appends the places of each member, one after another, and a place that leads to `next`.
#[cycle(emit)]
#[inline(never)]
fn emit_concat(
    places: &mut Vec<Place>,
    subs: &[Hir],
    groups: bool,
    slots: usize,
    next: usize,
) -> Result<(), AllocError>
    requires fits { vec_len places.old + (laid groups (cat_all (map meaning subs.now))).size
        < 2 ^ 62 }
    requires slots_fit { slots < 2 ^ 62 }
    ensures long { IfOk result (λ _. vec_len places.new ≡ vec_len places.old
        + (laid groups (cat_all (map meaning subs.now))).size) }
    ensures more { IfOk result (λ _. places_of places.new.items
        ≡ places_of places.old.items ++ (laid groups (cat_all (map meaning subs.now))).places slots
        (vec_len places.old) next) }
{
    for sub in subs {
        let after = places.len() + size(sub, groups);
        emit(places, sub, groups, slots, after)?;
    }
    append(places, Place::Pass(next))
}

/// Appends for each member a choice of it or the later ones, and its places, which lead to `next`.
/// The last choice's second branch is a dead end.
#[cycle(emit)]
#[inline(never)]
fn emit_alternation(
    places: &mut Vec<Place>,
    subs: &[Hir],
    groups: bool,
    slots: usize,
    next: usize,
) -> Result<(), AllocError>
    requires fits { vec_len places.old + (laid groups (alt_all (map meaning subs.now))).size
        < 2 ^ 62 }
    requires slots_fit { slots < 2 ^ 62 }
    ensures long { IfOk result (λ _. vec_len places.new ≡ vec_len places.old
        + (laid groups (alt_all (map meaning subs.now))).size) }
    ensures more { IfOk result (λ _. places_of places.new.items
        ≡ places_of places.old.items ++ (laid groups (alt_all (map meaning subs.now))).places slots
        (vec_len places.old) next) }
{
    for sub in subs {
        let body = places.len() + 1;
        let other = body + size(sub, groups);
        append(places, Place::Choice(body, other))?;
        emit(places, sub, groups, slots, next)?;
    }
    append(places, Place::Dead)
}

/// Appends the places of a repetition. With a maximum, these are `min` copies of the body, and `max
/// - min` optional ones, each nested in the one before. Without a maximum, the last copy is in a
/// loop, and the whole is optional if `min` is 0.
#[cycle(emit)]
#[inline(never)]
fn emit_repetition(
    places: &mut Vec<Place>,
    repetition: &Repetition,
    groups: bool,
    slots: usize,
    next: usize,
) -> Result<(), AllocError>
    requires fits { vec_len places.old + (laid groups (repetition_meaning repetition.now)).size
        < 2 ^ 62 }
    requires slots_fit { slots < 2 ^ 62 }
    ensures long { IfOk result (λ _. vec_len places.new ≡ vec_len places.old
        + (laid groups (repetition_meaning repetition.now)).size) }
    ensures more { IfOk result (λ _. places_of places.new.items
        ≡ places_of places.old.items ++ (laid groups
        (repetition_meaning repetition.now)).places slots (vec_len places.old) next) }
{
    let min = repetition.min;
    match repetition.max {
        None => {
            let length = size(&repetition.sub, groups);
            if min == 0 {
                let body = places.len() + 1;
                append_choice(places, repetition.greedy, body, next)?;
            }
            'first: for k in 1..min {
                let after = places.len() + length;
                emit(places, &repetition.sub, groups, slots, after)?;
            }
            let body = places.len();
            emit(places, &repetition.sub, groups, slots, body + length)?;
            append_choice(places, repetition.greedy, body, next)
        }
        Some(max) => {
            if min.max(max) == 0 {
                return append(places, Place::Pass(next));
            }
            let length = size(&repetition.sub, groups);
            'copies: for k in 0..min {
                let after = places.len() + length;
                emit(places, &repetition.sub, groups, slots, after)?;
            }
            'more: for k in min..max {
                let body = places.len() + 1;
                append_choice(places, repetition.greedy, body, next)?;
                emit(places, &repetition.sub, groups, slots, body + length)?;
            }
            append(places, Place::Pass(next))
        }
    }
}
