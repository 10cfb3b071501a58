//! Weight of patterns by what is laid out for them, up to a cap, so that nothing overflows.

ghost use Rattle.std.specs.Prelude.{◌≡◌, ◌≤◌, ◌^◌, All, IfOk, length, map, min};
ghost use Rattle.rc_pattern.specs.Meaning.{meaning, cat_all, alt_all, repetition_meaning, class_meaning, char_range};
ghost use Rattle.rc_pattern.specs.WellFormed.{AreAscending, HasBounds};
ghost use Rattle.rc_pattern.specs.Weight.{copies_of};
ghost use Rattle.rc_utf8.specs.Places.{place_of, places_of};
ghost use Rattle.rc_weigh.specs.Weight.{class_weight, laid_list_weight, laid_out, laid_weight, way_count};

use rc_pattern::hir::{Class, ClassUnicodeRange, Hir, HirKind, Repetition};
use rc_program::place::Place;
use rc_utf8::place::BytePlace;
use rc_utf8::program::byte_program;
use std::alloc::{AllocError, Global};

/// The cap: a weight from here on is reported as this.
const CAP: u128 = 0x1_0000_0000_0000_0000;

/// How many ways a branch has.
fn way_count(place: &BytePlace) -> usize
    ensures { result ≡ way_count (place_of place.now) }
{
    match place {
        BytePlace::Branch(ways) => ways.len(),
        _ => 0,
    }
}

/// How many places there are, with the ways of the branches among them.
#[tactic(auto, using(crate::proofs::CodeLemmas::places_laid))]
fn laid_out(places: &[BytePlace]) -> u128
    ensures { result ≡ min (laid_out (places_of places.now)) (2 ^ 64) }
{
    let mut total = 0;
    for place in places {
        total = (total + 1 + way_count(place) as u128).min(CAP);
    }
    total
}

/// The weight of a class of characters: the places and the ways of its byte program, and its
/// ranges. A class of ASCII is one place, with a way for each range.
fn ranges_weight(alloc: Global, ranges: &[ClassUnicodeRange]) -> Result<u128, AllocError>
    requires { AreAscending 0 (map char_range ranges.now) }
    ensures { IfOk result (λ w. w ≡ min (class_weight (map char_range ranges.now)) (2 ^ 64)) }
{
    let Some(last) = ranges.last() else {
        return Ok(1);
    };
    if last.end <= '\u{7F}' {
        return Ok(1 + 2 * ranges.len() as u128);
    }
    let program = [Place::Scalar(Vec::from_slice(alloc, ranges)?, 0)];
    let places = byte_program(alloc, &program)?;
    Ok((laid_out(&places) + ranges.len() as u128).min(CAP))
}

fn class_weight(alloc: Global, class: &Class) -> Result<u128, AllocError>
    requires { HasBounds (class_meaning class.now) }
    ensures { IfOk result (λ w. w ≡ min (laid_weight (class_meaning class.now)) (2 ^ 64)) }
{
    match class {
        Class::Unicode(ranges) => ranges_weight(alloc, ranges),
        Class::Bytes(_) => Ok(1),
    }
}

/// The number of copies of its body that a repetition counts as.
fn copies(min: u32, max: Option<u32>) -> u128
    ensures value { result ≡ copies_of min max }
    ensures some { 1 ≤ result }
    ensures small { result ≤ 2 ^ 32 }
{
    match max {
        None => min as u128 + 1,
        Some(max) => max.max(1) as u128,
    }
}

/// The weight of the pattern, or 2 to the power of 64 if it is above that. It recurses as deep as
/// the pattern is nested. `Err` means out of memory.
#[cycle(weight)]
fn laid_weight(alloc: Global, hir: &Hir) -> Result<u128, AllocError>
    requires { HasBounds (meaning hir.now) }
    ensures { IfOk result (λ w. w ≡ min (laid_weight (meaning hir.now)) (2 ^ 64)) }
{
    match hir.kind() {
        HirKind::Empty | HirKind::Look(_) => Ok(1),
        HirKind::Literal(bytes) => Ok(bytes.len().max(1) as u128),
        HirKind::Class(class) => class_weight(alloc, class),
        HirKind::Repetition(repetition) => repetition_weight(alloc, repetition),
        HirKind::Capture(capture) => {
            let body = laid_weight(alloc, &capture.sub)?;
            Ok((2 + body).min(CAP))
        }
        HirKind::Concat(subs) => concat_weight(alloc, subs),
        HirKind::Alternation(subs) => alternation_weight(alloc, subs),
    }
}

#[cycle(weight)]
fn repetition_weight(alloc: Global, repetition: &Repetition) -> Result<u128, AllocError>
    requires { HasBounds (repetition_meaning repetition.now) }
    ensures { IfOk result (λ w. w ≡ min (laid_weight (repetition_meaning repetition.now))
        (2 ^ 64)) }
{
    let copies = copies(repetition.min, repetition.max);
    let body = laid_weight(alloc, &repetition.sub)?;
    Ok((copies * (body + 2) + 2).min(CAP))
}

#[cycle(weight)]
#[tactic(auto, using(crate::proofs::CodeLemmas::cat_laid, crate::proofs::CodeLemmas::cat_bounded))]
fn concat_weight(alloc: Global, subs: &[Hir]) -> Result<u128, AllocError>
    requires { HasBounds (cat_all (map meaning subs.now)) }
    ensures { IfOk result (λ w. w ≡ min (laid_weight (cat_all (map meaning subs.now))) (2 ^ 64)) }
{
    let mut total = 0;
    for sub in subs {
        total = (total + laid_weight(alloc, sub)?).min(CAP);
    }
    Ok((total + 1).min(CAP))
}

#[cycle(weight)]
#[tactic(auto, using(crate::proofs::CodeLemmas::alt_laid, crate::proofs::CodeLemmas::alt_bounded))]
fn alternation_weight(alloc: Global, subs: &[Hir]) -> Result<u128, AllocError>
    requires { HasBounds (alt_all (map meaning subs.now)) }
    ensures { IfOk result (λ w. w ≡ min (laid_weight (alt_all (map meaning subs.now))) (2 ^ 64)) }
{
    let mut total = 0;
    for sub in subs {
        total = (total + 1 + laid_weight(alloc, sub)?).min(CAP);
    }
    Ok((total + 2).min(CAP))
}

/// Returns the weight of a list of patterns by what is laid out for them, or 2 to the power of 64
/// if it is above that. `Err` means out of memory.
#[tactic(auto, using(crate::proofs::CodeLemmas::list_laid, crate::proofs::CodeLemmas::list_bounded))]
pub fn capped_laid_weight(alloc: Global, hirs: &[Hir]) -> Result<u128, AllocError>
    requires { All HasBounds (map meaning hirs.now) }
    ensures { IfOk result (λ w. w ≡ min (laid_list_weight (map meaning hirs.now)) (2 ^ 64)) }
{
    let mut total = 2;
    for hir in hirs {
        total = (total + laid_weight(alloc, hir)? + 3).min(CAP);
    }
    Ok(total)
}
