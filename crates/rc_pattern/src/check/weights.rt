//! Weight of a pattern, up to a cap, so that nothing overflows.

ghost use Rattle.std.specs.Prelude.{◌≡◌, ◌≤◌, ◌^◌, min, map};
ghost use Rattle.rc_pattern.specs.Meaning.{meaning, cat_all, alt_all, repetition_meaning, class_meaning};
ghost use Rattle.rc_pattern.specs.Weight.{weight, list_weight, copies_of};

use crate::hir::{Class, Hir, HirKind, Repetition};

/// The cap: a weight from here on is reported as this.
const CAP: u128 = 0x1_0000_0000_0000_0000;

/// The weight of the pattern, or 2 to the power of 64 if it is above that. It recurses as deep as
/// the pattern is nested.
#[cycle(weight)]
pub fn capped_weight(hir: &Hir) -> u128
    ensures { result ≡ min (weight (meaning hir.now)) (2 ^ 64) }
{
    match hir.kind() {
        HirKind::Empty | HirKind::Look(_) => 1,
        HirKind::Literal(bytes) => bytes.len().max(1) as u128,
        HirKind::Class(class) => class_weight(class),
        HirKind::Repetition(repetition) => repetition_weight(repetition),
        HirKind::Capture(capture) => (2 + capped_weight(&capture.sub)).min(CAP),
        HirKind::Concat(subs) => concat_weight(subs),
        HirKind::Alternation(subs) => alternation_weight(subs),
    }
}

fn class_weight(class: &Class) -> u128
    ensures { result ≡ min (weight (class_meaning class.now)) (2 ^ 64) }
{
    match class {
        Class::Unicode(ranges) => (1 + 84 * ranges.len() as u128).min(CAP),
        Class::Bytes(_) => 1,
    }
}

/// The number of copies of its body that a repetition counts as.
fn copies(min: u32, max: Option<u32>) -> u128
    ensures value { result ≡ copies_of min max }
    ensures some { 1 ≤ result }
    ensures small { result ≤ 2 ^ 32 }
{
    match max {
        None => min as u128 + 1,
        Some(max) => max.max(1) as u128,
    }
}

#[cycle(weight)]
fn repetition_weight(repetition: &Repetition) -> u128
    ensures { result ≡ min (weight (repetition_meaning repetition.now)) (2 ^ 64) }
{
    let copies = copies(repetition.min, repetition.max);
    (copies * (capped_weight(&repetition.sub) + 2) + 2).min(CAP)
}

#[cycle(weight)]
#[tactic(auto, using(crate::proofs::WeightLemmas::cat_weight))]
fn concat_weight(subs: &[Hir]) -> u128
    ensures { result ≡ min (weight (cat_all (map meaning subs.now))) (2 ^ 64) }
{
    let mut total = 0;
    for sub in subs {
        total = (total + capped_weight(sub)).min(CAP);
    }
    (total + 1).min(CAP)
}

#[cycle(weight)]
#[tactic(auto, using(crate::proofs::WeightLemmas::alt_weight))]
fn alternation_weight(subs: &[Hir]) -> u128
    ensures { result ≡ min (weight (alt_all (map meaning subs.now))) (2 ^ 64) }
{
    let mut total = 0;
    for sub in subs {
        total = (total + 1 + capped_weight(sub)).min(CAP);
    }
    (total + 2).min(CAP)
}

/// The weight of a list of patterns, or 2 to the power of 64 if it is above that.
#[tactic(auto, using(crate::proofs::WeightLemmas::list_weights))]
pub fn capped_list_weight(hirs: &[Hir]) -> u128
    ensures { result ≡ min (list_weight (map meaning hirs.now)) (2 ^ 64) }
{
    let mut total = 2;
    for hir in hirs {
        total = (total + capped_weight(hir) + 3).min(CAP);
    }
    total
}
