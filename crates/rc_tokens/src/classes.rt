//! Character classes and byte classes, as ranges.

ghost use Rattle.std.specs.Prelude.{◌≡◌, ◌+◌, ◌-◌, ◌<◌, ◌≤◌, ◌++◌, ◌∷◌, [], List, ℕ, Some, None, map, max, min, true, false, nat_lt, IfOk, OnOk, option_map};
ghost use Rattle.rc_pattern.specs.Re.{Range};
ghost use Rattle.rc_tokens.specs.ClassView.{pair, pairs};
ghost use Rattle.rc_tokens.specs.Classes.{AreCodes, next, before, canonical, shared, lower, upper, folded, gaps, folded_if, negated_if, class_of, last_code, has_high};
ghost use Rattle.rc_tokens.specs.Merged.{merged};
ghost use Rattle.std.specs.List.Sorted.{IsPermutation, IsNonDecreasingBy};

use std::alloc::{AllocError, Global};

/// A range of codes of characters or of bytes, both ends included.
#[derive(Clone, Copy, Debug, PartialEq, Eq)]
pub struct CodeRange {
    pub start: u32,
    pub end: u32,
}

/// The next code; among characters U+E000 follows U+D7FF.
fn next(unicode: bool, code: u32) -> u64
    ensures { result ≡ next unicode code }
{
    if unicode && code == 0xD7FF {
        return 0xE000;
    }
    code as u64 + 1
}

/// The previous code; among characters U+D7FF precedes U+E000.
fn before(unicode: bool, code: u32) -> u32
    ensures { result ≡ before unicode code }
{
    if unicode && code == 0xE000 {
        return 0xD7FF;
    }
    code.saturating_sub(1)
}

/// Whether a code lies between the two.
fn is_apart(unicode: bool, low: u32, high: u32) -> bool
    ensures { result ≡ nat_lt (next unicode low) high }
{
    next(unicode, low) < high as u64
}

pub(crate) fn push(ranges: &mut Vec<CodeRange>, start: u32, end: u32) -> Result<(), AllocError>
    ensures { OnOk result (pairs ranges.new.items ≡ pairs ranges.old.items ++ (start, end) ∷ []) }
{
    ranges.push(CodeRange { start, end })?;
    Ok(())
}

pub(crate) fn append(ranges: &mut Vec<CodeRange>, more: &[CodeRange]) -> Result<(), AllocError>
    ensures { OnOk result (pairs ranges.new.items ≡ pairs ranges.old.items ++ pairs more.now) }
{
    for range in more {
        ranges.push(*range)?;
    }
    Ok(())
}

/// The ranges, sorted by their starts.
fn sorted(alloc: Global, ranges: &[CodeRange]) -> Result<Vec<CodeRange>, AllocError>
    ensures moved { IfOk result (λ v. IsPermutation ranges.now v.items) }
    ensures order { IfOk result (λ v. IsNonDecreasingBy (λ (r : CodeRange). r.start) v.items) }
{
    let mut all = Vec::from_slice(alloc, ranges)?;
    all.sort_unstable_by_key(|range| range.start);
    Ok(all)
}

/// Joins ranges that are sorted by their starts.
#[tactic(auto, using(crate::proofs::ClassSteps::merges_apart, crate::proofs::ClassSteps::merges_touch, crate::proofs::ClassSteps::merges_end))]
fn merged(alloc: Global, unicode: bool, ranges: &[CodeRange]) -> Result<Vec<CodeRange>, AllocError>
    ensures { IfOk result (λ v. pairs v.items ≡ merged unicode (pairs ranges.now)) }
{
    let mut all = Vec::with_capacity(alloc, ranges.len())?;
    if ranges.is_empty() {
        return Ok(all);
    }
    let mut current = ranges[0];
    for i in 1..ranges.len() {
        let other = ranges[i];
        if is_apart(unicode, current.end, other.start) {
            push(&mut all, current.start, current.end)?;
            current = other;
        } else {
            current.end = current.end.max(other.end);
        }
    }
    push(&mut all, current.start, current.end)?;
    Ok(all)
}

/// The ranges, sorted and then joined in one pass. The definition inserts them one by one, which
/// has the same result for ranges of codes.
#[tactic(auto, using(crate::proofs::MergedLemmas::merged_sorted, crate::proofs::MergedLemmas::canonical_few))]
fn canonical(
    alloc: Global,
    unicode: bool,
    ranges: &[CodeRange],
) -> Result<Vec<CodeRange>, AllocError>
    requires { AreCodes unicode (pairs ranges.now) }
    ensures { IfOk result (λ v. pairs v.items ≡ canonical unicode (pairs ranges.now)) }
{
    if ranges.len() <= 1 {
        return Vec::from_slice(alloc, ranges);
    }
    let in_order = sorted(alloc, ranges)?;
    merged(alloc, unicode, &in_order)
}

/// The codes that the sorted ranges leave out.
#[tactic(auto, using(crate::proofs::ClassSteps::gaps_step, crate::proofs::ClassSteps::gaps_end))]
fn gaps(alloc: Global, unicode: bool, ranges: &[CodeRange]) -> Result<Vec<CodeRange>, AllocError>
    ensures { IfOk result (λ v. pairs v.items ≡ gaps unicode 0 (pairs ranges.now)) }
{
    let mut all = Vec::new(alloc);
    let mut start: u64 = 0;
    for i in 0..ranges.len() {
        let range = ranges[i];
        if start < range.start as u64 {
            push(&mut all, start as u32, before(unicode, range.start))?;
        }
        start = next(unicode, range.end);
    }
    let last: u32 = if unicode { 0x10_FFFF } else { 255 };
    if start <= last as u64 {
        push(&mut all, start as u32, last)?;
    }
    Ok(all)
}

/// The other case of the letters that the range shares with `A` to `Z`.
fn push_lower(ranges: &mut Vec<CodeRange>, range: CodeRange) -> Result<(), AllocError>
    ensures { OnOk result (pairs ranges.new.items ≡ pairs ranges.old.items
        ++ lower (shared 65 90 (pair range))) }
{
    let start = range.start.max(65);
    let end = range.end.min(90);
    if start <= end {
        return push(ranges, start + 32, end + 32);
    }
    Ok(())
}

/// The other case of the letters that the range shares with `a` to `z`.
fn push_upper(ranges: &mut Vec<CodeRange>, range: CodeRange) -> Result<(), AllocError>
    ensures { OnOk result (pairs ranges.new.items ≡ pairs ranges.old.items
        ++ upper (shared 97 122 (pair range))) }
{
    let start = range.start.max(97);
    let end = range.end.min(122);
    if start <= end {
        return push(ranges, start - 32, end - 32);
    }
    Ok(())
}

/// The ranges, together with the other case of each ASCII letter.
#[tactic(auto, using(crate::proofs::ClassSteps::folded_step, crate::proofs::ClassSteps::folded_end))]
fn folded(alloc: Global, ranges: &[CodeRange]) -> Result<Vec<CodeRange>, AllocError>
    ensures { IfOk result (λ v. pairs v.items ≡ folded (pairs ranges.now)) }
{
    let mut all = Vec::new(alloc);
    for i in 0..ranges.len() {
        let range = ranges[i];
        push(&mut all, range.start, range.end)?;
        push_lower(&mut all, range)?;
        push_upper(&mut all, range)?;
    }
    Ok(all)
}

/// The class of ranges of codes: folded first, then sorted and joined, then complemented.
#[tactic(auto, using(crate::proofs::ClassLemmas::folded_codes))]
pub fn class_of(
    alloc: Global,
    unicode: bool,
    fold: bool,
    negated: bool,
    ranges: &[CodeRange],
) -> Result<Vec<CodeRange>, AllocError>
    requires { AreCodes unicode (pairs ranges.now) }
    ensures { IfOk result (λ v. pairs v.items ≡ class_of unicode fold negated (pairs ranges.now)) }
{
    let in_order = if fold {
        let all = folded(alloc, ranges)?;
        canonical(alloc, unicode, &all)?
    } else {
        canonical(alloc, unicode, ranges)?
    };
    if negated {
        return gaps(alloc, unicode, &in_order);
    }
    Ok(in_order)
}

/// Whether a code of 128 or more is in one of the ranges.
pub fn has_high(ranges: &[CodeRange]) -> bool
    ensures { result ≡ has_high (pairs ranges.now) }
{
    for range in ranges {
        if range.end >= 128 {
            return true;
        }
    }
    false
}
