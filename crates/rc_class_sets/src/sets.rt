//! Set operations on classes: of characters if `unicode` is set, else of bytes.

ghost use Rattle.std.specs.Prelude.{◌≡◌, ◌++◌, ◌∷◌, [], IfOk, OnOk};
ghost use Rattle.rc_tokens.specs.ClassView.{pairs};
ghost use Rattle.rc_tokens.specs.Classes.{AreCodes};
ghost use Rattle.rc_class_sets.specs.Sets.{CodeSet, Denote, AreRangesOf, union, intersection, difference, symmetric_difference, complement, RangesLaw};

use rc_tokens::classes::{CodeRange, class_of};
use std::alloc::{AllocError, Global};

pub(crate) fn push(ranges: &mut Vec<CodeRange>, start: u32, end: u32) -> Result<(), AllocError>
    ensures { OnOk result (pairs ranges.new.items ≡ pairs ranges.old.items ++ (start, end) ∷ []) }
{
    ranges.push(CodeRange { start, end })?;
    Ok(())
}

/// The left ranges, and then the right ones.
fn appended(
    alloc: Global,
    left: &[CodeRange],
    right: &[CodeRange],
) -> Result<Vec<CodeRange>, AllocError>
    ensures { IfOk result (λ v. pairs v.items ≡ pairs left.now ++ pairs right.now) }
{
    let mut all = Vec::from_slice(alloc, left)?;
    for range in right {
        all.push(*range)?;
    }
    Ok(all)
}

/// The ranges in order, and joined where they touch or overlap.
pub fn in_order(
    alloc: Global,
    unicode: bool,
    ranges: &[CodeRange],
) -> Result<Vec<CodeRange>, AllocError>
    requires { AreCodes unicode (pairs ranges.now) }
    ensures { (p : CodeSet) → Denote unicode p (pairs ranges.now)
        → IfOk result (λ v. AreRangesOf unicode p (pairs v.items)) }
{
    class_of(alloc, unicode, false, false, ranges)
}

/// The codes that are in none of the ranges.
pub fn complement(
    alloc: Global,
    unicode: bool,
    ranges: &[CodeRange],
) -> Result<Vec<CodeRange>, AllocError>
    requires { AreCodes unicode (pairs ranges.now) }
    ensures { (p : CodeSet) → Denote unicode p (pairs ranges.now)
        → IfOk result (λ v. AreRangesOf unicode (complement p) (pairs v.items)) }
{
    class_of(alloc, unicode, false, true, ranges)
}

/// The codes that are in either set.
pub fn union(
    alloc: Global,
    unicode: bool,
    left: &[CodeRange],
    right: &[CodeRange],
) -> Result<Vec<CodeRange>, AllocError>
    requires left { AreCodes unicode (pairs left.now) }
    requires right { AreCodes unicode (pairs right.now) }
    ensures { (p q : CodeSet) → Denote unicode p (pairs left.now)
        → Denote unicode q (pairs right.now)
        → IfOk result (λ v. AreRangesOf unicode (union p q) (pairs v.items)) }
{
    let all = appended(alloc, left, right)?;
    class_of(alloc, unicode, false, false, &all)
}

/// The codes that are in both sets: those that are in neither complement.
pub fn intersection(
    alloc: Global,
    unicode: bool,
    left: &[CodeRange],
    right: &[CodeRange],
) -> Result<Vec<CodeRange>, AllocError>
    requires left { AreCodes unicode (pairs left.now) }
    requires right { AreCodes unicode (pairs right.now) }
    ensures { (p q : CodeSet) → Denote unicode p (pairs left.now)
        → Denote unicode q (pairs right.now)
        → IfOk result (λ v. AreRangesOf unicode (intersection p q) (pairs v.items)) }
{
    let outside_left = class_of(alloc, unicode, false, true, left)?;
    let outside_right = class_of(alloc, unicode, false, true, right)?;
    let outside = appended(alloc, &outside_left, &outside_right)?;
    class_of(alloc, unicode, false, true, &outside)
}

/// The codes that are in the left set and not in the right one.
pub fn difference(
    alloc: Global,
    unicode: bool,
    left: &[CodeRange],
    right: &[CodeRange],
) -> Result<Vec<CodeRange>, AllocError>
    requires left { AreCodes unicode (pairs left.now) }
    requires right { AreCodes unicode (pairs right.now) }
    ensures { (p q : CodeSet) → Denote unicode p (pairs left.now)
        → Denote unicode q (pairs right.now)
        → IfOk result (λ v. AreRangesOf unicode (difference p q) (pairs v.items)) }
{
    let outside_left = class_of(alloc, unicode, false, true, left)?;
    let outside = appended(alloc, &outside_left, right)?;
    class_of(alloc, unicode, false, true, &outside)
}

/// The codes that are in exactly one of the sets.
pub fn symmetric_difference(
    alloc: Global,
    unicode: bool,
    left: &[CodeRange],
    right: &[CodeRange],
) -> Result<Vec<CodeRange>, AllocError>
    requires left { AreCodes unicode (pairs left.now) }
    requires right { AreCodes unicode (pairs right.now) }
    ensures { (p q : CodeSet) → Denote unicode p (pairs left.now)
        → Denote unicode q (pairs right.now)
        → IfOk result (λ v. AreRangesOf unicode (symmetric_difference p q) (pairs v.items)) }
{
    let only_left = difference(alloc, unicode, left, right)?;
    let only_right = difference(alloc, unicode, right, left)?;
    union(alloc, unicode, &only_left, &only_right)
}

/// A set has one list of ranges, so the contracts above tell each result exactly.
pub fn ranges_are_one()
    ensures { RangesLaw }
{}
