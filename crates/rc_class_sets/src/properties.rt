//! The classes of properties of Unicode.

ghost use Rattle.std.specs.Prelude.{◌≡◌, ◌++◌, true, IfOk, OnOk};
ghost use Rattle.unicode.specs.Rows.{AreRanges, HasExactly};
ghost use Rattle.unicode.specs.Sets.{in_set};
ghost use Rattle.rc_tokens.specs.ClassView.{pairs};
ghost use Rattle.rc_class_sets.specs.Scalars.{below_surrogates, above_surrogates, cut};
ghost use Rattle.rc_class_sets.specs.Sets.{CodeSet, AreRangesOf};

use crate::sets::push;
use rc_tokens::classes::{CodeRange, class_of};
use std::alloc::{AllocError, Global};
use unicode::sets::Set;

fn push_below_surrogates(
    ranges: &mut Vec<CodeRange>,
    start: u32,
    end: u32,
) -> Result<(), AllocError>
    ensures { OnOk result (pairs ranges.new.items ≡ pairs ranges.old.items
        ++ below_surrogates (start, end)) }
{
    if start <= 0xD7FF {
        return push(ranges, start, end.min(0xD7FF));
    }
    Ok(())
}

fn push_above_surrogates(
    ranges: &mut Vec<CodeRange>,
    start: u32,
    end: u32,
) -> Result<(), AllocError>
    ensures { OnOk result (pairs ranges.new.items ≡ pairs ranges.old.items
        ++ above_surrogates (start, end)) }
{
    if end >= 0xE000 {
        return push(ranges, start.max(0xE000), end);
    }
    Ok(())
}

/// The ranges without the surrogates, which are code points and no characters.
fn without_surrogates(alloc: Global, ranges: &[(u32, u32)]) -> Result<Vec<CodeRange>, AllocError>
    ensures { IfOk result (λ v. pairs v.items ≡ cut ranges.now) }
{
    let mut all = Vec::new(alloc);
    for i in 0..ranges.len() {
        let (start, end) = ranges[i];
        push_below_surrogates(&mut all, start, end)?;
        push_above_surrogates(&mut all, start, end)?;
    }
    Ok(all)
}

/// The characters in ranges of code points.
pub(crate) fn characters(alloc: Global, ranges: &[(u32, u32)]) -> Result<Vec<CodeRange>, AllocError>
    requires { AreRanges ranges.now }
    ensures { (p : CodeSet) → HasExactly ranges.now p
        → IfOk result (λ v. AreRangesOf true p (pairs v.items)) }
{
    let all = without_surrogates(alloc, ranges)?;
    class_of(alloc, true, false, false, &all)
}

/// The characters with a property.
pub fn property(alloc: Global, set: Set) -> Result<Vec<CodeRange>, AllocError>
    ensures { IfOk result (λ v. AreRangesOf true (in_set set) (pairs v.items)) }
{
    let ranges = set.ranges(alloc)?;
    characters(alloc, &ranges)
}
