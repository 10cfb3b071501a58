//! Simple case folding of classes: of characters if `unicode` is set, else of bytes.

ghost use Rattle.std.specs.Prelude.{◌≡◌, ◌++◌, IfOk, OnOk};
ghost use Rattle.unicode.specs.CaseFolding.{fold_pairs};
ghost use Rattle.rc_tokens.specs.ClassView.{pair, pairs};
ghost use Rattle.rc_tokens.specs.Classes.{AreCodes};
ghost use Rattle.rc_class_sets.specs.Sets.{CodeSet, Denote, AreRangesOf};
ghost use Rattle.rc_class_sets.specs.Folding.{folded, folded_if, item, FoldLaw, FoldOrderLaw};
ghost use Rattle.rc_class_sets.specs.Others.{others, with_others};

use crate::sets::{complement, in_order, push};
use rc_tokens::classes::{CodeRange, class_of};
use std::alloc::{AllocError, Global};
use unicode::case::fold_pairs;

/// Appends the characters that fold with one of the range.
fn push_others(ranges: &mut Vec<CodeRange>, range: CodeRange) -> Result<(), AllocError>
    ensures { OnOk result (pairs ranges.new.items ≡ pairs ranges.old.items
        ++ others (pair range) fold_pairs) }
{
    let folds = fold_pairs();
    let first = folds.partition_point(|fold| fold.0 < range.start);
    for i in first..folds.len() {
        let fold = folds[i];
        if fold.0 > range.end {
            return Ok(());
        }
        push(ranges, fold.1, fold.1)?;
    }
    Ok(())
}

/// The ranges, each followed by the characters that fold with one of its own.
fn with_others(alloc: Global, ranges: &[CodeRange]) -> Result<Vec<CodeRange>, AllocError>
    ensures { IfOk result (λ v. pairs v.items ≡ with_others fold_pairs (pairs ranges.now)) }
{
    let mut all = Vec::new(alloc);
    for i in 0..ranges.len() {
        let range = ranges[i];
        push(&mut all, range.start, range.end)?;
        push_others(&mut all, range)?;
    }
    Ok(all)
}

/// The codes of the ranges and all that fold with them: characters by the simple case folding of
/// Unicode, bytes by the two cases of ASCII letters.
pub fn folded(
    alloc: Global,
    unicode: bool,
    ranges: &[CodeRange],
) -> Result<Vec<CodeRange>, AllocError>
    requires { AreCodes unicode (pairs ranges.now) }
    ensures { (p : CodeSet) → Denote unicode p (pairs ranges.now)
        → IfOk result (λ v. AreRangesOf unicode (folded unicode p) (pairs v.items)) }
{
    if unicode {
        let all = with_others(alloc, ranges)?;
        return class_of(alloc, true, false, false, &all);
    }
    class_of(alloc, false, true, false, ranges)
}

fn folded_if(
    alloc: Global,
    unicode: bool,
    fold: bool,
    ranges: &[CodeRange],
) -> Result<Vec<CodeRange>, AllocError>
    requires { AreCodes unicode (pairs ranges.now) }
    ensures { (p : CodeSet) → Denote unicode p (pairs ranges.now)
        → IfOk result (λ v. AreRangesOf unicode (folded_if fold unicode p) (pairs v.items)) }
{
    if fold {
        return folded(alloc, unicode, ranges);
    }
    in_order(alloc, unicode, ranges)
}

/// An item of a list: the ranges, folded first if `fold` is set, and then complemented if the item
/// is negated.
pub fn item(
    alloc: Global,
    unicode: bool,
    fold: bool,
    negated: bool,
    ranges: &[CodeRange],
) -> Result<Vec<CodeRange>, AllocError>
    requires { AreCodes unicode (pairs ranges.now) }
    ensures { (p : CodeSet) → Denote unicode p (pairs ranges.now)
        → IfOk result (λ v. AreRangesOf unicode (item unicode fold negated p) (pairs v.items)) }
{
    let all = folded_if(alloc, unicode, fold, ranges)?;
    if negated {
        return complement(alloc, unicode, &all);
    }
    Ok(all)
}

/// Folding brings each character with the same simple case folding, and no other.
pub fn folds_by_simple_folding()
    ensures { FoldLaw }
{}

/// If sets are folded, each result of set operations on them is folded already.
pub fn folds_in_any_order()
    ensures { FoldOrderLaw }
{}
