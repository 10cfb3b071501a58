//! Characters under the flag `i`.

ghost use Rattle.std.specs.Prelude.{◌≡◌, ◌&&◌, true, false, IfOk, MatchOption};
ghost use Rattle.rc_tokens.specs.Text.{is_letter};
ghost use Rattle.rc_tokens.specs.ClassView.{pairs};
ghost use Rattle.rc_class_sets.specs.Sets.{AreRangesOf};
ghost use Rattle.rc_full_lists.specs.Items.{item_set};
ghost use Rattle.rc_full_lists.specs.Lists.{one};
ghost use Rattle.rc_full_parser.specs.Pieces.{has_cases};

use rc_full_lists::items::{Item, item_class};
use rc_tokens::classes::CodeRange;
use std::alloc::{AllocError, Global};
use unicode::case::fold_pairs;

fn is_letter(c: char) -> bool
    ensures { result ≡ is_letter c }
{
    ('A' <= c && c <= 'Z') || ('a' <= c && c <= 'z')
}

/// Whether the table of folding has the character.
fn folds_with_another(c: char) -> bool
    ensures { result ≡ has_cases true c }
{
    let code = c as u32;
    let folds = fold_pairs();
    let first = folds.partition_point(|fold| fold.0 < code);
    if first == folds.len() {
        return false;
    }
    folds[first].0 == code
}

/// Whether something else folds with the character. Without `unicode` that is so for ASCII letters.
fn has_cases(unicode: bool, c: char) -> bool
    ensures { result ≡ has_cases unicode c }
{
    if unicode {
        return folds_with_another(c);
    }
    is_letter(c)
}

/// The class of all that folds with the character, itself among them. There is `None` if `fold`,
/// which is the flag `i`, isn't set, or if nothing else folds with it: it then stands for itself.
pub fn cases(
    alloc: Global,
    unicode: bool,
    fold: bool,
    c: char,
) -> Result<Option<Vec<CodeRange>>, AllocError>
    ensures { IfOk result (λ o. MatchOption o ((fold && has_cases unicode c) ≡ false)
        (λ v. ((fold && has_cases unicode c) ≡ true)
        × AreRangesOf unicode (item_set unicode fold (one c)) (pairs v.items))) }
{
    if !fold || !has_cases(unicode, c) {
        return Ok(None);
    }
    let code = c as u32;
    let range = CodeRange {
        start: code,
        end: code,
    };
    let class = item_class(alloc, unicode, fold, Item::Codes(range))?;
    Ok(Some(class))
}
