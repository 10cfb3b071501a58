//! The classes `\d`, `\s` and `\w`.

ghost use Rattle.std.specs.Prelude.{◌≡◌, true, IfOk};
ghost use Rattle.unicode.specs.Rows.{IsRising, HasExactly};
ghost use Rattle.rc_tokens.specs.ClassView.{pairs};
ghost use Rattle.rc_class_sets.specs.Perl.{perl_set};
ghost use Rattle.rc_class_sets.specs.Sets.{AreRangesOf};

use crate::properties::characters;
use rc_tokens::classes::CodeRange;
use rc_tokens::items::perl_ranges;
use rc_tokens::tokens::{Perl, Set};
use std::alloc::{AllocError, Global};
use unicode::perl::{digit_ranges, space_ranges, word_ranges};

fn unicode_ranges(alloc: Global, set: Set) -> Result<Vec<(u32, u32)>, AllocError>
    ensures members { IfOk result (λ v. HasExactly v.items (perl_set true set)) }
    ensures rising { IfOk result (λ v. IsRising v.items) }
{
    match set {
        Set::Digits => digit_ranges(alloc),
        Set::Spaces => space_ranges(alloc),
        Set::Words => word_ranges(alloc),
    }
}

/// The set that a letter names: of characters by Unicode, of bytes by ASCII.
pub fn perl_class(alloc: Global, unicode: bool, set: Set) -> Result<Vec<CodeRange>, AllocError>
    ensures { IfOk result (λ v. AreRangesOf unicode (perl_set unicode set) (pairs v.items)) }
{
    if unicode {
        let ranges = unicode_ranges(alloc, set)?;
        return characters(alloc, &ranges);
    }
    perl_ranges(
        alloc,
        false,
        Perl {
            set,
            negated: false,
        },
    )
}
