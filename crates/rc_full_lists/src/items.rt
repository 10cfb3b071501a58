//! Items of lists, and their classes.

ghost use Rattle.std.specs.Prelude.{◌≡◌, ◌∷◌, [], IfOk};
ghost use Rattle.rc_tokens.specs.ClassView.{pair, pairs};
ghost use Rattle.rc_tokens.specs.Classes.{AreCodes};
ghost use Rattle.unicode.specs.Rows.{in_ranges};
ghost use Rattle.rc_class_sets.specs.Sets.{Denote, AreRangesOf};
ghost use Rattle.rc_full_lists.specs.Items.{HasCodes, is_negated, named_set, item_set};

use rc_class_names::posix::{Posix, posix_class};
use rc_class_names::properties::Property;
use rc_class_sets::folding;
use rc_class_sets::perl::perl_class;
use rc_class_sets::properties::property;
use rc_class_sets::sets::in_order;
use rc_tokens::classes::CodeRange;
use rc_tokens::tokens::Perl;
use std::alloc::{AllocError, Global};

/// What stands between the brackets of a list.
#[derive(Clone, Copy, Debug, PartialEq, Eq)]
pub enum Item {
    /// One code, or a range.
    Codes(CodeRange),
    Perl(Perl),
    Property(Property),
    /// `[:alpha:]`.
    Posix(Posix),
    /// `[:^alpha:]`.
    NotPosix(Posix),
}

impl Item {
    fn is_negated(self) -> bool
        ensures { result ≡ is_negated self }
    {
        match self {
            Item::Codes(_) => false,
            Item::Perl(perl) => perl.negated,
            Item::Property(property) => property.negated,
            Item::Posix(_) => false,
            Item::NotPosix(_) => true,
        }
    }
}

/// One range, as a class.
fn range_class(alloc: Global, unicode: bool, range: CodeRange) -> Result<Vec<CodeRange>, AllocError>
    requires { AreCodes unicode (pair range ∷ []) }
    ensures { IfOk result (λ v. AreRangesOf unicode (in_ranges (pair range ∷ [])) (pairs v.items)) }
{
    in_order(alloc, unicode, &[range])
}

/// The set that the item names, before it is folded or negated.
fn named(alloc: Global, unicode: bool, item: Item) -> Result<Vec<CodeRange>, AllocError>
    requires { HasCodes unicode item }
    ensures { IfOk result (λ v. AreRangesOf unicode (named_set unicode item) (pairs v.items)) }
{
    match item {
        Item::Codes(range) => range_class(alloc, unicode, range),
        Item::Perl(perl) => perl_class(alloc, unicode, perl.set),
        Item::Property(named) => property(alloc, named.set),
        Item::Posix(class) => posix_class(alloc, unicode, class),
        Item::NotPosix(class) => posix_class(alloc, unicode, class),
    }
}

/// The class of an item, of characters if `unicode` is set, else of bytes: folded first if `fold`
/// is set, and then negated if the item says so.
pub fn item_class(
    alloc: Global,
    unicode: bool,
    fold: bool,
    item: Item,
) -> Result<Vec<CodeRange>, AllocError>
    requires { HasCodes unicode item }
    ensures { IfOk result (λ v. AreRangesOf unicode (item_set unicode fold item) (pairs v.items)) }
{
    let ranges = named(alloc, unicode, item)?;
    folding::item(alloc, unicode, fold, item.is_negated(), &ranges)
}
