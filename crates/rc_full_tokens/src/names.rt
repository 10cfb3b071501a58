//! Names of groups, with the letters of every script.

ghost use Rattle.std.specs.Prelude.{◌≡◌};
ghost use Rattle.rc_full_tokens.specs.Names.{begins_name, goes_on_name, is_group_name};

use unicode::properties::{GeneralCategory, GeneralCategoryGroup, is_alphabetic};

fn begins_name(c: char) -> bool
    ensures { result ≡ begins_name c }
{
    c == '_' || is_alphabetic(c)
}

fn goes_on_name(c: char) -> bool
    ensures { result ≡ goes_on_name c }
{
    begins_name(c)
        || GeneralCategoryGroup::Number.contains(GeneralCategory::for_char(c))
        || c == '.'
        || c == '['
        || c == ']'
}

/// Whether a group may have the name: a letter or `_` first, and then letters, numbers, `_`, `.`,
/// `[` and `]`.
pub fn is_group_name(name: &[char]) -> bool
    ensures { result ≡ is_group_name name.now }
{
    if name.is_empty() || !begins_name(name[0]) {
        return false;
    }
    for i in 1..name.len() {
        if !goes_on_name(name[i]) {
            return false;
        }
    }
    true
}
