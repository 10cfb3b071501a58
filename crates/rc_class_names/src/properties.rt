//! Properties of Unicode by name, as `\p{Greek}`.

ghost use Rattle.std.specs.Prelude.{◌≡◌, None, Some, MatchOption};
ghost use Rattle.rc_class_names.specs.Properties.{parted_at, alone, valued, checked, IsNamed, IsRead};

use std::alloc::{AllocError, Global};
use unicode::properties::GeneralCategory;
use unicode::sets::{LookupError, Set, by_name, by_value, normalize};

/// A property of Unicode.
#[derive(Clone, Copy, Debug, PartialEq, Eq)]
pub struct Property {
    pub set: Set,
    /// Whether the characters without the property are meant, as by `!=`.
    pub negated: bool,
}

/// Why a text names no property.
#[derive(Drop, Debug, PartialEq)]
pub enum NameError {
    /// No property has the name, nor has a general category or a script.
    UnknownProperty,
    /// The property has no value with the name, or none that the tables know.
    UnknownValue,
    /// Only surrogates have the property, which are no characters.
    Surrogates,
    /// Out of memory.
    Memory,
}

impl From<AllocError> for NameError {
    ghost use Rattle.rc_class_names.specs.declared.properties.NameError.TheVariants.{Memory};

    ghost from_gives = { λ _ e. e ≡ Memory };

    fn from(_: AllocError) -> NameError {
        NameError::Memory
    }
}

/// The text before the first `sign` and behind it.
fn parted_at<'t>(text: &'t [char], sign: &[char]) -> Option<(&'t [char], &'t [char])>
    ensures { MatchOption result (parted_at sign.now text.now ≡ None)
        (λ p. parted_at sign.now text.now ≡ Some (p.0.now, p.1.now)) }
{
    for i in 0..text.len() {
        if text[i..].starts_with(sign) {
            return Some((&text[..i], &text[i + sign.len()..]));
        }
    }
    None
}

fn checked(negated: bool, set: Set) -> Result<Property, NameError>
    ensures { result ≡ checked negated set }
{
    match set {
        Set::Category(GeneralCategory::Surrogate) => Err(NameError::Surrogates),
        _ => Ok(Property { set, negated }),
    }
}

/// A binary property, a general category or a script.
fn with_name(alloc: Global, text: &[char]) -> Result<Property, NameError>
    ensures { IsNamed result (alone text.now) }
{
    let name = normalize(alloc, text)?;
    match by_name(&name) {
        Ok(set) => checked(false, set),
        Err(_) => Err(NameError::UnknownProperty),
    }
}

/// Where a property has the value, or if `negated` is set where it has another one.
fn with_value(
    alloc: Global,
    negated: bool,
    property: &[char],
    value: &[char],
) -> Result<Property, NameError>
    ensures { IsNamed result (valued negated property.now value.now) }
{
    let property_name = normalize(alloc, property)?;
    let value_name = normalize(alloc, value)?;
    match by_value(&property_name, &value_name) {
        Ok(set) => checked(negated, set),
        Err(LookupError::PropertyNotFound) => Err(NameError::UnknownProperty),
        Err(LookupError::PropertyValueNotFound) => Err(NameError::UnknownValue),
    }
}

/// The property that the text between the braces of `\p{..}` names: by its name, or by the name of
/// a property and that of a value, with `=`, `:` or `!=` between them. Names match loosely: case,
/// spaces, hyphens, underscores and a prefix `is` don't count.
pub fn property_named(alloc: Global, text: &[char]) -> Result<Property, NameError>
    ensures { IsRead result text.now }
{
    if let Some((property, value)) = parted_at(text, &['!', '=']) {
        return with_value(alloc, true, property, value);
    }
    if let Some((property, value)) = parted_at(text, &[':']) {
        return with_value(alloc, false, property, value);
    }
    if let Some((property, value)) = parted_at(text, &['=']) {
        return with_value(alloc, false, property, value);
    }
    with_name(alloc, text)
}
