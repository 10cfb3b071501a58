//! Properties of a pattern, known before any search.

pub(crate) mod known;
mod parts;

use super::LookSet;

/// The properties of a pattern, known before any search. Lengths are in bytes.
#[derive(Clone, Copy, Debug, PartialEq, Eq)]
pub struct Properties {
    minimum_len: Option<usize>,
    maximum_len: Option<usize>,
    explicit_captures_len: usize,
    static_explicit_captures_len: Option<usize>,
    look_set: LookSet,
    look_prefix: LookSet,
    look_suffix: LookSet,
    is_plain: bool,
}

impl Properties {
    ghost use Rattle.std.specs.Prelude.{◌≡◌, true, false, Some, None};
    ghost use Rattle.rc_pattern.specs.Re as re;
    ghost use Rattle.rc_pattern.specs.Properties as given;
    ghost use Rattle.rc_pattern.specs.LookSets.{HasOnly};
    ghost use Rattle.rc_pattern.specs.PropertiesOf.{IsPropertiesOf, TellNothing};

    /// The least length of a match, or the greatest `usize` if it is above that. `None` if the
    /// pattern is known to match nothing at all.
    pub fn minimum_len(&self) -> Option<usize>
        ensures exact { (h : re.Re) → IsPropertiesOf h self.now
            → result ≡ given.minimum_len h }
        ensures unknown { TellNothing self.now → result ≡ Some 0 }
    {
        self.minimum_len
    }

    /// The greatest length of a match. `None` if there is no bound, if it is above the greatest
    /// `usize`, or if a part of the pattern matches nothing at all.
    pub fn maximum_len(&self) -> Option<usize>
        ensures exact { (h : re.Re) → IsPropertiesOf h self.now
            → result ≡ given.maximum_len h }
        ensures unknown { TellNothing self.now → result ≡ None }
    {
        self.maximum_len
    }

    /// The number of groups of the pattern, or the greatest `usize` if there are more.
    pub fn explicit_captures_len(&self) -> usize
        ensures exact { (h : re.Re) → IsPropertiesOf h self.now
            → result ≡ given.explicit_captures_len h }
        ensures unknown { TellNothing self.now → result ≡ given.greatest_usize }
    {
        self.explicit_captures_len
    }

    /// The number of groups that take part in each match, if that is known to be one number.
    pub fn static_explicit_captures_len(&self) -> Option<usize>
        ensures exact { (h : re.Re) → IsPropertiesOf h self.now
            → result ≡ given.static_explicit_captures_len h }
        ensures unknown { TellNothing self.now → result ≡ None }
    {
        self.static_explicit_captures_len
    }

    /// The assertions that are in the pattern.
    pub fn look_set(&self) -> LookSet
        ensures exact { (h : re.Re) → IsPropertiesOf h self.now
            → HasOnly result (given.has_look h) }
        ensures unknown { TellNothing self.now → HasOnly result (λ k. true) }
    {
        self.look_set
    }

    /// The assertions that hold where each match begins.
    pub fn look_set_prefix(&self) -> LookSet
        ensures exact { (h : re.Re) → IsPropertiesOf h self.now
            → HasOnly result (given.begins_with_look h) }
        ensures unknown { TellNothing self.now → HasOnly result (λ k. false) }
    {
        self.look_prefix
    }

    /// The assertions that hold where each match ends.
    pub fn look_set_suffix(&self) -> LookSet
        ensures exact { (h : re.Re) → IsPropertiesOf h self.now
            → HasOnly result (given.ends_with_look h) }
        ensures unknown { TellNothing self.now → HasOnly result (λ k. false) }
    {
        self.look_suffix
    }

    /// Whether no repetition has a body that may match the empty text.
    pub fn is_plain(&self) -> bool
        ensures exact { (h : re.Re) → IsPropertiesOf h self.now → result ≡ given.is_plain h }
        ensures unknown { TellNothing self.now → result ≡ false }
    {
        self.is_plain
    }
}
