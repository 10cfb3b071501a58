//! Properties of a node, from those of its parts.

ghost use Rattle.std.specs.Prelude.{◌≡◌, Bool, List, Option, ℕ};
ghost use Rattle.rc_pattern.specs.Re as re;
ghost use Rattle.rc_pattern.specs.Meaning.{class_meaning};
ghost use Rattle.rc_pattern.specs.PropertiesOf.{IsPropertiesOf, TellNothing};

use super::Properties;
use crate::hir::{Class, Look, LookSet, lengths};

impl Properties {
    pub(super) fn of_empty() -> Properties
        ensures { IsPropertiesOf re.empty result }
    {
        Properties {
            minimum_len: Some(0),
            maximum_len: Some(0),
            explicit_captures_len: 0,
            static_explicit_captures_len: Some(0),
            look_set: LookSet::empty(),
            look_prefix: LookSet::empty(),
            look_suffix: LookSet::empty(),
            is_plain: true,
        }
    }

    /// What is known of no matter which pattern.
    pub(in crate::hir) fn of_any() -> Properties
        ensures { TellNothing result }
    {
        Properties {
            minimum_len: Some(0),
            maximum_len: None,
            explicit_captures_len: usize::MAX,
            static_explicit_captures_len: None,
            look_set: LookSet::full(),
            look_prefix: LookSet::empty(),
            look_suffix: LookSet::empty(),
            is_plain: false,
        }
    }

    pub(super) fn of_none() -> Properties
        ensures { IsPropertiesOf re.none result }
    {
        Properties {
            minimum_len: None,
            look_prefix: LookSet::full(),
            look_suffix: LookSet::full(),
            ..Properties::of_empty()
        }
    }

    pub(super) fn of_look(look: Look) -> Properties
        ensures { IsPropertiesOf (re.look look) result }
    {
        let looks = LookSet::singleton(look);
        Properties {
            look_set: looks,
            look_prefix: looks,
            look_suffix: looks,
            ..Properties::of_empty()
        }
    }

    pub(super) fn of_literal(bytes: &Vec<u8>) -> Properties
        ensures { IsPropertiesOf (re.literal bytes.now.items) result }
    {
        Properties {
            minimum_len: Some(bytes.len()),
            maximum_len: Some(bytes.len()),
            ..Properties::of_empty()
        }
    }

    pub(super) fn of_class(class: &Class) -> Properties
        ensures { IsPropertiesOf (class_meaning class.now) result }
    {
        let (least, most) = match class {
            Class::Unicode(ranges) => (
                lengths::minimum_of_chars(ranges),
                lengths::maximum_of_chars(ranges),
            ),
            Class::Bytes(ranges) => (
                lengths::length_of_bytes(ranges),
                lengths::length_of_bytes(ranges),
            ),
        };
        Properties {
            minimum_len: least,
            maximum_len: most,
            ..Properties::of_empty()
        }
    }

    pub(super) fn captured(self) -> Properties
        ensures { (h : re.Re) (n : ℕ) (name : Option (List ℕ)) → IsPropertiesOf h self
            → IsPropertiesOf (re.capture n name h) result }
    {
        Properties {
            explicit_captures_len: self.explicit_captures_len.saturating_add(1),
            static_explicit_captures_len: lengths::saturated_sum(
                self.static_explicit_captures_len,
                Some(1),
            ),
            ..self
        }
    }

    pub(super) fn repeated(self, min: u32, max: Option<u32>) -> Properties
        ensures { (h : re.Re) (greedy : Bool) → IsPropertiesOf h self
            → IsPropertiesOf (re.repeat min max greedy h) result }
    {
        let turns = Properties {
            minimum_len: lengths::minimum_of_turns(min, self.minimum_len),
            maximum_len: lengths::maximum_of_turns(max, self.maximum_len),
            is_plain: !lengths::is_zero(self.minimum_len) && self.is_plain,
            ..self
        };
        if min > 0 {
            return turns;
        }
        Properties {
            static_explicit_captures_len: lengths::optional_static(
                max,
                self.static_explicit_captures_len,
            ),
            look_prefix: LookSet::empty(),
            look_suffix: LookSet::empty(),
            ..turns
        }
    }

    pub(super) fn followed_by(self, rest: Properties) -> Properties
        ensures { (h k : re.Re) → IsPropertiesOf h self → IsPropertiesOf k rest
            → IsPropertiesOf (re.cat h k) result }
    {
        let prefix = if lengths::is_zero(self.maximum_len) {
            self.look_prefix.union(rest.look_prefix)
        } else {
            self.look_prefix
        };
        let suffix = if lengths::is_zero(rest.maximum_len) {
            self.look_suffix.union(rest.look_suffix)
        } else {
            rest.look_suffix
        };
        Properties {
            minimum_len: lengths::saturated_sum(self.minimum_len, rest.minimum_len),
            maximum_len: lengths::capped_sum(self.maximum_len, rest.maximum_len),
            explicit_captures_len: self
                .explicit_captures_len
                .saturating_add(rest.explicit_captures_len),
            static_explicit_captures_len: lengths::saturated_sum(
                self.static_explicit_captures_len,
                rest.static_explicit_captures_len,
            ),
            look_set: self.look_set.union(rest.look_set),
            look_prefix: prefix,
            look_suffix: suffix,
            is_plain: self.is_plain && rest.is_plain,
        }
    }

    /// The properties of an alternation of this pattern alone.
    pub(super) fn alone(self) -> Properties
        ensures { (h : re.Re) → IsPropertiesOf h self → IsPropertiesOf (re.alt h re.none) result }
    {
        self
    }

    pub(super) fn or(self, rest: Properties) -> Properties
        ensures { (h k m : re.Re) → IsPropertiesOf h self → IsPropertiesOf (re.alt k m) rest
            → IsPropertiesOf (re.alt h (re.alt k m)) result }
    {
        Properties {
            minimum_len: lengths::least(self.minimum_len, rest.minimum_len),
            maximum_len: lengths::greatest(self.maximum_len, rest.maximum_len),
            explicit_captures_len: self
                .explicit_captures_len
                .saturating_add(rest.explicit_captures_len),
            static_explicit_captures_len: lengths::common(
                self.static_explicit_captures_len,
                rest.static_explicit_captures_len,
            ),
            look_set: self.look_set.union(rest.look_set),
            look_prefix: self.look_prefix.intersect(rest.look_prefix),
            look_suffix: self.look_suffix.intersect(rest.look_suffix),
            is_plain: self.is_plain && rest.is_plain,
        }
    }
}
