//! Look sets: sets of assertions.

ghost use Rattle.std.specs.Prelude.{◌≡◌, ◌<◌, ◌^◌};
ghost use Rattle.rc_pattern.specs.Properties.{look_number};

use super::Look;
use std::fmt::{self, Debug, Formatter, Write};

/// The assertions in the order of their numbers.
const LOOKS: [Look; 18] = [
    Look::Start,
    Look::End,
    Look::StartLF,
    Look::EndLF,
    Look::StartCRLF,
    Look::EndCRLF,
    Look::WordAscii,
    Look::WordAsciiNegate,
    Look::WordUnicode,
    Look::WordUnicodeNegate,
    Look::WordStartAscii,
    Look::WordEndAscii,
    Look::WordStartUnicode,
    Look::WordEndUnicode,
    Look::WordStartHalfAscii,
    Look::WordEndHalfAscii,
    Look::WordStartHalfUnicode,
    Look::WordEndHalfUnicode,
];

/// A set of assertions.
#[derive(Clone, Copy, PartialEq, Eq)]
pub struct LookSet {
    /// The bit of an assertion's number is set if and only if the set contains it.
    bits: u32,
    ghost small: { bits < 2 ^ 18 },
}

fn number_of(look: Look) -> u32
    ensures value { result ≡ look_number look }
    ensures small { result < 18 }
{
    look as u32
}

impl LookSet {
    ghost use Rattle.std.specs.Prelude.{true, false, ◌&&◌, ◌||◌};
    ghost use Rattle.rc_pattern.specs.Properties.{same_look};
    ghost use Rattle.rc_pattern.specs.LookSets.{has, HasOnly, looks_of, looks_left};

    /// The set of no assertion.
    pub(super) fn empty() -> LookSet
        ensures { HasOnly result (λ k. false) }
    {
        LookSet { bits: 0 }
    }

    /// The set of all assertions.
    pub(super) fn full() -> LookSet
        ensures { HasOnly result (λ k. true) }
    {
        LookSet { bits: 0x3_FFFF }
    }

    /// The set of this assertion.
    pub(super) fn singleton(look: Look) -> LookSet
        ensures { HasOnly result (same_look look) }
    {
        LookSet {
            bits: 1 << number_of(look),
        }
    }

    /// Whether the set contains the assertion.
    pub fn contains(&self, look: Look) -> bool
        ensures { result ≡ has self.now look }
    {
        (self.bits >> number_of(look)) & 1 == 1
    }

    /// Returns an iterator over the assertions of the set, each once, in the order of `Look`.
    pub fn iter(&self) -> LookSetIter
        ensures { looks_left result ≡ looks_of self.now }
    {
        LookSetIter {
            set: *self,
            left: &LOOKS,
        }
    }

    /// The assertions that at least one of the sets contains.
    pub(super) fn union(self, other: LookSet) -> LookSet
        ensures { HasOnly result (λ k. has self k || has other k) }
    {
        LookSet {
            bits: self.bits | other.bits,
        }
    }

    /// The assertions that both sets contain.
    pub(super) fn intersect(self, other: LookSet) -> LookSet
        ensures { HasOnly result (λ k. has self k && has other k) }
    {
        LookSet {
            bits: self.bits & other.bits,
        }
    }
}

/// The assertions in braces, as `{Start, EndLF}`.
impl Debug for LookSet {
    fn fmt<W: Write>(&self, f: &mut Formatter<W>) -> fmt::Result {
        f.debug_set().entries(self.iter()).finish()
    }
}

/// An iterator over the assertions of a set, in the order of `Look`.
#[derive(Clone, Debug, Drop)]
pub struct LookSetIter {
    set: LookSet,
    left: &'static [Look],
}

impl Iterator for LookSetIter {
    ghost use Rattle.std.specs.Iterator.{YieldsFirst, item_count};
    ghost use Rattle.rc_pattern.specs.LookSets.{looks_left};

    type Item = Look;

    ghost next_gives = { YieldsFirst looks_left };

    ghost remaining = { item_count looks_left };

    fn next(&mut self) -> Option<Look> {
        while let Some((look, others)) = self.left.split_first() {
            self.left = others;
            if self.set.contains(*look) {
                return Some(*look);
            }
        }
        None
    }
}
