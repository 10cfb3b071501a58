//! UTF-8 sequences: up to four ranges of bytes in a row, which take no memory of their own.

ghost use Rattle.std.specs.Prelude.{◌≡◌, ◌+◌, ◌++◌, ◌∷◌, [], ◌<◌, ◌≤◌, List, length, slice_index_or, take};
ghost use Rattle.rc_pattern.specs.declared.hir.ClassBytesRange.{ClassBytesRange};

use rc_pattern::hir::ClassBytesRange;
use std::marker::Model;

/// How many bytes a scalar takes at most.
const MOST: usize = 4;

/// Ranges of bytes, at most four.
#[derive(Drop)]
pub(super) struct Ranges {
    list: [ClassBytesRange; MOST],
    len: usize,
}

impl Model for Ranges {
    ghost Value = { List ClassBytesRange };

    ghost view = { λ a. take a.len a.list };

    ghost invariant = { λ a. (a.len ≤ 4) × (length a.list ≡ 4) };
}

impl Ranges {
    /// No ranges.
    pub(super) fn new() -> Ranges
        ensures { result ≡ [] }
    {
        let unused = ClassBytesRange { start: 0, end: 0 };
        Ranges {
            list: [unused; MOST],
            len: 0,
        }
    }

    /// Returns the ranges with one more.
    pub(super) fn followed_by(&self, range: ClassBytesRange) -> Ranges
        requires { length self.now < 4 }
        ensures { result ≡ self.now ++ range ∷ [] }
    {
        let mut list = self.list;
        list[self.len] = range;
        Ranges {
            list,
            len: self.len + 1,
        }
    }

    /// Returns how many there are.
    pub(super) fn len(&self) -> usize
        ensures { result ≡ length self.now }
    {
        self.len
    }

    /// Returns the range of the number.
    pub(super) fn get(&self, number: usize) -> ClassBytesRange
        requires { number < length self.now }
        ensures { (r : ClassBytesRange) → result ≡ slice_index_or self.now number r }
    {
        let list = &self.list;
        list[number]
    }
}
