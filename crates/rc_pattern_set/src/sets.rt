//! Pattern sets: sets of pattern numbers.

ghost use Rattle.std.specs.Prelude.{◌≡◌, ℕ, ◌+◌, ◌<◌, ◌≤◌, ◌^◌, Some, true, length, slice_get};
ghost use Rattle.rc_text.specs.Limits.{greatest_pattern};

use rc_text::types::PatternID;
use std::alloc::{AllocError, Global};
use std::fmt;
use std::iter::FusedIterator;
use std::marker::Model;

/// A set of patterns whose numbers are below its capacity. Contracts see it as a list with a flag
/// for each such number: whether it is a member.
#[derive(Drop)]
pub struct PatternSet {
    marks: Vec<bool>,
    len: usize,
}

impl Model for PatternSet {
    ghost use Rattle.std.specs.Prelude.{◌≡◌, ℕ, ◌≤◌, List, Bool, length};
    ghost use Rattle.rc_text.specs.Limits.{greatest_pattern};
    ghost use Rattle.rc_pattern_set.specs.Sets.{Has, members};

    ghost Value = { List Bool };

    ghost view = { λ s. s.marks.items };

    ghost invariant = { λ s. (s.len ≡ length (members s.marks.items))
        × ((p : ℕ) → Has s.marks.items p → p ≤ greatest_pattern) };
}

impl PatternSet {
    ghost use Rattle.std.specs.Prelude.{◌≡◌, ◌<◌, ◌↔◌, IfOk, IsTrue, true, false, length, replicate, slice_set};
    ghost use Rattle.rc_pattern_set.specs.Sets.{Has, members, members_left};

    /// Returns an empty set, for patterns whose numbers are below `capacity`. An `Err` means out of
    /// memory.
    pub fn new(alloc: Global, capacity: usize) -> Result<PatternSet, AllocError>
        ensures { IfOk result (λ s. s ≡ replicate capacity false) }
    {
        let marks = vec![in alloc; false; capacity]?;
        Ok(PatternSet { marks, len: 0 })
    }

    /// Inserts the pattern, and returns whether it was no member before. If its number is not below
    /// the capacity, nothing changes, and it returns false.
    pub fn insert(&mut self, pattern: PatternID) -> bool
        ensures set { self.new ≡ slice_set self.old pattern true }
        ensures new { IsTrue result ↔ ((pattern < length self.old) × ¬ Has self.old pattern) }
    {
        let index = pattern.as_usize();
        if index >= self.capacity() || self.marks[index] {
            return false;
        }
        self.marks[index] = true;
        self.len += 1;
        true
    }

    /// Whether the pattern is a member.
    pub fn contains(&self, pattern: PatternID) -> bool
        ensures { IsTrue result ↔ Has self.now pattern }
    {
        let index = pattern.as_usize();
        index < self.capacity() && self.marks[index]
    }

    /// Returns an iterator over the members, the least number first.
    pub fn iter(&self) -> PatternSetIter<'_>
        ensures { members_left result ≡ members self.now }
    {
        PatternSetIter {
            left: &self.marks,
            next: 0,
        }
    }

    /// The number of members.
    pub fn len(&self) -> usize
        ensures { result ≡ length (members self.now) }
    {
        let PatternSet { len, .. } = self;
        *len
    }

    /// Whether there is no member.
    pub fn is_empty(&self) -> bool
        ensures { IsTrue result ↔ (length (members self.now) ≡ 0) }
    {
        self.len() == 0
    }

    /// Removes all members.
    pub fn clear(&mut self)
        ensures { self.new ≡ replicate (length self.old) false }
    {
        self.marks.fill(false);
        self.len = 0;
    }

    /// The capacity: a pattern can be a member if its number is below it.
    pub fn capacity(&self) -> usize
        ensures { result ≡ length self.now }
    {
        self.marks.len()
    }
}

/// An iterator over the members of a pattern set, the least number first.
#[derive(Drop)]
pub struct PatternSetIter<'a> {
    left: &'a [bool],
    /// The number of the first of `left`.
    next: usize,
    ghost small: { next + length left.now < 2 ^ 64 },
    ghost numbered: { (p : ℕ) → slice_get left.now p ≡ Some true → next + p ≤ greatest_pattern },
}

impl<'a> Iterator for PatternSetIter<'a> {
    ghost use Rattle.std.specs.Iterator.{YieldsFirst, item_count};
    ghost use Rattle.rc_pattern_set.specs.Sets.{members_left};

    type Item = PatternID;

    ghost next_gives = { YieldsFirst members_left };

    ghost remaining = { item_count members_left };

    fn next(&mut self) -> Option<PatternID> {
        while let Some((mark, others)) = self.left.split_first() {
            let index = self.next;
            self.left = others;
            self.next = index + 1;
            if *mark {
                return PatternID::new(index);
            }
        }
        None
    }
}

impl<'a> FusedIterator for PatternSetIter<'a> {}

impl fmt::Debug for PatternSet {
    fn fmt<W: fmt::Write>(&self, f: &mut fmt::Formatter<W>) -> fmt::Result {
        f.debug_struct("PatternSet")
            .field("capacity", &self.capacity())
            .field("members", &self.iter())
            .finish()
    }
}

impl<'a> fmt::Debug for PatternSetIter<'a> {
    fn fmt<W: fmt::Write>(&self, f: &mut fmt::Formatter<W>) -> fmt::Result {
        let members = PatternSetIter {
            left: self.left,
            next: self.next,
        };
        f.debug_set().entries(members).finish()
    }
}
