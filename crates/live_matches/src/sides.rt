//! Sides: the entries before a gap and those after it, in one ring.

use crate::entry::Entry;
use std::alloc::{AllocError, Global};
use std::collections::VecDeque;
use std::marker::Model;

/// An entry before the gap.
#[derive(Clone, Copy, Debug)]
pub struct Kept {
    /// The entry.
    pub entry: Entry,
    /// How many bytes settle it and all entries before it. After the gap it tells nothing.
    pub most: usize,
}

/// The entries on both sides of a gap. The ring has those after the gap, and behind them those
/// before it: the gap is where it closes. So a move of the gap takes no memory.
#[derive(Drop)]
pub struct Sides {
    ring: VecDeque<Kept>,
    /// The number of entries after the gap.
    count_after: usize,
}

impl Model for Sides {
    ghost use Rattle.std.specs.Prelude.{◌≤◌, drop, take};
    ghost use Rattle.std.specs.VecDeque.{deque_len};
    ghost use Rattle.live_matches.specs.Entries.{TwoSides, entries_of};

    ghost Value = { TwoSides };

    ghost view = { λ s. record {
      before = drop s.count_after s.ring.items;
      after = entries_of (take s.count_after s.ring.items);
    } };

    ghost invariant = { λ s. s.count_after ≤ deque_len s.ring };
}

impl Sides {
    ghost use Rattle.std.specs.Prelude.{◌≡◌, ◌+◌, ◌∷◌, ◌++◌, ◌<◌, [], IfErr, IfOk, List, MatchOption, length, slice_get};
    ghost use Rattle.live_matches.specs.Entry.{Entry as an_entry};
    ghost use Rattle.live_matches.specs.declared.sides.Kept.{Kept as a_kept};

    /// Returns a list without entries. It takes no memory yet.
    pub fn new(alloc: Global) -> Sides
        ensures { result ≡ record { before = []; after = [] } }
    {
        Sides {
            ring: VecDeque::new(alloc),
            count_after: 0,
        }
    }

    /// Drops all entries.
    pub fn clear(&mut self)
        ensures { self.new ≡ record { before = []; after = [] } }
    {
        self.ring.clear();
        self.count_after = 0;
    }

    /// The number of entries before the gap.
    pub fn count_before(&self) -> usize
        ensures { result ≡ length self.now.before }
    {
        self.ring.len() - self.count_after
    }

    /// The number of entries after the gap.
    pub fn count_after(&self) -> usize
        ensures { result ≡ length self.now.after }
    {
        self.count_after // the ring begins with them
    }

    /// The number of entries.
    pub fn len(&self) -> usize
        ensures { result ≡ length self.now.before + length self.now.after }
    {
        self.ring.len()
    }

    /// Roughly the number of bytes that the list has allocated.
    pub fn memory_usage(&self) -> usize {
        self.ring.capacity().saturating_mul(size_of::<Kept>())
    }

    /// The entry before the gap with this index, or `None` if there are no more.
    pub fn get_before(&self, index: usize) -> Option<Kept>
        ensures { result ≡ slice_get self.now.before index }
    {
        if index >= self.count_before() {
            return None;
        }
        let kept = self.ring.get(self.count_after + index)?;
        Some(*kept)
    }

    /// The entry after the gap with this index, or `None` if there are no more.
    pub fn get_after(&self, index: usize) -> Option<Entry>
        ensures { result ≡ slice_get self.now.after index }
    {
        if index >= self.count_after {
            return None;
        }
        let kept = self.ring.get(index)?;
        Some(kept.entry)
    }

    /// The last entry before the gap.
    pub fn last(&self) -> Option<Kept>
        ensures { MatchOption result (self.now.before ≡ [])
            (λ k. (init : List a_kept) × (self.now.before ≡ init ++ k ∷ [])) }
    {
        self.get_before(self.count_before().saturating_sub(1))
    }

    /// Adds an entry before the gap. The room grows by a quarter, so a list takes little more than
    /// its entries. An `Err` means out of memory.
    pub fn push(&mut self, kept: Kept) -> Result<(), AllocError>
        ensures added { IfOk result (λ _. self.new
            ≡ record self.old { before = self.old.before ++ kept ∷ [] }) }
        ensures refused { IfErr result (λ _. self.new ≡ self.old) }
    {
        let len = self.ring.len();
        if len == self.ring.capacity() {
            self.ring.reserve_exact(len / 4 + 4)?;
        }
        self.ring.push_back(kept)?;
        Ok(())
    }

    /// Drops the last entry before the gap.
    pub fn drop_last(&mut self)
        ensures { (init : List a_kept) (k : a_kept) → self.old.before ≡ init ++ k ∷ []
            → self.new ≡ record self.old { before = init } }
    {
        if self.count_after < self.ring.len() {
            self.ring.pop_back();
        }
    }

    /// Drops the entries after the gap.
    pub fn drop_after(&mut self)
        ensures { self.new ≡ record self.old { after = [] } }
    {
        let count = self.count_before();
        self.ring.rotate_left(self.count_after);
        self.ring.truncate(count);
        self.count_after = 0;
    }

    /// Takes the first entry after the gap from the list.
    pub fn take_next(&mut self) -> Option<Entry>
        ensures { MatchOption result ((self.old.after ≡ []) × (self.new ≡ self.old))
            (λ e. (self.old.after ≡ e ∷ self.new.after)
            × (self.new ≡ record self.old { after = self.new.after })) }
    {
        if self.count_after == 0 {
            return None;
        }
        let kept = self.ring.pop_front()?;
        self.count_after -= 1;
        Some(kept.entry)
    }

    /// Moves the gap back: the last entry before it goes, and this one comes first after it.
    pub fn move_back(&mut self, entry: Entry)
        requires some { 0 < length self.old.before }
        ensures { (init : List a_kept) (k : a_kept) → self.old.before ≡ init ++ k ∷ []
            → self.new ≡ record { before = init; after = entry ∷ self.old.after } }
    {
        self.ring.pop_back();
        let _ = self.ring.push_front(Kept { entry, most: 0 });
        self.count_after += 1;
    }

    /// Moves the gap on: the first entry after it goes, and this one comes last before it.
    pub fn move_on(&mut self, kept: Kept)
        requires some { 0 < length self.old.after }
        ensures { (e : an_entry) (es : List an_entry) → self.old.after ≡ e ∷ es
            → self.new ≡ record { before = self.old.before ++ kept ∷ []; after = es } }
    {
        self.ring.pop_front();
        let _ = self.ring.push_back(kept);
        self.count_after -= 1;
    }

    /// Puts the entries after the gap of another list in place of those of this list. An `Err`
    /// means out of memory.
    pub fn take_after(&mut self, next: Sides) -> Result<(), AllocError>
        ensures taken { IfOk result (λ _. self.new ≡ record self.old { after = next.after }) }
        ensures before { self.new.before ≡ self.old.before }
    {
        self.drop_after();
        let count = next.count_after;
        let mut ring = next.ring;
        ring.truncate(count);
        ring.reserve_exact(self.ring.len())?;
        ring.append(&mut self.ring)?;
        self.ring = ring;
        self.count_after = count;
        Ok(())
    }

    /// Gives room back if the list has more than half of its length left.
    pub fn give_back(&mut self)
        ensures { self.new ≡ self.old }
    {
        let len = self.ring.len();
        if self.ring.capacity().saturating_sub(len) > len / 2 + 8 {
            self.ring.shrink_to(len + len / 4 + 4);
        }
    }
}
