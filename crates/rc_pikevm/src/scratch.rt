//! Thread lists: those of the position and of the next one, with all other memory of a pass,
//! allocated once.
ghost use Rattle.std.specs.Prelude.{◌≡◌, ◌<◌, ◌≤◌, ℕ, length, vec_capacity};
ghost use Rattle.rc_pikevm.specs.Passing.{AllIn};

use crate::growth::{Growth, make_row};
use crate::sparse_set::SparseSet;
use crate::threads::Threads;
use std::alloc::{AllocError, Global};

/// All memory that passes need, allocated once.
#[derive(Drop)]
pub struct Scratch {
    /// The threads of the position.
    pub curr: Threads,
    /// The data that is built there, with the threads of the next position.
    pub next: Growth,
    /// The slots of the match that was found.
    pub found: Vec<Option<usize>>,
    /// How many places were entered, over all positions.
    pub insertions: u128,
    ghost alike: { (curr.room ≡ next.threads.room) × (curr.most ≡ next.threads.most)
        × (curr.width ≡ next.threads.width) },
    ghost wide: { (length found.items ≡ next.threads.width)
        × (vec_capacity found ≡ next.threads.most) },
    ghost exact: { curr.cells ≡ next.threads.cells },
}

/// If no place was entered and yet threads wait, inserts the first one's place. So a position that
/// threads only wait at, within a scalar, counts too.
fn touch(entered: &mut SparseSet, threads: &Threads)
    requires inside { (lo hi : ℕ) × AllIn entered.old.capacity lo hi threads.now.items }
    requires few { length entered.old.items ≤ entered.old.capacity }
    ensures capacity { entered.new.capacity ≡ entered.old.capacity }
    ensures room { (entered.new.room ≡ entered.old.room)
        × (entered.new.indexes ≡ entered.old.indexes) }
    ensures few { length entered.new.items ≤ entered.old.capacity }
    ensures more { length entered.old.items ≤ length entered.new.items }
    ensures some { (0 < length threads.now.items) → 0 < length entered.new.items }
{
    if entered.len() == 0 && threads.len() > 0 {
        let (head, _) = threads.get(0);
        entered.insert(head.place);
    }
}

impl Scratch {
    ghost use Rattle.std.specs.Prelude.{◌+◌, ◌<◌, ◌^◌, ℕ, IfOk};
    ghost use Rattle.rc_pikevm.specs.Passing.{AllIn};
    ghost use Rattle.rc_pikevm.specs.Scratches.{IsSame};

    /// Allocates for programs of `places` places, for `room` threads at each of two positions, and
    /// for searches with at most `slots` slots.
    pub fn new(
        alloc: Global,
        places: usize,
        room: usize,
        slots: usize,
    ) -> Result<Scratch, AllocError>
        ensures places { IfOk result (λ s. s.next.entered.capacity ≡ places) }
        ensures room { IfOk result (λ s. s.next.threads.room ≡ room) }
        ensures slots { IfOk result (λ s. s.next.threads.most ≡ slots) }
        ensures unused { IfOk result (λ s. s.insertions ≡ 0) }
    {
        let Some(depth) = places.checked_add(1) else {
            return Err(AllocError);
        };
        let next = Growth {
            threads: Threads::new(alloc, room, slots)?,
            entered: SparseSet::new(alloc, places)?,
            stack: Vec::with_capacity(alloc, depth)?,
            slots: Vec::with_capacity(alloc, slots)?,
        };
        Ok(Scratch {
            curr: Threads::new(alloc, room, slots)?,
            next,
            found: Vec::with_capacity(alloc, slots)?,
            insertions: 0,
        })
    }

    /// Gives each thread of the next searches `width` slots, and drops all threads.
    pub fn widen(&mut self, width: usize)
        requires { width ≤ self.old.next.threads.most }
        ensures width { self.new.next.threads.width ≡ width }
        ensures capacity { self.new.next.entered.capacity ≡ self.old.next.entered.capacity }
        ensures room { self.new.next.threads.room ≡ self.old.next.threads.room }
        ensures most { self.new.next.threads.most ≡ self.old.next.threads.most }
    {
        self.next.widen(width);
        make_row(&mut self.found, width);
        self.curr.clear(width);
    }

    /// Ends a position: counts the places that were entered there, and makes the next position's
    /// threads the current ones.
    pub fn finish(&mut self)
        requires inside { (lo hi : ℕ) × AllIn self.old.next.entered.capacity lo hi
            self.old.next.threads.items }
        requires few { length self.old.next.entered.items ≤ self.old.next.entered.capacity }
        requires small { self.old.insertions + self.old.next.entered.capacity < 2 ^ 128 }
        ensures threads { self.new.curr ≡ self.old.next.threads }
        ensures same { IsSame self.old self.new }
        ensures found { self.new.found.items ≡ self.old.found.items }
        ensures slots { self.new.next.slots.items ≡ self.old.next.slots.items }
        ensures counted { self.old.insertions + length self.old.next.entered.items
            ≤ self.new.insertions }
        ensures few { self.new.insertions ≤ self.old.insertions + self.old.next.entered.capacity }
        ensures some { 0 < length self.old.next.threads.items
            → self.old.insertions < self.new.insertions }
    {
        touch(&mut self.next.entered, &self.next.threads);
        self.insertions += self.next.entered.len() as u128;
        if self.curr.len() > 0 || self.next.threads.len() > 0 {
            self.curr.exchange(&mut self.next.threads);
        }
    }
}
