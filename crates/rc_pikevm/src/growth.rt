//! The next thread list: what a pass builds at one position, with the set of places that it entered
//! and the stack of the epsilon closure.
ghost use Rattle.std.specs.Prelude.{◌≡◌, ◌+◌, ◌*◌, ◌≤◌, length, vec_capacity};

use crate::sparse_set::SparseSet;
use crate::threads::Threads;

/// A frame of the closure's stack: what it does once the way that it follows ends.
#[derive(Clone, Copy)]
pub enum Frame {
    /// Go on from this place.
    Explore(usize),
    /// Restore the slot's old value.
    Restore(usize, Option<usize>),
}

/// The data that a pass builds at one position.
#[derive(Drop)]
pub struct Growth {
    /// The threads of later positions.
    pub threads: Threads,
    /// The places that were entered here.
    pub entered: SparseSet,
    /// The stack of the closure.
    pub stack: Vec<Frame>,
    /// The slots of the thread that the closure is for.
    pub slots: Vec<Option<usize>>,
    ghost fits: { vec_capacity stack ≡ entered.capacity + 1 },
    ghost wide: { (length slots.items ≡ threads.width) × (threads.width ≤ threads.most)
        × (vec_capacity slots ≡ threads.most) },
    ghost exact: { (threads.cells ≡ threads.room * threads.most)
        × (entered.room ≡ entered.capacity) × (entered.indexes ≡ entered.capacity) },
}

/// Fills the row with `width` empty slots, in place of what it held.
pub fn make_row(row: &mut Vec<Option<usize>>, width: usize)
    requires { width ≤ vec_capacity row.old }
    ensures len { length row.new.items ≡ width }
    ensures capacity { vec_capacity row.new ≡ vec_capacity row.old }
{
    row.clear();
    for _ in 0..width {
        row.push_reserved(None);
    }
}

/// Copies the row into the slots, of which there are as many.
#[inline(always)]
pub fn copy_row(slots: &mut Vec<Option<usize>>, row: &[Option<usize>])
    requires { length row.now ≡ length slots.old.items }
    ensures items { slots.new.items ≡ row.now }
    ensures capacity { vec_capacity slots.new ≡ vec_capacity slots.old }
{
    if row.is_empty() {
        return;
    }
    slots.copy_from_slice(row);
}

impl Growth {
    ghost use Rattle.std.specs.Prelude.{[]};

    /// Drops all threads. The next ones, and the one that the closure is for, have `width` slots
    /// each.
    pub fn widen(&mut self, width: usize)
        requires { width ≤ self.old.threads.most }
        ensures threads { self.new.threads ≡ record self.old.threads { items = []; width = width } }
        ensures entered { self.new.entered ≡ self.old.entered }
    {
        make_row(&mut self.slots, width);
        self.threads.clear(width);
    }

    /// Drops all threads, and clears the set of places that were entered.
    pub fn clear(&mut self)
        ensures threads { self.new.threads ≡ record self.old.threads { items = [] } }
        ensures entered { self.new.entered ≡ record self.old.entered { items = [] } }
    {
        self.threads.clear(self.slots.len());
        self.entered.clear();
    }
}
