//! Thread lists: threads in order of preference, with their slots, in flat vectors that are
//! allocated once.
ghost use Rattle.std.specs.Prelude.{◌≡◌, ◌+◌, ◌≤◌, ◌++◌, length, vec_len, vec_capacity};

use std::alloc::{AllocError, Global};
use std::marker::Model;
use std::mem;

/// A thread without its slots.
#[derive(Clone, Copy)]
pub struct BareThread {
    /// The place that it enters next.
    pub place: usize,
    /// The position at which it enters that place, in bytes.
    pub at: usize,
    /// Where its walk began, in bytes.
    pub start: usize,
}

/// Threads in order of preference, each with the same number of slots.
#[derive(Drop)]
pub struct Threads {
    heads: Vec<BareThread>,
    /// The slots, `width` for each thread.
    rows: Vec<Option<usize>>,
    most: usize,
    width: usize,
}

impl Model for Threads {
    ghost use Rattle.std.specs.Prelude.{◌≡◌, ◌*◌, ◌≤◌, vec_len, vec_capacity};
    ghost use Rattle.rc_pikevm.specs.Threads.{ThreadList, thread_list_code, threads_of};

    ghost Value = { ThreadList };

    ghost coded = { thread_list_code };

    ghost view = { λ a. record {
      items = threads_of a.width a.heads.items a.rows.items;
      room = vec_capacity a.heads;
      cells = vec_capacity a.rows;
      most = a.most;
      width = a.width;
    } };

    ghost invariant = { λ a. (vec_len a.rows ≡ vec_len a.heads * a.width) × (a.width ≤ a.most)
        × (vec_capacity a.heads * a.most ≤ vec_capacity a.rows) };
}

impl Threads {
    ghost use Rattle.std.specs.Prelude.{◌≡◌, ◌*◌, ◌<◌, ◌≤◌, [], ◌∷◌, ◌++◌, length, IfOk, Some, slice_get};
    ghost use Rattle.rc_pikevm.specs.Threads.{Thread, thread_of};

    /// Allocates for `room` threads of at most `most` slots each.
    pub fn new(alloc: Global, room: usize, most: usize) -> Result<Threads, AllocError>
        ensures { IfOk result (λ t. t
            ≡ record { items = []; room = room; cells = room * most; most = most; width = 0 }) }
    {
        let Some(cells) = room.checked_mul(most) else {
            return Err(AllocError);
        };
        let heads = Vec::with_capacity(alloc, room)?;
        let rows = Vec::with_capacity(alloc, cells)?;
        Ok(Threads {
            heads,
            rows,
            most,
            width: 0,
        })
    }

    /// Drops all threads. The next ones have `width` slots each.
    pub fn clear(&mut self, width: usize)
        requires { width ≤ self.old.most }
        ensures { self.new ≡ record self.old { items = []; width = width } }
    {
        self.heads.clear();
        self.rows.clear();
        self.width = width;
    }

    /// Returns the number of threads.
    pub fn len(&self) -> usize
        ensures value { result ≡ length self.now.items }
    {
        self.heads.len()
    }

    /// Returns the thread at an index, and its slots.
    pub fn get(&self, index: usize) -> (BareThread, &[Option<usize>])
        requires { index < length self.now.items }
        ensures item { slice_get self.now.items index ≡ Some (thread_of result.0 result.1.now) }
        ensures width { length result.1.now ≡ self.now.width }
    {
        let head = self.heads[index];
        let from = index * self.width;
        (head, &self.rows[from..from + self.width])
    }

    /// Replaces the only thread's head, and keeps its slots.
    pub fn move_first(&mut self, head: BareThread)
        requires { length self.old.items ≡ 1 }
        ensures { (t : Thread) → self.old.items ≡ t ∷ []
            → self.new ≡ record self.old { items = thread_of head t.slots ∷ [] } }
    {
        self.heads[0] = head;
    }

    /// Swaps the threads with those of the other list, which has as much room and as many slots a
    /// thread.
    #[inline(always)]
    pub fn exchange(&mut self, other: &mut Threads)
        requires room { self.old.room ≡ other.old.room }
        requires most { self.old.most ≡ other.old.most }
        requires width { self.old.width ≡ other.old.width }
        ensures here { self.new ≡ other.old }
        ensures there { other.new ≡ self.old }
    {
        mem::swap(&mut self.heads, &mut other.heads);
        mem::swap(&mut self.rows, &mut other.rows);
    }

    /// Appends a thread.
    pub fn push(&mut self, head: BareThread, slots: &[Option<usize>])
        requires room { length self.old.items < self.old.room }
        requires width { length slots.now ≡ self.old.width }
        ensures { self.new ≡ record self.old {
          items = self.old.items ++ thread_of head slots.now
              ∷ [];
        } }
    {
        self.heads.push_reserved(head);
        append(&mut self.rows, slots);
    }
}

/// Appends the row to the cells, for which there is room.
fn append(cells: &mut Vec<Option<usize>>, row: &[Option<usize>])
    requires { vec_len cells.old + length row.now ≤ vec_capacity cells.old }
    ensures items { cells.new.items ≡ cells.old.items ++ row.now }
    ensures capacity { vec_capacity cells.new ≡ vec_capacity cells.old }
{
    for cell in row {
        cells.push_reserved(*cell);
    }
}
