//! Sparse sets: sets of numbers that keep the order of insertion and are cleared in constant time.
ghost use Rattle.std.specs.Prelude.{◌≡◌, ◌<◌, ◌≤◌, [], ◌∷◌, ◌++◌, length, vec_len, vec_capacity, IfOk, slice_get, Some, slice_index};
ghost use Rattle.std.specs.Bool.{MatchBool};
ghost use Rattle.rc_pikevm.specs.Sparse.{Members, members_code, Has, IsIndexed, IsSet};

use std::alloc::{AllocError, Global};
use std::marker::Model;

/// A set of numbers below its capacity.
#[derive(Drop)]
pub struct SparseSet {
    /// The members, in the order of insertion.
    dense: Vec<usize>,
    /// For each member, its index in `dense`.
    sparse: Vec<usize>,
}

impl Model for SparseSet {
    ghost Value = { Members };

    ghost coded = { members_code };

    ghost view = { λ a. record {
      capacity = vec_len a.sparse;
      items = a.dense.items;
      room = vec_capacity a.dense;
      indexes = vec_capacity a.sparse;
    } };

    ghost invariant = { λ a. (vec_len a.sparse ≤ vec_capacity a.dense)
        × IsIndexed a.dense.items a.sparse.items };
}

impl SparseSet {
    /// An empty set of numbers below `capacity`.
    pub fn new(alloc: Global, capacity: usize) -> Result<SparseSet, AllocError>
        ensures { IfOk result (λ s. s ≡ record {
          capacity = capacity;
          items = [];
          room = capacity;
          indexes = capacity;
        }) }
    {
        let dense = Vec::with_capacity(alloc, capacity)?;
        let mut sparse = Vec::with_capacity(alloc, capacity)?;
        for _ in 0..capacity {
            sparse.push_reserved(0);
        }
        Ok(SparseSet { dense, sparse })
    }

    /// Returns how many members there are.
    pub fn len(&self) -> usize
        ensures value { result ≡ length self.now.items }
        ensures set { IsSet self.now.capacity self.now.items }
    {
        self.dense.len()
    }

    /// Returns the member that was inserted as number `place`, counted from 0.
    pub fn get(&self, place: usize) -> usize
        requires { place < length self.now.items }
        ensures { slice_get self.now.items place ≡ Some result }
    {
        self.dense[place]
    }

    /// Removes all members, in constant time.
    pub fn clear(&mut self)
        ensures { self.new ≡ record self.old { items = [] } }
    {
        self.dense.clear();
    }

    /// Whether the number is a member.
    pub fn contains(&self, number: usize) -> bool
        requires { number < self.now.capacity }
        ensures { MatchBool result (Has self.now.items number) (¬ Has self.now.items number) }
    {
        let index = self.sparse[number];
        index < self.dense.len() && self.dense[index] == number
    }

    /// Inserts the number, and returns whether it is new.
    pub fn insert(&mut self, number: usize) -> bool
        requires { number < self.old.capacity }
        ensures member { MatchBool result (¬ Has self.old.items number)
            (Has self.old.items number) }
        ensures after { MatchBool result
            (self.new ≡ record self.old { items = self.old.items ++ number ∷ [] })
            (self.new ≡ self.old) }
        ensures few { length self.new.items ≤ self.new.capacity }
    {
        if self.contains(number) {
            return false;
        }
        self.sparse[number] = self.dense.len();
        self.dense.push_reserved(number);
        true
    }
}
