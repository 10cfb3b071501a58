//! Sparse sets: sets of numbers that keep the order of insertion and are cleared in constant time.
ghost use Rattle.std.specs.Prelude.{◌≡◌, ◌↔◌, ℕ, ◌<◌, ◌≤◌, [], ◌∷◌, ◌++◌, length, vec_len, vec_capacity, IfOk, slice_get, Some, slice_index, drop};
ghost use Rattle.std.specs.Bool.{MatchBool};
ghost use Rattle.rc_determinize.specs.Sparse.{Members, members_code, IsIndexed, IsSet};
ghost use Rattle.rc_determinize.specs.Steps.{HasPlace, IsRising};
ghost use Rattle.rc_determinize.specs.Machine.{with_group};

use std::alloc::{AllocError, Global};
use std::marker::Model;

/// A set of numbers below its capacity.
#[derive(Drop)]
pub struct SparseSet {
    /// The members, in the order of insertion.
    dense: Vec<usize>,
    /// For each member, its index in `dense`.
    sparse: Vec<usize>,
}

impl Model for SparseSet {
    ghost Value = { Members };

    ghost coded = { members_code };

    ghost view = { λ a. record { capacity = vec_len a.sparse; items = a.dense.items } };

    ghost invariant = { λ a. (vec_len a.sparse ≤ vec_capacity a.dense)
        × IsIndexed a.dense.items a.sparse.items };
}

impl SparseSet {
    /// An empty set of numbers below `capacity`. `Err` means out of memory.
    pub fn new(alloc: Global, capacity: usize) -> Result<SparseSet, AllocError>
        ensures { IfOk result (λ s. s ≡ record { capacity = capacity; items = [] }) }
    {
        let dense = Vec::with_capacity(alloc, capacity)?;
        let sparse = vec![in alloc; 0usize; capacity]?;
        Ok(SparseSet { dense, sparse })
    }

    /// Replaces the list by the members, in the order of insertion. `Err` means out of memory.
    pub fn copy_to(&self, list: &mut Vec<usize>) -> Result<(), AllocError>
        ensures { IfOk result (λ _. list.new.items ≡ self.now.items) }
    {
        list.clear();
        list.extend_from_slice(&self.dense)
    }

    /// Appends the members from number `from` on, in the order of insertion. If there are any and
    /// the list isn't empty, a mark comes first. `Err` means out of memory.
    pub fn part_to(&self, from: usize, mark: usize, list: &mut Vec<usize>) -> Result<(), AllocError>
        requires { from ≤ length self.now.items }
        ensures { IfOk result (λ _. list.new.items
            ≡ with_group mark list.old.items (drop from self.now.items)) }
    {
        if from == self.dense.len() {
            return Ok(());
        }
        if !list.is_empty() {
            list.push(mark)?;
        }
        list.extend_from_slice(&self.dense[from..])
    }

    /// Replaces the list by the members in rising order. `Err` means out of memory.
    pub fn rise_to(&self, list: &mut Vec<usize>) -> Result<(), AllocError>
        ensures rising { IfOk result (λ _. IsRising list.new.items) }
        ensures members { IfOk result (λ _. (q : ℕ)
            → HasPlace q list.new.items ↔ HasPlace q self.now.items) }
    {
        list.clear();
        for number in 0..self.sparse.len() {
            if self.contains(number) {
                list.push(number)?;
            }
        }
        Ok(())
    }

    /// Returns how many members there are. By its contract, each is below the capacity and none is
    /// there twice.
    pub fn len(&self) -> usize
        ensures value { result ≡ length self.now.items }
        ensures set { IsSet self.now.capacity self.now.items }
    {
        self.dense.len()
    }

    /// Returns the member that was inserted as number `place`, counted from 0.
    pub fn get(&self, place: usize) -> usize
        requires { place < length self.now.items }
        ensures { result ≡ slice_index self.now.items place }
    {
        self.dense[place]
    }

    /// Removes all members, in constant time.
    pub fn clear(&mut self)
        ensures { self.new ≡ record self.old { items = [] } }
    {
        self.dense.clear();
    }

    /// Whether the number is a member.
    pub fn contains(&self, number: usize) -> bool
        requires { number < self.now.capacity }
        ensures { MatchBool result (HasPlace number self.now.items)
            (¬ HasPlace number self.now.items) }
    {
        let index = self.sparse[number];
        index < self.dense.len() && self.dense[index] == number
    }

    /// Inserts the number, and returns whether it is new.
    pub fn insert(&mut self, number: usize) -> bool
        requires { number < self.old.capacity }
        ensures member { MatchBool result (¬ HasPlace number self.old.items)
            (HasPlace number self.old.items) }
        ensures after { MatchBool result
            (self.new ≡ record self.old { items = self.old.items ++ number ∷ [] })
            (self.new ≡ self.old) }
        ensures few { length self.new.items ≤ self.new.capacity }
    {
        if self.contains(number) {
            return false;
        }
        self.sparse[number] = self.dense.len();
        self.dense.push_reserved(number);
        true
    }
}
