//! Scratch memory: the stack and the sets of a step, allocated once.
ghost use Rattle.std.specs.Coded.{coded_ℕ};
ghost use Rattle.std.specs.Prelude.{ℕ, ◌≡◌, IfOk};

use crate::sparse_set::SparseSet;
use std::alloc::{AllocError, Global};
use std::marker::Model;

/// The memory of steps, made once for a program. Its content doesn't matter between steps.
#[derive(Drop)]
pub struct Scratch {
    pub(crate) stack: Vec<usize>,
    pub(crate) entered: SparseSet,
    pub(crate) listed: SparseSet,
}

impl Model for Scratch {
    ghost Value = { ℕ };

    ghost coded = { coded_ℕ };

    ghost view = { λ a. a.entered.capacity };

    ghost invariant = { λ a. a.listed.capacity ≡ a.entered.capacity };
}

impl Scratch {
    /// Scratch memory for programs of this many places. `Err` means out of memory.
    pub fn new(alloc: Global, places: usize) -> Result<Scratch, AllocError>
        ensures { IfOk result (λ scratch. scratch ≡ places) }
    {
        let stack = Vec::new(alloc);
        let entered = SparseSet::new(alloc, places)?;
        let listed = SparseSet::new(alloc, places)?;
        Ok(Scratch {
            stack,
            entered,
            listed,
        })
    }
}
