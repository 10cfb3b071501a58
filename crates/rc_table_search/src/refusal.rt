//! Refusals: why a search gives up.
ghost use Rattle.std.specs.Prelude.{◌≡◌};
ghost use Rattle.rc_table_search.specs.Refusals.{is_memory};

use std::alloc::AllocError;

/// Why a state can't be added.
#[derive(Clone, Copy)]
pub enum Refusal {
    /// Out of memory.
    Memory,
    /// The cache is full again, and too little was read since it was cleared.
    Short,
}

impl Refusal {
    /// Whether it is out of memory.
    pub fn is_memory(self) -> bool
        ensures { result ≡ is_memory self }
    {
        match self {
            Refusal::Memory => true,
            Refusal::Short => false,
        }
    }
}

impl From<AllocError> for Refusal {
    ghost use Rattle.std.specs.Prelude.{◌≡◌};
    ghost use Rattle.rc_table_search.specs.declared.refusal.Refusal.TheVariants.{Memory};

    ghost from_gives = { λ _ e. e ≡ Memory };

    fn from(_: AllocError) -> Refusal {
        Refusal::Memory
    }
}
