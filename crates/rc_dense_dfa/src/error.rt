//! Build errors: why there is no DFA.

use std::alloc::{AllocError, AllocFailed};

/// Why no table was built.
#[derive(Clone, Copy, Debug, PartialEq, Eq)]
pub enum TableError {
    /// Out of memory, or no memory could hold the table.
    Memory,
    /// The states weigh more than the limit.
    TooBig,
}

impl From<AllocError> for TableError {
    ghost use Rattle.std.specs.Prelude.{◌≡◌};
    ghost use Rattle.rc_dense_dfa.specs.declared.error.TableError.TheVariants.{Memory};

    ghost from_gives = { λ _ e. e ≡ Memory };

    fn from(_: AllocError) -> TableError {
        TableError::Memory
    }
}

impl<T: Drop> From<AllocFailed<T>> for TableError {
    ghost use Rattle.std.specs.Prelude.{◌≡◌};
    ghost use Rattle.rc_dense_dfa.specs.declared.error.TableError.TheVariants.{Memory};

    ghost from_gives = { λ _ e. e ≡ Memory };

    fn from(_: AllocFailed<T>) -> TableError {
        TableError::Memory
    }
}
