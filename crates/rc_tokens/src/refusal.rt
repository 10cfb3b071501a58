//! Token errors: why a text doesn't parse.

ghost use Rattle.std.specs.Prelude.{◌≡◌};

use std::alloc::{AllocError, AllocFailed};

/// Why a text has no token.
#[derive(Drop, Debug, PartialEq)]
pub enum Refusal {
    /// No token begins the text.
    Syntax,
    /// Out of memory.
    Memory,
}

impl From<AllocError> for Refusal {
    ghost use Rattle.rc_tokens.specs.declared.refusal.Refusal.TheVariants.{Memory};

    ghost from_gives = { λ _ e. e ≡ Memory };

    fn from(_: AllocError) -> Refusal {
        Refusal::Memory
    }
}

impl<T: Drop> From<AllocFailed<T>> for Refusal {
    ghost use Rattle.rc_tokens.specs.declared.refusal.Refusal.TheVariants.{Memory};

    ghost from_gives = { λ _ e. e ≡ Memory };

    fn from(_: AllocFailed<T>) -> Refusal {
        Refusal::Memory
    }
}
