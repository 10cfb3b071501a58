//! Syntax errors: why a text doesn't parse as a pattern.

use std::alloc::AllocError;
use thiserror::Error;

/// Why a text doesn't parse.
#[derive(Clone, Copy, Debug, PartialEq, Eq, Error)]
pub enum Error {
    /// The text is no pattern. The fault is `at` this position: a byte offset, at most the length
    /// of the text.
    #[error("syntax error at byte {at}")]
    Syntax {
        /// The position, in bytes.
        at: usize,
    },
    /// Out of memory.
    #[error("out of memory")]
    Memory,
}

impl From<AllocError> for Error {
    ghost use Rattle.std.specs.Prelude.{◌≡◌};
    ghost use Rattle.rc_pattern.specs.declared.syntax.Error.TheVariants.{Memory};

    ghost from_gives = { λ _ r. r ≡ Memory };

    fn from(_: AllocError) -> Error {
        Error::Memory
    }
}
