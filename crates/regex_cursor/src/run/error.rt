//! Run errors.

use rc_settings::error::BuildError;
use rc_text::chunks::TooLong;
use std::alloc::{AllocError, AllocFailed};
use std::error::Error;
use std::fmt;

/// Why a run failed.
#[derive(Clone, Copy, Debug, PartialEq, Eq)]
pub enum RunError {
    /// The pattern couldn't be built.
    Build(BuildError),
    /// The number of bytes in the chunks reaches the greatest `usize`.
    TooLong,
    /// Out of memory, after the pattern was built.
    Memory,
    /// The writer failed.
    Write,
}

impl fmt::Display for RunError {
    ghost use Rattle.regex_cursor.specs.Faults.{line_of_fault};

    ghost output = { line_of_fault };

    fn fmt<W: fmt::Write>(&self, f: &mut fmt::Formatter<W>) -> fmt::Result {
        match self {
            RunError::Build(error) => write!(f, "{error}"),
            RunError::TooLong => write!(f, "input too long"),
            RunError::Memory => write!(f, "out of memory"),
            RunError::Write => write!(f, "write failed"),
        }
    }
}

impl Error for RunError {}

impl From<BuildError> for RunError {
    ghost use Rattle.std.specs.Prelude.{◌≡◌};
    ghost use Rattle.regex_cursor.specs.declared.run.error.RunError.TheVariants.{Build};

    ghost from_gives = { λ e r. r ≡ Build e };

    fn from(error: BuildError) -> RunError {
        RunError::Build(error)
    }
}

impl From<TooLong> for RunError {
    ghost use Rattle.std.specs.Prelude.{◌≡◌};
    ghost use Rattle.regex_cursor.specs.declared.run.error.RunError.TheVariants.{TooLong as Long};

    ghost from_gives = { λ _ r. r ≡ Long };

    fn from(_: TooLong) -> RunError {
        RunError::TooLong
    }
}

impl From<AllocError> for RunError {
    ghost use Rattle.std.specs.Prelude.{◌≡◌};
    ghost use Rattle.regex_cursor.specs.declared.run.error.RunError.TheVariants.{Memory};

    ghost from_gives = { λ _ r. r ≡ Memory };

    fn from(_: AllocError) -> RunError {
        RunError::Memory
    }
}

impl<T: Drop> From<AllocFailed<T>> for RunError {
    ghost use Rattle.std.specs.Prelude.{◌≡◌};
    ghost use Rattle.regex_cursor.specs.declared.run.error.RunError.TheVariants.{Memory};

    ghost from_gives = { λ _ r. r ≡ Memory };

    fn from(_: AllocFailed<T>) -> RunError {
        RunError::Memory
    }
}
