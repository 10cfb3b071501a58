//! Build errors: why a build is refused.
ghost use Rattle.std.specs.Prelude.{◌≡◌, option_map};
ghost use Rattle.rc_settings.specs.Lines.{line_of, pattern_of, size_limit_of, syntax_fault_of};

use rc_pattern::syntax;
use rc_text::types::PatternID;
use std::alloc::{AllocError, AllocFailed};
use std::error::Error;
use std::fmt;

/// Why a build was refused.
#[derive(Clone, Copy, Debug, PartialEq, Eq)]
pub enum BuildError {
    /// The text with this number doesn't parse. It is the first such text.
    Syntax {
        /// The number of the text.
        pattern: PatternID,
        /// Why it doesn't parse.
        error: syntax::Error,
    },
    /// The pattern with this number isn't well-formed. It is the first such pattern.
    IllFormed {
        /// The number of the pattern.
        pattern: PatternID,
    },
    /// 32 times the weight of the patterns is above the size limit.
    SizeLimit {
        /// The size limit that was set.
        limit: usize,
    },
    /// The weight of the patterns is above 2,147,483,646.
    PlaceLimit,
    /// Out of memory.
    Memory,
    /// A DFA is larger than its limit. Only the builder of a DFA returns this.
    DfaSizeLimit {
        /// The limit that was set, in bytes.
        limit: usize,
    },
    /// The cache of a lazy DFA is smaller than its minimum. Only the builder of a lazy DFA returns
    /// this.
    CacheTooSmall {
        /// The minimum capacity, in bytes.
        minimum: usize,
        /// The capacity that was set, in bytes.
        given: usize,
    },
}

impl fmt::Display for BuildError {
    ghost output = { line_of };

    fn fmt<W: fmt::Write>(&self, f: &mut fmt::Formatter<W>) -> fmt::Result {
        match self {
            BuildError::Syntax { pattern, error: _ } => {
                let number = pattern.as_usize();
                write!(f, "error parsing pattern {number}")
            }
            BuildError::IllFormed { .. } => write!(f, "error building NFA"),
            BuildError::SizeLimit { .. } => write!(f, "error building NFA"),
            BuildError::PlaceLimit => write!(f, "error building NFA"),
            BuildError::Memory => write!(f, "out of memory"),
            BuildError::DfaSizeLimit { limit } => {
                write!(f, "the DFA is larger than its limit of {limit} bytes")
            }
            BuildError::CacheTooSmall { minimum, given } => write!(
                f,
                "the cache needs {minimum} bytes and was given {given}"
            ),
        }
    }
}

impl Error for BuildError {}

impl From<AllocError> for BuildError {
    ghost use Rattle.std.specs.Prelude.{◌≡◌};
    ghost use Rattle.rc_settings.specs.declared.error.BuildError.TheVariants.{Memory};

    ghost from_gives = { λ _ r. r ≡ Memory };

    fn from(_: AllocError) -> BuildError {
        BuildError::Memory
    }
}

impl<T: Drop> From<AllocFailed<T>> for BuildError {
    ghost use Rattle.std.specs.Prelude.{◌≡◌};
    ghost use Rattle.rc_settings.specs.declared.error.BuildError.TheVariants.{Memory};

    ghost from_gives = { λ _ r. r ≡ Memory };

    fn from(_: AllocFailed<T>) -> BuildError {
        BuildError::Memory
    }
}

impl BuildError {
    /// The number of the text that doesn't parse; `None` if the error has another cause.
    pub fn pattern(&self) -> Option<PatternID>
        ensures { result ≡ pattern_of self.now }
    {
        match self {
            BuildError::Syntax { pattern, .. } => Some(*pattern),
            _ => None,
        }
    }

    /// The size limit that the patterns exceed; `None` if the error has another cause.
    pub fn size_limit(&self) -> Option<usize>
        ensures { result ≡ size_limit_of self.now }
    {
        match self {
            BuildError::SizeLimit { limit } => Some(*limit),
            _ => None,
        }
    }

    /// Why the text doesn't parse; `None` if the error has another cause.
    pub fn syntax_error(&self) -> Option<&syntax::Error>
        ensures { option_map (λ r. r.now) result ≡ syntax_fault_of self.now }
    {
        match self {
            BuildError::Syntax { error, .. } => Some(error),
            _ => None,
        }
    }
}
