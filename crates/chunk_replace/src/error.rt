//! Replacement errors.

use thiserror::Error;

/// Why a replacement failed.
#[derive(Clone, Copy, Debug, PartialEq, Eq, Error)]
pub enum ReplaceError {
    /// The number of bytes in the chunks reaches the greatest `usize`. Nothing was written.
    #[error("input too long")]
    TooLong,
    /// Out of memory. The replaced text was written in part, from its start on.
    #[error("out of memory")]
    Memory,
    /// The sink failed. The replaced text was written in part, from its start on.
    #[error("write failed")]
    Write,
}
