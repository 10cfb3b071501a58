//! Feed errors.

use std::alloc::AllocError;
use thiserror::Error;

/// Why a chunk was refused. Nothing of it was taken then, and the stream is unchanged.
#[derive(Clone, Copy, Debug, PartialEq, Eq, Error)]
pub enum FeedError {
    /// The stream was finished.
    #[error("stream is finished")]
    Finished,
    /// The number of bytes in the stream would reach the greatest `usize`.
    #[error("stream too long")]
    TooLong,
    /// More bytes would be kept than the limit allows.
    #[error("too many bytes to keep")]
    Limit,
    /// Out of memory.
    #[error("out of memory")]
    Memory,
}

impl From<AllocError> for FeedError {
    ghost use Rattle.std.specs.Prelude.{◌≡◌};
    ghost use Rattle.stream_search.specs.declared.error.FeedError.TheVariants.{Memory};

    ghost from_gives = { λ _ r. r ≡ Memory };

    fn from(_: AllocError) -> FeedError {
        FeedError::Memory
    }
}
