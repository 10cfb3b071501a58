//! Errors: why there is no lazy DFA.

/// Why there is no lazy DFA.
#[derive(Clone, Copy, Debug, PartialEq, Eq)]
pub enum LazyError {
    /// No memory could hold its states.
    Memory,
    /// The capacity is too small: the least that suffices, and what was given, in bytes.
    TooSmall { minimum: usize, given: usize },
}
