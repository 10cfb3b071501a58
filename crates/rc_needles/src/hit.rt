//! Hits: where a needle was found.

/// A needle that was found in a content.
#[derive(Clone, Copy, Debug, PartialEq, Eq)]
pub struct Hit {
    /// Where it begins, in bytes of the content.
    pub start: usize,
    /// Where it ends, in bytes of the content.
    pub end: usize,
    /// Its number among the needles, from 0 on.
    pub number: usize,
}
