//! Oversize report: the weight of patterns beside the size limit.

ghost use Rattle.rc_build.specs.Oversized.{oversize_line};

use std::fmt;

/// The cap: a weight from here on is reported as this.
const CAP: u128 = 0x1_0000_0000_0000_0000;

/// The weight of patterns that are too large. It is shown as one line with the size, the weight and
/// the limit.
#[derive(Clone, Copy, Debug, PartialEq, Eq)]
pub struct Oversize {
    /// The weight of the patterns by their grammar, or 2 to the power of 64 if it is above that. The
    /// size is 32 times the weight, in bytes.
    pub weight: u128,
    /// The size limit, in bytes.
    pub limit: usize,
}

impl fmt::Display for Oversize {
    ghost output = { oversize_line };

    fn fmt<W: fmt::Write>(&self, f: &mut fmt::Formatter<W>) -> fmt::Result {
        let weight = self.weight;
        let size = weight.saturating_mul(32);
        let limit = self.limit;
        let bound = if weight < CAP { "" } else { "at least " };
        write!(
            f,
            "the patterns take {bound}{size} bytes, 32 for each of their weight of {weight}, more than the limit of {limit}"
        )
    }
}
