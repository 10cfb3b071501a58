//! Owned needles: the literals of patterns, each with the pattern to which it belongs.
ghost use Rattle.std.specs.Prelude.{◌≡◌, length};
ghost use Rattle.rc_needles.specs.Prefilters.{needles_of};

use rc_needles::prefilter::Prefilter;
use rc_text::types::PatternID;

/// Needles in order of preference, each with its owner: the pattern to which it belongs.
#[derive(Drop)]
pub struct OwnedNeedles {
    pub prefilter: Prefilter,
    /// For each needle the pattern to which it belongs.
    pub owners: Vec<PatternID>,
    ghost each: { length owners.items ≡ length (needles_of prefilter) },
}

impl OwnedNeedles {
    /// Returns about how many bytes of memory they take, beyond the value's own.
    pub fn memory_usage(&self) -> usize {
        let owners = self.owners.len().saturating_mul(4);
        self.prefilter.memory_usage().saturating_add(owners)
    }
}
