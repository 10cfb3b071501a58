//! Prefilters: literals that a search may look for first.

pub use rc_needles::prefilter::Prefilter;
