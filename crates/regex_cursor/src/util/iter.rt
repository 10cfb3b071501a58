//! Match iteration over any finder: each search begins where the last match ended.

pub use rc_iter::halves::TryHalfMatchesIter;
pub use rc_iter::searcher::Searcher;
