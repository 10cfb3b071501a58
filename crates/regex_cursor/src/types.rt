//! Search types: spans, matches, pattern numbers and sets, anchoring and errors.

pub use rc_pattern_set::sets::{PatternSet, PatternSetIter};
pub use rc_text::types::{Anchored, HalfMatch, Match, MatchError, MatchKind, PatternID, Span};
