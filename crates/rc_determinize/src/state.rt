//! DFA states: ordered lists of places, with what is known of the byte that was read last.

use crate::sides::Seen;

/// A DFA state: all that a search keeps between two bytes.
#[derive(Drop)]
pub struct State {
    /// The places under way, before their epsilon closure. Forwards, they are those to which the
    /// byte before led, in order of preference. For `MatchKind::All`, and backwards, they are a set
    /// in rising order. For leftmost-longest, a mark separates places of walks from different
    /// starts: it is the program's number of places.
    pub list: Vec<usize>,
    /// The facts about the side on which the byte is that was read last: forwards the one before,
    /// backwards the one ahead.
    pub beside: Seen,
    /// Whether a walk may begin at each position to come. Backwards it is false.
    pub goes_on: bool,
    /// The match that the search found at the position that it just left: forwards the match place,
    /// backwards the index of the root that reaches the end.
    pub matched: Option<usize>,
}
