//! Search results: how a DFA search ended, and how far it looked. Positions are in bytes of the
//! whole content.

/// A pattern, and the position at which a DFA search found it.
#[derive(Clone, Copy)]
pub struct Met {
    /// The number of the pattern.
    pub pattern: usize,
    /// Where it was found: the position at which the match ends, or in a reverse search the one at
    /// which it begins.
    pub at: usize,
}

/// How a DFA search ended.
#[derive(Clone, Copy)]
pub enum Ended {
    /// At the end, with what it found last, if anything.
    Found(Option<Met>),
    /// At this position, where it rests: it found nothing before, and the only walks are those that
    /// begin here or later.
    Idle(usize),
    /// At a byte that the search may not read: the byte and its offset.
    Quit(u8, usize),
    /// It gave up at this position; the flag says whether it ran out of memory.
    GaveUp(usize, bool),
}

/// How a DFA search forwards ended, and how far it looked.
#[derive(Clone, Copy)]
pub struct Reading {
    /// How it ended.
    pub ended: Ended,
    /// It looked at no byte from this position on. If it came to its upper bound, that is one more:
    /// it looked at the byte there, or saw that none is.
    pub read: usize,
}
