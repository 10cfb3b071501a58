//! Transition table: the states of a DFA in one direction.
ghost use Rattle.std.specs.Prelude.{◌≡◌, ◌<◌, ◌*◌, ℕ, length, slice_index_or, All, Some};
ghost use Rattle.rc_dense_dfa.specs.Cells.{IsNamed, TellsOnly, met, skip};
ghost use Rattle.rc_dense_dfa.specs.Exits.{AreExitsOf, AreLeaps};
ghost use Rattle.rc_dense_dfa.specs.declared.exits.Exits.TheVariants.{Many};

use crate::exits::Exits;
use crate::leaps::Leap;

/// A table of states, in one direction. Each state has a row of cells, one for each byte class. A
/// row is named by the index of its first cell. A cell is the name of the row to which a byte
/// leads. If that row needs a look, `MET`, `DEAD` or `SKIP`, or more of them, are added to it. At a
/// row with `SKIP`, a search may have more to do than to read on; one that ignores it is only slower.
#[derive(Drop)]
pub struct Table {
    /// The class of each byte.
    pub classes: Vec<u8>,
    /// How many classes there are, and so how many cells a row has.
    pub width: usize,
    /// The rows, one after another. Each cell names a row, or is `QUIT`.
    pub cells: Vec<usize>,
    /// For each row, the code of what is found at the end of what the search sees: 0 for nothing,
    /// else one more.
    pub ends: Vec<usize>,
    /// For each row, the code of what was found on the way to it: 0 for nothing, else one more.
    pub tells: Vec<usize>,
    /// What is found on the way to each row to which something is found, if that is the same for
    /// all of them.
    pub only: Option<usize>,
    /// For each row, whether nothing is under way in its state but walks that begin there or later.
    pub idles: Vec<bool>,
    /// Whether such rows have `SKIP`.
    pub rests: bool,
    /// For each row, its exits, so that a search skips all other bytes. Reverse searches read each
    /// byte, so their table has none.
    pub exits: Vec<Exits>,
    /// Whether some row has few exits. If none has, a search that may not rest ignores `SKIP` at
    /// rows without a leap.
    pub skips: bool,
    /// The leaps: rows among which a run stays for most bytes, so that it leaps over them. Reverse
    /// searches have none.
    pub leaps: Vec<Leap>,
    /// The start cells: for each kind of anchoring, one for each class of the byte beside, and one
    /// for an end.
    pub starts: Vec<usize>,
    ghost classed: { (length classes.items ≡ 256) × All (λ c. c < width) classes.items },
    ghost inside: { All (IsNamed width (length cells.items)) cells.items
        × All (IsNamed width (length cells.items)) starts.items },
    ghost passed: { (k : ℕ)
        → AreExitsOf met classes.items cells.items (k * width)
        (slice_index_or exits.items k Many) },
    ghost leaped: { AreLeaps met classes.items cells.items leaps.items },
    ghost alone: { (found : ℕ) → only ≡ Some found → TellsOnly tells.items found },
    ghost small: { length cells.items < skip },
}
