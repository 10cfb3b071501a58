//! Memos: what earlier runs over a text found from some of their positions on. A run that stands at
//! such a position in the same row ends as they did.
ghost use Rattle.std.specs.Prelude.{◌≡◌, ◌⊎◌, ◌<◌, IfSome};
ghost use Rattle.rc_dfa.specs.declared.memo.Mark.{Mark};
ghost use Rattle.rc_dfa.specs.Memos.{Has};

use crate::ended::Met;

/// The number of slots of a memo.
const SLOTS: usize = 128;

/// The number of slots that positions of one alignment share, by their rows.
const WAYS: usize = 4;

/// How a run ended that stood at a position.
#[derive(Clone, Copy)]
pub struct Mark {
    /// The position.
    pub at: usize,
    /// The row of its state.
    pub row: usize,
    /// What it found last, from there on.
    pub found: Option<Met>,
    /// It looked at no byte from this position on.
    pub read: usize,
}

/// Marks of runs over one text up to one bound. A later mark takes the slot of an earlier one.
#[derive(Drop)]
pub struct Memo {
    /// The era of the cache in which the rows of the marks are those of their states.
    pub era: usize,
    /// The marks.
    pub marks: [Option<Mark>; SLOTS],
}

/// Returns the slot of a mark.
#[inline(always)]
fn slot_of(at: usize, row: usize) -> usize
    ensures { result < 128 }
{
    let rows = row ^ row / 8 ^ row / 64;
    (at.trailing_zeros() as usize * WAYS + rows % WAYS) % SLOTS
}

impl Memo {
    /// A memo with no marks.
    pub fn new(era: usize) -> Memo
        ensures era { result.era ≡ era }
        ensures empty { (k : Mark) → ¬ Has result k }
    {
        Memo {
            era,
            marks: [None; SLOTS],
        }
    }

    /// Returns the mark of the position and the row, if there is one.
    #[inline(always)]
    pub fn find(&self, at: usize, row: usize) -> Option<Mark>
        ensures { IfSome result (λ k. Has self.now k × (k.at ≡ at) × (k.row ≡ row)) }
    {
        let mark = self.marks[slot_of(at, row)]?;
        if mark.at == at && mark.row == row {
            return Some(mark);
        }
        None
    }

    /// Adds a mark.
    #[inline(always)]
    pub fn insert(&mut self, mark: Mark)
        ensures era { self.new.era ≡ self.old.era }
        ensures marks { (k : Mark) → Has self.new k → (k ≡ mark) ⊎ Has self.old k }
    {
        self.marks[slot_of(mark.at, mark.row)] = Some(mark);
    }
}

/// Returns the position at which a run that stands here is marked next. The multiples of 8 are, the
/// rarer the farther they are from where it began.
#[inline(always)]
pub fn next_mark(at: usize) -> usize {
    if at % 8 == 0 && at > 0 {
        return (at | (at - 1)).saturating_add(1);
    }
    (at | 7).saturating_add(1)
}
