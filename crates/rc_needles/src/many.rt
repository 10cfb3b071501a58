//! Trie search: the first of many needles in one piece of a chunk.
ghost use Rattle.std.specs.Prelude.{◌≡◌, ◌<◌, ◌≤◌, ℕ, Some, length};
ghost use Rattle.rc_needles.specs.Tables.{Agrees, IsRuledOut, needles_in, numbered};
ghost use Rattle.rc_needles.specs.Tries.{AreCarriedBy, IsFirstIn};

use crate::table::Table;
use crate::trie::Trie;

/// The result of a look at a piece.
#[derive(Clone, Copy)]
pub struct Candidate {
    /// How many indices were skipped.
    pub passed: usize,
    /// The number of the first needle that occurs after them. If that isn't known, it is how many
    /// needles there are.
    pub number: usize,
}

/// Skips the indices of the piece at which no needle begins, and returns what comes after them.
#[inline(always)]
pub fn candidate_in(table: &Table, trie: &Trie, piece: &[u8]) -> Candidate
    requires { AreCarriedBy (Some trie.now) (needles_in table.now.needles.items) }
    ensures within { result.passed ≤ length piece.now }
    ensures passed { (k : ℕ) → k < result.passed
        → IsRuledOut (needles_in table.now.needles.items) 0 piece.now k }
    ensures first { result.number < length table.now.needles.items
        → IsFirstIn (needles_in table.now.needles.items) piece.now result.passed result.number }
{
    let count = table.needles.len();
    let mut at = trie.opened_from(piece, 0);
    while at < piece.len() {
        let Some(number) = trie.lead(&piece[at..], count) else {
            return Candidate {
                passed: at,
                number: count,
            };
        };
        if number < count {
            let number = number_seen(table, piece, at, number);
            return Candidate { passed: at, number };
        }
        at = trie.opened_from(piece, at + 1);
    }
    Candidate {
        passed: piece.len(),
        number: count,
    }
}

/// Returns the number if its needle occurs in the piece at the index, else how many needles there
/// are.
#[inline(always)]
fn number_seen(table: &Table, piece: &[u8], at: usize, number: usize) -> usize
    requires within { at ≤ length piece.now }
    requires number { number < length table.now.needles.items }
    requires none_earlier { (k : ℕ) → k < number → k < length (needles_in table.now.needles.items)
        → ¬ Agrees piece.now (numbered (needles_in table.now.needles.items) k) at }
    ensures { result < length table.now.needles.items
        → IsFirstIn (needles_in table.now.needles.items) piece.now at result }
{
    let needle = table.needles[number].as_slice();
    let len = needle.len();
    if len <= piece.len() - at && &piece[at..at + len] == needle {
        return number;
    }
    table.needles.len()
}
