//! Group table: the names of all groups, and where the slots of each pattern begin.
ghost use Rattle.std.specs.Prelude.{◌≡◌, ℕ, ◌+◌, ◌<◌, ◌≤◌, ◌^◌, Some, length, IfOk, MatchResult, slice_get};
ghost use Rattle.rc_captures.specs.Names.{names_in, slot_len, first_slot, group_len};

use std::alloc::{AllocError, Global};

/// The greatest number of groups whose slots can be numbered.
const MOST: usize = usize::MAX / 4;

/// The names of the explicit groups of each pattern, the slot of group 1 of each pattern, and the
/// number of slots.
#[derive(Drop)]
pub struct Table {
    pub names: Vec<Vec<Option<String>>>,
    starts: Vec<usize>,
    pub end: usize,
    ghost small: { end < 2 ^ 63 },
    ghost counted: { end ≡ slot_len (names_in names.items) },
    ghost started: { (p : ℕ) → p < length (names_in names.items) → slice_get starts.items p
        ≡ Some (first_slot (names_in names.items) p 1) },
}

impl Table {
    /// The slot of a group's start.
    pub fn first_slot(&self, pattern: usize, group: usize) -> usize
        requires { group < group_len (names_in self.now.names.items) pattern }
        ensures value { result ≡ first_slot (names_in self.now.names.items) pattern group }
        ensures below { result + 1 < slot_len (names_in self.now.names.items) }
    {
        if group == 0 {
            2 * pattern
        } else {
            self.starts[pattern] + 2 * (group - 1)
        }
    }
}

/// The table of these names.
pub fn table_of(alloc: Global, names: Vec<Vec<Option<String>>>) -> Result<Table, AllocError>
    ensures { IfOk result (λ t. t.names ≡ names) }
{
    let mut starts = Vec::with_capacity(alloc, names.len())?;
    let mut groups = added(0, names.len())?;
    for explicit in &names {
        starts.push(2 * groups)?;
        groups = added(groups, explicit.len())?;
    }
    Ok(Table {
        names,
        starts,
        end: 2 * groups,
    })
}

/// The sum of two numbers of groups. An `Err` means that they can't be numbered, and so take more
/// memory than there can be.
fn added(groups: usize, more: usize) -> Result<usize, AllocError>
    ensures { MatchResult result (λ n. (n ≡ groups + more) × (n < 2 ^ 62)) (λ _. 2 ^ 62
        ≤ groups + more) }
{
    match groups.checked_add(more) {
        Some(n) if n <= MOST => Ok(n),
        _ => Err(AllocError),
    }
}
