//! Group info: which groups the patterns have, and which slots are theirs.
ghost use Rattle.std.specs.Prelude.{◌≡◌, ◌<◌, ◌^◌, length, map, option_map, position, slice_get, string_bytes, IfOk};
ghost use Rattle.std.specs.Option.{option_copied};
ghost use Rattle.rc_captures.specs.Groups.{names_of};
ghost use Rattle.rc_captures.specs.Names.{names_in, slot_len, implicit_slot_len, group_len, slots, to_index, to_name, is_named};
ghost use Rattle.rc_captures.specs.Laws.{SlotsLaw, NamesLaw};

mod table;

use rc_text::types::PatternID;
use std::alloc::{AllocError, Global};
use std::fmt;
use std::sync::Arc;
use table::{Table, table_of};

/// The groups of a list of patterns: their number, their names, and the slots of their bounds.
///
/// Group 0 of a pattern is its whole match, and has no name. The others are its explicit groups.
#[derive(Drop)]
pub struct GroupInfo {
    table: Arc<Table>,
}

impl GroupInfo {
    /// The number of patterns.
    pub fn pattern_len(&self) -> usize
        ensures { result ≡ length (names_of self.now) }
    {
        self.table.names.len()
    }

    /// The number of slots: two for each group of each pattern, group 0 among them.
    pub fn slot_len(&self) -> usize
        ensures small { result < 2 ^ 63 }
        ensures value { result ≡ slot_len (names_of self.now) }
    {
        self.table.end
    }

    /// The number of slots of the whole matches: two for each pattern.
    pub fn implicit_slot_len(&self) -> usize
        ensures { result ≡ implicit_slot_len (names_of self.now) }
    {
        2 * self.table.names.len()
    }

    /// The number of groups of the pattern, group 0 among them; 0 if there is no such pattern.
    pub fn group_len(&self, pattern: PatternID) -> usize
        ensures { result ≡ group_len (names_of self.now) pattern }
    {
        match self.explicit(pattern) {
            Some(names) => names.len() + 1,
            None => 0,
        }
    }

    /// The slots of the start and the end of a group; `None` if there is no such pattern or group.
    ///
    /// The whole match of pattern p has the slots 2p and 2p + 1. The slots of the explicit groups
    /// follow, by pattern and then by number.
    pub fn slots(&self, pattern: PatternID, group: usize) -> Option<(usize, usize)>
        ensures { result ≡ slots (names_of self.now) pattern group }
    {
        if group >= self.group_len(pattern) {
            return None;
        }
        let slot = self.table.first_slot(pattern.as_usize(), group);
        Some((slot, slot + 1))
    }

    /// The number of the group with this name, from 1 on. It is the first one if several have the
    /// name, and `None` if none has it or there is no such pattern.
    pub fn to_index(&self, pattern: PatternID, name: &str) -> Option<usize>
        ensures { result ≡ to_index (names_of self.now) pattern name.now }
    {
        let names = self.explicit(pattern)?;
        let before = position_of(names, name)?;
        Some(before + 1)
    }

    /// The name of a group; `None` if it has none, or there is no such pattern or group.
    pub fn to_name(&self, pattern: PatternID, group: usize) -> Option<&str>
        ensures { option_copied result ≡ to_name (names_of self.now) pattern group }
    {
        let names = self.explicit(pattern)?;
        match names.get(group.checked_sub(1)?)? {
            Some(name) => Some(name.as_str()),
            None => None,
        }
    }

    /// The names of a pattern's explicit groups.
    fn explicit(&self, pattern: PatternID) -> Option<&[Option<String>]>
        ensures { option_map (λ gs. map (option_map string_bytes) gs.now) result
            ≡ slice_get (names_of self.now) pattern }
    {
        match self.table.names.get(pattern.as_usize()) {
            Some(names) => Some(names.as_slice()),
            None => None,
        }
    }
}

/// Returns the groups of patterns with these names: for each pattern the names of its explicit
/// groups 1, 2, .. in order. An `Err` means out of memory.
pub fn group_info(alloc: Global, names: Vec<Vec<Option<String>>>) -> Result<GroupInfo, AllocError>
    ensures { IfOk result (λ g. names_of g ≡ names_in names.items) }
{
    let table = Arc::new(alloc, table_of(alloc, names)?)?;
    Ok(GroupInfo { table })
}

/// Returns a copy. It shares the names, so it takes no memory; an `Err` means that there are too
/// many copies.
pub fn copy_of(info: &GroupInfo) -> Result<GroupInfo, AllocError>
    ensures { IfOk result (λ g. names_of g ≡ names_of info.now) }
{
    let table = Arc::try_clone(&info.table)?;
    Ok(GroupInfo { table })
}

/// Whether the name is this one.
fn is_named(other: &Option<String>, name: &str) -> bool
    ensures { result ≡ is_named (option_map string_bytes other.now) name.now }
{
    match other {
        Some(other) => other.as_str() == name,
        None => false,
    }
}

/// The number of groups before the first one with this name.
fn position_of(names: &[Option<String>], name: &str) -> Option<usize>
    ensures { result
        ≡ position (λ other. is_named (option_map string_bytes other) name.now) names.now }
{
    names.iter().position(|other| is_named(other, name))
}

/// Each slot is that of one group alone. A law: it does nothing.
pub fn slots_are_shared_out()
    ensures { SlotsLaw }
{}

/// The group of a name has that name. A law: it does nothing.
pub fn names_and_groups_are_inverse()
    ensures { NamesLaw }
{}

impl fmt::Debug for GroupInfo {
    fn fmt<W: fmt::Write>(&self, f: &mut fmt::Formatter<W>) -> fmt::Result {
        f.debug_struct("GroupInfo")
            .field("names", &self.table.names)
            .finish()
    }
}
