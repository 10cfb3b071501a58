//! Pattern sets: which patterns have a match, as each regex tells.

use crate::engines::Engines;
use crate::inputs::input;
use crate::row::Row;
use crate::slots::Asker;
use api_meta::regex::Regex;
use rc_pattern_set::sets::PatternSet;
use rc_text::cursor::Cursor;
use rc_text::input::Input;
use rc_text::types::PatternID;
use std::alloc::{AllocError, Global};

/// Each regex tells of the row's patterns alone that they have a match.
pub fn which<C: Cursor + Copy + Drop>(asker: &mut Asker, engines: &Engines, row: &Row, cursor: C) {
    which_by(asker, &engines.regexes.plain, "regex", row, cursor);
    which_by(
        asker,
        &engines.regexes.unfiltered,
        "unfiltered",
        row,
        cursor,
    );
    which_by(asker, &engines.regexes.tabled, "tabled", row, cursor);
}

/// The regex tells of the row's patterns alone that they have a match.
fn which_by<C: Cursor + Drop>(
    asker: &mut Asker,
    regex: &Regex,
    by: &'static str,
    row: &Row,
    mut cursor: C,
) {
    let mut input = input(row, &mut cursor);
    match set_of(asker.alloc, regex, &mut input) {
        Ok(set) => asker
            .verdict
            .expect(has_just(&set, &row.members), by, "which"),
        Err(_) => asker.verdict.note("row", "memory"),
    }
}

/// The patterns that have a match. `Err` means out of memory.
fn set_of<C: Cursor>(
    alloc: Global,
    regex: &Regex,
    input: &mut Input<C>,
) -> Result<PatternSet, AllocError> {
    let mut set = PatternSet::new(alloc, regex.pattern_len())?;
    let mut cache = regex.create_cache(alloc)?;
    regex.which_patterns_with(&mut cache, input, &mut set);
    drop(cache);
    Ok(set)
}

/// Whether these are the members of the set, none of them twice.
fn has_just(set: &PatternSet, members: &[usize]) -> bool {
    for member in members {
        if !contains(set, *member) {
            return false;
        }
    }
    set.len() == members.len()
}

/// Whether the set contains the pattern of this number.
fn contains(set: &PatternSet, number: usize) -> bool {
    match PatternID::new(number) {
        Some(pattern) => set.contains(pattern),
        None => false,
    }
}
