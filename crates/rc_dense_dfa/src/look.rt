//! Transitions: what the cells of a table say.
ghost use Rattle.std.specs.Prelude.{◌≡◌, ◌+◌, ◌/◌, ◌<◌, ◌≤◌, ◌^◌, ◌⊎◌, ℕ, Option, IfSome, false, length, slice_index_or};
ghost use Rattle.rc_dense_dfa.specs.Cells.{IsNamed, met};
ghost use Rattle.rc_dense_dfa.specs.Exits.{AreStays};
ghost use Rattle.rc_dense_dfa.specs.Tables.{cell_at, class_at, code_of};
ghost use Rattle.rc_dense_dfa.specs.declared.exits.Exits.TheVariants.{Many};
ghost use Rattle.rc_dense_dfa.specs.Searches.{InRow};

use crate::exits::Exits;
use crate::leaps::Leap;
use crate::table::Table;

/// Returns the cell of a row and a byte.
#[inline(always)]
pub(crate) fn cell_of(table: &Table, row: usize, byte: u8) -> usize
    requires { InRow table.now row }
    ensures value { result ≡ cell_at table.now (row + class_at table.now byte) }
    ensures named { IsNamed table.now.width (length table.now.cells.items) result }
{
    table.cells[row + table.classes[byte as usize] as usize]
}

/// Whether the only walks in the state of the row are those that begin there or later.
#[inline(always)]
pub(crate) fn is_idle(table: &Table, row: usize) -> bool
    ensures { result ≡ slice_index_or table.now.idles.items (row / table.now.width) false }
{
    match table.idles.get(row / table.width) {
        Some(idle) => *idle,
        None => false,
    }
}

/// Returns the exits of the row.
#[inline(always)]
pub(crate) fn exits_at(table: &Table, row: usize) -> Exits
    ensures { result ≡ slice_index_or table.now.exits.items (row / table.now.width) Many }
{
    match table.exits.get(row / table.width) {
        Some(exits) => *exits,
        None => Exits::Many,
    }
}

/// Returns the leap that has the row, if there is one.
#[inline(always)]
pub(crate) fn leap_at(table: &Table, row: usize) -> Option<&Leap>
    ensures here { IfSome result (λ leap. (row ≡ leap.now.row) ⊎ (row ≡ leap.now.other)) }
    ensures stays { IfSome result (λ leap. AreStays met table.now.classes.items
        table.now.cells.items leap.now.row leap.now.other leap.now.stays.flags) }
{
    for leap in table.leaps.iter() {
        if leap.row == row || leap.other == row {
            return Some(leap);
        }
    }
    None
}

/// Returns the code of the row in a list of codes, or 0 if it has none.
#[inline(always)]
fn code_of(codes: &[usize], row: usize, width: usize) -> usize
    requires { 0 < width }
    ensures { result ≡ slice_index_or codes.now (row / width) 0 }
{
    match codes.get(row / width) {
        Some(code) => *code,
        None => 0,
    }
}

/// Returns what was found, by the code of the row in a list of codes.
#[inline(always)]
pub(crate) fn find_in(codes: &[usize], row: usize, width: usize) -> Option<usize>
    requires { 0 < width }
    ensures { (found : Option ℕ) → slice_index_or codes.now (row / width) 0 ≡ code_of found
        → result ≡ found }
{
    let code = code_of(codes, row, width);
    if code > 0 {
        return Some(code - 1);
    }
    None
}
