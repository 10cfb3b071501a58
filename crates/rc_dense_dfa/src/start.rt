//! Start states: the row in which a search begins.
ghost use Rattle.std.specs.Prelude.{◌≡◌, ◌+◌, ◌*◌, ◌<◌, ◌≤◌, ◌^◌, length, slice_index_or};
ghost use Rattle.rc_dense_dfa.specs.Cells.{IsNamed};
ghost use Rattle.rc_dense_dfa.specs.Tables.{column, mode_of, start_at};

use crate::table::Table;
use rc_table_search::cells::QUIT;
use rc_text::types::Anchored;

/// Returns the number of a kind of anchoring.
#[inline(always)]
fn mode(anchored: Anchored) -> usize
    ensures value { result ≡ mode_of anchored }
    ensures small { result < 2 ^ 32 }
{
    match anchored {
        Anchored::No => 0,
        Anchored::Yes => 1,
        Anchored::Pattern(pattern) => pattern.as_usize() + 2,
    }
}

/// Returns the column of the byte beside, or of an end.
#[inline(always)]
fn column(table: &Table, beside: Option<u8>) -> usize
    ensures value { result ≡ column table.now beside }
    ensures within { result ≤ table.now.width }
{
    match beside {
        Some(byte) => table.classes[byte as usize] as usize,
        None => table.width,
    }
}

/// Returns the cell at an index, or `QUIT` if there is none.
#[inline(always)]
fn cell_at(cells: &[usize], index: usize) -> usize
    ensures { result ≡ slice_index_or cells.now index QUIT }
{
    match cells.get(index) {
        Some(cell) => *cell,
        None => QUIT,
    }
}

/// Returns the start cell for a kind of anchoring and the byte beside, or an end. Returns `QUIT` if
/// that byte may not be read, or the table has no such start.
#[inline(always)]
pub(crate) fn start(table: &Table, anchored: Anchored, beside: Option<u8>) -> usize
    ensures value { result ≡ start_at table.now
        (mode_of anchored * (table.now.width + 1) + column table.now beside) }
    ensures named { IsNamed table.now.width (length table.now.cells.items) result }
{
    let column = column(table, beside);
    let mode = mode(anchored);
    if mode == 0 {
        return cell_at(table.starts.as_slice(), column);
    }
    let columns = table.width.saturating_add(1);
    let index = mode.saturating_mul(columns).saturating_add(column);
    cell_at(table.starts.as_slice(), index)
}
