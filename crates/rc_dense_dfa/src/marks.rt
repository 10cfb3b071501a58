//! Special states: puts the mark `SKIP` on cells that lead to rows where a search may have more to
//! do than to read on.
ghost use Rattle.std.specs.Prelude.{◌<◌};
ghost use Rattle.rc_dense_dfa.specs.Cells.{AreMarked, IsMarkedAs};

use rc_table_search::cells::{QUIT, SKIP, row_of};

/// Returns the cell, with the mark `SKIP` if its row has the hint.
fn marked(cell: usize, width: usize, hints: &[bool]) -> usize
    requires { 0 < width }
    ensures { IsMarkedAs cell result }
{
    let hint = match hints.get(row_of(cell) / width) {
        Some(hint) => *hint,
        None => false,
    };
    if cell == QUIT || !hint {
        return cell;
    }
    match cell.checked_add(SKIP) {
        Some(more) => more,
        None => cell,
    }
}

/// Marks each cell whose row has a hint; there is one hint a row.
pub(crate) fn mark(cells: &mut Vec<usize>, width: usize, hints: &[bool])
    requires { 0 < width }
    ensures { AreMarked cells.old.items cells.new.items }
{
    for cell in cells.iter_mut() {
        *cell = marked(*cell, width, hints);
    }
}
