//! Cells: the numbers of a table. A cell names the row to which a byte leads, by the index of that
//! row's first cell. A cell below `SKIP` has no mark, so a run follows it without a further look.
ghost use Rattle.std.specs.Prelude.{◌≡◌};
ghost use Rattle.rc_table_search.specs.Walks.{has_died, row_of};

/// Added to the name of a row if something was found on the way to it.
pub const MET: usize = 1 << 63;

/// Added to the name of a dead row.
pub const DEAD: usize = 1 << 62;

/// The least mark.
pub const SKIP: usize = 1 << 61;

/// The cell of a byte that may not be read.
pub const QUIT: usize = usize::MAX;

/// Returns the row to which a cell leads, without its marks.
#[inline(always)]
pub fn row_of(cell: usize) -> usize
    ensures { result ≡ row_of cell }
{
    cell % SKIP
}

/// Whether nothing goes on where a cell leads. It doesn't from `QUIT`.
#[inline(always)]
pub fn has_died(cell: usize) -> bool
    ensures { result ≡ has_died cell }
{
    cell % MET >= DEAD
}
