//! Rows: the cells of a table, as runs read them, and leaps over bytes.
use crate::leaps::leap_end;
use crate::look::{cell_of, leap_at};
use crate::table::Table;
use rc_table_search::cells::row_of;
use rc_table_search::rows::Rows;

impl Rows for Table {
    ghost use Rattle.std.specs.Prelude.{true};
    ghost use Rattle.rc_dense_dfa.specs.Searches.{IsRowBy};

    const LEAPS: bool = true;

    ghost LEAPS = { true };

    ghost cells = { λ d. d.cells.items };

    ghost IsRow = { IsRowBy };

    #[inline(always)]
    fn cells(&self) -> &[usize] {
        self.cells.as_slice()
    }

    // Bytes are leapt over up to the first that may leave the two rows. No byte is read if the row
    // has no leap. A cell needs a look if the search may rest there, or if the row has no leap and
    // some row has few exits.
    #[inline(always)]
    fn leap(
        &self,
        _classes: &[u8],
        piece: &[u8],
        from: usize,
        start: usize,
        row: usize,
        looks: usize,
    ) -> Option<(usize, usize)> {
        let Some(leap) = leap_at(self, row) else {
            if self.skips || start + from > looks {
                return None;
            }
            return Some((from, row));
        };
        let end = leap_end(leap, row, from, piece.len(), start, looks)?;
        let part = &piece[from..end];
        let passed = leap.stays.first_outside(part);
        if passed == 0 {
            return Some((from, row));
        }
        let cell = cell_of(self, row, part[passed - 1]);
        Some((from + passed, row_of(cell)))
    }
}
