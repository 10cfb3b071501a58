//! Rows: the cells of a cache, as runs read them.
use crate::store::Store;
use rc_table_search::rows::Rows;

impl Rows for Store {
    ghost use Rattle.std.specs.Prelude.{false};
    ghost use Rattle.rc_lazy_dfa.specs.Rows.{IsRowOf};

    const LEAPS: bool = false;

    ghost LEAPS = { false };

    ghost cells = { λ s. s.cells.items };

    ghost IsRow = { IsRowOf };

    #[inline(always)]
    fn cells(&self) -> &[usize] {
        self.cells.as_slice()
    }

    #[inline(always)]
    fn leap(
        &self,
        _classes: &[u8],
        _piece: &[u8],
        _from: usize,
        _start: usize,
        _row: usize,
        _looks: usize,
    ) -> Option<(usize, usize)> {
        None
    }
}
