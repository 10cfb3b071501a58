//! Rows: what a run reads of a table.
ghost use Rattle.std.specs.Prelude.{◌≡◌, ◌+◌, ◌≤◌, ℕ, Bool, List, IfSome, Option, true, false, length};
ghost use Rattle.rc_table_search.specs.Walks.{Reaches};

/// The rows of a table, in one direction. Each state has a row of cells, one for each byte class.
pub trait Rows {
    /// Whether a run may leap over bytes at a cell with `SKIP` alone.
    const LEAPS: bool;

    ghost LEAPS: { Bool };

    // The cells, one row after another.
    ghost cells: { Self → List ℕ };
    // By these classes of the bytes, a row begins at this index.
    ghost IsRow: { Self → List ℕ → ℕ → Type 0 };

    /// Returns the cells, one row after another.
    fn cells(&self) -> &[usize]
        ensures { result.now ≡ cells self.now };

    /// Leaps over bytes of a piece from the place `from` on, where a run forwards came to the row
    /// by a cell with `SKIP`. Returns the place to which it leapt, and the row there. Returns None
    /// if that cell needs a look, as each does if runs don't leap over this table. From the position
    /// `looks` on, the search may rest.
    fn leap(
        &self,
        classes: &[u8],
        piece: &[u8],
        from: usize,
        start: usize,
        row: usize,
        looks: usize,
    ) -> Option<(usize, usize)>
        requires row { IsRow self.now classes.now row }
        requires fits { start + length piece.now ≤ usize.MAX }
        requires from { from ≤ length piece.now }
        ensures read { IfSome result (λ read. (from ≤ read.0) × (read.0 ≤ length piece.now)) }
        ensures row { IfSome result (λ read. IsRow self.now classes.now read.1) }
        ensures reaches { IfSome result (λ read. (noted : Option (ℕ × ℕ)) → Reaches (record {
          backwards = false;
          leaps = true;
          cells = cells self.now;
          classes = classes.now;
          piece = piece.now;
          start = start;
          from = from;
          first = row;
          before = noted;
        }) read.0 read.1 noted) };
}
