//! Run: the loop over the bytes of a piece, four at a time, by the cells of a table.
ghost use Rattle.std.specs.Prelude.{◌≡◌, ◌+◌, ◌<◌, ◌≤◌, ℕ, length};
ghost use Rattle.rc_table_search.specs.Walks.{AreRows, HasByte, Reaches, Walk, cell_of, left_of, next_of};

use crate::cells::{DEAD, MET, SKIP};
use crate::rows::Rows;
use crate::way::{Way, byte, left, next};

/// A run between two bytes: its row, and its last find.
#[derive(Clone, Copy)]
pub struct Stand {
    /// The row of its state.
    pub row: usize,
    /// The row that has what was found last, and the position of that; None if nothing was found.
    pub noted: Option<(usize, usize)>,
}

/// How far a search reads.
#[derive(Clone, Copy)]
pub struct Extent {
    /// Whether it ends at its first find.
    pub earliest: bool,
    /// Whether it may end where nothing is under way.
    pub may_rest: bool,
    /// The position before which it should not end so.
    pub rest_from: usize,
}

/// Where a run stops for a look.
#[derive(Clone, Copy)]
pub struct Stops {
    /// A cell with `MET` needs a look if this is 0, and none if it is `SKIP`.
    pub limit: usize,
    /// The position from which on a search rests if it may, or `usize::MAX` if it may not.
    pub looks: usize,
}

/// Returns where a run stops for a look.
#[inline(always)]
pub fn stops_of(extent: Extent) -> Stops
    ensures { result.limit ≤ SKIP }
{
    Stops {
        limit: if extent.earliest { 0 } else { SKIP },
        looks: if extent.may_rest {
            extent.rest_from
        } else {
            usize::MAX
        },
    }
}

/// Returns the cell to which the byte leads that is read next. If it has no mark, it is the row of
/// the run after that byte.
#[inline(always)]
fn cell_at<W: Way, R: Rows>(
    rows: &R,
    cells: &[usize],
    classes: &[u8],
    piece: &[u8],
    place: usize,
    stand: Stand,
) -> usize
    ghost walk: { Walk }
    requires way { walk.backwards ≡ W.BACKWARDS }
    requires same { walk.cells ≡ R.cells rows.now }
    requires cells { cells.now ≡ walk.cells }
    requires classes { classes.now ≡ walk.classes }
    requires piece { piece.now ≡ walk.piece }
    requires rows { AreRows (R.IsRow rows.now walk.classes) R.LEAPS walk.cells walk.classes }
    requires row { R.IsRow rows.now walk.classes stand.row }
    requires reaches { Reaches walk place stand.row stand.noted }
    requires byte { HasByte walk place }
    ensures cell { result ≡ cell_of walk place stand.row }
    ensures row { result < SKIP → R.IsRow rows.now walk.classes result }
    ensures reaches { result < SKIP → Reaches walk (next_of walk.backwards place) result
        stand.noted }
{
    cells[stand.row + classes[byte::<W>(piece, place) as usize] as usize]
}

/// Runs over bytes whose cells have no mark, four at a time. Returns the place after them, and the
/// row there. Fewer than four bytes are left, or the next cell has a mark.
#[inline(always)]
fn stride<W: Way, R: Rows>(
    rows: &R,
    cells: &[usize],
    classes: &[u8],
    piece: &[u8],
    from: usize,
    start: usize,
    stand: Stand,
) -> (usize, usize)
    ghost walk: { Walk }
    requires way { walk.backwards ≡ W.BACKWARDS }
    requires same { walk.cells ≡ R.cells rows.now }
    requires cells { cells.now ≡ walk.cells }
    requires classes { classes.now ≡ walk.classes }
    requires piece { piece.now ≡ walk.piece }
    requires rows { AreRows (R.IsRow rows.now walk.classes) R.LEAPS walk.cells walk.classes }
    requires row { R.IsRow rows.now walk.classes stand.row }
    requires start { start ≡ walk.start }
    requires reaches { Reaches walk from stand.row stand.noted }
    requires from { from ≤ length piece.now }
    ensures within { result.0 ≤ length piece.now }
    ensures on { left_of walk.backwards (length piece.now) result.0
        ≤ left_of walk.backwards (length piece.now) from }
    ensures row { R.IsRow rows.now walk.classes result.1 }
    ensures reaches { Reaches walk result.0 result.1 stand.noted }
{
    let noted = stand.noted;
    let mut row = stand.row;
    let mut place = from;
    while left::<W>(piece, place) >= 4 {
        let here = Stand { row, noted };
        let first = cell_at::<W, R>(rows, cells, classes, piece, place, here);
        if first >= SKIP {
            return (place, row);
        }
        let at = next::<W>(piece, place);
        let here = Stand { row: first, noted };
        let second = cell_at::<W, R>(rows, cells, classes, piece, at, here);
        if second >= SKIP {
            return (at, first);
        }
        let at = next::<W>(piece, at);
        let here = Stand { row: second, noted };
        let third = cell_at::<W, R>(rows, cells, classes, piece, at, here);
        if third >= SKIP {
            return (at, second);
        }
        let at = next::<W>(piece, at);
        let here = Stand { row: third, noted };
        let fourth = cell_at::<W, R>(rows, cells, classes, piece, at, here);
        if fourth >= SKIP {
            return (at, third);
        }
        row = fourth;
        place = next::<W>(piece, at);
    }
    (place, row)
}

/// Runs over bytes that lead from the row to itself, each with a find. Returns the place after
/// them, and how the run stands there.
#[inline(always)]
fn stay<W: Way, R: Rows>(
    rows: &R,
    cells: &[usize],
    classes: &[u8],
    piece: &[u8],
    from: usize,
    start: usize,
    stand: Stand,
) -> (usize, Stand)
    ghost walk: { Walk }
    requires way { walk.backwards ≡ W.BACKWARDS }
    requires same { walk.cells ≡ R.cells rows.now }
    requires cells { cells.now ≡ walk.cells }
    requires classes { classes.now ≡ walk.classes }
    requires piece { piece.now ≡ walk.piece }
    requires rows { AreRows (R.IsRow rows.now walk.classes) R.LEAPS walk.cells walk.classes }
    requires row { R.IsRow rows.now walk.classes stand.row }
    requires small { stand.row < SKIP }
    requires start { start ≡ walk.start }
    requires reaches { Reaches walk from stand.row stand.noted }
    requires from { from ≤ length piece.now }
    requires fits { start + length piece.now ≤ usize.MAX }
    ensures within { result.0 ≤ length piece.now }
    ensures on { left_of walk.backwards (length piece.now) result.0
        ≤ left_of walk.backwards (length piece.now) from }
    ensures row { result.1.row ≡ stand.row }
    ensures reaches { Reaches walk result.0 stand.row result.1.noted }
{
    let row = stand.row;
    let mut noted = stand.noted;
    let mut place = from;
    while left::<W>(piece, place) > 0 {
        let here = Stand { row, noted };
        let cell = cell_at::<W, R>(rows, cells, classes, piece, place, here);
        if cell != row + MET {
            return (place, here);
        }
        noted = Some((row, start + place));
        place = next::<W>(piece, place);
    }
    (place, Stand { row, noted })
}

/// Runs over the bytes of a piece from the place `from` on, up to one whose cell needs a look. The
/// piece begins at the position `start`. Returns the place of that byte, and how the run stands
/// there. A cell with `SKIP` alone needs a look unless the rows leap there.
#[inline(never)]
pub fn run<W: Way, R: Rows>(
    rows: &R,
    classes: &[u8],
    piece: &[u8],
    from: usize,
    start: usize,
    stand: Stand,
    stops: Stops,
) -> (usize, Stand)
    requires rows { AreRows (R.IsRow rows.now classes.now) R.LEAPS (R.cells rows.now) classes.now }
    requires row { R.IsRow rows.now classes.now stand.row }
    requires fits { start + length piece.now ≤ usize.MAX }
    requires limit { stops.limit ≤ SKIP }
    requires from { from ≤ length piece.now }
    ensures within { result.0 ≤ length piece.now }
    ensures on { left_of W.BACKWARDS (length piece.now) result.0
        ≤ left_of W.BACKWARDS (length piece.now) from }
    ensures row { R.IsRow rows.now classes.now result.1.row }
    ensures reaches { Reaches (record {
      backwards = W.BACKWARDS;
      leaps = R.LEAPS;
      cells = R.cells rows.now;
      classes = classes.now;
      piece = piece.now;
      start = start;
      from = from;
      first = stand.row;
      before = stand.noted;
    }) result.0 result.1.row result.1.noted }
{
    let cells = rows.cells();
    let mut row = stand.row;
    let mut noted = stand.noted;
    let mut place = from;
    while left::<W>(piece, place) > 0 {
        let cell = cells[row + classes[byte::<W>(piece, place) as usize] as usize];
        if cell < SKIP {
            let here = Stand { row: cell, noted };
            let at = next::<W>(piece, place);
            let (read, behind) = stride::<W, R>(rows, cells, classes, piece, at, start, here);
            place = read;
            row = behind;
        } else if cell < MET {
            if W::BACKWARDS || !R::LEAPS || cell >= DEAD {
                return (place, Stand { row, noted });
            }
            let at = next::<W>(piece, place);
            let to = cell - SKIP;
            let Some((read, behind)) = rows.leap(classes, piece, at, start, to, stops.looks) else {
                return (place, Stand { row, noted });
            };
            row = behind;
            place = read;
        } else {
            if cell - MET >= stops.limit {
                return (place, Stand { row, noted });
            }
            row = cell - MET;
            let here = Stand {
                row,
                noted: Some((row, start + place)),
            };
            let at = next::<W>(piece, place);
            let (read, there) = stay::<W, R>(rows, cells, classes, piece, at, start, here);
            noted = there.noted;
            place = read;
        }
    }
    (place, Stand { row, noted })
}
