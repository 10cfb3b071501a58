//! Acceleration: if few bytes lead out of a row, `memchr` finds the next one.
ghost use Rattle.std.specs.Prelude.{◌≡◌, ◌≢◌, ◌*◌, ◌<◌, ◌≤◌, ℕ, IfOk, IsTrue, false, length, slice_index_or};
ghost use Rattle.rc_dense_dfa.specs.Cells.{dead, met, skip};
ghost use Rattle.rc_dense_dfa.specs.Exits.{AreExitsOf, Stays, is_exit};
ghost use Rattle.rc_dense_dfa.specs.declared.exits.Exits.TheVariants as few;

use memchr::{memchr, memchr2, memchr3};
use rc_dfa::automaton::Direction;
use rc_table_search::cells::{DEAD, row_of};
use rc_text::frequency::is_common;
use std::alloc::{AllocError, Global};

/// The exits of a row: the bytes whose cells don't lead back to that row, or report a match.
#[derive(Clone, Copy)]
pub enum Exits {
    Zero,
    One(u8),
    Two(u8, u8),
    Three(u8, u8, u8),
    /// More than three, or one that is common in texts: a search for them doesn't pay.
    Many,
}

/// Adds an exit. A common byte counts as many, since a search for it would end too soon to pay.
fn with(exits: Exits, byte: u8) -> Exits
    ensures { (b : ℕ) → is_exit result b ≡ false → (is_exit exits b ≡ false) × (b ≢ byte) }
{
    if is_common(byte) {
        return Exits::Many;
    }
    match exits {
        Exits::Zero => Exits::One(byte),
        Exits::One(one) => Exits::Two(one, byte),
        Exits::Two(one, two) => Exits::Three(one, two, byte),
        _ => Exits::Many,
    }
}

/// Whether a search for the exits pays.
pub(crate) fn are_few(exits: Exits) -> bool {
    match exits {
        Exits::Many => false,
        _ => true,
    }
}

/// Whether the byte leads from the row back to it, without a match.
fn stays(classes: &[u8], cells: &[usize], row: usize, byte: usize) -> bool
    requires { row < met }
    ensures { IsTrue result → Stays dead classes.now cells.now row byte }
{
    let Some(class) = classes.get(byte) else {
        return false;
    };
    let Some(cell) = cells.get(row + *class as usize) else {
        return false;
    };
    *cell < DEAD && row_of(*cell) == row
}

/// Returns the exits of a row. It reads no further than to the byte by which they are many.
fn exits_from(classes: &[u8], cells: &[usize], row: usize) -> Exits
    requires { row < met }
    ensures { AreExitsOf dead classes.now cells.now row result }
{
    let mut exits = Exits::Zero;
    for byte in 0..256usize {
        if !stays(classes, cells, row, byte) {
            exits = with(exits, byte as u8);
            if !are_few(exits) {
                return Exits::Many;
            }
        }
    }
    exits
}

/// Returns the exits of each row. There are none for reverse searches, which read each byte. `Err`
/// means out of memory.
pub(crate) fn exits_of(
    alloc: Global,
    classes: &[u8],
    cells: &[usize],
    width: usize,
    direction: Direction,
) -> Result<Vec<Exits>, AllocError>
    requires wide { (0 < width) × (width < met) }
    requires small { length cells.now < skip }
    ensures { IfOk result (λ exits. (k : ℕ)
        → AreExitsOf dead classes.now cells.now (k * width)
        (slice_index_or exits.items k few.Many)) }
{
    let mut exits = Vec::new(alloc);
    if let Direction::Backwards = direction {
        return Ok(exits);
    }
    let mut row = 0;
    while row < cells.len() {
        exits.push(exits_from(classes, cells, row))?;
        row += width;
    }
    Ok(exits)
}

/// Returns the index of the first exit in the piece, or the piece's length. Returns 0 if there are
/// many exits.
pub(crate) fn first_exit(exits: Exits, piece: &[u8]) -> usize
    ensures within { result ≤ length piece.now }
    ensures passed { (k : ℕ) → k < result → is_exit exits (slice_index_or piece.now k 0) ≡ false }
{
    match exits {
        Exits::Zero => piece.len(),
        Exits::One(one) => memchr(one, piece).unwrap_or(piece.len()),
        Exits::Two(one, two) => memchr2(one, two, piece).unwrap_or(piece.len()),
        Exits::Three(one, two, three) => memchr3(one, two, three, piece).unwrap_or(piece.len()),
        Exits::Many => 0,
    }
}
