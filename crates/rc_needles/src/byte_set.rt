//! Byte set: a vector search for the first byte outside it, 16 bytes at a time.
//!
//! Two nibble tables, as Teddy has them, take the bytes outside. Those with the same high four bits
//! make a row; rows with the same low four bits share a bucket. So the bytes but digits take two
//! buckets: one for the row of `0`, which lacks `0` to `9`, and one for all others, which are full.
ghost use Rattle.std.specs.Prelude.{◌≡◌, ◌<◌, ◌≤◌, ℕ, IfSome, length, slice_index};
ghost use Rattle.std.proofs.Props.{props};
ghost use Rattle.rc_needles.specs.ByteSets.{TakesOutside};
ghost use Rattle.rc_needles.specs.Teddies.{buckets};

use crate::lanes::{lowest, marks_of};
use crate::teddy::Sift;

/// How many bytes are looked up at a time.
const LANES: usize = 16;

/// A set of bytes.
#[derive(Clone, Copy)]
pub struct ByteSet {
    /// For each byte, whether it is in the set.
    pub flags: [bool; 256],
    /// Tables that take each byte outside the set. None if that needs more than eight buckets.
    pub outside: Option<Sift>,
    ghost sifted: { IfSome outside (TakesOutside flags) } by { Prim.hlevel props },
}

/// Returns the rows of the bytes outside the set: for each high four bits, one bit for each low
/// four bits.
fn rows_outside(flags: &[bool; 256]) -> [u16; 16] {
    let mut rows = [0u16; 16];
    for byte in 0..256usize {
        if !flags[byte] {
            rows[byte / 16] |= 1 << (byte % 16);
        }
    }
    rows
}

/// Returns the bucket of an earlier row that is the same, or 0 if there is none.
fn shared_bucket(sift: &Sift, rows: &[u16; 16], high: usize) -> u8
    requires { high < 16 }
{
    for before in 0..high {
        if rows[before] == rows[high] {
            return sift.high[before];
        }
    }
    0
}

/// Puts the rows of bytes outside the set into buckets. Those past the eighth bucket get none.
fn filled(flags: &[bool; 256]) -> Sift {
    let rows = rows_outside(flags);
    let mut sift = Sift::new();
    let mut free: u8 = 1;
    for high in 0..16usize {
        if rows[high] != 0 {
            let mut bits = shared_bucket(&sift, &rows, high);
            if bits == 0 {
                bits = free;
                free <<= 1;
            }
            sift.add_row(high, rows[high], bits);
        }
    }
    sift
}

/// Returns tables that take each byte outside the set, if eight buckets are enough.
fn sift_of(flags: &[bool; 256]) -> Option<Sift>
    ensures { IfSome result (TakesOutside flags.now) }
{
    let sift = filled(flags);
    for byte in 0..256usize {
        if !flags[byte] && sift.taken(byte as u8) == 0 {
            return None;
        }
    }
    Some(sift)
}

/// Returns an index before which the tables take no byte: that of the first that they take, or one
/// among the last 15.
#[inline(always)]
fn sifted(sift: &Sift, piece: &[u8]) -> usize
    ensures within { result ≤ length piece.now }
    ensures none { (k : ℕ) → k < result → buckets sift.now (slice_index piece.now k) ≡ 0 }
{
    let mut at = 0;
    while piece.len() - at >= LANES {
        let marks = marks_of(sift.lanes(piece, at));
        if marks != 0 {
            return at + lowest(marks);
        }
        at += LANES;
    }
    at
}

impl ByteSet {
    ghost use Rattle.std.specs.Prelude.{◌≡◌, ◌<◌, ◌≤◌, false, length, slice_index_or};
    ghost use Rattle.rc_needles.specs.ByteSets.{AreInside};

    /// The set of the bytes with a flag.
    pub fn new(flags: [bool; 256]) -> ByteSet
        ensures { result.flags ≡ flags }
    {
        ByteSet {
            flags,
            outside: sift_of(&flags),
        }
    }

    /// Whether the byte at an index of a piece is in the set.
    #[inline(always)]
    fn has_at(&self, piece: &[u8], index: usize) -> bool
        requires { index < length piece.now }
        ensures { result ≡ slice_index_or self.now.flags (slice_index_or piece.now index 0) false }
    {
        self.flags[piece[index] as usize]
    }

    /// Returns the index of the first byte of the piece that is outside the set, or the piece's
    /// length.
    #[inline(always)]
    pub fn first_outside(&self, piece: &[u8]) -> usize
        ensures within { result ≤ length piece.now }
        ensures passed { AreInside self.now.flags piece.now result }
    {
        let mut index = match &self.outside {
            Some(sift) => sifted(sift, piece),
            None => 0,
        };
        while index < piece.len() && self.has_at(piece, index) {
            index += 1;
        }
        index
    }
}
