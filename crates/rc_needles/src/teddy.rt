//! Teddy: a vector search for the first three bytes of up to 64 needles, at 32 indices at a time.
//!
//! Take `catch` in bucket A and `dogma` in bucket B. Two tables of 16 entries, for the low and the
//! high four bits of a byte, say which buckets take it; both must. As a third byte, `d` (64) isn't
//! taken: it has the low bits of `t` (74) in A, and the high bits of `g` (67) in B.
//!
//!     text        t  h  e  ␣  d  o  g  m  a
//!     first byte  .  .  .  .  B  .  .  .  .
//!     second, +1  .  .  .  .  B  .  .  A
//!     third, +2   .  .  .  .  B  .  .           so only `dogma` can begin, and only at 4
ghost use Rattle.std.specs.Prelude.{◌≡◌, ◌+◌, ◌++◌, ◌*◌, ◌/◌, ◌<◌, ◌≤◌, ◌^◌, ℕ, IfSome, IsTrue, List, length, slice_index};
ghost use Rattle.std.specs.Int.{bit_at};
ghost use Rattle.rc_needles.specs.Teddies.{AreLanes, AreMarked, AreSifted, HaveBegun, IsSifted, buckets};
ghost use Rattle.rc_needles.specs.Tables.{Agrees, needles_in};

use crate::lanes::{has_some, lowest, marks_of};
use std::simd::prelude::*;

/// How many indices a vector covers: half of those that are looked up at a time.
const HALF: usize = 16;

/// How many indices are looked up at a time.
const LANES: usize = 2 * HALF;

/// The shortest piece that Teddy searches: the bytes of a vector, and two that are read after them.
pub const LEAST_PIECE: usize = HALF + 2;

/// The shortest piece in which each byte is looked up only once.
const LEAST_BLOCKS: usize = LANES + 3;

/// The most needles that Teddy serves.
const GREATEST_COUNT: usize = 64;

/// The number of buckets.
const BUCKETS: usize = 8;

/// Two nibble tables: which buckets take a byte, one bit a bucket. A bucket takes it if it takes
/// its low and its high four bits.
#[derive(Clone, Copy)]
pub struct Sift {
    pub low: [u8; 16],
    pub high: [u8; 16],
}

/// Which buckets take a byte as the first, the second and the third of a needle.
///
/// Each needle is in a bucket, which takes any byte after the needle's end. If all needles have one
/// byte, `is_set` is true, and the second and third bytes aren't looked up.
#[derive(Clone, Copy)]
pub struct Teddy {
    pub is_set: bool,
    pub first: Sift,
    pub second: Sift,
    pub third: Sift,
}

/// The buckets that take each of 16 bytes as the first byte of a needle, and those that take it as
/// the second.
#[derive(Clone, Copy)]
struct Begun {
    first: u8x16,
    second: u8x16,
}

impl Sift {
    /// Returns tables by which no bucket takes any byte.
    pub(crate) fn new() -> Sift {
        Sift {
            low: [0; 16],
            high: [0; 16],
        }
    }

    /// Lets the buckets of these bits take the byte too.
    fn add(&mut self, byte: u8, bits: u8) {
        self.low[(byte % 16) as usize] |= bits;
        self.high[(byte / 16) as usize] |= bits;
    }

    /// Lets the buckets of these bits take the bytes of a row too: those with these high four bits
    /// of which the row has a bit for the low ones.
    pub(crate) fn add_row(&mut self, high: usize, row: u16, bits: u8)
        requires { high < 16 }
    {
        self.high[high] |= bits;
        for low in 0..16usize {
            if row >> low & 1 == 1 {
                self.low[low] |= bits;
            }
        }
    }

    /// Lets the buckets of these bits take the needle's byte at an index too, or any byte if that
    /// is after its end.
    fn add_at(&mut self, needle: &[u8], at: usize, bits: u8) {
        match needle.get(at) {
            Some(byte) => self.add(*byte, bits),
            None => {
                for half in 0..16usize {
                    self.low[half] |= bits;
                    self.high[half] |= bits;
                }
            }
        }
    }

    /// Returns the buckets that take the byte.
    pub(crate) fn taken(&self, byte: u8) -> u8
        ensures { result ≡ buckets self.now byte }
    {
        self.low[(byte % 16) as usize] & self.high[(byte / 16) as usize]
    }

    /// Returns the buckets that take every byte.
    fn taken_always(&self) -> u8
        ensures { (k : ℕ) → bit_at result k ≡ 1 → (byte : ℕ) → byte < 256
            → bit_at (buckets self.now byte) k ≡ 1 }
    {
        let mut bits = 255;
        for half in 0..16usize {
            bits &= self.low[half] & self.high[half];
        }
        bits
    }

    /// Returns the buckets that take the needle's byte at an index, or every byte if that is after
    /// its end.
    fn taken_at(&self, needle: &[u8], at: usize) -> u8
        ensures { (k : ℕ) → bit_at result k ≡ 1 → (byte : ℕ) → byte < 256
            → (at < length needle.now → byte ≡ slice_index needle.now at)
            → bit_at (buckets self.now byte) k ≡ 1 }
    {
        match needle.get(at) {
            Some(byte) => self.taken(*byte),
            None => self.taken_always(),
        }
    }

    /// Returns the buckets that take each of the 16 bytes from `at` on.
    #[inline(always)]
    pub(crate) fn lanes(&self, piece: &[u8], at: usize) -> u8x16
        requires { at + 16 ≤ length piece.now }
        ensures { AreLanes result (λ k. buckets self.now (slice_index piece.now (at + k))) }
    {
        let bytes = u8x16::from_slice(&piece[at..]);
        let lows = bytes & u8x16::splat(15);
        let highs = bytes >> u8x16::splat(4);
        let low = u8x16::from_slice(&self.low).swizzle_dyn(lows);
        let high = u8x16::from_slice(&self.high).swizzle_dyn(highs);
        low & high
    }
}

impl Begun {
    /// The buckets before any byte: none.
    #[inline(always)]
    fn new() -> Begun
        ensures { (s : Teddy) (piece : List ℕ) → HaveBegun s piece 0 result }
    {
        Begun {
            first: u8x16::splat(0),
            second: u8x16::splat(0),
        }
    }
}

impl Teddy {
    /// Whether a bucket takes the needle, whatever follows it.
    fn takes(&self, needle: &[u8]) -> bool
        ensures { IsTrue result → IsSifted self.now needle.now }
    {
        let bits = self.first.taken_at(needle, 0)
            & (self.second.taken_at(needle, 1) & self.third.taken_at(needle, 2));
        bits != 0
    }

    /// Returns the buckets that take the three bytes from `at + k` on, for each k below 16. If all
    /// needles have one byte, only the first is looked up.
    #[inline(always)]
    fn taken_from(&self, piece: &[u8], at: usize) -> u8x16
        requires { at + 18 ≤ length piece.now }
        ensures long { length result ≡ 16 }
        ensures set { AreMarked self.now piece.now 0 16 at (slice_index result) }
    {
        let first = self.first.lanes(piece, at);
        if self.is_set {
            return first;
        }
        let second = self.second.lanes(piece, at + 1);
        let third = self.third.lanes(piece, at + 2);
        first & (second & third)
    }

    /// Looks up each of the 16 bytes from `at` on, as a first and as a second byte.
    #[inline(always)]
    fn begun(&self, piece: &[u8], at: usize) -> Begun
        requires { at + 16 ≤ length piece.now }
        ensures { HaveBegun self.now piece.now (at + 16) result }
    {
        Begun {
            first: self.first.lanes(piece, at),
            second: self.second.lanes(piece, at),
        }
    }

    /// Returns the buckets that take three bytes of which the last is at `at + k`, for each k below
    /// 16. `now` has the lookups of these 16 bytes, `before` those of the 16 bytes before them.
    #[inline(always)]
    fn taken_behind(&self, before: Begun, now: Begun, piece: &[u8], at: usize) -> u8x16
        requires inside { at + 16 ≤ length piece.now }
        requires before { HaveBegun self.now piece.now at before }
        requires now { HaveBegun self.now piece.now (at + 16) now }
        ensures long { length result ≡ 16 }
        ensures set { AreMarked self.now piece.now 2 16 at (slice_index result) }
    {
        let first = two_back(before.first, now.first);
        let second = one_back(before.second, now.second);
        first & (second & self.third.lanes(piece, at))
    }

    /// Returns the first index of the piece at which a bucket takes three bytes. If there is none,
    /// it is the index of the last two bytes.
    #[inline(never)]
    pub fn place(&self, piece: &[u8]) -> usize
        requires { LEAST_PIECE ≤ length piece.now }
        ensures within { result + 2 ≤ length piece.now }
        ensures passed { (needle : List ℕ) → IsSifted self.now needle → (k : ℕ) → k < result
            → ¬ Agrees piece.now needle k }
    {
        if self.is_set || piece.len() < LEAST_BLOCKS {
            return self.place_by_places(piece);
        }
        self.place_by_blocks(piece)
    }

    /// Returns the first index at which a bucket takes three bytes, or that of the last two bytes.
    /// It looks up the three bytes of each index.
    #[inline(always)]
    fn place_by_places(&self, piece: &[u8]) -> usize
        requires { LEAST_PIECE ≤ length piece.now }
        ensures within { result + 2 ≤ length piece.now }
        ensures passed { (needle : List ℕ) → IsSifted self.now needle → (k : ℕ) → k < result
            → ¬ Agrees piece.now needle k }
    {
        let last = piece.len() - LEAST_PIECE;
        let mut at = 0;
        while at + HALF < last {
            let low = self.taken_from(piece, at);
            let high = self.taken_from(piece, at + HALF);
            let marks = marks_of_both(low, high);
            if marks != 0 {
                return at + lowest(marks);
            }
            at += LANES;
        }
        self.place_at_end(piece, at)
    }

    /// Returns the first index at which a bucket takes three bytes, or that of the last two bytes.
    /// It looks up each byte once, and shifts the lookups of the vector before.
    #[inline(always)]
    fn place_by_blocks(&self, piece: &[u8]) -> usize
        requires { LEAST_BLOCKS ≤ length piece.now }
        ensures within { result + 2 ≤ length piece.now }
        ensures passed { (needle : List ℕ) → IsSifted self.now needle → (k : ℕ) → k < result
            → ¬ Agrees piece.now needle k }
    {
        let last = piece.len() - LANES;
        let mut before = Begun::new();
        let mut at = 0;
        while at <= last {
            let low = self.begun(piece, at);
            let high = self.begun(piece, at + HALF);
            let lows = self.taken_behind(before, low, piece, at);
            let highs = self.taken_behind(low, high, piece, at + HALF);
            let marks = marks_of_both(lows, highs);
            if marks != 0 {
                return (at + lowest(marks)).saturating_sub(2);
            }
            before = high;
            at += LANES;
        }
        if at == piece.len() {
            return piece.len() - 2;
        }
        self.place_at_end(piece, at.saturating_sub(2))
    }

    /// Returns the first index from `from` on at which a bucket takes three bytes, or that of the
    /// last two bytes. At most 32 indices are left.
    #[inline(never)]
    fn place_at_end(&self, piece: &[u8], from: usize) -> usize
        requires long { LEAST_PIECE ≤ length piece.now }
        requires near { length piece.now ≤ from + 34 }
        ensures within { result + 2 ≤ length piece.now }
        ensures passed { (needle : List ℕ) → IsSifted self.now needle → (k : ℕ) → from ≤ k
            → k < result → ¬ Agrees piece.now needle k }
    {
        let last = piece.len() - LEAST_PIECE;
        if from < last {
            let marks = marks_of(self.taken_from(piece, from));
            if marks != 0 {
                return from + lowest(marks);
            }
        }
        let marks = marks_of(self.taken_from(piece, last));
        if marks != 0 {
            return last + lowest(marks);
        }
        piece.len() - 2
    }
}

/// Returns 16 of the 32 numbers of two vectors: those that end two before the end.
#[inline(always)]
fn two_back(before: u8x16, now: u8x16) -> u8x16
    ensures { AreLanes result (λ k. slice_index (before ++ now) (14 + k)) }
{
    before.shuffle(
        now,
        [
            14, 15, 16, 17, 18, 19, 20, 21, 22, 23, 24, 25, 26, 27, 28, 29,
        ],
    )
}

/// Returns 16 of the 32 numbers of two vectors: those that end one before the end.
#[inline(always)]
fn one_back(before: u8x16, now: u8x16) -> u8x16
    ensures { AreLanes result (λ k. slice_index (before ++ now) (15 + k)) }
{
    before.shuffle(
        now,
        [
            15, 16, 17, 18, 19, 20, 21, 22, 23, 24, 25, 26, 27, 28, 29, 30,
        ],
    )
}

/// Returns a number whose bit k is set if the number at k of the two vectors isn't 0.
#[inline(always)]
fn marks_of_both(low: u8x16, high: u8x16) -> u64
    requires low { length low ≡ 16 }
    requires high { length high ≡ 16 }
    ensures small { result < 2 ^ 32 }
    ensures low { (k : ℕ) → k < 16 → 0 < slice_index low k → 0 < bit_at result k }
    ensures high { (k : ℕ) → k < 16 → 0 < slice_index high k → 0 < bit_at result (16 + k) }
{
    if !has_some(low | high) {
        return 0;
    }
    marks_of(low) | marks_of(high) << HALF
}

/// Builds the tables for these needles. Returns None if they are too many, or the tables don't take
/// each of them.
pub fn teddy_of(needles: &[Vec<u8>]) -> Option<Teddy>
    ensures { IfSome result (λ s. AreSifted s (needles_in needles.now)) }
{
    if needles.len() > GREATEST_COUNT {
        return None;
    }
    let teddy = filled(needles);
    for needle in needles {
        if !teddy.takes(needle.as_slice()) {
            return None;
        }
    }
    Some(teddy)
}

/// Puts each of the needles into a bucket. Needles that are neighbours in the order of their first
/// three bytes share one.
fn filled(needles: &[Vec<u8>]) -> Teddy {
    let mut teddy = Teddy {
        is_set: needles.iter().all(|needle| needle.len() == 1),
        first: Sift::new(),
        second: Sift::new(),
        third: Sift::new(),
    };
    for needle in needles {
        let needle = needle.as_slice();
        let bits = bucket_of(needles, needle);
        teddy.first.add_at(needle, 0, bits);
        teddy.second.add_at(needle, 1, bits);
        teddy.third.add_at(needle, 2, bits);
    }
    teddy
}

/// Returns the bit of a needle's bucket.
fn bucket_of(needles: &[Vec<u8>], needle: &[u8]) -> u8 {
    let own = beginning(needle);
    let mut rank: usize = 0;
    for other in needles {
        if beginning(other.as_slice()) < own {
            rank = rank.saturating_add(1);
        }
    }
    let bucket = rank.saturating_mul(BUCKETS) / needles.len().max(1);
    1 << (bucket % BUCKETS)
}

/// Returns the first three bytes as a number, by which needles are ordered.
fn beginning(needle: &[u8]) -> u32 {
    let mut number = 0;
    for at in 0..3usize {
        let byte = match needle.get(at) {
            Some(byte) => *byte,
            None => 0,
        };
        number = number << 8 | u32::from(byte);
    }
    number
}
