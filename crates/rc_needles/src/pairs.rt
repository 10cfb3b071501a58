//! Packed pair: two neighbouring bytes, searched for at 32 indices of a piece at a time, or at 64
//! where none stands.
ghost use Rattle.std.specs.Prelude.{◌≡◌, ◌+◌, ◌<◌, ◌≤◌, ◌^◌, ℕ, IsTrue, length, slice_index};
ghost use Rattle.std.specs.Int.{bit_at};
ghost use Rattle.rc_needles.specs.Pairs.{HasBegun, HasPair};
ghost use Rattle.rc_needles.specs.Tables.{Agrees};

use crate::lanes::{has_some, lowest};
use std::simd::prelude::*;

/// How many indices a vector covers.
pub const LANES: usize = 32;

/// How many indices are looked at together where no pair stands.
const BLOCK: usize = 64;

/// Whether the two bytes are nowhere side by side, and the first of them isn't the piece's last
/// byte.
#[inline(always)]
pub fn are_nowhere(piece: &[u8], first: u8, second: u8) -> bool
    requires { 33 ≤ length piece.now }
    ensures { IsTrue result → (k : ℕ) → k < length piece.now → ¬ HasBegun first second piece.now k }
{
    let end = piece.len() - 1;
    let last = end - LANES;
    let mut at = 0;
    while at < last {
        if pairs_from(piece, at, first, second) != 0 {
            return false;
        }
        at += LANES;
    }
    pairs_from(piece, last, first, second) == 0 && piece[end] != first
}

/// Returns the first index at which the piece has the bytes of `rest`, as far as both go, or an
/// earlier candidate near the piece's end. If there is none, it is the piece's length.
#[inline(never)]
pub fn first_place(piece: &[u8], rest: &[u8]) -> usize
    requires long { 33 ≤ length piece.now }
    requires some { 2 ≤ length rest.now }
    ensures within { result ≤ length piece.now }
    ensures passed { (k : ℕ) → k < result → ¬ Agrees piece.now rest.now k }
{
    let (first, second) = (rest[0], rest[1]);
    let last = piece.len() - 1 - LANES;
    let mut at = 0;
    while at < last {
        let pairs = pairs_from(piece, at, first, second);
        if pairs == 0 {
            at = past_blocks(piece, at + LANES, first, second);
        } else {
            at += lowest(pairs);
            if begin_alike(&piece[at..], rest) {
                return at;
            }
            at += 1;
        }
    }
    place_at_end(piece, first, second)
}

/// Returns an index from `from` on up to which no two such bytes begin: that of the first 64 indices
/// among which they do, or one of the last 64.
#[inline(always)]
fn past_blocks(piece: &[u8], from: usize, first: u8, second: u8) -> usize
    requires { from ≤ length piece.now }
    ensures on { from ≤ result }
    ensures within { from < length piece.now → result < length piece.now }
    ensures none { (k : ℕ) → from ≤ k → k < result → ¬ HasPair first second piece.now k }
{
    let mut at = from;
    while piece.len() - at > BLOCK {
        let low = pair_lanes(piece, at, first, second) | pair_lanes(piece, at + 16, first, second);
        let high = pair_lanes(piece, at + 32, first, second)
            | pair_lanes(piece, at + 48, first, second);
        if has_some(low | high) {
            return at;
        }
        at += BLOCK;
    }
    at
}

/// Returns 16 numbers, of which the one at k isn't 0 if the two bytes are side by side at the index
/// `at + k`.
#[inline(always)]
fn pair_lanes(piece: &[u8], at: usize, first: u8, second: u8) -> u8x16
    requires { at + 17 ≤ length piece.now }
    ensures long { length result ≡ 16 }
    ensures set { (k : ℕ) → k < 16 → HasPair first second piece.now (at + k)
        → 0 < slice_index result k }
{
    byte_lanes(piece, at, first) & byte_lanes(piece, at + 1, second)
}

/// Returns 16 numbers: 255 at k if the piece has the byte at the index `at + k`, else 0.
#[inline(always)]
fn byte_lanes(piece: &[u8], at: usize, byte: u8) -> u8x16
    requires { at + 16 ≤ length piece.now }
    ensures long { length result ≡ 16 }
    ensures set { (k : ℕ) → k < 16 → slice_index piece.now (at + k) ≡ byte
        → slice_index result k ≡ 255 }
{
    let bytes = u8x16::from_slice(&piece[at..]);
    bytes
        .simd_eq(u8x16::splat(byte))
        .select(u8x16::splat(255), u8x16::splat(0))
}

/// Returns the first of the piece's last 33 indices at which the two bytes are side by side, or the
/// first of them is the last byte. If there is none, it is the piece's length.
#[inline(always)]
fn place_at_end(piece: &[u8], first: u8, second: u8) -> usize
    requires { 33 ≤ length piece.now }
    ensures within { result ≤ length piece.now }
    ensures passed { (k : ℕ) → length piece.now ≤ k + 33 → k < result
        → ¬ HasBegun first second piece.now k }
{
    let end = piece.len() - 1;
    let last = end - LANES;
    let pairs = pairs_from(piece, last, first, second);
    if pairs != 0 {
        return last + lowest(pairs);
    }
    if piece[end] == first {
        return end;
    }
    piece.len()
}

/// Whether both begin with the same bytes, as far as both go.
fn begin_alike(piece: &[u8], rest: &[u8]) -> bool
    ensures { Agrees piece.now rest.now 0 → IsTrue result }
{
    let len = piece.len().min(rest.len());
    piece[..len] == rest[..len]
}

/// Returns a number whose bit k is set if the two bytes are side by side at the index `at + k`, for
/// each k below 32.
#[inline(always)]
fn pairs_from(piece: &[u8], at: usize, first: u8, second: u8) -> u64
    requires { at + 33 ≤ length piece.now }
    ensures small { result < 2 ^ 32 }
    ensures set { (k : ℕ) → k < 32 → HasPair first second piece.now (at + k) → bit_at result k ≡ 1 }
{
    marks(piece, at, first) & marks(piece, at + 1, second)
}

/// Returns a number whose bit k is set if the piece has the byte at the index `at + k`, for each k
/// below 32.
#[inline(always)]
fn marks(piece: &[u8], at: usize, byte: u8) -> u64
    requires { at + 32 ≤ length piece.now }
    ensures small { result < 2 ^ 32 }
    ensures set { (k : ℕ) → k < 32 → slice_index piece.now (at + k) ≡ byte → bit_at result k ≡ 1 }
{
    let bytes = u8x32::from_slice(&piece[at..]);
    bytes.simd_eq(u8x32::splat(byte)).to_bitmask()
}
