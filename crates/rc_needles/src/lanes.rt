//! Lanes: the numbers of a vector, and bits that say which of them aren't 0.
ghost use Rattle.std.specs.Prelude.{◌≡◌, ◌<◌, ◌≤◌, ◌^◌, ℕ, IsTrue, length, slice_index};
ghost use Rattle.std.specs.Int.{bit_at};

use std::simd::prelude::*;

/// Whether one of the lanes isn't 0.
#[inline(always)]
pub(crate) fn has_some(lanes: u8x16) -> bool
    requires { length lanes ≡ 16 }
    ensures { (k : ℕ) → k < 16 → 0 < slice_index lanes k → IsTrue result }
{
    lanes.simd_ne(u8x16::splat(0)).to_bitmask() != 0
}

/// Returns a number whose bit k is set if the number at k isn't 0.
#[inline(always)]
pub(crate) fn marks_of(lanes: u8x16) -> u64
    requires { length lanes ≡ 16 }
    ensures small { result < 2 ^ 16 }
    ensures set { (k : ℕ) → k < 16 → 0 < slice_index lanes k → 0 < bit_at result k }
{
    lanes.simd_ne(u8x16::splat(0)).to_bitmask()
}

/// Returns the index of the lowest bit that is set.
#[inline(always)]
pub fn lowest(bits: u64) -> usize
    requires some { 0 < bits }
    requires small { bits < 2 ^ 32 }
    ensures low { result < 32 }
    ensures within { (n : ℕ) → bits < 2 ^ n → result ≤ n }
    ensures none_below { (k : ℕ) → k < result → bit_at bits k ≡ 0 }
{
    bits.trailing_zeros() as usize
}
