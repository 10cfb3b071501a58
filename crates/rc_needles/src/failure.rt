//! Failure function of Knuth, Morris and Pratt: where a search for one needle goes on if a byte
//! differs.
ghost use Rattle.std.specs.Prelude.{◌≡◌, ◌≢◌, ◌∷◌, ◌<◌, ◌≤◌, [], ℕ, IfOk, length, slice_index};
ghost use Rattle.rc_needles.specs.Failures.{AreFailures, GoesOn, IsFailure, IsFailureFunction, IsLongestBorder};

use std::alloc::{AllocError, Global};

/// What was read of a piece.
#[derive(Clone, Copy)]
pub struct Reading {
    /// How many bytes.
    pub len: usize,
    /// How many bytes the needle's longest prefix has with which they end.
    pub state: usize,
}

/// Returns the failure function of the needle. `Err` means out of memory.
pub fn failure_function_of(alloc: Global, needle: &[u8]) -> Result<Vec<usize>, AllocError>
    requires { 0 < length needle.now }
    ensures { IfOk result (λ failures. IsFailureFunction needle.now failures.items) }
{
    let mut failures = Vec::with_capacity(alloc, needle.len())?;
    failures.push(0)?;
    let mut border = 0;
    for at in 1..needle.len() {
        let failure = failure_at(needle, failures.as_slice(), at, border);
        failures.push(failure)?;
        border = next_state(needle, failures.as_slice(), border, needle[at]);
    }
    Ok(failures)
}

/// Returns the failure of the needle's first `at` bytes, by their longest border.
fn failure_at(needle: &[u8], failures: &[usize], at: usize, border: usize) -> usize
    requires within { at < length needle.now }
    requires longest { IsLongestBorder needle.now at border }
    requires known { border < length failures.now }
    requires are { AreFailures needle.now failures.now }
    ensures { IsFailure needle.now at result }
{
    if needle[border] == needle[at] {
        return failures[border];
    }
    border + 1
}

/// Returns how many bytes the needle's longest prefix has with which the text ends, if it ends with
/// the needle's first `state` bytes and then the byte.
fn next_state(needle: &[u8], failures: &[usize], state: usize, byte: u8) -> usize
    requires within { state < length needle.now }
    requires known { state < length failures.now }
    requires are { AreFailures needle.now failures.now }
    ensures { GoesOn needle.now state (byte ∷ []) 1 result }
{
    let mut border = state;
    while needle[border] != byte {
        let failure = failures[border];
        if failure == 0 {
            return 0;
        }
        border = failure - 1;
    }
    border + 1
}

/// Reads the piece behind the needle's first `state` bytes, up to the first byte that differs.
#[inline(always)]
pub fn read_on(needle: &[u8], failures: &[usize], state: usize, piece: &[u8]) -> Reading
    requires within { state < length needle.now }
    requires is { IsFailureFunction needle.now failures.now }
    ensures within { result.len ≤ length piece.now }
    ensures some { 0 < length piece.now → 0 < result.len }
    ensures goes_on { GoesOn needle.now state piece.now result.len result.state }
{
    let len = common_len(piece, &needle[state..]);
    let matched = state + len;
    if len == piece.len() || matched == needle.len() {
        return Reading {
            len,
            state: matched,
        };
    }
    Reading {
        len: len + 1,
        state: next_state(needle, failures, matched, piece[len]),
    }
}

/// Returns with how many bytes both begin alike.
#[inline(always)]
fn common_len(left: &[u8], right: &[u8]) -> usize
    ensures left { result ≤ length left.now }
    ensures right { result ≤ length right.now }
    ensures alike { (i : ℕ) → i < result → slice_index left.now i ≡ slice_index right.now i }
    ensures differ { result < length left.now → result < length right.now
        → slice_index left.now result ≢ slice_index right.now result }
{
    let len = left.len().min(right.len());
    if left[..len] == right[..len] {
        return len;
    }
    for at in 0..len {
        if left[at] != right[at] {
            return at;
        }
    }
    len
}
