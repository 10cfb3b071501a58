//! Length arithmetic that stays within a `usize`.

ghost use Rattle.std.specs.Prelude.{◌≡◌, ◌+◌, ◌*◌, ◌<◌, max, map, Some};
ghost use Rattle.std.specs.Option.{option_map};
ghost use Rattle.rc_pattern.specs.Re as re;
ghost use Rattle.rc_pattern.specs.Meaning.{byte_range, char_range};
ghost use Rattle.rc_pattern.specs.Properties as given;

use super::{ClassBytesRange, ClassUnicodeRange};

/// Whether the length is `Some(0)`.
pub(super) fn is_zero(len: Option<usize>) -> bool
    ensures { result ≡ given.is_zero len }
{
    match len {
        None => false,
        Some(n) => n == 0,
    }
}

/// The lesser of the two, of those that are `Some`.
pub(super) fn least(a: Option<usize>, b: Option<usize>) -> Option<usize>
    ensures { result ≡ given.least a b }
{
    match (a, b) {
        (None, b) => b,
        (Some(m), None) => Some(m),
        (Some(m), Some(n)) => Some(m.min(n)),
    }
}

/// The greater of the two, if both are `Some`.
pub(super) fn greatest(a: Option<usize>, b: Option<usize>) -> Option<usize>
    ensures { result ≡ given.both (λ m n. Some (max m n)) a b }
{
    match (a, b) {
        (Some(m), Some(n)) => Some(m.max(n)),
        (Some(_), None) => None,
        (None, _) => None,
    }
}

/// The sum, if both are `Some`, or the greatest `usize` if the sum is above it.
pub(super) fn saturated_sum(a: Option<usize>, b: Option<usize>) -> Option<usize>
    ensures { result ≡ given.both (λ m n. Some (given.saturated (m + n))) a b }
{
    match (a, b) {
        (Some(m), Some(n)) => Some(m.saturating_add(n)),
        (Some(_), None) => None,
        (None, _) => None,
    }
}

/// The sum, if both are `Some` and it fits.
pub(super) fn capped_sum(a: Option<usize>, b: Option<usize>) -> Option<usize>
    ensures { result ≡ given.both (λ m n. given.capped (m + n)) a b }
{
    match (a, b) {
        (Some(m), Some(n)) => m.checked_add(n),
        (Some(_), None) => None,
        (None, _) => None,
    }
}

/// The number, if both are `Some` and equal.
pub(super) fn common(a: Option<usize>, b: Option<usize>) -> Option<usize>
    ensures { result ≡ given.common a b }
{
    match (a, b) {
        (Some(m), Some(n)) => {
            if m == n {
                return Some(m);
            }
            None
        }
        (Some(_), None) => None,
        (None, _) => None,
    }
}

/// The least number of bytes of at least `min` repetitions of a body.
pub(super) fn minimum_of_turns(min: u32, body: Option<usize>) -> Option<usize>
    ensures none { min ≡ 0 → result ≡ Some 0 }
    ensures some { 0 < min → result ≡ option_map (λ k. given.saturated (min * k)) body }
{
    if min == 0 {
        return Some(0);
    }
    match body {
        None => None,
        Some(k) => Some((min as usize).saturating_mul(k)),
    }
}

/// The greatest number of bytes of at most `max` repetitions of a body.
pub(super) fn maximum_of_turns(max: Option<u32>, body: Option<usize>) -> Option<usize>
    ensures { result ≡ given.both (λ most k. given.capped (most * k)) max body }
{
    match (max, body) {
        (Some(most), Some(k)) => (most as usize).checked_mul(k),
        (Some(_), None) => None,
        (None, _) => None,
    }
}

/// The number of groups of a body that may be skipped, which take part in each match.
pub(super) fn optional_static(max: Option<u32>, body: Option<usize>) -> Option<usize>
    ensures { result ≡ given.optional_static max body }
{
    let Some(count) = body else {
        return None;
    };
    if count == 0 {
        return Some(0);
    }
    match max {
        None => None,
        Some(most) => {
            if most == 0 {
                return Some(0);
            }
            None
        }
    }
}

/// The number of bytes of a byte of the ranges. `None` if there are no ranges.
pub(super) fn length_of_bytes(ranges: &[ClassBytesRange]) -> Option<usize>
    ensures least { result ≡ given.minimum_len (re.byte_in (map byte_range ranges.now)) }
    ensures greatest { result ≡ given.maximum_len (re.byte_in (map byte_range ranges.now)) }
{
    if ranges.is_empty() {
        return None;
    }
    Some(1)
}

/// The least number of bytes of a character of the ranges. `None` if there are no ranges.
pub(super) fn minimum_of_chars(ranges: &[ClassUnicodeRange]) -> Option<usize>
    ensures { result ≡ given.minimum_len (re.char_in (map char_range ranges.now)) }
{
    let mut shortest = None;
    for range in ranges {
        shortest = least(shortest, Some(range.start.len_utf8()));
    }
    shortest
}

/// The greatest number of bytes of a character of the ranges. `None` if there are no ranges.
pub(super) fn maximum_of_chars(ranges: &[ClassUnicodeRange]) -> Option<usize>
    ensures { result ≡ given.maximum_len (re.char_in (map char_range ranges.now)) }
{
    if ranges.is_empty() {
        return None;
    }
    let mut longest = 0;
    for range in ranges {
        longest = range.end.len_utf8().max(longest);
    }
    Some(longest)
}
