//! Look-around: whether an assertion holds, by the bytes on the two sides of a position.
ghost use Rattle.std.specs.Prelude.{◌≡◌, ◌<◌, ◌&&◌, not, is_none, unwrap_or, false};
ghost use Rattle.rc_program.specs.Scalars.{continues, in_bytes, of_two, of_three, of_four, scalar_at, scalar_of_last, scalar_before};
ghost use Rattle.rc_program.specs.Looks.{side_before, side_after, has_byte, is_word_byte, joins_words, is_word_scalar, is_ascii_word, is_unicode_word, is_broken, differ, holds_between};

use rc_pattern::hir::Look;
use unicode::properties::{GeneralCategory, is_alphabetic};

/// Whether the assertion holds at a position: `before` are the bytes before it, and `after` those
/// after it. Lines end at the byte `terminator`, except that `StartCRLF` and `EndCRLF` take CR, LF,
/// and both together as one line end.
///
/// Of longer bytes, the four next to the position are enough.
pub fn holds(look: Look, terminator: u8, before: &[u8], after: &[u8]) -> bool
    ensures { result ≡ holds_between terminator (side_before before.now)
        (side_after after.now) look }
{
    match look {
        Look::Start => before.is_empty(),
        Look::End => after.is_empty(),
        Look::StartLF => before.is_empty() || ends_with(before, terminator),
        Look::EndLF => after.is_empty() || begins_with(after, terminator),
        Look::StartCRLF => begins_line(before, after),
        Look::EndCRLF => ends_line(before, after),
        Look::WordAscii => ascii_word_before(before) != ascii_word_after(after),
        Look::WordAsciiNegate => ascii_word_before(before) == ascii_word_after(after),
        Look::WordStartAscii => !ascii_word_before(before) && ascii_word_after(after),
        Look::WordEndAscii => ascii_word_before(before) && !ascii_word_after(after),
        Look::WordStartHalfAscii => !ascii_word_before(before),
        Look::WordEndHalfAscii => !ascii_word_after(after),
        Look::WordUnicode => word_before(before).unwrap_or(false)
            != word_after(after).unwrap_or(false),
        Look::WordUnicodeNegate => are_same(word_before(before), word_after(after)),
        Look::WordStartUnicode => !word_before(before).unwrap_or(false)
            && word_after(after).unwrap_or(false),
        Look::WordEndUnicode => word_before(before).unwrap_or(false)
            && !word_after(after).unwrap_or(false),
        Look::WordStartHalfUnicode => is_no_word(word_before(before)),
        Look::WordEndHalfUnicode => is_no_word(word_after(after)),
    }
}

/// Returns the scalar with whose UTF-8 bytes these begin, and its length in bytes, from 1 to 4.
/// Returns None if the bytes begin with no scalar.
#[inline(always)]
pub fn scalar_at(bytes: &[u8]) -> Option<(char, usize)>
    ensures { result ≡ scalar_at bytes.now }
{
    if bytes.is_empty() {
        return None;
    }
    let first = bytes[0];
    let rest = &bytes[1..];
    match first {
        0..=127 => Some((char::from(first), 1)),
        128..=191 => None,
        192..=223 => of_two(first - 192, rest),
        224..=239 => of_three(first - 224, rest),
        240..=247 => of_four(first - 240, rest),
        _ => None,
    }
}

/// Returns the scalar with whose UTF-8 bytes these end. Returns None if the bytes end with no
/// scalar.
pub fn scalar_before(bytes: &[u8]) -> Option<char>
    ensures { result ≡ scalar_before bytes.now }
{
    if let Some(c) = scalar_of_last(1, bytes) {
        return Some(c);
    }
    if let Some(c) = scalar_of_last(2, bytes) {
        return Some(c);
    }
    if let Some(c) = scalar_of_last(3, bytes) {
        return Some(c);
    }
    scalar_of_last(4, bytes)
}

/// Whether the character belongs to words: it is alphabetic, a mark, a decimal number or a
/// connecting punctuation, or one of the two joiners U+200C and U+200D.
pub fn is_word_char(c: char) -> bool
    ensures { result ≡ is_word_scalar c }
{
    let code = c as u32;
    if code < 128 {
        return is_word_byte(code as u8);
    }
    is_alphabetic(c)
        || joins_words(GeneralCategory::for_char(c))
        || code == 0x200C
        || code == 0x200D
}

/// Whether the byte is an ASCII letter, an ASCII digit or `_`.
fn is_word_byte(byte: u8) -> bool
    ensures { result ≡ is_word_byte byte }
{
    matches!(byte, b'0'..=b'9' | b'A'..=b'Z' | b'_' | b'a'..=b'z')
}

/// Whether characters of the category belong to words though they aren't alphabetic.
fn joins_words(category: GeneralCategory) -> bool
    ensures { result ≡ joins_words category }
{
    matches!(
        category,
        GeneralCategory::NonspacingMark
            | GeneralCategory::SpacingMark
            | GeneralCategory::EnclosingMark
            | GeneralCategory::DecimalNumber
            | GeneralCategory::ConnectorPunctuation
    )
}

/// Whether the last byte is this one.
fn ends_with(bytes: &[u8], byte: u8) -> bool
    ensures { result ≡ has_byte byte (side_before bytes.now) }
{
    !bytes.is_empty() && bytes[bytes.len() - 1] == byte
}

/// Whether the first byte is this one.
fn begins_with(bytes: &[u8], byte: u8) -> bool
    ensures { result ≡ has_byte byte (side_after bytes.now) }
{
    !bytes.is_empty() && bytes[0] == byte
}

/// Whether a line begins at the position, if lines end at CR, LF, or both together.
fn begins_line(before: &[u8], after: &[u8]) -> bool
    ensures { result ≡ holds_between 10 (side_before before.now)
        (side_after after.now) Look.StartCRLF }
{
    before.is_empty()
        || ends_with(before, b'\n')
        || (ends_with(before, b'\r') && !begins_with(after, b'\n'))
}

/// Whether a line ends at the position, if lines end at CR, LF, or both together.
fn ends_line(before: &[u8], after: &[u8]) -> bool
    ensures { result ≡ holds_between 10 (side_before before.now)
        (side_after after.now) Look.EndCRLF }
{
    after.is_empty()
        || begins_with(after, b'\r')
        || (begins_with(after, b'\n') && !ends_with(before, b'\r'))
}

/// Whether the last byte is an ASCII word byte.
fn ascii_word_before(before: &[u8]) -> bool
    ensures { result ≡ is_ascii_word (side_before before.now) }
{
    !before.is_empty() && is_word_byte(before[before.len() - 1])
}

/// Whether the first byte is an ASCII word byte.
fn ascii_word_after(after: &[u8]) -> bool
    ensures { result ≡ is_ascii_word (side_after after.now) }
{
    !after.is_empty() && is_word_byte(after[0])
}

/// Whether it is known that no word character is there.
fn is_no_word(word: Option<bool>) -> bool
    ensures { result ≡ (not (is_none word) && not (unwrap_or word false)) }
{
    match word {
        None => false,
        Some(is_word) => !is_word,
    }
}

/// Whether both are known, and are the same.
fn are_same(before: Option<bool>, after: Option<bool>) -> bool
    ensures { result ≡ (not (is_none before) && not (is_none after)
        && not (differ (unwrap_or before false) (unwrap_or after false))) }
{
    match (before, after) {
        (Some(b), Some(a)) => b == a,
        (Some(_), None) => false,
        (None, _) => false,
    }
}

// Whether a word character is before the position. Returns None if bytes are there, but no scalar.
fn word_before(before: &[u8]) -> Option<bool>
    ensures word { unwrap_or result false ≡ is_unicode_word (side_before before.now) }
    ensures broken { is_none result ≡ is_broken (side_before before.now) }
{
    if before.is_empty() {
        return Some(false);
    }
    let c = scalar_before(before)?;
    Some(is_word_char(c))
}

// Whether a word character is after the position. Returns None if bytes are there, but no scalar.
fn word_after(after: &[u8]) -> Option<bool>
    ensures word { unwrap_or result false ≡ is_unicode_word (side_after after.now) }
    ensures broken { is_none result ≡ is_broken (side_after after.now) }
{
    if after.is_empty() {
        return Some(false);
    }
    let (c, _) = scalar_at(after)?;
    Some(is_word_char(c))
}

// Returns the scalar of the last `count` bytes, if it takes all of them.
fn scalar_of_last(count: usize, bytes: &[u8]) -> Option<char>
    ensures { result ≡ scalar_of_last count bytes.now }
{
    let last = &bytes[bytes.len().saturating_sub(count)..];
    let (c, taken) = scalar_at(last)?;
    if taken == last.len() { Some(c) } else { None }
}

/// Whether the byte is a continuation byte of UTF-8.
fn continues(byte: u8) -> bool
    ensures { result ≡ continues byte }
{
    byte >= 128 && byte < 192
}

// Returns the scalar with its length in bytes, unless it is less than `least`, and so overlong.
fn in_bytes(count: usize, least: u32, code: u32) -> Option<(char, usize)>
    ensures { result ≡ in_bytes count least code }
{
    if code < least {
        return None;
    }
    let c = char::from_u32(code)?;
    Some((c, count))
}

/// Returns the scalar of two bytes, by its first byte's low five bits and the bytes after it.
fn of_two(lead: u8, rest: &[u8]) -> Option<(char, usize)>
    requires { lead < 32 }
    ensures { result ≡ of_two lead rest.now }
{
    if rest.is_empty() || !continues(rest[0]) {
        return None;
    }
    in_bytes(2, 0x80, u32::from(lead) * 64 + u32::from(rest[0] - 128))
}

/// Returns the scalar of three bytes, by its first byte's low four bits and the bytes after it.
fn of_three(lead: u8, rest: &[u8]) -> Option<(char, usize)>
    requires { lead < 16 }
    ensures { result ≡ of_three lead rest.now }
{
    if rest.len() < 2 || !continues(rest[0]) || !continues(rest[1]) {
        return None;
    }
    let code = (u32::from(lead) * 64 + u32::from(rest[0] - 128)) * 64 + u32::from(rest[1] - 128);
    in_bytes(3, 0x800, code)
}

/// Returns the scalar of four bytes, by its first byte's low three bits and the bytes after it.
fn of_four(lead: u8, rest: &[u8]) -> Option<(char, usize)>
    requires { lead < 8 }
    ensures { result ≡ of_four lead rest.now }
{
    if rest.len() < 3 || !continues(rest[0]) || !continues(rest[1]) || !continues(rest[2]) {
        return None;
    }
    let front = (u32::from(lead) * 64 + u32::from(rest[0] - 128)) * 64 + u32::from(rest[1] - 128);
    in_bytes(4, 0x1_0000, front * 64 + u32::from(rest[2] - 128))
}
