//! Look-around: whether an assertion holds at a position. Between two ASCII bytes no character is
//! decoded.
ghost use Rattle.std.specs.Prelude.{◌≡◌, IsTrue, false};
ghost use Rattle.rc_program.specs.Looks.{side_before, side_after, is_word_byte, is_ascii_word, is_unicode_word, is_broken, holds_between};
ghost use Rattle.rc_pikevm.specs.Plain.{IsPlain};

use rc_pattern::hir::Look;
use rc_program::look;

/// For each byte, whether it is an ASCII letter, an ASCII digit or `_`.
#[rattlefmt::skip]
static WORDS: [bool; 256] = [
    false, false, false, false, false, false, false, false, false, false, false, false, false, false, false, false,
    false, false, false, false, false, false, false, false, false, false, false, false, false, false, false, false,
    false, false, false, false, false, false, false, false, false, false, false, false, false, false, false, false,
    true, true, true, true, true, true, true, true, true, true, false, false, false, false, false, false,
    false, true, true, true, true, true, true, true, true, true, true, true, true, true, true, true,
    true, true, true, true, true, true, true, true, true, true, true, false, false, false, false, true,
    false, true, true, true, true, true, true, true, true, true, true, true, true, true, true, true,
    true, true, true, true, true, true, true, true, true, true, true, false, false, false, false, false,
    false, false, false, false, false, false, false, false, false, false, false, false, false, false, false, false,
    false, false, false, false, false, false, false, false, false, false, false, false, false, false, false, false,
    false, false, false, false, false, false, false, false, false, false, false, false, false, false, false, false,
    false, false, false, false, false, false, false, false, false, false, false, false, false, false, false, false,
    false, false, false, false, false, false, false, false, false, false, false, false, false, false, false, false,
    false, false, false, false, false, false, false, false, false, false, false, false, false, false, false, false,
    false, false, false, false, false, false, false, false, false, false, false, false, false, false, false, false,
    false, false, false, false, false, false, false, false, false, false, false, false, false, false, false, false,
];

/// Whether the assertion holds at a position, by the bytes before and after it, as
/// `rc_program::look::holds` defines it. Between ASCII bytes no character is decoded.
#[inline(always)]
pub fn holds(look: Look, terminator: u8, before: &[u8], after: &[u8]) -> bool
    ensures { result ≡ holds_between terminator (side_before before.now)
        (side_after after.now) look }
{
    if before.is_empty() || after.is_empty() {
        return look::holds(look, terminator, before, after);
    }
    if is_ascii_before(before) && is_ascii_after(after) {
        return holds_in_ascii(look, terminator, before, after);
    }
    look::holds(look, terminator, before, after)
}

/// Whether the assertion holds between ASCII bytes.
#[inline(always)]
fn holds_in_ascii(look: Look, terminator: u8, before: &[u8], after: &[u8]) -> bool
    requires before { IsPlain (side_before before.now) }
    requires after { IsPlain (side_after after.now) }
    ensures { result ≡ holds_between terminator (side_before before.now)
        (side_after after.now) look }
{
    let ends = ends_word(before);
    let begins = begins_word(after);
    if matches!(look, Look::WordUnicode) {
        return ends != begins;
    }
    match look {
        Look::WordUnicode => ends != begins,
        Look::WordUnicodeNegate => ends == begins,
        Look::WordStartUnicode => !ends && begins,
        Look::WordEndUnicode => ends && !begins,
        Look::WordStartHalfUnicode => !ends,
        Look::WordEndHalfUnicode => !begins,
        _ => look::holds(look, terminator, before, after),
    }
}

/// Whether the bytes end with an ASCII byte, or there are none.
#[inline(always)]
fn is_ascii_before(before: &[u8]) -> bool
    ensures { IsTrue result → IsPlain (side_before before.now) }
{
    before.is_empty() || before[before.len() - 1] < 128
}

/// Whether the bytes begin with an ASCII byte, or there are none.
#[inline(always)]
fn is_ascii_after(after: &[u8]) -> bool
    ensures { IsTrue result → IsPlain (side_after after.now) }
{
    after.is_empty() || after[0] < 128
}

/// Whether the bytes end with a word character. They end with an ASCII byte, or there are none.
#[inline(always)]
fn ends_word(before: &[u8]) -> bool
    requires { IsPlain (side_before before.now) }
    ensures word { result ≡ is_unicode_word (side_before before.now) }
    ensures whole { is_broken (side_before before.now) ≡ false }
{
    is_word_before(before)
}

/// Whether the bytes begin with a word character. They begin with an ASCII byte, or there are none.
#[inline(always)]
fn begins_word(after: &[u8]) -> bool
    requires { IsPlain (side_after after.now) }
    ensures word { result ≡ is_unicode_word (side_after after.now) }
    ensures whole { is_broken (side_after after.now) ≡ false }
{
    is_word_after(after)
}

/// Whether the last byte is an ASCII letter, an ASCII digit or `_`.
#[inline(always)]
fn is_word_before(before: &[u8]) -> bool
    ensures { result ≡ is_ascii_word (side_before before.now) }
{
    !before.is_empty() && is_word_byte(before[before.len() - 1])
}

/// Whether the first byte is an ASCII letter, an ASCII digit or `_`.
#[inline(always)]
fn is_word_after(after: &[u8]) -> bool
    ensures { result ≡ is_ascii_word (side_after after.now) }
{
    !after.is_empty() && is_word_byte(after[0])
}

/// Whether the byte is an ASCII letter, an ASCII digit or `_`.
#[inline(always)]
fn is_word_byte(byte: u8) -> bool
    ensures { result ≡ is_word_byte byte }
{
    WORDS[byte as usize]
}
