//! Escaping: the pattern that matches a text and nothing else.
ghost use Rattle.std.specs.Prelude.{◌≡◌, ◌≢◌, ◌+◌, ◌≤◌, ◌++◌, length, take};
ghost use Rattle.zorfelith_c.specs.Escaping.{TellsEscaped, escaped, escaped_byte, is_special};
ghost use Rattle.zorfelith_c.specs.Statuses.{done, short};

use crate::status::{DONE, NOT_UTF8, SHORT};

/// Writes the pattern that matches the text and nothing else: the text, with a `\` before each
/// character that means something in a pattern. The status is `DONE`, and `length` is its number of
/// bytes; `SHORT`, if `place` has fewer, and `length` is how many are needed; or `NOT_UTF8`, if the
/// text isn't UTF-8.
#[unsafe(no_mangle)]
pub extern "C" fn zf_escape(text: &[u8], place: &mut [u8], length: &mut usize) -> u32
    ensures answered { TellsEscaped text.now result place.new length.new }
    ensures unwritten { result ≢ done → place.new ≡ place.old }
    ensures unmeasured { result ≢ done → result ≢ short → length.new ≡ length.old }
{
    if str::from_utf8(text).is_err() {
        return NOT_UTF8;
    }
    *length = escaped_len(text);
    if *length > place.len() {
        return SHORT;
    }
    write_escaped(text, place);
    DONE
}

/// Whether the character means something in a pattern.
fn is_special(byte: u8) -> bool
    ensures { result ≡ is_special byte }
{
    byte == b'\\'
        || byte == b'.'
        || byte == b'+'
        || byte == b'*'
        || byte == b'?'
        || byte == b'('
        || byte == b')'
        || byte == b'|'
        || byte == b'['
        || byte == b'{'
        || byte == b'^'
        || byte == b'$'
}

/// The number of bytes of the pattern for a text.
fn escaped_len(text: &[u8]) -> usize
    ensures { result ≡ length (escaped text.now) }
{
    let mut len = 0;
    for i in 0..text.len() {
        len += if is_special(text[i]) { 2 } else { 1 };
    }
    len
}

/// Writes a byte as the pattern has it from `at` on, and returns where it ends.
fn put_escaped(byte: u8, place: &mut [u8], at: usize) -> usize
    requires { at + length (escaped_byte byte) ≤ length place.old }
    ensures end { result ≡ at + length (escaped_byte byte) }
    ensures put { take result place.new ≡ take at place.old ++ escaped_byte byte }
{
    if !is_special(byte) {
        place[at] = byte;
        return at + 1;
    }
    place[at] = b'\\';
    place[at + 1] = byte;
    at + 2
}

/// Writes the pattern for a text.
fn write_escaped(text: &[u8], place: &mut [u8])
    requires { length (escaped text.now) ≤ length place.old }
    ensures { take (length (escaped text.now)) place.new ≡ escaped text.now }
{
    let mut at = 0;
    for i in 0..text.len() {
        at = put_escaped(text[i], place, at);
    }
}
