//! Whether a class has a byte or a character.
ghost use Rattle.std.specs.Prelude.{◌≡◌, map};
ghost use Rattle.rc_pattern.specs.Meaning.{byte_range, char_range};
ghost use Rattle.rc_program.specs.Program.{in_ranges};

use rc_pattern::hir::{ClassBytesRange, ClassUnicodeRange};

/// Whether one of the ranges contains the byte.
#[inline(always)]
pub fn has_byte(ranges: &[ClassBytesRange], byte: u8) -> bool
    ensures { result ≡ in_ranges (map byte_range ranges.now) byte }
{
    for range in ranges {
        if range.start <= byte && byte <= range.end {
            return true;
        }
    }
    false
}

/// Whether one of the ranges contains the character.
#[inline(always)]
pub fn has_char(ranges: &[ClassUnicodeRange], character: char) -> bool
    ensures { result ≡ in_ranges (map char_range ranges.now) character }
{
    for range in ranges {
        if range.start <= character && character <= range.end {
            return true;
        }
    }
    false
}
