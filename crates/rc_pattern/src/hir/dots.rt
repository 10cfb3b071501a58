//! Dots: the class that a dot matches.

ghost use Rattle.std.specs.Prelude.{◌≡◌, ◌<◌, IfOk, OnOk, map, ◌++◌, ◌∷◌, []};
ghost use Rattle.rc_pattern.specs.Meaning.{byte_range, char_range, class_meaning};
ghost use Rattle.rc_pattern.specs.Dots as dots;

use super::{Class, ClassBytesRange, ClassUnicodeRange};
use std::alloc::{AllocError, Global};

/// The characters or bytes that a dot matches.
#[derive(Clone, Copy, Debug, PartialEq, Eq)]
pub enum Dot {
    /// Every character.
    AnyChar,
    /// Every byte.
    AnyByte,
    /// Every character but this one.
    AnyCharExcept(char),
    /// Every byte but this one.
    AnyByteExcept(u8),
    /// Every character but CR and LF.
    AnyCharExceptCRLF,
    /// Every byte but CR and LF.
    AnyByteExceptCRLF,
}

/// The character before, which before U+E000 is U+D7FF.
fn char_before(c: char) -> char
    requires { 0 < c }
    ensures { result ≡ dots.char_before c }
{
    if c == '\u{E000}' {
        return '\u{D7FF}';
    }
    char::from_u32(c as u32 - 1).unwrap()
}

/// The character after, which after U+D7FF is U+E000.
fn char_after(c: char) -> char
    requires { c < 0x10FFFF }
    ensures { result ≡ dots.char_after c }
{
    if c == '\u{D7FF}' {
        return '\u{E000}';
    }
    char::from_u32(c as u32 + 1).unwrap()
}

fn push_chars(ranges: &mut Vec<ClassUnicodeRange>, start: char, end: char) -> Result<(), AllocError>
    ensures { OnOk result (map char_range ranges.new.items ≡ map char_range ranges.old.items
        ++ (start, end) ∷ []) }
{
    ranges.push(ClassUnicodeRange { start, end })?;
    Ok(())
}

fn push_bytes(ranges: &mut Vec<ClassBytesRange>, start: u8, end: u8) -> Result<(), AllocError>
    ensures { OnOk result (map byte_range ranges.new.items ≡ map byte_range ranges.old.items
        ++ (start, end) ∷ []) }
{
    ranges.push(ClassBytesRange { start, end })?;
    Ok(())
}

/// All characters but this one.
fn chars_except(alloc: Global, c: char) -> Result<Vec<ClassUnicodeRange>, AllocError>
    ensures { IfOk result (λ ranges. map char_range ranges.items ≡ dots.chars_except c) }
{
    let mut ranges = Vec::new(alloc);
    if c != '\0' {
        push_chars(&mut ranges, '\0', char_before(c))?;
    }
    if c != char::MAX {
        push_chars(&mut ranges, char_after(c), char::MAX)?;
    }
    Ok(ranges)
}

/// All bytes but this one.
fn bytes_except(alloc: Global, b: u8) -> Result<Vec<ClassBytesRange>, AllocError>
    ensures { IfOk result (λ ranges. map byte_range ranges.items ≡ dots.bytes_except b) }
{
    let mut ranges = Vec::new(alloc);
    if b != 0 {
        push_bytes(&mut ranges, 0, b - 1)?;
    }
    if b != 255 {
        push_bytes(&mut ranges, b + 1, 255)?;
    }
    Ok(ranges)
}

fn chars_except_crlf(alloc: Global) -> Result<Vec<ClassUnicodeRange>, AllocError>
    ensures { IfOk result (λ ranges. map char_range ranges.items ≡ (0, 9) ∷ (11, 12)
        ∷ (14, 0x10FFFF) ∷ []) }
{
    let mut ranges = Vec::new(alloc);
    push_chars(&mut ranges, '\0', '\t')?;
    push_chars(&mut ranges, '\x0B', '\x0C')?;
    push_chars(&mut ranges, '\x0E', char::MAX)?;
    Ok(ranges)
}

fn bytes_except_crlf(alloc: Global) -> Result<Vec<ClassBytesRange>, AllocError>
    ensures { IfOk result (λ ranges. map byte_range ranges.items ≡ (0, 9) ∷ (11, 12) ∷ (14, 255)
        ∷ []) }
{
    let mut ranges = Vec::new(alloc);
    push_bytes(&mut ranges, 0, b'\t')?;
    push_bytes(&mut ranges, b'\x0B', b'\x0C')?;
    push_bytes(&mut ranges, b'\x0E', 255)?;
    Ok(ranges)
}

/// The class that the dot matches.
pub(super) fn class_of(alloc: Global, dot: Dot) -> Result<Class, AllocError>
    ensures { IfOk result (λ class. class_meaning class ≡ dots.dot_of dot) }
{
    match dot {
        Dot::AnyChar => {
            let mut ranges = Vec::new(alloc);
            push_chars(&mut ranges, '\0', char::MAX)?;
            Ok(Class::Unicode(ranges))
        }
        Dot::AnyByte => {
            let mut ranges = Vec::new(alloc);
            push_bytes(&mut ranges, 0, 255)?;
            Ok(Class::Bytes(ranges))
        }
        Dot::AnyCharExcept(c) => Ok(Class::Unicode(chars_except(alloc, c)?)),
        Dot::AnyByteExcept(b) => Ok(Class::Bytes(bytes_except(alloc, b)?)),
        Dot::AnyCharExceptCRLF => Ok(Class::Unicode(chars_except_crlf(alloc)?)),
        Dot::AnyByteExceptCRLF => Ok(Class::Bytes(bytes_except_crlf(alloc)?)),
    }
}
