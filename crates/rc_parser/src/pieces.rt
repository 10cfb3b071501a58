//! Atoms: the patterns of tokens that stand alone.

ghost use Rattle.std.specs.Prelude.{◌≡◌, ◌⊎◌, ◌+◌, ◌<◌, ◌∷◌, ◌++◌, true, false, None, Some, [], map, option_map, MatchResult, OnOk, IfOk, IsTrue, encode_utf8_all, length, drop};
ghost use Rattle.rc_pattern.specs.Meaning.{meaning, literal_of, byte_range, char_range};
ghost use Rattle.rc_pattern.specs.Kinds.{has_plain_nodes};
ghost use Rattle.rc_pattern.specs.Re as re;
ghost use Rattle.rc_tokens.specs.View.{IsResultOf};
ghost use Rattle.rc_tokens.specs.ClassView.{pairs};
ghost use Rattle.rc_tokens.specs.Classes.{AreCodes, list_ranges, class_of};
ghost use Rattle.rc_tokens.specs.Text.{is_letter};
ghost use Rattle.rc_tokens.specs.Said as sense;
ghost use Rattle.rc_parser.specs.Settings.{settings_of};
ghost use Rattle.rc_parser.specs.Pieces.{line, word, look_of, set_re, char_re, byte_re, dot_kind, has_dot, sense_part, leaf};
ghost use Rattle.rc_parser.specs.View.{part};

use crate::config::Config;
use crate::flags::Flags;
use crate::nested::Nested;
use crate::parts::one_deeper;
use rc_pattern::hir::{Class, ClassBytesRange, ClassUnicodeRange, Dot, Hir, Look};
use rc_tokens::classes::{CodeRange, class_of, has_high};
use rc_tokens::items::{list_ranges, perl_ranges};
use rc_tokens::refusal::Refusal;
use rc_tokens::tokens::{Assertion, List, Perl};
use std::alloc::{AllocError, Global};

/// A pattern in which nothing is nested.
pub fn leaf(hir: Hir) -> Nested
    requires { IsTrue (has_plain_nodes hir) }
    ensures { part result ≡ leaf (meaning hir) }
{
    Nested { hir, depth: 0 }
}

fn line(flags: Flags, whole: Look, lf: Look, crlf: Look) -> Look
    ensures { result ≡ line flags whole lf crlf }
{
    if !flags.multi_line {
        return whole;
    }
    if flags.crlf {
        return crlf;
    }
    lf
}

fn word(flags: Flags, unicode: Look, ascii: Look) -> Look
    ensures { result ≡ word flags unicode ascii }
{
    if flags.unicode {
        return unicode;
    }
    ascii
}

fn look_of(flags: Flags, assertion: Assertion) -> Look
    ensures { result ≡ look_of flags assertion }
{
    match assertion {
        Assertion::Caret => line(flags, Look::Start, Look::StartLF, Look::StartCRLF),
        Assertion::Dollar => line(flags, Look::End, Look::EndLF, Look::EndCRLF),
        Assertion::TextStart => Look::Start,
        Assertion::TextEnd => Look::End,
        Assertion::Boundary => word(flags, Look::WordUnicode, Look::WordAscii),
        Assertion::NotBoundary => word(flags, Look::WordUnicodeNegate, Look::WordAsciiNegate),
        Assertion::WordStart => word(flags, Look::WordStartUnicode, Look::WordStartAscii),
        Assertion::WordEnd => word(flags, Look::WordEndUnicode, Look::WordEndAscii),
        Assertion::WordStartHalf => word(
            flags,
            Look::WordStartHalfUnicode,
            Look::WordStartHalfAscii,
        ),
        Assertion::WordEndHalf => word(flags, Look::WordEndHalfUnicode, Look::WordEndHalfAscii),
    }
}

/// The assertion.
pub fn assertion(flags: Flags, assertion: Assertion) -> Nested
    ensures { part result ≡ leaf (re.look (look_of flags assertion)) }
{
    leaf(Hir::look(look_of(flags, assertion)))
}

#[tactic(auto, using(crate::proofs::PieceLemmas::codes_at_true, crate::proofs::PieceLemmas::codes_more))]
fn characters(alloc: Global, ranges: &[CodeRange]) -> Result<Vec<ClassUnicodeRange>, AllocError>
    requires { AreCodes true (pairs ranges.now) }
    ensures { IfOk result (λ v. map char_range v.items ≡ pairs ranges.now) }
{
    let mut all = Vec::new(alloc);
    for i in 0..ranges.len() {
        let range = ranges[i];
        let start = char::from_u32(range.start).unwrap();
        let end = char::from_u32(range.end).unwrap();
        all.push(ClassUnicodeRange { start, end })?;
    }
    Ok(all)
}

#[tactic(auto, using(crate::proofs::PieceLemmas::codes_at_false, crate::proofs::PieceLemmas::codes_more))]
fn bytes(alloc: Global, ranges: &[CodeRange]) -> Result<Vec<ClassBytesRange>, AllocError>
    requires { AreCodes false (pairs ranges.now) }
    ensures { IfOk result (λ v. map byte_range v.items ≡ pairs ranges.now) }
{
    let mut all = Vec::new(alloc);
    for i in 0..ranges.len() {
        let range = ranges[i];
        let start = range.start as u8;
        let end = range.end as u8;
        all.push(ClassBytesRange { start, end })?;
    }
    Ok(all)
}

/// The class of the ranges. It fails with `Refusal::Syntax` if bytes of 128 or more aren't allowed, and
/// the class has one.
pub fn set(
    alloc: Global,
    config: Config,
    flags: Flags,
    ranges: &[CodeRange],
) -> Result<Hir, Refusal>
    requires { AreCodes flags.unicode (pairs ranges.now) }
    ensures reads { IsResultOf result (set_re (settings_of config) flags
        (pairs ranges.now)) meaning }
    ensures kind { IfOk result (λ h. IsTrue (has_plain_nodes h)) }
{
    if flags.unicode {
        let all = characters(alloc, ranges)?;
        return Ok(Hir::class(Class::Unicode(all)));
    }
    if config.get_utf8() && has_high(ranges) {
        return Err(Refusal::Syntax);
    }
    let all = bytes(alloc, ranges)?;
    Ok(Hir::class(Class::Bytes(all)))
}

fn is_letter(c: char) -> bool
    ensures { result ≡ is_letter c }
{
    ('A' <= c && c <= 'Z') || ('a' <= c && c <= 'z')
}

/// The UTF-8 bytes of a character.
pub fn literal(alloc: Global, c: char) -> Result<Hir, AllocError>
    ensures reads { IfOk result (λ h. meaning h ≡ literal_of (encode_utf8_all (c ∷ []))) }
    ensures kind { IfOk result (λ h. IsTrue (has_plain_nodes h)) }
{
    let mut text = String::new(alloc);
    text.push(c)?;
    Hir::literal(alloc, text.as_bytes())
}

/// Both cases of a letter.
#[tactic(auto, using(crate::proofs::PieceLemmas::letter_class, crate::proofs::PieceLemmas::letter_code))]
fn letter(alloc: Global, config: Config, flags: Flags, c: char) -> Result<Hir, Refusal>
    requires { is_letter c ≡ true }
    ensures reads { IsResultOf result (set_re (settings_of config) flags
        (class_of flags.unicode true false ((c, c) ∷ []))) meaning }
    ensures kind { IfOk result (λ h. IsTrue (has_plain_nodes h)) }
{
    let code = c as u32;
    let ranges = [CodeRange {
        start: code,
        end: code,
    }];
    let class = class_of(alloc, flags.unicode, true, false, &ranges)?;
    set(alloc, config, flags, &class)
}

fn char_hir(alloc: Global, config: Config, flags: Flags, c: char) -> Result<Hir, Refusal>
    ensures reads { IsResultOf result (char_re (settings_of config) flags c) meaning }
    ensures kind { IfOk result (λ h. IsTrue (has_plain_nodes h)) }
{
    if flags.case_insensitive && is_letter(c) {
        return letter(alloc, config, flags, c);
    }
    Ok(literal(alloc, c)?)
}

/// A character.
pub fn character(alloc: Global, config: Config, flags: Flags, c: char) -> Result<Nested, Refusal>
    ensures { IsResultOf result (sense_part (settings_of config) flags (sense.Character c)) part }
{
    Ok(leaf(char_hir(alloc, config, flags, c)?))
}

fn byte_hir(alloc: Global, config: Config, flags: Flags, byte: u8) -> Result<Hir, Refusal>
    ensures reads { IsResultOf result (byte_re (settings_of config) flags byte) meaning }
    ensures kind { IfOk result (λ h. IsTrue (has_plain_nodes h)) }
{
    if !flags.unicode && byte >= 128 {
        if config.get_utf8() {
            return Err(Refusal::Syntax);
        }
        return Ok(Hir::literal(alloc, &[byte])?);
    }
    char_hir(alloc, config, flags, byte as char)
}

/// `\xHH`.
pub fn byte(alloc: Global, config: Config, flags: Flags, byte: u8) -> Result<Nested, Refusal>
    ensures { IsResultOf result (sense_part (settings_of config) flags (sense.Byte byte)) part }
{
    Ok(leaf(byte_hir(alloc, config, flags, byte)?))
}

fn dot_kind(config: Config, flags: Flags) -> Dot
    ensures { result ≡ dot_kind (settings_of config) flags }
{
    if flags.dot_matches_new_line {
        if flags.unicode {
            return Dot::AnyChar;
        }
        return Dot::AnyByte;
    }
    if flags.crlf {
        if flags.unicode {
            return Dot::AnyCharExceptCRLF;
        }
        return Dot::AnyByteExceptCRLF;
    }
    if flags.unicode {
        return Dot::AnyCharExcept(config.get_line_terminator() as char);
    }
    Dot::AnyByteExcept(config.get_line_terminator())
}

fn has_dot(config: Config, flags: Flags) -> bool
    ensures { result ≡ has_dot (settings_of config) flags }
{
    if flags.unicode {
        return flags.dot_matches_new_line || flags.crlf || config.get_line_terminator() < 128;
    }
    !config.get_utf8()
}

/// `.`
pub fn dot(alloc: Global, config: Config, flags: Flags) -> Result<Nested, Refusal>
    ensures { IsResultOf result (sense_part (settings_of config) flags sense.Dot) part }
{
    if !has_dot(config, flags) {
        return Err(Refusal::Syntax);
    }
    Ok(leaf(Hir::dot(alloc, dot_kind(config, flags))?))
}

/// A Perl class.
#[tactic(auto, using(rc_tokens::proofs::ClassLemmas::perl_codes))]
pub fn perl(alloc: Global, config: Config, flags: Flags, perl: Perl) -> Result<Nested, Refusal>
    ensures { IsResultOf result (sense_part (settings_of config) flags
        (sense.PerlClass perl)) part }
{
    let ranges = perl_ranges(alloc, flags.unicode, perl)?;
    Ok(leaf(set(alloc, config, flags, &ranges)?))
}

/// A list.
#[tactic(auto, using(crate::proofs::PieceLemmas::list_class, rc_tokens::proofs::ClassLemmas::list_codes))]
pub fn list(alloc: Global, config: Config, flags: Flags, list: &List) -> Result<Nested, Refusal>
    ensures { IsResultOf result (sense_part (settings_of config) flags
        (sense.Members list.now.negated list.now.bracket list.now.members.items)) part }
{
    let ranges = list_ranges(alloc, flags.unicode, list)?;
    let class = class_of(
        alloc,
        flags.unicode,
        flags.case_insensitive,
        list.negated,
        &ranges,
    )?;
    let hir = set(alloc, config, flags, &class)?;
    one_deeper(config, hir, 0).ok_or(Refusal::Syntax)
}
