//! The marks of which the text of a pattern is made, from left to right.

ghost use Rattle.std.specs.Prelude.{◌≡◌, ◌↔◌, ◌∷◌, ℕ, Some, None, IfOk, string_bytes, encode_utf8_all};
ghost use Rattle.rc_tokens.specs.Text.{Characters, is_at};
ghost use Rattle.rc_tokens.specs.Marks.{bounds};
ghost use Rattle.rc_tokens.specs.Lexer.{run, after_run, is_before, past};
ghost use Rattle.rc_tokens.specs.View.{IsResultOf};
ghost use Rattle.rc_full_parser.specs.declared.marks.MarkSettings.{MarkSettings};
ghost use Rattle.rc_full_parser.specs.Marks as spec;
ghost use Rattle.rc_full_parser.specs.Marks.{piece_of, IsMark};
ghost use Rattle.rc_full_parser.specs.Marked.{flags_then, name_then, named, group, opening, escape_then, count_then, mark_at, read_mark};
ghost use Rattle.rc_full_parser.specs.View.{mark_of};

use rc_full_escapes::escapes::{FullEscape, escape};
use rc_full_lists::items::Item;
use rc_full_tokens::counts::count;
use rc_full_tokens::flags::{FlagChange, flag_changes};
use rc_full_tokens::names::is_group_name;
use rc_full_tokens::text::{after, first, until};
use rc_tokens::refusal::Refusal;
use rc_tokens::tokens::{Assertion, Bounds, Escape, Opening};
use std::alloc::{AllocError, Global};

/// What decides how a mark is read.
#[derive(Clone, Copy, Debug, PartialEq, Eq)]
pub struct MarkSettings {
    /// The flag `u`: properties of Unicode are read.
    pub unicode: bool,
    /// Whether octal numbers are escapes.
    pub octal: bool,
    /// Whether `{,n}` is a count.
    pub empty_min: bool,
}

/// A mark that stands alone.
#[derive(Clone, Copy, Debug, PartialEq, Eq)]
pub enum Piece {
    /// A character, plain or escaped.
    Character(char),
    /// The number of `\xHH`.
    Byte(u8),
    /// A Perl class, or a property of Unicode.
    Set(Item),
    Dot,
    Asserts(Assertion),
}

/// A mark.
#[derive(Drop)]
pub enum Mark {
    /// `|`
    Bar,
    /// `)`
    Closes,
    /// Flags from here to the end of the group.
    Sets(FlagChange),
    /// How a group opens, and whether its flags set or clear `x`.
    Opens(Opening, Option<bool>),
    Repeats(Bounds),
    /// The `[` of a list.
    Brackets,
    Stands(Piece),
}

/// A repetition with these bounds, lazy if a `?` follows.
fn repeats(text: &[char], min: u32, max: Option<u32>) -> (Mark, &[char])
    ensures mark { mark_of result.0 ≡ spec.repeats (bounds (is_at 63 text.now) min max) }
    ensures rest { result.1.now ≡ past 63 text.now }
{
    if let Some(rest) = after(text, '?') {
        let lazy = true;
        return (Mark::Repeats(Bounds { min, max, lazy }), rest);
    }
    let lazy = false;
    (Mark::Repeats(Bounds { min, max, lazy }), text)
}

/// A counted repetition, behind its `{`.
fn counted(settings: MarkSettings, text: &[char]) -> Result<(Mark, &[char]), Refusal>
    ensures { IsResultOf result (count_then settings text.now) (λ p. (mark_of p.0, p.1.now)) }
{
    let Some(((min, max), rest)) = count(settings.empty_min, text) else {
        return Err(Refusal::Syntax);
    };
    Ok(repeats(rest, min, max))
}

/// The flags at the front, up to a `)` or a `:`, and the rest.
#[tactic(auto, using(rc_tokens::proofs::RunLemmas::passed_none, rc_tokens::proofs::RunLemmas::passed_more, rc_tokens::proofs::RunLemmas::passed_until))]
fn flags(text: &[char]) -> (&[char], &[char])
    ensures front { result.0.now ≡ run (is_before 41 58) text.now }
    ensures rest { result.1.now ≡ after_run (is_before 41 58) text.now }
{
    for i in 0..text.len() {
        if text[i] == ')' || text[i] == ':' {
            return (&text[..i], &text[i..]);
        }
    }
    (text, &text[text.len()..])
}

/// Goes on behind a text of flags.
#[tactic(auto, using(crate::proofs::ShapeLemmas::none_empty, crate::proofs::ShapeLemmas::some_full))]
fn flags_then<'t>(flags: &[char], text: &'t [char]) -> Result<(Mark, &'t [char]), Refusal>
    ensures { IsResultOf result (flags_then flags.now text.now) (λ p. (mark_of p.0, p.1.now)) }
{
    if let Some(rest) = after(text, ')') {
        if flags.is_empty() {
            return Err(Refusal::Syntax);
        }
        let Some(to) = flag_changes(flags) else {
            return Err(Refusal::Syntax);
        };
        return Ok((Mark::Sets(to), rest));
    }
    let Some(rest) = after(text, ':') else {
        return Err(Refusal::Syntax);
    };
    let Some(to) = flag_changes(flags) else {
        return Err(Refusal::Syntax);
    };
    Ok((
        Mark::Opens(Opening::Flagged(to.stated), to.ignore_whitespace),
        rest,
    ))
}

/// The characters as text.
#[tactic(auto, using(crate::proofs::ShapeLemmas::encoded_none))]
fn string_of(alloc: Global, text: &[char]) -> Result<String, AllocError>
    ensures { IfOk result (λ s. string_bytes s ≡ encode_utf8_all text.now) }
{
    let mut all = String::new(alloc);
    for c in text {
        all.push(*c)?;
    }
    Ok(all)
}

/// Goes on behind the name of a group.
fn name_then<'t>(
    alloc: Global,
    name: &[char],
    text: &'t [char],
) -> Result<(Mark, &'t [char]), Refusal>
    ensures { IsResultOf result (name_then name.now text.now) (λ p. (mark_of p.0, p.1.now)) }
{
    let Some(rest) = after(text, '>') else {
        return Err(Refusal::Syntax);
    };
    if !is_group_name(name) {
        return Err(Refusal::Syntax);
    }
    let name = string_of(alloc, name)?;
    Ok((Mark::Opens(Opening::Named(name), None), rest))
}

/// The name of a group, behind its `<`.
fn named(alloc: Global, text: &[char]) -> Result<(Mark, &[char]), Refusal>
    ensures { IsResultOf result (named text.now) (λ p. (mark_of p.0, p.1.now)) }
{
    let (name, rest) = until(text, '>');
    name_then(alloc, name, rest)
}

/// Goes on behind `(?`.
fn group(alloc: Global, text: &[char]) -> Result<(Mark, &[char]), Refusal>
    ensures { IsResultOf result (group text.now) (λ p. (mark_of p.0, p.1.now)) }
{
    if let Some(text) = after(text, 'P') {
        let Some(text) = after(text, '<') else {
            return Err(Refusal::Syntax);
        };
        return named(alloc, text);
    }
    if let Some(text) = after(text, '<') {
        return named(alloc, text);
    }
    let (letters, rest) = flags(text);
    flags_then(letters, rest)
}

/// Goes on behind `(`.
fn opening(alloc: Global, text: &[char]) -> Result<(Mark, &[char]), Refusal>
    ensures { IsResultOf result (opening text.now) (λ p. (mark_of p.0, p.1.now)) }
{
    let Some(rest) = after(text, '?') else {
        return Ok((Mark::Opens(Opening::Capturing, None), text));
    };
    group(alloc, rest)
}

/// What an escape is among the pieces.
fn piece_of(unicode: bool, escape: FullEscape) -> Option<Piece>
    ensures { result ≡ piece_of unicode escape }
{
    match escape {
        FullEscape::Stated(Escape::Character(c)) => Some(Piece::Character(c)),
        FullEscape::Stated(Escape::Byte(byte)) => Some(Piece::Byte(byte)),
        FullEscape::Stated(Escape::Perl(perl)) => Some(Piece::Set(Item::Perl(perl))),
        FullEscape::Stated(Escape::Assertion(assertion)) => Some(Piece::Asserts(assertion)),
        FullEscape::Property(property) => {
            if unicode {
                return Some(Piece::Set(Item::Property(property)));
            }
            None
        }
    }
}

/// The escape that begins the text.
fn escaped(alloc: Global, settings: MarkSettings, text: &[char]) -> Result<(Mark, &[char]), Refusal>
    ensures { IsResultOf result (escape_then settings text.now) (λ p. (mark_of p.0, p.1.now)) }
{
    let (said, rest) = escape(alloc, settings.octal, text)?;
    let Some(piece) = piece_of(settings.unicode, said) else {
        return Err(Refusal::Syntax);
    };
    Ok((Mark::Stands(piece), rest))
}

fn mark_at<'t>(
    alloc: Global,
    settings: MarkSettings,
    text: &'t [char],
    c: char,
    rest: &'t [char],
) -> Result<(Mark, &'t [char]), Refusal>
    requires { text.now ≡ c ∷ rest.now }
    ensures { IsResultOf result (mark_at settings c rest.now) (λ p. (mark_of p.0, p.1.now)) }
{
    match c {
        '|' => Ok((Mark::Bar, rest)),
        ')' => Ok((Mark::Closes, rest)),
        '(' => opening(alloc, rest),
        '*' => Ok(repeats(rest, 0, None)),
        '+' => Ok(repeats(rest, 1, None)),
        '?' => Ok(repeats(rest, 0, Some(1))),
        '{' => counted(settings, rest),
        '[' => Ok((Mark::Brackets, rest)),
        '\\' => escaped(alloc, settings, text),
        '.' => Ok((Mark::Stands(Piece::Dot), rest)),
        '^' => Ok((Mark::Stands(Piece::Asserts(Assertion::Caret)), rest)),
        '$' => Ok((Mark::Stands(Piece::Asserts(Assertion::Dollar)), rest)),
        _ => Ok((Mark::Stands(Piece::Character(c)), rest)),
    }
}

/// The mark with which the text begins, and the rest. No gap begins the text, if the flag `x` holds.
/// It fails with `Refusal::Syntax` only if no mark begins the text, and with `Refusal::Memory` if it
/// runs out of memory.
#[tactic(auto, using(crate::proofs::ShapeLemmas::mark_is, crate::proofs::ShapeLemmas::mark_none))]
pub fn first_mark(
    alloc: Global,
    settings: MarkSettings,
    text: &[char],
) -> Result<(Mark, &[char]), Refusal>
    ensures { IsResultOf result (read_mark settings text.now) (λ p. (mark_of p.0, p.1.now)) }
{
    let Some((c, rest)) = first(text) else {
        return Err(Refusal::Syntax);
    };
    mark_at(alloc, settings, text, c, rest)
}

/// The reader returns the mark with which the text begins, or none if no mark begins it.
pub fn gives_the_mark()
    ensures { (s : MarkSettings) (t : Characters) (k : spec.Mark) (u : Characters)
        → (read_mark s t ≡ Some (k, u)) ↔ IsMark s t k u }
{}
