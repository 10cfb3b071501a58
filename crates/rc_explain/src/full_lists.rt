//! Diagnostics of bracketed lists of the full grammar.

ghost use Rattle.std.specs.Prelude.{◌≡◌, ◌≢◌, ◌⊎◌, ◌∷◌, ◌<◌, ◌≤◌, Some, drop, length, All, IfOk, IfSome, MatchOption, MatchResult};
ghost use Rattle.rc_tokens.specs.Classes.{code_of};
ghost use Rattle.rc_tokens.specs.declared.tokens.Member.TheVariants.{Byte, Character};
ghost use Rattle.rc_parser.specs.declared.config.Grammar.TheVariants.{Full};
ghost use Rattle.rc_full_lists.specs.Parts.{GoesOn};
ghost use Rattle.rc_full_lists.specs.declared.parts.Atom as full;
ghost use Rattle.rc_full_lists.specs.declared.parts.Settings.{Settings};
ghost use Rattle.rc_full_escapes.specs.Escapes.{IsEscape};
ghost use Rattle.rc_explain.specs.Full.{AreBrackets, HasSetAtom, IsCodeAbove};
ghost use Rattle.rc_explain.specs.Reading.{BeginsAtom, IsCoded};
ghost use Rattle.rc_explain.specs.Shown.{HasShape, Stands};

use crate::escapes::full_escape_fault;
use crate::faults::FaultKind;
use crate::lists::unclosed_list;
use crate::marks::from;
use crate::places::{Found, is_at};
use rc_full_escapes::escapes::{FullEscape, escape};
use rc_full_lists::openings::opening;
use rc_full_lists::parts::{Part, Settings, first_part, passed};
use rc_full_tokens::text::after;
use rc_tokens::refusal::Refusal;
use rc_tokens::tokens::Escape;
use std::alloc::{AllocError, Global};

/// What begins an item of a list: its number of characters, and its code; `None` if it is a class.
#[derive(Clone, Copy)]
struct Atom {
    count: usize,
    code: Option<u32>,
}

/// The fault of the first characters.
fn first(kind: FaultKind, count: usize) -> Found
    ensures kind { result.kind ≡ kind }
    ensures start { result.start ≡ 0 }
    ensures end { result.end ≡ count }
{
    Found {
        kind,
        start: 0,
        end: count,
    }
}

/// The code of a character in a list. Only those of ASCII have one among bytes.
fn code_of(unicode: bool, c: char) -> Option<u32>
    ensures { MatchOption result (128 ≤ c) (λ n. code_of unicode (Character c) ≡ Some n) }
{
    if unicode || c < '\u{80}' {
        return Some(c as u32);
    }
    None
}

/// The code of a byte in a list.
fn byte_code(unicode: bool, byte: u8) -> u32
    ensures { code_of unicode (Byte byte) ≡ Some result }
{
    byte as u32
}

/// The atom that is the character `c`, or its fault.
fn plain_atom(settings: Settings, text: &[char], c: char) -> Result<Atom, Found>
    requires begins { text.now ≡ c ∷ drop 1 text.now }
    requires plain { c ≢ 92 }
    ensures { MatchResult result
        (λ atom. (0 < atom.count) × (atom.count ≤ length text.now)
        × BeginsAtom settings text.now atom)
        (λ found. HasShape Full found.kind text.now found.start found.end) }
{
    let code = code_of(settings.unicode, c);
    if code.is_none() {
        return Err(first(FaultKind::MemberPastAscii, 1));
    }
    Ok(Atom { count: 1, code })
}

/// The atom that an escape of `count` characters is, or its fault; `None` if it is a property of
/// characters among bytes.
fn escaped_atom(
    settings: Settings,
    text: &[char],
    said: FullEscape,
    count: usize,
) -> Option<Result<Atom, Found>>
    requires some { 0 < count }
    requires within { count ≤ length text.now }
    requires escape { IsEscape settings.octal text.now said (drop count text.now) }
    ensures { IfSome result (λ told. MatchResult told
        (λ atom. (0 < atom.count) × (atom.count ≤ length text.now)
        × BeginsAtom settings text.now atom)
        (λ found. HasShape Full found.kind text.now found.start found.end)) }
{
    match said {
        FullEscape::Stated(Escape::Assertion(_)) => {
            Some(Err(first(FaultKind::AssertionInList, count)))
        }
        FullEscape::Stated(Escape::Character(c)) => {
            let code = code_of(settings.unicode, c);
            if code.is_none() {
                return Some(Err(first(FaultKind::MemberPastAscii, count)));
            }
            Some(Ok(Atom { count, code }))
        }
        FullEscape::Stated(Escape::Byte(byte)) => {
            let code = Some(byte_code(settings.unicode, byte));
            Some(Ok(Atom { count, code }))
        }
        FullEscape::Stated(Escape::Perl(_)) => Some(Ok(Atom { count, code: None })),
        FullEscape::Property(_) if settings.unicode => Some(Ok(Atom { count, code: None })),
        FullEscape::Property(_) => None,
    }
}

/// The atom that begins the text, or its fault.
fn atom_at(
    alloc: Global,
    settings: Settings,
    text: &[char],
) -> Result<Result<Atom, Found>, AllocError>
    requires { 0 < length text.now }
    ensures { IfOk result (λ told. MatchResult told
        (λ atom. (0 < atom.count) × (atom.count ≤ length text.now)
        × BeginsAtom settings text.now atom)
        (λ found. HasShape Full found.kind text.now found.start found.end)) }
{
    let c = text[0];
    if c != '\\' {
        return Ok(plain_atom(settings, text, c));
    }
    match escape(alloc, settings.octal, text) {
        Ok((said, rest)) => {
            let count = text.len().saturating_sub(rest.len());
            match escaped_atom(settings, text, said, count) {
                Some(told) => Ok(told),
                None => {
                    let fault = full_escape_fault(alloc, settings.octal, false, text)?;
                    Ok(Err(fault))
                }
            }
        }
        Err(Refusal::Memory) => Err(AllocError),
        Err(Refusal::Syntax) => {
            let fault = full_escape_fault(alloc, settings.octal, settings.unicode, text)?;
            Ok(Err(fault))
        }
    }
}

/// Where the upper end of a range begins, if a hyphen behind the first `at` characters goes on with
/// one.
fn upper_end(verbose: bool, text: &[char], at: usize) -> Option<usize>
    ensures within { IfSome result (λ start. start < length text.now) }
    ensures goes_on { (s : Settings) → s.verbose ≡ verbose
        → IfSome result (λ start. GoesOn s (drop at text.now) (drop start text.now)) }
{
    let behind = after(passed(verbose, from(text, at)), '-')?;
    let high = passed(verbose, behind);
    if high.is_empty() || after(high, ']').is_some() || after(high, '-').is_some() {
        return None;
    }
    Some(text.len().saturating_sub(high.len()))
}

/// What is wrong with a range from one atom to another.
fn range_kind(low: Option<u32>, high: Option<u32>) -> Option<FaultKind>
    ensures { (a b : full.Atom) → IsCoded low a → IsCoded high b
        → IfSome result (λ kind. ((kind ≡ FaultKind.ClassInRange) × HasSetAtom a b)
        ⊎ ((kind ≡ FaultKind.RangeOutOfOrder) × IsCodeAbove a b)) }
{
    match (low, high) {
        (Some(low), Some(high)) if high < low => Some(FaultKind::RangeOutOfOrder),
        (Some(_), Some(_)) => None,
        _ => Some(FaultKind::ClassInRange),
    }
}

/// The fault of a text in a list that begins with no part of one; `None` if it lacks its end.
fn part_fault(alloc: Global, settings: Settings, text: &[char]) -> Result<Option<Found>, AllocError>
    requires some { 0 < length text.now }
    requires fits { length text.now ≤ usize.MAX }
    ensures { IfOk result (λ told. IfSome told (λ found.
        HasShape Full found.kind text.now found.start found.end)) }
{
    let low = match atom_at(alloc, settings, text)? {
        Ok(atom) => atom,
        Err(fault) => return Ok(Some(fault)),
    };
    let Some(start) = upper_end(settings.verbose, text, low.count) else {
        return Ok(None);
    };
    let high = match atom_at(alloc, settings, from(text, start))? {
        Ok(atom) => atom,
        Err(fault) => return Ok(Some(fault.after(start))),
    };
    match range_kind(low.code, high.code) {
        Some(kind) => Ok(Some(first(kind, start.saturating_add(high.count)))),
        None => Ok(None),
    }
}

/// Where the parts of a list begin whose `[` ends there.
fn inside(settings: Settings, mark: &[char], at: usize) -> usize {
    let (_, _, rest) = opening(settings.verbose, from(mark, at));
    mark.len().saturating_sub(rest.len())
}

/// The fault of a list that isn't closed. `opens` are the places at which it and the lists in it
/// open that aren't closed, either.
fn innermost_fault(mark: &[char], opens: &[usize]) -> Found
    requires fits { length mark.now ≤ usize.MAX }
    requires outermost { Stands mark.now 0 91 }
    requires others { All (λ at. Stands mark.now at 91) opens.now }
    ensures { HasShape Full result.kind mark.now result.start result.end }
{
    match opens.last() {
        Some(at) => unclosed_list(from(mark, *at)).after(*at),
        None => unclosed_list(mark),
    }
}

/// The number of characters of the list that begins the text, or the first fault of it.
pub fn list_end(
    alloc: Global,
    settings: Settings,
    mark: &[char],
) -> Result<Result<usize, Found>, AllocError>
    requires opens { Stands mark.now 0 91 }
    requires fits { length mark.now ≤ usize.MAX }
    ensures { IfOk result (λ told. MatchResult told
        (λ end. (0 < end) × (end ≤ length mark.now)
        × AreBrackets mark.now (drop end mark.now))
        (λ found. HasShape Full found.kind mark.now found.start found.end)) }
{
    let mut opens: Vec<usize> = Vec::new(alloc);
    opens.push(0)?;
    let mut at = inside(settings, mark, 1);
    for _ in 0..mark.len() {
        let rest = passed(settings.verbose, from(mark, at));
        at = mark.len().saturating_sub(rest.len());
        if at >= mark.len() {
            break;
        }
        match first_part(alloc, settings, from(mark, at)) {
            Ok((Part::Closes, _)) => {
                at += 1;
                let _ = opens.pop();
                if opens.is_empty() {
                    return Ok(Ok(at));
                }
            }
            Ok((Part::Opens, _)) => {
                if is_at(mark, at, '[') {
                    opens.push(at)?;
                }
                at = inside(settings, mark, at + 1);
            }
            Ok((_, behind)) => at = mark.len().saturating_sub(behind.len()),
            Err(Refusal::Memory) => return Err(AllocError),
            Err(Refusal::Syntax) => match part_fault(alloc, settings, from(mark, at))? {
                Some(fault) => return Ok(Err(fault.after(at))),
                None => break,
            },
        }
    }
    Ok(Err(innermost_fault(mark, &opens)))
}
