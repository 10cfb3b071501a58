//! Diagnostics of escapes that don't parse.

ghost use Rattle.std.specs.Prelude.{◌<◌, ◌∷◌, [], length, IfOk};
ghost use Rattle.rc_parser.specs.declared.config.Grammar.{Grammar};
ghost use Rattle.rc_parser.specs.declared.config.Grammar.TheVariants.{Full, Stated};
ghost use Rattle.rc_explain.specs.Shown.{AreAt, HasShape, Stands};

use crate::faults::FaultKind;
use crate::places::Found;
use rc_class_names::properties::{NameError, property_named};
use rc_full_tokens::text::until;
use std::alloc::{AllocError, Global};

/// The fault of an escape that the full grammar doesn't read.
pub fn full_escape_fault(
    alloc: Global,
    octal: bool,
    is_unicode: bool,
    mark: &[char],
) -> Result<Found, AllocError>
    requires { Stands mark.now 0 92 }
    ensures { IfOk result (λ found. HasShape Full found.kind mark.now found.start found.end) }
{
    let (name, end) = match mark {
        ['\\', 'p' | 'P', '{', rest @ ..] => {
            let (name, behind) = until(rest, '}');
            if behind.is_empty() {
                return Ok(Found {
                    kind: FaultKind::UnclosedBrace,
                    start: 2,
                    end: 3,
                });
            }
            (name, brace_end(mark))
        }
        ['\\', 'p' | 'P', name @ ..] => (&name[..name.len().min(1)], 3),
        ['\\', '0'..='9', ..] if octal => {
            return Ok(Found {
                kind: FaultKind::UnknownEscape,
                start: 0,
                end: 2,
            });
        }
        _ => return Ok(shared_fault(mark)),
    };
    let kind = if is_unicode {
        match property_named(alloc, name) {
            Err(NameError::Memory) => return Err(AllocError),
            Err(NameError::UnknownValue) => FaultKind::UnknownPropertyValue,
            _ => FaultKind::UnknownProperty,
        }
    } else {
        FaultKind::PropertyOfBytes
    };
    Ok(Found {
        kind,
        start: 0,
        end,
    })
}

/// The fault of an escape that the stated grammar doesn't read.
pub fn escape_fault(mark: &[char]) -> Found
    requires { Stands mark.now 0 92 }
    ensures { HasShape Stated result.kind mark.now result.start result.end }
{
    match mark {
        ['\\', 'p', '{', ..] | ['\\', 'P', '{', ..] => {
            Found {
                kind: FaultKind::UnicodeClass,
                start: 0,
                end: brace_end(mark),
            }
        }
        ['\\', 'p', ..] | ['\\', 'P', ..] => Found {
            kind: FaultKind::UnicodeClass,
            start: 0,
            end: 3,
        },
        _ => shared_fault(mark),
    }
}

/// The fault of an escape that neither grammar reads, and that is no property.
fn shared_fault(mark: &[char]) -> Found
    requires { Stands mark.now 0 92 }
    ensures { (grammar : Grammar)
        → HasShape grammar result.kind mark.now result.start result.end }
{
    match mark {
        ['\\'] => Found {
            kind: FaultKind::DanglingBackslash,
            start: 0,
            end: 1,
        },
        ['\\', '0'..='9', ..] | ['\\', 'k', ..] => Found {
            kind: FaultKind::Backreference,
            start: 0,
            end: 2,
        },
        ['\\', 'b', '{', ..] => boundary_fault(mark),
        ['\\', 'x', '{', ..] | ['\\', 'u', '{', ..] | ['\\', 'U', '{', ..] => braced_fault(mark),
        ['\\', 'x', ..] => fixed_fault(mark, 4),
        ['\\', 'u', ..] => fixed_fault(mark, 6),
        ['\\', 'U', ..] => fixed_fault(mark, 10),
        _ => Found {
            kind: FaultKind::UnknownEscape,
            start: 0,
            end: 2,
        },
    }
}

/// Where the braces after an escape's letter end.
fn brace_end(mark: &[char]) -> usize
    requires { 0 < length mark.now }
    ensures { 0 < result }
{
    for i in 0..mark.len() {
        if mark[i] == '}' {
            return i + 1;
        }
    }
    mark.len()
}

/// The fault of `\b{` that doesn't parse.
fn boundary_fault(mark: &[char]) -> Found
    requires { AreAt mark.now 0 (92 ∷ 98 ∷ 123 ∷ []) }
    ensures { (grammar : Grammar)
        → HasShape grammar result.kind mark.now result.start result.end }
{
    for i in 0..mark.len() {
        if mark[i] == '}' {
            return Found {
                kind: FaultKind::UnknownBoundary,
                start: 0,
                end: i + 1,
            };
        }
    }
    Found {
        kind: FaultKind::UnclosedBrace,
        start: 2,
        end: 3,
    }
}

/// The fault of a code in braces.
fn braced_fault(mark: &[char]) -> Found
    requires slash { Stands mark.now 0 92 }
    requires brace { Stands mark.now 2 123 }
    ensures { (grammar : Grammar)
        → HasShape grammar result.kind mark.now result.start result.end }
{
    for i in 3..mark.len() {
        let c = mark[i];
        if c == '}' && i > 3 {
            return Found {
                kind: FaultKind::NoScalar,
                start: 0,
                end: i + 1,
            };
        }
        if !c.is_ascii_hexdigit() {
            return Found {
                kind: FaultKind::HexadecimalDigit,
                start: i,
                end: i + 1,
            };
        }
    }
    Found {
        kind: FaultKind::UnclosedBrace,
        start: 2,
        end: 3,
    }
}

/// The fault of a code that should end there.
fn fixed_fault(mark: &[char], end: usize) -> Found
    requires slash { Stands mark.now 0 92 }
    requires end { 0 < end }
    ensures { (grammar : Grammar)
        → HasShape grammar result.kind mark.now result.start result.end }
{
    for i in 2..mark.len() {
        if i >= end {
            break;
        }
        if !mark[i].is_ascii_hexdigit() {
            return Found {
                kind: FaultKind::HexadecimalDigit,
                start: i,
                end: i + 1,
            };
        }
    }
    if mark.len() < end {
        return Found {
            kind: FaultKind::HexadecimalDigit,
            start: 0,
            end: mark.len(),
        };
    }
    Found {
        kind: FaultKind::NoScalar,
        start: 0,
        end,
    }
}
